// What a reading and a size call write. Nothing here knows a record.
//
//     FromU32       a kind of number: the largest, and a number written as one
//     paint_run     one run's cells
//     paint_line    one line's cells, each with the name of its run, into that line's part of the output
//     write_block   every line: the fed ones named and painted, zeros for the others
//     size_block    each number's size, as its root's word has it
//
// Crate names writes the names; painting reads them and writes the output. Promised (specs/Writes.antt), of each kind of number: each run
// has its number as its name and no other word changes, each cell has the number of the run that covers it or 0, and each size is the
// word of its number's root.
#![tactic(auto)]

ghost use Rattle.std.specs.Prelude.{◌≡◌, ℕ, refl, map, ◌+◌, ◌≤◌, length};
ghost use Rattle.frame.specs.Kinds.{Number, largest, u8, u16, u32, Value, write};
ghost use Rattle.write.specs.Writes.{WriteReady, LinesWritten, SizesReady, SizesWritten};
ghost use Rattle.write.specs.Steps.{Filled, PaintReady, LineToPaint, LinePainted};

// ---- kinds of numbers

// A kind of number, as the Rust's `FromU32`: its largest, and a number written as one.
pub trait FromU32: Copy {
    ghost kind: { Number };

    // What a place of an output of this kind holds.
    ghost value: { Self → Value kind };

    const MAXV: u64;

    ghost MAXV: { ℕ };

    fn from_u32(number: u32) -> Self
        requires { number ≤ MAXV }
        ensures { value result ≡ write kind number };

    ghost largest_is: { MAXV ≡ largest kind };
}

#[tactic(auto, unfolding(frame::specs::Kinds::largest))]
impl FromU32 for u8 {
    ghost kind = { u8 };

    ghost value = { λ x. x };

    const MAXV: u64 = 255;

    ghost MAXV = { largest u8 };

    ghost largest_is = { refl };

    fn from_u32(number: u32) -> u8 {
        number as u8
    }
}

#[tactic(auto, unfolding(frame::specs::Kinds::largest))]
impl FromU32 for u16 {
    ghost kind = { u16 };

    ghost value = { λ x. x };

    const MAXV: u64 = 65535;

    ghost MAXV = { largest u16 };

    ghost largest_is = { refl };

    fn from_u32(number: u32) -> u16 {
        number as u16
    }
}

#[tactic(auto, unfolding(frame::specs::Kinds::largest))]
impl FromU32 for u32 {
    ghost kind = { u32 };

    ghost value = { λ x. x };

    const MAXV: u64 = 4294967295;

    ghost MAXV = { largest u32 };

    ghost largest_is = { refl };

    fn from_u32(number: u32) -> u32 {
        number
    }
}

// ---- the numbers of cells

// Writes `v` to the cells `a` to before `e`. No `fill` of std's: it writes the last cell apart, and then painting u16 frames of short runs
// takes about a twentieth longer (measured: 2.33 ms for 2.20).
fn fill<T: FromU32>(out: &mut [T], a: usize, e: usize, v: T)
    requires { e ≤ length out.old }
    ensures { Filled T.kind a e (T.value v) (map T.value out.old) (map T.value out.new) }
{
    for x in a..e {
        out[x] = v;
    }
}

// Writes `v` to the cells `s` to before `e` of a line of `width` cells, past which there are zeros: eight at a time where the line has
// eight cells more, which get their zeros back.
fn paint_run<T: FromU32>(out: &mut [T], s: usize, e: usize, width: usize, v: T)
    requires { PaintReady T.kind s e width (map T.value out.old) }
    ensures { Filled T.kind s e (T.value v) (map T.value out.old) (map T.value out.new) }
{
    if width - e >= 8 {
        // No `for`: over steps of eight, or a count of eights, frames of short runs take a quarter longer (measured: 2.5 ms for 2.0).
        let mut x = s;
        while x < e {
            fill(out, x, x + 8, v);
            x += 8;
        }
        fill(out, e, e + 8, T::from_u32(0));
    } else {
        fill(out, s, e, v);
    }
}

// Writes a line whose runs are named: zeros, and then each run's name to its cells.
fn paint_line<T: FromU32>(words: &[u32], g: geo::Geo, line: usize, out: &mut [T])
    requires { LineToPaint T.kind g.lines g.width line words.now (length out.old) }
    ensures { LinePainted T.kind g.lines g.width line words.now (map T.value out.old) (map T.value out.new) }
{
    fill(out, 0, g.width, T::from_u32(0));
    for r in names::line_start(words, line)..names::line_start(words, line + 1) {
        let start = names::word(words, g.lines, r, 0) as usize;
        let end = names::word(words, g.lines, r, frame::END) as usize;
        let name = names::word(words, g.lines, r, frame::NAME);
        paint_run(out, start, end, g.width, T::from_u32(name));
    }
}

// Names all runs, writes each fed line's numbers, and zeros to the other lines. Each line is painted right after its runs are
// named, while their words are in the cache.
pub fn write_block<T: FromU32>(words: &mut [u32], g: geo::Geo, fed: usize, out: &mut [T])
    requires { WriteReady T.kind g.lines g.width fed words.old (length out.old) }
    ensures { LinesWritten T.kind g.lines g.width fed words.old words.new (map T.value out.old) (map T.value out.new) }
{
    let mut named: u32 = 0;
    for line in 0..fed {
        named = names::name_line(words, g.lines, line, named);
        paint_line(words, g, line, &mut out[line * g.width..]);
    }
    let places = out.len();
    fill(out, fed * g.width, places, T::from_u32(0));
}

// ---- sizes

// Names all runs, and copies the sizes of roots, in the order of their numbers. The size of each run goes to the next root's place, without
// a branch that depends on the run: another follows it there until the root has come.
pub fn size_block(words: &mut [u32], lines: usize, runs: usize, sizes: &mut [u32])
    requires { SizesReady lines runs words.old (length sizes.old) }
    ensures { SizesWritten lines runs words.old words.new sizes.new }
{
    let places = sizes.len();
    let mut named: u32 = 0;
    for r in 0..runs {
        let next = named as usize;
        if next < places {
            sizes[next] = names::word(words, lines, r, frame::SIZE);
        }
        named = names::name_run(words, lines, r, named);
    }
}
