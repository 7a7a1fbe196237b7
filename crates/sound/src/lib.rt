// Whether words are sound, whatever they hold. One loop over the lines and one over all runs; then what they counted is compared. The loop
// over runs has no branch and holds 32-bit numbers alone, so that LLVM takes several runs at once.
//
// Promised (specs/Stored.antt): the answer is the test of all the clauses about words.
//
// A run falls where it starts before the end of the run before it and the gap. In a line that is in order none falls but the first. So the
// lines are in order exactly where as many runs fall as first runs do. Then there are at most h runs in a line, and the sum of the lengths
// is at most the cells of the frame, fewer than 2^32.
#![tactic(auto)]

ghost use Rattle.std.specs.Prelude.{◌≡◌};
ghost use Rattle.sound.specs.Stored.{words_sound, PassReady};
ghost use Rattle.sound.specs.Passes.{LinesReady, LinesFound, RunsReady, RunsFound, BlockReady};

// Whether the words are sound, for a frame of that geometry, `fed` lines of which are fed, with those figures.
pub fn words_sound(words: &[u32], g: geo::Geo, fed: usize, figures: frame::Figures) -> bool
    requires { PassReady g.lines g.width g.left fed words.now }
    ensures { result ≡ words_sound g.lines g.width g.left fed figures words.now }
{
    let runs = figures.runs;
    let most = geo::most_runs(g.left, g.width);
    // No more runs than memory has words for: those looked at are then there, whatever the words hold.
    if (words[0] != 0) | (runs > fed * most) {
        return false;
    }
    let Some(falls) = lines_pass(words, g, fed, runs) else {
        return false;
    };
    let found = runs_pass(words, g.lines, g.left, runs);
    let roots = found.roots as usize;
    let cells = found.cells as usize;
    let joins = figures.joins;
    let total = figures.cells;
    // With the left byte zero each run has one cell: each has at least one, and there are as many cells as runs.
    (found.wrong == 0)
        & (found.falls as usize == falls)
        & (runs - roots == joins)
        & (cells == total)
        & (found.sizes == total)
        & (g.left | (cells == runs))
}

// Before the first run: an end that every start is before, so that the first run falls. A number and no Option, so that the first run is
// no case of its own.
const NO_END: usize = 4294967296;

// How many first runs fall, if the starts of the lines and their last ends are sound. Ends rise along a line that is in order, so that only
// the last is held to the width. No start may be above `runs`, so that the runs looked at are there.
fn lines_pass(words: &[u32], g: geo::Geo, fed: usize, runs: usize) -> Option<usize>
    requires { LinesReady g.lines fed runs words.now }
    ensures { LinesFound g.lines words.now g.width g.left fed runs result }
{
    let gap = g.left as usize;
    let base = g.lines + 1;
    let mut falls = 0;
    let mut end = NO_END;
    let mut a = 0;
    for i in 0..fed {
        let b = words[i + 1] as usize;
        if (b < a) | (b > runs) {
            return None;
        }
        if a < b {
            let s = words[base + frame::STRIDE * a] as usize;
            falls += (s < end + gap) as usize;
            end = words[base + (frame::STRIDE * (b - 1) + frame::END)] as usize;
            if end > g.width {
                return None;
            }
        }
        a = b;
    }
    (a == runs).then_some(falls)
}

// What the pass over the runs finds: how many have no cell or a parent above them, how many fall, how many are their own parents, the cells
// of all, modulo 2^32, the last end, less one where the gap is 0, and the sum of the roots' sizes.
#[derive(Clone, Copy)]
struct Runs {
    wrong: u32,
    falls: u32,
    roots: u32,
    cells: u32,
    last: u32,
    sizes: usize,
}

// How many runs are taken at a time: the halves of so many sizes add up to numbers of 32 bits.
const BLOCK: usize = 65536;

// All runs, block by block.
fn runs_pass(words: &[u32], lines: usize, left: bool, runs: usize) -> Runs
    requires { RunsReady lines runs words.now }
    ensures { RunsFound lines words.now left runs result }
{
    let mut found = Runs {
        wrong: 0,
        falls: 0,
        roots: 0,
        cells: 0,
        last: u32::MAX,
        sizes: 0,
    };
    for block in 0..runs.div_ceil(BLOCK) {
        let a = BLOCK * block;
        found = block_pass(words, lines, left, a, runs.min(a + BLOCK), found);
    }
    found
}

// The runs `a` to before `b`, with what was found before them. Where no run is empty, `last` is the end before, less one where the gap is
// 0: a run falls where that is not before its start. The halves of a root's size are added apart.
fn block_pass(words: &[u32], lines: usize, left: bool, a: usize, b: usize, found: Runs) -> Runs
    requires { BlockReady lines words.now left a b found }
    ensures { RunsFound lines words.now left b result }
{
    let base = lines + 1;
    let less = (!left) as u32;
    let mut wrong = found.wrong;
    let mut falls = found.falls;
    let mut roots = found.roots;
    let mut cells = found.cells;
    let mut last = found.last;
    let mut low: u32 = 0;
    let mut high: u32 = 0;
    for r in a..b {
        let at = frame::STRIDE * r;
        let s = words[base + at];
        let e = words[base + (at + frame::END)];
        let p = words[base + (at + frame::PARENT)];
        let run = r as u32;
        let own = (p == run) as u32;
        let size = words[base + (at + frame::SIZE)] * own;
        wrong += ((e <= s) | (p > run)) as u32;
        falls += (last >= s) as u32;
        roots += own;
        low += size % 65536;
        high += size / 65536;
        cells = cells.wrapping_add(e.wrapping_sub(s));
        last = e.wrapping_sub(less);
    }
    let sizes = found.sizes + low as usize + 65536 * high as usize;
    Runs {
        wrong,
        falls,
        roots,
        cells,
        last,
        sizes,
    }
}
