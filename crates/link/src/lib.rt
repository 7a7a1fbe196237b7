// The union of a line with its neighbours.
//
//     union_line    unites the runs of a line with those that they touch in the lines before, and answers how many unions were joins
//     nbr_line      a line's neighbour by coordinates, for an offset that `offsets::delta` gives
//
// Promised (specs/Lines.antt): the roots afterwards are those of the grouping held before with the line's touches added, the count is
// that of the unions whose roots differed, and every word but group words (parents and sizes) stands.
#![tactic(auto)]

ghost use Rattle.std.specs.Prelude.{◌≡◌, map, ℕ, ◌/◌, ◌^◌, ◌<◌, nat_abs};
ghost use Rattle.frame.specs.Shape.{size};
ghost use Rattle.frame.specs.Structure.{digit};
ghost use Rattle.link.specs.Coordinates.{Move, moved_to};
ghost use Rattle.link.specs.Lines.{signed_coords, Moves, nbr_of, runs_to};
ghost use Rattle.link.specs.Lines.{LinesReady, LineReady, UnitedIn, LineUnited, UnitedBy, pairs_of};

// ---- a line and all its neighbours. The words are the whole memory: line starts, then the runs' words

// Unites the runs of a line, the last that there is, with those of its neighbours: by each leading offset that is used, in C order.
// Answers how many of the unions were joins.
pub fn union_line(words: &mut [u32], g: geo::Geo, structure: &[u8], line: usize) -> usize
    requires { LineReady g structure.now words.old line }
    ensures { LineUnited g structure.now words.old words.new line result }
{
    if words[line] == words[line + 1] {
        return 0;
    }
    let c = coords(g.dims, line);
    let mut joins = 0;
    for code in 0..offsets::backward_count(g.leads) {
        joins += union_by(words, g, structure, line, c, code);
    }
    joins
}

// Unites the runs of a line with those of its neighbour by the leading offset with that code, if there is one and the offset is used.
fn union_by(
    words: &mut [u32],
    g: geo::Geo,
    structure: &[u8],
    line: usize,
    c: [i64; 3],
    code: usize,
) -> usize
    requires { LineReady g structure.now words.old line × (c ≡ signed_coords g.dims line) × (code < 3 ^ g.leads / 2) }
    ensures { UnitedBy g structure.now words.old words.new line code result }
{
    let prev = structure[3 * code] != 0;
    let adj = structure[3 * code + 1] != 0;
    let next = structure[3 * code + 2] != 0;
    if prev | adj | next {
        match nbr_line(g.dims, c, offsets::delta(g.leads, code)) {
            Some(m) => link_lines(words, g.lines, line, m, sweep::Nbr { prev, adj, next }),
            None => 0,
        }
    } else {
        0
    }
}

// Unites the runs of a line with those of an earlier line `m`, by three bytes.
fn link_lines(words: &mut [u32], lines: usize, line: usize, m: usize, by: sweep::Nbr) -> usize
    requires { LinesReady lines words.old line × (m < line) }
    ensures { UnitedIn lines words.old words.new (runs_to words.old line)
        (pairs_of lines words.old line m by) result }
{
    let at = sweep::LinePair {
        ca: words[line] as usize,
        cb: words[line + 1] as usize,
        na: words[m] as usize,
        nb: words[m + 1] as usize,
    };
    let base = lines + 1;
    sweep::link(&mut words[base..], at, by)
}

// ---- the neighbour's line, by coordinates. The dimensions are three, those before the first being 1

// The leading coordinates of a line.
pub fn coords(dims: [usize; 3], line: usize) -> [i64; 3]
    requires { (line < size dims) × (size dims < 4294967296) }
    ensures { result ≡ signed_coords dims line }
{
    let [_, d1, d2] = dims;
    let r = line / d2;
    [(r / d1) as i64, (r % d1) as i64, (line % d2) as i64]
}

// The line at the offset `o` from the line at the coordinates `c`. One coordinate out of range means that there is none, even
// where the line's number would fit.
pub fn nbr_line(dims: [usize; 3], c: [i64; 3], o: [i64; 3]) -> Option<usize>
    requires { Moves dims c o }
    ensures { (ℓ : ℕ) → c ≡ signed_coords dims ℓ → result ≡ nbr_of dims (map digit o) ℓ }
{
    let [d0, d1, d2] = dims;
    let v0 = moved(c[0], o[0], d0)?;
    let v1 = moved(c[1], o[1], d1)?;
    let v2 = moved(c[2], o[2], d2)?;
    Some((v0 * d1 + v1) * d2 + v2)
}

// The coordinate `c`, moved by `o`, if it is then in a dimension of `d`.
fn moved(c: i64, o: i64, d: usize) -> Option<usize>
    requires { Move c o d }
    ensures { result ≡ moved_to (nat_abs c) (digit o) d }
{
    let v = c + o;
    if (v >= 0) & (v < d as i64) {
        Some(v as usize)
    } else {
        None
    }
}
