// The union of the runs of two lines. The words begin with the first run's.
//
//     link          unites the runs of a line with those that they touch in a neighbouring one, by the three bytes of a leading offset
//     sweep         unites each pair of runs that two comparisons pass, with the neighbouring runs' ends widened or shifted by one
//
// Promised (specs/Sweeps.antt): the roots afterwards are those of the grouping held before with the pairs of runs that reach each other
// added, the answer is how many of the unions were joins, and every word but group words (parents and sizes) stands.
#![tactic(auto)]

ghost use Rattle.std.specs.Prelude.{◌≡◌, ◌+◌, ◌-◌, ◌≤◌, ltb, leb};
ghost use Rattle.forest.specs.Unions.{United};
ghost use Rattle.frame.specs.Structure.{digit};
ghost use Rattle.sweep.specs.Sweeps.{run_in, TwoLines, ToSweep, ToSkip, ToRow, Skipped, RowUnites, sweep_pairs, link_pairs};

// The Rust's `Nbr`, of which here the three bytes of a leading offset: cell x of the neighbouring line touches cell x + 1 of the current
// one (prev), x (adj), x - 1 (next).
#[derive(Clone, Copy)]
pub struct Nbr {
    pub prev: bool,
    pub adj: bool,
    pub next: bool,
}

// The runs `ca` to before `cb` of the current line, and `na` to before `nb` of a neighbouring one.
#[derive(Clone, Copy)]
pub struct LinePair {
    pub ca: usize,
    pub cb: usize,
    pub na: usize,
    pub nb: usize,
}

// Unites the runs of two lines by three bytes.
pub fn link(p: &mut [u32], at: LinePair, by: Nbr) -> usize
    requires { TwoLines p.old at }
    ensures { United p.old p.new at.cb (link_pairs by (run_in p.old) at) result }
{
    if (at.ca == at.cb) | (at.na == at.nb) {
        return 0;
    }
    if by.adj {
        return sweep(p, at, by.next as i64, by.prev as i64);
    }
    let mut joins: usize = 0;
    if by.prev {
        joins += sweep_shift(p, at, 1);
    }
    if by.next {
        joins += sweep_shift(p, at, -1);
    }
    joins
}

// A sweep with the neighbouring runs shifted by `d` columns.
fn sweep_shift(p: &mut [u32], at: LinePair, d: i64) -> usize
    requires { ToSweep p.old at d d }
    ensures { United p.old p.new at.cb (sweep_pairs (2 - digit d) (digit d) (run_in p.old) at) result }
{
    sweep(p, at, -d, d)
}

// Unites each current run with each neighbouring one, [start - lo, end + hi), that shares a column with it. Several current runs may meet
// one neighbour, so each goes on from the first neighbour that the one before did not skip.
fn sweep(p: &mut [u32], at: LinePair, lo: i64, hi: i64) -> usize
    requires { ToSweep p.old at lo hi }
    ensures { United p.old p.new at.cb (sweep_pairs (digit lo) (digit hi) (run_in p.old) at) result }
{
    let mut joins: usize = 0;
    let mut j = at.na;
    for i in at.ca..at.cb {
        j = skip(p, i, j, at.nb, hi);
        joins += row(p, i, j, at.nb, lo);
    }
    joins
}

// The first of the runs `j` to before `nb` that does not end by the start of run `i`, or `nb`.
fn skip(p: &[u32], i: usize, j: usize, nb: usize, hi: i64) -> usize
    requires { ToSkip p.now i j nb hi }
    ensures { Skipped (digit hi) (run_in p.now) i j nb result }
{
    let cs = p[frame::STRIDE * i];
    for m in j..nb {
        if !ends_by(p[frame::STRIDE * m + frame::END], hi, cs) {
            return m;
        }
    }
    nb
}

// Unites run `i` with the runs from `j` on that start before it ends, up to the first that does not.
fn row(p: &mut [u32], i: usize, j: usize, nb: usize, lo: i64) -> usize
    requires { ToRow p.old i j nb lo }
    ensures { RowUnites p.old p.new i j nb (digit lo) result }
{
    let ce = p[frame::STRIDE * i + frame::END];
    let mut joins: usize = 0;
    for m in j..nb {
        if !starts_before(p[frame::STRIDE * m], lo, ce) {
            break;
        }
        joins += forest::unite(p, i, m) as usize;
    }
    joins
}

// The two comparisons are of i64: a start less 1 may be below 0, an end and 1 above the largest u32.
fn ends_by(e: u32, hi: i64, cs: u32) -> bool
    requires { digit hi ≤ 2 }
    ensures { result ≡ leb (e + digit hi) (cs + 1) }
{
    e as i64 + hi <= cs as i64
}

fn starts_before(s: u32, lo: i64, ce: u32) -> bool
    requires { digit lo ≤ 2 }
    ensures { result ≡ ltb (s + 1) (ce + digit lo) }
{
    s as i64 - lo < ce as i64
}
