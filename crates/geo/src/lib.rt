// Shape and structure as numbers, as in the Rust's `Geo`. A shape is an array of four dimensions of which the first `rank` count; a
// structure is lent, and its first 3^rank bytes count.
//
//     geo_of                           leading dimensions, lines, width and left byte, worked out once for a call and handed on
//     bad_rank, has_zero, too_large    causes 1, 3 and 4
//     lopsided                         cause 12
//     not_wider                        cause 19
//     words_needed                     the words of memory that a session needs
//     shape_sound                      the geometry of shape, structure, memory and lines fed, if they are such as a sound record's
//     shape_of, structure_of           the arrays of a lent shape and structure
#![tactic(auto)]

ghost use Rattle.std.specs.Prelude.{◌≡◌, false, ◌||◌, ◌++◌, ◌-◌, ◌*◌, ◌^◌, ◌≤◌, ◌<◌, min, eqb, ltb, length, replicate};
ghost use Rattle.frame.specs.Lists.{entries, padded};
ghost use Rattle.frame.specs.Shape.{size, width, leading};
ghost use Rattle.frame.specs.Structure.{on, left_code};
ghost use Rattle.frame.specs.Memory.{most_runs};
ghost use Rattle.frame.specs.Causes.{bad_rank, has_zero, lopsided, not_wider};
ghost use Rattle.geo.specs.Geometry.{ShapeReady, Measured, WithinLimits, large_geo, words_of, ShapeFound};

// The first width, and the first count of lines or of cells, that is too large.
const WIDTH_LIMIT: usize = 2147483647;

const LIMIT: usize = 4294967293;

// How many leading dimensions there are, and they as three, those before the first being 1; lines, width, and whether the left byte
// is nonzero.
#[derive(Clone, Copy, PartialEq, Eq, Debug)]
pub struct Geo {
    pub leads: usize,
    pub dims: [usize; 3],
    pub lines: usize,
    pub width: usize,
    pub left: bool,
}

// Lines that are too many are counted as the limit, which is too many.
pub fn geo_of(rank: usize, shape: [usize; 4], structure: &[u8]) -> Geo
    requires { ShapeReady rank shape structure.now }
    ensures { Measured rank shape structure.now result }
{
    let dims = leading_dims(rank, shape);
    let lines = limited_lines(dims);
    let width = last_dim(rank, shape);
    let left = left_byte(rank, structure);
    Geo {
        leads: rank - 1,
        dims,
        lines,
        width,
        left,
    }
}

// L + 1 + 5 × L × h.
pub fn words_needed(g: Geo) -> usize
    requires { WithinLimits g }
    ensures { result ≡ words_of g }
{
    let h = most_runs(g.left, g.width);
    g.lines + 1 + frame::STRIDE * g.lines * h
}

// h, the most runs that a line of `w` cells can have: where the left byte is nonzero, adjacent cells are of one run.
pub fn most_runs(left: bool, w: usize) -> usize
    requires { w < 2147483647 }
    ensures { result ≡ most_runs left w }
{
    if left { w.div_ceil(2) } else { w }
}

// ---- causes of a refusal

// 1: rank 0 or above 4.
pub fn bad_rank(rank: usize) -> bool
    ensures { result ≡ (eqb rank 0 || ltb 4 rank) }
{
    rank == 0 || rank > 4
}

// 3: a leading dimension is 0.
pub fn has_zero(g: Geo) -> bool
    ensures { result ≡ has_zero g.dims }
{
    g.dims.contains(&0)
}

// 4: w ≥ 2,147,483,647, or L or L × w ≥ 4,294,967,293. Products that do not fit are too large.
pub fn too_large(g: Geo) -> bool
    requires { g.lines ≤ 4294967293 }
    ensures { result ≡ large_geo g }
{
    let cells = product(g.lines, g.width);
    g.width >= WIDTH_LIMIT || g.lines >= LIMIT || cells >= LIMIT
}

// 12: byte i and byte 3^rank - 1 - i are not both zero or both nonzero. Each pair has one of its bytes before the centre.
pub fn lopsided(rank: usize, structure: &[u8]) -> bool
    requires { (1 ≤ rank) × (rank ≤ 4) × (3 ^ rank ≤ length structure.now) }
    ensures { result ≡ lopsided rank structure.now }
{
    let last = power3(rank) - 1;
    (0..last / 2).any(|i| (structure[i] != 0) != (structure[last - i] != 0))
}

// 19: the left bytes differ in being zero, or an offset nonzero in the old structure is zero in the new. The centre's is looked at too.
pub fn not_wider(rank: usize, old: &[u8], new: &[u8]) -> bool
    requires { (1 ≤ rank) × (rank ≤ 4) × (3 ^ rank ≤ length old.now) × (3 ^ rank ≤ length new.now) }
    ensures { result ≡ not_wider rank old.now new.now }
{
    left_byte(rank, old) != left_byte(rank, new)
        || (0..power3(rank)).any(|i| old[i] != 0 && new[i] == 0)
}

// ---- shapes that may stand in a record

// No cause 1, 12, 3 or 4, the words that are needed, no line too many; whatever the arrays hold. `memory` is the count of words.
pub fn shape_sound(
    rank: usize,
    shape: [usize; 4],
    structure: &[u8; 81],
    memory: usize,
    fed: usize,
) -> Option<Geo>
    ensures { ShapeFound rank shape structure.now memory fed result }
{
    if bad_rank(rank) {
        return None;
    }
    let geo = geo_of(rank, shape, structure);
    if has_zero(geo) || too_large(geo) {
        return None;
    }
    let sound = !lopsided(rank, structure) && words_needed(geo) <= memory && fed <= geo.lines;
    sound.then_some(geo)
}

// ---- dimensions

// The leading dimensions as three, those before the first being 1.
fn leading_dims(rank: usize, shape: [usize; 4]) -> [usize; 3]
    requires { bad_rank (entries rank shape) ≡ false }
    ensures { result ≡ replicate (4 - rank) 1 ++ leading (entries rank shape) }
{
    match rank {
        1 => [1, 1, 1],
        2 => [1, 1, shape[0]],
        3 => [1, shape[0], shape[1]],
        _ => [shape[0], shape[1], shape[2]],
    }
}

// The width w.
fn last_dim(rank: usize, shape: [usize; 4]) -> usize
    requires { bad_rank (entries rank shape) ≡ false }
    ensures { result ≡ width (entries rank shape) }
{
    shape[rank - 1]
}

// The product of three dimensions, or the limit if that is less.
fn limited_lines(dims: [usize; 3]) -> usize
    ensures { result ≡ min (size dims) 4294967293 }
{
    dims.iter().fold(1, |lines, dim| product(lines, *dim))
}

// The product of two numbers, or the limit if that is less.
fn product(a: usize, b: usize) -> usize
    ensures { result ≡ min (a * b) 4294967293 }
{
    a.saturating_mul(b).min(LIMIT)
}

// ---- structure

// Whether the left byte, the one before the centre, is nonzero.
// As methods of a struct of rank and bytes with a ghost field, this and lopsided were proved; not_wider and shape_sound were not.
fn left_byte(rank: usize, structure: &[u8]) -> bool
    requires { (1 ≤ rank) × (rank ≤ 4) × (3 ^ rank ≤ length structure.now) }
    ensures { result ≡ on structure.now (left_code rank) }
{
    structure[power3(rank) / 2 - 1] != 0
}

// 3^rank.
pub fn power3(rank: usize) -> usize
    requires { (1 ≤ rank) × (rank ≤ 4) }
    ensures { result ≡ 3 ^ rank }
{
    match rank {
        1 => 3,
        2 => 9,
        3 => 27,
        _ => 81,
    }
}

// ---- the arrays of a lent shape and structure: the entries past it are 0

pub fn shape_of(shape: &[usize]) -> [usize; 4]
    requires { length shape.now ≤ 4 }
    ensures { result ≡ padded 4 shape.now }
{
    filled_up(shape, 0)
}

pub fn structure_of(structure: &[u8]) -> [u8; 81]
    requires { length structure.now ≤ 81 }
    ensures { result ≡ padded 81 structure.now }
{
    filled_up(structure, 0)
}

// An array that begins with those entries; the others are `fill`.
fn filled_up<T: Copy, const N: usize>(entries: &[T], fill: T) -> [T; N]
    requires { length entries.now ≤ N }
    ensures { result ≡ entries.now ++ replicate (N - length entries.now) fill }
{
    let mut out = [fill; N];
    out[..entries.len()].copy_from_slice(entries);
    out
}
