// Random frames of rank 1 to 4 and of at most 640 cells, structures to go on under, their cells in each kind, and sizes of other origin.
// A random number is made of the one before, and all that a function makes is made of the one number that it is given.
#![tactic(auto)]

mod cells;
mod origin;
mod structures;

pub use cells::{Cell, lone_flags, make_cells};
use flood::CELLS;
pub use origin::{deal_sizes, spoil_sizes};
pub use structures::Structure;

// ---- random numbers

// The random numbers of a test: the one drawn last.
#[derive(Clone, Copy)]
pub struct Random {
    last: u64,
}

impl Random {
    pub fn new() -> Random {
        Random {
            last: 88172645463325252,
        }
    }

    pub fn draw(&mut self) -> u64 {
        let a = self.last ^ (self.last << 13);
        let b = a ^ (a >> 7);
        self.last = b ^ (b << 17);
        self.last
    }
}

// Another number. The steps are not those of a test's own random numbers, so that the two never meet.
pub fn next(x: u64) -> u64 {
    let a = x ^ (x << 21);
    let b = a ^ (a >> 35);
    b ^ (b << 4)
}

// A number below n; 0 where n is 0.
pub fn below(x: u64, n: usize) -> usize {
    (x as usize).checked_rem(n).unwrap_or(0)
}

// Mostly n; sometimes one more or one less.
pub fn near(n: usize, x: u64) -> usize {
    match x % 12 {
        0 => n.wrapping_add(1),
        1 => n.saturating_sub(1),
        _ => n,
    }
}

// ---- parts of slices: all of the slice where it has fewer places

pub fn first<T>(s: &[T], n: usize) -> &[T] {
    &s[..n.min(s.len())]
}

pub fn lend<T>(s: &mut [T], n: usize) -> &mut [T] {
    let end = n.min(s.len());
    &mut s[..end]
}

// The n places from `from` on; none where the slice does not have them.
pub fn part_of(s: &[u8], from: usize, n: usize) -> &[u8] {
    match s.split_at_checked(from) {
        Some((_, rest)) if n <= rest.len() => &rest[..n],
        _ => &[],
    }
}

// ---- shapes

// The dimensions, as many as the rank: in an array beside it, as a record has them. A Vec could not be copied, nor stand in a constant.
#[derive(Clone, Copy)]
pub struct Shape {
    pub rank: usize,
    pub entries: [usize; 4],
}

impl Shape {
    pub fn used(&self) -> &[usize] {
        first(&self.entries, self.rank)
    }

    pub fn width(&self) -> usize {
        self.used().last().copied().unwrap_or(0)
    }
}

// Widths at an edge of the masks of 64.
pub const EDGES: [usize; 4] = [63, 64, 65, 128];

// The largest dimension.
fn most(rank: usize) -> usize {
    match rank {
        1 => 200,
        2 => 18,
        3 => 6,
        _ => 4,
    }
}

// A dimension; now and then the last is 0, and, where it is said, a width at an edge of the masks.
fn dimension(rank: usize, j: usize, edge: bool, x: u64) -> usize {
    let some = below(x, most(rank)).wrapping_add(1);
    let rare = next(x);
    let is_last = j.wrapping_add(1) == rank;
    if is_last && edge {
        return EDGES[below(rare, 4) % 4];
    }
    if is_last && rare % 24 == 0 {
        return 0;
    }
    if edge { some % 4 + 1 } else { some }
}

// A third of the frames of rank 1 and 2 have a width at an edge of the masks.
fn random_shape(rank: usize, x: u64) -> Shape {
    let edge = rank < 3 && x % 3 == 0;
    let y = next(x);
    let z = next(next(y));
    let entries = [
        dimension(rank, 0, edge, y),
        dimension(rank, 1, edge, next(y)),
        dimension(rank, 2, edge, z),
        dimension(rank, 3, edge, next(z)),
    ];
    Shape { rank, entries }
}

// ---- frames

// A byte for each cell, nonzero where the cell is: these are the cells of kind u8.
#[derive(Clone, Copy)]
pub struct RandomFrame {
    pub shape: Shape,
    pub structure: Structure,
    pub flags: [u8; CELLS],
}

impl RandomFrame {
    pub fn draw(random: &mut Random) -> RandomFrame {
        let x = random.draw();
        let rank = below(x, 4).wrapping_add(1);
        let shape = random_shape(rank, next(x));
        let structure = Structure::random(rank, random.draw());
        let flags = cells::random_flags(random.draw());
        RandomFrame {
            shape,
            structure,
            flags,
        }
    }
}
