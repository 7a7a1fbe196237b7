// The runs of a line, for each kind of cell: `extract_line` stands for the Rust's extract_line, extract_scalar and extract_bytes.
//
// Promised of it (specs/Extract.antt): the answer counts the line's runs, as `line_runs` lists them, and its nonzero cells;
// each run's start and end are written to the lent words, in order, STRIDE words apart from place `at` on. Every other word stands.
//
// A line is taken by chunks of 64 cells, each by a mask with a bit for each cell. A kind of cell says which of its values are nonzero.
#![tactic(auto)]

ghost use Rattle.std.specs.Prelude.{◌≡◌, Bool, List, [], ◌∷◌, map, ◌+◌, ◌≤◌, ◌<◌, length, drop};
ghost use Rattle.std.specs.Int.Count.{ones, count_trailing_zeros};
ghost use Rattle.frame.specs.Kinds.{nz, nzℤ, nz_f};
ghost use Rattle.runs.specs.Extract.{Room, Extracted};
ghost use Rattle.runs.specs.Masks.{mask_of, Shows, Weighs, Eight};
ghost use Rattle.runs.specs.Boundaries.{places, alone, edge_bits, chunk_boundaries};
ghost use Rattle.runs.specs.Writing.{Fits, FitsNext, Writes, Took};

// How many runs a line has, or several lines, and how many nonzero cells.
#[derive(Clone, Copy)]
pub struct Counts {
    pub runs: usize,
    pub cells: usize,
}

// ---- kinds of cells

// A kind of cell, as the Rust's `Nz`: which of its values are nonzero.
pub trait Nz: Copy {
    // Whether the bytes of 64 cells are stored eight at each turn: f32 is twice as fast so, and u16 and i16 twice as slow, as measured.
    const BY_EIGHTS: bool;

    ghost nonzero: { Self → Bool };

    // A byte that is nonzero exactly where the cell is.
    fn byte(self) -> u8
        ensures { nz result ≡ nonzero self };
}

impl Nz for u8 {
    const BY_EIGHTS: bool = false;

    ghost nonzero = { nz };

    fn byte(self) -> u8 {
        self
    }
}

impl Nz for u16 {
    const BY_EIGHTS: bool = false;

    ghost nonzero = { nz };

    fn byte(self) -> u8 {
        (self != 0) as u8
    }
}

impl Nz for i16 {
    const BY_EIGHTS: bool = false;

    ghost nonzero = { nzℤ };

    fn byte(self) -> u8 {
        (self != 0) as u8
    }
}

// Zero when it is +0.0 or -0.0; NaN is nonzero.
impl Nz for f32 {
    const BY_EIGHTS: bool = true;

    ghost nonzero = { nz_f };

    fn byte(self) -> u8 {
        (self != 0.0) as u8
    }
}

// ---- lines. With `left` (the left byte is nonzero) each maximal stretch of nonzero cells is a run, else each such cell.
// Of the last chunk fewer than 64 cells are in the line, or none: a zero follows them, so that a run that reaches the line's end ends there

pub fn extract_line<T: Nz>(line: &[T], left: bool, words: &mut [u32], at: usize) -> Counts
    requires { Room left (map T.nonzero line.now) words.old at }
    ensures { Extracted left (map T.nonzero line.now) words.old words.new at result }
{
    let full = line.len() / 64;
    let mut boundaries = Boundaries {
        words,
        at,
        count: 0,
    };
    let mut cells: usize = 0;
    let mut carry: u64 = 0;
    for i in 0..full {
        let x = 64 * i;
        let m = mask(&line[x..x + 64]);
        let c = Chunk { m, carry };
        boundaries.push_chunk(c, left, x);
        cells += c.cells();
        carry = m >> 63;
    }
    let x = 64 * full;
    let m = mask(&line[x..]);
    let last = Chunk { m, carry };
    boundaries.push_chunk(last, left, x);
    Counts {
        runs: boundaries.count / 2,
        cells: cells + last.cells(),
    }
}

// ---- the mask of a chunk, whose cells are 64, or fewer at the line's end: those past it count as zero. They stay a slice: a struct that
// says "at most 64" would be made in `mask` and taken apart by the functions below

fn mask<T: Nz>(cells: &[T]) -> u64
    requires { length cells.now ≤ 64 }
    ensures { result ≡ mask_of 64 (map T.nonzero cells.now) }
{
    mask64(bytes(cells))
}

// Its bytes: nonzero where its cells are.
fn bytes<T: Nz>(cells: &[T]) -> [u8; 64]
    requires { length cells.now ≤ 64 }
    ensures { Shows (map T.nonzero cells.now) result 64 }
{
    if T::BY_EIGHTS && cells.len() == 64 {
        return full_bytes(cells);
    }
    padded_bytes(cells)
}

// Of 64 cells, eight at each turn: the compiler then stores eight of f32 together, and mask64 need not wait for single bytes.
fn full_bytes<T: Nz>(cells: &[T]) -> [u8; 64]
    requires { length cells.now ≡ 64 }
    ensures { Shows (map T.nonzero cells.now) result 64 }
{
    let mut b = [0u8; 64];
    for eight in 0..8 {
        for j in 0..8 {
            let i = 8 * eight + j;
            b[i] = cells[i].byte();
        }
    }
    b
}

// Of fewer cells too, and zero past them.
fn padded_bytes<T: Nz>(cells: &[T]) -> [u8; 64]
    requires { length cells.now ≤ 64 }
    ensures { Shows (map T.nonzero cells.now) result 64 }
{
    let mut b = [0u8; 64];
    for i in 0..cells.len() {
        b[i] = cells[i].byte();
    }
    b
}

// ---- masks

// The mask of 64 bytes: the weights of each eight are added up to one byte.
fn mask64(b: [u8; 64]) -> u64
    ensures { result ≡ mask_of 64 (map nz b) }
{
    let t = weigh(b);
    let mut m: u64 = 0;
    for eight in 0..8 {
        let j = 8 * eight;
        m |= (mask8(t, j) as u64) << j;
    }
    m
}

// The weights of 64 bytes: that of byte i is 0 where it is zero, else 2 to the power i % 8.
fn weigh(b: [u8; 64]) -> [u8; 64]
    ensures { Weighs (map nz b) result 64 }
{
    let mut t = [0u8; 64];
    for i in 0..64 {
        t[i] = ((b[i] != 0) as u8) << (i % 8);
    }
    t
}

// The mask of the eight bytes from j on, by their weights. A sum, not an or: the compiler makes one instruction of it.
fn mask8(t: [u8; 64], j: usize) -> u8
    requires { Eight t j }
    ensures { (l : List Bool) → Weighs l t 64 → result ≡ mask_of 8 (drop j l) }
{
    let mut s: u8 = 0;
    for i in 0..8 {
        s += t[j + i];
    }
    s
}

// ---- chunks

// The mask of 64 cells, and the bit of the cell before them.
#[derive(Clone, Copy)]
struct Chunk {
    m: u64,
    carry: u64,
}

impl Chunk {
    // The bits that differ from the one before.
    fn edges(self) -> u64
        ensures { result ≡ edge_bits self.m self.carry }
    {
        self.m ^ ((self.m << 1) | self.carry)
    }

    // How many cells are nonzero. Without an edge all are as the cell before them, which takes less time than counting bits.
    fn cells(self) -> usize
        requires { self.carry < 2 }
        ensures { result ≡ ones self.m }
    {
        if self.edges() == 0 {
            return 64 * self.carry as usize;
        }
        u64::count_ones(self.m) as usize
    }
}

// ---- boundaries: the starts and ends of runs one after the other. Boundary 2i is run i's start, 2i + 1 its end

// The words of the runs from place `at` on, held, and how many boundaries are written.
#[derive(Drop)]
struct Boundaries<'a> {
    words: &'a mut [u32],
    at: usize,
    count: usize,
}

impl<'a> Boundaries<'a> {
    // Writes the boundaries of the chunk from x on.
    fn push_chunk(&mut self, c: Chunk, left: bool, x: usize)
        requires { Fits self.old x (chunk_boundaries left c.m c.carry x) }
        ensures { Writes (chunk_boundaries left c.m c.carry x) self.old self.new }
    {
        if left {
            self.push_edges(c.edges(), x);
        } else {
            self.push_singles(c.m, x);
        }
    }

    // Writes the places of the set bits of e, lowest first: two at each turn, which takes less time than one.
    fn push_edges(&mut self, e: u64, x: usize)
        requires { Fits self.old x (places 64 e x) }
        ensures { Writes (places 64 e x) self.old self.new }
    {
        let mut e = e;
        while e != 0 {
            e = self.push_next(e, x);
            if e == 0 {
                return;
            }
            e = self.push_next(e, x);
        }
    }

    // The same for runs of one cell each: a start and an end for each set bit.
    fn push_singles(&mut self, m: u64, x: usize)
        requires { Fits self.old x (alone (places 64 m x)) }
        ensures { Writes (alone (places 64 m x)) self.old self.new }
    {
        let mut m = m;
        while m != 0 {
            let p = lowest(m, x);
            self.push(p);
            self.push(p + 1);
            m &= m - 1;
        }
    }

    // Writes the place of the lowest set bit of e. Answers e without that bit.
    fn push_next(&mut self, e: u64, x: usize) -> u64
        requires some { 0 < e }
        requires fits { Fits self.old x (places 64 e x) }
        ensures { Took self.old self.new e x result }
    {
        self.push(lowest(e, x));
        e & (e - 1)
    }

    fn push(&mut self, x: u32)
        requires { FitsNext self.old }
        ensures { Writes (x ∷ []) self.old self.new }
    {
        self.words[self.at + frame::STRIDE * (self.count / 2) + self.count % 2 * frame::END] = x;
        self.count += 1;
    }
}

// The place of the lowest set bit of e, where bit 0 stands at x.
fn lowest(e: u64, x: usize) -> u32
    requires { x < 2147483647 }
    ensures { result ≡ x + count_trailing_zeros 64 e }
{
    (x + u64::trailing_zeros(e) as usize) as u32
}
