// A plain labelling by flood fill, cell by cell, the words that document 01 lays out for it, and the causes of a structure change: what the
// test programs compare with. It calls no other crate.
//
// Nothing is promised of what these functions answer; they are safe and they end. A read out of range gives 0, a write there does nothing,
// and sums and products wrap.
#![tactic(auto)]

pub mod changes;
pub mod layout;

// The most cells of a frame. What the test programs hold of one is in arrays of so many places, with a count beside them: a Vec may get no
// memory, so that each function here would have to answer a Result.
pub const CELLS: usize = 640;

// ---- a frame in four dimensions: one of a smaller rank has dimensions of 1 in front, and offsets of 0 there

// The dimensions, the last being the width; the count of lines; and whether the left byte is nonzero.
#[derive(Clone, Copy, PartialEq, Eq)]
pub struct Extent {
    pub sizes: [usize; 4],
    pub lines: usize,
    pub left: bool,
}

impl Extent {
    pub fn new(shape: &[usize], structure: &[u8]) -> Extent {
        let mut sizes = [1; 4];
        for (size, entry) in sizes.iter_mut().rev().zip(shape.iter().rev()) {
            *size = *entry;
        }
        Extent {
            sizes,
            lines: sizes[0].wrapping_mul(sizes[1]).wrapping_mul(sizes[2]),
            left: get(structure, (structure.len() / 2).wrapping_sub(1), 0) != 0,
        }
    }

    pub fn width(self) -> usize {
        self.sizes[3]
    }

    // The cells of so many lines.
    pub fn cells(self, lines: usize) -> usize {
        lines.wrapping_mul(self.width())
    }

    // Where a cell stands in its line.
    pub fn column(self, cell: usize) -> usize {
        cell.checked_rem(self.width()).unwrap_or(0)
    }

    fn coordinates(self, cell: usize) -> [usize; 4] {
        let mut at = [0; 4];
        let mut rest = cell;
        for i in (0..4).rev() {
            at[i] = rest.checked_rem(self.sizes[i]).unwrap_or(0);
            rest = rest.checked_div(self.sizes[i]).unwrap_or(0);
        }
        at
    }

    // The cell at an offset from these coordinates, if it is in the frame.
    fn cell_at(self, from: [usize; 4], offset: [usize; 4]) -> Option<usize> {
        let mut cell = 0usize;
        for i in 0..4 {
            let to = from[i].wrapping_add(offset[i]).checked_sub(1)?;
            if to >= self.sizes[i] {
                return None;
            }
            cell = cell.wrapping_mul(self.sizes[i]).wrapping_add(to);
        }
        Some(cell)
    }
}

// The offsets of a structure's entries, in C order: each by its digits, one more than its parts, which are counted up. In a dimension that
// the structure lacks the digit is 1.
#[derive(Clone, Copy)]
pub struct Offsets {
    digits: [usize; 4],
}

impl Offsets {
    // Of a structure of so many entries.
    pub fn of(entries: usize) -> Offsets {
        Offsets {
            digits: [
                (entries < 81) as usize,
                (entries < 27) as usize,
                (entries < 9) as usize,
                0,
            ],
        }
    }
}

impl Iterator for Offsets {
    type Item = [usize; 4];

    // The last digit goes up, or the one before it where that is at its end.
    fn next(&mut self) -> Option<[usize; 4]> {
        let offset = self.digits;
        for digit in self.digits.iter_mut().rev() {
            if *digit < 2 {
                *digit = digit.wrapping_add(1);
                break;
            }
            *digit = 0;
        }
        Some(offset)
    }
}

// A frame with its structure, and a byte for each cell that is nonzero where the cell is.
#[derive(Clone, Copy)]
pub struct Frame<'a> {
    pub shape: &'a [usize],
    pub extent: Extent,
    pub structure: &'a [u8],
    pub flags: &'a [u8],
}

impl<'a> Frame<'a> {
    pub fn new(shape: &'a [usize], structure: &'a [u8], flags: &'a [u8]) -> Frame<'a> {
        Frame {
            shape,
            extent: Extent::new(shape, structure),
            structure,
            flags,
        }
    }

    fn is_set(self, cell: usize) -> bool {
        get(self.flags, cell, 0) != 0
    }

    // Whether a run begins at a cell: with the left byte nonzero a run is a maximal stretch of nonzero cells in a line, otherwise every
    // nonzero cell is one.
    pub fn begins_run(self, cell: usize) -> bool {
        let inside = self.extent.column(cell) != 0 && self.is_set(cell.wrapping_sub(1));
        self.is_set(cell) && !(self.extent.left && inside)
    }

    // Whether a run's last cell is this one.
    pub fn ends_run(self, cell: usize) -> bool {
        let after = cell.wrapping_add(1);
        let inside = self.extent.column(after) != 0 && self.is_set(after);
        self.is_set(cell) && !(self.extent.left && inside)
    }

    // The runs that begin in the first lines.
    pub fn count_runs(self, lines: usize) -> usize {
        (0..self.extent.cells(lines))
            .filter(|cell| self.begins_run(*cell))
            .count()
    }

    // The groups of the first lines' nonzero cells, numbered by their first cells in C order.
    pub fn groups(self, lines: usize) -> Groups {
        let cells = self.extent.cells(lines);
        let mut fill = Fill {
            frame: self,
            cells,
            numbers: [0; CELLS],
            queue: [0; CELLS],
            end: 0,
        };
        let mut n = 0u32;
        for cell in 0..cells {
            if fill.spread(cell, n.wrapping_add(1)) {
                n = n.wrapping_add(1);
            }
        }
        Groups::new(self, cells, n, fill.numbers)
    }
}

// ---- the flood fill

// The number of each cell, 0 where it has none yet, and the cells of a group as they are found.
#[derive(Drop)]
struct Fill<'a> {
    frame: Frame<'a>,
    cells: usize,
    numbers: [u32; CELLS],
    queue: [usize; CELLS],
    end: usize,
}

impl Fill<'_> {
    // A cell gets a number and a place in the queue, if it is one of the first `cells`, nonzero and has no number yet.
    fn reach(&mut self, cell: usize, number: u32) {
        if cell >= self.cells || !self.frame.is_set(cell) || get(&self.numbers, cell, 0) != 0 {
            return;
        }
        put(&mut self.numbers, cell, number);
        put(&mut self.queue, self.end, cell);
        self.end = self.end.wrapping_add(1);
    }

    // Reaches every cell that one step leads to from a cell. A step is any entry of the structure but the middle one that is nonzero, as
    // SciPy describes it.
    fn reach_around(&mut self, cell: usize, number: u32) {
        let structure = self.frame.structure;
        let from = self.frame.extent.coordinates(cell);
        let offsets = Offsets::of(structure.len());
        for (entry, (step, offset)) in structure.iter().zip(offsets).enumerate() {
            if *step == 0 || entry == structure.len() / 2 {
                continue;
            }
            if let Some(to) = self.frame.extent.cell_at(from, offset) {
                self.reach(to, number);
            }
        }
    }

    // Gives a number to a cell, if it is the first of its group, and to all that chains join to it. Whether it is.
    fn spread(&mut self, first: usize, number: u32) -> bool {
        self.end = 0;
        self.reach(first, number);
        for head in 0..CELLS {
            if head >= self.end {
                break;
            }
            self.reach_around(self.queue[head], number);
        }
        self.end != 0
    }
}

// ---- groups

// The count of groups, of runs, and of nonzero cells.
#[derive(Clone, Copy, Default)]
pub struct Count {
    pub n: usize,
    pub runs: usize,
    pub cells: usize,
}

// The number of each cell, 0 where it has none; the number of each run, which is that of its cells; and the counts.
#[derive(Clone, Copy)]
pub struct Groups {
    pub numbers: [u32; CELLS],
    pub names: [u32; CELLS],
    pub count: Count,
}

impl Groups {
    fn new(frame: Frame, cells: usize, n: u32, numbers: [u32; CELLS]) -> Groups {
        let mut names = [0u32; CELLS];
        let mut runs = 0usize;
        for cell in 0..cells {
            if frame.begins_run(cell) {
                put(&mut names, runs, get(&numbers, cell, 0));
                runs = runs.wrapping_add(1);
            }
        }
        let count = Count {
            n: n as usize,
            runs,
            cells: numbers.iter().filter(|number| **number != 0).count(),
        };
        Groups {
            numbers,
            names,
            count,
        }
    }

    // The number of a run.
    pub fn name(&self, run: usize) -> u32 {
        get(&self.names, run, 0)
    }

    // The cells of each number, the first number's at place 0.
    pub fn sizes(&self) -> [u32; CELLS] {
        let mut sizes = [0u32; CELLS];
        for number in self.numbers {
            if let Some(size) = sizes.get_mut((number as usize).wrapping_sub(1)) {
                *size = size.wrapping_add(1);
            }
        }
        sizes
    }

    // Gives the cells and the runs the numbers that they have where groups a and b are one, a being the smaller.
    pub fn unite(&mut self, a: u32, b: u32) {
        for number in self.numbers.iter_mut().chain(self.names.iter_mut()) {
            if *number == b {
                *number = a;
            } else if *number > b {
                *number = number.wrapping_sub(1);
            }
        }
        self.count.n = self.count.n.wrapping_sub(1);
    }
}

// ---- slices of any type

// What stands at a place, or the other value where the slice has no such place.
pub fn get<T: Copy>(s: &[T], i: usize, other: T) -> T {
    s.get(i).copied().unwrap_or(other)
}

// Writes to a place, if the slice has it.
pub fn put<T: Copy>(s: &mut [T], i: usize, x: T) {
    if let Some(place) = s.get_mut(i) {
        *place = x;
    }
}

// Whether the first places hold `right`, and all others what they held before.
pub fn begins_with<T: PartialEq + Copy>(got: &[T], right: &[T], before: T) -> bool {
    let (written, others) = got.split_at(right.len().min(got.len()));
    written == right && others.iter().all(|x| *x == before)
}
