// The kinds of cells, of numbers and of outputs, by which a test draws and counts its calls.
use flood::Extent;

#[derive(Clone, Copy, PartialEq, Eq)]
pub enum CellKind {
    U8,
    U16,
    I16,
    F32,
}

impl CellKind {
    // By the remainder of a random number.
    pub fn of(x: u64) -> CellKind {
        match x % 4 {
            0 => CellKind::U8,
            1 => CellKind::U16,
            2 => CellKind::I16,
            _ => CellKind::F32,
        }
    }
}

#[derive(Clone, Copy, PartialEq, Eq)]
pub enum NumberKind {
    U8,
    U16,
    U32,
}

impl NumberKind {
    // By the remainder of a random number.
    pub fn of(x: u64) -> NumberKind {
        match x % 3 {
            0 => NumberKind::U8,
            1 => NumberKind::U16,
            _ => NumberKind::U32,
        }
    }

    pub fn largest(self) -> usize {
        match self {
            NumberKind::U8 => 255,
            NumberKind::U16 => 65535,
            NumberKind::U32 => 4294967295,
        }
    }
}

// What a reading writes, the number of each cell, or a size call, the cell count of each number.
#[derive(Clone, Copy, PartialEq, Eq)]
pub enum OutputKind {
    Numbers(NumberKind),
    Sizes,
}

impl OutputKind {
    // By the remainder of a random number.
    pub fn of(x: u64) -> OutputKind {
        match x % 4 {
            3 => OutputKind::Sizes,
            kind => OutputKind::Numbers(NumberKind::of(kind)),
        }
    }

    // The places of an output where there are n groups.
    pub fn places(self, e: Extent, n: usize) -> usize {
        match self {
            OutputKind::Numbers(_) => e.cells(e.lines),
            OutputKind::Sizes => n,
        }
    }

    // Of more groups a call into this output is refused.
    pub fn most_groups(self) -> usize {
        match self {
            OutputKind::Numbers(kind) => kind.largest(),
            OutputKind::Sizes => NumberKind::U32.largest(),
        }
    }
}
