// Random calls, as the numbers of a list say them, and structures among the cells for changes to be drawn from.
use crate::plain::Plain;
use flood::{CELLS, Extent};
use samples::{Structure, below, near, next};
use trial::{CellKind, NumberKind, OutputKind};

// The places of the cells from one on.
#[derive(Clone, Copy)]
pub struct Span {
    pub from: usize,
    pub count: usize,
}

// An output holds `value` before, as far as its kind can.
#[derive(Clone, Copy)]
pub enum Call {
    Feed {
        kind: CellKind,
        lines: usize,
        span: Span,
    },
    Read {
        into: OutputKind,
        places: usize,
        value: usize,
        unused: usize,
    },
    Change {
        unused: usize,
        span: Span,
    },
    // No call.
    Other([usize; 4]),
}

impl Call {
    // As a list has it: its code, and three numbers.
    pub fn numbers(self) -> [usize; 4] {
        match self {
            Call::Feed { kind, lines, span } => [kind as usize, lines, span.from, span.count],
            Call::Read {
                into,
                places,
                value,
                unused,
            } => [read_code(into), places, value, unused],
            Call::Change { unused, span } => [8, unused, span.from, span.count],
            Call::Other(numbers) => numbers,
        }
    }
}

fn read_code(into: OutputKind) -> usize {
    match into {
        OutputKind::Numbers(NumberKind::U8) => 4,
        OutputKind::Numbers(NumberKind::U16) => 5,
        OutputKind::Numbers(NumberKind::U32) => 6,
        OutputKind::Sizes => 7,
    }
}

// ---- structures among the cells

// How many are prepared.
const STRUCTURES: usize = 5;

// Where one of so many bytes stands: the first at the end of the cells, the next before it.
fn structure_place(i: usize, count: usize) -> usize {
    CELLS.wrapping_sub(i.wrapping_add(1).wrapping_mul(count))
}

// Writes bytes into the places from one on.
pub fn put_bytes(to: &mut [u8], from: usize, bytes: &[u8]) {
    for (place, byte) in to.iter_mut().skip(from).zip(bytes) {
        *place = *byte;
    }
}

// Writes three, each as wide as the one before or wider, a lopsided one, and one with another left byte, into the cells.
pub fn prepare(cells: &mut [u8; CELLS], structure: Structure, x: u64) {
    let y = next(x);
    let wide = structure.wider(y);
    let wider = wide.wider(next(y));
    let widest = wider.wider(next(next(y)));
    let prepared: [Structure; STRUCTURES] = [
        wide,
        wider,
        widest,
        wider.lopsided(y),
        widest.other_left(),
    ];
    for (i, structure) in prepared.iter().enumerate() {
        put_bytes(cells, structure_place(i, structure.count), structure.used());
    }
}

// ---- random calls

// A feed of some of the lines left, from anywhere in the cells; now and then from past their end.
fn draw_feed(kind: CellKind, e: Extent, fed: usize, x: u64) -> Call {
    let left = e.lines.wrapping_sub(fed);
    let lines = below(x, (left / 4).wrapping_add(2));
    let y = next(x);
    let count = near(e.cells(lines), y);
    let past = if y / 16 % 20 == 0 { CELLS } else { 0 };
    let from = below(next(y), 641 - count % 641).wrapping_add(past);
    Call::Feed {
        kind,
        lines,
        span: Span { from, count },
    }
}

// The three numbers of a reading or a size call, whose exact count of places is given; now and then more places than
// there is room for.
fn draw_read(exact: usize, x: u64) -> [usize; 3] {
    let y = next(x);
    let past = if y % 30 == 0 { 641 } else { 0 };
    [
        near(exact, x).wrapping_add(past),
        below(next(y), usize::MAX),
        below(y, 1000),
    ]
}

// Where a structure change's bytes begin: mostly at a prepared structure, of which the first three are drawn twice as often as the others;
// now and then anywhere, or where some are past the cells, or at the largest number there is.
fn draw_place(count: usize, x: u64) -> usize {
    let y = next(x);
    match x % 16 {
        0 => below(y, CELLS),
        1 => 641usize.wrapping_sub(count).wrapping_add(below(y, 100)),
        2 => usize::MAX,
        _ => structure_place(below(y, 8) % STRUCTURES, count),
    }
}

// A structure change, whose exact count of bytes is given; now and then with another.
fn draw_change(exact: usize, x: u64) -> Call {
    let y = next(x);
    let count = if y / 16 % 16 == 0 {
        below(next(y), 100)
    } else {
        exact
    };
    Call::Change {
        unused: below(y, 1000),
        span: Span {
            from: draw_place(exact, x),
            count,
        },
    }
}

// For a session whose lines fed have n groups.
pub fn draw_call(plain: &Plain, n: usize, x: u64) -> Call {
    let e = plain.frame().extent;
    let y = next(x);
    match x % 16 {
        4..=7 => {
            let into = OutputKind::of(x);
            let [places, value, unused] = draw_read(into.places(e, n), y);
            Call::Read {
                into,
                places,
                value,
                unused,
            }
        }
        8 | 10 | 11 => draw_change(plain.structure.count, y),
        9 => {
            let [a, b, c] = draw_read(n, y);
            Call::Other([below(y, 1000).wrapping_add(9), a, b, c])
        }
        _ => draw_feed(CellKind::of(x), e, plain.fed, y),
    }
}
