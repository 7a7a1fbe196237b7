// The cells of a frame in each kind, made of one byte for each that is nonzero where the cell is.
use crate::{below, next};
use flood::CELLS;

// A cell of each kind by its byte and its place.
pub trait Cell: Copy {
    fn of(flag: u8, i: usize) -> Self;
}

impl Cell for u8 {
    fn of(flag: u8, i: usize) -> u8 {
        flag
    }
}

impl Cell for u16 {
    fn of(flag: u8, i: usize) -> u16 {
        match flag {
            0 => 0,
            1 => 1,
            2..=90 => 256,
            91..=180 => 32768,
            _ => 65535,
        }
    }
}

impl Cell for i16 {
    fn of(flag: u8, i: usize) -> i16 {
        match flag {
            0 => 0,
            1 => 1,
            2..=90 => 256,
            91..=180 => -32768,
            _ => -1,
        }
    }
}

// Zero cells are +0.0 and -0.0 in turn.
impl Cell for f32 {
    fn of(flag: u8, i: usize) -> f32 {
        let zero: f32 = 0.0;
        match flag {
            0 => { if i % 2 == 0 { zero } else { -zero } }
            1 => 1.0,
            2..=90 => zero / zero,
            91..=180 => 1.0e-45,
            _ => -1.0 / zero,
        }
    }
}

// The cells of a kind, in the first places of `room`.
pub fn make_cells<'a, T: Cell>(flags: &[u8], room: &'a mut [T]) -> &'a [T] {
    for (i, (cell, flag)) in room.iter_mut().zip(flags).enumerate() {
        *cell = T::of(*flag, i);
    }
    crate::first(room, flags.len())
}

// How many cells in sixteen are nonzero.
fn density(x: u64) -> u64 {
    match x % 7 {
        0 => 1,
        1 => 4,
        2 => 6,
        3 => 8,
        4 => 12,
        5 => 15,
        _ => 16,
    }
}

// Each cell nonzero with a chance of so many sixteenths. Some frames have a stretch of nonzero cells that crosses cell 64, or ends at the
// width.
pub fn random_flags(x: u64) -> [u8; CELLS] {
    let mut flags = [0u8; CELLS];
    let dense = density(x);
    let from = below(next(x), 2000).wrapping_add(30);
    let mut y = next(next(x));
    let to = below(y, 90).wrapping_add(from);
    for (i, flag) in flags.iter_mut().enumerate() {
        y = next(y);
        if y / 256 % 16 < dense || (from <= i && i < to) {
            *flag = (y % 255) as u8 + 1;
        }
    }
    flags
}

// Every other cell.
pub fn lone_flags() -> [u8; CELLS] {
    let mut flags = [0u8; CELLS];
    for flag in flags.iter_mut().step_by(2) {
        *flag = 1;
    }
    flags
}
