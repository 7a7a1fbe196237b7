// A stored answer, as a line has it. What is read of one is None where the line does not have the form.
ghost use Rattle.std.specs.Prelude.{◌+◌, length, option_map, unwrap_or};
ghost use Rattle.std.specs.Iterator.{at_most};

use crate::cells::Written;
use arrayvec::ArrayVec;
use trial::{CellKind, NumberKind};

// ---- fields

// What a field says. A number is a decimal of at most ten digits without leading zeros; all else that begins with a digit is Digits.
#[derive(Clone, Copy, PartialEq, Eq, Drop)]
pub enum Said<'a> {
    Number(usize),
    Digits,
    Name(&'a [u8]),
}

impl<'a> Said<'a> {
    // Where the Rust declined.
    pub const NONE: Said<'static> = Said::Name(b"none");

    fn of(field: &'a [u8]) -> Said<'a> {
        match number(field) {
            Some(x) => Said::Number(x),
            None if begins_with_digit(field) => Said::Digits,
            None => Said::Name(name(field)),
        }
    }
}

fn begins_with_digit(field: &[u8]) -> bool {
    field.first().is_some_and(|c| c.is_ascii_digit())
}

pub fn number(field: &[u8]) -> Option<usize> {
    let leading_zero = field.len() > 1 && field.starts_with(b"0");
    if leading_zero || field.len() > 10 || !begins_with_digit(field) {
        return None;
    }
    std::str::from_utf8(field).ok()?.parse().ok()
}

// The last five characters, without bytes 0 before them.
fn name(field: &[u8]) -> &[u8] {
    let (_, last) = field.split_at(field.len().saturating_sub(5));
    let zeros = last.iter().take_while(|c| **c == 0).count();
    last.get(zeros..).unwrap_or(&[])
}

// The fields of a line, or those that are left of them.
#[derive(Clone, Copy)]
pub struct Fields<'a> {
    // None after the last field: a line that ends with a blank has one more, which is empty.
    rest: Option<&'a [u8]>,
}

impl<'a> Fields<'a> {
    fn of(line: &'a [u8]) -> Fields<'a> {
        Fields { rest: Some(line) }
    }
}

impl<'a> Iterator for Fields<'a> {
    type Item = &'a [u8];

    ghost remaining = { λ s. at_most (unwrap_or (option_map (λ x. length x.now + 1) s.rest) 0) };

    fn next(&mut self) -> Option<&'a [u8]> {
        let rest = self.rest?;
        let end = rest.iter().position(|c| *c == b' ');
        let (field, others) = rest.split_at(end.unwrap_or(rest.len()));
        self.rest = others.get(1..);
        Some(field)
    }
}

// The characters of a field, or none where it is a -.
fn characters(field: &[u8]) -> &[u8] {
    if field == b"-".as_slice() { &[] } else { field }
}

// ---- a line

// The most bytes of a structure.
const MOST_BITS: usize = 81;

// The most dimensions.
const MOST_RANK: usize = 4;

// The kinds and the block count of the call, the frame, and what the Rust gave: n and the number of each cell, or `none` and no labels. A
// label that is no number is one that no call writes.
#[derive(Drop)]
pub struct Stored<'a> {
    pub cell_kind: CellKind,
    pub number_kind: NumberKind,
    pub blocks: usize,
    pub shape: ArrayVec<usize, MOST_RANK>,
    pub structure: ArrayVec<u8, MOST_BITS>,
    cells: &'a [u8],
    pub n: Said<'a>,
    pub labels: Fields<'a>,
}

// The kinds as a line names them. No FromStr, which would have to stand in trial: no other program reads these names.
fn cell_kind(field: &[u8]) -> Option<CellKind> {
    match Said::of(field) {
        Said::Name(b"u8") => Some(CellKind::U8),
        Said::Name(b"u16") => Some(CellKind::U16),
        Said::Name(b"i16") => Some(CellKind::I16),
        Said::Name(b"f32") => Some(CellKind::F32),
        _ => None,
    }
}

fn number_kind(field: &[u8]) -> Option<NumberKind> {
    match Said::of(field) {
        Said::Name(b"u8") => Some(NumberKind::U8),
        Said::Name(b"u16") => Some(NumberKind::U16),
        Said::Name(b"u32") => Some(NumberKind::U32),
        _ => None,
    }
}

// A byte of the structure.
fn bit(c: u8) -> Option<u8> {
    match c {
        b'0' => Some(0),
        b'1' => Some(1),
        _ => None,
    }
}

// The rank.
fn rank(field: &[u8]) -> Option<usize> {
    number(field).filter(|rank| *rank >= 1 && *rank <= MOST_RANK)
}

// The dimensions, which are the next fields. One that is no number is too large for a call.
fn shape(fields: &mut Fields, rank: usize) -> Option<ArrayVec<usize, MOST_RANK>> {
    let mut shape = ArrayVec::new();
    for _ in 0..rank {
        let size = number(fields.next()?).unwrap_or(usize::MAX);
        shape.try_push(size).ok()?;
    }
    Some(shape)
}

// The bytes of the structure: each has to be one, and as many are kept as one has at most.
fn structure(field: &[u8]) -> Option<ArrayVec<u8, MOST_BITS>> {
    let mut structure = ArrayVec::new();
    for c in characters(field) {
        let _ = structure.try_push(bit(*c)?);
    }
    Some(structure)
}

// The labels, which are the last fields: as many as there are places.
fn labels(fields: Fields, places: usize) -> Option<Fields> {
    if fields.count() == places {
        Some(fields)
    } else {
        None
    }
}

impl<'a> Stored<'a> {
    // From a line without the byte at its end.
    pub fn parse(line: &'a [u8]) -> Option<Stored<'a>> {
        let mut fields = Fields::of(line);
        let cell_kind = cell_kind(fields.next()?)?;
        let number_kind = number_kind(fields.next()?)?;
        let blocks = number(fields.next()?)?;
        let rank = rank(fields.next()?)?;
        let shape = shape(&mut fields, rank)?;
        let structure = structure(fields.next()?)?;
        let cells = characters(fields.next()?);
        let n = Said::of(fields.next()?);
        let places = if n == Said::NONE { 0 } else { cells.len() };
        Some(Stored {
            cell_kind,
            number_kind,
            blocks,
            shape,
            structure,
            cells,
            n,
            labels: labels(fields, places)?,
        })
    }

    // Its cells of this kind, in the first places of `room`. Each has to be one, those past the room too. No ArrayVec, since a function of
    // any T that holds one owes that its size is below 2^63.
    pub fn cells_of<'b, T: Written>(&self, room: &'b mut [T]) -> Option<&'b [T]> {
        for (i, c) in self.cells.iter().enumerate() {
            let cell = T::of(*c)?;
            if let Some(place) = room.get_mut(i) {
                *place = cell;
            }
        }
        Some(samples::first(room, self.cells.len()))
    }
}
