// Why a structure change is refused, by document 02's words: every byte is looked at, one after another.
use crate::get;

// The documents' 2, 12 and 19.
#[derive(Clone, Copy, PartialEq, Eq)]
pub enum Refusal {
    Length,
    Lopsided,
    NotWider,
}

// Whether one of two bytes is zero and the other is not.
fn unlike(a: u8, b: u8) -> bool {
    (a == 0) != (b == 0)
}

// Byte i and byte 3^rank - 1 - i are not both zero or both nonzero.
fn is_lopsided(structure: &[u8]) -> bool {
    structure
        .iter()
        .zip(structure.iter().rev())
        .any(|(a, b)| unlike(*a, *b))
}

// An offset nonzero in the old structure is zero in the new.
fn drops(old: &[u8], new: &[u8]) -> bool {
    old.iter().zip(new).any(|(a, b)| *a != 0 && *b == 0)
}

// The old structure has 3^rank bytes.
pub fn cause(old: &[u8], new: &[u8]) -> Option<Refusal> {
    if new.len() != old.len() {
        return Some(Refusal::Length);
    }
    if is_lopsided(new) {
        return Some(Refusal::Lopsided);
    }
    let left = (old.len() / 2).wrapping_sub(1);
    if unlike(get(old, left, 0), get(new, left, 0)) || drops(old, new) {
        return Some(Refusal::NotWider);
    }
    None
}
