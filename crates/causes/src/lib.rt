// Why a call is refused, and the checks that find it, before anything is written.
//
//     Cause                                  the causes, with the documents' numbers and words
//     open_check, frame_check                an opening's, and what is known of a whole frame's, or else the geometry
//     feed_check, read_check, sizes_check    those of a call on a record that is known to be sound
//     widen_check                            so of a structure change
//
// Promised (specs/Checks.antt): a check answers the first cause that holds, in the documents' order, or none. One that works out the
// geometry answers it, so that it is worked out once.
#![tactic(auto)]

ghost use Rattle.std.specs.Prelude.{◌≡◌, true, ◌-◌, ◌*◌, ◌^◌, ◌≤◌, ◌<◌};
ghost use Rattle.frame.specs.Causes.{open_cause, frame_cause, feed_cause, read_cause, sizes_cause, widen_cause};
ghost use Rattle.frame.specs.Lists.{entries};
ghost use Rattle.frame.specs.Kinds.{Number, largest, holds};
ghost use Rattle.causes.specs.Cases.{cause_number, check_number};
ghost use Rattle.causes.specs.Checks.{LentFound, FeedAsked};

use std::error::Error;
use std::fmt;

// In the order of document 01's table, then document 02's, each with the documents' number.
#[derive(Clone, Copy, PartialEq, Eq, Debug)]
pub enum Cause {
    Rank = 1,
    StructureLength = 2,
    ZeroDimension = 3,
    TooLarge = 4,
    Memory = 5,
    Unsound = 6,
    Lines = 7,
    Cells = 8,
    Length = 9,
    Kind = 10,
    Lopsided = 12,
    NotWider = 19,
}

impl Cause {
    // The documents' number.
    pub fn number(self) -> u32
        ensures { result ≡ cause_number self }
    {
        self as u32
    }
}

// The documents' words.
impl fmt::Display for Cause {
    fn fmt<W: fmt::Write>(&self, f: &mut fmt::Formatter<W>) -> fmt::Result {
        f.write_str(match self {
            Cause::Rank => "rank 0 or above 4",
            Cause::StructureLength => "structure length not 3^rank",
            Cause::ZeroDimension => "a leading dimension is 0",
            Cause::TooLarge => "w ≥ 2,147,483,647, or L or L × w ≥ 4,294,967,293",
            Cause::Memory => "fewer words than needed",
            Cause::Unsound => "record unsound",
            Cause::Lines => "k above the lines left",
            Cause::Cells => "cells not k × w (whole frame: L × w)",
            Cause::Length => "output or size slice length not exact",
            Cause::Kind => "n above the kind's largest",
            Cause::Lopsided => {
                "byte i and byte 3^rank - 1 - i of a structure are not both zero or both nonzero"
            }
            Cause::NotWider => {
                "the left bytes of the old and the new structure differ in being zero, or an offset nonzero in the old is zero in the new"
            }
        })
    }
}

impl Error for Cause {}

// ---- of a lent shape and structure. `memory` is the count of words

// 1, 2, 12, 3, 4, 5.
pub fn open_check(shape: &[usize], structure: &[u8], memory: usize) -> Result<geo::Geo, Cause>
    ensures { LentFound shape.now structure.now
        (open_cause shape.now structure.now memory) result }
{
    let rank = shape.len();
    if geo::bad_rank(rank) {
        return Err(Cause::Rank);
    }
    if structure.len() != geo::power3(rank) {
        return Err(Cause::StructureLength);
    }
    if geo::lopsided(rank, structure) {
        return Err(Cause::Lopsided);
    }
    let g = geo::geo_of(rank, geo::shape_of(shape), structure);
    if geo::has_zero(g) {
        return Err(Cause::ZeroDimension);
    }
    if geo::too_large(g) {
        return Err(Cause::TooLarge);
    }
    if memory < geo::words_needed(g) {
        return Err(Cause::Memory);
    }
    Ok(g)
}

// An opening's, then 8 and 9, where `cells` and `out` are the counts of cells and of output places.
pub fn frame_check(
    shape: &[usize],
    structure: &[u8],
    memory: usize,
    cells: usize,
    out: usize,
) -> Result<geo::Geo, Cause>
    ensures { LentFound shape.now structure.now
        (frame_cause shape.now structure.now memory cells out true) result }
{
    let g = open_check(shape, structure, memory)?;
    if cells != g.lines * g.width {
        return Err(Cause::Cells);
    }
    if out != g.lines * g.width {
        return Err(Cause::Length);
    }
    Ok(g)
}

// ---- of a call on a sound record, with that geometry

// 7, 8: `k` lines after the first `fed`, and the count of cells.
pub fn feed_check(g: geo::Geo, fed: usize, k: usize, cells: usize) -> Result<(), Cause>
    requires { FeedAsked g fed }
    ensures { check_number result ≡ feed_cause true (g.lines - fed) k g.width cells }
{
    if k > g.lines - fed {
        return Err(Cause::Lines);
    }
    if cells != k * g.width {
        return Err(Cause::Cells);
    }
    Ok(())
}

// 9, 10, where `n` is document 01's n, and `most` the kind's largest number.
pub fn read_check(g: geo::Geo, n: usize, places: usize, most: u64) -> Result<(), Cause>
    requires { g.lines * g.width < 4294967293 }
    ensures { (kind : Number) → most ≡ largest kind →
        check_number result ≡ read_cause true places (g.lines * g.width) (holds kind n) }
{
    if places != g.lines * g.width {
        return Err(Cause::Length);
    }
    if n as u64 > most {
        return Err(Cause::Kind);
    }
    Ok(())
}

// 9.
pub fn sizes_check(n: usize, places: usize) -> Result<(), Cause>
    ensures { check_number result ≡ sizes_cause true places n }
{
    if places != n {
        return Err(Cause::Length);
    }
    Ok(())
}

// 2, 12, 19: of the structure held, whose first 3^rank bytes count, and the new one.
pub fn widen_check(rank: usize, old: &[u8; 81], new: &[u8]) -> Result<(), Cause>
    requires { (1 ≤ rank) × (rank ≤ 4) }
    ensures { check_number result ≡ widen_cause true rank (entries (3 ^ rank) old.now) new.now }
{
    if new.len() != geo::power3(rank) {
        return Err(Cause::StructureLength);
    }
    if geo::lopsided(rank, new) {
        return Err(Cause::Lopsided); // whatever the old structure
    }
    if geo::not_wider(rank, old, new) {
        return Err(Cause::NotWider);
    }
    Ok(())
}
