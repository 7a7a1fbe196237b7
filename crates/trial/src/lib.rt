// What the test programs share: the calls for each kind, with cells made of flags and numbers turned into words; what the flood fill makes
// of an answer; and what is counted and printed. Nothing is promised of it; it is safe and it ends.
#![tactic(auto)]

mod calls;
mod kinds;
mod tally;

pub use calls::{Labelled, Reading, WholeCall, feed, label, label_cells, read};
use causes::Cause;
use flood::Count;
use flood::changes::Refusal;
use frame::Figures;
pub use kinds::{CellKind, NumberKind, OutputKind};
use label::Session;
use samples::Structure;
pub use tally::{Tally, add, add_at, report};

// Functions and no From: both types of each are other crates'.

// The figures that the flood fill gives.
pub fn figures(count: Count) -> Figures {
    Figures {
        runs: count.runs,
        joins: count.runs.wrapping_sub(count.n),
        cells: count.cells,
    }
}

// The cause of a refused structure change.
pub fn cause(refusal: Refusal) -> Cause {
    match refusal {
        Refusal::Length => Cause::StructureLength,
        Refusal::Lopsided => Cause::Lopsided,
        Refusal::NotWider => Cause::NotWider,
    }
}

// The structure of a record.
pub fn structure_of(session: Session) -> Structure {
    Structure::with_rank(session.rank, session.structure)
}

// The record under that structure, and otherwise as it is.
pub fn under(session: Session, structure: &[u8]) -> Session {
    let structure = Structure::of(structure).bytes;
    Session {
        structure,
        ..session
    }
}
