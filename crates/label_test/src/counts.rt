// What was tried, and how it is printed.
use crate::tested::{Call, Turn};
use causes::Cause;
use trial::{OutputKind, Tally, add, report};

#[derive(Drop)]
pub struct Counts {
    pub tally: Tally,
    pub sessions: u64,
    feeds: u64,
    // Readings and size calls together, and size calls alone.
    readings: u64,
    sizes: u64,
    // Lines fed one by one, with a size call after each.
    pub sized_lines: u64,
    // Records of other origin, and of these such with a link that no touch makes.
    pub origins: u64,
    pub linked: u64,
    // Structure changes, those accepted, and of these such that made fewer groups.
    changes: u64,
    changed: u64,
    joining: u64,
    // Structure changes of records of other origin.
    pub regrouped: u64,
    // Records and memories left whole, and damaged ones.
    pub undamaged: u64,
    pub damaged: u64,
}

const REFUSED: [Cause; 12] = [
    Cause::Rank,
    Cause::StructureLength,
    Cause::ZeroDimension,
    Cause::TooLarge,
    Cause::Memory,
    Cause::Unsound,
    Cause::Lines,
    Cause::Cells,
    Cause::Length,
    Cause::Kind,
    Cause::Lopsided,
    Cause::NotWider,
];

impl Counts {
    pub fn new() -> Counts {
        Counts {
            tally: Tally::new(),
            sessions: 0,
            feeds: 0,
            readings: 0,
            sizes: 0,
            sized_lines: 0,
            origins: 0,
            linked: 0,
            changes: 0,
            changed: 0,
            joining: 0,
            regrouped: 0,
            undamaged: 0,
            damaged: 0,
        }
    }

    // Counts a call by what it is.
    fn count_call(&mut self, call: Call) {
        match call {
            Call::Feed(kind) => {
                add(&mut self.feeds);
                self.tally.count_cells(kind);
            }
            Call::Read(OutputKind::Numbers(kind)) => {
                add(&mut self.readings);
                self.tally.count_numbers(kind);
            }
            Call::Read(OutputKind::Sizes) => {
                add(&mut self.readings);
                add(&mut self.sizes);
            }
            Call::Change => add(&mut self.changes),
        }
    }

    // Of a structure change also whether it was accepted, and whether it made fewer groups.
    pub fn count_turn(&mut self, call: Call, turn: Turn) {
        self.count_call(call);
        if call == Call::Change && turn.cause.is_none() {
            add(&mut self.changed);
        }
        if call == Call::Change && turn.joined {
            add(&mut self.joining);
        }
        self.count_other(turn);
    }

    // A turn that is not counted as a call of its own.
    pub fn count_other(&mut self, turn: Turn) {
        self.tally.count(turn.cause, turn.agreed);
    }

    // A refusal of what should be accepted.
    pub fn count_refused(&mut self, cause: Cause) {
        self.tally.count(Some(cause), false);
    }

    pub fn report(&self, rt: &impl Print) {
        report(
            rt,
            &[
                ("sessions", self.sessions),
                ("feeds", self.feeds),
                ("readings and size calls", self.readings),
            ],
        );
        self.tally.report_frames(rt);
        self.tally.report_kinds(rt);
        self.report_records(rt);
        self.tally.report_refused(rt, &REFUSED);
        self.tally.report_outcome(rt);
    }

    fn report_records(&self, rt: &impl Print) {
        report(
            rt,
            &[
                ("sizes", self.sizes),
                (
                    "lines fed one by one, each with a size call",
                    self.sized_lines,
                ),
                ("records with sizes of other origin", self.origins),
                ("  and with a link of other origin", self.linked),
                ("structure changes", self.changes),
                ("  accepted", self.changed),
                ("  and with fewer groups then", self.joining),
                (
                    "structure changes of records of other origin",
                    self.regrouped,
                ),
                (
                    "records left whole, or with any sizes at runs that are no roots",
                    self.undamaged,
                ),
                ("damaged records and memories", self.damaged),
            ],
        );
    }
}
