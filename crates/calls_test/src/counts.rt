// What was tried, and how it is printed.
use crate::plain::{Plain, Refusal};
use crate::random::Call;
use causes::Cause;
use trial::{Tally, add, report};

#[derive(Drop)]
pub struct Counts {
    // Of the calls and openings that were accepted or refused.
    pub tally: Tally,
    pub lists: u64,
    calls: u64,
    // Calls in a list that are none, and numbers left over at a list's end.
    no_calls: u64,
    // Structure changes, those accepted, and of these such before the first line and such after the last.
    changes: u64,
    changed: u64,
    early: u64,
    late: u64,
}

const REFUSED: [Cause; 7] = [
    Cause::StructureLength,
    Cause::Memory,
    Cause::Unsound,
    Cause::Lines,
    Cause::Cells,
    Cause::Length,
    Cause::Kind,
];

impl Counts {
    pub fn new() -> Counts {
        Counts {
            tally: Tally::new(),
            lists: 0,
            calls: 0,
            no_calls: 0,
            changes: 0,
            changed: 0,
            early: 0,
            late: 0,
        }
    }

    pub fn count_refusal(&mut self, refusal: Refusal) {
        match refusal {
            Refusal::NoCall => add(&mut self.no_calls),
            Refusal::Cause(cause) => self.tally.count_answer(Some(cause)),
        }
    }

    // An accepted structure change.
    fn count_changed(&mut self, plain: &Plain) {
        add(&mut self.changed);
        if plain.fed == 0 {
            add(&mut self.early);
        }
        if plain.fed == plain.frame().extent.lines {
            add(&mut self.late);
        }
    }

    // A call in a list, with the plain session after it.
    pub fn count_call(&mut self, call: Call, plain: &Plain, refusal: Option<Refusal>) {
        add(&mut self.calls);
        match refusal {
            None => self.tally.count_answer(None),
            Some(refusal) => self.count_refusal(refusal),
        }
        if let Call::Change { .. } = call {
            add(&mut self.changes);
            if refusal.is_none() {
                self.count_changed(plain);
            }
        }
    }

    pub fn report(&self, rt: &impl Print) {
        let accepted = self.tally.accepted();
        report(
            rt,
            &[
                ("lists", self.lists),
                ("calls", self.calls),
                ("structure changes", self.changes),
                ("  accepted", self.changed),
                ("  before the first line", self.early),
                ("  after the last", self.late),
                ("openings and calls accepted", accepted),
            ],
        );
        self.tally.report_refused(rt, &REFUSED);
        report(rt, &[("no calls", self.no_calls)]);
        self.tally
            .report_refused(rt, &[Cause::Lopsided, Cause::NotWider]);
        self.tally.report_outcome(rt);
    }
}
