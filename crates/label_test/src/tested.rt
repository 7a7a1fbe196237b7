// A session under test, and the check of each call on it against the flood fill of the lines fed under the structure that the session then
// has. After every call the words must be, but for parents and for the sizes of runs that are no roots, those laid out by the documents'
// rules, each root's size the count of its group's cells; after a refusal words, record and output are as they were.
use causes::Cause;
use flood::layout::{UNREAD, Words};
use flood::{CELLS, Frame, Groups, begins_with};
use label::{Counted, Fed, FedLines, Session};
use samples::{first, lend, part_of};
use trial::{CellKind, OutputKind, figures};

// The record, the words, and what these should be. Frame and counts are no part of it: a structure change makes another frame of the same
// session, and the counts are of all sessions.
#[derive(Clone, Copy)]
pub struct Tested {
    pub session: Session,
    pub words: Words,
    pub laid: Words,
}

#[derive(Clone, Copy, PartialEq, Eq)]
pub enum Call {
    Feed(CellKind),
    Read(OutputKind),
    Change,
}

// What a call gave: the cause if it was refused, whether there are more joins than before, and whether all was as it should be.
#[derive(Clone, Copy)]
pub struct Turn {
    pub cause: Option<Cause>,
    pub joined: bool,
    pub agreed: bool,
}

// The right groups, and the right size of each.
#[derive(Clone, Copy)]
pub struct Right {
    pub groups: Groups,
    pub sizes: [u32; CELLS],
}

impl Right {
    // By the flood fill of the first lines.
    pub fn of(frame: Frame, lines: usize) -> Right {
        let groups = frame.groups(lines);
        Right {
            groups,
            sizes: groups.sizes(),
        }
    }
}

fn feed_cause(k: usize, left: usize, cells: usize, exact: usize) -> Option<Cause> {
    if k > left {
        Some(Cause::Lines)
    } else if cells != exact {
        Some(Cause::Cells)
    } else {
        None
    }
}

fn read_cause(places: usize, exact: usize, n: usize, into: OutputKind) -> Option<Cause> {
    if places != exact {
        Some(Cause::Length)
    } else if n > into.most_groups() {
        Some(Cause::Kind)
    } else {
        None
    }
}

impl Tested {
    // Opened with the first words of a memory that holds anything.
    pub fn open(frame: Frame, memory: usize) -> Result<Tested, Cause> {
        let mut words = Words::unwritten(frame.extent);
        let mut laid = words;
        laid.set(0, 0);
        let session = Session::open(frame.shape, frame.structure, lend(&mut words.all, memory))?;
        Ok(Tested {
            session,
            words,
            laid,
        })
    }

    // With the first lines fed, and what is there then as it should be.
    pub fn fed(frame: Frame, lines: usize) -> Result<Tested, Cause> {
        let mut words = Words::unwritten(frame.extent);
        let session = Session::open(frame.shape, frame.structure, &mut words.all)?;
        let cells = first(frame.flags, frame.extent.cells(lines));
        let Fed { answer, session } = trial::feed(
            session,
            &mut words.all,
            lines,
            cells,
            CellKind::U8,
        );
        answer?;
        Ok(Tested {
            session,
            words,
            laid: words,
        })
    }

    // The end of a call that gave this record and, where it was refused, this cause.
    fn turn(&mut self, session: Session, cause: Option<Cause>, agreed: bool) -> Turn {
        let joined = session.figures.joins != self.session.figures.joins;
        self.session = session;
        Turn {
            cause,
            joined,
            agreed: agreed && self.words == self.laid,
        }
    }

    // The same of a feed or a structure change that should be accepted, and have so many lines fed. `laid` has the new runs, and takes
    // over from the words what is free; `before` is the record under the structure of the call.
    pub fn accept(&mut self, done: Fed, before: Session, lines: usize, right: &Right) -> Turn {
        let joins = self
            .laid
            .take_groups(&self.words, &right.groups, &right.sizes);
        let figures = figures(right.groups.count);
        let record = Session {
            fed: lines,
            figures,
            ..before
        };
        let answered = done.answer == Ok(FedLines { lines, figures });
        let agreed = answered && done.session == record && joins == Some(figures.joins);
        self.turn(done.session, done.answer.err(), agreed)
    }

    fn refuse(&mut self, done: Fed, cause: Cause) -> Turn {
        let agreed = done.answer == Err(cause) && done.session == self.session;
        self.turn(done.session, done.answer.err(), agreed)
    }

    // A feed of k lines, with so many cells. One of no lines must leave the free words too.
    pub fn feed(&mut self, frame: Frame, k: usize, count: usize, kind: CellKind) -> Turn {
        let before = self.session;
        let e = frame.extent;
        let cells = part_of(frame.flags, e.cells(before.fed), count);
        let left = e.lines.wrapping_sub(before.fed);
        let cause = feed_cause(k, left, cells.len(), e.cells(k));
        let done = trial::feed(before, &mut self.words.all, k, cells, kind);
        let stands = k != 0 || self.words == self.laid;
        let lines = before.fed.wrapping_add(k);
        let mut turn = match cause {
            Some(cause) => self.refuse(done, cause),
            None => {
                self.laid.lay(frame, lines);
                self.accept(done, before, lines, &Right::of(frame, lines))
            }
        };
        turn.agreed = turn.agreed && stands;
        turn
    }

    // A change to this frame's structure, that should be refused with this cause, if there is one. The runs of the lines fed are laid out
    // by the frame's own cells; names stand.
    pub fn change(&mut self, frame: Frame, cause: Option<Cause>) -> Turn {
        let done = self.session.widen(&mut self.words.all, frame.structure);
        let lines = self.session.fed;
        match cause {
            Some(cause) => self.refuse(done, cause),
            None => {
                let wider = trial::under(self.session, frame.structure);
                self.laid.lay(frame, lines);
                self.accept(done, wider, lines, &Right::of(frame, lines))
            }
        }
    }

    // A reading or a size call. Lays out the names that it gives.
    pub fn read(&mut self, into: OutputKind, places: usize, right: &Right) -> Turn {
        let count = right.groups.count;
        let exact = into.places(self.words.extent, count.n);
        let cause = read_cause(places, exact, count.n, into);
        let done = trial::read(self.session, &mut self.words.all, places, into);
        let agreed = match cause {
            Some(cause) => done.answer == Err(cause) && begins_with(&done.output, &[], UNREAD),
            None => {
                self.laid.lay_names(&right.groups);
                let n = count.n;
                let figures = figures(count);
                done.answer == Ok(Counted { n, figures }) && right.is_in(into, &done.output, places)
            }
        };
        let agreed = agreed && done.session == self.session;
        self.turn(done.session, done.answer.err(), agreed)
    }
}

impl Right {
    // Whether an output of so many places has these numbers or sizes.
    fn is_in(&self, into: OutputKind, output: &[u32; CELLS], places: usize) -> bool {
        let right = match into {
            OutputKind::Numbers(_) => &self.groups.numbers,
            OutputKind::Sizes => &self.sizes,
        };
        begins_with(output, first(right, places), UNREAD)
    }
}
