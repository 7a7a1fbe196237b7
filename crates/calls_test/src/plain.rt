// A plain session of its own: the lines fed, the structure that they are under, and by flood fill what each call should answer.
use crate::random::{Call, Span, put_bytes};
use causes::Cause;
use flood::{CELLS, Count, Frame, Groups, changes};
use frame::Figures;
use samples::Structure;
use trial::OutputKind;

// Why a call is not made: it is none, or it is refused.
#[derive(Clone, Copy, PartialEq, Eq)]
pub enum Refusal {
    NoCall,
    Cause(Cause),
}

// What an accepted call answers: lines fed or n, and the figures.
#[derive(Clone, Copy)]
pub struct Accepted {
    pub count: usize,
    pub figures: Figures,
}

impl Accepted {
    fn of(count: usize, counts: Count) -> Accepted {
        Accepted {
            count,
            figures: trial::figures(counts),
        }
    }
}

// The entries of a span, where they are all among these.
fn entries(cells: &[u8], span: Span) -> Result<&[u8], Refusal> {
    let rest = cells.get(span.from..).ok_or(Refusal::NoCall)?;
    rest.get(..span.count).ok_or(Refusal::NoCall)
}

// ---- the session

// The cells of the lines fed are the first ones.
#[derive(Clone, Copy)]
pub struct Plain<'a> {
    shape: &'a [usize],
    pub structure: Structure,
    pub fed: usize,
    cells: [u8; CELLS],
}

impl<'a> Plain<'a> {
    pub fn open(shape: &'a [usize], structure: Structure) -> Plain<'a> {
        Plain {
            shape,
            structure,
            fed: 0,
            cells: [0; CELLS],
        }
    }

    pub fn frame(&self) -> Frame<'_> {
        Frame::new(self.shape, self.structure.used(), &self.cells)
    }

    pub fn groups(&self) -> Groups {
        self.frame().groups(self.fed)
    }

    // So many lines, of these cells.
    fn feed(&mut self, lines: usize, cells: &[u8]) -> Result<Accepted, Refusal> {
        let e = self.frame().extent;
        if lines > e.lines.wrapping_sub(self.fed) {
            return Err(Refusal::Cause(Cause::Lines));
        }
        if cells.len() != e.cells(lines) {
            return Err(Refusal::Cause(Cause::Cells));
        }
        put_bytes(&mut self.cells, e.cells(self.fed), cells);
        self.fed = self.fed.wrapping_add(lines);
        Ok(Accepted::of(self.fed, self.groups().count))
    }

    fn change(&mut self, structure: &[u8]) -> Result<Accepted, Refusal> {
        if let Some(refusal) = changes::cause(self.structure.used(), structure) {
            return Err(Refusal::Cause(trial::cause(refusal)));
        }
        self.structure = Structure::of(structure);
        Ok(Accepted::of(self.fed, self.groups().count))
    }

    fn read(&self, into: OutputKind, places: usize, count: Count) -> Result<Accepted, Refusal> {
        if places > CELLS {
            return Err(Refusal::NoCall);
        }
        if places != into.places(self.frame().extent, count.n) {
            return Err(Refusal::Cause(Cause::Length));
        }
        if count.n > into.most_groups() {
            return Err(Refusal::Cause(Cause::Kind));
        }
        Ok(Accepted::of(count.n, count))
    }

    // Makes a call whose span is of these cells, where the lines fed have these groups.
    pub fn make(&mut self, call: Call, cells: &[u8], groups: &Groups) -> Result<Accepted, Refusal> {
        match call {
            Call::Feed { lines, span, .. } => self.feed(lines, entries(cells, span)?),
            Call::Read { into, places, .. } => self.read(into, places, groups.count),
            Call::Change { span, .. } => self.change(entries(cells, span)?),
            Call::Other(_) => Err(Refusal::NoCall),
        }
    }
}
