// Frames, the chain rule, runs, causes, the plain session: specs/ has the definitions, proofs/ their laws. Of code there are only the
// figures of an answer and the constants of the layout.
#![tactic(auto)]

ghost use Rattle.std.specs.Prelude.{◌≡◌};
ghost use Rattle.frame.specs.Plain.{zero_figures};
ghost use Rattle.frame.specs.Sums.{plus_figures, FiguresFit};

// The figures that every accepted answer has, and a record keeps: runs, joins and nonzero cells so far. Definitions and code have them as
// this one type.
#[derive(Clone, Copy, PartialEq, Eq, Debug)]
pub struct Figures {
    pub runs: usize,
    pub joins: usize,
    pub cells: usize,
}

impl Figures {
    // Before any line is fed.
    pub fn zero() -> Figures
        ensures { result ≡ zero_figures }
    {
        Figures {
            runs: 0,
            joins: 0,
            cells: 0,
        }
    }

    // With those of more lines.
    pub fn plus(self, more: Figures) -> Figures
        requires { FiguresFit self more }
        ensures { result ≡ plus_figures self more }
    {
        Figures {
            runs: self.runs + more.runs,
            joins: self.joins + more.joins,
            cells: self.cells + more.cells,
        }
    }
}

// Each run has STRIDE words. Counted from its first, which holds its start, END holds its end (one past), PARENT its parent, NAME its
// name and SIZE, at a root, its group's cell count: specs/Words.antt. The documents lay the lent words out so: a run is a number, and no
// struct.
pub const STRIDE: usize = 5;

pub const END: usize = 1;

pub const PARENT: usize = 2;

pub const NAME: usize = 3;

pub const SIZE: usize = 4;
