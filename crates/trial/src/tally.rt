// The counts of a test, beside its random numbers, and how they are printed.
use crate::{CellKind, NumberKind};
use causes::Cause;
use flood::get;
use samples::{EDGES, Random, RandomFrame};

#[derive(Drop)]
pub struct Tally {
    random: Random,
    agreed: u64,
    differed: u64,
    // One for each rank, and one for each width at an edge of the masks of 64.
    ranks: [u64; 4],
    widths: [u64; 4],
    // Calls by their kind of cells, and by their kind of numbers.
    cells: [u64; 4],
    numbers: [u64; 3],
    // Accepted calls, and the refused ones by the documents' numbers.
    accepted: u64,
    refused: [u64; 20],
}

pub fn add(count: &mut u64) {
    *count = count.wrapping_add(1);
}

pub fn add_at(counts: &mut [u64], i: usize) {
    if let Some(count) = counts.get_mut(i) {
        add(count);
    }
}

// Prints a line for each count. Here and below a line that can't be written is let go: nobody can read it, and a program's status says
// nothing of its counts.
pub fn report(rt: &impl Print, counts: &[(&str, u64)]) {
    for (name, count) in counts {
        let _ = println!(rt; "{name}: {count}");
    }
}

impl Tally {
    pub fn new() -> Tally {
        Tally {
            random: Random::new(),
            agreed: 0,
            differed: 0,
            ranks: [0; 4],
            widths: [0; 4],
            cells: [0; 4],
            numbers: [0; 3],
            accepted: 0,
            refused: [0; 20],
        }
    }

    // A new random number.
    pub fn draw(&mut self) -> u64 {
        self.random.draw()
    }

    // Draws so many numbers that nothing is made of.
    pub fn skip(&mut self, n: usize) {
        for _ in 0..n {
            self.draw();
        }
    }

    // A random frame, counted by its rank and its width.
    pub fn draw_frame(&mut self) -> RandomFrame {
        let frame = RandomFrame::draw(&mut self.random);
        add_at(&mut self.ranks, frame.shape.rank.wrapping_sub(1));
        let width = frame.shape.width();
        if let Some(i) = EDGES.iter().position(|edge| *edge == width) {
            add_at(&mut self.widths, i);
        }
        frame
    }

    pub fn count_cells(&mut self, kind: CellKind) {
        add_at(&mut self.cells, kind as usize);
    }

    pub fn count_numbers(&mut self, kind: NumberKind) {
        add_at(&mut self.numbers, kind as usize);
    }

    // Counts a call by the cause of its refusal, if there is one.
    pub fn count_answer(&mut self, cause: Option<Cause>) {
        match cause {
            None => add(&mut self.accepted),
            Some(cause) => add_at(&mut self.refused, cause.number() as usize),
        }
    }

    // Counts whether all was as it should be.
    fn count_outcome(&mut self, agreed: bool) {
        add(if agreed {
            &mut self.agreed
        } else {
            &mut self.differed
        });
    }

    pub fn count(&mut self, cause: Option<Cause>, agreed: bool) {
        self.count_answer(cause);
        self.count_outcome(agreed);
    }

    // ---- the report

    pub fn accepted(&self) -> u64 {
        self.accepted
    }

    // What the frames were counted as.
    pub fn report_frames(&self, rt: &impl Print) {
        for (i, count) in self.ranks.iter().enumerate() {
            let _ = println!(rt; "frames of rank {}: {count}", i.wrapping_add(1));
        }
        self.report_widths(rt);
    }

    fn report_widths(&self, rt: &impl Print) {
        for (width, count) in EDGES.iter().zip(&self.widths) {
            let _ = println!(rt; "frames of width {width}: {count}");
        }
    }

    pub fn report_kinds(&self, rt: &impl Print) {
        let [u8s, u16s, i16s, f32s] = self.cells;
        report(
            rt,
            &[
                ("cells u8", u8s),
                ("cells u16", u16s),
                ("cells i16", i16s),
                ("cells f32", f32s),
            ],
        );
        let [u8s, u16s, u32s] = self.numbers;
        report(
            rt,
            &[
                ("numbers u8", u8s),
                ("numbers u16", u16s),
                ("numbers u32", u32s),
            ],
        );
    }

    pub fn report_refused(&self, rt: &impl Print, causes: &[Cause]) {
        for cause in causes {
            let number = cause.number();
            let count = get(&self.refused, number as usize, 0);
            let _ = println!(rt; "refused {number}: {count}");
        }
    }

    pub fn report_outcome(&self, rt: &impl Print) {
        let _ = println!(rt; "differed={}", self.differed);
    }
}
