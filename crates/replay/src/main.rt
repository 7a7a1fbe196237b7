// Replays stored answers of the Rust with no Rust at hand: each line of standard input is a whole frame with the answer that the Rust's
// `label_impl` gave; the frame is labelled here, by crate whole, and n and every label are compared, and the nonzero cells with the labels
// that are not 0. Where the Rust declined, the call must be refused with 10 and leave the output as it was. A line, of at most 1,500 bytes:
//
//     C N B RANK D0 .. D(rank-1) STRUCTURE CELLS ANSWER
//
// Fields are parted by one blank. C is u8, u16, i16 or f32, the kind of cell; N is u8, u16 or u32, the kind of number; B is the block
// count; then come the rank and the dimensions. STRUCTURE is 3^rank characters 0 or 1; CELLS is one character a cell (see cells.rt), at
// most 640, or - where there are none. ANSWER is `none`, or n and the labels in C order.
//
// The file `stdin` beside src/ is made by `compare/answers FOLDER > crates/replay/stdin`, where FOLDER has the Rust's files.
//
// Printed are the answers, how many agreed and how many differed, the lines that do not have the form, the answers of each rank and those
// that are `none`, and the numbers of the first line that differed and the first that does not have the form: 0 where there is none. A
// line whose lengths do not fit its shape is refused by the call, and so differs.
#![tactic(auto)]

mod cells;
mod stored;

use arrayvec::ArrayVec;
use causes::Cause;
use cells::Written;
use flood::layout::UNREAD;
use flood::{CELLS, Frame};
use label::Counted;
use std::io::{Read, Write};
use stored::{Fields, Said, Stored, number};
use trial::{CellKind, Labelled, WholeCall, add, add_at, label_cells};

// ---- one answer

// The memory of the calls, never cleared: each frame is labelled in words that the one before left.
const WORDS: usize = 8192;

// What a line says of n where it agrees with the answer. A refusal but 10 agrees with digits that are no decimal of a line.
fn n_of(answer: Result<Counted, Cause>) -> Said<'static> {
    match answer {
        Ok(counted) => Said::Number(counted.n),
        Err(Cause::Kind) => Said::NONE,
        Err(_) => Said::Digits,
    }
}

// Whether every place of the output is as it should be: those past the labels are as before the call.
fn holds(output: &[u32; CELLS], mut labels: Fields) -> bool {
    let alike = output.iter().all(|x| match labels.next() {
        Some(label) => number(label) == Some(*x as usize),
        None => *x == UNREAD,
    });
    alike && labels.next().is_none()
}

// Whether n, the count of nonzero cells and the output are what the line says.
fn agrees(got: &Labelled, stored: &Stored) -> bool {
    let cells = got.answer.map_or(0, |counted| counted.figures.cells);
    let others = stored.labels.filter(|label| *label != b"0".as_slice());
    n_of(got.answer) == stored.n && cells == others.count() && holds(&got.output, stored.labels)
}

// Labels the frame of a line, and says whether all is as the line says; None where a character is no cell of its kind.
fn label(stored: &Stored, words: &mut [u32]) -> Option<bool> {
    match stored.cell_kind {
        CellKind::U8 => label_from(stored, words, &mut [0u8; CELLS]),
        CellKind::U16 => label_from(stored, words, &mut [0u16; CELLS]),
        CellKind::I16 => label_from(stored, words, &mut [0i16; CELLS]),
        CellKind::F32 => label_from(stored, words, &mut [0.0f32; CELLS]),
    }
}

fn label_from<T: Written>(stored: &Stored, words: &mut [u32], room: &mut [T]) -> Option<bool> {
    let cells = stored.cells_of(room)?;
    let call = WholeCall {
        cells: stored.cell_kind,
        numbers: stored.number_kind,
        places: cells.len(),
        blocks: stored.blocks,
    };
    let frame = Frame::new(&stored.shape, &stored.structure, &[]);
    Some(agrees(&label_cells(frame, words, call, cells), stored))
}

// ---- lines

// What became of a line: its rank, whether it says `none`, and whether all was as it says.
#[derive(Clone, Copy)]
struct Tried {
    rank: usize,
    declined: bool,
    agreed: bool,
}

// A line with the byte 10 at its end; None where it does not have the form. One with no such byte is too long, or stands after the last
// of them.
fn try_line(line: &[u8], words: &mut [u32]) -> Option<Tried> {
    let stored = Stored::parse(line.strip_suffix(b"\n")?)?;
    let agreed = label(&stored, words)?;
    Some(Tried {
        rank: stored.shape.len(),
        declined: stored.n == Said::NONE,
        agreed,
    })
}

// ---- the counts

#[derive(Default, Drop)]
struct Counts {
    lines: u64,
    answers: u64,
    agreed: u64,
    differed: u64,
    malformed: u64,
    ranks: [u64; 4],
    declined: u64,
    first_differed: Option<u64>,
    first_malformed: Option<u64>,
}

impl Counts {
    fn count_tried(&mut self, tried: Tried) {
        add(&mut self.answers);
        add_at(&mut self.ranks, tried.rank.wrapping_sub(1));
        if tried.declined {
            add(&mut self.declined);
        }
        if tried.agreed {
            add(&mut self.agreed);
        } else {
            add(&mut self.differed);
            self.first_differed = self.first_differed.or(Some(self.lines));
        }
    }

    // The next line; None is one that does not have the form.
    fn count(&mut self, tried: Option<Tried>) {
        add(&mut self.lines);
        match tried {
            Some(tried) => self.count_tried(tried),
            None => {
                add(&mut self.malformed);
                self.first_malformed = self.first_malformed.or(Some(self.lines));
            }
        }
    }

    fn report(&self, rt: &impl Print) {
        let _ = println!(rt; "answers={}", self.answers);
        let _ = println!(rt; "agreed={}", self.agreed);
        let _ = println!(rt; "differed={}", self.differed);
        let _ = println!(rt; "malformed={}", self.malformed);
        for (i, count) in self.ranks.iter().enumerate() {
            let _ = println!(rt; "rank{}={count}", i.wrapping_add(1));
        }
        let _ = println!(rt; "none={}", self.declined);
        let _ = println!(rt; "first_differed={}", self.first_differed.unwrap_or(0));
        let _ = println!(rt; "first_malformed={}", self.first_malformed.unwrap_or(0));
    }
}

// ---- the input

// The longest line, with the byte 10 at its end.
const MOST_BYTES: usize = 1501;

// A line as far as it was read. No more of it is kept than the longest has. All that is read stands in arrays: with the heap a run could
// end for want of memory, with no report.
type Line = ArrayVec<u8, MOST_BYTES>;

// Counts the lines that end in the next bytes of the input.
fn count_lines(text: &[u8], line: &mut Line, words: &mut [u32], counts: &mut Counts) {
    for part in text.split_inclusive(|c| *c == b'\n') {
        // The line takes as much as it has room for.
        let _ = line.write(part);
        if part.ends_with(b"\n") {
            counts.count(try_line(line, words));
            line.clear();
        }
    }
}

// Reads to the end of the input, or to where it can't be read: what was read till then counts. A proved loop has to end, and nothing says
// that an input does: so it has a number of turns that no input uses up.
fn count_all(input: &mut impl Read, words: &mut [u32], counts: &mut Counts) {
    let mut line = Line::new();
    let mut text = [0u8; 8192];
    for _ in 0..u64::MAX {
        let n = input.read(&mut text).unwrap_or(0);
        if n == 0 {
            break;
        }
        count_lines(&text[..n], &mut line, words, counts);
    }
    if !line.is_empty() {
        counts.count(try_line(&line, words));
    }
}

// The status is 0 whatever the counts are, and so where they can't be written too: whoever reads them sees that they are missing.
fn main(rt: HostRuntime) {
    let mut words = [7u32; WORDS];
    let mut counts = Counts::default();
    count_all(&mut rt.reader(), &mut words, &mut counts);
    counts.report(&rt);
}
