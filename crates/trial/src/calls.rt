// The calls that depend on a kind of cell or of number.
use crate::{CellKind, NumberKind, OutputKind};
use causes::Cause;
use flood::layout::UNREAD;
use flood::{CELLS, Frame};
use label::{Counted, Fed, Read, Session};
use runs::Nz;
use samples::{Cell, lend, make_cells};
use write::FromU32;

// ---- feeds

// A feed of k lines of a kind.
pub fn feed(session: Session, words: &mut [u32], k: usize, flags: &[u8], kind: CellKind) -> Fed {
    match kind {
        CellKind::U8 => feed_from(session, words, k, flags, &mut [0u8; CELLS]),
        CellKind::U16 => feed_from(session, words, k, flags, &mut [0u16; CELLS]),
        CellKind::I16 => feed_from(session, words, k, flags, &mut [0i16; CELLS]),
        CellKind::F32 => feed_from(session, words, k, flags, &mut [0.0f32; CELLS]),
    }
}

fn feed_from<T: Cell + Nz>(
    session: Session,
    words: &mut [u32],
    k: usize,
    flags: &[u8],
    room: &mut [T],
) -> Fed {
    session.feed(words, k, make_cells(flags, room))
}

// ---- readings

// What a reading or a size call gives, and what its output holds then.
#[derive(Clone, Copy)]
pub struct Reading {
    pub answer: Result<Counted, Cause>,
    pub session: Session,
    pub output: [u32; CELLS],
}

// Into the first places of an output.
pub fn read(session: Session, words: &mut [u32], places: usize, into: OutputKind) -> Reading {
    let mut output = [UNREAD; CELLS];
    let got = &mut output;
    let Read { answer, session } = match into {
        OutputKind::Numbers(NumberKind::U8) => {
            read_into(session, words, places, &mut [UNREAD as u8; CELLS], got)
        }
        OutputKind::Numbers(NumberKind::U16) => {
            read_into(session, words, places, &mut [UNREAD as u16; CELLS], got)
        }
        OutputKind::Numbers(NumberKind::U32) => {
            read_into(session, words, places, &mut [UNREAD; CELLS], got)
        }
        OutputKind::Sizes => session.sizes(words, lend(got, places)),
    };
    Reading {
        answer,
        session,
        output,
    }
}

fn read_into<T: FromU32 + Into<u32>>(
    session: Session,
    words: &mut [u32],
    places: usize,
    out: &mut [T],
    got: &mut [u32],
) -> Read {
    let read = session.read(words, lend(out, places));
    copy_numbers(out, got);
    read
}

fn copy_numbers<T: Copy + Into<u32>>(numbers: &[T], words: &mut [u32]) {
    for (word, number) in words.iter_mut().zip(numbers) {
        *word = (*number).into();
    }
}

// ---- whole frames

// The kinds, the places of the output, and the block count.
#[derive(Clone, Copy)]
pub struct WholeCall {
    pub cells: CellKind,
    pub numbers: NumberKind,
    pub places: usize,
    pub blocks: usize,
}

// What a whole frame gives, and what its output holds then.
#[derive(Clone, Copy)]
pub struct Labelled {
    pub answer: Result<Counted, Cause>,
    pub output: [u32; CELLS],
}

// Each of these functions hands frame, words and call on and adds one thing, the cells or the output: a struct of the three would be made
// here and taken apart by the last.
pub fn label(frame: Frame, words: &mut [u32], call: WholeCall) -> Labelled {
    match call.cells {
        CellKind::U8 => label_from(frame, words, call, &mut [0u8; CELLS]),
        CellKind::U16 => label_from(frame, words, call, &mut [0u16; CELLS]),
        CellKind::I16 => label_from(frame, words, call, &mut [0i16; CELLS]),
        CellKind::F32 => label_from(frame, words, call, &mut [0.0f32; CELLS]),
    }
}

fn label_from<I: Cell + Nz>(
    frame: Frame,
    words: &mut [u32],
    call: WholeCall,
    room: &mut [I],
) -> Labelled {
    label_cells(frame, words, call, make_cells(frame.flags, room))
}

// With these cells, whatever the frame's flags are.
pub fn label_cells<I: Nz>(
    frame: Frame,
    words: &mut [u32],
    call: WholeCall,
    cells: &[I],
) -> Labelled {
    match call.numbers {
        NumberKind::U8 => label_into(frame, words, call, cells, &mut [UNREAD as u8; CELLS]),
        NumberKind::U16 => label_into(frame, words, call, cells, &mut [UNREAD as u16; CELLS]),
        NumberKind::U32 => label_into(frame, words, call, cells, &mut [UNREAD; CELLS]),
    }
}

fn label_into<I: Nz, O: FromU32 + Into<u32>>(
    frame: Frame,
    words: &mut [u32],
    call: WholeCall,
    cells: &[I],
    out: &mut [O],
) -> Labelled {
    let mut output = [UNREAD; CELLS];
    let places = lend(out, call.places);
    let answer = whole::label_impl(
        frame.shape,
        frame.structure,
        words,
        cells,
        places,
        call.blocks,
    );
    copy_numbers(out, &mut output);
    Labelled { answer, output }
}
