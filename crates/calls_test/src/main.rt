// Makes long random lists of calls by caller::make_calls, refused ones and no calls among them, and compares every number of the answers
// with a plain session over the flood fill.
#![tactic(auto)]

mod counts;
mod list;
mod plain;
mod random;

use caller::{CallList, OutputRooms};
use causes::Cause;
use counts::Counts;
use flood::layout::{UNWRITTEN, WORDS};
use flood::{CELLS, Frame, begins_with};
use list::{ANSWERS, List};
use plain::Plain;
use samples::{Shape, Structure, below, lend, make_cells, next};
use trial::add;

// ---- the calls made

// What the places for answers hold before.
const UNANSWERED: u64 = 77;

// Whether the first places hold these, and all others what they held before.
fn hold(answers: &[u64; ANSWERS], right: &[u32]) -> bool {
    let (written, others) = answers.split_at(right.len().min(ANSWERS));
    let alike = written.iter().zip(right).all(|(x, y)| *x == u64::from(*y));
    alike && begins_with(others, &[], UNANSWERED)
}

// Makes the calls of the list, with a memory of so many words, and compares: an opening refused with this cause, or accepted; the answers
// as far as there are places, and all other places as before.
fn is_answered(frame: Frame, memory: usize, list: &List, cause: Option<Cause>) -> bool {
    let mut words = [UNWRITTEN; WORDS];
    let mut u16s = [0u16; CELLS];
    let mut i16s = [0i16; CELLS];
    let mut f32s = [0.0f32; CELLS];
    let mut answers = [UNANSWERED; ANSWERS];
    let calls = CallList {
        numbers: &list.calls,
        u8s: frame.flags,
        u16s: make_cells(frame.flags, &mut u16s),
        i16s: make_cells(frame.flags, &mut i16s),
        f32s: make_cells(frame.flags, &mut f32s),
    };
    let mut rooms = OutputRooms {
        out8: &mut [0u8; CELLS],
        out16: &mut [0u16; CELLS],
        out32: &mut [0u32; CELLS],
    };
    let lent = lend(&mut words, memory);
    let made = caller::make_calls(
        frame.shape,
        frame.structure,
        lent,
        calls,
        &mut rooms,
        &mut answers,
    );
    let right = match cause {
        Some(cause) => Err(cause),
        None => Ok(list.answered),
    };
    made == right && hold(&answers, &list.answers)
}

// ---- one list

// Some lists are opened with too few words, some with a lopsided structure.
fn opening_cause(x: u64) -> Option<Cause> {
    match x % 16 {
        0 => Some(Cause::Memory),
        1 => Some(Cause::Lopsided),
        _ => None,
    }
}

// Where the opening is refused nothing is answered, and the plain session is not asked. What is left over of a list is zeros.
fn make_list(list: &mut List, frame: Frame, cause: Option<Cause>, x: u64, counts: &mut Counts) {
    let calls = below(next(x), 31).wrapping_add(30);
    let rest = below(x / 16, 4);
    if cause.is_none() {
        let mut plain = Plain::open(frame.shape, Structure::of(frame.structure));
        list.add_calls(calls, &mut plain, frame.flags, counts);
        list.answer_rest(rest, counts);
    }
    list.fill(calls.wrapping_mul(4).wrapping_add(rest));
}

fn try_calls(frame: Frame, cause: Option<Cause>, x: u64, counts: &mut Counts) {
    let mut list = List::new();
    make_list(&mut list, frame, cause, x, counts);
    let missing = (cause == Some(Cause::Memory)) as usize;
    let memory = frame.extent.words_needed().wrapping_sub(missing);
    let agreed = is_answered(frame, memory, &list, cause);
    add(&mut counts.lists);
    counts.tally.count(cause, agreed);
}

// 150 to each of four lines.
const MANY: Shape = Shape {
    rank: 2,
    entries: [4, 150, 0, 0],
};

// Some frames have more than 255 groups: a structure of zeros, and 600 cells. Half of the others begin under a structure of few bytes. In
// three lists of four the cells have the structures for changes among them.
fn try_list(counts: &mut Counts) {
    let drawn = counts.tally.draw_frame();
    let x = counts.tally.draw();
    let cause = opening_cause(x);
    let (shape, begun) = if x / 256 % 8 == 0 {
        (MANY, Structure::empty(2))
    } else {
        (drawn.shape, drawn.structure.thinned(x / 65536))
    };
    let structure = match cause {
        Some(Cause::Lopsided) => begun.lopsided(next(x)),
        _ => begun,
    };
    let mut cells = drawn.flags;
    if x / 4096 % 4 != 0 {
        random::prepare(&mut cells, structure, x / 16);
    }
    let frame = Frame::new(shape.used(), structure.used(), &cells);
    try_calls(frame, cause, x, counts);
}

fn main(rt: HostRuntime) {
    let mut counts = Counts::new();
    for _ in 0..400 {
        try_list(&mut counts);
    }
    counts.report(&rt);
}
