// Sessions fed in random pieces, with readings, size calls and structure changes between, and sessions fed line by line with a size call
// after each.
use crate::counts::Counts;
use crate::tested::{Call, Right, Tested, Turn};
use flood::{Frame, changes};
use samples::{below, first, near, next};
use trial::{CellKind, OutputKind, add};

// ---- random calls

// A feed of some of the lines left, now and then of more than are left, or with cells too many or too few.
fn feed_some(tested: &mut Tested, frame: Frame, kind: CellKind, x: u64) -> Turn {
    let left = frame.extent.lines.wrapping_sub(tested.session.fed);
    let k = below(next(x), left.wrapping_add(2));
    let count = near(frame.extent.cells(k), x / 4);
    tested.feed(frame, k, count, kind)
}

// A change to a structure that is mostly wider than this one, and now and then has a byte too many or too few.
fn change_some(tested: &mut Tested, frame: Frame, x: u64) -> Turn {
    let exact = frame.structure.len();
    let drawn = trial::structure_of(tested.session).changed(x);
    let y = next(x);
    let count = if y / 16 % 4 == 0 {
        near(exact, y / 64)
    } else {
        exact
    };
    let new = first(&drawn.bytes, count);
    let cause = changes::cause(frame.structure, new).map(trial::cause);
    tested.change(Frame::new(frame.shape, new, frame.flags), cause)
}

// A reading or a size call; now and then with one place too many or too few.
fn read_some(tested: &mut Tested, frame: Frame, into: OutputKind, x: u64) -> Turn {
    let right = Right::of(frame, tested.session.fed);
    let exact = into.places(frame.extent, right.groups.count.n);
    tested.read(into, near(exact, x), &right)
}

fn draw_call(x: u64) -> Call {
    match x / 1024 % 6 {
        0..=2 => Call::Feed(CellKind::of(x)),
        3 => Call::Change,
        _ => Call::Read(OutputKind::of(x)),
    }
}

// The structure is the record's, which every call before was held to.
fn try_call(tested: &mut Tested, frame: Frame, counts: &mut Counts) {
    let structure = trial::structure_of(tested.session);
    let frame = Frame::new(frame.shape, structure.used(), frame.flags);
    let x = counts.tally.draw();
    let call = draw_call(x);
    let turn = match call {
        Call::Feed(kind) => feed_some(tested, frame, kind, x),
        Call::Change => change_some(tested, frame, next(x)),
        Call::Read(into) => read_some(tested, frame, into, next(x)),
    };
    counts.count_turn(call, turn);
}

// Opens with exactly the words needed, and makes a dozen calls.
#[inline(never)]
pub fn try_calls(frame: Frame, counts: &mut Counts) {
    add(&mut counts.sessions);
    match Tested::open(frame, frame.extent.words_needed()) {
        Ok(mut tested) => {
            let record = trial::under(tested.session, frame.structure);
            let agreed = tested.session == record && tested.words == tested.laid;
            counts.tally.count(None, agreed);
            for _ in 0..12 {
                try_call(&mut tested, frame, counts);
            }
        }
        Err(cause) => counts.count_refused(cause),
    }
}

// ---- a session fed line by line, with a size call after each line

// The next line, and the sizes then.
fn size_line(tested: &mut Tested, frame: Frame, counts: &mut Counts) {
    let kind = CellKind::of(counts.tally.draw());
    let fed = tested.feed(frame, 1, frame.extent.width(), kind);
    counts.count_other(fed);
    let right = Right::of(frame, tested.session.fed);
    let sized = tested.read(OutputKind::Sizes, right.groups.count.n, &right);
    counts.count_other(sized);
    add(&mut counts.sized_lines);
}

// A whole frame, in words that hold anything.
#[inline(never)]
pub fn try_lines(frame: Frame, counts: &mut Counts) {
    match Tested::open(frame, flood::layout::WORDS) {
        Ok(mut tested) => {
            for _ in 0..frame.extent.lines {
                size_line(&mut tested, frame, counts);
            }
        }
        Err(cause) => counts.count_refused(cause),
    }
}
