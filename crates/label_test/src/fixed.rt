// Fixed cases: the causes of an opening and of a structure change, and what stands after them; and u8 numbers at their limit.
use crate::counts::Counts;
use crate::tested::Tested;
use causes::Cause;
use flood::layout::{UNREAD, Words};
use flood::{CELLS, Frame, begins_with};
use label::Session;
use samples::{Structure, first, lend};
use trial::{CellKind, NumberKind, OutputKind, WholeCall};

// Each case is a row of arguments, and no struct, whose field names would then stand in every row.

// ---- openings

// A whole frame with so many words, that should be refused with this cause and leave words and output.
fn refuses_whole(frame: Frame, memory: usize, cause: Cause) -> bool {
    let mut words = Words::unwritten(frame.extent);
    let before = words;
    let call = WholeCall {
        cells: CellKind::U8,
        numbers: NumberKind::U8,
        places: CELLS,
        blocks: 1,
    };
    let done = trial::label(frame, lend(&mut words.all, memory), call);
    done.answer == Err(cause) && words == before && begins_with(&done.output, &[], UNREAD)
}

// An opening with the same, that should be refused with this cause, if there is one; a whole frame then has an output that does not fit.
fn try_structure(
    shape: &[usize],
    structure: &[u8],
    memory: usize,
    cause: Option<Cause>,
    counts: &mut Counts,
) {
    let frame = Frame::new(shape, structure, structure);
    let mut words = Words::unwritten(frame.extent);
    let mut laid = words;
    let whole = refuses_whole(frame, memory, cause.unwrap_or(Cause::Length));
    let opened = Session::open(shape, structure, lend(&mut words.all, memory)).err();
    if cause.is_none() {
        laid.set(0, 0);
    }
    counts
        .tally
        .count(opened, whole && opened == cause && words == laid);
}

// With a structure of so many ones.
fn try_opening(
    shape: &[usize],
    bytes: usize,
    memory: usize,
    cause: Option<Cause>,
    counts: &mut Counts,
) {
    let ones = [1u8; 243];
    try_structure(shape, first(&ones, bytes), memory, cause, counts);
}

// With one whose first byte is 0, so that it is lopsided.
fn try_lopsided(shape: &[usize], bytes: usize, memory: usize, cause: Cause, counts: &mut Counts) {
    let mut ones = [1u8; 243];
    ones[0] = 0;
    try_structure(shape, first(&ones, bytes), memory, Some(cause), counts);
}

fn try_openings(counts: &mut Counts) {
    let rank = Some(Cause::Rank);
    let length = Some(Cause::StructureLength);
    let zero = Some(Cause::ZeroDimension);
    try_opening(&[], 1, 40, rank, counts);
    try_opening(&[], 3, 0, rank, counts);
    try_opening(&[1, 1, 1, 1, 1], 243, 40, rank, counts);
    try_opening(&[3, 3], 8, 40, length, counts);
    try_opening(&[0, 3], 27, 40, length, counts);
    try_opening(&[0, 3], 9, 40, zero, counts);
    try_opening(&[2, 0, 2], 27, 40, zero, counts);
    try_opening(&[0, 4294967295], 9, 0, zero, counts);
}

// A lopsided structure comes after a wrong rank and a wrong length, and before all else.
fn try_all_lopsided(counts: &mut Counts) {
    try_lopsided(&[], 3, 40, Cause::Rank, counts);
    try_lopsided(&[1, 1, 1, 1, 1], 243, 40, Cause::Rank, counts);
    try_lopsided(&[3, 3], 27, 40, Cause::StructureLength, counts);
    try_lopsided(&[0, 3], 9, 40, Cause::Lopsided, counts);
    try_lopsided(&[4294967293, 1], 9, 40, Cause::Lopsided, counts);
    try_lopsided(&[3, 3], 9, 33, Cause::Lopsided, counts);
    try_lopsided(&[3], 3, 40, Cause::Lopsided, counts);
    try_lopsided(&[3, 3], 9, 34, Cause::Lopsided, counts);
    try_lopsided(&[1, 1, 3], 27, 40, Cause::Lopsided, counts);
    try_lopsided(&[1, 1, 1, 3], 81, 40, Cause::Lopsided, counts);
    try_structure(&[3], &[2, 0, 7], 40, None, counts);
}

fn try_limits(counts: &mut Counts) {
    let large = Some(Cause::TooLarge);
    let memory = Some(Cause::Memory);
    try_opening(&[4294967293, 1], 9, 40, large, counts);
    try_opening(&[4294967292, 1], 9, 40, memory, counts);
    try_opening(&[4294967293, 0], 9, 40, large, counts);
    try_opening(&[1, 2147483647], 9, 40, large, counts);
    try_opening(&[1, 2147483646], 9, 40, memory, counts);
    try_opening(&[65536, 65536], 9, 40, large, counts);
    try_opening(&[4294967296, 4294967296, 1], 27, 40, large, counts);
    try_opening(&[3, 3], 9, 33, memory, counts);
    try_opening(&[3, 3], 9, 34, None, counts);
}

// ---- structure changes

// Whether a feed of no lines is accepted, or refused as it should be, and changes nothing.
fn feeds_none(tested: &mut Tested, accepted: bool) -> bool {
    let done = trial::feed(tested.session, &mut tested.words.all, 0, &[], CellKind::U8);
    let stands = done.session == tested.session && tested.words == tested.laid;
    stands && done.answer.is_ok() == accepted
}

// A session with so many lines of nonzero cells fed, and a change of it from a structure to another, which should be refused with this
// cause, if there is one; and a feed of no lines then. To be unsound, the record has a total of one more.
fn try_change(
    shape: &[usize],
    lines: usize,
    old: &[u8],
    new: &[u8],
    cause: Option<Cause>,
    counts: &mut Counts,
) {
    let ones = [1u8; CELLS];
    let is_sound = cause != Some(Cause::Unsound);
    match Tested::fed(Frame::new(shape, old, &ones), lines) {
        Ok(mut tested) => {
            let more = !is_sound as usize;
            tested.session.figures.cells = tested.session.figures.cells.wrapping_add(more);
            let turn = tested.change(Frame::new(shape, new, &ones), cause);
            let stands = feeds_none(&mut tested, is_sound);
            counts.tally.count(turn.cause, turn.agreed && stands);
        }
        Err(cause) => counts.count_refused(cause),
    }
}

// Of a frame of rank 1 and width 3.
fn try_line(lines: usize, old: &[u8], new: &[u8], cause: Option<Cause>, counts: &mut Counts) {
    try_change(&[3], lines, old, new, cause, counts);
}

// A length that is not exact comes before a lopsided structure, and that before a narrower one, which is so by the left byte either way, or
// by the middle one. An unsound record comes before all of them.
fn try_line_changes(counts: &mut Counts) {
    let length = Some(Cause::StructureLength);
    let lopsided = Some(Cause::Lopsided);
    let narrower = Some(Cause::NotWider);
    let unsound = Some(Cause::Unsound);
    try_line(1, &[1, 1, 1], &[], length, counts);
    try_line(1, &[1, 1, 1], &[0, 1], length, counts);
    try_line(0, &[1, 1, 1], &[1, 1, 1, 1], length, counts);
    try_line(1, &[1, 1, 1], &[1, 1, 0], lopsided, counts);
    try_line(1, &[0, 1, 0], &[0, 0, 1], lopsided, counts);
    try_line(1, &[1, 1, 1], &[0, 1, 0], narrower, counts);
    try_line(0, &[0, 1, 0], &[1, 1, 1], narrower, counts);
    try_line(1, &[1, 1, 1], &[1, 0, 1], narrower, counts);
    try_line(1, &[1, 0, 1], &[1, 1, 1], None, counts);
    try_line(1, &[0, 1, 0], &[0, 1, 0], None, counts);
    try_line(1, &[1, 1, 1], &[1, 1], unsound, counts);
    try_line(1, &[1, 1, 1], &[1, 1, 0], unsound, counts);
    try_line(0, &[1, 1, 1], &[0, 1, 0], unsound, counts);
    try_line(1, &[1, 1, 1], &[1, 1, 1], unsound, counts);
}

const ROW: [u8; 9] = [0, 0, 0, 1, 1, 1, 0, 0, 0];

const ARMS: [u8; 9] = [0, 1, 0, 1, 0, 1, 0, 1, 0];

const SLANT: [u8; 9] = [1, 0, 0, 1, 1, 1, 0, 0, 1];

const FULL: [u8; 9] = [1; 9];

// Of a frame of three lines of this width.
fn try_plane(
    width: usize,
    lines: usize,
    old: &[u8],
    new: &[u8],
    cause: Option<Cause>,
    counts: &mut Counts,
) {
    try_change(&[3, width], lines, old, new, cause, counts);
}

// Wider by a pair or more, equal, and narrower by a pair, by the first, or by the middle byte. Where no line is fed, and where the lines
// have no cells, only the record changes.
fn try_plane_changes(counts: &mut Counts) {
    let narrower = Some(Cause::NotWider);
    let length = Some(Cause::StructureLength);
    let padded = Structure::of(&FULL).bytes;
    try_plane(3, 3, &ROW, &SLANT, None, counts);
    try_plane(3, 2, &ROW, &FULL, None, counts);
    try_plane(3, 3, &SLANT, &SLANT, None, counts);
    try_plane(3, 0, &SLANT, &FULL, None, counts);
    try_plane(0, 3, &SLANT, &FULL, None, counts);
    try_plane(3, 1, &ARMS, &FULL, None, counts);
    try_plane(3, 3, &ROW, &ARMS, narrower, counts);
    try_plane(3, 3, &SLANT, &ROW, narrower, counts);
    try_plane(3, 0, &FULL, &SLANT, narrower, counts);
    try_plane(0, 3, &FULL, &ARMS, narrower, counts);
    try_plane(3, 3, &ROW, first(&padded, 3), length, counts);
    try_plane(3, 3, &ROW, first(&padded, 27), length, counts);
}

// ---- numbers at a limit

// A line of so many cells, every other nonzero, read as u8, which should be refused with this cause, if there is one.
fn try_lone(width: usize, cause: Option<Cause>, counts: &mut Counts) {
    let flags = samples::lone_flags();
    match Tested::fed(Frame::new(&[width], &[1, 1, 1], &flags), 1) {
        Ok(mut tested) => {
            let into = OutputKind::Numbers(NumberKind::U8);
            let read = trial::read(tested.session, &mut tested.words.all, width, into);
            let agreed = match read.answer {
                Ok(counted) => cause.is_none() && counted.n == 255,
                Err(refused) => cause == Some(refused),
            };
            counts.tally.count(read.answer.err(), agreed);
        }
        Err(cause) => counts.count_refused(cause),
    }
}

pub fn try_all(counts: &mut Counts) {
    try_openings(counts);
    try_all_lopsided(counts);
    try_limits(counts);
    try_line_changes(counts);
    try_plane_changes(counts);
    try_lone(509, None, counts);
    try_lone(511, Some(Cause::Kind), counts);
}
