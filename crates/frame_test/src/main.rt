// Whole frames at run time, for every block count from 0 to one more than the lines, against a plain labelling by flood fill: answers,
// numbers, and every word, among them the size of each root; and the same frames with lopsided structures, which are refused.
#![tactic(auto)]

use causes::Cause;
use flood::layout::{UNREAD, Words};
use flood::{CELLS, Frame, Groups, begins_with};
use label::Counted;
use samples::{below, first, lend, near, next};
use trial::{CellKind, Labelled, NumberKind, Tally, WholeCall, add, report};

// ---- against the flood fill

// What a call should answer, the words that it should leave but for what is free, and the groups and sizes of the lines fed then.
#[derive(Clone, Copy)]
struct Right {
    answer: Result<Counted, Cause>,
    laid: Words,
    groups: Groups,
    sizes: [u32; CELLS],
}

impl Right {
    // Refused before anything is written.
    fn unwritten(frame: Frame, cause: Cause) -> Right {
        let groups = frame.groups(0);
        Right {
            answer: Err(cause),
            laid: Words::unwritten(frame.extent),
            groups,
            sizes: groups.sizes(),
        }
    }

    // Fed all lines. Where there are more groups than the kind has numbers, it is refused then, and the runs get no names.
    fn fed(frame: Frame, numbers: NumberKind) -> Right {
        let groups = frame.groups(frame.extent.lines);
        let n = groups.count.n;
        let figures = trial::figures(groups.count);
        let mut laid = Words::unwritten(frame.extent);
        laid.lay(frame, frame.extent.lines);
        let answer = if n <= numbers.largest() {
            laid.lay_names(&groups);
            Ok(Counted { n, figures })
        } else {
            Err(Cause::Kind)
        };
        Right {
            answer,
            laid,
            groups,
            sizes: groups.sizes(),
        }
    }

    // With so many cells given. Not inlined, nor are the two below: their words are not on the stack of those that call them.
    #[inline(never)]
    fn of(frame: Frame, cells: usize, call: WholeCall) -> Right {
        let exact = frame.extent.cells(frame.extent.lines);
        if cells != exact {
            Right::unwritten(frame, Cause::Cells)
        } else if call.places != exact {
            Right::unwritten(frame, Cause::Length)
        } else {
            Right::fed(frame, call.numbers)
        }
    }

    // Whether this is what a call answers and leaves. `laid` takes over from the words what is free.
    #[inline(never)]
    fn comes_of(&mut self, given: Frame, call: WholeCall) -> bool {
        let mut words = Words::unwritten(given.extent);
        let lent = lend(&mut words.all, given.extent.words_needed());
        let Labelled { answer, output } = trial::label(given, lent, call);
        let joins = self.laid.take_groups(&words, &self.groups, &self.sizes);
        let written = if answer.is_ok() { call.places } else { 0 };
        answer == self.answer
            && joins == Some(trial::figures(self.groups.count).joins)
            && words == self.laid
            && begins_with(&output, first(&self.groups.numbers, written), UNREAD)
    }
}

// A frame by one call that is given so many cells, for every block count.
fn try_call(frame: Frame, cells: usize, call: WholeCall, counts: &mut Counts) {
    let mut right = Right::of(frame, cells, call);
    let cause = right.answer.err();
    let given = Frame::new(frame.shape, frame.structure, first(frame.flags, cells));
    for blocks in 0..frame.extent.lines.wrapping_add(2) {
        let agreed = right.comes_of(given, WholeCall { blocks, ..call });
        add(&mut counts.frames);
        counts.tally.count(cause, agreed);
    }
}

// With a structure made lopsided, whatever cells and places are given.
#[inline(never)]
fn try_lopsided(given: Frame, call: WholeCall, counts: &mut Counts) {
    let blocks = below(counts.tally.draw(), 4);
    let mut right = Right::unwritten(given, Cause::Lopsided);
    let agreed = right.comes_of(given, WholeCall { blocks, ..call });
    counts.tally.count(Some(Cause::Lopsided), agreed);
}

// ---- random frames

// Of random kinds, for as many places, now and then one more or one less.
fn draw_call(exact: usize, x: u64) -> WholeCall {
    WholeCall {
        cells: CellKind::of(x),
        numbers: NumberKind::of(next(x)),
        places: near(exact, next(next(next(x)))),
        blocks: 0,
    }
}

fn try_frame(counts: &mut Counts) {
    let drawn = counts.tally.draw_frame();
    let frame = Frame::new(drawn.shape.used(), drawn.structure.used(), &drawn.flags);
    let exact = frame.extent.cells(frame.extent.lines);
    let x = counts.tally.draw();
    let call = draw_call(exact, x);
    let cells = near(exact, next(next(x)));
    counts.tally.count_cells(call.cells);
    counts.tally.count_numbers(call.numbers);
    try_call(frame, cells, call, counts);
    let lopsided = drawn.structure.lopsided(counts.tally.draw());
    let given = Frame::new(frame.shape, lopsided.used(), first(frame.flags, cells));
    try_lopsided(given, call, counts);
}

// ---- fixed cases

// A line of so many cells, every other nonzero.
fn try_lone(width: usize, numbers: NumberKind, counts: &mut Counts) {
    let flags = samples::lone_flags();
    let call = WholeCall {
        cells: CellKind::U8,
        numbers,
        places: width,
        blocks: 0,
    };
    try_call(
        Frame::new(&[width], &[1, 1, 1], &flags),
        width,
        call,
        counts,
    );
}

fn try_all_lone(counts: &mut Counts) {
    for width in [509, 511] {
        try_lone(width, NumberKind::U8, counts);
        try_lone(width, NumberKind::U16, counts);
    }
}

// ---- the counts

#[derive(Drop)]
struct Counts {
    tally: Tally,
    // Whole frames, one for each block count.
    frames: u64,
}

impl Counts {
    fn report(&self, rt: &impl Print) {
        report(
            rt,
            &[("whole frames, one for each block count", self.frames)],
        );
        self.tally.report_frames(rt);
        self.tally.report_kinds(rt);
        let refused = [Cause::Cells, Cause::Length, Cause::Kind, Cause::Lopsided];
        self.tally.report_refused(rt, &refused);
        self.tally.report_outcome(rt);
    }
}

fn main(rt: HostRuntime) {
    let mut counts = Counts {
        tally: Tally::new(),
        frames: 0,
    };
    try_all_lone(&mut counts);
    for _ in 0..4000 {
        try_frame(&mut counts);
    }
    counts.report(&rt);
}
