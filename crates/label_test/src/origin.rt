// Records of other origin: a session's, with its total dealt out among the roots' sizes otherwise than by groups, any words at the sizes of
// other runs, any bytes past its structure's, and in some a root that was made a run of another group. They are accepted. A size call
// copies the sizes that stand there, a reading numbers the groups that the record holds, and a feed adds sizes and lengths by document 02's
// rule. After a structure change groups and sizes are the flood fill's again, whatever the record held.
use crate::counts::Counts;
use crate::tested::{Right, Tested, Turn};
use flood::layout::{Part, Words};
use flood::{Frame, Groups};
use samples::{below, next, part_of};
use trial::{CellKind, NumberKind, OutputKind, add};

// A run that was a root, and the run that became its parent.
#[derive(Clone, Copy)]
struct Link {
    run: usize,
    to: usize,
}

fn draw_link(words: &Words, runs: usize, x: u64) -> Option<Link> {
    let run = words.root_of(below(x, runs));
    let to = if x / 65536 % 2 == 0 {
        run
    } else {
        below(next(x), run)
    };
    if run == to {
        None
    } else {
        Some(Link { run, to })
    }
}

// The groups of the first lines by the grouping that such a record holds: that of the flood fill, with the link.
fn linked_groups(frame: Frame, lines: usize, link: Option<Link>) -> Groups {
    let mut groups = frame.groups(lines);
    if let Some(Link { run, to }) = link {
        let a = groups.name(run);
        let b = groups.name(to);
        if a != b {
            groups.unite(a.min(b), a.max(b));
        }
    }
    groups
}

// A reading into u32 numbers and a size call: the right sizes are the roots' words.
fn read_both(tested: &mut Tested, frame: Frame, link: Option<Link>, counts: &mut Counts) {
    let groups = linked_groups(frame, tested.session.fed, link);
    let sizes = tested.laid.add_sizes(&groups, groups.count.runs);
    let right = Right { groups, sizes };
    let cells = frame.extent.cells(frame.extent.lines);
    counts.count_other(tested.read(OutputKind::Numbers(NumberKind::U32), cells, &right));
    counts.count_other(tested.read(OutputKind::Sizes, groups.count.n, &right));
}

// A feed of k lines. The right sizes are those of the words before, with the lengths of the new runs.
fn feed_linked(
    tested: &mut Tested,
    frame: Frame,
    link: Option<Link>,
    k: usize,
    kind: CellKind,
) -> Turn {
    let before = tested.session;
    let lines = before.fed.wrapping_add(k);
    let e = frame.extent;
    let cells = part_of(frame.flags, e.cells(before.fed), e.cells(k));
    let groups = linked_groups(frame, lines, link);
    tested.laid.lay(frame, lines);
    let sizes = tested.laid.add_sizes(&groups, before.figures.runs);
    let done = trial::feed(before, &mut tested.words.all, k, cells, kind);
    tested.accept(done, before, lines, &Right { groups, sizes })
}

// Makes such a record and its memory of a session's.
fn make(tested: &mut Tested, link: Option<Link>, counts: &mut Counts) {
    let figures = tested.session.figures;
    if let Some(Link { run, to }) = link {
        tested.words.put(run, Part::Parent, to);
        tested.session.figures.joins = figures.joins.wrapping_add(1);
        add(&mut counts.linked);
    }
    samples::deal_sizes(
        &mut tested.words,
        figures.runs,
        figures.cells,
        counts.tally.draw(),
    );
    let bytes = trial::structure_of(tested.session)
        .with_tail(counts.tally.draw())
        .bytes;
    tested.session.structure = bytes;
    tested.laid = tested.words;
    add(&mut counts.origins);
}

// Feeds such a record k of the lines left, and reads it.
fn feed_and_read(
    tested: &mut Tested,
    frame: Frame,
    link: Option<Link>,
    k: usize,
    counts: &mut Counts,
) {
    let kind = CellKind::of(counts.tally.draw());
    counts.count_other(feed_linked(tested, frame, link, k, kind));
    read_both(tested, frame, link, counts);
}

// Gives such a record the frame's structure, and reads it: no link is held then.
fn change_and_read(tested: &mut Tested, frame: Frame, counts: &mut Counts) {
    counts.count_other(tested.change(frame, None));
    add(&mut counts.regrouped);
    read_both(tested, frame, None, counts);
}

// Reads a record of other origin, feeds it k of the lines left and gives it a wider structure, or the other way round.
fn try_record(
    tested: &mut Tested,
    frame: Frame,
    link: Option<Link>,
    k: usize,
    counts: &mut Counts,
) {
    read_both(tested, frame, link, counts);
    let x = counts.tally.draw();
    let drawn = samples::Structure::of(frame.structure).wider(x);
    let wider = Frame::new(frame.shape, drawn.used(), frame.flags);
    if x / 1024 % 2 == 0 {
        feed_and_read(tested, frame, link, k, counts);
        change_and_read(tested, wider, counts);
    } else {
        change_and_read(tested, wider, counts);
        feed_and_read(tested, wider, None, k, counts);
    }
}

// Feeds a session some lines, makes a record of other origin of it, and tries that; at least one line follows, if there is one.
#[inline(never)]
pub fn try_origin(frame: Frame, counts: &mut Counts) {
    let x = counts.tally.draw();
    let lines = frame.extent.lines;
    let before = below(x, lines.wrapping_add(1));
    match Tested::fed(frame, before) {
        Ok(mut tested) => {
            let link = draw_link(&tested.words, tested.session.figures.runs, next(x));
            make(&mut tested, link, counts);
            let left = lines.wrapping_sub(before);
            let k = below(next(next(x)), left).wrapping_add((left > 0) as usize);
            try_record(&mut tested, frame, link, k, counts);
        }
        Err(cause) => counts.count_refused(cause),
    }
}
