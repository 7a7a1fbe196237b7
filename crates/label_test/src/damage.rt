// Damaged records and memories: one field or word changed so that a clause of document 01's "Unsound, exactly" holds, or the total made
// wrong, or the structure lopsided, or the sizes of roots such that they do not add up to the total. A feed, a reading, a size call and a
// structure change that would be accepted must then get 6 and leave record, words and output as they were. Where a run is damaged the total
// is made that of the damaged runs, and the sizes such that they add up to it, so that it is neither that tells.
use crate::counts::Counts;
use crate::tested::{Call, Tested};
use causes::Cause;
use flood::layout::{Part, UNREAD, Words, word};
use flood::{Frame, begins_with, put};
use label::Session;
use samples::{below, lend, next};
use trial::{CellKind, NumberKind, OutputKind, add};

#[derive(Clone, Copy)]
enum RecordDamage {
    RankZero,
    RankFive,
    ZeroDimension,
    LargeDimension,
    LargeWidth,
    LinesMore,
    RunsMore,
    RunsLess,
    JoinsMore,
    JoinsLess,
    TotalMore,
    // Of an empty frame one more.
    TotalLess,
    // 2^32 more.
    TotalFar,
    TotalLargest,
    Lopsided,
}

#[derive(Clone, Copy)]
enum LineDamage {
    // Word 0 is not 0.
    First,
    // A start is below the one before.
    Falling,
    // The last is not the count of runs.
    Last,
}

#[derive(Clone, Copy)]
enum RunDamage {
    // A run's start is not below its end.
    Empty,
    EndPastWidth,
    // The next run of the line is over it, or before it, or touches it.
    NextOver,
    NextBefore,
    NextTouching,
    // It is longer than one cell.
    Longer,
    ParentAbove,
    // A root that is none, or a run that is made a root.
    OtherRoot,
}

// Of a root's size.
#[derive(Clone, Copy)]
enum SizeDamage {
    More,
    Less,
    Largest,
    Zero,
    // 2^16 more.
    Far,
    // 2^31 more, as another root's then is, so that the sizes add up to 2^32 more than they should.
    Both,
    // The same, with a total that is 2^32 more, too.
    BothAndTotal,
}

#[derive(Clone, Copy)]
enum Damage {
    Record(RecordDamage),
    Line(LineDamage),
    // All runs are in the last line.
    Crowded,
    Run(RunDamage),
    Size(SizeDamage),
    // The memory has a word too few.
    Shorter,
    // None, for which the calls are accepted: any sizes at runs that are no roots, and nothing.
    FreeSizes,
    Nothing,
}

const DAMAGES: [Damage; 37] = [
    Damage::Record(RecordDamage::RankZero),
    Damage::Record(RecordDamage::RankFive),
    Damage::Record(RecordDamage::ZeroDimension),
    Damage::Record(RecordDamage::LargeDimension),
    Damage::Record(RecordDamage::LargeWidth),
    Damage::Record(RecordDamage::LinesMore),
    Damage::Record(RecordDamage::RunsMore),
    Damage::Record(RecordDamage::RunsLess),
    Damage::Record(RecordDamage::JoinsMore),
    Damage::Record(RecordDamage::JoinsLess),
    Damage::Record(RecordDamage::TotalMore),
    Damage::Record(RecordDamage::TotalLess),
    Damage::Record(RecordDamage::TotalFar),
    Damage::Record(RecordDamage::TotalLargest),
    Damage::Record(RecordDamage::Lopsided),
    Damage::Line(LineDamage::First),
    Damage::Line(LineDamage::Falling),
    Damage::Line(LineDamage::Last),
    Damage::Crowded,
    Damage::Run(RunDamage::Empty),
    Damage::Run(RunDamage::EndPastWidth),
    Damage::Run(RunDamage::NextOver),
    Damage::Run(RunDamage::NextBefore),
    Damage::Run(RunDamage::NextTouching),
    Damage::Run(RunDamage::Longer),
    Damage::Run(RunDamage::ParentAbove),
    Damage::Run(RunDamage::OtherRoot),
    Damage::Size(SizeDamage::More),
    Damage::Size(SizeDamage::Less),
    Damage::Size(SizeDamage::Largest),
    Damage::Size(SizeDamage::Zero),
    Damage::Size(SizeDamage::Far),
    Damage::Size(SizeDamage::Both),
    Damage::Size(SizeDamage::BothAndTotal),
    Damage::Shorter,
    Damage::FreeSizes,
    Damage::Nothing,
];

// ---- records

const FAR: usize = 1 << 32;

fn damage_record(record: Session, lines: usize, damage: RecordDamage, x: u64) -> Session {
    let mut s = record;
    let last = record.rank.wrapping_sub(1);
    match damage {
        RecordDamage::RankZero => s.rank = 0,
        RecordDamage::RankFive => s.rank = 5,
        RecordDamage::ZeroDimension => s.shape[0] = 0,
        RecordDamage::LargeDimension => s.shape[0] = 4294967293,
        RecordDamage::LargeWidth => put(&mut s.shape, last, 2147483647),
        RecordDamage::LinesMore => s.fed = lines.wrapping_add(1),
        RecordDamage::RunsMore => s.figures.runs = s.figures.runs.wrapping_add(1),
        RecordDamage::RunsLess => s.figures.runs = s.figures.runs.wrapping_sub(1),
        RecordDamage::JoinsMore => s.figures.joins = s.figures.joins.wrapping_add(1),
        RecordDamage::JoinsLess => s.figures.joins = s.figures.joins.wrapping_sub(1),
        RecordDamage::TotalMore => s.figures.cells = s.figures.cells.wrapping_add(1),
        RecordDamage::TotalLess => s.figures.cells = s.figures.cells.checked_sub(1).unwrap_or(1),
        RecordDamage::TotalFar => s.figures.cells = s.figures.cells.wrapping_add(FAR),
        RecordDamage::TotalLargest => s.figures.cells = usize::MAX,
        RecordDamage::Lopsided => {
            let bytes = trial::structure_of(record).lopsided(x).bytes;
            s.structure = bytes;
        }
    }
    s
}

// Whether a damage breaks a clause on a record of this rank: a leading dimension of 0 or too large needs one.
fn breaks_record(rank: usize, damage: RecordDamage) -> bool {
    match damage {
        RecordDamage::ZeroDimension | RecordDamage::LargeDimension => rank != 1,
        _ => true,
    }
}

// ---- words: whether a damage broke a clause

// Changes a word to another; gives whether it did.
fn change(words: &mut Words, at: usize, x: usize) -> bool {
    let before = words.at(at);
    words.set(at, x);
    word(x) != before
}

// The line is any but the first.
fn damage_line(words: &mut Words, record: Session, line: usize, damage: LineDamage) -> bool {
    let before = words.at(line.wrapping_sub(1)) as usize;
    match damage {
        LineDamage::First => change(words, 0, 1),
        LineDamage::Falling => {
            before > 0 && line <= record.fed && change(words, line, before.wrapping_sub(1))
        }
        LineDamage::Last => change(words, record.fed, record.figures.runs.wrapping_add(1)),
    }
}

fn crowd(words: &mut Words, record: Session) -> bool {
    for line in 1..record.fed {
        words.set(line, 0);
    }
    record.figures.runs > words.extent.most_runs()
}

// Whether the next run is in the line of a run: no line starts with it.
fn has_mate(words: &Words, lines: usize, run: usize) -> bool {
    let next = word(run.wrapping_add(1));
    (0..lines.wrapping_add(1)).all(|line| words.at(line) != next)
}

fn damage_run(words: &mut Words, record: Session, run: usize, damage: RunDamage) -> bool {
    if run >= record.figures.runs {
        return false;
    }
    let e = words.extent;
    let place = e.run_place(run);
    let next = e.run_place(run.wrapping_add(1));
    let end_at = place.wrapping_add(Part::End as usize);
    let parent_at = place.wrapping_add(Part::Parent as usize);
    let start = words.get(run, Part::Start);
    let end = words.get(run, Part::End);
    let parent = words.get(run, Part::Parent);
    let mate = has_mate(words, record.fed, run);
    match damage {
        RunDamage::Empty => change(words, place, end),
        RunDamage::EndPastWidth => change(words, end_at, e.width().wrapping_add(1)),
        RunDamage::NextOver => mate && change(words, next, end.wrapping_sub(1)),
        RunDamage::NextBefore => mate && change(words, next, 0),
        RunDamage::NextTouching => mate && e.left && change(words, next, end),
        RunDamage::Longer => !e.left && change(words, end_at, start.wrapping_add(2)),
        RunDamage::ParentAbove => change(words, parent_at, run.wrapping_add(1)),
        RunDamage::OtherRoot if parent != run => change(words, parent_at, run),
        RunDamage::OtherRoot => run > 0 && change(words, parent_at, run.wrapping_sub(1)),
    }
}

fn damaged_size(size: usize, damage: SizeDamage) -> usize {
    match damage {
        SizeDamage::More => size.wrapping_add(1),
        SizeDamage::Less => size.wrapping_sub(1),
        SizeDamage::Largest => 4294967295,
        SizeDamage::Zero => 0,
        SizeDamage::Far => size.wrapping_add(65536),
        SizeDamage::Both | SizeDamage::BothAndTotal => size.wrapping_add(2147483648),
    }
}

fn damage_size(words: &mut Words, runs: usize, damage: SizeDamage, x: u64) -> bool {
    let root = words.root_of(below(x, runs));
    let other = words.root_of(below(next(x), runs));
    let both = matches!(damage, SizeDamage::Both | SizeDamage::BothAndTotal);
    if runs == 0 || (both && root == other) {
        return false;
    }
    if both {
        let size = damaged_size(words.get(other, Part::Size), damage);
        words.put(other, Part::Size, size);
    }
    let before = words.get(root, Part::Size);
    words.put(root, Part::Size, damaged_size(before, damage));
    words.get(root, Part::Size) != before
}

fn damage_words(words: &mut Words, record: Session, damage: Damage, x: u64) -> bool {
    let runs = record.figures.runs;
    match damage {
        Damage::Line(damage) => {
            let line = below(x, record.fed).wrapping_add(1);
            damage_line(words, record, line, damage)
        }
        Damage::Crowded => crowd(words, record),
        Damage::Run(damage) => {
            let broken = damage_run(words, record, below(x, runs), damage);
            words.lump_sizes(runs, words.sum_lengths(runs));
            broken
        }
        Damage::Size(damage) => damage_size(words, runs, damage, x),
        Damage::Record(_) | Damage::Shorter | Damage::FreeSizes | Damage::Nothing => false,
    }
}

// ---- the calls

// Whether a call that would be accepted gives this cause, or is accepted, and writes nothing if refused: a feed of no lines, a reading, a
// size call, or a change to the structure that the session was opened with.
fn is_answered(
    session: Session,
    words: &mut [u32],
    frame: Frame,
    call: Call,
    n: usize,
    right: Option<Cause>,
) -> bool {
    match call {
        Call::Feed(kind) => {
            let fed = trial::feed(session, words, 0, &[], kind);
            fed.answer.err() == right && fed.session == session
        }
        Call::Read(into) => {
            let read = trial::read(session, words, into.places(frame.extent, n), into);
            let stands = right.is_none() || begins_with(&read.output, &[], UNREAD);
            stands && read.answer.err() == right && read.session == session
        }
        Call::Change => {
            let changed = session.widen(words, frame.structure);
            changed.answer.err() == right && changed.session == session
        }
    }
}

fn try_calls(
    session: Session,
    words: &mut [u32],
    frame: Frame,
    n: usize,
    right: Option<Cause>,
    counts: &mut Counts,
) {
    let calls = [
        Call::Feed(CellKind::of(counts.tally.draw())),
        Call::Read(OutputKind::Numbers(NumberKind::U32)),
        Call::Read(OutputKind::Sizes),
        Call::Change,
    ];
    for call in calls {
        let agreed = is_answered(session, words, frame, call, n, right);
        counts.tally.count(right, agreed);
    }
    // Each of the four calls has a random number, and the feed alone takes its own.
    counts.tally.skip(3);
}

// Changes the words; whether this damage, of the words or of the record, breaks a clause here.
fn damage_memory(bad: &mut Tested, damage: Damage, counts: &mut Counts) -> bool {
    let record = bad.session;
    let broken = damage_words(&mut bad.words, record, damage, counts.tally.draw());
    let x = counts.tally.draw();
    match damage {
        Damage::Record(damage) => breaks_record(record.rank, damage),
        Damage::Shorter => true,
        Damage::FreeSizes => {
            samples::spoil_sizes(&mut bad.words, record.figures.runs, x);
            false
        }
        _ => broken,
    }
}

// The record that goes with such words: their total is that of the runs as they then are.
fn damaged_record(bad: &Tested, lines: usize, damage: Damage, x: u64) -> Session {
    let mut s = bad.session;
    s.figures.cells = bad.words.sum_lengths(s.figures.runs);
    match damage {
        Damage::Record(damage) => damage_record(s, lines, damage, x),
        Damage::Size(SizeDamage::BothAndTotal) => {
            s.figures.cells = s.figures.cells.wrapping_add(FAR);
            s
        }
        _ => s,
    }
}

// One damage, if it breaks a clause here or is none. Not inlined, so that its copy is not on the stack while the session is made.
#[inline(never)]
fn try_damage(tested: &Tested, frame: Frame, damage: Damage, counts: &mut Counts) {
    let mut bad = *tested;
    let broken = damage_memory(&mut bad, damage, counts);
    let is_none = matches!(damage, Damage::FreeSizes | Damage::Nothing);
    if !broken && !is_none {
        return;
    }
    bad.laid = bad.words;
    let short = matches!(damage, Damage::Shorter) as usize;
    let memory = frame.extent.words_needed().wrapping_sub(short);
    let n = bad
        .session
        .figures
        .runs
        .wrapping_sub(bad.session.figures.joins);
    let session = damaged_record(&bad, frame.extent.lines, damage, counts.tally.draw());
    let words = lend(&mut bad.words.all, memory);
    let right = if broken { Some(Cause::Unsound) } else { None };
    try_calls(session, words, frame, n, right, counts);
    add(if broken {
        &mut counts.damaged
    } else {
        &mut counts.undamaged
    });
    counts.tally.count(None, !broken || bad.words == bad.laid);
}

// A session with some lines fed, and every damage in turn. No function that makes a session for main is inlined there, so that main's
// stack does not hold the words of them all.
#[inline(never)]
pub fn try_damaged(frame: Frame, counts: &mut Counts) {
    let lines = below(counts.tally.draw(), frame.extent.lines.wrapping_add(1));
    match Tested::fed(frame, lines) {
        Ok(tested) => {
            for damage in DAMAGES {
                try_damage(&tested, frame, damage, counts);
            }
        }
        Err(cause) => counts.count_refused(cause),
    }
}
