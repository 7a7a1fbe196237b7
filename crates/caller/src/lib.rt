// A list of calls as running code: make_calls opens a session and makes the calls of a list of numbers through label's public
// methods, one after another on one record and one memory, and writes what each answers. It promises the plain session's answers
// (specs/Made.antt; specs/CallList.antt says which numbers are which call), and asks nothing of its caller.
//
//     decode     numbers of the list as a call
//     Making     the session, its memory and its answers: each method makes a call
//
// A method that makes a call says what it does as one step of a list (`Steps` in specs/Making.antt), and that the slices which the
// struct holds are those of before.
#![tactic(auto)]

ghost use Rattle.std.specs.Prelude.{◌≡◌, ◌++◌, map, ℕ, length};
ghost use Rattle.frame.specs.Kinds.{Cells, flags, u32};
ghost use Rattle.frame.specs.Plain.{feed, widen};
ghost use Rattle.label.specs.Cases.{feed_answer, read_answer};
ghost use Rattle.overlay.specs.Writers.{Writes};
ghost use Rattle.caller.specs.CallList.{call, no_call, held, read_entry, sizes_entry, decode, eight_numbers, answer_numbers};
ghost use Rattle.caller.specs.Rooms.{Rooms, room_of, with_room};
ghost use Rattle.caller.specs.Making.{standing, Performs, Steps, GoesOn, SameSlices, rooms_held, SameRooms, lent_in};
ghost use Rattle.caller.specs.Making.{IsPart, entry_at, entry_made, answer_of};
ghost use Rattle.caller.specs.Made.{made_number, made_places, MadePromise};

// The number that is written for what is no call.
const NO_CALL: u64 = 101;

// ---- what is lent

// A list of calls, four numbers to a call, and the cells of each kind that its feeds are parts of. The bytes of a structure change are a
// part of the u8s.
#[derive(Clone, Copy)]
pub struct CallList<'a> {
    pub numbers: &'a [usize],
    pub u8s: &'a [u8],
    pub u16s: &'a [u16],
    pub i16s: &'a [i16],
    pub f32s: &'a [f32],
}

// Where the outputs go: each to the first places of the room of its kind, that of a size call to the room of u32.
#[derive(Drop)]
pub struct OutputRooms<'a> {
    pub out8: &'a mut [u8],
    pub out16: &'a mut [u16],
    pub out32: &'a mut [u32],
}

// ---- calls

// The cells of a feed, which are of one kind.
#[derive(Clone, Copy)]
enum FedCells<'a> {
    U8(&'a [u8]),
    U16(&'a [u16]),
    I16(&'a [i16]),
    F32(&'a [f32]),
}

// The kind of an output's numbers.
#[derive(Clone, Copy)]
enum Kind {
    U8,
    U16,
    U32,
}

// An output: so many places, the first of its room, and what each holds before, as far as its kind can.
#[derive(Clone, Copy)]
struct Output {
    places: usize,
    value: usize,
}

// A feed has so many lines, a structure change the new structure's bytes.
#[derive(Clone, Copy)]
enum Call<'a> {
    Feed(usize, FedCells<'a>),
    Read(Kind, Output),
    Sizes(Output),
    Widen(&'a [u8]),
}

// The cells from place `from` on, so many, if there are.
fn part<T>(cells: &[T], from: usize, count: usize) -> Option<&[T]>
    ensures { IsPart cells.now from count result }
{
    cells.get(from..)?.get(..count)
}

// What numbers of the list are: fewer than four are no call, and neither is another code or a part beyond the cells.
fn decode<'a>(calls: CallList<'a>, numbers: &[usize]) -> Option<Call<'a>>
    ensures { (rooms : Rooms) → entry_made result rooms ≡ entry_at (lent_in calls.entry rooms) numbers.now }
{
    let &[code, a, b, c] = numbers else {
        return None;
    };
    let output = Output {
        places: a,
        value: b,
    };
    Some(match code {
        0 => Call::Feed(a, FedCells::U8(part(calls.u8s, b, c)?)),
        1 => Call::Feed(a, FedCells::U16(part(calls.u16s, b, c)?)),
        2 => Call::Feed(a, FedCells::I16(part(calls.i16s, b, c)?)),
        3 => Call::Feed(a, FedCells::F32(part(calls.f32s, b, c)?)),
        4 => Call::Read(Kind::U8, output),
        5 => Call::Read(Kind::U16, output),
        6 => Call::Read(Kind::U32, output),
        7 => Call::Sizes(output),
        8 => Call::Widen(part(calls.u8s, b, c)?),
        _ => return None,
    })
}

// ---- outputs and answers

// A kind of number whose outputs are filled before a call, and written to the answers after it: as a u64 it is what a place holds, and its
// clone is the number itself.
trait OutputNumber: write::FromU32 + Into<u64> {
    ghost widens: { (x : Self) (y : ℕ) → Self.converts x y → y ≡ Self.value x };

    ghost always_cloned: { (x : Self) → Self.is_infallible x };

    ghost cloned_alike: { (x y : Self) → Self.is_clone x y → y ≡ x };
}

// The laws are of each type's own conversion and clone, so each kind has them for itself.
impl OutputNumber for u8 {
    ghost widens = { λ x y e. e };

    ghost always_cloned = { λ x. tt };

    ghost cloned_alike = { λ x y e. e };
}

impl OutputNumber for u16 {
    ghost widens = { λ x y e. e };

    ghost always_cloned = { λ x. tt };

    ghost cloned_alike = { λ x y e. e };
}

impl OutputNumber for u32 {
    ghost widens = { λ x y e. e };

    ghost always_cloned = { λ x. tt };

    ghost cloned_alike = { λ x y e. e };
}

// What an output holds, place by place. On its own, and no method of Writer, since what the conversion gives is a law of OutputNumber. By
// a writer of its own, whose place need not be stored after each number: that takes half the time.
fn put_output<T: OutputNumber>(answers: &mut overlay::Writer<'_, u64>, out: &[T])
    ensures { Writes (map T.value out.now) answers.old answers.new }
{
    let mut writer = overlay::Writer {
        out: &mut *answers.out,
        at: answers.at,
    };
    for &x in out {
        writer.put(x.into());
    }
    answers.at = writer.at;
}

// The eight numbers of an answer: 0 or a cause, lines fed or n, the figures, and zeros.
fn put_eight(
    answers: &mut overlay::Writer<'_, u64>,
    number: u64,
    count: usize,
    figures: frame::Figures,
)
    ensures { Writes (eight_numbers number count figures) answers.old answers.new }
{
    let frame::Figures { runs, joins, cells } = figures;
    answers.put_all(&[
        number,
        count as u64,
        runs as u64,
        joins as u64,
        cells as u64,
        0,
        0,
        0,
    ]);
}

// An answer has lines fed or n, and the figures; of a refusal there is its number alone.
fn put_answer(
    answers: &mut overlay::Writer<'_, u64>,
    answer: Result<(usize, frame::Figures), causes::Cause>,
)
    ensures { Writes (answer_numbers (answer_of answer)) answers.old answers.new }
{
    match answer {
        Ok((count, figures)) => put_eight(answers, 0, count, figures),
        Err(cause) => put_eight(
            answers,
            u64::from(cause.number()),
            0,
            frame::Figures::zero(),
        ),
    }
}

// ---- the calls made

// What a place of that kind holds of a number.
fn held<T: write::FromU32>(value: usize) -> T
    ensures { T.value result ≡ held T.kind value }
{
    T::from_u32((value as u64 % (T::MAXV + 1)) as u32)
}

// The session, its memory, and the answers so far.
#[derive(Drop)]
struct Making<'w, 'a, 'o> {
    session: label::Session,
    words: &'w mut [u32],
    answers: &'a mut overlay::Writer<'o, u64>,
}

impl<'w, 'a, 'o> Making<'w, 'a, 'o> {
    // What is no call changes nothing.
    fn no_call(&mut self)
        ensures step { (rooms : Rooms) → Steps no_call (standing self.old rooms) (standing self.new rooms) }
        ensures same { SameSlices self.old self.new }
    {
        put_eight(&mut *self.answers, NO_CALL, 0, frame::Figures::zero());
    }

    // Goes on after a feed or a structure change, and writes what it answered.
    fn after_feed(&mut self, fed: label::Fed)
        ensures { GoesOn (answer_numbers (feed_answer fed.answer)) fed.session self.old self.new }
    {
        self.session = fed.session;
        let answer = fed.answer.map(|fed| (fed.lines, fed.figures));
        put_answer(&mut *self.answers, answer);
    }

    // Goes on after a reading or a size call, and writes what it answered and its output.
    fn after_read<T: OutputNumber>(&mut self, read: label::Read, out: &[T])
        ensures { GoesOn (answer_numbers (read_answer read.answer) ++ map T.value out.now) read.session self.old self.new }
    {
        self.session = read.session;
        let answer = read.answer.map(|counted| (counted.n, counted.figures));
        put_answer(&mut *self.answers, answer);
        put_output(&mut *self.answers, out);
    }

    fn feed<T: runs::Nz>(&mut self, lines: usize, cells: &[T])
        ensures step { (kind : Cells) (rooms : Rooms) → flags kind ≡ map T.nonzero cells.now
            → Steps (call (feed lines kind)) (standing self.old rooms) (standing self.new rooms) }
        ensures same { SameSlices self.old self.new }
    {
        let fed = self.session.feed(&mut *self.words, lines, cells);
        self.after_feed(fed);
    }

    fn widen(&mut self, structure: &[u8])
        ensures step { (rooms : Rooms) → Steps (call (widen structure.now)) (standing self.old rooms) (standing self.new rooms) }
        ensures same { SameSlices self.old self.new }
    {
        let fed = self.session.widen(&mut *self.words, structure);
        self.after_feed(fed);
    }

    // A reading into the first places of a room, which hold the output's value before. More places than the room has are no call.
    fn read<T: OutputNumber>(&mut self, output: Output, room: &mut [T])
        ensures step { (rooms : Rooms) → room_of T.kind rooms ≡ map T.value room.old
            → Steps (read_entry T.kind (length room.old) output.places output.value) (standing self.old rooms)
            (standing self.new (with_room T.kind (map T.value room.new) rooms)) }
        ensures same { SameSlices self.old self.new }
    {
        if output.places > room.len() {
            self.no_call();
            return;
        }
        let out = &mut room[..output.places];
        out.fill(held(output.value));
        let read = self.session.read(&mut *self.words, &mut *out);
        self.after_read(read, out);
    }

    // The size call, in the same way; on its own, since it is another call of the session, with a promise of its own.
    fn sizes(&mut self, output: Output, room: &mut [u32])
        ensures step { (rooms : Rooms) → rooms.room32 ≡ room.old
            → Steps (sizes_entry (length room.old) output.places output.value) (standing self.old rooms)
            (standing self.new (with_room u32 room.new rooms)) }
        ensures same { SameSlices self.old self.new }
    {
        if output.places > room.len() {
            self.no_call();
            return;
        }
        let out = &mut room[..output.places];
        out.fill(held(output.value));
        let read = self.session.sizes(&mut *self.words, &mut *out);
        self.after_read(read, out);
    }

    fn make(&mut self, call: Option<Call<'_>>, rooms: &mut OutputRooms<'_>)
        ensures step { Steps (entry_made call.entry (rooms_held rooms.old)) (standing self.old (rooms_held rooms.old))
            (standing self.new (rooms_held rooms.new)) }
        ensures same { SameSlices self.old self.new }
        ensures rooms { SameRooms rooms.old rooms.new }
    {
        match call {
            None => self.no_call(),
            Some(Call::Feed(lines, FedCells::U8(cells))) => self.feed(lines, cells),
            Some(Call::Feed(lines, FedCells::U16(cells))) => self.feed(lines, cells),
            Some(Call::Feed(lines, FedCells::I16(cells))) => self.feed(lines, cells),
            Some(Call::Feed(lines, FedCells::F32(cells))) => self.feed(lines, cells),
            Some(Call::Read(Kind::U8, output)) => self.read(output, &mut *rooms.out8),
            Some(Call::Read(Kind::U16, output)) => self.read(output, &mut *rooms.out16),
            Some(Call::Read(Kind::U32, output)) => self.read(output, &mut *rooms.out32),
            Some(Call::Sizes(output)) => self.sizes(output, &mut *rooms.out32),
            Some(Call::Widen(structure)) => self.widen(structure),
        }
    }

    fn make_all(&mut self, calls: CallList<'_>, rooms: &mut OutputRooms<'_>)
        ensures performs { Performs (decode (lent_in calls.entry (rooms_held rooms.old)) calls.entry.numbers.now)
            (standing self.old (rooms_held rooms.old)) (standing self.new (rooms_held rooms.new)) }
        ensures same { SameSlices self.old self.new }
        ensures rooms { SameRooms rooms.old rooms.new }
    {
        for numbers in calls.numbers.chunks(4) {
            self.make(decode(calls, numbers), rooms);
        }
    }
}

// Opens a session and makes the calls of the list: how many numbers of `answers` were written, or why the opening is refused.
pub fn make_calls(
    shape: &[usize],
    structure: &[u8],
    words: &mut [u32],
    calls: CallList<'_>,
    rooms: &mut OutputRooms<'_>,
    answers: &mut [u64],
) -> Result<usize, causes::Cause>
    ensures made { MadePromise shape.now structure.now words.old
        (decode (lent_in calls.entry (rooms_held rooms.old)) calls.entry.numbers.now)
        (rooms_held rooms.old) answers.old
        (made_number result) (made_places result) words.new (rooms_held rooms.new) answers.new }
    ensures rooms { SameRooms rooms.old rooms.new }
{
    let session = label::Session::open(shape, structure, words)?;
    let mut writer = overlay::Writer {
        out: answers,
        at: 0,
    };
    let mut making = Making {
        session,
        words,
        answers: &mut writer,
    };
    making.make_all(calls, rooms);
    Ok(writer.at)
}
