// A record and an answer as words, for the C interface: the record that words hold, or why a call with it is not made, and what a call
// writes to them at its end. specs/Records.antt has the words of a record, Early.antt and Ends.antt the rest.
#![tactic(auto)]

ghost use Rattle.std.specs.Prelude.{◌≡◌, ◌∷◌, length};
ghost use Rattle.frame.specs.Overlay.{overlay};
ghost use Rattle.overlay.specs.Writers.{Writes};
ghost use Rattle.label.specs.Cases.{open_number, opened, feed_answer, read_answer};
ghost use Rattle.record_c.specs.Records.{figure_words, words_of, record_of, RecordReady};
ghost use Rattle.record_c.specs.Early.{refusal_number, StructureHeld, RecordHeld};
ghost use Rattle.record_c.specs.Ends.{number_of, record_after, FeedEnd, ReadEnd};
ghost use Rattle.record_c.specs.declared.Refusal.TheVariants.{Cause};

use overlay::Writer;

// The words of a record: rank, shape, structure, lines fed, and the figures. A byte of the structure has a word of its own.
pub const RECORD_WORDS: usize = 90;

// The least words of an answer. It has room to spare: what a call does not say is not written.
pub const ANSWER_WORDS: usize = 8;

// Why a call is refused.
#[derive(Clone, Copy, PartialEq, Eq, Debug)]
pub enum Refusal {
    // the record or the answer is too short
    Short,
    // the documents' causes
    Cause(causes::Cause),
}

impl Refusal {
    pub fn number(self) -> u32
        ensures { result ≡ refusal_number self }
    {
        match self {
            Refusal::Short => 100,
            Refusal::Cause(cause) => cause.number(),
        }
    }
}

impl From<causes::Cause> for Refusal {
    ghost from_gives = { λ cause refusal. refusal ≡ Cause cause };

    fn from(cause: causes::Cause) -> Refusal {
        Refusal::Cause(cause)
    }
}

// The number that a call returns.
pub fn number_of(ended: Result<(), Refusal>) -> u32
    ensures { result ≡ number_of ended }
{
    match ended {
        Ok(()) => 0,
        Err(refusal) => refusal.number(),
    }
}

// ---- from words to a record

// The bytes that a structure's words are.
fn structure_of(words: &[u64]) -> Result<[u8; 81], causes::Cause>
    requires { length words.now ≡ 81 }
    ensures { StructureHeld words.now result }
{
    let mut structure = [0; 81];
    for (i, word) in words.iter().enumerate() {
        structure[i] = u8::try_from(*word).map_err(|_| causes::Cause::Unsound)?;
    }
    Ok(structure)
}

// The record of words that are known to hold one.
pub fn record_of(rec: &[u64]) -> label::Session
    requires { RecordReady rec.now }
    ensures { result ≡ record_of rec.now }
{
    match try_record_of(rec, ANSWER_WORDS) {
        Ok(session) => session,
        Err(_) => unreachable!(),
    }
}

// The record that any words hold, for a call whose answer has so many words, or why there is none.
pub fn try_record_of(rec: &[u64], answer: usize) -> Result<label::Session, Refusal>
    ensures { RecordHeld rec.now answer result }
{
    if rec.len() < RECORD_WORDS || answer < ANSWER_WORDS {
        return Err(Refusal::Short);
    }
    let structure = structure_of(&rec[5..86])?;
    Ok(label::Session {
        rank: rec[0] as usize,
        shape: [
            rec[1] as usize,
            rec[2] as usize,
            rec[3] as usize,
            rec[4] as usize,
        ],
        structure,
        fed: rec[86] as usize,
        figures: frame::Figures {
            runs: rec[87] as usize,
            joins: rec[88] as usize,
            cells: rec[89] as usize,
        },
    })
}

// ---- from a record and an answer to words

// Lines fed or n, and behind it the figures: the last words of a record, and the first of an answer.
fn count_words(count: usize, figures: frame::Figures) -> [u64; 4]
    ensures { result ≡ count ∷ figure_words figures }
{
    [count, figures.runs, figures.joins, figures.cells].map(|number| number as u64)
}

// Each byte as a word, one by one: as an array of words they would take 3 kB of stack.
// No method of Writer for lists of any kind: it would promise the values of each function that gives what `into` does, for its callers to
// name and to show, which takes more than this loop.
fn put_bytes(words: &mut Writer<u64>, bytes: &[u8])
    ensures { Writes bytes.now words.old words.new }
{
    for &byte in bytes {
        words.put(u64::from(byte));
    }
}

fn write_record(s: label::Session, rec: &mut [u64])
    ensures { rec.new ≡ overlay (words_of s) rec.old }
{
    let mut words = Writer { out: rec, at: 0 };
    words.put(s.rank as u64);
    words.put_all(&s.shape.map(|dimension| dimension as u64));
    put_bytes(&mut words, &s.structure);
    words.put_all(&count_words(s.fed, s.figures));
}

fn write_answer(count: usize, figures: frame::Figures, answer: &mut [u64])
    ensures { answer.new ≡ overlay (count ∷ figure_words figures) answer.old }
{
    let mut words = Writer { out: answer, at: 0 };
    words.put_all(&count_words(count, figures));
}

// ---- the end of a call

// An opening's: an accepted one writes the record.
pub fn end_open(
    session: Result<label::Session, causes::Cause>,
    rec: &mut [u64],
) -> Result<(), Refusal>
    ensures { (number_of result ≡ open_number session)
        × (rec.new ≡ record_after (open_number session) (opened session) rec.old) }
{
    write_record(session?, rec);
    Ok(())
}

// A feed's and a structure change's: an accepted one writes the record and the answer.
pub fn end_feed(fed: label::Fed, rec: &mut [u64], answer: &mut [u64]) -> Result<(), Refusal>
    ensures { FeedEnd (feed_answer fed.answer) fed.session rec.old answer.old
        (number_of result) rec.new answer.new }
{
    let said = fed.answer?;
    write_record(fed.session, rec);
    write_answer(said.lines, said.figures, answer);
    Ok(())
}

// A reading's, a size call's and a whole frame's: an accepted one writes the answer.
pub fn end_read(
    read: Result<label::Counted, causes::Cause>,
    answer: &mut [u64],
) -> Result<(), Refusal>
    ensures { ReadEnd (read_answer read) answer.old (number_of result) answer.new }
{
    let said = read?;
    write_answer(said.n, said.figures, answer);
    Ok(())
}
