// The C interface: a name for each call, with a record and an answer as words. include/label.h declares the names, and docs/C.md says
// how to call them. What each promises is in specs/CCalls.antt, over the promises of crate label; no call asks anything of its caller.
//
//     label_record_words    how many words a record has
//     label_open            a record of a shape, a structure and working memory
//     label_feed_T          the next lines of the frame, for each kind of cell
//     label_widen           a wider structure, under which the session goes on
//     label_read_T          each cell's number, for each kind of number
//     label_sizes           each number's cell count
//     label_frame_C_N       a whole frame, for each kind of cell and of number
//
// A call is one function over any kind of cell and of number, as `feed`, `read` and `frame`; a C name is that function at one kind.
//
// A slice is a pointer and a count in C. A call returns 0 where it is accepted, else the documents' number, or 100 where the record or the
// answer is too short. 100 is looked for first, then a structure word that is no byte (6); only then is the call itself made.
#![tactic(auto)]

ghost use Rattle.std.specs.Prelude.{◌≡◌};
ghost use Rattle.frame.specs.Kinds.{nz, nzℤ, nz_f, u8, u16, u32};
ghost use Rattle.record_c.specs.Records.{record_words};
ghost use Rattle.record_c.specs.Ends.{number_of};
ghost use Rattle.label_c.specs.CCalls.{OpenLent, FeedLent, WidenLent, ReadLent, ReadOf, SizesLent, FrameLent, FrameOf};

use record_c::Refusal;

// ---- each call, for any kind of cell and of number. Its parameters are those of its C names, which may not change: seven for a frame, and
// no struct for those that calls share

#[tactic(auto, using(crate::proofs::CallLaws::open_early_lem))]
fn open(
    shape: &[usize],
    structure: &[u8],
    words: &mut [u32],
    rec: &mut [u64],
) -> Result<(), Refusal>
    ensures { OpenLent shape structure words rec (number_of result) }
{
    if rec.len() < record_c::RECORD_WORDS {
        return Err(Refusal::Short);
    }
    record_c::end_open(label::Session::open(shape, structure, words), rec)
}

fn feed<T: runs::Nz>(
    rec: &mut [u64],
    words: &mut [u32],
    k: usize,
    cells: &[T],
    answer: &mut [u64],
) -> Result<(), Refusal>
    ensures { FeedLent T.nonzero rec words k cells answer (number_of result) }
{
    let session = record_c::try_record_of(rec, answer.len())?;
    record_c::end_feed(session.feed(words, k, cells), rec, answer)
}

fn widen(
    rec: &mut [u64],
    words: &mut [u32],
    structure: &[u8],
    answer: &mut [u64],
) -> Result<(), Refusal>
    ensures { WidenLent rec words structure answer (number_of result) }
{
    let session = record_c::try_record_of(rec, answer.len())?;
    record_c::end_feed(session.widen(words, structure), rec, answer)
}

fn read<T: write::FromU32>(
    rec: &[u64],
    words: &mut [u32],
    out: &mut [T],
    answer: &mut [u64],
) -> Result<(), Refusal>
    ensures { ReadOf T.kind T.value rec words out answer (number_of result) }
{
    let session = record_c::try_record_of(rec, answer.len())?;
    record_c::end_read(session.read(words, out).answer, answer)
}

fn sizes(
    rec: &[u64],
    words: &mut [u32],
    sizes: &mut [u32],
    answer: &mut [u64],
) -> Result<(), Refusal>
    ensures { SizesLent rec words sizes answer (number_of result) }
{
    let session = record_c::try_record_of(rec, answer.len())?;
    record_c::end_read(session.sizes(words, sizes).answer, answer)
}

fn frame<I: runs::Nz, O: write::FromU32>(
    shape: &[usize],
    structure: &[u8],
    words: &mut [u32],
    cells: &[I],
    out: &mut [O],
    blocks: usize,
    answer: &mut [u64],
) -> Result<(), Refusal>
    ensures { FrameOf O.kind O.value I.nonzero shape structure words cells out answer (number_of result) }
{
    if answer.len() < record_c::ANSWER_WORDS {
        return Err(Refusal::Short);
    }
    let counted = whole::label_impl(shape, structure, words, cells, out, blocks);
    record_c::end_read(counted, answer)
}

// ---- the C names of the calls with a record, one for each kind, as include/label.h declares them

#[unsafe(no_mangle)]
pub extern "C" fn label_record_words() -> u64
    ensures { result ≡ record_words }
{
    record_c::RECORD_WORDS as u64
}

#[unsafe(no_mangle)]
pub extern "C" fn label_open(
    shape: &[usize],
    structure: &[u8],
    words: &mut [u32],
    rec: &mut [u64],
) -> u32
    ensures { OpenLent shape structure words rec result }
{
    record_c::number_of(open(shape, structure, words, rec))
}

#[unsafe(no_mangle)]
pub extern "C" fn label_feed_u8(
    rec: &mut [u64],
    words: &mut [u32],
    k: usize,
    cells: &[u8],
    answer: &mut [u64],
) -> u32
    ensures { FeedLent nz rec words k cells answer result }
{
    record_c::number_of(feed(rec, words, k, cells, answer))
}

#[unsafe(no_mangle)]
pub extern "C" fn label_feed_u16(
    rec: &mut [u64],
    words: &mut [u32],
    k: usize,
    cells: &[u16],
    answer: &mut [u64],
) -> u32
    ensures { FeedLent nz rec words k cells answer result }
{
    record_c::number_of(feed(rec, words, k, cells, answer))
}

#[unsafe(no_mangle)]
pub extern "C" fn label_feed_i16(
    rec: &mut [u64],
    words: &mut [u32],
    k: usize,
    cells: &[i16],
    answer: &mut [u64],
) -> u32
    ensures { FeedLent nzℤ rec words k cells answer result }
{
    record_c::number_of(feed(rec, words, k, cells, answer))
}

#[unsafe(no_mangle)]
pub extern "C" fn label_feed_f32(
    rec: &mut [u64],
    words: &mut [u32],
    k: usize,
    cells: &[f32],
    answer: &mut [u64],
) -> u32
    ensures { FeedLent nz_f rec words k cells answer result }
{
    record_c::number_of(feed(rec, words, k, cells, answer))
}

#[unsafe(no_mangle)]
pub extern "C" fn label_widen(
    rec: &mut [u64],
    words: &mut [u32],
    structure: &[u8],
    answer: &mut [u64],
) -> u32
    ensures { WidenLent rec words structure answer result }
{
    record_c::number_of(widen(rec, words, structure, answer))
}

#[unsafe(no_mangle)]
pub extern "C" fn label_read_u8(
    rec: &[u64],
    words: &mut [u32],
    out: &mut [u8],
    answer: &mut [u64],
) -> u32
    ensures { ReadLent u8 rec words out answer result }
{
    record_c::number_of(read(rec, words, out, answer))
}

#[unsafe(no_mangle)]
pub extern "C" fn label_read_u16(
    rec: &[u64],
    words: &mut [u32],
    out: &mut [u16],
    answer: &mut [u64],
) -> u32
    ensures { ReadLent u16 rec words out answer result }
{
    record_c::number_of(read(rec, words, out, answer))
}

#[unsafe(no_mangle)]
pub extern "C" fn label_read_u32(
    rec: &[u64],
    words: &mut [u32],
    out: &mut [u32],
    answer: &mut [u64],
) -> u32
    ensures { ReadLent u32 rec words out answer result }
{
    record_c::number_of(read(rec, words, out, answer))
}

#[unsafe(no_mangle)]
pub extern "C" fn label_sizes(
    rec: &[u64],
    words: &mut [u32],
    sizes: &mut [u32],
    answer: &mut [u64],
) -> u32
    ensures { SizesLent rec words sizes answer result }
{
    record_c::number_of(self::sizes(rec, words, sizes, answer))
}

// ---- the C names of whole frames

#[unsafe(no_mangle)]
pub extern "C" fn label_frame_u8_u8(
    shape: &[usize],
    structure: &[u8],
    words: &mut [u32],
    cells: &[u8],
    out: &mut [u8],
    blocks: usize,
    answer: &mut [u64],
) -> u32
    ensures { FrameLent u8 nz shape structure words cells out answer result }
{
    record_c::number_of(frame(shape, structure, words, cells, out, blocks, answer))
}

#[unsafe(no_mangle)]
pub extern "C" fn label_frame_u8_u16(
    shape: &[usize],
    structure: &[u8],
    words: &mut [u32],
    cells: &[u8],
    out: &mut [u16],
    blocks: usize,
    answer: &mut [u64],
) -> u32
    ensures { FrameLent u16 nz shape structure words cells out answer result }
{
    record_c::number_of(frame(shape, structure, words, cells, out, blocks, answer))
}

#[unsafe(no_mangle)]
pub extern "C" fn label_frame_u8_u32(
    shape: &[usize],
    structure: &[u8],
    words: &mut [u32],
    cells: &[u8],
    out: &mut [u32],
    blocks: usize,
    answer: &mut [u64],
) -> u32
    ensures { FrameLent u32 nz shape structure words cells out answer result }
{
    record_c::number_of(frame(shape, structure, words, cells, out, blocks, answer))
}

#[unsafe(no_mangle)]
pub extern "C" fn label_frame_u16_u8(
    shape: &[usize],
    structure: &[u8],
    words: &mut [u32],
    cells: &[u16],
    out: &mut [u8],
    blocks: usize,
    answer: &mut [u64],
) -> u32
    ensures { FrameLent u8 nz shape structure words cells out answer result }
{
    record_c::number_of(frame(shape, structure, words, cells, out, blocks, answer))
}

#[unsafe(no_mangle)]
pub extern "C" fn label_frame_u16_u16(
    shape: &[usize],
    structure: &[u8],
    words: &mut [u32],
    cells: &[u16],
    out: &mut [u16],
    blocks: usize,
    answer: &mut [u64],
) -> u32
    ensures { FrameLent u16 nz shape structure words cells out answer result }
{
    record_c::number_of(frame(shape, structure, words, cells, out, blocks, answer))
}

#[unsafe(no_mangle)]
pub extern "C" fn label_frame_u16_u32(
    shape: &[usize],
    structure: &[u8],
    words: &mut [u32],
    cells: &[u16],
    out: &mut [u32],
    blocks: usize,
    answer: &mut [u64],
) -> u32
    ensures { FrameLent u32 nz shape structure words cells out answer result }
{
    record_c::number_of(frame(shape, structure, words, cells, out, blocks, answer))
}

#[unsafe(no_mangle)]
pub extern "C" fn label_frame_i16_u8(
    shape: &[usize],
    structure: &[u8],
    words: &mut [u32],
    cells: &[i16],
    out: &mut [u8],
    blocks: usize,
    answer: &mut [u64],
) -> u32
    ensures { FrameLent u8 nzℤ shape structure words cells out answer result }
{
    record_c::number_of(frame(shape, structure, words, cells, out, blocks, answer))
}

#[unsafe(no_mangle)]
pub extern "C" fn label_frame_i16_u16(
    shape: &[usize],
    structure: &[u8],
    words: &mut [u32],
    cells: &[i16],
    out: &mut [u16],
    blocks: usize,
    answer: &mut [u64],
) -> u32
    ensures { FrameLent u16 nzℤ shape structure words cells out answer result }
{
    record_c::number_of(frame(shape, structure, words, cells, out, blocks, answer))
}

#[unsafe(no_mangle)]
pub extern "C" fn label_frame_i16_u32(
    shape: &[usize],
    structure: &[u8],
    words: &mut [u32],
    cells: &[i16],
    out: &mut [u32],
    blocks: usize,
    answer: &mut [u64],
) -> u32
    ensures { FrameLent u32 nzℤ shape structure words cells out answer result }
{
    record_c::number_of(frame(shape, structure, words, cells, out, blocks, answer))
}

#[unsafe(no_mangle)]
pub extern "C" fn label_frame_f32_u8(
    shape: &[usize],
    structure: &[u8],
    words: &mut [u32],
    cells: &[f32],
    out: &mut [u8],
    blocks: usize,
    answer: &mut [u64],
) -> u32
    ensures { FrameLent u8 nz_f shape structure words cells out answer result }
{
    record_c::number_of(frame(shape, structure, words, cells, out, blocks, answer))
}

#[unsafe(no_mangle)]
pub extern "C" fn label_frame_f32_u16(
    shape: &[usize],
    structure: &[u8],
    words: &mut [u32],
    cells: &[f32],
    out: &mut [u16],
    blocks: usize,
    answer: &mut [u64],
) -> u32
    ensures { FrameLent u16 nz_f shape structure words cells out answer result }
{
    record_c::number_of(frame(shape, structure, words, cells, out, blocks, answer))
}

#[unsafe(no_mangle)]
pub extern "C" fn label_frame_f32_u32(
    shape: &[usize],
    structure: &[u8],
    words: &mut [u32],
    cells: &[f32],
    out: &mut [u32],
    blocks: usize,
    answer: &mut [u64],
) -> u32
    ensures { FrameLent u32 nz_f shape structure words cells out answer result }
{
    record_c::number_of(frame(shape, structure, words, cells, out, blocks, answer))
}
