// Whole frames in one call: the Rust's `label_impl`, for each kind of cell and of number.
//
// A call opens, feeds all lines and reads. It asks nothing of its caller, keeps no record, and answers n and the figures, or one cause.
// What it promises is `FramePromise`, in label's specs/WholeFrame.antt: by equation the answer, every word and every output place,
// refusals too. The block count stands in no promise: it changes no answer.
//
// It is two steps. feed_frame finds an opening's causes, 8 and 9 before anything is written, word 0 included; where there is none, it
// writes word 0 and feeds the lines block by block. number compares n with the kind's largest number (cause 10: the output stands), and
// writes names and numbers. What has just been written is not checked for soundness again: it is proved sound.
#![tactic(auto)]

ghost use Rattle.std.specs.Prelude.{◌≡◌, map, ◌<◌, length};
ghost use Rattle.label.specs.Cases.{read_answer};
ghost use Rattle.label.specs.WholeFrame.{block_lines, FramePromise};
ghost use Rattle.whole.specs.FedFrames.{FeedsFrame, SomeFed, Numbers};

// A frame before its cells are numbered: its geometry, and the figures of all lines fed.
#[derive(Clone, Copy)]
struct FedFrame {
    geo: geo::Geo,
    figures: frame::Figures,
}

pub fn label_impl<I: runs::Nz, O: write::FromU32>(
    shape: &[usize],
    structure: &[u8],
    words: &mut [u32],
    cells: &[I],
    out: &mut [O],
    blocks: usize,
) -> Result<label::Counted, causes::Cause>
    ensures { FramePromise O.kind shape.now structure.now words.old (map I.nonzero cells.now)
        (map O.value out.old) (read_answer result) words.new (map O.value out.new) }
{
    let frame = feed_frame(shape, structure, words, cells, out.len(), blocks)?;
    number(frame, words, out)
}

// The lines of a block: the lines of the frame by the block count, rounded up. A count of 0 is as 1, and one above the lines as the lines.
fn block_lines(lines: usize, blocks: usize) -> usize
    requires { (0 < lines) × (lines < 4294967293) }
    ensures { result ≡ block_lines lines blocks }
{
    let count = blocks.max(1).min(lines);
    (lines + count - 1) / count
}

// Finds causes, and where there is none opens the words and feeds all lines, block by block. `places` is the count of output places.
fn feed_frame<I: runs::Nz>(
    shape: &[usize],
    structure: &[u8],
    words: &mut [u32],
    cells: &[I],
    places: usize,
    blocks: usize,
) -> Result<FedFrame, causes::Cause>
    ensures { FeedsFrame shape.now structure.now words.old (map I.nonzero cells.now) places
        result words.new }
{
    let geo = causes::frame_check(shape, structure, words.len(), cells.len(), places)?;
    let most = block_lines(geo.lines, blocks);
    let mut figures = frame::Figures::zero();
    words[0] = 0;
    for fed in (0..geo.lines).step_by(most) {
        let k = most.min(geo.lines - fed);
        let a = fed * geo.width;
        let e = a + k * geo.width;
        let new = block::extract_block(&cells[a..e], geo, words, fed, figures.runs, k);
        let joins = block::union_block(words, geo, structure, fed, k);
        figures = figures.plus(frame::Figures {
            runs: new.runs,
            joins,
            cells: new.cells,
        });
    }
    Ok(FedFrame { geo, figures })
}

// Compares n, and writes names and numbers.
fn number<O: write::FromU32>(
    frame: FedFrame,
    words: &mut [u32],
    out: &mut [O],
) -> Result<label::Counted, causes::Cause>
    requires { SomeFed frame words.old (length out.old) }
    ensures { Numbers O.kind frame words.old (map O.value out.old) (read_answer result) words.new (map O.value out.new) }
{
    let figures = frame.figures;
    let n = figures.runs - figures.joins;
    let most = O::MAXV;
    if n as u64 > most {
        return Err(causes::Cause::Kind);
    }
    write::write_block(words, frame.geo, frame.geo.lines, out);
    Ok(label::Counted { n, figures })
}
