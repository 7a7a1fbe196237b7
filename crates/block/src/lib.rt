// Lines of a feed: their runs are extracted, then united with their neighbours. Nothing here knows a record.
//
//     extract_block     the runs of new lines, for any kind of cell: line starts, starts and ends; and the count of nonzero cells
//     union_block       the union of new lines with their neighbours, once their runs are there: parents and sizes
#![tactic(auto)]

ghost use Rattle.std.specs.Prelude.{map};
ghost use Rattle.block.specs.Blocks.{RoomFor, Extracts, BlockReady, BlockUnited, ResetReady, ResetIn};

// `fed` and `k` stay two parameters, and no struct: a record has the one, a call the other, and a structure change has 0 and the record's.

// ---- extraction

// The runs of `k` lines after `fed` lines with `runs` runs; how many they have, and how many nonzero cells.
pub fn extract_block<T: runs::Nz>(
    cells: &[T],
    g: geo::Geo,
    words: &mut [u32],
    fed: usize,
    runs: usize,
    k: usize,
) -> runs::Counts
    requires { RoomFor g fed runs k (map T.nonzero cells.now) words.old }
    ensures { Extracts g fed runs k (map T.nonzero cells.now) words.old words.new result }
{
    let base = g.lines + 1;
    let mut new: usize = 0;
    let mut total: usize = 0;
    for i in 0..k {
        let a = i * g.width;
        let e = a + g.width;
        let at = base + frame::STRIDE * (runs + new);
        let line = runs::extract_line(&cells[a..e], g.left, words, at);
        new += line.runs;
        total += line.cells;
        words[fed + i + 1] = (runs + new) as u32;
    }
    runs::Counts {
        runs: new,
        cells: total,
    }
}

// ---- union

// Unites each of the `k` lines after the first `fed` with its neighbours; how many of those unions were joins. The new runs are at
// first groups of their own.
pub fn union_block(words: &mut [u32], g: geo::Geo, structure: &[u8], fed: usize, k: usize) -> usize
    requires { BlockReady g.leads g.dims g.lines structure.now words.old fed k }
    ensures { BlockUnited g.leads g.dims g.lines structure.now
        words.old words.new fed k result }
{
    if k == 0 {
        return 0;
    }
    reset_block(words, g.lines, fed, k);
    let mut joins: usize = 0;
    for done in 0..k {
        joins += link::union_line(words, g, structure, fed + done);
    }
    joins
}

// Makes the runs of the `k` lines after the first `fed` groups of their own.
fn reset_block(words: &mut [u32], lines: usize, fed: usize, k: usize)
    requires { ResetReady lines words.old fed k }
    ensures { ResetIn lines words.old words.new fed k }
{
    let base = lines + 1;
    let a = words[fed] as usize;
    let b = words[fed + k] as usize;
    forest::reset(&mut words[base..], a, b)
}
