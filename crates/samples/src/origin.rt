// Sizes of other origin: what may stand at the roots otherwise than by their groups, and what is free at the other runs.
use crate::{below, next};
use flood::layout::{Part, Words};

// Deals the total of the runs' lengths out among the roots, otherwise than by their groups, and gives any other run any word. Run 0, which
// is always a root, gets what is left.
pub fn deal_sizes(words: &mut Words, runs: usize, total: usize, x: u64) {
    let mut rest = total;
    let mut y = x;
    for run in 0..runs {
        y = next(y);
        let most = if words.is_root(run) {
            rest.wrapping_add(1)
        } else {
            1 << 32
        };
        let size = below(y, most);
        if words.is_root(run) {
            rest = rest.wrapping_sub(size);
        }
        words.put(run, Part::Size, size);
    }
    let size = words.get(0, Part::Size).wrapping_add(rest);
    words.put(0, Part::Size, size);
}

// Gives each run that is no root any word for its size, which is free there.
pub fn spoil_sizes(words: &mut Words, runs: usize, x: u64) {
    let mut y = x;
    for run in 0..runs {
        y = next(y);
        if !words.is_root(run) {
            words.put(run, Part::Size, below(y, 1 << 32));
        }
    }
}
