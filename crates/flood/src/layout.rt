// The words that documents 01 and 02 lay out for the lines fed: line starts, then start, end, parent, name and size of each run. In tests
// no frame needs more than 3,841.
use crate::{CELLS, Extent, Frame, Groups, get, put};

pub const WORDS: usize = 3841;

// What a test's words hold before any call.
pub const UNWRITTEN: u32 = 7;

// What the places of its outputs hold before any call.
pub const UNREAD: u32 = 171;

// A run's words, in their order. A run's end is one past it; its size is, at a root, its group's cell count.
#[derive(Clone, Copy)]
pub enum Part {
    Start,
    End,
    Parent,
    Name,
    Size,
}

// The words of a run.
pub const STRIDE: usize = 5;

// The words of a session on frames of this extent.
#[derive(Clone, Copy, PartialEq, Eq)]
pub struct Words {
    pub extent: Extent,
    pub all: [u32; WORDS],
}

impl Extent {
    // h, the most runs of a line.
    pub fn most_runs(self) -> usize {
        if self.left {
            self.width().wrapping_add(1) / 2
        } else {
            self.width()
        }
    }

    // L + 1 + 5 × L × h.
    pub fn words_needed(self) -> usize {
        self.run_place(self.lines.wrapping_mul(self.most_runs()))
    }

    // Where a run's words begin.
    pub fn run_place(self, run: usize) -> usize {
        run.wrapping_mul(STRIDE)
            .wrapping_add(self.lines)
            .wrapping_add(1)
    }
}

// A number of cells or of runs as a word.
pub fn word(x: usize) -> u32 {
    (x % 4294967296) as u32
}

impl Words {
    pub fn unwritten(extent: Extent) -> Words {
        Words {
            extent,
            all: [UNWRITTEN; WORDS],
        }
    }

    pub fn at(&self, i: usize) -> u32 {
        get(&self.all, i, 0)
    }

    pub fn set(&mut self, i: usize, x: usize) {
        put(&mut self.all, i, word(x));
    }

    pub fn get(&self, run: usize, part: Part) -> usize {
        self.at(self.extent.run_place(run).wrapping_add(part as usize)) as usize
    }

    pub fn put(&mut self, run: usize, part: Part, x: usize) {
        self.set(self.extent.run_place(run).wrapping_add(part as usize), x);
    }

    // A run's length as the words have it; it wraps where the start is past the end.
    fn length(&self, run: usize) -> usize {
        self.get(run, Part::End)
            .wrapping_sub(self.get(run, Part::Start))
    }

    // The lengths of the first runs together.
    pub fn sum_lengths(&self, runs: usize) -> usize {
        let mut cells = 0usize;
        for run in 0..runs {
            cells = cells.wrapping_add(self.length(run));
        }
        cells
    }

    // ---- what calls leave

    // What feeds of so many lines leave, but for the parents and the sizes: line starts of those and of the next, and runs.
    pub fn lay(&mut self, frame: Frame, lines: usize) {
        for line in 0..lines.wrapping_add(1) {
            self.set(line, frame.count_runs(line));
        }
        self.lay_runs(frame, lines);
    }

    fn lay_runs(&mut self, frame: Frame, lines: usize) {
        let mut run = 0usize;
        for cell in 0..self.extent.cells(lines) {
            let column = self.extent.column(cell);
            if frame.begins_run(cell) {
                self.put(run, Part::Start, column);
            }
            if frame.ends_run(cell) {
                self.put(run, Part::End, column.wrapping_add(1));
                run = run.wrapping_add(1);
            }
        }
    }

    // The name that a reading gives each run: its number.
    pub fn lay_names(&mut self, groups: &Groups) {
        for run in 0..groups.count.runs {
            self.put(run, Part::Name, groups.name(run) as usize);
        }
    }

    // ---- parents and sizes: the free parts

    // Whether a run is its own parent.
    pub fn is_root(&self, run: usize) -> bool {
        self.get(run, Part::Parent) == run
    }

    // The run that the parents of a run lead to.
    pub fn root_of(&self, run: usize) -> usize {
        let mut at = run;
        for _ in 0..run {
            at = self.get(at, Part::Parent);
        }
        at
    }

    // What a run brings to its group's size in a feed before which there were `old` runs: a new run its length, and a root its word.
    fn brought(&self, run: usize, old: usize) -> usize {
        if run >= old {
            self.length(run)
        } else if self.is_root(run) {
            self.get(run, Part::Size)
        } else {
            0
        }
    }

    // The sizes after a feed by document 02's rule, whatever words the roots had before: these words have those, and the new runs' starts
    // and ends. With as many runs as before they are the roots' words.
    pub fn add_sizes(&self, groups: &Groups, old: usize) -> [u32; CELLS] {
        let mut sizes = [0u32; CELLS];
        for run in 0..groups.count.runs {
            if let Some(size) = sizes.get_mut(size_place(groups, run)) {
                *size = word(self.brought(run, old)).wrapping_add(*size);
            }
        }
        sizes
    }

    // Lays out the runs' parents as the words have them, and their sizes: a root's is its group's, any other's is as the words have it.
    // Gives the count of runs that are no roots, runs - n where each group's root is its smallest run; and none where a run's parent is
    // neither itself nor a run before it of the same group.
    pub fn take_groups(
        &mut self,
        words: &Words,
        groups: &Groups,
        sizes: &[u32; CELLS],
    ) -> Option<usize> {
        let mut joins = Some(0usize);
        for run in 0..groups.count.runs {
            let parent = words.get(run, Part::Parent);
            let size = if parent == run {
                get(sizes, size_place(groups, run), 0) as usize
            } else {
                words.get(run, Part::Size)
            };
            self.put(run, Part::Parent, parent);
            self.put(run, Part::Size, size);
            joins = match (joins, judge_parent(groups, run, parent)) {
                (Some(before), Some(join)) => Some(before.wrapping_add(join)),
                _ => None,
            };
        }
        joins
    }

    // Makes the sizes of roots add up to a total: the first root gets all of it, every other 0.
    pub fn lump_sizes(&mut self, runs: usize, total: usize) {
        let mut rest = total;
        for run in 0..runs {
            if self.is_root(run) {
                self.put(run, Part::Size, rest);
                rest = 0;
            }
        }
    }
}

// The place of a run's group among the sizes, the first number's being 0.
fn size_place(groups: &Groups, run: usize) -> usize {
    (groups.name(run) as usize).wrapping_sub(1)
}

// 0 where a run is its parent, and 1 where another run before it of the same number is. No other may be.
fn judge_parent(groups: &Groups, run: usize, parent: usize) -> Option<usize> {
    if parent == run {
        Some(0)
    } else if parent < run && groups.name(run) == groups.name(parent) {
        Some(1)
    } else {
        None
    }
}
