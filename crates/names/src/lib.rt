// The names of runs. A run's name is the number of its group, counted from 1 by the groups' first runs. Nothing here knows a kind of
// number.
//
//     name_run, name_line   the names of one run and of one line's runs, written to their words
//     line_start, word      a line start and a run's word, as they are read
//
// Promised (specs/Names.antt): each run named has its number as its name, no other word changes, and the roots so far are counted.
#![tactic(auto)]

ghost use Rattle.std.specs.Prelude.{◌≡◌, suc, ◌+◌, ◌*◌, ◌≤◌, ◌<◌, length, get_or};
ghost use Rattle.frame.specs.Memory.{stride};
ghost use Rattle.frame.specs.Words.{line_start};
ghost use Rattle.names.specs.Names.{Named, NameReady, LineToName};

// How many runs stand before `line`.
pub fn line_start(words: &[u32], line: usize) -> usize
    requires { line < length words.now }
    ensures { result ≡ line_start words.now line }
{
    words[line] as usize
}

// Word `part` of run `r`.
pub fn word(words: &[u32], lines: usize, r: usize, part: usize) -> u32
    requires { (part < stride) × (lines + 1 + stride * suc r ≤ length words.now) }
    ensures { result ≡ get_or words.now (lines + 1 + (stride * r + part)) 0 }
{
    words[lines + 1 + (frame::STRIDE * r + part)]
}

// Names run `r`, where the runs before it are named and `c` counts the roots among them; answers the count of roots up to it. A root's
// number is the new count, every other run's that of its parent. Both are read at the parent, without a branch: at a root the new count
// was just stored.
pub fn name_run(words: &mut [u32], lines: usize, r: usize, c: u32) -> u32
    requires { NameReady lines r words.old c }
    ensures { Named lines (suc r) words.old words.new result }
{
    let up = word(words, lines, r, frame::PARENT) as usize;
    let at = lines + 1 + (frame::STRIDE * r + frame::NAME);
    words[at] = c + 1;
    let number = word(words, lines, up, frame::NAME);
    words[at] = number;
    c + (up == r) as u32
}

// Names the runs of a line, where the runs before it are named and `c` counts the roots among them; answers the count of roots up to
// the line's last run.
pub fn name_line(words: &mut [u32], lines: usize, line: usize, c: u32) -> u32
    requires { LineToName lines line words.old c }
    ensures { Named lines (line_start words.old (suc line)) words.old words.new result }
{
    let mut named = c;
    for r in line_start(words, line)..line_start(words, line + 1) {
        named = name_run(words, lines, r, named);
    }
    named
}
