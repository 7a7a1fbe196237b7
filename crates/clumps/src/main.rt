// The program clumps: document 01's four lines from standard input, its answer to standard output. What is printed for each input is
// proved of clumps_text's `report`; here its bytes are read and written.
#![tactic(auto)]

// By the kit's io, and not by std's handles: there, what fills a buffer as far as the input reaches needs the heap.
use io::{large_buffer, read_full, write_all};

// The file descriptors.
const STDIN_FILENO: i32 = 0;

const STDOUT_FILENO: i32 = 1;

// Prints the answer to a text. No answer has more than 11,572 bytes (clumps_text's `output_most`), and the buffer has 65,536.
fn answer(text: &[u8]) {
    let mut out = large_buffer();
    let n = clumps_text::report(text, &mut out);
    write_all(STDOUT_FILENO, &out[..n]);
}

// Reads on, and answers whether there may be more.
fn more() -> bool {
    let mut rest = large_buffer();
    read_full(STDIN_FILENO, &mut rest) == rest.len()
}

// Reads the input to its end, so that whoever writes it meets no closed pipe. A proved loop has to end, and nothing says that an
// input does: so it has a number of turns that no input uses up.
fn read_rest() {
    for _ in 0..u64::MAX {
        if !more() {
            return;
        }
    }
}

// No accepted text has more than 2,349 bytes (clumps_text's `long_refused`), so of a longer input the first 4,096 are enough to refuse it.
fn main() {
    let mut text = io::buffer();
    let n = read_full(STDIN_FILENO, &mut text);
    answer(&text[..n]);
    if n == text.len() {
        read_rest();
    }
}
