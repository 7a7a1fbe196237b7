// The leading offsets of each rank, listed by their codes. An offset's code is its place in C order, from 0.
//
//     delta              the offset with a code: rank1_offset to rank4_offset list them
//     backward_count     how many of them are backward: those have the first codes
//
// Promised (specs/Digits.antt): an offset's parts plus one are its code's digits in base three, the first dimension's highest. So in rank 4
// the code of [a, b, c] is 9 × (a + 1) + 3 × (b + 1) + (c + 1). The structure's bytes for code c are at 3c, 3c + 1 and 3c + 2.
#![tactic(auto)]

ghost use Rattle.std.specs.Prelude.{◌≡◌, ◌/◌, ◌^◌, ◌≤◌, ◌<◌};
ghost use Rattle.offsets.specs.Digits.{OffsetOf};

// The offset with that code of `leads` leading dimensions, as three parts: 0 in the dimensions before those.
pub fn delta(leads: usize, code: usize) -> [i64; 3]
    requires { (leads ≤ 3) × (code < 3 ^ leads) }
    ensures { OffsetOf leads code result }
{
    match leads {
        0 => rank1_offset(code),
        1 => rank2_offset(code),
        2 => rank3_offset(code),
        _ => rank4_offset(code),
    }
}

// How many offsets of `leads` leading dimensions are backward: as many as have a code before that of 0, .., 0.
pub fn backward_count(leads: usize) -> usize
    requires { leads ≤ 3 }
    ensures { result ≡ 3 ^ leads / 2 }
{
    match leads {
        0 => 0,
        1 => 1,
        2 => 4,
        _ => 13,
    }
}

// ---- the cases, one for each code of each rank, written out so that they can be read beside the drawing. There is no other code: the last
// arm of each list is proved never to be taken

// Rank 1 has no leading dimension, and one line: code 0.
fn rank1_offset(code: usize) -> [i64; 3]
    requires { code < 1 }
    ensures { OffsetOf 0 code result }
{
    match code {
        0 => [0, 0, 0],
        _ => unreachable!(),
    }
}

// Rank 2 has one leading dimension. Its part is drawn downwards:
//
//     -1     0
//      0     1     the line itself
//     +1     2
fn rank2_offset(code: usize) -> [i64; 3]
    requires { code < 3 }
    ensures { OffsetOf 1 code result }
{
    match code {
        0 => [0, 0, -1],
        1 => [0, 0, 0],
        2 => [0, 0, 1],
        _ => unreachable!(),
    }
}

// Rank 3 has two leading dimensions. The first part is drawn downwards, the second to the right:
//
//           -1   0  +1
//
//     -1     0   1   2
//      0     3   4   5     4 is the line itself
//     +1     6   7   8
fn rank3_offset(code: usize) -> [i64; 3]
    requires { code < 9 }
    ensures { OffsetOf 2 code result }
{
    match code {
        0 => [0, -1, -1],
        1 => [0, -1, 0],
        2 => [0, -1, 1],
        3 => [0, 0, -1],
        4 => [0, 0, 0],
        5 => [0, 0, 1],
        6 => [0, 1, -1],
        7 => [0, 1, 0],
        8 => [0, 1, 1],
        _ => unreachable!(),
    }
}

// Rank 4 has three leading dimensions. For each first part there is a square, with the second part downwards and the third to the right:
//
//            first -1              first 0              first +1
//
//           -1   0  +1           -1   0  +1           -1   0  +1
//
//     -1     0   1   2     -1     9  10  11     -1    18  19  20
//      0     3   4   5      0    12  13  14      0    21  22  23     13 is the line itself
//     +1     6   7   8     +1    15  16  17     +1    24  25  26
//
// A drawing of the 27 bytes of a structure of rank 3 is the same: there 13 is the cell itself, and the others are its neighbours.
fn rank4_offset(code: usize) -> [i64; 3]
    requires { code < 27 }
    ensures { OffsetOf 3 code result }
{
    match code {
        0 => [-1, -1, -1],
        1 => [-1, -1, 0],
        2 => [-1, -1, 1],
        3 => [-1, 0, -1],
        4 => [-1, 0, 0],
        5 => [-1, 0, 1],
        6 => [-1, 1, -1],
        7 => [-1, 1, 0],
        8 => [-1, 1, 1],
        9 => [0, -1, -1],
        10 => [0, -1, 0],
        11 => [0, -1, 1],
        12 => [0, 0, -1],
        13 => [0, 0, 0],
        14 => [0, 0, 1],
        15 => [0, 1, -1],
        16 => [0, 1, 0],
        17 => [0, 1, 1],
        18 => [1, -1, -1],
        19 => [1, -1, 0],
        20 => [1, -1, 1],
        21 => [1, 0, -1],
        22 => [1, 0, 0],
        23 => [1, 0, 1],
        24 => [1, 1, -1],
        25 => [1, 1, 0],
        26 => [1, 1, 1],
        _ => unreachable!(),
    }
}
