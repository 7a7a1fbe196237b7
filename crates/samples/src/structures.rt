// Structures, symmetric about their middle byte unless something else is said, and those that a session is to go on under.
use crate::{below, first, next};
use flood::Offsets;

// The first bytes of these, an odd number of them. A record holds its structure so, with zeros after it; a Vec would lack the bytes past
// them, which `with_tail` sets.
#[derive(Clone, Copy)]
pub struct Structure {
    pub bytes: [u8; 81],
    pub count: usize,
}

// How many of an offset's parts are not 0, from its digits.
fn moves(offset: [usize; 4]) -> usize {
    offset.iter().filter(|digit| **digit != 1).count()
}

// Which bytes of a random structure are nonzero: all, those of faces, many or few.
#[derive(Clone, Copy)]
enum Filling {
    Ones,
    Faces,
    Many,
    Few,
}

impl Filling {
    // By the remainder of a random number.
    fn of(x: u64) -> Filling {
        match x % 4 {
            0 => Filling::Ones,
            1 => Filling::Faces,
            2 => Filling::Many,
            _ => Filling::Few,
        }
    }

    // The byte of an entry that is not behind the middle one, and has this offset.
    fn byte(self, offset: [usize; 4], x: u64) -> u8 {
        let drawn = x % 12;
        match self {
            Filling::Ones => 1,
            Filling::Faces => (moves(offset) < 2) as u8,
            Filling::Many => (drawn < 6) as u8,
            Filling::Few => ((drawn < 2) as u8) << 7,
        }
    }
}

// The left byte: zero, nonzero, or as it is.
fn random_left(before: u8, x: u64) -> u8 {
    match x % 4 {
        0 => 0,
        1 => 77,
        _ => before,
    }
}

// The byte opposite another: zero or nonzero as that one is, and of any value.
fn opposite_byte(other: u8, x: u64) -> u8 {
    if other == 0 { 0 } else { (x % 255) as u8 + 1 }
}

// A byte of a wider structure: nonzero where the old one is, and often or seldom where it is not.
fn wider_byte(before: u8, often: bool, x: u64) -> u8 {
    let drawn = x / 1024 % 16;
    let is_new = drawn < 2 || (often && drawn < 8);
    opposite_byte(if is_new { 1 } else { before }, x)
}

impl Structure {
    // These bytes, of which there are at most 81.
    pub fn of(bytes: &[u8]) -> Structure {
        let mut padded = [0u8; 81];
        for (to, from) in padded.iter_mut().zip(bytes) {
            *to = *from;
        }
        Structure {
            bytes: padded,
            count: bytes.len(),
        }
    }

    // Zeros, 3^rank of them.
    pub fn empty(rank: usize) -> Structure {
        let count = match rank {
            1 => 3,
            2 => 9,
            3 => 27,
            4 => 81,
            _ => 1,
        };
        Structure {
            bytes: [0; 81],
            count,
        }
    }

    // 3^rank of these.
    pub fn with_rank(rank: usize, bytes: [u8; 81]) -> Structure {
        let count = Structure::empty(rank).count;
        Structure { bytes, count }
    }

    pub fn used(&self) -> &[u8] {
        first(&self.bytes, self.count)
    }

    fn byte(&self, i: usize) -> u8 {
        flood::get(&self.bytes, i, 0)
    }

    fn put(&mut self, i: usize, x: u8) {
        flood::put(&mut self.bytes, i, x);
    }

    fn middle(&self) -> usize {
        self.count / 2
    }

    // The place of the left byte.
    fn left(&self) -> usize {
        self.middle().wrapping_sub(1)
    }

    fn opposite(&self, i: usize) -> usize {
        self.count.wrapping_sub(1).wrapping_sub(i)
    }

    // Random bytes up to the middle one.
    fn make_half(&mut self, x: u64) {
        let filling = Filling::of(x);
        let mut y = x;
        let offsets = Offsets::of(self.count);
        for (i, offset) in (0..self.middle().wrapping_add(1)).zip(offsets) {
            y = next(y);
            self.put(i, filling.byte(offset, y));
        }
        let before = self.byte(self.left());
        self.put(self.left(), random_left(before, next(y)));
    }

    pub fn random(rank: usize, x: u64) -> Structure {
        let mut s = Structure::empty(rank);
        s.make_half(x);
        let mut y = next(x);
        for i in 0..s.middle() {
            y = next(y);
            let other = s.byte(i);
            s.put(s.opposite(i), opposite_byte(other, y));
        }
        s
    }

    // Made lopsided: one of a pair is set or cleared.
    pub fn lopsided(self, x: u64) -> Structure {
        let mut s = self;
        let drawn = below(x, s.count.wrapping_sub(1));
        let at = drawn.wrapping_add((drawn >= s.middle()) as usize);
        let before = s.byte(at);
        s.put(at, (before == 0) as u8);
        s
    }

    // One as wide or wider, and symmetric as it is. The left byte stays zero or nonzero; values are others.
    pub fn wider(self, x: u64) -> Structure {
        let mut s = self;
        let mut y = x;
        for i in 0..s.middle().wrapping_add(1) {
            y = next(y);
            let before = s.byte(i);
            let after = if i == s.left() {
                opposite_byte(before, y)
            } else {
                wider_byte(before, x % 2 == 0, y)
            };
            s.put(i, after);
            s.put(s.opposite(i), opposite_byte(after, next(y)));
        }
        s
    }

    // With this value at a place and at the one opposite.
    fn with_pair(self, at: usize, value: u8) -> Structure {
        let mut s = self;
        s.put(at, value);
        s.put(s.opposite(at), value);
        s
    }

    // With a left byte that is zero where it is not, and nonzero where it is.
    pub fn other_left(self) -> Structure {
        let left = self.left();
        self.with_pair(left, if self.byte(left) == 0 { 9 } else { 0 })
    }

    // Half of them as they are; of the others the left byte and one pair, so that there is much to add.
    pub fn thinned(self, x: u64) -> Structure {
        if x % 2 == 0 {
            return self;
        }
        let left = self.left();
        let bare = Structure {
            bytes: [0; 81],
            count: self.count,
        };
        bare.with_pair(left, self.byte(left))
            .with_pair(below(x / 2, self.count), 3)
    }

    // Mostly a wider one; now and then lopsided, or without some pair, or with another left byte, or lopsided with another left byte.
    pub fn changed(self, x: u64) -> Structure {
        let s = self.wider(next(x));
        match x % 16 {
            0 => s.lopsided(x / 16),
            1 => s.with_pair(below(x / 16, s.count), 0),
            2 => s.other_left(),
            3 => s.other_left().lopsided(x / 16),
            _ => s,
        }
    }

    // With any bytes past the first, which are none of its own.
    pub fn with_tail(self, x: u64) -> Structure {
        let mut s = self;
        let mut y = x;
        for byte in s.bytes.iter_mut().skip(self.count) {
            y = next(y);
            *byte = (y % 256) as u8;
        }
        s
    }
}
