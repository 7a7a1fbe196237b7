// The cells that the characters of a line say.
//
//     0    zero; in f32 +0.0          1    one
//     z    -0.0, in f32 alone         m    the largest value; in f32 infinity
//     n    -1 in i16, NaN in f32      h    128, 256, -32768, or in f32 the smallest subnormal

// A kind of cell that is written so.
pub trait Written: runs::Nz {
    // The cell of a character; none where the kind has no such cell.
    fn of(c: u8) -> Option<Self>;
}

impl Written for u8 {
    fn of(c: u8) -> Option<u8> {
        match c {
            b'0' => Some(0),
            b'1' => Some(1),
            b'm' => Some(255),
            b'h' => Some(128),
            _ => None,
        }
    }
}

impl Written for u16 {
    fn of(c: u8) -> Option<u16> {
        match c {
            b'0' => Some(0),
            b'1' => Some(1),
            b'm' => Some(65535),
            b'h' => Some(256),
            _ => None,
        }
    }
}

impl Written for i16 {
    fn of(c: u8) -> Option<i16> {
        match c {
            b'0' => Some(0),
            b'1' => Some(1),
            b'm' => Some(32767),
            b'n' => Some(-1),
            b'h' => Some(-32768),
            _ => None,
        }
    }
}

impl Written for f32 {
    fn of(c: u8) -> Option<f32> {
        let zero: f32 = 0.0;
        match c {
            b'0' => Some(zero),
            b'z' => Some(-zero),
            b'1' => Some(1.0),
            b'm' => Some(1.0 / zero),
            b'n' => Some(zero / zero),
            b'h' => Some(1.0e-45),
            _ => None,
        }
    }
}
