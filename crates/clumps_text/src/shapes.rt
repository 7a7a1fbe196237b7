// The shape that a text says: its first two lines.
ghost use Rattle.std.specs.Prelude.{◌≡◌, ◌*◌, ◌≤◌};

// Width and lines, each 1 to 48.
#[derive(Clone, Copy)]
pub(crate) struct Shape {
    pub(crate) width: usize,
    pub(crate) lines: usize,
    ghost limits: { (1 ≤ width) × (width ≤ 48) × (1 ≤ lines) × (lines ≤ 48) },
}

impl Shape {
    // How many cells there are.
    pub(crate) fn size(self) -> usize
        ensures count { result ≡ self.lines * self.width }
        ensures most { result ≤ 2304 }
    {
        self.lines * self.width
    }
}
