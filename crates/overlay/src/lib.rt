// A slice that is written from its first place on, as far as it reaches: what comes past its end is not written.
//
// Promised (specs/Writers.antt): entries stand behind what was written before. What a writer has written, as one list, is laid over the
// slice, and its place is the next one.
#![tactic(auto)]

ghost use Rattle.std.specs.Prelude.{[], ◌∷◌};
ghost use Rattle.overlay.specs.Writers.{Writes};

// The slice, held, and the place of the next entry.
#[derive(Drop)]
pub struct Writer<'a, T> {
    pub out: &'a mut [T],
    pub at: usize,
}

impl<'a, T: Copy> Writer<'a, T> {
    // Writes x, if there is room.
    pub fn put(&mut self, x: T)
        ensures { Writes (x ∷ []) self.old self.new }
    {
        if self.at < self.out.len() {
            self.out[self.at] = x;
            self.at += 1;
        }
    }

    pub fn put_all(&mut self, list: &[T])
        ensures { Writes list.now self.old self.new }
    {
        for &x in list {
            self.put(x);
        }
    }
}
