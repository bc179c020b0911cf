ghost use Rattle.std.specs.Prelude.{◌≡◌, ◌<◌};
ghost use Rattle.link.specs.Ring.{place_after, pushed, popped};

// The start and the count of a ring of 512 places. Its slots lie in an array of the owner's, from
// 512 l on for ring l: the item that is pushed goes to the place that `end` gives, and the first item
// lies at `start`.
#[derive(Clone, Copy)]
pub struct Ring {
    pub start: usize,
    pub count: usize,
}

impl Ring {
    // Where the next item goes.
    //
    // A helper for the crates above, and no entry point: the caller shows that the sum is small.
    pub fn end(self) -> usize
        requires { (self.start < 512) × (self.count < 513) }
        ensures { result ≡ place_after self }
    {
        (self.start + self.count) % 512
    }

    // With one item more at the end.
    //
    // For this crate: the caller shows that there is room.
    pub(crate) fn push(self) -> Ring
        requires { self.count < 512 }
        ensures { result ≡ pushed self }
    {
        Ring {
            count: self.count + 1,
            ..self
        }
    }

    // Without its first item.
    //
    // For this crate: the caller shows that there is one.
    pub(crate) fn pop(self) -> Ring
        requires { (self.start < 512) × (0 < self.count) }
        ensures { result ≡ popped self }
    {
        Ring {
            start: (self.start + 1) % 512,
            count: self.count - 1,
        }
    }
}
