//! Where the next block of a file goes.

ghost use Rattle.std.specs.Prelude.{◌≡◌, ◌<◌, ◌+◌, ◌^◌};

/// Where the head's block ends.
pub const HEAD_END: usize = 34;

/// Where the next block of a file goes.
#[derive(Clone, Copy)]
pub struct Place {
    /// The sum from which the first checksum of the file continues.
    pub start: u32,
    /// Where the blocks so far end.
    pub end: usize,
    /// The sum from which the checksum of the next block continues.
    pub sum: u32,
}

impl Place {
    /// Returns the place after the head.
    pub fn first(start: u32) -> Place
        ensures start { result.start ≡ start }
        ensures end { result.end ≡ 34 }
        ensures sum { result.sum ≡ start }
    {
        Place {
            start,
            end: HEAD_END,
            sum: start,
        }
    }

    /// Returns the place after a commit byte and a block of `len` bytes with this checksum.
    pub fn after(self, len: usize, sum: u32) -> Place
        requires { self.end + len < 2 ^ 64 }
        ensures start { result.start ≡ self.start }
        ensures end { result.end ≡ self.end + len }
        ensures sum { result.sum ≡ sum }
    {
        Place {
            start: self.start,
            end: self.end + len,
            sum,
        }
    }
}
