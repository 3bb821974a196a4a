//! The status of a call, as C receives it.

ghost use Rattle.std.specs.Prelude.{◌≡◌};
ghost use Rattle.zc_library.specs.Service.{code_of};

/// The status of a call.
#[derive(Clone, Copy, Drop)]
pub enum Status {
    /// The call was done.
    Done,
    /// An answer is still pending, and nothing was done.
    Pending,
    /// Out of memory, now or before.
    Memory,
    /// The service was opened with a number of servers out of the range.
    NoServers,
}

impl Status {
    /// Returns its number in C.
    pub(crate) fn code(self) -> u32
        ensures { result ≡ code_of self }
    {
        match self {
            Status::Done => 0,
            Status::Pending => 1,
            Status::Memory => 2,
            Status::NoServers => 3,
        }
    }
}
