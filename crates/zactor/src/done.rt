//! What became of an input.

use zcalls::CallNumber;

/// What became of an input that a process accepted.
#[derive(Drop)]
pub enum Done {
    /// It did what its table says, and callers see nothing of it.
    Acted,
    /// A server had no memory for a query: it is as if the query had been lost.
    Unheard,
    /// A server has stopped for good: it ran out of memory at a message, or it was to stop. Its
    /// failure notice isn't among the outgoing messages.
    Stopped,
    /// A server has stopped for good at the master's order to leave. Its failure notice isn't among
    /// the outgoing messages.
    Left,
    /// A client invoked a call, under this number.
    Began(CallNumber),
    /// A client returns the reply to its outstanding call, which had this number. The reply is in
    /// the caller's slot.
    Answered(CallNumber),
}

impl Done {
    ghost use Rattle.std.specs.Prelude.{◌≡◌};
    ghost use Rattle.zactor.specs.Acting.{is_end};

    /// Returns whether the process has stopped for good by this.
    pub fn is_end(&self) -> bool
        ensures { result ≡ is_end self.now }
    {
        match self {
            Done::Stopped | Done::Left => true,
            Done::Acted | Done::Unheard | Done::Began(_) | Done::Answered(_) => false,
        }
    }
}
