//! The answer to a request.

ghost use Rattle.std.specs.Prelude.{◌≡◌};

use zjute::{Body, Code};

/// The answer to a request: the code in the header, and the body after it.
#[derive(Drop)]
pub struct Answer {
    /// `Ok`, or why the request wasn't done.
    pub code: Code,
    /// The body.
    pub body: Body,
}

impl Answer {
    ghost use Rattle.zresponses.specs.Answers as table;

    /// Returns the answer to a request that was done.
    pub(crate) fn done(body: Body) -> Answer
        ensures { result ≡ table.done body }
    {
        Answer {
            code: Code::Ok,
            body,
        }
    }

    /// Returns the answer to a request that failed.
    pub(crate) fn failed(code: Code) -> Answer
        ensures { result ≡ table.failed code }
    {
        Answer {
            code,
            body: Body::Nothing,
        }
    }
}
