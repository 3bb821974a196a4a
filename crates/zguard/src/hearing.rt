//! What passes of the bytes of one connection.
//!
//! # Why
//!
//! A connection is closed by the server behind the guard: it gets a length that no frame has
//! (`NO_FRAME`). So all that it queued is sent first, and its session is detached as at any close.

ghost use Rattle.std.specs.Prelude.{◌≡◌, IfOk};
ghost use Rattle.zguard.specs.Guarding.{greeting_heard, heard_of, refused, stranger_heard};

use crate::heard::Heard;
use crate::judging::judge;
use crate::limits::MAX_KEPT;
use crate::verdict::Verdict;
use crate::visitor::Standing;
use std::alloc::Global;
use zalloc::Memory;
use zjute::{Next, next_frame};
use zlogins::Logins;

/// A length that no frame has. The server closes a connection that sends it.
const NO_FRAME: [u8; 4] = [255; 4];

/// Hears the first bytes of a connection. Bytes that begin with no frame pass as they are: the
/// server answers a four letter word, or closes the connection.
pub(crate) fn hear_greeting(alloc: Global, logins: &Logins, came: Vec<u8>) -> Result<Heard, Memory>
    ensures { IfOk result (λ heard. heard_of heard ≡ greeting_heard logins.now came.items) }
{
    match next_frame(&came) {
        Next::Whole(_, more) => {
            let more = Vec::from_slice(alloc, more)?;
            let passed = Vec::from_slice(alloc, &came[..came.len() - more.len()])?;
            hear_stranger(alloc, logins, passed, more)
        }
        Next::Partial if came.len() > MAX_KEPT => refused(alloc, Vec::new(alloc), Vec::new(alloc)),
        Next::Partial => Ok(Heard {
            passed: Vec::new(alloc),
            standing: Standing::Silent,
            bytes: came,
        }),
        Next::TooLong => Ok(Heard {
            passed: came,
            standing: Standing::Refused,
            bytes: Vec::new(alloc),
        }),
    }
}

/// Hears bytes of a stranger, after its connect request. Other bytes pass before them.
pub(crate) fn hear_stranger(
    alloc: Global,
    logins: &Logins,
    passed: Vec<u8>,
    came: Vec<u8>,
) -> Result<Heard, Memory>
    ensures { IfOk result
        (λ heard. heard_of heard ≡ stranger_heard logins.now passed.items came.items) }
{
    match judge(alloc, logins, &came)? {
        Verdict::Waits => Ok(Heard {
            passed,
            standing: Standing::Stranger,
            bytes: came,
        }),
        Verdict::Admits => {
            let mut passed = passed;
            passed.extend_from_slice(&came)?;
            Ok(Heard {
                passed,
                standing: Standing::Admitted,
                bytes: Vec::new(alloc),
            })
        }
        Verdict::Refuses(answer) => refused(alloc, passed, answer),
    }
}

// The connection is refused with this answer. Other bytes pass before the server closes it.
fn refused(alloc: Global, passed: Vec<u8>, answer: Vec<u8>) -> Result<Heard, Memory>
    ensures { IfOk result
        (λ heard. heard_of heard ≡ refused passed.items answer.items) }
{
    let mut passed = passed;
    passed.extend_from_slice(&NO_FRAME)?;
    Ok(Heard {
        passed,
        standing: Standing::Refused,
        bytes: answer,
    })
}
