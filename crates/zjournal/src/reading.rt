//! What the bytes of a file turn out to be.

ghost use Rattle.std.specs.Prelude.{◌<◌, IfOk, IfErr, IsErrOf};
ghost use Rattle.zjournal.specs.Faults.{IsSuch};
ghost use Rattle.zjournal.specs.Found.{IsFound};

use crate::OpenError;
use crate::batches::batches;
use crate::head::{check_head, is_unmade, is_unopened};
use crate::place::Place;
use std::alloc::Global;

/// What a file turned out to be.
#[derive(Drop)]
pub enum Found {
    /// It has nothing yet but a part of its head.
    Unmade,
    /// It has its head, but the first commit byte isn't set.
    Unopened,
    /// It holds batches: their text, and where the next block goes.
    Cached(Vec<u8>, Place),
}

/// Returns what the bytes turn out to be, or their fault.
pub fn look(alloc: Global, bytes: &[u8], servers: u8) -> Result<Found, OpenError>
    requires { 0 < servers }
    ensures ok { IfOk result (IsFound servers bytes.now) }
    ensures err { IfErr result (IsSuch servers bytes.now) }
    ensures disk { IsErrOf result OpenError.Failed → ⊥ }
{
    if is_unmade(bytes, servers) {
        return Ok(Found::Unmade);
    }
    if is_unopened(bytes, servers) {
        return Ok(Found::Unopened);
    }
    let start = check_head(bytes, servers)?;
    let (text, place) = batches(alloc, bytes, Place::first(start))?;
    Ok(Found::Cached(text, place))
}
