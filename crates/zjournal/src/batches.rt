//! The batches after a file's head.
//!
//! # Why
//! A block that is cut short after a set commit byte is damage, unless that byte is the file's last
//! one. A crash can leave the latter, while the clear commit byte is written.

ghost use Rattle.std.specs.Prelude.{◌≡◌, ◌⊎◌, ◌<◌, ◌≤◌, ◌+◌, ◌++◌, List, ℕ, length, get_or, drop};
ghost use Rattle.std.specs.Prelude.{IfOk, IfErr, IfSome, IfNone, IsErrOf};
ghost use Rattle.zjournal.specs.Blocks.{IsText, IsEnd};
ghost use Rattle.zjournal.specs.Scan.{EndsAt, IsBatch, IsNoBatch, AreBatches, IsOther, joined};
ghost use Rattle.zjournal.specs.declared.fault.OpenError.TheVariants as fault;

use crate::OpenError;
use crate::checksum::checked;
use crate::place::Place;
use std::alloc::Global;

/// Reads the batches that begin at `start`. Returns their texts in order, joined, and the place
/// after the last one.
pub fn batches(alloc: Global, bytes: &[u8], start: Place) -> Result<(Vec<u8>, Place), OpenError>
    requires { start.end ≤ length bytes.now }
    ensures ok { IfOk result (λ read. (batches : List (List ℕ))
        × AreBatches bytes.now start batches read.1 × (read.0.items ≡ joined batches)
        × IsEnd (drop read.1.end bytes.now)) }
    ensures err { IfErr result (IsOther bytes.now start) }
    ensures disk { IsErrOf result OpenError.Failed → ⊥ }
{
    let mut text = Vec::new(alloc);
    let mut place = start;
    while place.end + 1 < bytes.len() && bytes[place.end] == 1 {
        place = batch(bytes, place, &mut text)?;
    }
    Ok((text, place))
}

// Reads the batch of the block at this place, whose commit byte is set, and appends its text.
// Returns the place after it.
fn batch(bytes: &[u8], place: Place, text: &mut Vec<u8>) -> Result<Place, OpenError>
    requires within { place.end + 1 < length bytes.now }
    requires open { get_or bytes.now place.end 0 ≡ 1 }
    ensures ok { IfOk result (λ there. (batch : List ℕ) × IsBatch bytes.now place batch there
        × (text.new.items ≡ text.old.items ++ batch)) }
    ensures err { IfErr result (λ e. (e ≡ fault.Memory)
        ⊎ ((e ≡ fault.Damaged place.end) × IsNoBatch bytes.now place)) }
{
    let start = place.end + 1;
    let Some(end) = text_end(bytes, start) else {
        return Err(OpenError::Damaged(place.end));
    };
    let Some((batch, sum)) = checked(&bytes[start..end], place.sum) else {
        return Err(OpenError::Damaged(place.end));
    };
    text.extend_from_slice(batch)?;
    Ok(place.after(end + 1 - place.end, sum))
}

// Returns the index of the first byte 0 from `start` on, if there is one.
fn text_end(bytes: &[u8], start: usize) -> Option<usize>
    requires { start ≤ length bytes.now }
    ensures some { IfSome result (EndsAt bytes.now start) }
    ensures none { IfNone result (IsText (drop start bytes.now)) }
{
    let mut at = start;
    while at < bytes.len() {
        if bytes[at] == 0 {
            return Some(at);
        }
        at += 1;
    }
    None
}
