//! Readers of vectors.

ghost use Rattle.std.specs.Prelude.{◌≡◌, ◌≤◌};
ghost use Rattle.zcodec.specs.Forms.{times};
ghost use Rattle.zcodec.specs.Readers.{Gives};
ghost use Rattle.zjute.specs.Jute.{text, texts};
ghost use Rattle.zjute.specs.Requests.{acl, acls_or_null};

use crate::acl::{Acl, Acls};
use crate::bytes::Texts;
use crate::field_reading::{buffer_of, int_at, text_of};
use crate::limits::MAX_FRAME;
use std::alloc::Global;
use zcodec::{Fault, NULL, ReadError, u32_at};

/// Reads a `vector<ustring>`.
#[tactic(auto, unfolding(crate::specs::Jute::texts))]
pub(crate) fn texts_of(alloc: Global, bytes: &[u8]) -> Result<(Texts, &[u8]), ReadError>
    ensures { Gives (λ x. (x.0, x.1.now)) result (texts.read bytes.now) }
{
    let (count, rest) = u32_at(bytes)?;
    if count > MAX_FRAME {
        return Err(ReadError::Fault(Fault::Long));
    }
    counted_texts(alloc, count, rest)
}

// Reads that many texts.
fn counted_texts(alloc: Global, count: u32, bytes: &[u8]) -> Result<(Texts, &[u8]), ReadError>
    requires { count ≤ MAX_FRAME }
    ensures { Gives (λ x. (x.0, x.1.now)) result ((times text count).read bytes.now) }
{
    let mut texts = Vec::new(alloc);
    let mut rest = bytes;
    for _ in 0..count {
        let (text, after) = text_of(alloc, rest)?;
        texts.push(text)?;
        rest = after;
    }
    Ok((Texts::within(texts), rest))
}

/// Reads a `vector<ACL>`, which may be null.
#[tactic(auto, unfolding(crate::specs::Requests::acls_or_null))]
pub(crate) fn acls_of(alloc: Global, bytes: &[u8]) -> Result<(Option<Acls>, &[u8]), ReadError>
    ensures { Gives (λ x. (x.0, x.1.now)) result (acls_or_null.read bytes.now) }
{
    let (count, rest) = u32_at(bytes)?;
    if count == NULL {
        return Ok((None, rest));
    }
    if count > MAX_FRAME {
        return Err(ReadError::Fault(Fault::Long));
    }
    let (acls, rest) = counted_acls(alloc, count, rest)?;
    Ok((Some(acls), rest))
}

// Reads that many entries.
fn counted_acls(alloc: Global, count: u32, bytes: &[u8]) -> Result<(Acls, &[u8]), ReadError>
    requires { count ≤ MAX_FRAME }
    ensures { Gives (λ x. (x.0, x.1.now)) result ((times acl count).read bytes.now) }
{
    let mut acls = Vec::new(alloc);
    let mut rest = bytes;
    for _ in 0..count {
        let (entry, after) = acl_of(alloc, rest)?;
        acls.push(entry)?;
        rest = after;
    }
    Ok((Acls::within(acls), rest))
}

// Reads an `ACL`.
#[tactic(auto, unfolding(crate::specs::Requests::acl))]
fn acl_of(alloc: Global, bytes: &[u8]) -> Result<(Acl, &[u8]), ReadError>
    ensures { Gives (λ x. (x.0, x.1.now)) result (acl.read bytes.now) }
{
    let (perms, rest) = int_at(bytes)?;
    let (scheme, rest) = buffer_of(alloc, rest)?;
    let (id, rest) = buffer_of(alloc, rest)?;
    Ok((Acl { perms, scheme, id }, rest))
}
