//! Paths, data, versions, ACLs and kinds of nodes in requests.

ghost use Rattle.std.specs.Prelude.{◌≡◌, Some, Ok, IfOk, IfErr};
ghost use Rattle.zrequests.specs.Asking.{IsUnasked, path_in, data_in, version_in, is_text, is_open, has_open_acl, kind_in, ttl_in, timed_kind_in};

use crate::fault::Unasked;
use crate::limits::{ALL_PERMISSIONS, NO_VERSION};
use crate::terms::Terms;
use crate::tick::TickLength;
use std::alloc::Global;
use std::str;
use zcalls::{Data, Expected, Kind, Lifetime, SessionId, Ttl};
use zjute::{Acl, Acls, Bytes, Code};
use zpath::{Path, PathFault};
use ztree::DataFault;

/// Reads a path.
pub(crate) fn path_of(alloc: Global, text: &Option<Bytes>) -> Result<Path, Unasked>
    ensures found { IfOk result (λ path. path_in text.now ≡ Ok path) }
    ensures fault { IfErr result (IsUnasked (path_in text.now)) }
{
    let Some(bytes) = text else {
        return Err(Unasked::Refused(Code::BadArguments));
    };
    path_in_bytes(alloc, bytes.as_slice())
}

/// Reads a path that isn't null.
pub(crate) fn path_in_bytes(alloc: Global, bytes: &[u8]) -> Result<Path, Unasked>
    ensures found { IfOk result (λ path. path_in (Some bytes.now) ≡ Ok path) }
    ensures fault { IfErr result (IsUnasked (path_in (Some bytes.now))) }
{
    let Ok(text) = str::from_utf8(bytes) else {
        // A path consists of plain bytes.
        return Err(Unasked::Refused(Code::BadArguments));
    };
    match Path::parse(alloc, text) {
        Ok(path) => Ok(path),
        Err(PathFault::Memory) => Err(Unasked::Memory),
        Err(_) => Err(Unasked::Refused(Code::BadArguments)),
    }
}

/// Reads data, of at most the size of the terms.
pub(crate) fn data_of(alloc: Global, terms: Terms, bytes: &Option<Bytes>) -> Result<Data, Unasked>
    ensures found { IfOk result (λ read. data_in terms bytes.now ≡ Ok read) }
    ensures fault { IfErr result (IsUnasked (data_in terms bytes.now)) }
{
    let Some(bytes) = bytes else {
        return Ok(Data::empty());
    };
    let bytes = Vec::from_slice(alloc, bytes.as_slice())?;
    match Data::within(alloc, bytes, terms.data()) {
        Ok(read) => Ok(read),
        Err(DataFault::TooLong) => Err(Unasked::Refused(Code::BadArguments)),
        Err(DataFault::Memory) => Err(Unasked::Memory),
    }
}

/// Reads the version that a node must have.
pub(crate) fn version_of(version: i32) -> Expected
    ensures { result ≡ version_in version }
{
    match version {
        -1 => Expected::Any,
        0.. => Expected::Exactly(version as u64),
        _ => Expected::Exactly(NO_VERSION),
    }
}

/// Returns whether the string is this text.
pub(crate) fn is_text_of(text: &[u8], string: &Option<Bytes>) -> bool
    ensures { result ≡ is_text text.now string.now }
{
    match string {
        Some(bytes) => bytes.as_slice() == text,
        None => false,
    }
}

/// Returns whether the list is the open ACL, named once or more. A null or empty list isn't.
pub(crate) fn is_open_acl(acls: &Option<Acls>) -> bool
    ensures { result ≡ has_open_acl acls.now }
{
    let Some(acls) = acls else {
        return false;
    };
    let acls = acls.as_slice();
    !acls.is_empty() && acls.iter().all(|acl| is_open_entry(acl))
}

// Returns whether this entry allows anyone to do anything.
fn is_open_entry(acl: &Acl) -> bool
    ensures { result ≡ is_open acl.now }
{
    acl.perms == ALL_PERMISSIONS
        && is_text_of(b"world", &acl.scheme)
        && is_text_of(b"anyone", &acl.id)
}

/// Reads the kind of a node that a session creates.
pub(crate) fn kind_of(session: SessionId, flags: i32) -> Result<Kind, Unasked>
    ensures { result ≡ kind_in session flags }
{
    match flags {
        0 => Ok(Kind::named(Lifetime::Persistent)),
        1 => Ok(Kind::named(Lifetime::Ephemeral(session))),
        2 => Ok(Kind::sequential(Lifetime::Persistent)),
        3 => Ok(Kind::sequential(Lifetime::Ephemeral(session))),
        4 => Ok(Kind::named(Lifetime::Container)),
        _ => Err(Unasked::Refused(Code::BadArguments)),
    }
}

/// Reads a TTL, in milliseconds.
pub(crate) fn ttl_of(tick: TickLength, millis: i64) -> Result<Ttl, Unasked>
    ensures { result ≡ ttl_in tick millis }
{
    if millis < 0 {
        return Err(Unasked::Refused(Code::BadArguments));
    }
    let ticks = (millis as u64).div_ceil(u64::from(tick.millis()));
    Ttl::new(ticks).ok_or(Unasked::Refused(Code::BadArguments))
}

/// Reads the kind of a node with this TTL.
pub(crate) fn timed_kind_of(ttl: Ttl, flags: i32) -> Result<Kind, Unasked>
    ensures { result ≡ timed_kind_in ttl flags }
{
    match flags {
        5 => Ok(Kind::named(Lifetime::WithTtl(ttl))),
        6 => Ok(Kind::sequential(Lifetime::WithTtl(ttl))),
        _ => Err(Unasked::Refused(Code::BadArguments)),
    }
}
