//! Readers of the records of requests.

ghost use Rattle.std.specs.Prelude.{◌≡◌};
ghost use Rattle.zcodec.specs.Readers.{Gives};
ghost use Rattle.zjute.specs.Requests.{create, create_ttl, at_version, look, set_data, set_acl};
ghost use Rattle.zjute.specs.Requests.{watches_at, add_watch, auth, set_watches, set_watches_2};

use crate::field_reading::{buffer_of, int_at, long_at};
use crate::list_reading::{acls_of, texts_of};
use crate::request::{
    AddWatch, AtVersion, Auth, CreateRequest, CreateTtl, Look, SetAclRequest, SetDataRequest,
    SetWatches, SetWatches2, WatchesAt,
};
use std::alloc::Global;
use zcodec::{ReadError, flag_at};

/// Reads a `CreateRequest`.
#[tactic(auto, unfolding(crate::specs::Requests::create))]
pub(crate) fn create_of(alloc: Global, bytes: &[u8]) -> Result<(CreateRequest, &[u8]), ReadError>
    ensures { Gives (λ x. (x.0, x.1.now)) result (create.read bytes.now) }
{
    let (path, rest) = buffer_of(alloc, bytes)?;
    let (data, rest) = buffer_of(alloc, rest)?;
    let (acls, rest) = acls_of(alloc, rest)?;
    let (flags, rest) = int_at(rest)?;
    let create = CreateRequest {
        path,
        bytes: data,
        acls,
        flags,
    };
    Ok((create, rest))
}

/// Reads a `CreateTTLRequest`.
#[tactic(auto, unfolding(crate::specs::Requests::create_ttl))]
pub(crate) fn create_ttl_of(alloc: Global, bytes: &[u8]) -> Result<(CreateTtl, &[u8]), ReadError>
    ensures { Gives (λ x. (x.0, x.1.now)) result (create_ttl.read bytes.now) }
{
    let (create, rest) = create_of(alloc, bytes)?;
    let (ttl, rest) = long_at(rest)?;
    Ok((CreateTtl { create, ttl }, rest))
}

/// Reads a `DeleteRequest` or a `CheckVersionRequest`.
#[tactic(auto, unfolding(crate::specs::Requests::at_version))]
pub(crate) fn at_version_of(alloc: Global, bytes: &[u8]) -> Result<(AtVersion, &[u8]), ReadError>
    ensures { Gives (λ x. (x.0, x.1.now)) result (at_version.read bytes.now) }
{
    let (path, rest) = buffer_of(alloc, bytes)?;
    let (version, rest) = int_at(rest)?;
    Ok((AtVersion { path, version }, rest))
}

/// Reads an `ExistsRequest`, a `GetDataRequest`, or another request of a path and a watch flag.
#[tactic(auto, unfolding(crate::specs::Requests::look))]
pub(crate) fn look_of(alloc: Global, bytes: &[u8]) -> Result<(Look, &[u8]), ReadError>
    ensures { Gives (λ x. (x.0, x.1.now)) result (look.read bytes.now) }
{
    let (path, rest) = buffer_of(alloc, bytes)?;
    let (watch, rest) = flag_at(rest)?;
    Ok((Look { path, watch }, rest))
}

/// Reads a `SetDataRequest`.
#[tactic(auto, unfolding(crate::specs::Requests::set_data))]
pub(crate) fn set_data_of(alloc: Global, bytes: &[u8]) -> Result<(SetDataRequest, &[u8]), ReadError>
    ensures { Gives (λ x. (x.0, x.1.now)) result (set_data.read bytes.now) }
{
    let (path, rest) = buffer_of(alloc, bytes)?;
    let (data, rest) = buffer_of(alloc, rest)?;
    let (version, rest) = int_at(rest)?;
    let set = SetDataRequest {
        path,
        bytes: data,
        version,
    };
    Ok((set, rest))
}

/// Reads a `SetACLRequest`.
#[tactic(auto, unfolding(crate::specs::Requests::set_acl))]
pub(crate) fn set_acl_of(alloc: Global, bytes: &[u8]) -> Result<(SetAclRequest, &[u8]), ReadError>
    ensures { Gives (λ x. (x.0, x.1.now)) result (set_acl.read bytes.now) }
{
    let (path, rest) = buffer_of(alloc, bytes)?;
    let (acls, rest) = acls_of(alloc, rest)?;
    let (version, rest) = int_at(rest)?;
    let set = SetAclRequest {
        path,
        acls,
        version,
    };
    Ok((set, rest))
}

/// Reads a `CheckWatchesRequest` or a `RemoveWatchesRequest`.
#[tactic(auto, unfolding(crate::specs::Requests::watches_at))]
pub(crate) fn watches_at_of(alloc: Global, bytes: &[u8]) -> Result<(WatchesAt, &[u8]), ReadError>
    ensures { Gives (λ x. (x.0, x.1.now)) result (watches_at.read bytes.now) }
{
    let (path, rest) = buffer_of(alloc, bytes)?;
    let (kind, rest) = int_at(rest)?;
    Ok((WatchesAt { path, kind }, rest))
}

/// Reads an `AddWatchRequest`.
#[tactic(auto, unfolding(crate::specs::Requests::add_watch))]
pub(crate) fn add_watch_of(alloc: Global, bytes: &[u8]) -> Result<(AddWatch, &[u8]), ReadError>
    ensures { Gives (λ x. (x.0, x.1.now)) result (add_watch.read bytes.now) }
{
    let (path, rest) = buffer_of(alloc, bytes)?;
    let (mode, rest) = int_at(rest)?;
    Ok((AddWatch { path, mode }, rest))
}

/// Reads an `AuthPacket`.
#[tactic(auto, unfolding(crate::specs::Requests::auth))]
pub(crate) fn auth_of(alloc: Global, bytes: &[u8]) -> Result<(Auth, &[u8]), ReadError>
    ensures { Gives (λ x. (x.0, x.1.now)) result (auth.read bytes.now) }
{
    let (kind, rest) = int_at(bytes)?;
    let (scheme, rest) = buffer_of(alloc, rest)?;
    let (said, rest) = buffer_of(alloc, rest)?;
    let auth = Auth {
        kind,
        scheme,
        auth: said,
    };
    Ok((auth, rest))
}

/// Reads a `SetWatches`.
#[tactic(auto, unfolding(crate::specs::Requests::set_watches))]
pub(crate) fn set_watches_of(alloc: Global, bytes: &[u8]) -> Result<(SetWatches, &[u8]), ReadError>
    ensures { Gives (λ x. (x.0, x.1.now)) result (set_watches.read bytes.now) }
{
    let (relative_zxid, rest) = long_at(bytes)?;
    let (data_watches, rest) = texts_of(alloc, rest)?;
    let (exist_watches, rest) = texts_of(alloc, rest)?;
    let (child_watches, rest) = texts_of(alloc, rest)?;
    let watches = SetWatches {
        relative_zxid,
        data_watches,
        exist_watches,
        child_watches,
    };
    Ok((watches, rest))
}

/// Reads a `SetWatches2`.
#[tactic(auto, unfolding(crate::specs::Requests::set_watches_2))]
pub(crate) fn set_watches_2_of(
    alloc: Global,
    bytes: &[u8],
) -> Result<(SetWatches2, &[u8]), ReadError>
    ensures { Gives (λ x. (x.0, x.1.now)) result (set_watches_2.read bytes.now) }
{
    let (watches, rest) = set_watches_of(alloc, bytes)?;
    let (persistent_watches, rest) = texts_of(alloc, rest)?;
    let (recursive_watches, rest) = texts_of(alloc, rest)?;
    let all = SetWatches2 {
        watches,
        persistent_watches,
        recursive_watches,
    };
    Ok((all, rest))
}
