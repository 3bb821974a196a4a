//! Changes and checks of one node.

ghost use Rattle.std.specs.Prelude.{◌≡◌, Ok, IfOk, IfErr};
ghost use Rattle.zrequests.specs.Asking.{IsUnasked};
ghost use Rattle.zrequests.specs.Requests.{node_in, create_in, timed_create_in, delete_in, check_in, set_in, part_in};
ghost use Rattle.zrequests.specs.Requests.{part_of_create, part_of_delete, part_of_set, part_of_check};
ghost use Rattle.zrequests.specs.Requests.{refused_in, set_acl_in};

use crate::fault::Unasked;
use crate::terms::Terms;
use crate::words::{data_of, is_open_acl, kind_of, path_of, timed_kind_of, ttl_of, version_of};
use std::alloc::Global;
use zalloc::Memory;
use zcalls::{Check, Create, Delete, Kind, Part, SessionId, SetAcl, SetData};
use zjute::{AtVersion, Code, CreateTtl, SetAclRequest};

/// Reads a create of a node of this kind.
pub(crate) fn node_of(
    alloc: Global,
    terms: Terms,
    kind: Kind,
    create: &zjute::CreateRequest,
) -> Result<Create, Unasked>
    ensures found { IfOk result (λ read. node_in terms kind create.now ≡ Ok read) }
    ensures fault { IfErr result (IsUnasked (node_in terms kind create.now)) }
{
    let path = path_of(alloc, &create.path)?;
    if !is_open_acl(&create.acls) {
        return Err(Unasked::Refused(Code::InvalidAcl));
    }
    let bytes = data_of(alloc, terms, &create.bytes)?;
    Ok(Create { path, kind, bytes })
}

/// Reads a create for a session.
pub(crate) fn create_of(
    alloc: Global,
    terms: Terms,
    session: SessionId,
    create: &zjute::CreateRequest,
) -> Result<Create, Unasked>
    ensures found { IfOk result (λ read. create_in terms session create.now ≡ Ok read) }
    ensures fault { IfErr result (IsUnasked (create_in terms session create.now)) }
{
    let kind = kind_of(session, create.flags)?;
    node_of(alloc, terms, kind, create)
}

/// Reads a create with a TTL.
pub(crate) fn timed_create_of(
    alloc: Global,
    terms: Terms,
    timed: &CreateTtl,
) -> Result<Create, Unasked>
    ensures found { IfOk result (λ read. timed_create_in terms timed.now ≡ Ok read) }
    ensures fault { IfErr result (IsUnasked (timed_create_in terms timed.now)) }
{
    let ttl = ttl_of(terms.tick(), timed.ttl)?;
    let kind = timed_kind_of(ttl, timed.create.flags)?;
    node_of(alloc, terms, kind, &timed.create)
}

/// Reads a delete.
pub(crate) fn delete_of(alloc: Global, at: &AtVersion) -> Result<Delete, Unasked>
    ensures found { IfOk result (λ read. delete_in at.now ≡ Ok read) }
    ensures fault { IfErr result (IsUnasked (delete_in at.now)) }
{
    let path = path_of(alloc, &at.path)?;
    Ok(Delete {
        path,
        version: version_of(at.version),
    })
}

/// Reads a check.
pub(crate) fn check_of(alloc: Global, at: &AtVersion) -> Result<Check, Unasked>
    ensures found { IfOk result (λ read. check_in at.now ≡ Ok read) }
    ensures fault { IfErr result (IsUnasked (check_in at.now)) }
{
    let path = path_of(alloc, &at.path)?;
    Ok(Check {
        path,
        version: version_of(at.version),
    })
}

/// Reads a set.
pub(crate) fn set_of(
    alloc: Global,
    terms: Terms,
    set: &zjute::SetDataRequest,
) -> Result<SetData, Unasked>
    ensures found { IfOk result (λ read. set_in terms set.now ≡ Ok read) }
    ensures fault { IfErr result (IsUnasked (set_in terms set.now)) }
{
    let path = path_of(alloc, &set.path)?;
    let bytes = data_of(alloc, terms, &set.bytes)?;
    Ok(SetData {
        path,
        bytes,
        version: version_of(set.version),
    })
}

/// Reads a write of an ACL.
pub(crate) fn set_acl_of(alloc: Global, set: &SetAclRequest) -> Result<SetAcl, Unasked>
    ensures found { IfOk result (λ read. set_acl_in set.now ≡ Ok read) }
    ensures fault { IfErr result (IsUnasked (set_acl_in set.now)) }
{
    let path = path_of(alloc, &set.path)?;
    if !is_open_acl(&set.acls) {
        return Err(Unasked::Refused(Code::InvalidAcl));
    }
    Ok(SetAcl::new(path, version_of(set.version)))
}

/// Reads a part of a multi.
pub(crate) fn part_of(
    alloc: Global,
    terms: Terms,
    session: SessionId,
    part: &zjute::PartRequest,
) -> Result<Part, Unasked>
    ensures found { IfOk result (λ read. part_in terms session part.now ≡ Ok read) }
    ensures fault { IfErr result (IsUnasked (part_in terms session part.now)) }
{
    match part {
        zjute::PartRequest::Create(create)
        | zjute::PartRequest::Create2(create)
        | zjute::PartRequest::CreateContainer(create) => create_part(alloc, terms, session, create),
        zjute::PartRequest::CreateTtl(timed) => timed_part(alloc, terms, timed),
        zjute::PartRequest::Delete(at) => delete_part(alloc, at),
        zjute::PartRequest::SetData(set) => set_part(alloc, terms, set),
        zjute::PartRequest::Check(at) => check_part(alloc, at),
    }
}

/// Returns the code of a part of a multi that is refused at once, or `None`.
pub fn refused_part(
    alloc: Global,
    terms: Terms,
    part: &zjute::PartRequest,
) -> Result<Option<Code>, Memory>
    ensures { IfOk result (λ code. code ≡ refused_in terms part.now) }
{
    match part_of(alloc, terms, SessionId::new(0), part) {
        Ok(_) => Ok(None),
        Err(Unasked::Refused(code)) => Ok(Some(code)),
        Err(Unasked::Memory) => Err(Memory),
    }
}

// Reads a part that creates a node for a session.
fn create_part(
    alloc: Global,
    terms: Terms,
    session: SessionId,
    create: &zjute::CreateRequest,
) -> Result<Part, Unasked>
    ensures found { IfOk result
        (λ read. part_of_create (create_in terms session create.now) ≡ Ok read) }
    ensures fault { IfErr result (IsUnasked (part_of_create (create_in terms session create.now))) }
{
    Ok(Part::Create(create_of(alloc, terms, session, create)?))
}

// Reads a part that creates a node with a TTL.
fn timed_part(alloc: Global, terms: Terms, timed: &CreateTtl) -> Result<Part, Unasked>
    ensures found { IfOk result
        (λ read. part_of_create (timed_create_in terms timed.now) ≡ Ok read) }
    ensures fault { IfErr result (IsUnasked (part_of_create (timed_create_in terms timed.now))) }
{
    Ok(Part::Create(timed_create_of(alloc, terms, timed)?))
}

// Reads a part that deletes a node.
fn delete_part(alloc: Global, at: &AtVersion) -> Result<Part, Unasked>
    ensures found { IfOk result (λ read. part_of_delete at.now ≡ Ok read) }
    ensures fault { IfErr result (IsUnasked (part_of_delete at.now)) }
{
    Ok(Part::Delete(delete_of(alloc, at)?))
}

// Reads a part that writes a node's data.
fn set_part(alloc: Global, terms: Terms, set: &zjute::SetDataRequest) -> Result<Part, Unasked>
    ensures found { IfOk result (λ read. part_of_set terms set.now ≡ Ok read) }
    ensures fault { IfErr result (IsUnasked (part_of_set terms set.now)) }
{
    Ok(Part::SetData(set_of(alloc, terms, set)?))
}

// Reads a part that checks a node's version.
fn check_part(alloc: Global, at: &AtVersion) -> Result<Part, Unasked>
    ensures found { IfOk result (λ read. part_of_check at.now ≡ Ok read) }
    ensures fault { IfErr result (IsUnasked (part_of_check at.now)) }
{
    Ok(Part::Check(check_of(alloc, at)?))
}
