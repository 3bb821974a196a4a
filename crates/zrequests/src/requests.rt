//! Requests.

ghost use Rattle.std.specs.Prelude.{◌≡◌, ◌<◌, ◌≤◌, [], ◌∷◌, length, Ok, IfOk, IfErr};
ghost use Rattle.zrequests.specs.Asking.{IsUnasked};
ghost use Rattle.zrequests.specs.Requests.{calls_in, reads_in, create_in, timed_create_in, create_alone};
ghost use Rattle.zrequests.specs.Requests.{delete_alone, set_alone, check_alone, one_of_parts};
ghost use Rattle.zrequests.specs.Requests.{set_acl_alone, other_in};
ghost use Rattle.zrequests.specs.Requests.{multi_in, look_alone, children_in, looks_in};
ghost use Rattle.zrequests.specs.Requests.{all_watches_in, numbered_in, watches_in, auth_in, sync_in};
ghost use Rattle.zjute.specs.WatchNumbers.{mode_of, type_of};
ghost use Rattle.zcalls.specs.declared.call.Call.TheVariants.{Update as UpdateOf, Query as QueryOf};
ghost use Rattle.zcalls.specs.declared.call.Update.TheVariants.{Close};
ghost use Rattle.zcalls.specs.declared.call.Query.TheVariants.{GetData, Exists, GetChildren};

use crate::calls::Calls;
use crate::fault::Unasked;
use crate::lists::{all_watches_of, looks_of, parts_of, watches_of};
use crate::nodes::{check_of, create_of, delete_of, set_acl_of, set_of, timed_create_of};
use crate::terms::Terms;
use crate::words::{is_text_of, path_of};
use std::alloc::Global;
use zcalls::{Call, Multi, Part, Query, SessionId, Update};
use zjute::{
    AddMode, AddWatch, Asked, AtVersion, Auth, Bytes, Code, CreateTtl, Looks, Parts, SetAclRequest,
    SetDataRequest, SetWatches, SetWatches2, WatchType, WatchesAt,
};
use zpath::Path;

/// Returns the calls that a session's request makes, in order. Each is made whatever the replies to
/// the earlier ones.
///
/// A request that is refused at once, or that runs out of memory, makes no call.
pub fn calls_of(
    alloc: Global,
    terms: Terms,
    session: SessionId,
    asked: &Asked,
) -> Result<Calls, Unasked>
    ensures found { IfOk result (λ calls. calls_in terms session asked.now ≡ Ok calls) }
    ensures fault { IfErr result (IsUnasked (calls_in terms session asked.now)) }
{
    match asked {
        Asked::Create(create) | Asked::Create2(create) | Asked::CreateContainer(create) => {
            one_create(alloc, terms, session, create)
        }
        Asked::CreateTtl(timed) => one_timed_create(alloc, terms, timed),
        Asked::Delete(at) => delete(alloc, at),
        Asked::SetData(set) => set_data(alloc, terms, set),
        Asked::SetAcl(set) => set_acl(alloc, set),
        Asked::Check(at) => check(alloc, terms, at),
        Asked::Multi(parts) => multi(alloc, terms, session, parts),
        Asked::CloseSession => close(alloc, session),
        _ => reads(alloc, terms, asked),
    }
}

// Reads a request that changes nothing.
fn reads(alloc: Global, terms: Terms, asked: &Asked) -> Result<Calls, Unasked>
    ensures found { IfOk result (λ calls. reads_in terms asked.now ≡ Ok calls) }
    ensures fault { IfErr result (IsUnasked (reads_in terms asked.now)) }
{
    match asked {
        Asked::Exists(look) => exists(alloc, &look.path),
        Asked::GetData(look) => get_data(alloc, &look.path),
        Asked::GetChildren(look) => get_children(alloc, &look.path),
        Asked::GetChildren2(look) => get_children2(alloc, &look.path),
        Asked::GetAcl(path) => exists(alloc, path),
        Asked::MultiRead(looks) => multi_read(alloc, terms, looks),
        Asked::SetWatches(set) => set_watches(alloc, set),
        Asked::SetWatches2(set) => set_watches_2(alloc, set),
        Asked::CheckWatches(at) | Asked::RemoveWatches(at) => watches_at(alloc, at),
        Asked::AddWatch(add) => add_watch(alloc, add),
        Asked::Sync(path) => sync(alloc, path),
        Asked::Auth(auth) => say_who(alloc, auth),
        Asked::Other(number, _) => other(*number),
        _ => Ok(Calls::none(alloc)),
    }
}

// Returns a single call.
fn one(alloc: Global, call: Call) -> Result<Calls, Unasked>
    ensures found { IfOk result (λ calls. calls ≡ call ∷ []) }
    ensures fault { IfErr result (λ fault. fault ≡ Unasked.Memory) }
{
    Ok(Calls::one(alloc, call)?)
}

// Reads a create.
fn one_create(
    alloc: Global,
    terms: Terms,
    session: SessionId,
    create: &zjute::CreateRequest,
) -> Result<Calls, Unasked>
    ensures found { IfOk result
        (λ calls. create_alone (create_in terms session create.now) ≡ Ok calls) }
    ensures fault { IfErr result (IsUnasked (create_alone (create_in terms session create.now))) }
{
    let read = create_of(alloc, terms, session, create)?;
    one(alloc, Call::Update(Update::Create(read)))
}

// Reads a create with a TTL.
fn one_timed_create(alloc: Global, terms: Terms, timed: &CreateTtl) -> Result<Calls, Unasked>
    ensures found { IfOk result
        (λ calls. create_alone (timed_create_in terms timed.now) ≡ Ok calls) }
    ensures fault { IfErr result (IsUnasked (create_alone (timed_create_in terms timed.now))) }
{
    let read = timed_create_of(alloc, terms, timed)?;
    one(alloc, Call::Update(Update::Create(read)))
}

// Reads a delete.
fn delete(alloc: Global, at: &AtVersion) -> Result<Calls, Unasked>
    ensures found { IfOk result (λ calls. delete_alone at.now ≡ Ok calls) }
    ensures fault { IfErr result (IsUnasked (delete_alone at.now)) }
{
    let read = delete_of(alloc, at)?;
    one(alloc, Call::Update(Update::Delete(read)))
}

// Reads a set.
fn set_data(alloc: Global, terms: Terms, set: &SetDataRequest) -> Result<Calls, Unasked>
    ensures found { IfOk result (λ calls. set_alone terms set.now ≡ Ok calls) }
    ensures fault { IfErr result (IsUnasked (set_alone terms set.now)) }
{
    let read = set_of(alloc, terms, set)?;
    one(alloc, Call::Update(Update::SetData(read)))
}

// Reads a write of an ACL.
fn set_acl(alloc: Global, set: &SetAclRequest) -> Result<Calls, Unasked>
    ensures found { IfOk result (λ calls. set_acl_alone set.now ≡ Ok calls) }
    ensures fault { IfErr result (IsUnasked (set_acl_alone set.now)) }
{
    let read = set_acl_of(alloc, set)?;
    one(alloc, Call::Update(Update::SetAcl(read)))
}

// Reads a check: a multi of one part.
fn check(alloc: Global, terms: Terms, at: &AtVersion) -> Result<Calls, Unasked>
    ensures found { IfOk result (λ calls. check_alone at.now ≡ Ok calls) }
    ensures fault { IfErr result (IsUnasked (check_alone at.now)) }
{
    let read = check_of(alloc, at)?;
    let mut parts = Vec::new(alloc);
    parts.push(Part::Check(read))?;
    one_multi(alloc, terms, parts)
}

// Returns a multi of these parts, within the terms.
fn one_multi(alloc: Global, terms: Terms, parts: Vec<Part>) -> Result<Calls, Unasked>
    requires some { 0 < length parts.items }
    requires few { length parts.items ≤ terms.parts }
    ensures found { IfOk result (λ calls. one_of_parts parts.items ≡ Ok calls) }
    ensures fault { IfErr result (λ fault. fault ≡ Unasked.Memory) }
{
    let Ok(multi) = Multi::within(parts, terms.parts()) else {
        unreachable!();
    };
    one(alloc, Call::Update(Update::Multi(multi)))
}

// Reads a multi.
fn multi(alloc: Global, terms: Terms, session: SessionId, parts: &Parts) -> Result<Calls, Unasked>
    ensures found { IfOk result (λ calls. multi_in terms session parts.now ≡ Ok calls) }
    ensures fault { IfErr result (IsUnasked (multi_in terms session parts.now)) }
{
    let parts = parts.as_slice();
    if parts.is_empty() {
        return Ok(Calls::none(alloc));
    }
    if parts.len() > terms.parts() {
        return Err(Unasked::Refused(Code::BadArguments));
    }
    let read = parts_of(alloc, terms, session, parts)?;
    one_multi(alloc, terms, read)
}

// Reads an exists.
fn exists(alloc: Global, path: &Option<Bytes>) -> Result<Calls, Unasked>
    ensures found { IfOk result (λ calls. look_alone Exists path.now ≡ Ok calls) }
    ensures fault { IfErr result (IsUnasked (look_alone Exists path.now)) }
{
    let path = path_of(alloc, path)?;
    one(alloc, Call::Query(Query::Exists(path)))
}

// Reads a getData.
fn get_data(alloc: Global, path: &Option<Bytes>) -> Result<Calls, Unasked>
    ensures found { IfOk result (λ calls. look_alone GetData path.now ≡ Ok calls) }
    ensures fault { IfErr result (IsUnasked (look_alone GetData path.now)) }
{
    let path = path_of(alloc, path)?;
    one(alloc, Call::Query(Query::GetData(path)))
}

// Reads a getChildren.
fn get_children(alloc: Global, path: &Option<Bytes>) -> Result<Calls, Unasked>
    ensures found { IfOk result (λ calls. look_alone GetChildren path.now ≡ Ok calls) }
    ensures fault { IfErr result (IsUnasked (look_alone GetChildren path.now)) }
{
    let path = path_of(alloc, path)?;
    one(alloc, Call::Query(Query::GetChildren(path)))
}

// Reads a getChildren2.
fn get_children2(alloc: Global, path: &Option<Bytes>) -> Result<Calls, Unasked>
    ensures found { IfOk result (λ calls. children_in path.now ≡ Ok calls) }
    ensures fault { IfErr result (IsUnasked (children_in path.now)) }
{
    let path = path_of(alloc, path)?;
    names_and_stat(alloc, path)
}

// Returns a query of the names of a node's children, and one of its stat.
fn names_and_stat(alloc: Global, path: Path) -> Result<Calls, Unasked>
    ensures found { IfOk result (λ calls. calls
        ≡ QueryOf (GetChildren path) ∷ QueryOf (Exists path) ∷ []) }
    ensures fault { IfErr result (λ fault. fault ≡ Unasked.Memory) }
{
    let same = path.clone()?;
    let names = Call::Query(Query::GetChildren(path));
    Ok(Calls::two(alloc, names, Call::Query(Query::Exists(same)))?)
}

// Reads a multiRead.
fn multi_read(alloc: Global, terms: Terms, looks: &Looks) -> Result<Calls, Unasked>
    ensures found { IfOk result (λ calls. looks_in terms looks.now ≡ Ok calls) }
    ensures fault { IfErr result (IsUnasked (looks_in terms looks.now)) }
{
    let looks = looks.as_slice();
    if looks.len() > terms.parts() {
        return Err(Unasked::Refused(Code::BadArguments));
    }
    Ok(Calls::new(looks_of(alloc, looks)?))
}

// Reads the paths of re-registered watches.
fn set_watches(alloc: Global, set: &SetWatches) -> Result<Calls, Unasked>
    ensures found { IfOk result (λ calls. watches_in set.now ≡ Ok calls) }
    ensures fault { IfErr result (IsUnasked (watches_in set.now)) }
{
    Ok(Calls::new(watches_of(alloc, set)?))
}

// Reads the paths of re-registered watches, with persistent ones.
fn set_watches_2(alloc: Global, set: &SetWatches2) -> Result<Calls, Unasked>
    ensures found { IfOk result (λ calls. all_watches_in set.now ≡ Ok calls) }
    ensures fault { IfErr result (IsUnasked (all_watches_in set.now)) }
{
    Ok(Calls::new(all_watches_of(alloc, set)?))
}

// Reads the path of watches to check or to remove.
fn watches_at(alloc: Global, at: &WatchesAt) -> Result<Calls, Unasked>
    ensures found { IfOk result
        (λ calls. numbered_in (type_of at.now.kind) at.now.path ≡ Ok calls) }
    ensures fault { IfErr result (IsUnasked (numbered_in (type_of at.now.kind) at.now.path)) }
{
    match WatchType::of(at.kind) {
        Some(_) => exists(alloc, &at.path),
        None => Err(Unasked::Refused(Code::MarshallingError)),
    }
}

// Reads the path of a watch to add.
fn add_watch(alloc: Global, add: &AddWatch) -> Result<Calls, Unasked>
    ensures found { IfOk result
        (λ calls. numbered_in (mode_of add.now.mode) add.now.path ≡ Ok calls) }
    ensures fault { IfErr result (IsUnasked (numbered_in (mode_of add.now.mode) add.now.path)) }
{
    match AddMode::of(add.mode) {
        Some(_) => exists(alloc, &add.path),
        None => Err(Unasked::Refused(Code::MarshallingError)),
    }
}

// Refuses another request.
fn other(number: i32) -> Result<Calls, Unasked>
    ensures { result ≡ other_in number }
{
    Err(Unasked::Refused(match number {
        -10 => Code::MarshallingError,
        _ => Code::Unimplemented,
    }))
}

// Returns the close of the session.
fn close(alloc: Global, session: SessionId) -> Result<Calls, Unasked>
    ensures found { IfOk result (λ calls. calls ≡ UpdateOf (Close session) ∷ []) }
    ensures fault { IfErr result (λ fault. fault ≡ Unasked.Memory) }
{
    one(alloc, Call::Update(Update::Close(session)))
}

// Reads a sync.
fn sync(alloc: Global, path: &Option<Bytes>) -> Result<Calls, Unasked>
    ensures { result ≡ sync_in path.now }
{
    match path {
        Some(_) => Ok(Calls::none(alloc)),
        None => Err(Unasked::Refused(Code::BadArguments)),
    }
}

// Reads an auth.
fn say_who(alloc: Global, auth: &Auth) -> Result<Calls, Unasked>
    ensures { result ≡ auth_in auth.now }
{
    if is_text_of(b"digest", &auth.scheme) {
        Ok(Calls::none(alloc))
    } else {
        Err(Unasked::Refused(Code::AuthFailed))
    }
}
