//! The changes of one node, applied to a store.

ghost use Rattle.std.specs.Prelude.{◌≡◌, ◌≢◌, ◌<◌, [], Some, None, Ok, Err, IfOk, IfErr, OnOk, OnErr, false};
ghost use Rattle.zpath.specs.Numbered.{is_over};
ghost use Rattle.ztree.specs.Tree.{Path, parent_of};
ghost use Rattle.zstore.specs.StoreView.{path_of, AtPath};
ghost use Rattle.zcalls.specs.Part.{create_step, delete_step, set_step, acl_step};
ghost use Rattle.zcalls.specs.Part.{has_no_owner, is_owned, has_other_version, has_other_acl, made_path};
ghost use Rattle.zops.specs.support.Ready.{IsReadyForPart};
ghost use Rattle.zops.specs.support.Stops.{IsDone, IsStop, IsFirst};
ghost use Rattle.zops.specs.support.Names.{name_refusal};
ghost use Rattle.zops.specs.support.Steps.{Gives, ReportsWhether, is_parent};

use crate::session_calls::is_gone;
use crate::stop::Stop;
use std::alloc::Global;
use zcalls::limits::MAX_COUNTER;
use zcalls::{ChangeReply, Create, Delete, Expected, Kind, Lifetime, Refusal, SetAcl, SetData};
use zpath::{Path, PathFault};
use zstore::{Id, Store};
use ztree::ClientId;

// Returns whether a node would belong to a session that is gone for this client.
fn has_no_owner(store: &Store, client: ClientId, lifetime: Lifetime) -> bool
    ensures { result ≡ has_no_owner store.now.tree.sessions client lifetime }
{
    match lifetime {
        Lifetime::Persistent | Lifetime::WithTtl(_) | Lifetime::Container => false,
        Lifetime::Ephemeral(session) => { is_gone(store, client, session) }
    }
}

// Returns whether a session owns the node.
fn is_ephemeral(store: &Store, id: Id) -> bool
    ensures { ReportsWhether is_owned store.now id result }
{
    match store.node(id) {
        Some(node) => node.owner != 0,
        None => false,
    }
}

// Returns whether the node's version differs from the expected one.
pub(crate) fn has_other_version(store: &Store, id: Id, expected: Expected) -> bool
    ensures { ReportsWhether (has_other_version expected) store.now id result }
{
    match (store.node(id), expected) {
        (Some(node), Expected::Exactly(version)) => node.version != version,
        _ => false,
    }
}

// Returns whether the version of the node's access control list differs from the expected one.
fn has_other_acl(store: &Store, id: Id, expected: Expected) -> bool
    ensures { ReportsWhether (has_other_acl expected) store.now id result }
{
    match (store.node(id), expected) {
        (Some(node), Expected::Exactly(version)) => node.aversion != version,
        _ => false,
    }
}

// Returns the path of the node that a create makes under an existing parent.
fn made_path(
    alloc: Global,
    store: &Store,
    parent: Id,
    kind: Kind,
    path: &Path,
) -> Result<Path, Stop>
    requires below_root { path.now ≢ [] }
    requires short { is_over path.now ≡ false }
    requires live { path_of store.now parent ≡ Some (parent_of path.now) }
    ensures made { IfOk result (λ made. made ≡ made_path store.now.tree.nodes kind path.now) }
    ensures allowed { OnOk result (name_refusal store.now.tree kind path.now ≡ None) }
    ensures stopped { IfErr result (IsFirst (name_refusal store.now.tree kind path.now)) }
{
    if !kind.is_sequential {
        return Ok(path.clone()?);
    }
    let Some(counter) = store.seq(parent) else {
        unreachable!();
    };
    if counter > MAX_COUNTER {
        return Err(Stop::Refused(Refusal::SequenceFull));
    }
    match path.numbered(alloc, counter) {
        Ok(made) => Ok(made),
        Err(PathFault::Memory) => Err(Stop::Memory),
        Err(_) => Err(Stop::Refused(Refusal::PathLimit)),
    }
}

/// Creates a node for a client. On an error the store is unchanged.
pub(crate) fn create(
    alloc: Global,
    store: &mut Store,
    client: ClientId,
    create: &Create,
) -> Result<ChangeReply, Stop>
    requires ready { IsReadyForPart store.old }
    ensures done { IfOk result
        (IsDone (create_step store.old.tree client create.now) store.old store.new) }
    ensures stopped { IfErr result (IsStop (create_step store.old.tree client create.now)) }
    ensures same { OnErr result (store.new ≡ store.old) }
{
    if has_no_owner(store, client, create.kind.lifetime) {
        return Err(Stop::Refused(Refusal::SessionGone));
    }
    let Some(above) = create.path.parent()? else {
        return Err(Stop::Refused(Refusal::NodeExists));
    };
    let Some(parent) = store.find(&above) else {
        drop(above);
        return Err(Stop::Refused(Refusal::NoNode));
    };
    drop(above);
    if is_ephemeral(store, parent) {
        return Err(Stop::Refused(Refusal::NoChildrenForEphemerals));
    }
    let made = made_path(alloc, store, parent, create.kind, &create.path)?;
    if store.find(&made).is_some() {
        drop(made);
        return Err(Stop::Refused(Refusal::NodeExists));
    }
    if store.nodes() >= store.limits().nodes {
        drop(made);
        return Err(Stop::Refused(Refusal::Full));
    }
    let Ok(path) = made.clone() else {
        drop(made);
        return Err(Stop::Memory);
    };
    let Ok(bytes) = create.bytes.clone() else {
        drop(made);
        drop(path);
        return Err(Stop::Memory);
    };
    let owner = create.kind.lifetime.owner();
    let term = create.kind.lifetime.term();
    store.add(parent, made, bytes, owner, term, create.kind.is_sequential)?;
    Ok(ChangeReply::Created(path))
}

/// Deletes a node. On an error the store is unchanged.
pub(crate) fn delete(store: &mut Store, delete: &Delete) -> Result<ChangeReply, Stop>
    requires ready { IsReadyForPart store.old }
    ensures done { IfOk result
        (IsDone (delete_step store.old.tree delete.now) store.old store.new) }
    ensures stopped { IfErr result (IsStop (delete_step store.old.tree delete.now)) }
    ensures same { OnErr result (store.new ≡ store.old) }
{
    if delete.path.names().is_empty() {
        return Err(Stop::Refused(Refusal::RootFixed));
    }
    let Some(id) = store.find(&delete.path) else {
        return Err(Stop::Refused(Refusal::NoNode));
    };
    if has_other_version(store, id, delete.version) {
        return Err(Stop::Refused(Refusal::BadVersion));
    }
    if has_children(store, id) {
        return Err(Stop::Refused(Refusal::NotEmpty));
    }
    store.drop_leaf(id);
    Ok(ChangeReply::Deleted)
}

/// Writes a node's data. On an error the store is unchanged.
pub(crate) fn set(store: &mut Store, set: &SetData) -> Result<ChangeReply, Stop>
    requires ready { IsReadyForPart store.old }
    ensures done { IfOk result (IsDone (set_step store.old.tree set.now) store.old store.new) }
    ensures stopped { IfErr result (IsStop (set_step store.old.tree set.now)) }
    ensures same { OnErr result (store.new ≡ store.old) }
{
    let Some(id) = store.find(&set.path) else {
        return Err(Stop::Refused(Refusal::NoNode));
    };
    if has_other_version(store, id, set.version) {
        return Err(Stop::Refused(Refusal::BadVersion));
    }
    store.put_data(id, set.bytes.clone()?)?;
    match store.stat(id) {
        Some(stat) => Ok(ChangeReply::Set(stat)),
        None => unreachable!(),
    }
}

/// Counts a write of a node's access control list, and gives up the savepoint. On an error the
/// store is unchanged.
pub(crate) fn set_acl(store: &mut Store, set: &SetAcl) -> Result<ChangeReply, Stop>
    requires ready { IsReadyForPart store.old }
    ensures done { IfOk result (Gives (acl_step store.old.tree set.now) store.new) }
    ensures given { store.new.given ≡ store.old.given }
    ensures stopped { IfErr result (IsStop (acl_step store.old.tree set.now)) }
    ensures same { OnErr result (store.new ≡ store.old) }
{
    let Some(id) = store.find(&set.path) else {
        return Err(Stop::Refused(Refusal::NoNode));
    };
    if has_other_acl(store, id, set.version) {
        return Err(Stop::Refused(Refusal::BadVersion));
    }
    store.put_acl(id);
    match store.stat(id) {
        Some(stat) => Ok(ChangeReply::Set(stat)),
        None => unreachable!(),
    }
}

// Returns whether the node has children.
fn has_children(store: &Store, id: Id) -> bool
    ensures { AtPath store.now id (λ path. result ≡ is_parent store.now.tree.nodes path) }
{
    match store.stat(id) {
        Some(stat) => stat.children > 0,
        None => false,
    }
}
