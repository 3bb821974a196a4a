//! What calls may end: sessions, and the nodes that go with them or as stale.
//!
//! # Why
//!
//! The service names these before the calls. So the cost of a tick or of a close depends on what it
//! may remove, and not on the size of the tree. A session that a ping of the same tick renews is
//! named too: to leave it out would save nothing, since the check finds it as it was.

ghost use Rattle.std.specs.Prelude.{◌≡◌, ◌++◌, [], ◌∷◌, map, IfOk, OnOk};
ghost use Rattle.std.specs.List.{flat_map};
ghost use Rattle.ztree.specs.Tree.{parent_of};
ghost use Rattle.ztree_service.specs.Sizes.{owned_by};
ghost use Rattle.zfront.specs.Front.{doomed, ended_by, ending, in_order, stale_by, with_parents};

use crate::inner::Inner;
use std::alloc::Global;
use zalloc::Memory;
use zcalls::{Call, Update};
use zpath::Path;
use ztree::SessionId;
use ztree_service::TreeService;

impl<T: TreeService> Inner<T> {
    // Returns the sessions that these calls may end.
    pub(crate) fn ending(&self, calls: &[Call]) -> Result<Vec<SessionId>, Memory>
        ensures { IfOk result (λ ids. ids.items ≡ ending calls.now self.now.tree) }
    {
        let mut ids = Vec::new(self.alloc);
        for call in calls {
            let more = self.ended_by(call)?;
            add_ids(more, &mut ids)?;
        }
        Ok(ids)
    }

    // Returns the sessions that a call may end.
    fn ended_by(&self, call: &Call) -> Result<Vec<SessionId>, Memory>
        ensures { IfOk result (λ ids. ids.items ≡ ended_by self.now.tree call.now) }
    {
        match call {
            Call::Update(Update::Close(session)) => one_id(self.alloc, *session),
            Call::Update(Update::Tick) => self.service.due(),
            _ => Ok(Vec::new(self.alloc)),
        }
    }

    // Returns the nodes that these calls may remove, where they may end these sessions.
    pub(crate) fn doomed(&self, calls: &[Call], ids: &[SessionId]) -> Result<Vec<Path>, Memory>
        requires { ids.now ≡ ending calls.now self.now.tree }
        ensures { IfOk result (λ paths. paths.items ≡ doomed calls.now self.now.tree) }
    {
        let mut paths = Vec::new(self.alloc);
        self.add_stale(calls, &mut paths)?;
        self.add_owned(ids, &mut paths)?;
        Ok(paths)
    }

    // Adds the nodes that these calls remove as stale.
    fn add_stale(&self, calls: &[Call], paths: &mut Vec<Path>) -> Result<(), Memory>
        ensures { OnOk result (paths.new.items
            ≡ paths.old.items ++ flat_map (stale_by self.now.tree) calls.now) }
    {
        for call in calls {
            let more = self.stale_by(call)?;
            add_paths(more, paths)?;
        }
        Ok(())
    }

    // Returns the nodes that a call removes as stale.
    fn stale_by(&self, call: &Call) -> Result<Vec<Path>, Memory>
        ensures { IfOk result (λ paths. paths.items ≡ stale_by self.now.tree call.now) }
    {
        match call {
            Call::Update(Update::Tick) => self.service.stale(),
            _ => Ok(Vec::new(self.alloc)),
        }
    }

    // Adds the nodes of these sessions.
    fn add_owned(&self, ids: &[SessionId], paths: &mut Vec<Path>) -> Result<(), Memory>
        ensures { OnOk result (paths.new.items
            ≡ paths.old.items ++ flat_map (owned_by self.now.tree) ids.now) }
    {
        for id in ids {
            let more = self.service.owned(*id)?;
            add_paths(more, paths)?;
        }
        Ok(())
    }
}

// Returns a single id.
fn one_id(alloc: Global, id: SessionId) -> Result<Vec<SessionId>, Memory>
    ensures { IfOk result (λ ids. ids.items ≡ id ∷ []) }
{
    let mut ids = Vec::new(alloc);
    ids.push(id)?;
    Ok(ids)
}

// Moves ids behind the others.
fn add_ids(more: Vec<SessionId>, ids: &mut Vec<SessionId>) -> Result<(), Memory>
    ensures { OnOk result (ids.new.items ≡ ids.old.items ++ more.items) }
{
    for id in more {
        ids.push(id)?;
    }
    Ok(())
}

// Moves paths behind the others.
fn add_paths(more: Vec<Path>, paths: &mut Vec<Path>) -> Result<(), Memory>
    ensures { OnOk result (paths.new.items ≡ paths.old.items ++ more.items) }
{
    for path in more {
        paths.push(path)?;
    }
    Ok(())
}

/// Returns these paths and their parents.
pub(crate) fn with_parents(alloc: Global, paths: Vec<Path>) -> Result<Vec<Path>, Memory>
    ensures { IfOk result (λ all. all.items ≡ with_parents paths.items) }
{
    let parents = parents_of(alloc, &paths)?;
    let mut all = paths;
    add_paths(parents, &mut all)?;
    Ok(all)
}

// Returns the parents of paths.
fn parents_of(alloc: Global, paths: &[Path]) -> Result<Vec<Path>, Memory>
    ensures { IfOk result (λ parents. parents.items ≡ map parent_of paths.now) }
{
    let mut parents = Vec::new(alloc);
    for path in paths {
        parents.push(parent_path(path)?)?;
    }
    Ok(parents)
}

// Returns the path of the parent. The root is its own parent.
fn parent_path(path: &Path) -> Result<Path, Memory>
    ensures { IfOk result (λ parent. parent ≡ parent_of path.now) }
{
    match path.parent()? {
        Some(parent) => Ok(parent),
        None => Ok(Path::root()),
    }
}

/// Sorts paths and removes duplicates.
pub(crate) fn make_rising(paths: &mut Vec<Path>)
    ensures { paths.new.items ≡ in_order paths.old.items }
{
    paths.sort_unstable();
    paths.dedup();
}
