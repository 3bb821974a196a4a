//! Queries, answered from a store.

ghost use Rattle.std.specs.Prelude.{◌≡◌, IfOk};
ghost use Rattle.zcalls.specs.Step.{query_reply};
ghost use Rattle.zcalls.specs.declared.call.Query.TheVariants.{GetData, Exists, GetChildren};

use zalloc::Memory;
use zcalls::{Names, Query, Refusal, Reply};
use zpath::Path;
use zstore::Store;

/// Answers a query.
pub(crate) fn answer(store: &Store, query: &Query) -> Result<Reply, Memory>
    ensures { IfOk result (λ reply. reply ≡ query_reply store.now.tree query.now) }
{
    match query {
        Query::GetData(path) => get_data(store, path),
        Query::Exists(path) => Ok(exists(store, path)),
        Query::GetChildren(path) => get_children(store, path),
    }
}

// Returns the data and the stat of the node at a path.
#[tactic(auto, unfolding(zcalls::specs::Step::query_reply))]
fn get_data(store: &Store, path: &Path) -> Result<Reply, Memory>
    ensures { IfOk result (λ reply. reply ≡ query_reply store.now.tree (GetData path.now)) }
{
    let Some(id) = store.find(path) else {
        return Ok(Reply::Refused(Refusal::NoNode));
    };
    let (Some(node), Some(stat)) = (store.node(id), store.stat(id)) else {
        unreachable!();
    };
    Ok(Reply::Data(node.bytes.clone()?, stat))
}

// Returns the stat of the node at a path.
#[tactic(auto, unfolding(zcalls::specs::Step::query_reply))]
fn exists(store: &Store, path: &Path) -> Reply
    ensures { result ≡ query_reply store.now.tree (Exists path.now) }
{
    let Some(id) = store.find(path) else {
        return Reply::Refused(Refusal::NoNode);
    };
    match store.stat(id) {
        Some(stat) => Reply::Exists(stat),
        None => unreachable!(),
    }
}

// Returns the names of the children of the node at a path.
#[tactic(auto, unfolding(zcalls::specs::Step::query_reply))]
fn get_children(store: &Store, path: &Path) -> Result<Reply, Memory>
    ensures { IfOk result (λ reply. reply ≡ query_reply store.now.tree (GetChildren path.now)) }
{
    let Some(id) = store.find(path) else {
        return Ok(Reply::Refused(Refusal::NoNode));
    };
    let names = store.children(id)?;
    Ok(Reply::Children(Names::new(names)))
}
