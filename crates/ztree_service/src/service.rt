//! The contract of a service of one tree.
//!
//! # Why
//!
//! The contract says what a call does to the tree, and nothing of how. The front, its tables and
//! its laws are proved against it alone, so another service can replace `LocalTree`.

ghost use Rattle.std.specs.Prelude.{◌≡◌, IfOk};
ghost use Rattle.std.specs.FinMap.{get, keys};
ghost use Rattle.ztree.specs.Tree.{Tree};
ghost use Rattle.zcalls.specs.Step.{query_reply};
ghost use Rattle.zcalls.specs.declared.call.Call.TheVariants.{Update as Called};
ghost use Rattle.zcalls.specs.Step.{due_next, stale_next};
ghost use Rattle.zprotocol.specs.world.PlainTree.{serve};
ghost use Rattle.ztree_service.specs.Sizes.{counts_of, owned_by};

use crate::counts::Counts;
use zalloc::Memory;
use zcalls::{Query, Reply, Update};
use zpath::Path;
use ztree::{Session, SessionId, Zxid};

/// A service of one tree. Calls are served one after the other. Once a call has run out of memory,
/// each call returns `Memory`.
pub trait TreeService {
    /// The tree after all calls so far.
    ghost tree: { Self → Tree };

    /// Applies an update of client 0. Returns the reply and the update.
    fn apply(&mut self, update: Update) -> Result<(Reply, Update), Memory>
        ensures applied { IfOk result (λ did.
            (tree self.new, did.0) ≡ serve (tree self.old) 0 (Called update)) }
        ensures same { IfOk result (λ did. did.1 ≡ update) };

    /// Answers a query, and changes nothing.
    fn ask(&self, query: &Query) -> Result<Reply, Memory>
        ensures { IfOk result (λ reply. reply ≡ query_reply (tree self.now) query.now) };

    /// Returns the zxid of the last change, and the time in ticks.
    fn clock(&self) -> Result<(Zxid, u64), Memory>
        ensures zxid { IfOk result (λ clock. clock.0 ≡ (tree self.now).zxid) }
        ensures time { IfOk result (λ clock. clock.1 ≡ (tree self.now).time) };

    /// Returns the paths of all nodes, in order.
    fn paths(&self) -> Result<Vec<Path>, Memory>
        ensures { IfOk result (λ paths. paths.items ≡ keys (tree self.now).nodes) };

    /// Returns the session with this id, if it exists.
    fn session(&self, id: SessionId) -> Result<Option<Session>, Memory>
        ensures { IfOk result (λ session. session ≡ get (tree self.now).sessions id) };

    /// Returns the ids of all sessions, in order.
    fn session_ids(&self) -> Result<Vec<SessionId>, Memory>
        ensures { IfOk result (λ ids. ids.items ≡ keys (tree self.now).sessions) };

    /// Returns the ids of the sessions that the next tick ends, in order. The cost depends on the
    /// number of sessions.
    fn due(&self) -> Result<Vec<SessionId>, Memory>
        ensures { IfOk result (λ ids. ids.items ≡ due_next (tree self.now)) };

    /// Returns the paths of the nodes that the next tick removes as stale, in order. The cost
    /// depends on the number of containers and nodes with a TTL.
    fn stale(&self) -> Result<Vec<Path>, Memory>
        ensures { IfOk result (λ paths. paths.items ≡ stale_next (tree self.now)) };

    /// Returns the paths of the nodes that a session owns, in order. A session that isn't there
    /// owns none. The cost depends on the number of these nodes.
    fn owned(&self, session: SessionId) -> Result<Vec<Path>, Memory>
        ensures { IfOk result (λ paths. paths.items ≡ owned_by (tree self.now) session) };

    /// Returns the size of the tree.
    fn counts(&self) -> Result<Counts, Memory>
        ensures { IfOk result (λ counts. counts ≡ counts_of (tree self.now)) };
}
