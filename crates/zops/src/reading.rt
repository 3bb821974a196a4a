//! Reading a machine's state, row by row.
//!
//! # Why
//! Only a machine with memory promises that no node is of a later change or tick. One that ran out
//! may have stopped in the middle of a change, and its tree is never read.

ghost use Rattle.std.specs.Prelude.{◌≡◌, ◌≤◌, [], false, length, is_some, None, Some, IfNone, IfOk, IfSome, IsSome};
ghost use Rattle.std.specs.FinMap.{get, keys, len};
ghost use Rattle.ztree.specs.Limits.{AreLimits};
ghost use Rattle.ztree.specs.Counts.{owned_count, data_count};
ghost use Rattle.zcalls.specs.Step.{due_next, stale_next};
ghost use Rattle.ztree.specs.declared.limits.TheConstants.{MAX_CLIENTS};
ghost use Rattle.ztree.specs.Tree.{has_node, ephemerals};
ghost use Rattle.zops.specs.Restored.{IsOfUpdate};
ghost use Rattle.zops.specs.RestoredLaws.{IsSettled};

use crate::machine::Machine;
use zalloc::Memory;
use zcalls::{CallNumber, Reply};
use zpath::Path;
use zstore::{ClientId, Node, Session, SessionId, TreeLimits, Zxid};

impl Machine {
    /// Returns the current tick.
    pub fn time(&self) -> u64
        requires whole { self.now.is_broken ≡ false }
        ensures { result ≡ self.now.state.service.plain.time }
    {
        self.store.now()
    }

    /// Returns the limits of the tree.
    pub fn limits(&self) -> TreeLimits
        requires whole { self.now.is_broken ≡ false }
        ensures limits { result ≡ self.now.state.service.plain.limits }
        ensures allowed { AreLimits result }
    {
        self.store.keeps_lawful();
        self.store.limits()
    }

    /// Returns the number of nodes, the root included.
    pub fn nodes(&self) -> usize
        requires whole { self.now.is_broken ≡ false }
        ensures { result ≡ len self.now.state.service.plain.nodes }
    {
        self.store.nodes()
    }

    /// Returns the number of sessions.
    pub fn sessions(&self) -> usize
        requires whole { self.now.is_broken ≡ false }
        ensures { result ≡ len self.now.state.service.plain.sessions }
    {
        self.store.sessions()
    }

    /// Returns the number of nodes that sessions own.
    pub fn owned_count(&self) -> usize
        requires whole { self.now.is_broken ≡ false }
        ensures { result ≡ owned_count self.now.state.service.plain.nodes }
    {
        self.store.owned_count()
    }

    /// Returns the bytes of the data of all nodes.
    pub fn data_count(&self) -> u64
        requires whole { self.now.is_broken ≡ false }
        ensures { result ≡ data_count self.now.state.service.plain.nodes }
    {
        self.store.data_count()
    }

    /// Returns the ids of the sessions that the next tick ends, in order; or `Memory`. The cost
    /// depends on the number of sessions.
    pub fn due(&self) -> Result<Vec<SessionId>, Memory>
        requires whole { self.now.is_broken ≡ false }
        ensures { IfOk result (λ ids. ids.items ≡ due_next self.now.state.service.plain) }
    {
        self.store.due(self.store.now() + 1)
    }

    /// Returns the paths of the nodes that the next tick removes as stale, in their order; or
    /// `Memory`. The cost depends on the number of containers and nodes with a TTL.
    pub fn stale(&self) -> Result<Vec<Path>, Memory>
        requires whole { self.now.is_broken ≡ false }
        ensures { IfOk result (λ paths. paths.items ≡ stale_next self.now.state.service.plain) }
    {
        self.store.stale_paths(self.store.now() + 1)
    }

    /// Returns the paths of the nodes that a session owns, in their order; or `Memory`. A session
    /// that isn't there owns none. The cost depends on the number of these nodes.
    pub fn owned(&self, session: SessionId) -> Result<Vec<Path>, Memory>
        requires whole { self.now.is_broken ≡ false }
        ensures owned { IfOk result (λ paths.
            IsSome (get self.now.state.service.plain.sessions session)
            → paths.items ≡ ephemerals self.now.state.service.plain.nodes session) }
        ensures gone { IfOk result (λ paths.
            get self.now.state.service.plain.sessions session ≡ None → paths.items ≡ []) }
    {
        self.store.owned(session)
    }

    /// Returns the zxid of the last change.
    pub fn zxid(&self) -> Zxid
        requires whole { self.now.is_broken ≡ false }
        ensures { result ≡ self.now.state.service.plain.zxid }
    {
        self.store.zxid()
    }

    /// Returns the paths of all nodes in their order, or `Memory`. A parent comes before its
    /// children.
    pub fn paths(&self) -> Result<Vec<Path>, Memory>
        requires whole { self.now.is_broken ≡ false }
        ensures paths { IfOk result (λ paths.
            paths.items ≡ keys self.now.state.service.plain.nodes) }
        // So the rows read from here restore it: each can be put.
        ensures settled { IsSettled self.now.state.service.plain }
    {
        self.store.keeps_lawful();
        self.store.paths()
    }

    /// Returns the node at a path, or `None` if there is no such node.
    pub fn node(&self, path: &Path) -> Option<&Node>
        requires whole { self.now.is_broken ≡ false }
        ensures node { IfSome result (λ n.
            get self.now.state.service.plain.nodes path.now ≡ Some n.now) }
        ensures there { is_some result ≡ has_node self.now.state.service.plain.nodes path.now }
    {
        let id = self.store.find(path)?;
        self.store.node(id)
    }

    /// Returns the ids of all sessions in their order, or `Memory`.
    pub fn session_ids(&self) -> Result<Vec<SessionId>, Memory>
        requires whole { self.now.is_broken ≡ false }
        ensures { IfOk result (λ ids.
            ids.items ≡ keys self.now.state.service.plain.sessions) }
    {
        self.store.session_ids()
    }

    /// Returns the session with this id, if it exists.
    pub fn session(&self, id: SessionId) -> Option<Session>
        requires whole { self.now.is_broken ≡ false }
        ensures { result ≡ get self.now.state.service.plain.sessions id }
    {
        self.store.session(id)
    }

    /// Returns the clients with a cached reply in their order, or `Memory`.
    pub fn clients(&self) -> Result<Vec<ClientId>, Memory>
        requires whole { self.now.is_broken ≡ false }
        ensures clients { IfOk result (λ clients.
            clients.items ≡ keys self.now.state.service.kept) }
        ensures few { IfOk result (λ clients. length clients.items ≤ MAX_CLIENTS) }
    {
        self.kept.clients(self.alloc)
    }

    /// Returns the client's cached reply with the number of its call, if there is one.
    pub fn kept(&self, client: ClientId) -> Option<(CallNumber, &Reply)>
        requires whole { self.now.is_broken ≡ false }
        ensures kept { IfSome result (λ kept. get self.now.state.service.kept client
            ≡ Some (record { number = kept.0; reply = kept.1.now })) }
        ensures of_update { IfSome result (λ kept. IsOfUpdate kept.1.now) }
        ensures none { IfNone result (get self.now.state.service.kept client ≡ None) }
    {
        self.kept.get(client)
    }
}
