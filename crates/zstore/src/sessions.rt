//! Reading and changing sessions, and the clock.
//!
//! # Why
//! `end_session` removes the nodes in the order of its list, the definition in the order of paths.
//! Removing two nodes in either order leaves the same tree (`proofs/order`).

ghost use Rattle.std.specs.Prelude.{◌≡◌, ◌<◌, ◌+◌, [], None, Some, IsTrue, IsFalse, IfOk, IfSome, IfNone, OnOk, OnErr, IsSome};
ghost use Rattle.std.specs.FinMap as finite;
ghost use Rattle.std.specs.FinMap.{get};
ghost use Rattle.ztree.specs.Tree.{ephemerals};
ghost use Rattle.ztree.specs.Sessions.{with_session, with_renewed_session, without_session, due_sessions, with_next_tick};
ghost use Rattle.ztree.specs.Lawful.{IsLawful};
ghost use Rattle.ztree.specs.declared.limits.TheConstants.{ZXID_BOUND, TICK_BOUND, DEADLINE_BOUND};
ghost use Rattle.ztree.specs.Room.{HasRoomForEnd, HasRoomForDeadline};
ghost use Rattle.zsessions.specs.Deadlines.{is_held_by};
ghost use Rattle.zstore.specs.Restored.{with_session_row, CanPutSession};
ghost use Rattle.zstore.specs.StoreView.{AtSession, KeepsIds, ForgetsGone};
ghost use Rattle.zstore.specs.support.Parts.{tree_without_session, IsOwned};

use crate::store::Store;
use zalloc::Memory;
use znodes::Id;
use ztree::{ClientId, Session, SessionId};

impl Store {
    /// Returns the session with this id, if it exists.
    pub fn session(&self, id: SessionId) -> Option<Session>
        ensures { result ≡ get self.now.tree.sessions id }
    {
        self.sessions.get(id)
    }

    /// Returns the ids of the sessions that expire at the next tick, in order; or `Memory`.
    pub fn due(&self, tick: u64) -> Result<Vec<SessionId>, Memory>
        requires next { tick ≡ self.now.tree.time + 1 }
        ensures { IfOk result (λ ids. ids.items ≡ due_sessions self.now.tree.sessions tick) }
    {
        self.sessions.due(tick)
    }

    /// Opens a session. Its id is the zxid of the next change, and its deadline is its timeout from
    /// now. The caller has validated the request. After `Memory` nothing has changed.
    pub fn open_session(&mut self, client: ClientId, timeout: u64) -> Result<(), Memory>
        requires free { get self.old.tree.sessions (self.old.tree.zxid + 1) ≡ None }
        requires few { finite.len self.old.tree.sessions < self.old.tree.limits.sessions }
        requires lives { 0 < timeout }
        requires deadline { self.old.tree.time + timeout < DEADLINE_BOUND }
        requires zxid { self.old.tree.zxid + 1 < ZXID_BOUND }
        ensures tree { OnOk result (self.new.tree ≡ with_session self.old.tree client timeout) }
        ensures same { OnOk result (KeepsIds self.old self.new) }
        ensures unmarked { OnOk result (self.new.marked ≡ None) }
        ensures err { OnErr result (self.new ≡ self.old) }
    {
        let id = SessionId::of(self.zxid.next());
        let session = Session {
            client,
            timeout,
            deadline: self.time + timeout,
        };
        self.add_session(id, session)
    }

    /// Adds a session that can be put. After `Memory` nothing has changed.
    pub(crate) fn add_session(&mut self, id: SessionId, session: Session) -> Result<(), Memory>
        requires can { CanPutSession self.old.tree id session }
        ensures tree { OnOk result (self.new.tree ≡ with_session_row self.old.tree id session) }
        ensures same { OnOk result (KeepsIds self.old self.new) }
        ensures unmarked { OnOk result (self.new.marked ≡ None) }
        ensures err { OnErr result (self.new ≡ self.old) }
    {
        self.nodes.open_owner(id.number())?;
        if let Err(memory) = self.sessions.open(id, session) {
            self.nodes.close_owner(id.number());
            return Err(memory);
        }
        self.log.stop(&mut self.nodes);
        Ok(())
    }

    /// Renews a session: its deadline becomes its timeout from now. Allocates nothing.
    pub fn touch(&mut self, id: SessionId)
        requires live { IsSome (get self.old.tree.sessions id) }
        requires deadline { AtSession self.old id (λ s.
            HasRoomForDeadline self.old.tree.time s.timeout) }
        ensures tree { self.new.tree ≡ with_renewed_session self.old.tree id }
        ensures same { KeepsIds self.old self.new }
        ensures unmarked { self.new.marked ≡ None }
    {
        if let Some(session) = self.sessions.get(id) {
            self.sessions.renew(id, self.time + session.timeout);
            self.log.stop(&mut self.nodes);
        }
    }

    /// Renews a client's session: its deadline becomes its timeout from now. Returns whether the
    /// client has that session; if not, nothing changes. Looks the session up once, and allocates
    /// nothing.
    pub fn keep_alive(&mut self, client: ClientId, id: SessionId) -> bool
        requires deadline { AtSession self.old id (λ s.
            HasRoomForDeadline self.old.tree.time s.timeout) }
        ensures held { result ≡ is_held_by self.old.tree.sessions client id }
        ensures tree { IsTrue result → self.new.tree ≡ with_renewed_session self.old.tree id }
        ensures same { KeepsIds self.old self.new }
        ensures unmarked { IsTrue result → self.new.marked ≡ None }
        ensures other { IsFalse result → self.new ≡ self.old }
    {
        if !self.sessions.keep_alive(client, id, self.time) {
            return false;
        }
        self.log.stop(&mut self.nodes);
        true
    }

    /// Ends a session by the next change: removes it and every node that it owns. The Ids of these
    /// nodes name nothing any more. Allocates nothing. The cost depends on the number of these
    /// nodes.
    pub fn end_session(&mut self, id: SessionId)
        requires live { IsSome (get self.old.tree.sessions id) }
        requires counters { HasRoomForEnd self.old.tree id }
        requires zxid { self.old.tree.zxid + 1 < ZXID_BOUND }
        ensures tree { self.new.tree ≡ without_session self.old.tree id }
        ensures forgotten { ForgetsGone self.old self.new }
        ensures given { self.new.given ≡ self.old.given }
        ensures unmarked { self.new.marked ≡ None }
    {
        self.is_kept_named();
        self.keeps_lawful();
        while let Some(ephemeral) = self.first_owned(id) {
            self.drop_leaf(ephemeral);
        }
        self.forget(id);
    }

    /// Advances the clock by one tick. No session may expire at it: end those first.
    pub fn advance(&mut self)
        requires none_due { due_sessions self.old.tree.sessions (self.old.tree.time + 1) ≡ [] }
        requires ticks { self.old.tree.time + 1 < TICK_BOUND }
        ensures tree { self.new.tree ≡ with_next_tick self.old.tree }
        ensures same { KeepsIds self.old self.new }
        ensures unmarked { self.new.marked ≡ None }
    {
        self.time += 1;
        self.log.stop(&mut self.nodes);
    }

    // An invariant of every store: an Id that names a path names an existing node.
    fn is_kept_named(&self)
        ensures { ForgetsGone self.now self.now }
    {
        // Reading the store brings its invariant into the proof.
        let _ = &self.time;
    }

    // Returns some node that a live session owns, or `None` if it owns none.
    fn first_owned(&self, session: SessionId) -> Option<Id>
        requires live { IsSome (get self.now.tree.sessions session) }
        ensures lawful { IsLawful self.now.tree }
        ensures found { IfSome result (IsOwned self.now session) }
        ensures absent { IfNone result (ephemerals self.now.tree.nodes session ≡ []) }
    {
        self.nodes.first_owned(session.number())
    }

    // Removes a session that owns no node.
    fn forget(&mut self, session: SessionId)
        requires live { IsSome (get self.old.tree.sessions session) }
        requires owns_none { ephemerals self.old.tree.nodes session ≡ [] }
        ensures tree { self.new.tree ≡ tree_without_session self.old.tree session }
        ensures same { KeepsIds self.old self.new }
        ensures unmarked { self.new.marked ≡ None }
    {
        self.nodes.close_owner(session.number());
        self.sessions.end(session);
        self.log.stop(&mut self.nodes);
    }
}
