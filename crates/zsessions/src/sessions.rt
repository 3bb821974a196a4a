//! The sessions as one value.

ghost use Rattle.std.specs.Prelude.{◌≡◌, None, IfOk, OnOk, OnErr, IsSome};
ghost use Rattle.std.specs.FinMap as finite;
ghost use Rattle.std.specs.FinMap.{get};
ghost use Rattle.ztree.specs.Sessions.{due_sessions};
ghost use Rattle.zsessions.specs.Deadlines.{with_deadline, renewed_if, is_held_by, HasTimeFor, NoneLate};

use crate::table::Table;
use std::alloc::Global;
use std::marker::Model;
use zalloc::Memory;
use zslots::limits::GIVEN_BOUND;
use ztree::{ClientId, Session, SessionId};

/// The sessions by id.
#[derive(Drop)]
pub struct Sessions {
    table: Table,
}

impl Model for Sessions {
    ghost use Rattle.ztree.specs.Tree.{Sessions as SessionMap};
    ghost use Rattle.zsessions.specs.support.TableView.{coded_sessions};

    ghost Value = { SessionMap };

    ghost coded = { coded_sessions };

    ghost view = { λ s. s.table.sessions };
}

impl Sessions {
    /// Returns an empty table of sessions. Allocates nothing.
    pub fn new(alloc: Global) -> Sessions
        ensures { result ≡ finite.empty }
    {
        Sessions {
            table: Table::new(alloc),
        }
    }

    /// Returns the number of sessions.
    pub fn len(&self) -> usize
        ensures { result ≡ finite.len self.now }
    {
        self.table.len()
    }

    /// Returns the session with this id, if it exists.
    pub fn get(&self, id: SessionId) -> Option<Session>
        ensures { result ≡ get self.now id }
    {
        self.table.get(id)
    }

    /// Returns the ids of all sessions, in order; or `Memory`.
    pub fn ids(&self) -> Result<Vec<SessionId>, Memory>
        ensures { IfOk result (λ ids. ids.items ≡ finite.keys self.now) }
    {
        self.table.ids()
    }

    /// Returns the ids of the sessions that expire at the tick, in order; or `Memory`. No deadline
    /// may be before the tick. Reads only sessions whose deadline equals the tick modulo 32.
    pub fn due(&self, tick: u64) -> Result<Vec<SessionId>, Memory>
        requires none_late { NoneLate self.now tick }
        ensures { IfOk result (λ ids. ids.items ≡ due_sessions self.now tick) }
    {
        self.table.due(tick)
    }

    /// Adds a session under a free id. After `Memory` nothing has changed.
    pub fn open(&mut self, id: SessionId, session: Session) -> Result<(), Memory>
        requires free { get self.old id ≡ None }
        ensures ok { OnOk result (self.new ≡ finite.insert self.old id session) }
        ensures err { OnErr result (self.new ≡ self.old) }
    {
        // Once all Ids have been given out, the rows get new ones.
        if self.table.given() >= GIVEN_BOUND {
            self.table = self.table.copy()?;
        }
        self.table.open(id, session)
    }

    /// Writes the deadline of an existing session. Allocates nothing.
    pub fn renew(&mut self, id: SessionId, deadline: u64)
        requires live { IsSome (get self.old id) }
        ensures { self.new ≡ with_deadline self.old id deadline }
    {
        self.table.renew(id, deadline);
    }

    /// Renews a client's session: its deadline becomes its timeout from this tick on. Returns
    /// whether the client has that session; if not, nothing changes. Looks the session up once, and
    /// allocates nothing.
    pub fn keep_alive(&mut self, client: ClientId, id: SessionId, now: u64) -> bool
        requires deadline { HasTimeFor self.old id now }
        ensures held { result ≡ is_held_by self.old client id }
        ensures renewed { self.new ≡ renewed_if result self.old id now }
    {
        self.table.keep_alive(client, id, now)
    }

    /// Removes an existing session. Allocates nothing.
    pub fn end(&mut self, id: SessionId)
        requires live { IsSome (get self.old id) }
        ensures { self.new ≡ finite.remove self.old id }
    {
        self.table.end(id);
    }

    /// Returns a copy of the sessions, or `Memory`.
    pub fn copy(&self) -> Result<Sessions, Memory>
        ensures { IfOk result (λ copy. copy ≡ self.now) }
    {
        let table = self.table.copy()?;
        Ok(Sessions { table })
    }
}
