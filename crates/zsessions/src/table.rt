//! The rows of sessions, by id and by bucket.
//!
//! # Why
//! A `HashMap` of at most 1,024 numbers, with one lookup in each call. A ping finds the session,
//! tests its client and moves its deadline in one lookup (`keep_alive`).

ghost use Rattle.std.specs.Prelude.{◌≡◌, ◌+◌, ◌<◌, ◌≤◌, nat_eq, None, IfOk, OnOk, OnErr, IsSome};
ghost use Rattle.std.specs.FinMap as finite;
ghost use Rattle.std.specs.List.{IsDistinct};
ghost use Rattle.std.specs.Map.{keys_of};
ghost use Rattle.std.specs.FinMap.{get};
ghost use Rattle.ztree.specs.Sessions.{due_sessions};
ghost use Rattle.ztree.specs.declared.session.Session.{Session};
ghost use Rattle.zslots.specs.declared.limits.TheConstants.{GIVEN_BOUND};
ghost use Rattle.zsessions.specs.support.Rows.{found_at};
ghost use Rattle.zsessions.specs.Deadlines.{with_deadline, renewed_if, is_held_by, HasTimeFor, NoneLate};

use crate::anew::opened_anew;
use crate::buckets::{file, place, refile, session_of, unfile};
use crate::limits::BUCKETS;
use crate::reached::reached;
use crate::row::SessionRow;
use std::alloc::Global;
use std::collections::HashMap;
use std::marker::Model;
use zalloc::Memory;
use zslots::{Id, Links, List, Slots};
use ztree::{ClientId, Session, SessionId};

/// The rows of sessions, and the number of Ids given out for them.
#[derive(Drop)]
pub(crate) struct Table {
    rows: Slots<SessionRow>,
    ids: HashMap<u64, Id>,
    buckets: [List<0>; BUCKETS],
    alloc: Global,
}

impl Model for Table {
    ghost use Rattle.zsessions.specs.support.TableView.{TableView, coded_table};

    ghost Value = { TableView };

    ghost coded = { coded_table };

    ghost use Rattle.zsessions.specs.support.Fields.{view_of};
    ghost use Rattle.zsessions.specs.support.Rows.{IsTable};

    ghost view = { view_of };

    ghost invariant = { λ t. IsTable t.ids.entries t.rows.items t.buckets };
}

impl Table {
    /// Returns a table without sessions.
    pub(crate) fn new(alloc: Global) -> Table
        ensures sessions { result.sessions ≡ finite.empty }
        ensures given { result.given ≡ 0 }
    {
        Table {
            rows: Slots::new(alloc),
            ids: HashMap::new(alloc),
            buckets: [List::new(); BUCKETS],
            alloc,
        }
    }

    /// Returns the number of Ids given out for rows.
    pub(crate) fn given(&self) -> u128
        ensures { result ≡ self.now.given }
    {
        self.rows.given()
    }

    /// Returns the number of sessions.
    pub(crate) fn len(&self) -> usize
        ensures { result ≡ finite.len self.now.sessions }
    {
        self.ids.len()
    }

    /// Returns the session with this id, if it exists.
    pub(crate) fn get(&self, id: SessionId) -> Option<Session>
        ensures { result ≡ get self.now.sessions id }
    {
        match found(&self.ids, &self.rows, id) {
            Some((_, session)) => Some(session),
            None => None,
        }
    }

    /// Returns the ids of all sessions, in order; or `Memory`.
    pub(crate) fn ids(&self) -> Result<Vec<SessionId>, Memory>
        ensures { IfOk result (λ ids. ids.items ≡ finite.keys self.now.sessions) }
    {
        let mut ids = ids_of_all(self.alloc, &self.ids)?;
        ids.sort_unstable();
        Ok(ids)
    }

    /// Returns the ids of the sessions that expire at the tick, in order; or `Memory`.
    pub(crate) fn due(&self, tick: u64) -> Result<Vec<SessionId>, Memory>
        requires none_late { NoneLate self.now.sessions tick }
        ensures { IfOk result (λ ids. ids.items ≡ due_sessions self.now.sessions tick) }
    {
        let mut ids = reached(self.alloc, &self.rows, &self.buckets[place(tick)], tick)?;
        ids.sort_unstable();
        Ok(ids)
    }

    /// Returns a copy with the same sessions, under freshly numbered Ids; or `Memory`.
    pub(crate) fn copy(&self) -> Result<Table, Memory>
        ensures sessions { IfOk result (λ copy. copy.sessions ≡ self.now.sessions) }
        ensures given { IfOk result (λ copy. copy.given < GIVEN_BOUND) }
    {
        opened_anew(self.alloc, &self.rows, &self.ids)
    }

    /// Adds a session. After `Memory` the sessions are unchanged.
    pub(crate) fn open(&mut self, id: SessionId, session: Session) -> Result<(), Memory>
        requires free { get self.old.sessions id ≡ None }
        requires given { self.old.given < GIVEN_BOUND }
        ensures sessions { OnOk result
            (self.new.sessions ≡ finite.insert self.old.sessions id session) }
        ensures err { OnErr result (self.new.sessions ≡ self.old.sessions) }
        ensures given { self.new.given ≤ self.old.given + 1 }
    {
        let due = session.deadline;
        let links = Links {
            next: None,
            prev: None,
        };
        let Ok(at) = self.rows.insert(SessionRow { id, session, links }) else {
            return Err(Memory);
        };
        let Ok(_) = self.ids.insert(id.number(), at) else {
            self.rows.remove(at);
            return Err(Memory);
        };
        file(&mut self.rows, &mut self.buckets, due, at);
        Ok(())
    }

    /// Writes a session's deadline.
    pub(crate) fn renew(&mut self, id: SessionId, deadline: u64)
        requires { IsSome (get self.old.sessions id) }
        ensures sessions { self.new.sessions ≡ with_deadline self.old.sessions id deadline }
        ensures given { self.new.given ≡ self.old.given }
    {
        if let Some((at, session)) = found(&self.ids, &self.rows, id) {
            refile(
                &mut self.rows,
                &mut self.buckets,
                session.deadline,
                deadline,
                at,
            );
        }
    }

    /// Renews a client's session. Returns whether the client has it.
    pub(crate) fn keep_alive(&mut self, client: ClientId, id: SessionId, now: u64) -> bool
        requires { HasTimeFor self.old.sessions id now }
        ensures held { result ≡ is_held_by self.old.sessions client id }
        ensures sessions { self.new.sessions ≡ renewed_if result self.old.sessions id now }
        ensures given { self.new.given ≡ self.old.given }
    {
        let Some((at, session)) = found(&self.ids, &self.rows, id) else {
            return false;
        };
        if session.client != client {
            return false;
        }
        let deadline = now + session.timeout;
        // If it was already renewed at this tick, there is nothing to write.
        if deadline != session.deadline {
            refile(
                &mut self.rows,
                &mut self.buckets,
                session.deadline,
                deadline,
                at,
            );
        }
        true
    }

    /// Removes a session.
    pub(crate) fn end(&mut self, id: SessionId)
        requires { IsSome (get self.old.sessions id) }
        ensures sessions { self.new.sessions ≡ finite.remove self.old.sessions id }
        ensures given { self.new.given ≡ self.old.given }
    {
        let Some(at) = self.ids.remove(&id.number()) else {
            return;
        };
        let Some(last) = session_of(&self.rows, at) else {
            return;
        };
        unfile(&mut self.rows, &mut self.buckets, last.deadline, at);
        self.rows.remove(at);
    }
}

// Returns the Id of a session's row, and the session: a call finds both in one lookup.
fn found(ids: &HashMap<u64, Id>, rows: &Slots<SessionRow>, id: SessionId) -> Option<(Id, Session)>
    ensures { result ≡ found_at ids.now.entries rows.now.items id }
{
    let at = ids.get(&id.number()).copied()?;
    match session_of(rows, at) {
        Some(session) => Some((at, session)),
        None => None,
    }
}

// Returns the ids of sessions in the order of the map, each once; or `Memory`.
fn ids_of_all(alloc: Global, ids: &HashMap<u64, Id>) -> Result<Vec<SessionId>, Memory>
    ensures all { IfOk result (λ found. found.items ≡ keys_of ids.now.entries) }
    ensures apart { IfOk result (λ found. IsDistinct nat_eq found.items) }
{
    let mut found = Vec::with_capacity(alloc, ids.len())?;
    for (number, _) in ids {
        found.push(SessionId::new(*number))?;
    }
    Ok(found)
}
