//! Ticks.
//!
//! # Why
//!
//! Sessions are renewed at ticks only, by one ping for each that sent a request since the last tick
//! but one. Deadlines are checked only there, so a call for each request would double the cost and
//! change nothing.

ghost use Rattle.std.specs.Prelude.{◌≡◌, IfOk, OnOk};
ghost use Rattle.zfront.specs.Ticking.{tick_calls, Ticks, TicksBy};

use crate::inner::Inner;
use std::alloc::Global;
use zalloc::Memory;
use zcalls::{Call, Update};
use ztree::SessionId;
use ztree_service::TreeService;

impl<T: TreeService> Inner<T> {
    // Renews the sessions that sent a request since the last tick but one, then advances the time.
    pub(crate) fn tick(&mut self) -> Result<(), Memory>
        ensures { OnOk result (Ticks self.old self.new) }
    {
        let sessions = self.tables.touched()?;
        let calls = tick_calls(self.alloc, &sessions)?;
        self.make_tick(&calls)
    }

    // Makes the calls of a tick. For each session, a request since the last tick is one before it.
    fn make_tick(&mut self, calls: &[Call]) -> Result<(), Memory>
        ensures { OnOk result (TicksBy calls.now self.old self.new) }
    {
        let ids = self.ending(calls)?;
        let paths = self.watched(calls, &ids)?;
        let replies = self.ask(calls)?;
        self.tables.rest();
        self.tidy(calls, &replies, &ids, &paths)
    }
}

// Returns the calls of a tick.
fn tick_calls(alloc: Global, sessions: &[SessionId]) -> Result<Vec<Call>, Memory>
    ensures { IfOk result (λ calls. calls.items ≡ tick_calls sessions.now) }
{
    let mut calls = Vec::new(alloc);
    for session in sessions {
        calls.push(Call::Update(Update::Ping(*session)))?;
    }
    calls.push(Call::Update(Update::Tick))?;
    Ok(calls)
}
