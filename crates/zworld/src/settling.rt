//! Settling (running until quiescent): passes over all channels, one retry of each waiting client,
//! and passes again.
//!
//! # Why
//!
//! A pass goes from one channel that holds messages to the next, so a pass that delivers nothing
//! costs almost nothing. Notices and waiting clients are counted, and looked for only where there
//! are some.
//!
//! A call in a quiescent world has no faster path of its own. It would save part of a line's cost
//! over one server and nothing over a chain, and need a lemma that both paths agree.

ghost use Rattle.std.specs.Prelude.{◌≡◌, ◌==◌, ◌≤◌, ◌<◌, ◌-◌, ◌&&◌, IfOk, OnErr};
ghost use Rattle.std.specs.Prelude.{if◌then◌else◌};
ghost use Rattle.ztree.specs.declared.limits.TheConstants.{MAX_CLIENTS};
ghost use Rattle.zprotocol.specs.declared.world.settled.Settled.TheVariants.{Limit, Quiet};
ghost use Rattle.zprotocol.specs.world.Settle.{deliveries, retry_events};
ghost use Rattle.zworld.specs.Did.{is_idle, is_short};
ghost use Rattle.zworld.specs.support.Stepped.{Settles};
ghost use Rattle.zworld.specs.support.Settling.{CanRunOut, StillOrCould};
ghost use Rattle.zworld.specs.support.Settling.{GoOn, PassesBy, TriesBy, TriesUnseen};

use crate::did::Did;
use crate::processes::Processes;
use zalloc::Memory;
use zcalls::ClientId;
use zprotocol::world::{CallEvent, Settled};
use zprotocol::{MAX_SERVERS, Process};

impl Processes {
    /// Settles, with at most `limit` events: passes, a retry of each waiting client, and passes
    /// again. Where no client waits, those would do nothing, and aren't made. Where it is strict,
    /// it is out of memory as soon as a server is.
    pub(crate) fn settle(
        &mut self,
        limit: usize,
        strict: bool,
        seen: &mut Vec<CallEvent>,
    ) -> Result<Settled, Memory>
        ensures settled { IfOk result
            (Settles strict self.old self.new limit seen.old.items seen.new.items) }
        ensures partly { OnErr result (GoOn seen.new.items seen.old.items) }
        ensures needed { OnErr result (CanRunOut self.old limit) }
    {
        let clients = self.clients();
        let left = self.passes(clients, limit, limit, strict, seen)?;
        if self.waiting == 0 {
            return Ok(settled(left));
        }
        let left = self.retry_all(clients, left)?;
        let left = self.passes(clients, limit, left, strict, seen)?;
        Ok(settled(left))
    }

    // Makes passes over all channels until one does nothing; returns how many events are left.
    fn passes(
        &mut self,
        clients: u8,
        limit: usize,
        mut left: usize,
        strict: bool,
        seen: &mut Vec<CallEvent>,
    ) -> Result<usize, Memory>
        requires { clients ≤ MAX_CLIENTS }
        ensures done { IfOk result
            (PassesBy strict clients limit self.old self.new seen.old seen.new left) }
        ensures moved { IfOk result (StillOrCould self.old self.new left) }
        ensures partly { OnErr result (GoOn seen.new.items seen.old.items) }
        ensures needed { OnErr result (CanRunOut self.old left) }
    {
        for pass in 0..limit {
            let before = left;
            left = self.pass(clients, before, strict, seen)?;
            if left == before {
                return Ok(left);
            }
        }
        Ok(left)
    }

    // Makes one pass: a message from each channel, by sender and then by receiver, while more
    // events may be done. Returns how many are left. It skips channels with nothing in flight when
    // it comes to them.
    fn pass(
        &mut self,
        clients: u8,
        mut left: usize,
        strict: bool,
        seen: &mut Vec<CallEvent>,
    ) -> Result<usize, Memory>
        requires { clients ≤ MAX_CLIENTS }
        ensures done { IfOk result
            (TriesBy strict (deliveries clients) self.old self.new seen.old seen.new left) }
        ensures moved { IfOk result (StillOrCould self.old self.new left) }
        ensures partly { OnErr result (GoOn seen.new.items seen.old.items) }
        ensures needed { OnErr result (CanRunOut self.old left) }
    {
        let count = 1 + MAX_SERVERS as usize + clients as usize;
        let mut turn = self.links.next_turn(0, 0);
        while turn.sender < count {
            if turn.receiver >= count {
                turn = self.links.next_turn(turn.sender, turn.receiver + 1);
                continue;
            }
            let Some(from) = Process::at(turn.sender) else {
                unreachable!();
            };
            let Some(to) = Process::at(turn.receiver) else {
                unreachable!();
            };
            if left == 0 {
                return Ok(left);
            }
            let did = self.take(from, to, seen)?;
            if must_stop(strict, did) {
                return Err(Memory);
            }
            left = left_after(left, did);
            turn = self.links.next_turn(turn.sender, turn.receiver + 1);
        }
        Ok(left)
    }

    // Each waiting client sends its call once more, while more events may be done. Returns how many
    // are left.
    fn retry_all(&mut self, clients: u8, mut left: usize) -> Result<usize, Memory>
        requires { clients ≤ MAX_CLIENTS }
        ensures done { IfOk result (TriesUnseen (retry_events clients) self.old self.new left) }
        ensures moved { IfOk result (StillOrCould self.old self.new left) }
        ensures needed { OnErr result (CanRunOut self.old left) }
    {
        for number in 0..clients {
            let Some(client) = ClientId::new(number) else {
                unreachable!();
            };
            if left == 0 {
                return Ok(left);
            }
            let did = self.retry(client)?;
            left = left_after(left, did);
        }
        Ok(left)
    }
}

// Returns how settling ended, by how many more events may be done.
fn settled(left: usize) -> Settled
    ensures { result ≡ (if left == 0 then Limit else Quiet) }
{
    if left == 0 {
        Settled::Limit
    } else {
        Settled::Quiet
    }
}

// Returns how many more events may be done after one that was tried.
fn left_after(left: usize, did: Did) -> usize
    requires { 0 < left }
    ensures { result ≡ (if is_idle did then left else left - 1) }
{
    match did {
        Did::Idle(_) => left,
        Did::Done | Did::Unheard | Did::Stopped => left - 1,
    }
}

// Returns whether settling stops at what became of an event: a server ran out of memory, and none
// may.
fn must_stop(strict: bool, did: Did) -> bool
    ensures { result ≡ (strict && is_short did) }
{
    strict && did.is_short()
}
