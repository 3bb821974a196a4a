//! The failure notices in flight.
//!
//! # Why
//!
//! A server may stop out of memory, and its notice has to be sent then. All notices are alike, so
//! one bit each is enough.

ghost use Rattle.std.specs.Prelude.{◌≡◌, ◌<◌, ◌≤◌, true, false, ◌&&◌, ◌||◌, ◌⊎◌, not};
ghost use Rattle.zprotocol.specs.declared.limits.TheConstants.{PROCESSES};
ghost use Rattle.zprotocol.specs.declared.process.Process.TheVariants.{Master, Server};
ghost use Rattle.zprotocol.specs.world.Links.{is_same};
ghost use Rattle.zworld.specs.links.Places.{is_noted, At, Between, Reaches};

use crate::links::turn::Turn;
use std::marker::Model;
use zprotocol::{MAX_SERVERS, Process, ServerId};

const NUMBERS: usize = MAX_SERVERS as usize + 1;

/// The servers that have sent their failure notice, by number, and how many they are. There is room
/// for all, so a notice allocates nothing. Mostly the count is 0, and no flag is read.
#[derive(Drop)]
pub(crate) struct Notices {
    noted: [bool; NUMBERS],
    count: usize,
}

impl Model for Notices {
    ghost use Rattle.std.specs.Prelude.{◌≡◌, Bool, List};
    ghost use Rattle.zworld.specs.links.support.Counts.{passing};

    ghost Value = { List Bool };

    ghost view = { λ notices. notices.noted };

    ghost invariant = { λ notices. notices.count ≡ passing (λ noted. noted) notices.noted };
}

impl Notices {
    /// Returns no notices.
    pub(crate) fn none() -> Notices
        ensures { (p : Process) → is_noted result p ≡ false }
    {
        Notices {
            noted: [false; NUMBERS],
            count: 0,
        }
    }

    /// Returns whether there is none.
    pub(crate) fn are_none(&self) -> bool
        ensures { result ≡ true → (p : Process) → is_noted self.now p ≡ false }
    {
        self.count == 0
    }

    /// Returns whether there is one from a process to another.
    pub(crate) fn is_between(&self, from: &Process, to: &Process) -> bool
        ensures { result ≡ (is_noted self.now from.now && is_same to.now Master) }
    {
        if self.count == 0 {
            return false;
        }
        match (from, to) {
            (Process::Server(server), Process::Master) => self.noted[server.number() as usize],
            _ => false,
        }
    }

    /// Adds a server's notice.
    pub(crate) fn put(&mut self, server: ServerId)
        requires { is_noted self.old (Server server) ≡ false }
        ensures { (p : Process) → is_noted self.new p
            ≡ (is_same p (Server server) || is_noted self.old p) }
    {
        self.noted[server.number() as usize] = true;
        self.count += 1;
    }

    /// Removes the notice from a process to another; returns whether there was one.
    pub(crate) fn take(&mut self, from: &Process, to: &Process) -> bool
        ensures found { result ≡ (is_noted self.old from.now && is_same to.now Master) }
        ensures left { (p : Process) → is_noted self.new p
            ≡ (is_noted self.old p && not (is_same p from.now && is_same to.now Master)) }
        ensures same { result ≡ false → self.new ≡ self.old }
    {
        if !self.is_between(from, to) {
            return false;
        }
        let Process::Server(server) = from else {
            unreachable!();
        };
        self.noted[server.number() as usize] = false;
        self.count -= 1;
        true
    }

    /// Drops all notices to a process.
    pub(crate) fn clear(&mut self, to: &Process)
        ensures { (p : Process) → is_noted self.new p
            ≡ (is_noted self.old p && not (is_same to.now Master)) }
    {
        if let Process::Master = to {
            *self = Notices::none();
        }
    }

    /// Returns the channel of the first notice from these positions on, where it comes before
    /// `next`; else `next`.
    #[cold]
    #[inline(never)]
    pub(crate) fn sooner(&self, from: usize, to: usize, next: Turn) -> Turn
        requires { (next.sender ≤ PROCESSES) × (next.receiver < PROCESSES) }
        ensures few { (result.sender ≤ PROCESSES) × (result.receiver < PROCESSES) }
        ensures ahead { Reaches from to next.sender next.receiver
            → Reaches from to result.sender result.receiver }
        ensures sooner { Reaches result.sender result.receiver next.sender next.receiver }
        ensures silent { Between from to result
            (λ p q. (is_noted self.now p && is_same q Master) ≡ false) }
        ensures noted { (result ≡ next)
            ⊎ At result (λ p q. (is_noted self.now p && is_same q Master) ≡ true) }
    {
        for server in 1..NUMBERS {
            let is_ahead = server > from || (server == from && to == 0);
            if is_ahead && server <= next.sender && self.noted[server] {
                return Turn {
                    sender: server,
                    receiver: 0,
                };
            }
        }
        next
    }
}
