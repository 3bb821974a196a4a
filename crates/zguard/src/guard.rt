//! The guard.

ghost use Rattle.std.specs.Prelude.{◌≡◌, ℕ, List, IfOk, OnErr, OnOk};
ghost use Rattle.zguard.specs.Guarding as table;
ghost use Rattle.zguard.specs.Guarding.{answer_at, answered, bytes_passed, came, guard_of, opened};

use crate::heard::Heard;
use crate::hearing::{hear_greeting, hear_stranger};
use crate::passed::Passed;
use crate::visitor::Standing;
use crate::visitors::Visitors;
use std::alloc::Global;
use std::marker::Model;
use zalloc::Memory;
use zlogins::Logins;

/// The guard before a server: it knows the logins, and what each connection has given.
#[derive(Drop)]
pub struct Guard {
    alloc: Global,
    logins: Logins,
    visitors: Visitors,
}

impl Model for Guard {
    ghost use Rattle.zguard.specs.Guarding.{GuardView};
    ghost use Rattle.zguard.specs.support.Codes.{coded_guard};

    ghost Value = { GuardView };

    ghost coded = { coded_guard };

    ghost view = { λ g. record { logins = g.logins; visitors = g.visitors } };
}

impl Guard {
    /// Returns a guard with these logins, without connections.
    pub fn new(alloc: Global, logins: Logins) -> Guard
        ensures { result ≡ guard_of logins }
    {
        Guard {
            alloc,
            logins,
            visitors: Visitors::new(alloc),
        }
    }

    /// A connection was opened. After `Memory` nothing has changed.
    pub fn open(&mut self, connection: u32) -> Result<(), Memory>
        ensures ok { OnOk result (self.new ≡ opened connection self.old) }
        ensures err { OnErr result (self.new ≡ self.old) }
    {
        self.visitors.open(connection)
    }

    /// Bytes came on a connection. Returns what the server gets in their place. After `Memory`
    /// nothing is promised of that connection.
    pub fn hear(&mut self, connection: u32, bytes: &[u8]) -> Result<Passed, Memory>
        ensures passed { IfOk result (λ passed.
            bytes_passed bytes.now passed ≡ (came connection bytes.now self.old).passed) }
        ensures after { OnOk result (self.new ≡ (came connection bytes.now self.old).guard) }
    {
        match self.visitors.standing(connection) {
            Some(Standing::Admitted) => Ok(Passed::All),
            Some(Standing::Silent) => {
                let unread = self.unread(connection, bytes)?;
                let heard = hear_greeting(self.alloc, &self.logins, unread)?;
                Ok(self.keep(connection, heard))
            }
            Some(Standing::Stranger) => {
                let unread = self.unread(connection, bytes)?;
                let none = Vec::new(self.alloc);
                let heard = hear_stranger(self.alloc, &self.logins, none, unread)?;
                Ok(self.keep(connection, heard))
            }
            Some(Standing::Refused) => Ok(Passed::These(Vec::new(self.alloc))),
            None => Ok(Passed::These(Vec::new(self.alloc))),
        }
    }

    /// A connection ended.
    pub fn end(&mut self, connection: u32)
        ensures { self.new ≡ table.ended connection self.old }
    {
        self.visitors.end(connection);
    }

    /// Returns whether the close of this connection has an answer before it.
    pub fn refuses(&self, connection: u32) -> bool
        ensures { result ≡ table.refuses self.now connection }
    {
        match self.visitors.standing(connection) {
            Some(Standing::Refused) => true,
            _ => false,
        }
    }

    /// Takes the answer that is sent before the close of a connection, which may be none.
    pub fn answer(&mut self, connection: u32) -> Vec<u8>
        ensures answer { result.items ≡ answer_at self.old connection }
        ensures rest { self.new ≡ answered connection self.old }
    {
        self.visitors.take(connection)
    }

    // Returns the bytes of a connection that weren't judged yet, and those that came.
    fn unread(&mut self, connection: u32, bytes: &[u8]) -> Result<Vec<u8>, Memory>
        ensures bytes { IfOk result (λ unread. unread.items
            ≡ table.unread connection bytes.now self.old) }
        ensures rest { OnOk result (self.new ≡ answered connection self.old) }
    {
        let mut unread = self.visitors.take(connection);
        unread.extend_from_slice(bytes)?;
        Ok(unread)
    }

    // Stores what was heard of a connection, and returns what passes.
    fn keep(&mut self, connection: u32, heard: Heard) -> Passed
        ensures passed { (bytes : List ℕ) → bytes_passed bytes result ≡ heard.passed.items }
        ensures rest { self.new ≡ table.with_heard connection heard self.old }
    {
        let Heard {
            passed,
            standing,
            bytes,
        } = heard;
        self.visitors.set(connection, standing, bytes);
        Passed::These(passed)
    }
}
