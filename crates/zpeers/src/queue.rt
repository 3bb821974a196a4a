//! The messages that wait for one receiver.

ghost use Rattle.std.specs.Prelude.{◌≡◌, ◌≢◌, ◌++◌, [], ◌∷◌, true, false, IfOk, IfErr};
ghost use Rattle.std.specs.Prelude.{IsTrue, IsFalse, OnOk, OnErr};
ghost use Rattle.zpeers.specs.Outgoing.{IsFirstLong};
ghost use Rattle.zpeers.specs.support.Waiting.{IsQueueWritten};

use crate::waiting::Waiting;
use std::alloc::Global;
use std::collections::VecDeque;
use std::marker::Model;
use std::mem::replace;
use zalloc::Memory;
use zprotocol::{Message, Process};
use zserver::Snapshot;
use zwire::WriteError;

/// The messages that wait for one receiver, in order. Mostly there is none or one, so the first is
/// stored in the queue itself, and needs no block.
#[derive(Drop)]
pub(crate) struct Queue {
    first: Option<Waiting>,
    // None, where there is no first one.
    others: VecDeque<Waiting>,
}

impl Model for Queue {
    ghost use Rattle.std.specs.Prelude.{List};
    ghost use Rattle.std.specs.Coded.{coded_list};
    ghost use Rattle.zpeers.specs.Outgoing.{WaitingView};
    ghost use Rattle.zpeers.specs.support.Codes.{coded_waiting};
    ghost use Rattle.zpeers.specs.support.Waiting.{queue_of, IsQueue};

    ghost Value = { List WaitingView };

    ghost coded = { coded_list coded_waiting };

    ghost view = { λ q. queue_of q.first q.others.items };

    ghost invariant = { λ q. IsQueue q.first q.others.items };
}

impl Queue {
    /// Returns an empty queue.
    pub(crate) fn new(alloc: Global) -> Queue
        ensures { result ≡ [] }
    {
        Queue {
            first: None,
            others: VecDeque::new(alloc),
        }
    }

    /// Returns whether nothing waits.
    pub(crate) fn is_empty(&self) -> bool
        ensures yes { IsTrue result → self.now ≡ [] }
        ensures no { IsFalse result → self.now ≢ [] }
    {
        match &self.first {
            Some(_) => false,
            None => true,
        }
    }

    /// Appends a message, or drops it if memory runs out.
    pub(crate) fn put(&mut self, message: Message<Snapshot>) -> Result<(), Memory>
        ensures ok { OnOk result
            (self.new ≡ self.old ++ record { message = message; written = 0 } ∷ []) }
        ensures err { OnErr result (self.new ≡ self.old) }
    {
        let waiting = Waiting::new(message);
        if self.is_empty() {
            self.first = Some(waiting);
            return Ok(());
        }
        match self.others.push_back(waiting) {
            Ok(()) => Ok(()),
            Err(refused) => {
                drop(refused);
                Err(Memory)
            }
        }
    }

    /// Appends the next record to the bytes, and returns true; or returns false if nothing waits.
    /// On an error nothing has changed.
    pub(crate) fn write_next(
        &mut self,
        alloc: Global,
        own: Process,
        to: Process,
        out: &mut Vec<u8>,
    ) -> Result<bool, WriteError>
        ensures some { IfOk result (λ some. some ≡ true
            → IsQueueWritten own to self.old self.new out.old.items out.new.items) }
        ensures none { IfOk result (λ some. some ≡ false → self.old ≡ []) }
        ensures same { IfOk result (λ some. some ≡ false → self.new ≡ self.old) }
        ensures nothing { IfOk result (λ some. some ≡ false → out.new.items ≡ out.old.items) }
        ensures long { IfErr result (IsFirstLong own to self.old) }
        ensures err { OnErr result (self.new ≡ self.old) }
        ensures out { OnErr result (out.new.items ≡ out.old.items) }
    {
        let Some(first) = &mut self.first else {
            return Ok(false);
        };
        let more = first.write_next(alloc, own, to, out)?;
        if !more {
            let next = self.others.pop_front();
            drop(replace(&mut self.first, next));
        }
        Ok(true)
    }

    /// Drops all messages.
    pub(crate) fn clear(&mut self)
        ensures { self.new ≡ [] }
    {
        drop(self.first.take());
        self.others.clear();
    }
}
