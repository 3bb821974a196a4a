//! What waits to be sent to other processes.

ghost use Rattle.std.specs.Prelude.{◌≡◌, ◌++◌, [], ◌∷◌, true, false, IfOk, IfErr};
ghost use Rattle.std.specs.Prelude.{IfSome, IfNone, OnOk, OnErr};
ghost use Rattle.zprotocol.specs.declared.process.Process.{Process};
ghost use Rattle.zprotocol.specs.declared.limits.TheConstants.{PROCESSES};
ghost use Rattle.zpeers.specs.Outgoing.{waiting_for, records_for, OthersWait, IsWritten, IsLong};
ghost use Rattle.zpeers.specs.Outgoing.{place_after, NoneWaits, IsNextReceiver};
ghost use Rattle.zpeers.specs.Records.{records_of};

use crate::queue::Queue;
use std::alloc::Global;
use std::marker::Model;
use zalloc::Memory;
use zprotocol::{Message, PROCESSES, Process};
use zserver::Snapshot;
use zwire::WriteError;

/// The messages that wait to be sent, in a queue for each receiver.
#[derive(Drop)]
pub struct Outgoing {
    alloc: Global,
    // In the order of the receivers.
    queues: Vec<Queue>,
}

impl Model for Outgoing {
    ghost use Rattle.std.specs.Prelude.{◌≡◌, length};
    ghost use Rattle.zprotocol.specs.declared.limits.TheConstants.{PROCESSES};
    ghost use Rattle.zpeers.specs.Outgoing.{OutgoingView};
    ghost use Rattle.zpeers.specs.support.Codes.{coded_outgoing};

    ghost Value = { OutgoingView };

    ghost coded = { coded_outgoing };

    ghost view = { λ o. record { queues = o.queues.items } };

    ghost invariant = { λ o. length o.queues.items ≡ PROCESSES };
}

impl Outgoing {
    /// Returns empty queues.
    pub fn new(alloc: Global) -> Result<Outgoing, Memory>
        ensures { IfOk result (λ o. (to : Process) → waiting_for o to ≡ []) }
    {
        let mut queues = Vec::with_capacity(alloc, PROCESSES)?;
        for _ in 0..PROCESSES {
            queues.push(Queue::new(alloc))?;
        }
        Ok(Outgoing { alloc, queues })
    }

    /// Appends a message to the queue of a receiver. If memory runs out it is dropped, and nothing
    /// has changed.
    pub fn put(&mut self, to: Process, message: Message<Snapshot>) -> Result<(), Memory>
        ensures waits { OnOk result (waiting_for self.new to
            ≡ waiting_for self.old to ++ record { message = message; written = 0 } ∷ []) }
        // So its records come after all that wait for this receiver.
        ensures records { OnOk result ((own : Process) → records_for self.new own to
            ≡ records_for self.old own to ++ records_of own to message) }
        ensures others { OthersWait self.old self.new to }
        ensures err { OnErr result (self.new ≡ self.old) }
    {
        self.queues[to.place()].put(message)
    }

    /// Appends the first record that waits for a receiver to the bytes, and returns true; or
    /// returns false if none waits. On an error nothing has changed.
    pub fn write_next(
        &mut self,
        own: Process,
        to: Process,
        out: &mut Vec<u8>,
    ) -> Result<bool, WriteError>
        ensures some { IfOk result (λ some. some ≡ true
            → IsWritten own to self.old self.new out.old.items out.new.items) }
        ensures none { IfOk result (λ some. some ≡ false → waiting_for self.old to ≡ []) }
        ensures same { IfOk result (λ some. some ≡ false → self.new ≡ self.old) }
        ensures nothing { IfOk result (λ some. some ≡ false → out.new.items ≡ out.old.items) }
        // `TooLong` if the frame would be longer than any frame may be.
        ensures long { IfErr result (IsLong own to self.old) }
        ensures err { OnErr result (self.new ≡ self.old) }
        ensures out { OnErr result (out.new.items ≡ out.old.items) }
    {
        self.queues[to.place()].write_next(self.alloc, own, to, out)
    }

    /// Returns the first receiver after this one for which something waits: the first of all, if
    /// none is given.
    pub fn next_receiver(&self, after: Option<Process>) -> Option<Process>
        ensures some { IfSome result (IsNextReceiver self.now after) }
        ensures none { IfNone result (NoneWaits self.now (place_after after) PROCESSES) }
    {
        for place in place_after(after)..PROCESSES {
            if !self.queues[place].is_empty() {
                return Process::at(place);
            }
        }
        None
    }

    /// Drops all that waits for a receiver.
    pub fn forget(&mut self, to: Process)
        ensures none { waiting_for self.new to ≡ [] }
        ensures others { OthersWait self.old self.new to }
    {
        self.queues[to.place()].clear();
    }
}

// Returns the first position after this process, or after none.
fn place_after(process: Option<Process>) -> usize
    ensures { result ≡ place_after process }
{
    match process {
        Some(process) => process.place() + 1,
        None => 0,
    }
}
