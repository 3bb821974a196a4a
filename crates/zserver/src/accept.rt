//! The rows in which the machine applies an entry: `Submit` and `Update`.

ghost use Rattle.std.specs.Prelude.{◌≡◌, ◌<◌, None, Some, true, is_some, IfOk, OnErr, OnOk};
ghost use Rattle.zprotocol.specs.declared.limits.TheConstants.{MAX_LOG_NUMBER};
ghost use Rattle.zprotocol.specs.Posts.{Puts};
ghost use Rattle.zserver.specs.support.Replicas.{submit_at, update_at, accept_row, GrowsBy};
ghost use Rattle.zserver.specs.support.Replicas.{applied_result, next_number};

use crate::neighbour::is_neighbour;
use crate::replica::Replica;
use crate::snapshot::Snapshot;
use zalloc::Memory;
use zcalls::{Entry, Reply, SharedEntry};
use zops::Machine;
use zprotocol::{Epoch, LogNumber, MAX_LOG_NUMBER, Message, Out, Process, ServerId};

impl Replica {
    /// `Submit`: a head accepts the update as its next entry.
    #[inline(always)]
    #[tactic(auto, unfolding(zprotocol::specs::server::Table::submit_row, crate::specs::support::Replicas::accept_row, crate::specs::support::Replicas::next_number))]
    pub(crate) fn submit(&mut self, entry: Entry, out: &mut Out<Snapshot>) -> Result<(), Memory>
        ensures next { OnOk result (self.new ≡ (submit_at self.old entry).0) }
        ensures puts { OnOk result (Puts out.old out.new (submit_at self.old entry).1) }
        ensures silent { OnErr result (out.new.posts ≡ out.old.posts) }
        ensures grows { OnErr result (GrowsBy self.old (submit_at self.old entry)) }
    {
        match self.next_number() {
            Some(n) if self.pred.is_none() => {
                if self.succ.is_some() {
                    let entry = SharedEntry::new(self.alloc, entry)?;
                    self.forward(n, entry, out)
                } else {
                    let done = self.process(n, &entry, out);
                    drop(entry);
                    done
                }
            }
            _ => {
                drop(entry);
                Ok(())
            }
        }
    }

    /// `Update`: accepts the next entry from the predecessor.
    #[inline(always)]
    #[tactic(auto, unfolding(zprotocol::specs::server::Table::update_row, crate::specs::support::Replicas::accept_row, crate::specs::support::Replicas::next_number))]
    pub(crate) fn update(
        &mut self,
        from: ServerId,
        epoch: Epoch,
        n: LogNumber,
        entry: SharedEntry,
        out: &mut Out<Snapshot>,
    ) -> Result<(), Memory>
        ensures next { OnOk result (self.new ≡ (update_at self.old from epoch n entry).0) }
        ensures puts { OnOk result
            (Puts out.old out.new (update_at self.old from epoch n entry).1) }
        ensures silent { OnErr result (out.new.posts ≡ out.old.posts) }
        ensures grows { OnErr result (GrowsBy self.old (update_at self.old from epoch n entry)) }
    {
        let is_pred = is_neighbour(&self.pred, from, epoch);
        match self.next_number() {
            Some(next) if is_pred && next.number() == n.number() => {
                if self.succ.is_some() {
                    self.forward(n, entry, out)
                } else {
                    self.process(n, entry.entry(), out)
                }
            }
            _ => Ok(()),
        }
    }

    // Returns the number of the next entry, where the server has the state and a number is left.
    #[tactic(auto, unfolding(crate::specs::support::Replicas::next_number))]
    fn next_number(&self) -> Option<LogNumber>
        ensures { result ≡ next_number self.now }
    {
        let machine = self.machine.as_ref()?;
        LogNumber::new(machine.applied() + 1)
    }

    // `accept` at a server with a successor: stores the entry in Sent and forwards it. Inlined, as
    // `process` and `apply` are: a row then takes fewer instructions.
    #[inline(always)]
    fn forward(
        &mut self,
        n: LogNumber,
        entry: SharedEntry,
        out: &mut Out<Snapshot>,
    ) -> Result<(), Memory>
        requires number { next_number self.old ≡ Some n }
        requires succ { is_some self.old.succ ≡ true }
        ensures next { OnOk result (self.new ≡ (accept_row self.old n entry).0) }
        ensures puts { OnOk result (Puts out.old out.new (accept_row self.old n entry).1) }
        ensures silent { OnErr result (out.new.posts ≡ out.old.posts) }
    {
        out.reserve(1)?;
        self.sent.push((n, entry.clone()?))?;
        let reply = self.apply(entry.entry())?;
        drop(reply);
        if let Some(succ) = &self.succ {
            out.put_reserved(
                Process::Server(succ.id),
                Message::Update(succ.epoch, n, entry),
            );
        }
        Ok(())
    }

    // `accept` at a server without a successor: answers the client, and acknowledges.
    #[inline(always)]
    fn process(
        &mut self,
        n: LogNumber,
        entry: &Entry,
        out: &mut Out<Snapshot>,
    ) -> Result<(), Memory>
        requires number { next_number self.old ≡ Some n }
        requires succ { self.old.succ ≡ None }
        ensures next { OnOk result (self.new ≡ (accept_row self.old n entry.now).0) }
        ensures puts { OnOk result (Puts out.old out.new (accept_row self.old n entry.now).1) }
        ensures silent { OnErr result (out.new.posts ≡ out.old.posts) }
    {
        out.reserve(2)?;
        let reply = self.apply(entry)?;
        if let Some(reply) = reply {
            out.put_reserved(
                Process::Client(entry.client),
                Message::Answer(entry.number, reply),
            );
        }
        if let Some(pred) = &self.pred {
            out.put_reserved(Process::Server(pred.id), Message::Ack(pred.epoch, n));
        }
        Ok(())
    }

    // Applies an entry to the machine. A machine that ran out of memory is dropped.
    #[inline(always)]
    #[tactic(auto, unfolding(crate::specs::support::Replicas::applied_result, zops::specs::Machine::entry_result))]
    fn apply(&mut self, entry: &Entry) -> Result<Option<Reply>, Memory>
        requires { self.old.last < MAX_LOG_NUMBER }
        ensures { IfOk result (λ reply. (self.new, reply) ≡ applied_result self.old entry.now) }
    {
        let Some(machine) = &mut self.machine else {
            return Ok(None);
        };
        let reply = machine.apply(entry);
        if reply.is_err() {
            lose(&mut self.machine);
        }
        reply
    }
}

// Drops a machine. Cold path, out of line, so that it costs the other calls nothing.
#[cold]
#[inline(never)]
fn lose(machine: &mut Option<Machine>)
    ensures { machine.new ≡ None }
{
    drop(machine.take());
}
