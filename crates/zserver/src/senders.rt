//! The rows of what clients and servers send. Each asks who the sender is, and drops a message that
//! another kind of process sent.

ghost use Rattle.std.specs.Prelude.{◌≡◌, OnErr, OnOk};
ghost use Rattle.zprotocol.specs.declared.message.Message.TheVariants as message;
ghost use Rattle.zprotocol.specs.Posts.{Puts};
ghost use Rattle.zserver.specs.declared.taken.Taken.TheVariants.{Acted, Unheard};
ghost use Rattle.zserver.specs.support.Replicas.{step_at, GrowsBy};

use crate::replica::Replica;
use crate::snapshot::Snapshot;
use crate::taken::Taken;
use zalloc::Memory;
use zcalls::{CallNumber, Entry, Query, SharedEntry, Update};
use zprotocol::{Epoch, LogNumber, Message, Out, Process};

impl Replica {
    /// `Submit`: only a client's is taken.
    #[inline(always)]
    #[tactic(auto, unfolding(zprotocol::specs::server::Table::server_step))]
    pub(crate) fn submit_from(
        &mut self,
        from: Process,
        number: CallNumber,
        update: Update,
        out: &mut Out<Snapshot>,
    ) -> Result<(), Memory>
        ensures next { OnOk result
            (self.new ≡ (step_at self.old from (message.Submit number update)).0) }
        ensures puts { OnOk result
            (Puts out.old out.new (step_at self.old from (message.Submit number update)).1) }
        ensures silent { OnErr result (out.new.posts ≡ out.old.posts) }
        ensures grows { OnErr result
            (GrowsBy self.old (step_at self.old from (message.Submit number update))) }
    {
        match from {
            Process::Client(client) => {
                let entry = Entry {
                    client,
                    number,
                    update,
                };
                self.submit(entry, out)
            }
            _ => {
                drop(update);
                Ok(())
            }
        }
    }

    /// `Query`: only a client's is taken.
    #[inline(always)]
    #[tactic(auto, unfolding(zprotocol::specs::server::Table::server_step))]
    pub(crate) fn query_from(
        &self,
        from: Process,
        number: CallNumber,
        query: Query,
        out: &mut Out<Snapshot>,
    ) -> Taken
        ensures same { (step_at self.now from (message.Query number query)).0 ≡ self.now }
        ensures puts { result ≡ Acted
            → Puts out.old out.new (step_at self.now from (message.Query number query)).1 }
        ensures silent { result ≡ Unheard → out.new.posts ≡ out.old.posts }
        ensures grows { result ≡ Unheard
            → GrowsBy self.now (step_at self.now from (message.Query number query)) }
    {
        let taken = match from {
            Process::Client(client) => self.query(client, number, &query, out),
            _ => Taken::Acted,
        };
        drop(query);
        taken
    }

    /// `Update`: only a server's is taken.
    #[inline(always)]
    #[tactic(auto, unfolding(zprotocol::specs::server::Table::server_step))]
    pub(crate) fn update_from(
        &mut self,
        from: Process,
        epoch: Epoch,
        n: LogNumber,
        entry: SharedEntry,
        out: &mut Out<Snapshot>,
    ) -> Result<(), Memory>
        ensures next { OnOk result
            (self.new ≡ (step_at self.old from (message.Update epoch n entry)).0) }
        ensures puts { OnOk result
            (Puts out.old out.new (step_at self.old from (message.Update epoch n entry)).1) }
        ensures silent { OnErr result (out.new.posts ≡ out.old.posts) }
        ensures grows { OnErr result
            (GrowsBy self.old (step_at self.old from (message.Update epoch n entry))) }
    {
        match from {
            Process::Server(server) => self.update(server, epoch, n, entry, out),
            _ => {
                drop(entry);
                Ok(())
            }
        }
    }

    /// `Ack`: only a server's is taken.
    #[inline(always)]
    #[tactic(auto, unfolding(zprotocol::specs::server::Table::server_step))]
    pub(crate) fn ack_from(
        &mut self,
        from: Process,
        epoch: Epoch,
        n: LogNumber,
        out: &mut Out<Snapshot>,
    ) -> Result<(), Memory>
        ensures next { OnOk result (self.new ≡ (step_at self.old from (message.Ack epoch n)).0) }
        ensures puts { OnOk result
            (Puts out.old out.new (step_at self.old from (message.Ack epoch n)).1) }
        ensures silent { OnErr result (out.new.posts ≡ out.old.posts) }
        ensures grows { OnErr result
            (GrowsBy self.old (step_at self.old from (message.Ack epoch n))) }
    {
        match from {
            Process::Server(server) => self.pass_ack_up(server, epoch, n, out),
            _ => Ok(()),
        }
    }

    /// `Snapshot`: only a server's is taken.
    #[inline(always)]
    #[tactic(auto, unfolding(zprotocol::specs::server::Table::server_step))]
    pub(crate) fn snapshot_from(
        &mut self,
        from: Process,
        epoch: Epoch,
        snapshot: Snapshot,
        out: &mut Out<Snapshot>,
    ) -> Result<(), Memory>
        ensures next { OnOk result
            (self.new ≡ (step_at self.old from (message.Snapshot epoch snapshot)).0) }
        ensures puts { OnOk result
            (Puts out.old out.new (step_at self.old from (message.Snapshot epoch snapshot)).1) }
        ensures silent { OnErr result (out.new.posts ≡ out.old.posts) }
        ensures grows { OnErr result
            (GrowsBy self.old (step_at self.old from (message.Snapshot epoch snapshot))) }
    {
        match from {
            Process::Server(server) => self.snapshot(server, epoch, snapshot, out),
            _ => {
                drop(snapshot);
                Ok(())
            }
        }
    }
}
