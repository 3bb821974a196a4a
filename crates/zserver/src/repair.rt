//! The rows in which acknowledgements go up the chain, and in which a server learns its neighbours.

ghost use Rattle.std.specs.Prelude.{◌≡◌, [], OnErr, OnOk};
ghost use Rattle.zprotocol.specs.Posts.{Puts};
ghost use Rattle.zprotocol.specs.server.Table.{ack_row, new_pred_row, new_succ_row, become_head_row, become_tail_row};
ghost use Rattle.zserver.specs.support.Replicas.{GrowsBy};

use crate::join::hand_over;
use crate::neighbour::{Neighbour, is_neighbour};
use crate::replica::{Replica, acknowledge};
use crate::sent::send_above;
use crate::snapshot::Snapshot;
use zalloc::Memory;
use zprotocol::{Epoch, LogNumber, Message, Out, Process, ServerId};

impl Replica {
    /// `Ack`, from the successor: removes what the tail has processed from Sent, and acknowledges
    /// it to the predecessor.
    #[tactic(auto, unfolding(zprotocol::specs::server::Table::ack_row))]
    pub(crate) fn pass_ack_up(
        &mut self,
        from: ServerId,
        epoch: Epoch,
        n: LogNumber,
        out: &mut Out<Snapshot>,
    ) -> Result<(), Memory>
        ensures next { OnOk result (self.new ≡ (ack_row self.old from epoch n).0) }
        ensures puts { OnOk result (Puts out.old out.new (ack_row self.old from epoch n).1) }
        ensures silent { OnErr result (out.new.posts ≡ out.old.posts) }
        ensures grows { OnErr result (GrowsBy self.old (ack_row self.old from epoch n)) }
    {
        if !is_neighbour(&self.succ, from, epoch) {
            return Ok(());
        }
        acknowledge(&self.pred, n, out)?;
        self.sent.retain(|e| n.number() < e.0.number());
        Ok(())
    }

    /// `NewPred`: adopts the new predecessor, and reports to the master what the server has.
    #[tactic(auto, unfolding(zprotocol::specs::server::Table::new_pred_row))]
    pub(crate) fn new_pred(
        &mut self,
        epoch: Epoch,
        pred: ServerId,
        out: &mut Out<Snapshot>,
    ) -> Result<(), Memory>
        ensures next { OnOk result (self.new ≡ (new_pred_row self.old epoch pred).0) }
        ensures puts { OnOk result (Puts out.old out.new (new_pred_row self.old epoch pred).1) }
        ensures silent { OnErr result (out.new.posts ≡ out.old.posts) }
        ensures grows { OnErr result (GrowsBy self.old (new_pred_row self.old epoch pred)) }
    {
        out.reserve(1)?;
        out.put_reserved(Process::Master, Message::Have(epoch, self.last()));
        self.pred = Some(Neighbour { id: pred, epoch });
        Ok(())
    }

    /// `NewSucc`: adopts the new successor, and sends it what it lacks.
    #[tactic(auto, unfolding(zprotocol::specs::server::Table::new_succ_row))]
    pub(crate) fn new_succ(
        &mut self,
        epoch: Epoch,
        succ: ServerId,
        last: Option<LogNumber>,
        out: &mut Out<Snapshot>,
    ) -> Result<(), Memory>
        ensures next { OnOk result (self.new ≡ (new_succ_row self.old epoch succ last).0) }
        ensures puts { OnOk result
            (Puts out.old out.new (new_succ_row self.old epoch succ last).1) }
        ensures silent { OnErr result (out.new.posts ≡ out.old.posts) }
        ensures grows { OnErr result (GrowsBy self.old (new_succ_row self.old epoch succ last)) }
    {
        let Some(machine) = &self.machine else {
            return Ok(());
        };
        let succ = Neighbour { id: succ, epoch };
        match last {
            Some(n) => send_above(self.alloc, &self.sent, n, &succ, out)?,
            None => hand_over(self.alloc, machine, &succ, out)?,
        }
        self.succ = Some(succ);
        Ok(())
    }

    /// `BecomeHead`: there is no predecessor any more.
    #[tactic(auto, unfolding(zprotocol::specs::server::Table::become_head_row))]
    pub(crate) fn become_head(&mut self)
        ensures next { self.new ≡ (become_head_row self.old).0 }
        ensures silent { (become_head_row self.old).1 ≡ [] }
    {
        self.pred = None;
    }

    /// `BecomeTail`: there is no successor any more. All of Sent is processed now, which is
    /// acknowledged.
    #[tactic(auto, unfolding(zprotocol::specs::server::Table::become_tail_row))]
    pub(crate) fn become_tail(&mut self, out: &mut Out<Snapshot>) -> Result<(), Memory>
        ensures next { OnOk result (self.new ≡ (become_tail_row self.old).0) }
        ensures puts { OnOk result (Puts out.old out.new (become_tail_row self.old).1) }
        ensures silent { OnErr result (out.new.posts ≡ out.old.posts) }
        ensures grows { OnErr result (GrowsBy self.old (become_tail_row self.old)) }
    {
        if let Some(last) = self.last() {
            acknowledge(&self.pred, last, out)?;
        }
        self.sent.clear();
        self.succ = None;
        Ok(())
    }
}
