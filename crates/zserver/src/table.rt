//! The server table.
//!
//! # Why
//!
//! A message is matched where it was taken out of the channels, so all that passes it on is
//! inlined. Cold paths are out of line: the compiler clears the room for a large value, such as a
//! server, at the start of the function that may make it.

ghost use Rattle.std.specs.Prelude.{◌≡◌, true, IfOk, OnErr};
ghost use Rattle.zprotocol.specs.server.Machine.{cached_tree};
ghost use Rattle.zprotocol.specs.server.Memory.{may_stop};
ghost use Rattle.zserver.specs.Server.{BecomesAt, PutsAt, IsHeardOr, MayBeUnheard};

use crate::replica::Replica;
use crate::snapshot::Snapshot;
use crate::taken::Taken;
use zalloc::Memory;
use zprotocol::{Message, Out, Process};

impl Replica {
    /// The server table. Out of memory it sends nothing, and the replica is of no more use.
    /// Inlined, as the rows of calls and entries are, so that a message is matched in place.
    #[inline(always)]
    #[tactic(auto, unfolding(zprotocol::specs::server::Table::server_step, zprotocol::specs::server::Table::become_head_row))]
    pub(crate) fn take(
        &mut self,
        from: Process,
        message: Message<Snapshot>,
        out: &mut Out<Snapshot>,
    ) -> Result<Taken, Memory>
        ensures next { IfOk result (BecomesAt self.old self.new from message) }
        ensures puts { IfOk result (PutsAt out.old out.new self.old from message) }
        ensures unheard { IfOk result (IsHeardOr (MayBeUnheard self.old from message)) }
        ensures silent { OnErr result (out.new.posts ≡ out.old.posts) }
        ensures grows { OnErr result (may_stop cached_tree self.old from message ≡ true) }
    {
        let is_order = from == Process::Master;
        match message {
            Message::Submit(number, update) => self.submit_from(from, number, update, out)?,
            Message::Query(number, query) => return Ok(self.query_from(from, number, query, out)),
            Message::Update(epoch, n, entry) => self.update_from(from, epoch, n, entry, out)?,
            Message::Ack(epoch, n) => self.ack_from(from, epoch, n, out)?,
            Message::Snapshot(epoch, snapshot) => self.snapshot_from(from, epoch, snapshot, out)?,
            Message::NewPred(epoch, pred) if is_order => self.new_pred(epoch, pred, out)?,
            Message::NewSucc(epoch, succ, last) if is_order => {
                self.new_succ(epoch, succ, last, out)?;
            }
            Message::BecomeHead(_) if is_order => self.become_head(),
            Message::BecomeTail(_) if is_order => self.become_tail(out)?,
            Message::Answer(_, reply) => drop(reply),
            Message::NewPred(..)
            | Message::Have(..)
            | Message::NewSucc(..)
            | Message::BecomeHead(_)
            | Message::BecomeTail(_)
            | Message::Retire
            | Message::Joined(_)
            | Message::Gone
            | Message::Config(..) => {}
        }
        Ok(Taken::Acted)
    }
}
