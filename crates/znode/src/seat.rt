//! The server of a node, and what it has put.

ghost use Rattle.std.specs.Prelude.{◌≡◌, ◌++◌, [], ◌∷◌, map, true, false, drop, IfOk, IfErr, OnOk};
ghost use Rattle.std.specs.Prelude.{IfNone, IfSome};
ghost use Rattle.zprotocol.specs.declared.process.Process.{Process};
ghost use Rattle.zprotocol.specs.declared.process.Process.TheVariants.{Server as OfServer};
ghost use Rattle.zprotocol.specs.server.Machine.{cached_tree};
ghost use Rattle.zprotocol.specs.server.View.{opening_server, spare};
ghost use Rattle.zprotocol.specs.world.Does.{AtServer};
ghost use Rattle.zactor.specs.Acting.{Acts, has_stopped};
ghost use Rattle.zpeers.specs.Outgoing.{waiting_for, OthersWait, IsWritten, IsLong};
ghost use Rattle.znode.specs.Server.{ArePut, Hears};
ghost use Rattle.znode.specs.Entries.{without_idle};
ghost use Rattle.znode.specs.support.Standings.{IsServer};

use crate::waiting::Reports;
use std::alloc::Global;
use std::marker::Model;
use zactor::{Actor, Done, Handed, Input};
use zalloc::Memory;
use zmaster_log::{MasterReplica, News};
use zpeers::Outgoing;
use zprotocol::{Message, Out, Process, ServerId};
use zserver::{Server, Snapshot};
use zwire::WriteError;

/// The server of a node, and what it has put that wasn't sent or reported yet. As long as the node
/// has no number, the server has received nothing.
#[derive(Drop)]
pub(crate) struct Seat {
    actor: Actor,
    has_state: bool,
    reports: Reports,
    outgoing: Outgoing,
}

impl Model for Seat {
    ghost use Rattle.znode.specs.Node.{SeatView};
    ghost use Rattle.znode.specs.support.Codes.{coded_seat};
    ghost use Rattle.znode.specs.support.Standings.{IsServer};

    ghost Value = { SeatView };

    ghost coded = { coded_seat };

    ghost view = { λ s. record {
      standing = s.actor;
      has_state = s.has_state;
      reports = s.reports;
      outgoing = s.outgoing;
    } };

    ghost invariant = { λ s. IsServer s.actor };
}

impl Seat {
    /// Returns a server without state, which has put nothing.
    pub(crate) fn new(alloc: Global) -> Result<Seat, Memory>
        ensures standing { IfOk result (λ s. s.standing ≡ AtServer spare) }
        ensures state { IfOk result (λ s. s.has_state ≡ false) }
        ensures reports { IfOk result (λ s. s.reports ≡ []) }
        ensures outgoing { IfOk result (λ s. (to : Process) → waiting_for s.outgoing to ≡ []) }
    {
        Ok(Seat {
            actor: Actor::server(Server::spare(alloc)),
            has_state: false,
            reports: Reports::new(alloc),
            outgoing: Outgoing::new(alloc)?,
        })
    }

    /// Begins as the only server of a chain, with an empty tree.
    pub(crate) fn open(&mut self, alloc: Global) -> Result<(), Memory>
        ensures { OnOk result (self.new ≡ record self.old {
          standing = AtServer (opening_server cached_tree 1 1);
          has_state = true;
        }) }
    {
        let only = ServerId::first();
        self.actor = Actor::server(Server::opening(alloc, only, only)?);
        self.has_state = true;
        Ok(())
    }

    /// Returns whether the server has the state.
    pub(crate) fn has_state(&self) -> bool
        ensures { result ≡ self.now.has_state }
    {
        self.has_state
    }

    /// Returns the reports that aren't in the log yet.
    pub(crate) fn reports(&self) -> &Reports
        ensures { result.now ≡ self.now.reports }
    {
        &self.reports
    }

    /// Returns what waits to be sent.
    pub(crate) fn outgoing(&self) -> &Outgoing
        ensures { result.now ≡ self.now.outgoing }
    {
        &self.outgoing
    }

    /// Removes the first report, which is in the log.
    pub(crate) fn remove_report(&mut self)
        ensures { self.new ≡ record self.old { reports = drop 1 self.old.reports } }
    {
        self.reports.remove_first();
    }

    /// Removes the first reports, as long as they are that a server is gone which isn't live.
    pub(crate) fn remove_idle(&mut self, replica: &MasterReplica)
        ensures { self.new ≡ record self.old {
          reports = without_idle replica.now.state self.old.reports;
        } }
    {
        self.reports.remove_idle(replica);
    }

    /// Reports that a server is gone.
    pub(crate) fn accuse(&mut self, server: ServerId) -> Result<(), Memory>
        ensures { OnOk result (self.new ≡ record self.old {
          reports = self.old.reports ++ News.Gone server ∷ [];
        }) }
    {
        self.reports.put(News::Gone(server))
    }

    /// Drops what waits for a server.
    pub(crate) fn forget(&mut self, server: ServerId)
        ensures none { waiting_for self.new.outgoing (OfServer server) ≡ [] }
        ensures others { OthersWait self.old.outgoing self.new.outgoing (OfServer server) }
        ensures rest { self.new ≡ record self.old { outgoing = self.new.outgoing } }
    {
        self.outgoing.forget(Process::Server(server));
    }

    /// Handles a message, by the server's table. A server that has stopped handles none.
    pub(crate) fn hear(
        &mut self,
        alloc: Global,
        own: ServerId,
        from: Process,
        message: Message<Snapshot>,
    ) -> Result<(), Memory>
        ensures { OnOk result (Hears own from message self.old self.new) }
    {
        let mut out = Out::new(alloc);
        let Some(done) = self.act(from, message, &mut out) else {
            return Ok(());
        };
        self.put_all(own, &mut out)?;
        if done.is_end() {
            return self.report(own, Message::Gone);
        }
        Ok(())
    }

    // Gives the server a message, and returns what became of it. One that has stopped does nothing.
    fn act(
        &mut self,
        from: Process,
        message: Message<Snapshot>,
        out: &mut Out<Snapshot>,
    ) -> Option<Done>
        ensures server { IsServer self.old.standing }
        ensures acted { IfSome result (Acts self.old.standing self.new.standing
            (Input.Hear from message) out.old out.new) }
        ensures stopped { IfNone result (has_stopped self.old.standing ≡ true) }
        ensures same { IfNone result (self.new ≡ self.old) }
        ensures rest { self.new ≡ record self.old { standing = self.new.standing } }
    {
        let mut handed = Handed::Nothing;
        let acted = self.actor.act(Input::Hear(from, message), out, &mut handed);
        drop(handed);
        let done = match acted {
            Ok(done) => done,
            Err(_) => return None,
        };
        Some(done)
    }

    // Puts all that the server has put.
    fn put_all(&mut self, own: ServerId, out: &mut Out<Snapshot>) -> Result<(), Memory>
        ensures { OnOk result (ArePut own out.old.posts self.old self.new) }
    {
        while let Some((to, message)) = out.next() {
            self.put(own, to, message)?;
        }
        Ok(())
    }

    // Puts a message: to the master it becomes a report.
    fn put(&mut self, own: ServerId, to: Process, message: Message<Snapshot>) -> Result<(), Memory>
        ensures { OnOk result (ArePut own ((to, message) ∷ []) self.old self.new) }
    {
        match to {
            Process::Master => self.report(own, message),
            Process::Server(_) | Process::Client(_) => self.outgoing.put(to, message),
        }
    }

    // Puts a message to the master.
    fn report(&mut self, own: ServerId, message: Message<Snapshot>) -> Result<(), Memory>
        ensures { OnOk result (ArePut own ((Process.Master, message) ∷ []) self.old self.new) }
    {
        match message {
            Message::Have(epoch, last) => self.reports.put(News::Have(epoch, last)),
            Message::Joined(epoch) => {
                self.has_state = true;
                self.reports.put(News::Joined(epoch))
            }
            Message::Gone => self.reports.put(News::Gone(own)),
            other => {
                // A server puts nothing else to the master.
                drop(other);
                Ok(())
            }
        }
    }

    /// Appends the next record for a process to the bytes, and returns true; or returns false if
    /// none waits.
    pub(crate) fn write_next(
        &mut self,
        own: ServerId,
        to: Process,
        out: &mut Vec<u8>,
    ) -> Result<bool, WriteError>
        ensures some { IfOk result (λ some. some ≡ true → IsWritten (OfServer own) to
            self.old.outgoing self.new.outgoing out.old.items out.new.items) }
        ensures none { IfOk result (λ some. some ≡ false
            → waiting_for self.old.outgoing to ≡ []) }
        ensures same { IfOk result (λ some. some ≡ false → self.new ≡ self.old) }
        ensures long { IfErr result (IsLong (OfServer own) to self.old.outgoing) }
        ensures rest { self.new ≡ record self.old { outgoing = self.new.outgoing } }
    {
        self.outgoing.write_next(Process::Server(own), to, out)
    }
}
