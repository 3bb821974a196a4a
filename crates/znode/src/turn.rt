//! What a node answers to a turn.

ghost use Rattle.std.specs.Prelude.{◌≡◌, ◌++◌, ◌∷◌, [], OnOk, IfOk, IfErr, OnErr, Some, true};
ghost use Rattle.std.specs.Prelude.{false, List};
ghost use Rattle.zprotocol.specs.declared.process.Process.{Process};
ghost use Rattle.zprotocol.specs.declared.process.Process.TheVariants.{Server as OfServer};
ghost use Rattle.zpeers.specs.Outgoing.{waiting_for};
ghost use Rattle.znode.specs.pipe.Inputs.InputView.{Turn};
ghost use Rattle.znode.specs.pipe.Outputs.{OutputView};
ghost use Rattle.znode.specs.pipe.Serving.{outputs_text};
ghost use Rattle.znode.specs.Node.{status_of};
ghost use Rattle.znode.specs.Turns.{Answers, Sends, Waits, asked_after, asked_output, asking};
ghost use Rattle.znode.specs.Turns.{is_known, known_output};
ghost use Rattle.znode.specs.Steps.{IsNodeFault};
ghost use Rattle.znode.specs.support.Turns.{SendsAll, SendsSome, SendsOne, IsSendFault};
ghost use Rattle.znode.specs.support.Turns.{IsAnySendFault};

use crate::fault::NodeFault;
use crate::flags::{flags_of, number_of};
use crate::limits::MAX_WRITTEN;
use crate::node::Node;
use crate::pipe::{put_append, put_end, put_send, put_status};
use crate::seat::Seat;
use crate::status::NodeStatus;
use std::alloc::{AllocError, Global};
use zmaster_log::entry_text;
use zprotocol::{PROCESSES, Process, ServerId};
use zwire::WriteError;

impl Node {
    /// Writes what waits: its status, if the host doesn't know it, an entry that is to be appended,
    /// and records that are to be sent.
    pub(crate) fn answer(&mut self, out: &mut Vec<u8>) -> Result<(), NodeFault>
        ensures taken { OnOk result ((outputs : List OutputView) × Answers self.old outputs self.new
            × (out.new.items ≡ out.old.items ++ outputs_text outputs)) }
        ensures fault { IfErr result (IsNodeFault self.old Turn) }
    {
        self.tell(out)?;
        self.ask(out)?;
        self.send(out)?;
        let more = self.seat.outgoing().next_receiver(None).is_some();
        put_end(out, more)?;
        Ok(())
    }

    // Writes its status, if the host doesn't know it.
    fn tell(&mut self, out: &mut Vec<u8>) -> Result<(), AllocError>
        ensures next { OnOk result
            (self.new ≡ record self.old { known = Some (status_of self.old) }) }
        ensures text { OnOk result (out.new.items ≡ out.old.items
            ++ outputs_text (known_output self.old.known (status_of self.old))) }
    {
        let status = self.status();
        put_new_status(out, &self.known, &status)?;
        self.known = Some(status);
        Ok(())
    }

    // Writes the entry that is to be appended, if it has read all of the log, and hasn't asked yet.
    fn ask(&mut self, out: &mut Vec<u8>) -> Result<(), AllocError>
        ensures next { OnOk result (self.new
            ≡ record self.old { asked = asked_after self.old.asked (asking self.old) }) }
        ensures text { OnOk result (out.new.items ≡ out.old.items
            ++ outputs_text (asked_output self.old.replica.played (asking self.old))) }
    {
        if !self.is_at_end || self.asked.is_some() {
            return Ok(());
        }
        let Some(entry) = self.wanted()? else {
            return Ok(());
        };
        let text = entry_text(self.alloc, &entry)?;
        put_append(out, self.replica.played(), &text)?;
        self.asked = Some(text);
        Ok(())
    }

    // Writes records for each process for which some wait.
    fn send(&mut self, out: &mut Vec<u8>) -> Result<(), NodeFault>
        ensures taken { OnOk result ((outputs : List OutputView)
            × Sends self.old.replica.own outputs self.old.seat.outgoing self.new.seat.outgoing
            × (out.new.items ≡ out.old.items ++ outputs_text outputs)) }
        ensures rest { self.new ≡ record self.old {
          seat = record self.old.seat { outgoing = self.new.seat.outgoing };
        } }
        ensures fault { IfErr result (IsNodeFault self.old Turn) }
    {
        match self.replica.own() {
            Some(own) => {
                send_all(self.alloc, &mut self.seat, own, out)?;
                Ok(())
            }
            None => Ok(()),
        }
    }
}

// Writes a status, if the host doesn't know it.
fn put_new_status(
    out: &mut Vec<u8>,
    known: &Option<NodeStatus>,
    status: &NodeStatus,
) -> Result<(), AllocError>
    ensures { OnOk result (out.new.items
        ≡ out.old.items ++ outputs_text (known_output known.now status.now)) }
{
    if is_known(known, status) {
        return Ok(());
    }
    put_status(out, status)
}

// Returns whether the host knows this status.
fn is_known(known: &Option<NodeStatus>, status: &NodeStatus) -> bool
    ensures { result ≡ is_known known.now status.now }
{
    match known {
        Some(known) => number_of(known) == number_of(status) && flags_of(known) == flags_of(status),
        None => false,
    }
}

// Writes records for each process for which some wait.
fn send_all(
    alloc: Global,
    seat: &mut Seat,
    own: ServerId,
    out: &mut Vec<u8>,
) -> Result<(), WriteError>
    ensures taken { OnOk result (SendsAll own seat.old.outgoing seat.new.outgoing
        out.old.items out.new.items) }
    ensures rest { seat.new ≡ record seat.old { outgoing = seat.new.outgoing } }
    ensures fault { IfErr result (IsAnySendFault own seat.old.outgoing) }
{
    for place in 1..PROCESSES {
        let Some(to) = Process::at(place) else {
            unreachable!();
        };
        send_to(alloc, seat, own, to, out)?;
    }
    Ok(())
}

// Writes the next records for a process.
fn send_to(
    alloc: Global,
    seat: &mut Seat,
    own: ServerId,
    to: Process,
    out: &mut Vec<u8>,
) -> Result<(), WriteError>
    ensures taken { OnOk result (SendsSome own to seat.old.outgoing seat.new.outgoing
        out.old.items out.new.items) }
    ensures rest { seat.new ≡ record seat.old { outgoing = seat.new.outgoing } }
    ensures fault { IfErr result (IsSendFault own to seat.old.outgoing) }
{
    for _ in 0..MAX_WRITTEN {
        if !send_next(alloc, seat, own, to, out)? {
            return Ok(());
        }
    }
    Ok(())
}

// Writes the next record for a process, and returns true; or returns false if none waits.
fn send_next(
    alloc: Global,
    seat: &mut Seat,
    own: ServerId,
    to: Process,
    out: &mut Vec<u8>,
) -> Result<bool, WriteError>
    ensures some { IfOk result (λ some. some ≡ true → SendsOne own to seat.old.outgoing
        seat.new.outgoing out.old.items out.new.items) }
    ensures none { IfOk result (λ some. some ≡ false → waiting_for seat.old.outgoing to ≡ []) }
    ensures same { IfOk result (λ some. some ≡ false → seat.new ≡ seat.old) }
    ensures out { IfOk result (λ some. some ≡ false → out.new.items ≡ out.old.items) }
    ensures rest { seat.new ≡ record seat.old { outgoing = seat.new.outgoing } }
    ensures fault { IfErr result (IsSendFault own to seat.old.outgoing) }
{
    let mut text = Vec::new(alloc);
    if !seat.write_next(own, to, &mut text)? {
        return Ok(false);
    }
    put_send(out, to, &text)?;
    Ok(true)
}
