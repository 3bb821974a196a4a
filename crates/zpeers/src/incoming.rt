//! What comes from other processes.

ghost use Rattle.std.specs.Prelude.{◌≡◌, ◌≢◌, ◌≤◌, length, None, Some, IfOk, IfErr, OnOk, OnErr};
ghost use Rattle.zcodec.specs.Choices.{sized};
ghost use Rattle.zprotocol.specs.declared.process.Process.{Process};
ghost use Rattle.zwire.specs.declared.limits.TheConstants.{MAX_FRAME};
ghost use Rattle.zsnapshots.specs.Loading.{rows_loaded, IsLoaded};
ghost use Rattle.zpeers.specs.declared.tags.TheConstants.{FRAME as AFrame, END as TheEnd};
ghost use Rattle.zpeers.specs.declared.fault.PeerFault.TheVariants.{Memory as OfMemory};
ghost use Rattle.zpeers.specs.Incoming.{arriving_from, OthersArrive, Accepts, IsPeerFault};
ghost use Rattle.zpeers.specs.Incoming.{IsFaultAt};
ghost use Rattle.zpeers.specs.support.Arriving.{IsHeardFrame, IsRowRefused, IsWholeIn};

use crate::arriving::Arriving;
use crate::fault::PeerFault;
use crate::heard::{Heard, message_in};
use crate::tags::{END, FRAME, ROW};
use std::alloc::Global;
use std::marker::Model;
use zalloc::Memory;
use zcodec::{ReadError, put_sized};
use zprotocol::{Message, PROCESSES, Process};
use zserver::Snapshot;
use zwire::{MAX_FRAME, read_contents};

/// The snapshots whose states are being loaded, at most one of each sender.
#[derive(Drop)]
pub struct Incoming {
    alloc: Global,
    // In the order of the senders.
    slots: Vec<Option<Arriving>>,
}

impl Model for Incoming {
    ghost use Rattle.std.specs.Prelude.{◌≡◌, length};
    ghost use Rattle.zprotocol.specs.declared.limits.TheConstants.{PROCESSES};
    ghost use Rattle.zpeers.specs.Incoming.{IncomingView};
    ghost use Rattle.zpeers.specs.support.Codes.{coded_incoming};

    ghost Value = { IncomingView };

    ghost coded = { coded_incoming };

    ghost view = { λ i. record { slots = i.slots.items } };

    ghost invariant = { λ i. length i.slots.items ≡ PROCESSES };
}

impl Incoming {
    /// Begins with nothing loaded.
    pub fn new(alloc: Global) -> Result<Incoming, Memory>
        ensures { IfOk result (λ i. (from : Process) → arriving_from i from ≡ None) }
    {
        let mut slots = Vec::with_capacity(alloc, PROCESSES)?;
        for _ in 0..PROCESSES {
            slots.push(None)?;
        }
        Ok(Incoming { alloc, slots })
    }

    /// Takes the next record of a sender: its tag, and its bytes without their length. Returns the
    /// message that is whole by it, if one is.
    ///
    /// If it is refused, nothing has changed. Only if memory runs out at the end of a state, what
    /// was loaded of this sender is dropped.
    pub fn take(
        &mut self,
        own: Process,
        from: Process,
        tag: u8,
        bytes: &[u8],
    ) -> Result<Option<Message<Snapshot>>, PeerFault>
        ensures accepted { IfOk result (Accepts own from (record { tag = tag; bytes = bytes.now })
            (arriving_from self.old from) (arriving_from self.new from)) }
        ensures others { OthersArrive self.old self.new from }
        ensures fault { IfErr result (IsPeerFault own from (record { tag = tag; bytes = bytes.now })
            (arriving_from self.old from)) }
        ensures same { IfErr result (λ fault. fault ≢ OfMemory → self.new ≡ self.old) }
    {
        take_at(
            self.alloc,
            &mut self.slots[from.place()],
            own,
            from,
            tag,
            bytes,
        )
    }

    /// Drops what is loaded of a sender.
    pub fn forget(&mut self, from: Process)
        ensures none { arriving_from self.new from ≡ None }
        ensures others { OthersArrive self.old self.new from }
    {
        self.slots[from.place()] = None;
    }
}

// Takes a record of a sender of which this is loaded.
fn take_at(
    alloc: Global,
    slot: &mut Option<Arriving>,
    own: Process,
    from: Process,
    tag: u8,
    bytes: &[u8],
) -> Result<Option<Message<Snapshot>>, PeerFault>
    ensures accepted { IfOk result (Accepts own from (record { tag = tag; bytes = bytes.now })
        slot.old slot.new) }
    ensures fault { IfErr result
        (IsPeerFault own from (record { tag = tag; bytes = bytes.now }) slot.old) }
    ensures same { IfErr result (λ fault. fault ≢ OfMemory → slot.new ≡ slot.old) }
{
    if bytes.len() > MAX_FRAME as usize {
        return Err(PeerFault::TooLong);
    }
    if tag > END {
        return Err(PeerFault::NoTag);
    }
    match slot {
        None => take_frame(alloc, slot, own, from, tag, bytes),
        Some(_) => take_more(alloc, slot, tag, bytes),
    }
}

// Takes a record while nothing is loaded.
fn take_frame(
    alloc: Global,
    slot: &mut Option<Arriving>,
    own: Process,
    from: Process,
    tag: u8,
    bytes: &[u8],
) -> Result<Option<Message<Snapshot>>, PeerFault>
    requires none { slot.old ≡ None }
    requires tag { tag ≤ TheEnd }
    ensures accepted { IfOk result (Accepts own from (record { tag = tag; bytes = bytes.now })
        None slot.new) }
    ensures fault { IfErr result
        (IsFaultAt own from (record { tag = tag; bytes = bytes.now }) None) }
    ensures same { OnErr result (slot.new ≡ slot.old) }
{
    if tag != FRAME {
        return Err(PeerFault::NothingLoaded);
    }
    match whole_frame(alloc, own, from, bytes)? {
        Heard::Whole(message) => Ok(Some(message)),
        Heard::Begun(epoch) => {
            *slot = Some(Arriving::new(alloc, epoch));
            Ok(None)
        }
    }
}

// Reads the frame of a message between these processes.
fn whole_frame(alloc: Global, own: Process, from: Process, bytes: &[u8]) -> Result<Heard, PeerFault>
    ensures heard { IfOk result (IsHeardFrame own from bytes.now) }
    ensures fault { IfErr result
        (IsFaultAt own from (record { tag = AFrame; bytes = bytes.now }) None) }
{
    let frame = match read_contents(alloc, bytes) {
        Ok(frame) => frame,
        Err(ReadError::Fault(fault)) => return Err(PeerFault::Contents(fault)),
        Err(ReadError::Memory) => return Err(PeerFault::Memory),
    };
    if frame.sender != from {
        drop(frame);
        return Err(PeerFault::OtherSender);
    }
    if frame.receiver != own {
        drop(frame);
        return Err(PeerFault::OtherReceiver);
    }
    Ok(message_in(frame.message))
}

// Takes a record while a state is being loaded.
fn take_more(
    alloc: Global,
    slot: &mut Option<Arriving>,
    tag: u8,
    bytes: &[u8],
) -> Result<Option<Message<Snapshot>>, PeerFault>
    requires some { slot.old ≢ None }
    requires tag { tag ≤ TheEnd }
    requires short { length bytes.now ≤ MAX_FRAME }
    ensures accepted { IfOk result (λ it. (own from : Process)
        → Accepts own from (record { tag = tag; bytes = bytes.now }) slot.old slot.new it) }
    ensures fault { IfErr result (λ fault. (own from : Process)
        → IsFaultAt own from (record { tag = tag; bytes = bytes.now }) slot.old fault) }
    ensures same { IfErr result (λ fault. fault ≢ OfMemory → slot.new ≡ slot.old) }
{
    if tag == FRAME {
        return Err(PeerFault::RowsAwaited);
    }
    if tag == ROW {
        let Some(arriving) = slot else {
            unreachable!();
        };
        take_row(alloc, arriving, bytes)?;
        return Ok(None);
    }
    match take_end(alloc, slot, bytes) {
        Ok(message) => Ok(Some(message)),
        Err(fault) => Err(fault),
    }
}

// Takes a row.
fn take_row(alloc: Global, arriving: &mut Arriving, bytes: &[u8]) -> Result<(), PeerFault>
    requires short { length bytes.now ≤ MAX_FRAME }
    ensures taken { OnOk result (IsLoaded (rows_loaded arriving.old.rows)
        (rows_loaded arriving.new.rows) ((sized MAX_FRAME).spell bytes.now)) }
    ensures epoch { arriving.new.epoch ≡ arriving.old.epoch }
    ensures fault { IfErr result
        (IsRowRefused arriving.old.rows ((sized MAX_FRAME).spell bytes.now)) }
    ensures same { OnErr result (arriving.new ≡ arriving.old) }
{
    let mut row = Vec::new(alloc);
    if put_sized(&mut row, bytes).is_err() {
        return Err(PeerFault::Memory);
    }
    arriving.take(&row)
}

// Takes the end of a state, and returns its message.
fn take_end(
    alloc: Global,
    slot: &mut Option<Arriving>,
    bytes: &[u8],
) -> Result<Message<Snapshot>, PeerFault>
    requires some { slot.old ≢ None }
    ensures accepted { IfOk result (λ m. (own from : Process)
        → Accepts own from (record { tag = TheEnd; bytes = bytes.now }) slot.old slot.new (Some m)) }
    ensures fault { IfErr result (λ fault. (own from : Process)
        → IsFaultAt own from (record { tag = TheEnd; bytes = bytes.now }) slot.old fault) }
    ensures same { IfErr result (λ fault. fault ≢ OfMemory → slot.new ≡ slot.old) }
{
    if !bytes.is_empty() {
        return Err(PeerFault::NotEmpty);
    }
    if !is_whole(slot) {
        return Err(PeerFault::Unfinished);
    }
    let Some(arriving) = slot.take() else {
        unreachable!();
    };
    arriving.finish(alloc)
}

// Returns whether the state is whole.
fn is_whole(slot: &Option<Arriving>) -> bool
    requires { slot.now ≢ None }
    ensures { IsWholeIn slot.now result }
{
    match slot {
        Some(arriving) => arriving.is_whole(),
        None => unreachable!(),
    }
}
