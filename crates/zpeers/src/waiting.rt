//! A message that waits to be sent.

ghost use Rattle.std.specs.Prelude.{◌≡◌, ◌+◌, ◌^◌, ◌<◌, ◌++◌, [], true, false, Some, length, drop};
ghost use Rattle.std.specs.Prelude.{IfOk, IfErr, OnOk, OnErr};
ghost use Rattle.zwire.specs.declared.fault.WriteError.TheVariants.{TooLong};
ghost use Rattle.zwire.specs.declared.limits.TheConstants.{MAX_FRAME};
ghost use Rattle.zwire.specs.Frames.{contents, frame_of};
ghost use Rattle.zsnapshots.specs.States.{AreKeysOf};
ghost use Rattle.zpeers.specs.Records.{link_record, frame_record, state_records, after_frame};
ghost use Rattle.zpeers.specs.Outgoing.{IsLongFrame};
ghost use Rattle.zpeers.specs.support.Waiting.{HasKeys, IsRecordWritten};
ghost use Rattle.zpeers.specs.support.Waiting.{IsFirstWritten, IsLastWritten};

use crate::tags::{END, FRAME, ROW};
use std::alloc::{AllocError, Global};
use std::marker::Model;
use zalloc::Memory;
use zops::Machine;
use zprotocol::{Message, Process};
use zserver::Snapshot;
use zsnapshots::RowKeys;
use zwire::{WriteError, write_frame};

/// A message that waits. Of a snapshot, some records may have been written.
#[derive(Drop)]
pub(crate) struct Waiting {
    message: Message<Snapshot>,
    // The keys of the rows of its state, once its frame was written.
    keys: Option<RowKeys>,
    // How many rows were written.
    rows: usize,
}

impl Model for Waiting {
    ghost use Rattle.zpeers.specs.Outgoing.{WaitingView};
    ghost use Rattle.zpeers.specs.support.Codes.{coded_waiting};
    ghost use Rattle.zpeers.specs.support.Waiting.{IsWaiting, written_by};

    ghost Value = { WaitingView };

    ghost coded = { coded_waiting };

    ghost view = { λ w. record { message = w.message; written = written_by w.keys w.rows } };

    ghost invariant = { λ w. IsWaiting w.message w.keys w.rows };
}

impl Waiting {
    /// Returns a message of which no record was written.
    pub(crate) fn new(message: Message<Snapshot>) -> Waiting
        ensures { result ≡ record { message = message; written = 0 } }
    {
        Waiting {
            message,
            keys: None,
            rows: 0,
        }
    }

    /// Appends the next record. Returns whether more of them follow. On an error nothing has
    /// changed.
    pub(crate) fn write_next(
        &mut self,
        alloc: Global,
        own: Process,
        to: Process,
        out: &mut Vec<u8>,
    ) -> Result<bool, WriteError>
        ensures more { IfOk result (λ more. more ≡ true
            → IsFirstWritten own to self.old self.new out.old.items out.new.items) }
        ensures last { IfOk result (λ more. more ≡ false
            → IsLastWritten own to self.old out.old.items out.new.items) }
        ensures long { IfErr result (IsLongFrame own to self.old) }
        ensures err { OnErr result (self.new ≡ self.old) }
        ensures out { OnErr result (out.new.items ≡ out.old.items) }
    {
        let Some(keys) = &self.keys else {
            return self.write_first(alloc, own, to, out);
        };
        let Ok(more) = put_further(alloc, &self.message, keys, self.rows, out) else {
            return Err(WriteError::Memory);
        };
        if more {
            self.rows += 1;
        }
        Ok(more)
    }

    // Appends the frame.
    fn write_first(
        &mut self,
        alloc: Global,
        own: Process,
        to: Process,
        out: &mut Vec<u8>,
    ) -> Result<bool, WriteError>
        requires { self.old.written ≡ 0 }
        ensures more { IfOk result (λ more. more ≡ true
            → IsFirstWritten own to self.old self.new out.old.items out.new.items) }
        ensures last { IfOk result (λ more. more ≡ false
            → IsLastWritten own to self.old out.old.items out.new.items) }
        ensures long { IfErr result (IsLongFrame own to self.old) }
        ensures err { OnErr result (self.new ≡ self.old) }
        ensures out { OnErr result (out.new.items ≡ out.old.items) }
    {
        let Ok(keys) = keys_of(&self.message) else {
            return Err(WriteError::Memory);
        };
        if let Err(error) = put_frame(alloc, own, to, &self.message, out) {
            drop(keys);
            return Err(error);
        }
        let Some(keys) = keys else {
            return Ok(false);
        };
        self.keys = Some(keys);
        Ok(true)
    }
}

// Returns the keys of the rows of a message's state, if it has one.
fn keys_of(message: &Message<Snapshot>) -> Result<Option<RowKeys>, Memory>
    ensures { IfOk result (HasKeys message.now) }
{
    let Message::Snapshot(_, snapshot) = message else {
        return Ok(None);
    };
    Ok(Some(RowKeys::new(snapshot.machine())?))
}

// Appends the record of a message's frame.
fn put_frame(
    alloc: Global,
    own: Process,
    to: Process,
    message: &Message<Snapshot>,
    out: &mut Vec<u8>,
) -> Result<(), WriteError>
    ensures ok { OnOk result (out.new.items
        ≡ out.old.items ++ link_record.spell (frame_record own to message.now)) }
    ensures fits { OnOk result (link_record.Fits (frame_record own to message.now)) }
    ensures long { IfErr result (λ error. error ≡ TooLong
        → MAX_FRAME < length (contents.spell (frame_of own to message.now))) }
    ensures err { OnErr result (out.new.items ≡ out.old.items) }
{
    let before = out.len();
    let Ok(()) = out.extend_from_slice(&[FRAME]) else {
        return Err(WriteError::Memory);
    };
    match write_frame(alloc, out, own, to, message) {
        Ok(()) => Ok(()),
        Err(error) => {
            out.truncate(before);
            Err(error)
        }
    }
}

// Appends a record of a message's state: the row with this number, or else the end. Returns whether
// it was a row.
fn put_further(
    alloc: Global,
    message: &Message<Snapshot>,
    keys: &RowKeys,
    number: usize,
    out: &mut Vec<u8>,
) -> Result<bool, AllocError>
    requires keys { HasKeys message.now (Some keys.now) }
    requires within { number < length (after_frame message.now) }
    ensures row { IfOk result (λ more. more ≡ true → IsRecordWritten
        (drop number (after_frame message.now)) (drop (number + 1) (after_frame message.now))
        out.old.items out.new.items) }
    ensures rest { IfOk result (λ more. more ≡ true
        → number + 1 < length (after_frame message.now)) }
    ensures room { IfOk result (λ more. more ≡ true → number + 1 < 2 ^ 64) }
    ensures end { IfOk result (λ more. more ≡ false
        → IsRecordWritten (drop number (after_frame message.now)) [] out.old.items out.new.items) }
    ensures err { OnErr result (out.new.items ≡ out.old.items) }
{
    let Message::Snapshot(_, snapshot) = message else {
        unreachable!();
    };
    put_state_record(alloc, snapshot.machine(), keys, number, out)
}

// Appends a record of a machine's state: the row with this number, or else the end. Returns whether
// it was a row.
fn put_state_record(
    alloc: Global,
    machine: &Machine,
    keys: &RowKeys,
    number: usize,
    out: &mut Vec<u8>,
) -> Result<bool, AllocError>
    requires whole { machine.now.is_broken ≡ false }
    requires keys { AreKeysOf keys.now machine.now.state }
    requires all { keys.now.is_alone ≡ false }
    requires within { number < length (state_records machine.now.state) }
    ensures row { IfOk result (λ more. more ≡ true → IsRecordWritten
        (drop number (state_records machine.now.state))
        (drop (number + 1) (state_records machine.now.state)) out.old.items out.new.items) }
    ensures rest { IfOk result (λ more. more ≡ true
        → number + 1 < length (state_records machine.now.state)) }
    ensures room { IfOk result (λ more. more ≡ true → number + 1 < 2 ^ 64) }
    ensures end { IfOk result (λ more. more ≡ false → IsRecordWritten
        (drop number (state_records machine.now.state)) [] out.old.items out.new.items) }
    ensures err { OnErr result (out.new.items ≡ out.old.items) }
{
    let before = out.len();
    out.extend_from_slice(&[ROW])?;
    match keys.write_row(alloc, machine, number, out) {
        Ok(true) => Ok(true),
        Ok(false) => {
            out.truncate(before);
            out.extend_from_slice(&[END, 0, 0, 0, 0])?;
            Ok(false)
        }
        Err(error) => {
            out.truncate(before);
            Err(error)
        }
    }
}
