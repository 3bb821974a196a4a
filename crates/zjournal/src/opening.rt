//! Opening a file.
//!
//! # Why
//! A file is read whole, and its text is returned as one string. Batches are whole lines, so no
//! caller needs to know where they began.
//!
//! The sum in a file's head doesn't change. In a new file, and in one that is being made, it is 1.
//!
//! What follows the last block that counts is one clear commit byte, or what a crash or a disk
//! left. Where that is more than one byte it is a caller's to report it. A file that ends as it
//! should isn't written: it may be one that another process reads.

ghost use Rattle.std.specs.Prelude.{◌≡◌, ◌<◌, ◌≤◌, [], List, ℕ, length};
ghost use Rattle.std.specs.Prelude.{IfOk, IfErr, OnOk, IsErrOf};
ghost use Rattle.zjournal.specs.Device.{Only, LeavesOnly};
ghost use Rattle.zjournal.specs.Blocks.{blocks, at_rest};
ghost use Rattle.zjournal.specs.Journal.{holdings, IsUnmade, Represents, IsAtRest, IsOpen, IsSound};
ghost use Rattle.zjournal.specs.Journal.{device_of, start_of, Keeps};
ghost use Rattle.zjournal.specs.Scan.{joined};
ghost use Rattle.zjournal.specs.declared.fault.OpenError.TheVariants as open_fault;
ghost use Rattle.zjournal.specs.Faults.{IsSuch, IsOfContent};
ghost use Rattle.zjournal.specs.Opened.{IsRead};

use crate::commit_bytes::{add_block, close, close_if_open, set_commit_byte};
use crate::head::head_block;
use crate::place::{HEAD_END, Place};
use crate::reading::{Found, look};
use crate::{Content, Device, DeviceError, Journal, OpenError};
use std::alloc::Global;

// Makes a file that has nothing yet.
fn make<D: Device>(device: &mut D, servers: u8) -> Result<(), DeviceError>
    requires some { 0 < servers }
    requires unmade { IsUnmade servers (D.seen device.old) }
    requires durable { Only (D.seen device.old) (D.may_leave device.old) }
    ensures made { OnOk result (D.seen device.new ≡ at_rest (holdings 1 servers [])) }
    ensures durable { OnOk result (Only (D.seen device.new) (D.may_leave device.new)) }
    ensures any_moment { LeavesOnly D.moment D.left_since device.old device.new
        (Represents servers []) }
    ensures failed { IsErrOf result DeviceError.Failed
        → D.faults device.old < D.faults device.new }
{
    close(device, 0)?;
    add_block(device, 0, &head_block(1, servers))
}

/// Reads the batches of a file that a crash may have left, and repairs its end. A crash meanwhile
/// leaves a file that represents the same batches.
pub fn open_file<D: Device>(
    alloc: Global,
    device: &mut D,
    servers: u8,
) -> Result<(Vec<u8>, Place), OpenError>
    requires some { 0 < servers }
    requires durable { Only (D.seen device.old) (D.may_leave device.old) }
    ensures read { IfOk result (λ read. (batches : List (List ℕ))
        × Represents servers batches (D.seen device.old)
        × IsRead D.seen D.may_leave servers batches read.0.items read.1 device.new) }
    ensures start { (batches : List (List ℕ)) (k : Keeps servers batches (D.seen device.old))
        → IfOk result (λ read. read.1.start ≡ k.start) }
    ensures new_start { IsUnmade servers (D.seen device.old)
        → IfOk result (λ read. read.1.start ≡ 1) }
    ensures any_moment { (batches : List (List ℕ)) → Represents servers batches (D.seen device.old)
        → LeavesOnly D.moment D.left_since device.old device.new (Represents servers batches) }
    ensures fault { IfErr result (IsSuch servers (D.seen device.old)) }
    ensures untouched { IfErr result (λ e. IsOfContent e → (D.seen device.new ≡ D.seen device.old)
        × LeavesOnly D.moment D.left_since device.old device.new (λ c. c ≡ D.seen device.old)) }
    ensures failed { IsErrOf result OpenError.Failed
        → D.faults device.old < D.faults device.new }
{
    let bytes = device.read(alloc)?;
    match look(alloc, &bytes, servers)? {
        Found::Unmade => {
            make(device, servers)?;
            Ok((Vec::new(alloc), Place::first(1)))
        }
        Found::Unopened => {
            set_commit_byte(device, 0)?;
            Ok((Vec::new(alloc), Place::first(1)))
        }
        Found::Cached(text, place) => {
            close_if_open(device, &bytes, place.end)?;
            Ok((text, place))
        }
    }
}

/// Reads a file that a crash may have left: the text of all batches, and where the last block that
/// counts ends. The file is not changed.
pub fn read_text<D: Device>(
    alloc: Global,
    device: &mut D,
    servers: u8,
) -> Result<Content, OpenError>
    requires some { 0 < servers }
    requires durable { Only (D.seen device.old) (D.may_leave device.old) }
    ensures text { IfOk result (λ read. (batches : List (List ℕ))
        × Represents servers batches (D.seen device.old) × (read.text.items ≡ joined batches)
        × ((start : ℕ) → read.end ≡ length (blocks (holdings start servers batches)))) }
    ensures size { IfOk result (λ read. read.size ≡ length (D.seen device.old)) }
    ensures seen { D.seen device.new ≡ D.seen device.old }
    ensures durable { Only (D.seen device.new) (D.may_leave device.new) }
    ensures any_moment { LeavesOnly D.moment D.left_since device.old device.new
        (λ c. c ≡ D.seen device.old) }
    ensures fault { IfErr result (IsSuch servers (D.seen device.old)) }
    ensures failed { IsErrOf result OpenError.Failed
        → D.faults device.old < D.faults device.new }
    ensures faults { D.faults device.old ≤ D.faults device.new }
{
    let bytes = device.read(alloc)?;
    let size = bytes.len();
    match look(alloc, &bytes, servers)? {
        Found::Unmade | Found::Unopened => Ok(Content {
            text: Vec::new(alloc),
            end: HEAD_END,
            size,
        }),
        Found::Cached(text, place) => Ok(Content {
            text,
            end: place.end,
            size,
        }),
    }
}

/// Opens the journal of a file that a crash may have left, or makes one of a new file. Returns it
/// with the text of all batches. A crash meanwhile leaves a file that represents the same batches.
/// The file's head holds the number of servers, at least 1. An `Err` returns the device.
pub fn open<D: Device>(
    alloc: Global,
    device: D,
    servers: u8,
) -> Result<(Journal<D>, Vec<u8>), (OpenError, D)>
    requires some { 0 < servers }
    // After a restart, a read returns what is durable.
    requires durable { Only (D.seen device) (D.may_leave device) }
    ensures journal { IfOk result (λ opened. (batches : List (List ℕ))
        × Represents servers batches (D.seen device)
        × IsAtRest D.seen D.may_leave servers batches opened.0
        × IsOpen opened.0 × (opened.1.items ≡ joined batches)) }
    ensures start { (batches : List (List ℕ)) (k : Keeps servers batches (D.seen device))
        → IfOk result (λ opened. start_of opened.0 ≡ k.start) }
    ensures new_start { IsUnmade servers (D.seen device)
        → IfOk result (λ opened. start_of opened.0 ≡ 1) }
    ensures sound { IfOk result (λ opened. IsSound D.seen D.may_leave opened.0) }
    ensures any_moment { (batches : List (List ℕ)) → Represents servers batches (D.seen device)
        → IfOk result (λ opened. LeavesOnly D.moment D.left_since device (device_of opened.0)
        (Represents servers batches)) }
    ensures any_moment_err { (batches : List (List ℕ)) → Represents servers batches (D.seen device)
        → IfErr result (λ e. LeavesOnly D.moment D.left_since device e.1
        (Represents servers batches)) }
    ensures fault { IfErr result (λ e. IsSuch servers (D.seen device) e.0) }
    ensures untouched { IfErr result (λ e. IsOfContent e.0 → (D.seen e.1 ≡ D.seen device)
        × LeavesOnly D.moment D.left_since device e.1 (λ c. c ≡ D.seen device)) }
    ensures failed { IfErr result (λ e. e.0 ≡ open_fault.Failed
        → D.faults device < D.faults e.1) }
{
    let mut device = device;
    match open_file(alloc, &mut device, servers) {
        Ok((text, place)) => Ok((
            Journal {
                alloc,
                device,
                servers,
                place,
                renewed: Place::first(1),
                is_open: true,
            },
            text,
        )),
        Err(e) => Err((e, device)),
    }
}
