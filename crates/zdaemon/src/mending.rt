//! What an opening mends: bytes that no commit byte counts, and a sync that failed before.
//!
//! # Why
//! The device saves such bytes before it cuts them off. A crash may leave them in the middle of a
//! write, and so may a disk that changes a commit byte: so they are reported.

ghost use Rattle.std.specs.Prelude.{OnOk};
ghost use Rattle.zjournal.specs.file.File.{seen_of, had_failed_of, MayLeaveOf};
ghost use Rattle.zdurable.specs.DurableFront.{disk_of};
ghost use Rattle.zdaemon.specs.Folder.{IsGood, IsMended};

use crate::fault::HostedFault;
use crate::folder::unkept;
use std::alloc::Global;
use std::fs::{File, Files};
use zarguments::tell;
use zdevices::Sink;
use zdurable::DurableFront;
use zjournal::file::{FileDevice, Tail};

/// Reports what the opening of this device cut off, and where it is saved.
pub(crate) fn report_saved<R: Files<File = File> + Copy, F: Sink>(
    alloc: Global,
    device: &FileDevice<R>,
    faults: &mut F,
) {
    if let Some(tail) = device.tail() {
        report_tail(alloc, tail, "in journal.cut", faults);
    }
}

/// Reports bytes that no commit byte counts, in a file of this size that is only read: those after
/// the clear commit byte at the end of its blocks.
pub(crate) fn report_left_out<F: Sink>(alloc: Global, end: usize, size: usize, faults: &mut F) {
    let count = size.saturating_sub(end);
    if count > 1 {
        report_tail(alloc, Tail { at: end, count }, "left out", faults);
    }
}

fn report_tail<F: Sink>(alloc: Global, tail: Tail, place: &str, faults: &mut F) {
    let Tail { at, count } = tail;
    let mut text = String::new(alloc);
    let written = write!(
        text,
        "zk: data: no commit byte counts {count} bytes of the journal from byte {at} on: they are \
         {place}"
    );
    match written {
        Ok(()) => tell(faults, text.as_str()),
        Err(_) => tell(
            faults,
            "zk: data: no commit byte counts the end of the journal",
        ),
    }
}

/// Writes the journal anew if a sync failed before: then what was read may not be durable. After an
/// error the mark of that failure stays.
pub(crate) fn write_anew<R: Files<File = File> + Copy, F: Sink>(
    kept: &mut DurableFront<FileDevice<R>>,
    faults: &mut F,
) -> Result<(), HostedFault>
    requires { IsGood seen_of MayLeaveOf kept.old }
    ensures good { OnOk result (IsGood seen_of MayLeaveOf kept.new) }
    ensures mended { OnOk result (IsMended seen_of MayLeaveOf
        (had_failed_of (disk_of kept.old)) kept.old kept.new) }
{
    if !kept.device().had_failed() {
        return Ok(());
    }
    tell(
        faults,
        "zk: data: the disk failed before: the journal is written anew",
    );
    if let Err(fault) = kept.compact() {
        return Err(HostedFault::Serve(unkept(fault)));
    }
    kept.device().forget_failure();
    Ok(())
}
