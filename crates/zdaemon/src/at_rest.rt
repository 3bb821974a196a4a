//! A folder that no server has open: its journal is compacted, its tree is written as lines, or its
//! size is printed.

ghost use Rattle.std.specs.Prelude.{◌≡◌, false, OnOk};
ghost use Rattle.zdevices.specs.Device.{sink_run};
ghost use Rattle.zjournal.specs.Device.{Only};
ghost use Rattle.zjournal.specs.file.File.{seen_of, MayLeaveOf};
ghost use Rattle.zarguments.specs.Reporting.{IsReported};
ghost use Rattle.zdaemon.specs.AtRest.{IsBeginningReported, IsCompactionReported, IsExported};
ghost use Rattle.zdaemon.specs.AtRest.{IsStatReported, compacted_text};

use crate::fault::HostedFault;
use crate::folder::unkept;
use crate::mending::{report_left_out, report_saved};
use crate::pipe::ServeFault;
use std::alloc::Global;
use std::fs::{File, Files};
use zarguments::tell;
use zdevices::{Sink, write_all};
use zdurable::{Looked, OpenFault, ServerId, Stored, folder_stat, look};
use zjournal::Device;
use zjournal::file::FileDevice;
use zsnapshots::export::{ExportFault, Machine, counts, write_export, write_left_out, write_stat};

/// Compacts the journal, and prints how many bytes it has, and had. Before that it reports on
/// `faults` what the opening cut off.
pub(crate) fn compact<R: Files<File = File> + Copy, K: Sink, F: Sink>(
    alloc: Global,
    device: FileDevice<R>,
    servers: ServerId,
    sink: &mut K,
    faults: &mut F,
) -> Result<(), HostedFault>
    requires durable { Only (seen_of device) (MayLeaveOf device) }
    ensures compacted { OnOk result (IsCompactionReported (seen_of {R = R}) (MayLeaveOf {R = R})
        servers (seen_of device) (sink_run K.took K.failed sink.old sink.new)) }
{
    device.remove_unfinished();
    let mut stored = match Stored::open(alloc, device, servers) {
        Ok(stored) => stored,
        Err((fault, _)) => return Err(unread(fault)),
    };
    report_saved(alloc, stored.device(), faults);
    let before = stored.size();
    if let Err(fault) = stored.compact() {
        return Err(HostedFault::Serve(unkept(fault)));
    }
    stored.device().forget_failure();
    let after = stored.size();
    report_lengths(alloc, after, before, sink)?;
    Ok(())
}

/// Compacts a device that has all parts of a journal but the last one, and prints how many bytes it
/// has, and had.
pub(crate) fn compact_beginning<R: Files<File = File> + Copy, K: Sink>(
    alloc: Global,
    device: FileDevice<R>,
    servers: ServerId,
    sink: &mut K,
) -> Result<(), HostedFault>
    requires durable { Only (seen_of device) (MayLeaveOf device) }
    ensures compacted { OnOk result (IsBeginningReported (seen_of {R = R}) (MayLeaveOf {R = R})
        servers (seen_of device) (sink_run K.took K.failed sink.old sink.new)) }
{
    let mut stored = match Stored::open(alloc, device, servers) {
        Ok(stored) => stored,
        Err((fault, _)) => return Err(unread(fault)),
    };
    let before = stored.size();
    if let Err(fault) = stored.compact_beginning() {
        return Err(HostedFault::Serve(unkept(fault)));
    }
    let len = stored.size();
    report_lengths(alloc, len, before, sink)?;
    Ok(())
}

// Prints the lengths of a journal after its compaction and before.
fn report_lengths<K: Sink>(
    alloc: Global,
    after: usize,
    before: usize,
    sink: &mut K,
) -> Result<(), HostedFault>
    ensures { OnOk result (IsReported (sink_run K.took K.failed sink.old sink.new)
        (compacted_text after before)) }
{
    let mut text = String::new(alloc);
    match write!(text, "{after} bytes, before {before}") {
        Ok(()) => {
            tell(sink, text.as_str());
            Ok(())
        }
        Err(_) => Err(HostedFault::Serve(ServeFault::Memory)),
    }
}

/// Writes the lines of the tree that the file holds. Before that it reports on `faults` what they
/// leave out, and bytes that no commit byte counts.
pub(crate) fn export<D: Device, K: Sink, F: Sink>(
    alloc: Global,
    device: &mut D,
    servers: ServerId,
    sink: &mut K,
    faults: &mut F,
) -> Result<(), HostedFault>
    requires durable { Only (D.seen device.old) (D.may_leave device.old) }
    ensures exported { OnOk result
        (IsExported servers (D.seen device.old)
        (sink_run K.took K.failed sink.old sink.new)) }
    ensures seen { D.seen device.new ≡ D.seen device.old }
{
    let Looked { found, end, size } = match look(alloc, device, servers) {
        Ok(it) => it,
        Err(fault) => return Err(unread(fault)),
    };
    report_left_out(alloc, end, size, faults);
    let Ok(machine) = found.tree.machine() else {
        return Err(HostedFault::Serve(ServeFault::Memory));
    };
    report_omitted(alloc, machine, faults)?;
    match write_export(alloc, machine, sink) {
        Ok(()) => Ok(()),
        Err(ExportFault::Memory) => Err(HostedFault::Serve(ServeFault::Memory)),
        Err(ExportFault::Write) => Err(HostedFault::Serve(ServeFault::Write)),
    }
}

// Reports what an export leaves out. If that fails, the export continues.
fn report_omitted<F: Sink>(
    alloc: Global,
    machine: &Machine,
    faults: &mut F,
) -> Result<(), HostedFault>
    requires whole { machine.now.is_broken ≡ false }
{
    let mut text = String::new(alloc);
    let written = match counts(machine) {
        Ok(counts) => write_left_out(&counts, &mut text),
        Err(memory) => Err(memory),
    };
    if written.is_err() {
        return Err(HostedFault::Serve(ServeFault::Memory));
    }
    let _ = write_all(faults, text.as_bytes());
    Ok(())
}

/// Prints the counts of the file, and its size. Before that it reports on `faults` bytes that no
/// commit byte counts.
pub(crate) fn stat<D: Device, K: Sink, F: Sink>(
    alloc: Global,
    device: &mut D,
    servers: ServerId,
    sink: &mut K,
    faults: &mut F,
) -> Result<(), HostedFault>
    requires durable { Only (D.seen device.old) (D.may_leave device.old) }
    ensures reported { OnOk result (IsStatReported servers (D.seen device.old)
        (sink_run K.took K.failed sink.old sink.new)) }
    ensures seen { D.seen device.new ≡ D.seen device.old }
{
    let (stat, end) = match folder_stat(alloc, device, servers) {
        Ok(found) => found,
        Err(fault) => return Err(unread(fault)),
    };
    report_left_out(alloc, end, stat.journal as usize, faults);
    let mut text = String::new(alloc);
    if write_stat(&stat, &mut text).is_err() {
        return Err(HostedFault::Serve(ServeFault::Memory));
    }
    match write_all(sink, text.as_bytes()) {
        Ok(()) => Ok(()),
        Err(_) => Err(HostedFault::Serve(ServeFault::Write)),
    }
}

// Why a file isn't read. A journal that holds no changes is a script's.
fn unread(fault: OpenFault) -> HostedFault {
    match fault {
        OpenFault::NotRecords => HostedFault::Script,
        fault => HostedFault::Service(fault),
    }
}
