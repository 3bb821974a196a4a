//! A run of the program, without its devices.

ghost use Rattle.std.specs.Prelude.{◌≡◌, ◌≤◌, ◌<◌, [], ◌∷◌, IfOk, OnOk};
ghost use Rattle.std.specs.Option.{option_map};
ghost use Rattle.ztree.specs.Limits.{AreLimits};
ghost use Rattle.zarguments.specs.Asked.{texts_of};
ghost use Rattle.zdevices.specs.Device.{Between, sink_run, source_run};
ghost use Rattle.zjournal.specs.declared.file.mode.SyncMode.TheVariants.{Batch};
ghost use Rattle.zjournal.specs.file.File.{seen_of, MayLeaveOf};
ghost use Rattle.zjournal.specs.Device.{Only};
ghost use Rattle.zdaemon.specs.Faults.{HasFailed, IsTold};
ghost use Rattle.zdaemon.specs.Folder.{IsGood};
ghost use Rattle.zdaemon.specs.Guarded.{AreLogins, ServesBehind};
ghost use Rattle.zdaemon.specs.Running.{BeginsInFolder, HasDone, HasRun, IsOpened, new_front};
ghost use Rattle.zdaemon.specs.pipe.Messages.MessageView.{Keep};
ghost use Rattle.zdaemon.specs.pipe.Serving.{ServesAll};

use crate::at_rest::{compact, compact_beginning, export, stat};
use crate::base::base_at;
use crate::fault::HostedFault;
use crate::folder::InFolder;
use crate::guarded::Guarded;
use crate::mending::{report_saved, write_anew};
use crate::pipe::{Secret, ServeFault, Service, read_logins, read_secret, serve_all};
use crate::tasks::{Task, task_of};
use crate::words::{FolderSettings, HostedSettings, hosted_settings};
use std::alloc::Global;
use std::fs;
use std::fs::{File, Files};
use std::io::ErrorKind;
use zarguments::{WordsFault, tell};
use zdevices::{Sink, Source};
use zdurable::{DurableFront, ServerId};
use zfront::{Clock, Front};
use zguard::{Logins, LoginsFault};
use zjournal::file::{FileDevice, FileFault, SyncMode};
use ztree_service::LocalTree;

// From this many bytes on, the opening of a file is reported: it may take a second.
const LONG: usize = 1_048_576;

/// Does what the words ask for, reports a fault on `faults`, and returns the exit status: 0 if the
/// source has ended, or that of the fault (`HostedFault::status`).
///
/// The words are those of `hosted_settings`. Then the secret is read first, then what there is of
/// logins, and then messages.
/// With `NAME FOLDER compact SERVERS` it compacts the journal of the folder, with this number in
/// its head, and prints its length on the sink. With `beginning` instead it compacts all parts of the
/// journal but the last one, to which a server may append. With `export` it writes the lines that
/// make the tree, and with `stat` the size of the folder.
pub fn hosted_command<R: Files<File = File> + Copy, S: Source, K: Sink, F: Sink>(
    alloc: Global,
    files: &R,
    words: &[&str],
    source: &mut S,
    sink: &mut K,
    faults: &mut F,
) -> u8
    ensures status { result ≤ 4 }

    // All that the words ask for is done.
    ensures done { result ≡ 0 → HasRun R (texts_of words.now)
        (source_run S.gave S.failed S.has_ended source.old source.new)
        (sink_run K.took K.failed sink.old sink.new) }

    // A fault ended the run. The last line on `faults` reports it.
    ensures cut { 0 < result → HasFailed (sink_run F.took F.failed) result faults.new }
{
    match run(alloc, files, words, source, sink, faults) {
        Ok(()) => 0,
        Err(fault) => {
            report(alloc, fault, faults);
            fault.status()
        }
    }
}

// Does what the words ask for.
fn run<R: Files<File = File> + Copy, S: Source, K: Sink, F: Sink>(
    alloc: Global,
    files: &R,
    words: &[&str],
    source: &mut S,
    sink: &mut K,
    faults: &mut F,
) -> Result<(), HostedFault>
    ensures { OnOk result (HasRun R (texts_of words.now)
        (source_run S.gave S.failed S.has_ended source.old source.new)
        (sink_run K.took K.failed sink.old sink.new)) }
{
    let [_, folder, ..] = words else {
        return Err(HostedFault::Words(WordsFault::BadWords));
    };
    if let Some((task, last)) = task_of(words) {
        do_task(alloc, files, folder, task, last, sink, faults)?;
        return Ok(());
    }
    let asked = hosted_settings(words)?;
    let secret = read_secret(source)?;
    let text = read_logins(alloc, source)?;
    let logins = logins_of(alloc, text)?;
    let settings = asked.folder;
    match settings {
        None => {
            let front = in_memory(alloc, asked, secret)?;
            serve_behind(alloc, logins, front, source, sink)?;
        }
        Some(kept) => {
            let service = in_folder(alloc, files, folder, asked, kept, secret, faults)?;
            serve_behind(alloc, logins, service, source, sink)?;
        }
    }
    Ok(())
}

// Returns the logins of a text, if there is one.
fn logins_of(alloc: Global, text: Option<Vec<u8>>) -> Result<Option<Logins>, LoginsFault>
    ensures { IfOk result (AreLogins (option_map (λ text. text.items) text)) }
{
    match text {
        Some(text) => Ok(Some(Logins::read(alloc, &text)?)),
        None => Ok(None),
    }
}

// Opens the file of a folder, which is not made if it is missing.
fn found<R: Files<File = File> + Copy>(
    alloc: Global,
    files: &R,
    folder: &str,
) -> Result<FileDevice<R>, HostedFault>
    ensures durable { IfOk result (λ device. Only (seen_of device) (MayLeaveOf device)) }
    ensures opened { IfOk result (IsOpened Batch) }
{
    let mut path = String::new(alloc);
    if write!(path, "{folder}/journal").is_err() {
        return Err(HostedFault::Folder(FileFault::Memory));
    }
    if let Err(error) = fs::symlink_metadata(files, path.as_str()) {
        if error.kind() == ErrorKind::NotFound {
            return Err(HostedFault::Missing);
        }
    }
    Ok(FileDevice::open(alloc, files, folder, SyncMode::Batch)?)
}

// Does a task on a folder.
fn do_task<R: Files<File = File> + Copy, K: Sink, F: Sink>(
    alloc: Global,
    files: &R,
    folder: &str,
    task: Task,
    last: ServerId,
    sink: &mut K,
    faults: &mut F,
) -> Result<(), HostedFault>
    ensures { OnOk result (HasDone R task last
        (sink_run K.took K.failed sink.old sink.new)) }
{
    match task {
        Task::Compact => {
            let device = found(alloc, files, folder)?;
            compact(alloc, device, last, sink, faults)?;
        }
        Task::Beginning => {
            match FileDevice::open_beginning(alloc, files, folder, SyncMode::Batch)? {
                Some(device) => compact_beginning(alloc, device, last, sink)?,
                None => {}
            }
        }
        Task::Export => {
            let mut device = found(alloc, files, folder)?;
            export(alloc, &mut device, last, sink, faults)?;
        }
        Task::Stat => {
            let mut device = found(alloc, files, folder)?;
            stat(alloc, &mut device, last, sink, faults)?;
        }
    }
    Ok(())
}

// Takes all messages (`serve`), behind a guard if there are logins.
fn serve_behind<V: Service + Drop, S: Source, K: Sink>(
    alloc: Global,
    logins: Option<Logins>,
    service: V,
    source: &mut S,
    sink: &mut K,
) -> Result<(), HostedFault>
    requires sound { V.is_sound service }
    ensures all { OnOk result (ServesBehind V.took V.kept V.reported V.has_reported logins
        (Between S.gave source.old source.new) (Between K.took sink.old sink.new) service) }
    ensures ended { OnOk result (S.has_ended source.new) }
{
    match logins {
        Some(logins) => serve(alloc, Guarded::new(alloc, service, logins), source, sink),
        None => serve(alloc, service, source, sink),
    }
}

// Takes all messages (`crate::pipe::serve_all`).
fn serve<V: Service + Drop, S: Source, K: Sink>(
    alloc: Global,
    mut service: V,
    source: &mut S,
    sink: &mut K,
) -> Result<(), HostedFault>
    requires sound { V.is_sound service }
    ensures all { OnOk result ((last : V) × ServesAll V.took V.kept V.reported V.has_reported
        (Keep ∷ []) (Between S.gave source.old source.new) (Between K.took sink.old sink.new)
        service last) }
    ensures ended { OnOk result (S.has_ended source.new) }
{
    match serve_all(alloc, &mut service, source, sink) {
        Ok(()) => Ok(()),
        Err(fault) => Err(HostedFault::Serve(fault)),
    }
}

// Opens a server in memory.
fn in_memory(
    alloc: Global,
    asked: HostedSettings,
    secret: Secret,
) -> Result<Front<LocalTree>, ServeFault>
    requires { AreLimits asked.tree }
    ensures { IfOk result (λ front. front ≡ new_front secret asked) }
{
    let clock = Clock {
        terms: asked.terms,
        started: asked.now,
        base: base_at(asked.now),
    };
    let tree = LocalTree::within(alloc, asked.tree)?;
    Ok(Front::new(alloc, tree, secret, clock, asked.limits, false)?)
}

// Opens the server of a folder. Reports what its clients and its owner should know, and mends what
// an earlier process left.
fn in_folder<R: Files<File = File> + Copy, F: Sink>(
    alloc: Global,
    files: &R,
    folder: &str,
    asked: HostedSettings,
    kept: FolderSettings,
    secret: Secret,
    faults: &mut F,
) -> Result<InFolder<FileDevice<R>>, HostedFault>
    ensures begins { IfOk result (BeginsInFolder secret asked kept) }
    ensures good { IfOk result (λ service. IsGood seen_of MayLeaveOf service.kept) }
{
    let device = FileDevice::open(alloc, files, folder, kept.mode)?;
    device.remove_unfinished();
    report_opening(alloc, device.mode(), device.waiting(), faults);
    let (terms, now, watches, limits) = (asked.terms, asked.now, asked.limits, asked.tree);
    match DurableFront::open(
        alloc, device, kept.last, secret, terms, now, watches, limits,
    ) {
        Ok(opened) => {
            let mut front = opened.kept;
            report_saved(alloc, front.device(), faults);
            write_anew(&mut front, faults)?;
            front.device().share();
            if opened.had_passwords {
                tell(faults, "zk: data: clients of before open new sessions");
            }
            Ok(InFolder::new(front, kept.long))
        }
        Err((fault, _)) => Err(HostedFault::Service(fault)),
    }
}

// Reports that nothing waits for the disk, and that a long file is opened.
fn report_opening<F: Sink>(alloc: Global, mode: SyncMode, size: usize, faults: &mut F) {
    if mode == SyncMode::Never {
        tell(
            faults,
            "zk: --sync never: a power cut may lose or damage acknowledged changes",
        );
    }
    if size >= LONG {
        let mut text = String::new(alloc);
        if write!(text, "zk: data: opening a journal of {size} bytes").is_ok() {
            tell(faults, text.as_str());
        }
    }
}

// Reports a fault.
fn report<F: Sink>(alloc: Global, fault: HostedFault, faults: &mut F)
    ensures { IsTold fault (sink_run F.took F.failed faults.old faults.new) }
{
    let mut text = String::new(alloc);
    match write!(text, "{fault}") {
        Ok(()) => tell(faults, text.as_str()),
        Err(_) => tell(faults, "zk: memory"),
    }
}
