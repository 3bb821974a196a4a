//! Fields of messages, written at the end of bytes. Each function says too that what it writes
//! fits.

ghost use Rattle.std.specs.Prelude.{◌≡◌, ◌++◌, OnOk};
ghost use Rattle.zwire.specs.Fields.{call_number, log_number, epoch as epoch_form};
ghost use Rattle.zwire.specs.Fields.{client as client_form, process as process_form};
ghost use Rattle.zwire.specs.Fields.{three, zxids_of, four, five, counts_of, sizes_of};
ghost use Rattle.zwire.specs.Fields.{stat as stat_form, refusal as refusal_form};
ghost use Rattle.zwire.specs.Messages.{last as last_form, end as end_form};

use crate::records::put_server;
use std::alloc::AllocError;
use zcalls::{CallNumber, ClientId, Refusal, Stat};
use zcodec::{put_flag, put_u8, put_u64};
use zprotocol::{Epoch, LogNumber, Process, ServerId};

/// Writes the number of a call.
#[tactic(auto, unfolding(crate::specs::Fields::call_number))]
pub fn put_call_number(out: &mut Vec<u8>, number: CallNumber) -> Result<(), AllocError>
    ensures text { OnOk result (out.new.items ≡ out.old.items ++ call_number.spell number) }
    ensures fits { OnOk result (call_number.Fits number) }
{
    put_u64(out, number.number())
}

/// Writes the number of a log entry.
#[tactic(auto, unfolding(crate::specs::Fields::log_number))]
pub fn put_log_number(out: &mut Vec<u8>, entry: LogNumber) -> Result<(), AllocError>
    ensures text { OnOk result (out.new.items ≡ out.old.items ++ log_number.spell entry) }
    ensures fits { OnOk result (log_number.Fits entry) }
{
    put_u64(out, entry.number())
}

/// Writes an epoch.
#[tactic(auto, unfolding(crate::specs::Fields::epoch))]
pub(crate) fn put_epoch(out: &mut Vec<u8>, epoch: Epoch) -> Result<(), AllocError>
    ensures text { OnOk result (out.new.items ≡ out.old.items ++ epoch_form.spell epoch) }
    ensures fits { OnOk result (epoch_form.Fits epoch) }
{
    put_u64(out, epoch.number())
}

/// Writes the id of a client.
#[tactic(auto, unfolding(crate::specs::Fields::client))]
pub fn put_client(out: &mut Vec<u8>, client: ClientId) -> Result<(), AllocError>
    ensures text { OnOk result (out.new.items ≡ out.old.items ++ client_form.spell client) }
    ensures fits { OnOk result (client_form.Fits client) }
{
    put_u8(out, client.number())
}

/// Writes a log number, or none.
#[tactic(auto, unfolding(crate::specs::Messages::last))]
pub(crate) fn put_last(out: &mut Vec<u8>, last: Option<LogNumber>) -> Result<(), AllocError>
    ensures text { OnOk result (out.new.items ≡ out.old.items ++ last_form.spell last) }
    ensures fits { OnOk result (last_form.Fits last) }
{
    match last {
        Some(number) => {
            put_flag(out, true)?;
            put_log_number(out, number)
        }
        None => put_flag(out, false),
    }
}

/// Writes the id of a server, or none.
#[tactic(auto, unfolding(crate::specs::Messages::end))]
pub(crate) fn put_end(out: &mut Vec<u8>, end: Option<ServerId>) -> Result<(), AllocError>
    ensures text { OnOk result (out.new.items ≡ out.old.items ++ end_form.spell end) }
    ensures fits { OnOk result (end_form.Fits end) }
{
    match end {
        Some(server) => {
            put_flag(out, true)?;
            put_server(out, server)
        }
        None => put_flag(out, false),
    }
}

/// Writes a process.
#[tactic(auto, unfolding(crate::specs::Fields::process))]
pub(crate) fn put_process(out: &mut Vec<u8>, process: Process) -> Result<(), AllocError>
    ensures text { OnOk result (out.new.items ≡ out.old.items ++ process_form.spell process) }
    ensures fits { OnOk result (process_form.Fits process) }
{
    match process {
        Process::Master => put_u8(out, 0),
        Process::Server(server) => {
            put_u8(out, 1)?;
            put_server(out, server)
        }
        Process::Client(client) => {
            put_u8(out, 2)?;
            put_client(out, client)
        }
    }
}

/// Writes a stat.
#[tactic(auto, unfolding(crate::specs::Fields::stat))]
pub(crate) fn put_stat(out: &mut Vec<u8>, stat: &Stat) -> Result<(), AllocError>
    ensures text { OnOk result (out.new.items ≡ out.old.items ++ stat_form.spell stat.now) }
    ensures fits { OnOk result (stat_form.Fits stat.now) }
{
    put_zxids(out, stat)?;
    put_counts(out, stat)?;
    put_sizes(out, stat)
}

// Writes its three zxids.
fn put_zxids(out: &mut Vec<u8>, stat: &Stat) -> Result<(), AllocError>
    ensures text { OnOk result (out.new.items ≡ out.old.items ++ three.spell (zxids_of stat.now)) }
    ensures fits { OnOk result (three.Fits (zxids_of stat.now)) }
{
    put_u64(out, stat.czxid.number())?;
    put_u64(out, stat.mzxid.number())?;
    put_u64(out, stat.pzxid.number())
}

// Writes its two times and its three versions.
fn put_counts(out: &mut Vec<u8>, stat: &Stat) -> Result<(), AllocError>
    ensures text { OnOk result
        (out.new.items ≡ out.old.items ++ five.spell (counts_of stat.now)) }
    ensures fits { OnOk result (five.Fits (counts_of stat.now)) }
{
    put_u64(out, stat.ctime)?;
    put_later_counts(out, stat)
}

// Writes those of them that come after the first.
fn put_later_counts(out: &mut Vec<u8>, stat: &Stat) -> Result<(), AllocError>
    ensures text { OnOk result
        (out.new.items ≡ out.old.items ++ four.spell (counts_of stat.now).1) }
    ensures fits { OnOk result (four.Fits (counts_of stat.now).1) }
{
    put_u64(out, stat.mtime)?;
    put_u64(out, stat.version)?;
    put_u64(out, stat.cversion)?;
    put_u64(out, stat.aversion)
}

// Writes its owner, its length and its number of children.
fn put_sizes(out: &mut Vec<u8>, stat: &Stat) -> Result<(), AllocError>
    ensures text { OnOk result (out.new.items ≡ out.old.items ++ three.spell (sizes_of stat.now)) }
    ensures fits { OnOk result (three.Fits (sizes_of stat.now)) }
{
    put_u64(out, stat.owner)?;
    put_u64(out, stat.length)?;
    put_u64(out, stat.children)
}

/// Writes why a call was refused.
#[tactic(auto, unfolding(crate::specs::Fields::refusal))]
pub(crate) fn put_refusal(out: &mut Vec<u8>, refusal: Refusal) -> Result<(), AllocError>
    ensures text { OnOk result (out.new.items ≡ out.old.items ++ refusal_form.spell refusal) }
    ensures fits { OnOk result (refusal_form.Fits refusal) }
{
    match refusal {
        Refusal::NoNode => put_u8(out, 0),
        Refusal::NodeExists => put_u8(out, 1),
        Refusal::NotEmpty => put_u8(out, 2),
        Refusal::BadVersion => put_u8(out, 3),
        Refusal::NoChildrenForEphemerals => put_u8(out, 4),
        Refusal::SessionGone => put_u8(out, 5),
        Refusal::SequenceFull => put_u8(out, 6),
        Refusal::PathLimit => put_u8(out, 7),
        Refusal::RootFixed => put_u8(out, 8),
        Refusal::Full => put_u8(out, 9),
        Refusal::TooManySessions => put_u8(out, 10),
        Refusal::Exhausted => put_u8(out, 11),
    }
}
