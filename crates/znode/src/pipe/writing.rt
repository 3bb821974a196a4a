//! Outputs, written at the end of bytes.

ghost use Rattle.std.specs.Prelude.{◌≡◌, ◌≤◌, ◌++◌, OnOk, length};
ghost use Rattle.zpeers.specs.Records.{LinkRecord, link_record};
ghost use Rattle.zwire.specs.Fields.{process as process_form};
ghost use Rattle.znode.specs.pipe.Outputs.{output};
ghost use Rattle.znode.specs.pipe.Outputs.OutputView.{Send, Append, Status, End};
ghost use Rattle.znode.specs.declared.limits.TheConstants.{MAX_ENTRY};
ghost use Rattle.znode.specs.Turns.{status_output};

use crate::flags::{flags_of, number_of};
use crate::status::NodeStatus;
use std::alloc::AllocError;
use zcodec::{put_flag, put_sized, put_u8, put_u64};
use zmaster_log::EntryCount;
use zprotocol::Process;
use zwire::put_client;
use zwire::records::put_server;

/// Writes that the record of a link that these bytes spell is to be sent to this process.
#[tactic(auto, unfolding(crate::specs::pipe::Outputs::output, crate::specs::pipe::Outputs::sent))]
pub fn put_send(out: &mut Vec<u8>, to: Process, text: &[u8]) -> Result<(), AllocError>
    ensures { OnOk result ((it : LinkRecord) → text.now ≡ link_record.spell it
        → out.new.items ≡ out.old.items ++ output.spell (Send to it)) }
{
    put_u8(out, 0)?;
    put_process(out, to)?;
    out.extend_from_slice(text)?;
    Ok(())
}

/// Writes that this entry is to be appended at this index, if it is the next one. No entry of the
/// log is longer than `MAX_ENTRY`.
#[tactic(auto, unfolding(crate::specs::pipe::Outputs::output, crate::specs::pipe::Inputs::listed, zmaster_log::specs::Bytes::count))]
pub fn put_append(out: &mut Vec<u8>, index: EntryCount, entry: &[u8]) -> Result<(), AllocError>
    requires { length entry.now ≤ MAX_ENTRY }
    ensures { OnOk result (out.new.items
        ≡ out.old.items ++ output.spell (Append index entry.now)) }
{
    put_u8(out, 1)?;
    put_u64(out, index.number())?;
    put_sized(out, entry)
}

/// Writes the status of the node.
#[tactic(auto, unfolding(crate::specs::pipe::Outputs::output, crate::specs::pipe::Outputs::stated))]
pub fn put_status(out: &mut Vec<u8>, status: &NodeStatus) -> Result<(), AllocError>
    ensures { OnOk result (out.new.items
        ≡ out.old.items ++ output.spell (status_output status.now)) }
{
    put_u8(out, 2)?;
    put_u8(out, number_of(status))?;
    put_u8(out, flags_of(status))
}

/// Writes the end of an answer, and whether more waits.
#[tactic(auto, unfolding(crate::specs::pipe::Outputs::output))]
pub fn put_end(out: &mut Vec<u8>, more: bool) -> Result<(), AllocError>
    ensures { OnOk result (out.new.items ≡ out.old.items ++ output.spell (End more)) }
{
    put_u8(out, 3)?;
    put_flag(out, more)
}

// Writes a process.
#[tactic(auto, unfolding(zwire::specs::Fields::process))]
fn put_process(out: &mut Vec<u8>, process: Process) -> Result<(), AllocError>
    ensures { OnOk result (out.new.items ≡ out.old.items ++ process_form.spell process) }
{
    match process {
        Process::Master => put_u8(out, 0),
        Process::Server(server) => {
            put_u8(out, 1)?;
            put_server(out, server)
        }
        Process::Client(client) => {
            put_u8(out, 2)?;
            put_client(out, client)
        }
    }
}
