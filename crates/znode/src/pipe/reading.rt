//! Inputs, read from the front of bytes.

ghost use Rattle.std.specs.Prelude.{◌≡◌, ◌++◌, List, ℕ, Ok, IfOk};
ghost use Rattle.zcodec.specs.Readers.{Reads};
ghost use Rattle.zwire.specs.Fields.{process, process_at};
ghost use Rattle.zmaster_log.specs.Bytes.{count};
ghost use Rattle.znode.specs.pipe.Inputs.{InputView, input_of, input, input_at, listed, came};

use crate::limits::MAX_ENTRY;
use crate::pipe::input::NodeInput;
use zcodec::{Fault, sized_at, u8_at, u64_at};
use zmaster_log::EntryCount;
use zprotocol::Process;
use zwire::records::server_at;
use zwire::{MAX_FRAME, client_at};

/// Reads the first input of the bytes, with what follows it.
///
/// `Fault::Short` means that more bytes are needed. Any other fault is final: no input begins so.
pub fn next_input(bytes: &[u8]) -> Result<(NodeInput<'_>, &[u8]), Fault>
    // What is read is spelled so, and fits.
    ensures found { IfOk result (λ x. input.Fits (input_of x.0)
        × (bytes.now ≡ input.spell (input_of x.0) ++ x.1.now)) }
    // What is spelled so is read.
    ensures only { (it : InputView) (rest : List ℕ) → input.Fits it
        → bytes.now ≡ input.spell it ++ rest
        → Reads {Y = InputView × List ℕ} (λ x. (input_of x.0, x.1.now)) result
        (Ok (it, rest)) }
    // Which fault it is.
    ensures exact { Reads (λ x. (input_of x.0, x.1.now)) result (input.read bytes.now) }
{
    read(bytes)
}

// The same, by the definition of reading alone.
#[tactic(auto, unfolding(crate::specs::pipe::Inputs::input))]
fn read(bytes: &[u8]) -> Result<(NodeInput<'_>, &[u8]), Fault>
    ensures { Reads (λ x. (input_of x.0, x.1.now)) result (input.read bytes.now) }
{
    let (tag, rest) = u8_at(bytes)?;
    read_behind(tag, rest)
}

// Reads what follows the tag of an input.
#[tactic(auto, unfolding(crate::specs::pipe::Inputs::input_at))]
fn read_behind(tag: u8, bytes: &[u8]) -> Result<(NodeInput<'_>, &[u8]), Fault>
    ensures { Reads (λ x. (input_of x.0, x.1.now)) result (input_at tag bytes.now) }
{
    match tag {
        0 => match entry_at(bytes) {
            Ok((index, text, rest)) => Ok((NodeInput::Entry(index, text), rest)),
            Err(fault) => Err(fault),
        }
        1 => Ok((NodeInput::CaughtUp, bytes)),
        2 => match record_at(bytes) {
            Ok((from, tag, text, rest)) => Ok((NodeInput::Link(from, tag, text), rest)),
            Err(fault) => Err(fault),
        }
        3 => match server_at(bytes) {
            Ok((server, rest)) => Ok((NodeInput::Lost(server), rest)),
            Err(fault) => Err(fault),
        }
        4 => Ok((NodeInput::Turn, bytes)),
        5 => match process_at(bytes) {
            Ok((from, rest)) => Ok((NodeInput::Ended(from), rest)),
            Err(fault) => Err(fault),
        }
        _ => Err(Fault::Invalid),
    }
}

// Reads an index, and the bytes of an entry.
#[tactic(auto, unfolding(crate::specs::pipe::Inputs::listed))]
fn entry_at(bytes: &[u8]) -> Result<(EntryCount, &[u8], &[u8]), Fault>
    ensures { Reads (λ x. ((x.0, x.1.now), x.2.now)) result (listed.read bytes.now) }
{
    let (index, rest) = match count_at(bytes) {
        Ok(read) => read,
        Err(fault) => return Err(fault),
    };
    match sized_at(MAX_ENTRY, rest) {
        Ok((text, rest)) => Ok((index, text, rest)),
        Err(fault) => Err(fault),
    }
}

// Reads a process, and a record of a link.
#[tactic(auto, unfolding(crate::specs::pipe::Inputs::came))]
fn record_at(bytes: &[u8]) -> Result<(Process, u8, &[u8], &[u8]), Fault>
    ensures { Reads (λ x. ((x.0, record { tag = x.1; bytes = x.2.now }), x.3.now)) result
        (came.read bytes.now) }
{
    let (from, rest) = match process_at(bytes) {
        Ok(read) => read,
        Err(fault) => return Err(fault),
    };
    let (tag, rest) = match u8_at(rest) {
        Ok(read) => read,
        Err(fault) => return Err(fault),
    };
    match sized_at(MAX_FRAME, rest) {
        Ok((text, rest)) => Ok((from, tag, text, rest)),
        Err(fault) => Err(fault),
    }
}

// Reads a number of entries.
#[tactic(auto, unfolding(zmaster_log::specs::Bytes::count))]
fn count_at(bytes: &[u8]) -> Result<(EntryCount, &[u8]), Fault>
    ensures { Reads (λ x. (x.0, x.1.now)) result (count.read bytes.now) }
{
    let (number, rest) = u64_at(bytes)?;
    match EntryCount::new(number) {
        Some(count) => Ok((count, rest)),
        None => Err(Fault::Invalid),
    }
}

// Reads a process.
#[tactic(auto, unfolding(zwire::specs::Fields::process))]
fn process_at(bytes: &[u8]) -> Result<(Process, &[u8]), Fault>
    ensures { Reads (λ x. (x.0, x.1.now)) result (process.read bytes.now) }
{
    let (tag, rest) = u8_at(bytes)?;
    process_behind(tag, rest)
}

// Reads what follows the tag of a process.
#[tactic(auto, unfolding(zwire::specs::Fields::process_at))]
fn process_behind(tag: u8, bytes: &[u8]) -> Result<(Process, &[u8]), Fault>
    ensures { Reads (λ x. (x.0, x.1.now)) result (process_at tag bytes.now) }
{
    match tag {
        0 => Ok((Process::Master, bytes)),
        1 => match server_at(bytes) {
            Ok((server, rest)) => Ok((Process::Server(server), rest)),
            Err(fault) => Err(fault),
        }
        2 => match client_at(bytes) {
            Ok((client, rest)) => Ok((Process::Client(client), rest)),
            Err(fault) => Err(fault),
        }
        _ => Err(Fault::Invalid),
    }
}
