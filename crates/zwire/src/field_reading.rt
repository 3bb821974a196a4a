//! Fields of messages, read from the front of bytes with what follows them.

ghost use Rattle.std.specs.Prelude.{◌≡◌};
ghost use Rattle.zcodec.specs.Readers.{Reads};
ghost use Rattle.zwire.specs.Fields.{call_number, log_number, epoch, client, process_at, process};
ghost use Rattle.zwire.specs.Fields.{three, four, five, stat, refusal_at, refusal};
ghost use Rattle.zwire.specs.Messages.{last, end};

use crate::records::server_at;
use zcalls::{CallNumber, ClientId, Refusal, Stat};
use zcodec::{Fault, flag_at, u8_at, u64_at};
use zprotocol::{Epoch, LogNumber, Process, ServerId};
use ztree::Zxid;

/// Reads the number of a call.
#[tactic(auto, unfolding(crate::specs::Fields::call_number))]
pub fn call_number_at(bytes: &[u8]) -> Result<(CallNumber, &[u8]), Fault>
    ensures { Reads (λ x. (x.0, x.1.now)) result (call_number.read bytes.now) }
{
    let (number, rest) = u64_at(bytes)?;
    match CallNumber::new(number) {
        Some(number) => Ok((number, rest)),
        None => Err(Fault::Invalid),
    }
}

/// Reads the number of a log entry.
#[tactic(auto, unfolding(crate::specs::Fields::log_number))]
pub fn log_number_at(bytes: &[u8]) -> Result<(LogNumber, &[u8]), Fault>
    ensures { Reads (λ x. (x.0, x.1.now)) result (log_number.read bytes.now) }
{
    let (number, rest) = u64_at(bytes)?;
    match LogNumber::new(number) {
        Some(number) => Ok((number, rest)),
        None => Err(Fault::Invalid),
    }
}

/// Reads an epoch.
#[tactic(auto, unfolding(crate::specs::Fields::epoch))]
pub(crate) fn epoch_at(bytes: &[u8]) -> Result<(Epoch, &[u8]), Fault>
    ensures { Reads (λ x. (x.0, x.1.now)) result (epoch.read bytes.now) }
{
    let (number, rest) = u64_at(bytes)?;
    match Epoch::new(number) {
        Some(epoch) => Ok((epoch, rest)),
        None => Err(Fault::Invalid),
    }
}

/// Reads the id of a client.
#[tactic(auto, unfolding(crate::specs::Fields::client))]
pub fn client_at(bytes: &[u8]) -> Result<(ClientId, &[u8]), Fault>
    ensures { Reads (λ x. (x.0, x.1.now)) result (client.read bytes.now) }
{
    let (number, rest) = u8_at(bytes)?;
    match ClientId::new(number) {
        Some(client) => Ok((client, rest)),
        None => Err(Fault::Invalid),
    }
}

/// Reads a log number, or none.
#[tactic(auto, unfolding(crate::specs::Messages::last))]
pub(crate) fn last_at(bytes: &[u8]) -> Result<(Option<LogNumber>, &[u8]), Fault>
    ensures { Reads (λ x. (x.0, x.1.now)) result (last.read bytes.now) }
{
    let (has, rest) = flag_at(bytes)?;
    if !has {
        return Ok((None, rest));
    }
    match log_number_at(rest) {
        Ok((number, rest)) => Ok((Some(number), rest)),
        Err(fault) => Err(fault),
    }
}

/// Reads the id of a server, or none.
#[tactic(auto, unfolding(crate::specs::Messages::end))]
pub(crate) fn end_at(bytes: &[u8]) -> Result<(Option<ServerId>, &[u8]), Fault>
    ensures { Reads (λ x. (x.0, x.1.now)) result (end.read bytes.now) }
{
    let (has, rest) = flag_at(bytes)?;
    if !has {
        return Ok((None, rest));
    }
    match server_at(rest) {
        Ok((server, rest)) => Ok((Some(server), rest)),
        Err(fault) => Err(fault),
    }
}

/// Reads a process.
#[tactic(auto, unfolding(crate::specs::Fields::process))]
pub(crate) fn process_in(bytes: &[u8]) -> Result<(Process, &[u8]), Fault>
    ensures { Reads (λ x. (x.0, x.1.now)) result (process.read bytes.now) }
{
    let (tag, rest) = u8_at(bytes)?;
    process_behind(tag, rest)
}

// Reads what follows the tag of a process.
#[tactic(auto, unfolding(crate::specs::Fields::process_at))]
fn process_behind(tag: u8, bytes: &[u8]) -> Result<(Process, &[u8]), Fault>
    ensures { Reads (λ x. (x.0, x.1.now)) result (process_at tag bytes.now) }
{
    match tag {
        0 => Ok((Process::Master, bytes)),
        1 => match server_at(bytes) {
            Ok((server, rest)) => Ok((Process::Server(server), rest)),
            Err(fault) => Err(fault),
        }
        2 => match client_at(bytes) {
            Ok((client, rest)) => Ok((Process::Client(client), rest)),
            Err(fault) => Err(fault),
        }
        _ => Err(Fault::Invalid),
    }
}

/// Reads a stat.
#[tactic(auto, unfolding(crate::specs::Fields::stat))]
pub(crate) fn stat_at(bytes: &[u8]) -> Result<(Stat, &[u8]), Fault>
    ensures { Reads (λ x. (x.0, x.1.now)) result (stat.read bytes.now) }
{
    let (czxid, mzxid, pzxid, rest) = three_at(bytes)?;
    let (ctime, mtime, version, cversion, aversion, rest) = five_at(rest)?;
    let (owner, length, children, rest) = three_at(rest)?;
    let stat = Stat {
        czxid: Zxid::new(czxid),
        mzxid: Zxid::new(mzxid),
        pzxid: Zxid::new(pzxid),
        ctime,
        mtime,
        version,
        cversion,
        aversion,
        owner,
        length,
        children,
    };
    Ok((stat, rest))
}

/// Reads three numbers.
pub fn three_at(bytes: &[u8]) -> Result<(u64, u64, u64, &[u8]), Fault>
    ensures { Reads (λ x. ((x.0, (x.1, x.2)), x.3.now)) result (three.read bytes.now) }
{
    let (first, rest) = u64_at(bytes)?;
    let (second, rest) = u64_at(rest)?;
    let (third, rest) = u64_at(rest)?;
    Ok((first, second, third, rest))
}

// Reads four numbers.
fn four_at(bytes: &[u8]) -> Result<(u64, u64, u64, u64, &[u8]), Fault>
    ensures { Reads (λ x. ((x.0, (x.1, (x.2, x.3))), x.4.now)) result (four.read bytes.now) }
{
    let (first, rest) = u64_at(bytes)?;
    let (second, third, fourth, rest) = three_at(rest)?;
    Ok((first, second, third, fourth, rest))
}

/// Reads five numbers.
pub fn five_at(bytes: &[u8]) -> Result<(u64, u64, u64, u64, u64, &[u8]), Fault>
    ensures { Reads (λ x. ((x.0, (x.1, (x.2, (x.3, x.4)))), x.5.now)) result
        (five.read bytes.now) }
{
    let (first, rest) = u64_at(bytes)?;
    let (second, third, fourth, fifth, rest) = four_at(rest)?;
    Ok((first, second, third, fourth, fifth, rest))
}

/// Reads why a call was refused.
#[tactic(auto, unfolding(crate::specs::Fields::refusal))]
pub(crate) fn refusal_in(bytes: &[u8]) -> Result<(Refusal, &[u8]), Fault>
    ensures { Reads (λ x. (x.0, x.1.now)) result (refusal.read bytes.now) }
{
    let (tag, rest) = u8_at(bytes)?;
    refusal_behind(tag, rest)
}

// Returns the refusal with this tag.
#[tactic(auto, unfolding(crate::specs::Fields::refusal_at))]
fn refusal_behind(tag: u8, bytes: &[u8]) -> Result<(Refusal, &[u8]), Fault>
    ensures { Reads (λ x. (x.0, x.1.now)) result (refusal_at tag bytes.now) }
{
    match tag {
        0 => Ok((Refusal::NoNode, bytes)),
        1 => Ok((Refusal::NodeExists, bytes)),
        2 => Ok((Refusal::NotEmpty, bytes)),
        3 => Ok((Refusal::BadVersion, bytes)),
        4 => Ok((Refusal::NoChildrenForEphemerals, bytes)),
        5 => Ok((Refusal::SessionGone, bytes)),
        6 => Ok((Refusal::SequenceFull, bytes)),
        7 => Ok((Refusal::PathLimit, bytes)),
        8 => Ok((Refusal::RootFixed, bytes)),
        9 => Ok((Refusal::Full, bytes)),
        10 => Ok((Refusal::TooManySessions, bytes)),
        11 => Ok((Refusal::Exhausted, bytes)),
        _ => Err(Fault::Invalid),
    }
}
