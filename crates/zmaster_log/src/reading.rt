//! Entries, read from their bytes.

ghost use Rattle.std.specs.Prelude.{◌≡◌, ◌≤◌, length, IfOk};
ghost use Rattle.zprotocol.specs.declared.limits.TheConstants.{MAX_SERVERS};
ghost use Rattle.zcodec.specs.Forms.{times};
ghost use Rattle.zcodec.specs.Readers.{Reads, Gives, whole};
ghost use Rattle.zwire.specs.Fields.{epoch};
ghost use Rattle.zwire.specs.Messages.{last, held};
ghost use Rattle.zmaster_log.specs.Bytes.{count, name_from, node, listed_nodes, names_from, nodes};
ghost use Rattle.zmaster_log.specs.Bytes.{news_at, any_news, report, joined, entry_at, entry};

use crate::entry::{LogEntry, News, Report};
use crate::entry_count::EntryCount;
use crate::limits::{MAX_NODE_NAME, SERVERS};
use crate::node_name::NodeName;
use crate::node_names::NodeNames;
use std::alloc::Global;
use zcodec::{Fault, ReadError, end, flag_at, length_at, sized_at, u8_at, u64_at};
use zprotocol::{Epoch, LogNumber, ServerId};
use zwire::log_number_at;
use zwire::records::server_at;

/// Reads the entry that all of the bytes are.
pub fn read_entry(alloc: Global, bytes: &[u8]) -> Result<LogEntry, ReadError>
    // The entry, or the first fault.
    ensures gives { Gives (λ it. it) result (whole entry bytes.now) }
    // What is read has these bytes.
    ensures spelled { IfOk result (λ it. (bytes.now ≡ entry.spell it) × entry.Fits it) }
{
    whole_entry(alloc, bytes)
}

// The same, by the definition of reading alone.
fn whole_entry(alloc: Global, bytes: &[u8]) -> Result<LogEntry, ReadError>
    ensures { Gives (λ it. it) result (whole entry bytes.now) }
{
    let (entry, rest) = entry_of(alloc, bytes)?;
    end(rest)?;
    Ok(entry)
}

// Reads an entry, and what follows it.
#[tactic(auto, unfolding(crate::specs::Bytes::entry))]
fn entry_of(alloc: Global, bytes: &[u8]) -> Result<(LogEntry, &[u8]), ReadError>
    ensures { Gives (λ x. (x.0, x.1.now)) result (entry.read bytes.now) }
{
    let (tag, rest) = u8_at(bytes)?;
    entry_behind(alloc, tag, rest)
}

// Reads what follows the tag of an entry.
#[tactic(auto, unfolding(crate::specs::Bytes::entry_at))]
fn entry_behind(alloc: Global, tag: u8, bytes: &[u8]) -> Result<(LogEntry, &[u8]), ReadError>
    ensures { Gives (λ x. (x.0, x.1.now)) result (entry_at tag bytes.now) }
{
    match tag {
        0 => {
            let (nodes, rest) = nodes_of(alloc, bytes)?;
            Ok((LogEntry::Opening(nodes), rest))
        }
        1 => {
            let (server, node, rest) = joined_of(alloc, bytes)?;
            Ok((LogEntry::Join(server, node), rest))
        }
        2 => match server_at(bytes) {
            Ok((server, rest)) => Ok((LogEntry::Retire(server), rest)),
            Err(fault) => Err(ReadError::Fault(fault)),
        }
        3 => match report_at(bytes) {
            Ok((report, rest)) => Ok((LogEntry::Reported(report), rest)),
            Err(fault) => Err(ReadError::Fault(fault)),
        }
        _ => Err(ReadError::Fault(Fault::Invalid)),
    }
}

// Reads a server's id, and the name of its node.
fn joined_of(alloc: Global, bytes: &[u8]) -> Result<(ServerId, NodeName, &[u8]), ReadError>
    ensures { Gives (λ x. ((x.0, x.1), x.2.now)) result (joined.read bytes.now) }
{
    let (server, rest) = match server_at(bytes) {
        Ok(read) => read,
        Err(fault) => return Err(ReadError::Fault(fault)),
    };
    match node_of(alloc, rest) {
        Ok((node, rest)) => Ok((server, node, rest)),
        Err(error) => Err(error),
    }
}

// Reads the nodes of the initial chain.
#[tactic(auto, unfolding(crate::specs::Bytes::nodes))]
fn nodes_of(alloc: Global, bytes: &[u8]) -> Result<(NodeNames, &[u8]), ReadError>
    ensures { Gives (λ x. (x.0, x.1.now)) result (nodes.read bytes.now) }
{
    let (names, rest) = listed_names(alloc, bytes)?;
    let nodes = names_with(names)?;
    Ok((nodes, rest))
}

// Returns the nodes with these names.
fn names_with(names: Vec<NodeName>) -> Result<NodeNames, ReadError>
    requires { length names.items ≤ MAX_SERVERS }
    ensures { Gives (λ it. it) result (names_from names.items) }
{
    match NodeNames::new(names) {
        Some(nodes) => Ok(nodes),
        None => Err(ReadError::Fault(Fault::Invalid)),
    }
}

// Reads names after their count.
#[tactic(auto, unfolding(crate::specs::Bytes::listed_nodes))]
fn listed_names(alloc: Global, bytes: &[u8]) -> Result<(Vec<NodeName>, &[u8]), ReadError>
    ensures { Gives (λ x. (x.0.items, x.1.now)) result (listed_nodes.read bytes.now) }
{
    let (count, rest) = length_at(SERVERS as u32, bytes)?;
    counted_names(alloc, count, rest)
}

// Reads that many names.
fn counted_names(
    alloc: Global,
    count: u32,
    bytes: &[u8],
) -> Result<(Vec<NodeName>, &[u8]), ReadError>
    ensures { Gives (λ x. (x.0.items, x.1.now)) result ((times node count).read bytes.now) }
{
    let mut names = Vec::new(alloc);
    let mut rest = bytes;
    for _ in 0..count {
        let (name, after) = node_of(alloc, rest)?;
        names.push(name)?;
        rest = after;
    }
    Ok((names, rest))
}

// Reads the name of a node.
#[tactic(auto, unfolding(crate::specs::Bytes::node))]
fn node_of(alloc: Global, bytes: &[u8]) -> Result<(NodeName, &[u8]), ReadError>
    ensures { Gives (λ x. (x.0, x.1.now)) result (node.read bytes.now) }
{
    let (text, rest) = sized_at(MAX_NODE_NAME as u32, bytes)?;
    let name = name_with(Vec::from_slice(alloc, text)?)?;
    Ok((name, rest))
}

// Returns the name with these bytes.
fn name_with(bytes: Vec<u8>) -> Result<NodeName, ReadError>
    ensures { Gives (λ it. it) result (name_from bytes.items) }
{
    match NodeName::new(bytes) {
        Some(name) => Ok(name),
        None => Err(ReadError::Fault(Fault::Invalid)),
    }
}

// Reads a report.
#[tactic(auto, unfolding(crate::specs::Bytes::report))]
fn report_at(bytes: &[u8]) -> Result<(Report, &[u8]), Fault>
    ensures { Reads (λ x. (x.0, x.1.now)) result (report.read bytes.now) }
{
    let (author, rest) = match server_at(bytes) {
        Ok(read) => read,
        Err(fault) => return Err(fault),
    };
    let (earlier, rest) = match count_at(rest) {
        Ok(read) => read,
        Err(fault) => return Err(fault),
    };
    let (news, rest) = match news_in(rest) {
        Ok(read) => read,
        Err(fault) => return Err(fault),
    };
    let report = Report {
        author,
        earlier,
        news,
    };
    Ok((report, rest))
}

// Reads a number of entries.
#[tactic(auto, unfolding(crate::specs::Bytes::count))]
fn count_at(bytes: &[u8]) -> Result<(EntryCount, &[u8]), Fault>
    ensures { Reads (λ x. (x.0, x.1.now)) result (count.read bytes.now) }
{
    let (number, rest) = u64_at(bytes)?;
    match EntryCount::new(number) {
        Some(count) => Ok((count, rest)),
        None => Err(Fault::Invalid),
    }
}

// Reads what is reported.
#[tactic(auto, unfolding(crate::specs::Bytes::any_news))]
fn news_in(bytes: &[u8]) -> Result<(News, &[u8]), Fault>
    ensures { Reads (λ x. (x.0, x.1.now)) result (any_news.read bytes.now) }
{
    let (tag, rest) = u8_at(bytes)?;
    news_behind(tag, rest)
}

// Reads what follows its tag.
#[tactic(auto, unfolding(crate::specs::Bytes::news_at))]
fn news_behind(tag: u8, bytes: &[u8]) -> Result<(News, &[u8]), Fault>
    ensures { Reads (λ x. (x.0, x.1.now)) result (news_at tag bytes.now) }
{
    match tag {
        0 => match held_at(bytes) {
            Ok((epoch, last, rest)) => Ok((News::Have(epoch, last), rest)),
            Err(fault) => Err(fault),
        }
        1 => match epoch_at(bytes) {
            Ok((epoch, rest)) => Ok((News::Joined(epoch), rest)),
            Err(fault) => Err(fault),
        }
        2 => match server_at(bytes) {
            Ok((server, rest)) => Ok((News::Gone(server), rest)),
            Err(fault) => Err(fault),
        }
        _ => Err(Fault::Invalid),
    }
}

// Reads an epoch, and the last number of a log.
fn held_at(bytes: &[u8]) -> Result<(Epoch, Option<LogNumber>, &[u8]), Fault>
    ensures { Reads (λ x. ((x.0, x.1), x.2.now)) result (held.read bytes.now) }
{
    let (epoch, rest) = match epoch_at(bytes) {
        Ok(read) => read,
        Err(fault) => return Err(fault),
    };
    match last_at(rest) {
        Ok((last, rest)) => Ok((epoch, last, rest)),
        Err(fault) => Err(fault),
    }
}

// Reads an epoch.
#[tactic(auto, unfolding(zwire::specs::Fields::epoch))]
fn epoch_at(bytes: &[u8]) -> Result<(Epoch, &[u8]), Fault>
    ensures { Reads (λ x. (x.0, x.1.now)) result (epoch.read bytes.now) }
{
    let (number, rest) = u64_at(bytes)?;
    match Epoch::new(number) {
        Some(epoch) => Ok((epoch, rest)),
        None => Err(Fault::Invalid),
    }
}

// Reads a log number, or none.
#[tactic(auto, unfolding(zwire::specs::Messages::last))]
fn last_at(bytes: &[u8]) -> Result<(Option<LogNumber>, &[u8]), Fault>
    ensures { Reads (λ x. (x.0, x.1.now)) result (last.read bytes.now) }
{
    let (has, rest) = flag_at(bytes)?;
    if !has {
        return Ok((None, rest));
    }
    match log_number_at(rest) {
        Ok((number, rest)) => Ok((Some(number), rest)),
        Err(fault) => Err(fault),
    }
}
