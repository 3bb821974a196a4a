//! Entries, written as bytes. Each function says too that what it writes fits.

ghost use Rattle.std.specs.Prelude.{◌≡◌, ◌++◌, OnOk, IfOk};
ghost use Rattle.std.specs.List.{AllByRecursion, flat_map};
ghost use Rattle.zwire.specs.Fields.{epoch as epoch_form};
ghost use Rattle.zwire.specs.Messages.{last as last_form, held};
ghost use Rattle.zmaster_log.specs.Bytes.{count as count_form, node as node_form, nodes as nodes_form};
ghost use Rattle.zmaster_log.specs.Bytes.{news_spelled, any_news, report as report_form, joined};
ghost use Rattle.zmaster_log.specs.Bytes.{entry as entry_form, listed_nodes};

use crate::entry::{LogEntry, News, Report};
use crate::entry_count::EntryCount;
use crate::node_name::NodeName;
use crate::node_names::NodeNames;
use std::alloc::{AllocError, Global};
use zcodec::{put_flag, put_sized, put_u8, put_u32, put_u64};
use zprotocol::{Epoch, LogNumber, ServerId};
use zwire::put_log_number;
use zwire::records::put_server;

/// Returns the bytes of an entry.
pub fn entry_text(alloc: Global, entry: &LogEntry) -> Result<Vec<u8>, AllocError>
    ensures text { IfOk result (λ text. text.items ≡ entry_form.spell entry.now) }
    // So `read_entry` reads it again.
    ensures fits { OnOk result (entry_form.Fits entry.now) }
{
    let mut text = Vec::new(alloc);
    put_entry(&mut text, entry)?;
    Ok(text)
}

// Writes an entry.
#[tactic(auto, unfolding(crate::specs::Bytes::entry))]
fn put_entry(out: &mut Vec<u8>, entry: &LogEntry) -> Result<(), AllocError>
    ensures text { OnOk result (out.new.items ≡ out.old.items ++ entry_form.spell entry.now) }
    ensures fits { OnOk result (entry_form.Fits entry.now) }
{
    match entry {
        LogEntry::Opening(nodes) => {
            put_u8(out, 0)?;
            put_nodes(out, nodes)
        }
        LogEntry::Join(server, node) => {
            put_u8(out, 1)?;
            put_joined(out, *server, node)
        }
        LogEntry::Retire(server) => {
            put_u8(out, 2)?;
            put_server(out, *server)
        }
        LogEntry::Reported(report) => {
            put_u8(out, 3)?;
            put_report(out, report)
        }
    }
}

// Writes the nodes of the initial chain.
#[tactic(auto, unfolding(crate::specs::Bytes::nodes, crate::specs::Bytes::listed_nodes))]
fn put_nodes(out: &mut Vec<u8>, nodes: &NodeNames) -> Result<(), AllocError>
    ensures text { OnOk result (out.new.items ≡ out.old.items ++ nodes_form.spell nodes.now) }
    ensures fits { OnOk result (nodes_form.Fits nodes.now) }
{
    let names = nodes.as_slice();
    put_u32(out, names.len() as u32)?;
    put_each_node(out, names)
}

// Writes names in order.
fn put_each_node(out: &mut Vec<u8>, names: &[NodeName]) -> Result<(), AllocError>
    ensures text { OnOk result
        (out.new.items ≡ out.old.items ++ flat_map node_form.spell names.now) }
    ensures fits { OnOk result (AllByRecursion node_form.Fits names.now) }
{
    for name in names {
        put_node(out, name)?;
    }
    Ok(())
}

// Writes the name of a node.
#[tactic(auto, unfolding(crate::specs::Bytes::node))]
fn put_node(out: &mut Vec<u8>, name: &NodeName) -> Result<(), AllocError>
    ensures text { OnOk result (out.new.items ≡ out.old.items ++ node_form.spell name.now) }
    ensures fits { OnOk result (node_form.Fits name.now) }
{
    put_sized(out, name.as_bytes())
}

// Writes a server's id, and the name of its node.
fn put_joined(out: &mut Vec<u8>, server: ServerId, node: &NodeName) -> Result<(), AllocError>
    ensures text { OnOk result
        (out.new.items ≡ out.old.items ++ joined.spell (server, node.now)) }
    ensures fits { OnOk result (joined.Fits (server, node.now)) }
{
    put_server(out, server)?;
    put_node(out, node)
}

// Writes a report.
#[tactic(auto, unfolding(crate::specs::Bytes::report))]
fn put_report(out: &mut Vec<u8>, report: &Report) -> Result<(), AllocError>
    ensures text { OnOk result (out.new.items ≡ out.old.items ++ report_form.spell report.now) }
    ensures fits { OnOk result (report_form.Fits report.now) }
{
    put_server(out, report.author)?;
    put_count(out, report.earlier)?;
    put_news(out, &report.news)
}

// Writes a number of entries.
#[tactic(auto, unfolding(crate::specs::Bytes::count))]
fn put_count(out: &mut Vec<u8>, count: EntryCount) -> Result<(), AllocError>
    ensures text { OnOk result (out.new.items ≡ out.old.items ++ count_form.spell count) }
    ensures fits { OnOk result (count_form.Fits count) }
{
    put_u64(out, count.number())
}

// Writes what is reported.
#[tactic(auto, unfolding(crate::specs::Bytes::any_news))]
fn put_news(out: &mut Vec<u8>, news: &News) -> Result<(), AllocError>
    ensures text { OnOk result (out.new.items ≡ out.old.items ++ any_news.spell news.now) }
    ensures fits { OnOk result (any_news.Fits news.now) }
{
    match news {
        News::Have(epoch, last) => {
            put_u8(out, 0)?;
            put_held(out, *epoch, *last)
        }
        News::Joined(epoch) => {
            put_u8(out, 1)?;
            put_epoch(out, *epoch)
        }
        News::Gone(server) => {
            put_u8(out, 2)?;
            put_server(out, *server)
        }
    }
}

// Writes an epoch, and the last number of a log.
fn put_held(out: &mut Vec<u8>, epoch: Epoch, last: Option<LogNumber>) -> Result<(), AllocError>
    ensures text { OnOk result (out.new.items ≡ out.old.items ++ held.spell (epoch, last)) }
    ensures fits { OnOk result (held.Fits (epoch, last)) }
{
    put_epoch(out, epoch)?;
    put_last(out, last)
}

// Writes an epoch.
#[tactic(auto, unfolding(zwire::specs::Fields::epoch))]
fn put_epoch(out: &mut Vec<u8>, epoch: Epoch) -> Result<(), AllocError>
    ensures text { OnOk result (out.new.items ≡ out.old.items ++ epoch_form.spell epoch) }
    ensures fits { OnOk result (epoch_form.Fits epoch) }
{
    put_u64(out, epoch.number())
}

// Writes a log number, or none.
#[tactic(auto, unfolding(zwire::specs::Messages::last))]
fn put_last(out: &mut Vec<u8>, last: Option<LogNumber>) -> Result<(), AllocError>
    ensures text { OnOk result (out.new.items ≡ out.old.items ++ last_form.spell last) }
    ensures fits { OnOk result (last_form.Fits last) }
{
    match last {
        Some(number) => {
            put_flag(out, true)?;
            put_log_number(out, number)
        }
        None => put_flag(out, false),
    }
}
