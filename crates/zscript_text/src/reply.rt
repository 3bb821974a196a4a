//! Writing replies as text.

ghost use Rattle.std.specs.Prelude.{◌++◌, OnOk};
ghost use Rattle.zscript_text.specs.Texts.{Writes, counts_text};
ghost use Rattle.std.specs.Fmt.{decimal};
ghost use Rattle.std.specs.List.{flat_map};
ghost use Rattle.zcalls.specs.Step.{refusal_name};
ghost use Rattle.zcalls.specs.declared.reply.Reply.TheVariants.{Data};
ghost use Rattle.zscript_text.specs.LineWords.{data_text};
ghost use Rattle.zscript_text.specs.Reply.{reply_text, removed_text, parts_text, part_text, next_part_text, spaced_name};

use crate::stat_text::write_stat_behind;
use base64::engine::general_purpose::STANDARD;
use itoa::Buffer;
use zalloc::Memory;
use zcalls::{PartReply, Refusal, Reply, Stat};
use zpath::Name;

/// Appends the text of a reply, without a line end.
pub fn write_reply(reply: &Reply, out: &mut String) -> Result<(), Memory>
    ensures { OnOk result (Writes out.old out.new (reply_text reply.now)) }
{
    match reply {
        Reply::Created(path) => {
            write!(out, "ok {path}")?;
            Ok(())
        }
        Reply::Deleted => write_text("ok deleted", out),
        Reply::Set(stat) | Reply::Exists(stat) => write_stat_behind("ok stat", stat, out),
        Reply::Multi(replies) => {
            write_text("ok multi ", out)?;
            write_parts(replies.as_slice(), out)
        }
        Reply::Opened(session, timeout) => {
            write_counts("ok session ", session.number(), " timeout ", *timeout, out)
        }
        Reply::Pinged => write_text("ok pinged", out),
        Reply::Closed => write_text("ok closed", out),
        Reply::Ticked(time, ended, removed) => {
            write_counts("ok tick ", *time, " ended ", *ended as u64, out)?;
            write_removed(*removed as u64, out)
        }
        Reply::Data(bytes, stat) => write_node(bytes.as_slice(), stat, out),
        Reply::Children(names) => {
            let names = names.as_slice();
            write_count("ok ", names.len() as u64, out)?;
            write_names(names, out)
        }
        Reply::Refused(refusal) => write_refusal("no ", refusal, out),
        Reply::MultiRefused(number, refusal) => {
            write_count("no multi ", *number as u64, out)?;
            write_refusal(" ", refusal, out)
        }
    }
}

// Appends a text as it is. Every reply begins with one.
fn write_text(text: &str, out: &mut String) -> Result<(), Memory>
    ensures { OnOk result (Writes out.old out.new text.now) }
{
    out.push_str(text)?;
    Ok(())
}

// Appends a text and a number.
fn write_count(front: &str, number: u64, out: &mut String) -> Result<(), Memory>
    ensures { OnOk result (Writes out.old out.new (front.now ++ decimal number)) }
{
    out.push_str(front)?;
    write_number(number, &mut Buffer::new(), out)
}

// Appends two numbers, each with a text before it.
fn write_counts(
    front: &str,
    first: u64,
    middle: &str,
    second: u64,
    out: &mut String,
) -> Result<(), Memory>
    ensures { OnOk result (Writes out.old out.new
        (counts_text front.now first middle.now second)) }
{
    write_count(front, first, out)?;
    write_count(middle, second, out)
}

// Appends the number of nodes that a tick removed, if not zero.
fn write_removed(removed: u64, out: &mut String) -> Result<(), Memory>
    ensures { OnOk result (Writes out.old out.new (removed_text removed)) }
{
    if removed == 0 {
        return Ok(());
    }
    write_count(" removed ", removed, out)
}

// Appends the data of a node, and its stat.
fn write_node(bytes: &[u8], stat: &Stat, out: &mut String) -> Result<(), Memory>
    ensures { OnOk result (Writes out.old out.new (reply_text (Data bytes.now stat.now))) }
{
    write_text("ok data ", out)?;
    write_data(bytes, out)?;
    write_stat_behind(" stat", stat, out)
}

// Appends data: `-` for no bytes, else base64.
fn write_data(bytes: &[u8], out: &mut String) -> Result<(), Memory>
    ensures { OnOk result (Writes out.old out.new (data_text bytes.now)) }
{
    if bytes.is_empty() {
        out.push_str("-")?;
        return Ok(());
    }
    STANDARD.encode_string(bytes, out)?;
    Ok(())
}

// Appends a text and the name of a refusal.
fn write_refusal(front: &str, refusal: &Refusal, out: &mut String) -> Result<(), Memory>
    ensures { OnOk result (Writes out.old out.new (front.now ++ refusal_name refusal.now)) }
{
    write!(out, "{front}{refusal}")?;
    Ok(())
}

// Appends the replies to the parts of a multi, with ` ; ` between them.
fn write_parts(replies: &[PartReply], out: &mut String) -> Result<(), Memory>
    ensures { OnOk result (Writes out.old out.new (parts_text replies.now)) }
{
    let [first, more @ ..] = replies else {
        return Ok(());
    };
    write_part(first, out)?;
    write_more_parts(more, out)
}

// Appends the replies to the further parts of a multi.
fn write_more_parts(replies: &[PartReply], out: &mut String) -> Result<(), Memory>
    ensures { OnOk result (Writes out.old out.new (flat_map next_part_text replies.now)) }
{
    for reply in replies {
        out.push_str(" ; ")?;
        write_part(reply, out)?;
    }
    Ok(())
}

// Appends the reply to one part of a multi.
fn write_part(reply: &PartReply, out: &mut String) -> Result<(), Memory>
    ensures { OnOk result (Writes out.old out.new (part_text reply.now)) }
{
    match reply {
        PartReply::Created(path) => {
            write!(out, "{path}")?;
            Ok(())
        }
        PartReply::Deleted => write_text("deleted", out),
        PartReply::Set(stat) => write_stat_behind("stat", stat, out),
        PartReply::Checked => write_text("checked", out),
    }
}

// Appends each name with a space before it.
fn write_names(names: &[Name], out: &mut String) -> Result<(), Memory>
    ensures { OnOk result (Writes out.old out.new (flat_map spaced_name names.now)) }
{
    for name in names {
        out.push_str(" ")?;
        out.push_str(name.as_str())?;
    }
    Ok(())
}

// Appends a number. Most have one digit, which is pushed directly.
#[inline(always)]
fn write_number(number: u64, buffer: &mut Buffer, out: &mut String) -> Result<(), Memory>
    ensures { OnOk result (Writes out.old out.new (decimal number)) }
{
    if number < 10 {
        out.push(char::from(b'0' + number as u8))?;
    } else {
        out.push_str(buffer.format(number))?;
    }
    Ok(())
}
