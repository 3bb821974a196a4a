//! The lists in replies, written at the end of bytes. Each function says too that what it writes
//! fits.

ghost use Rattle.std.specs.Prelude.{◌≡◌, ◌++◌, OnOk};
ghost use Rattle.std.specs.List.{AllByRecursion, flat_map};
ghost use Rattle.zwire.specs.Fields.{name as name_form};
ghost use Rattle.zwire.specs.Replies.{part_reply, replies as replies_form, names as names_form};

use crate::field_writing::put_stat;
use crate::records::put_path;
use std::alloc::{AllocError, Global};
use zcalls::{Names, PartReply, Replies};
use zcodec::{put_sized, put_u8, put_u64};
use zpath::Name;

/// Writes the names of a node's children.
#[tactic(auto, unfolding(crate::specs::Replies::names))]
pub(crate) fn put_names(out: &mut Vec<u8>, names: &Names) -> Result<(), AllocError>
    ensures text { OnOk result (out.new.items ≡ out.old.items ++ names_form.spell names.now) }
    ensures fits { OnOk result (names_form.Fits names.now) }
{
    let names = names.as_slice();
    put_u64(out, names.len() as u64)?;
    put_each_name(out, names)
}

// Writes the names in order.
fn put_each_name(out: &mut Vec<u8>, names: &[Name]) -> Result<(), AllocError>
    ensures text { OnOk result
        (out.new.items ≡ out.old.items ++ flat_map name_form.spell names.now) }
    ensures fits { OnOk result (AllByRecursion name_form.Fits names.now) }
{
    for name in names {
        put_name(out, name)?;
    }
    Ok(())
}

// Writes a name.
#[tactic(auto, unfolding(crate::specs::Fields::name))]
fn put_name(out: &mut Vec<u8>, name: &Name) -> Result<(), AllocError>
    ensures text { OnOk result (out.new.items ≡ out.old.items ++ name_form.spell name.now) }
    ensures fits { OnOk result (name_form.Fits name.now) }
{
    put_sized(out, name.as_str().as_bytes())
}

/// Writes the replies to the parts of a multi.
#[tactic(auto, unfolding(crate::specs::Replies::replies))]
pub(crate) fn put_replies(
    alloc: Global,
    out: &mut Vec<u8>,
    replies: &Replies,
) -> Result<(), AllocError>
    ensures text { OnOk result (out.new.items ≡ out.old.items ++ replies_form.spell replies.now) }
    ensures fits { OnOk result (replies_form.Fits replies.now) }
{
    let replies = replies.as_slice();
    put_u64(out, replies.len() as u64)?;
    put_each_reply(alloc, out, replies)
}

// Writes them in order.
fn put_each_reply(alloc: Global, out: &mut Vec<u8>, replies: &[PartReply]) -> Result<(), AllocError>
    ensures text { OnOk result
        (out.new.items ≡ out.old.items ++ flat_map part_reply.spell replies.now) }
    ensures fits { OnOk result (AllByRecursion part_reply.Fits replies.now) }
{
    for reply in replies {
        put_part_reply(alloc, out, reply)?;
    }
    Ok(())
}

// Writes the reply to a part.
#[tactic(auto, unfolding(crate::specs::Replies::part_reply))]
fn put_part_reply(alloc: Global, out: &mut Vec<u8>, reply: &PartReply) -> Result<(), AllocError>
    ensures text { OnOk result (out.new.items ≡ out.old.items ++ part_reply.spell reply.now) }
    ensures fits { OnOk result (part_reply.Fits reply.now) }
{
    match reply {
        PartReply::Created(path) => {
            put_u8(out, 0)?;
            put_path(alloc, out, path)
        }
        PartReply::Deleted => put_u8(out, 1),
        PartReply::Set(stat) => {
            put_u8(out, 2)?;
            put_stat(out, stat)
        }
        PartReply::Checked => put_u8(out, 3),
    }
}
