//! Messages, written at the end of bytes. Each function says too that what it writes fits.

ghost use Rattle.std.specs.Prelude.{◌≡◌, ◌++◌, OnOk};
ghost use Rattle.zwire.specs.Messages.{entry as entry_form, submitted, asked, answered, forwarded};
ghost use Rattle.zwire.specs.Messages.{acknowledged, predecessor, held, successor, ends, bare};
ghost use Rattle.zwire.specs.Messages.{message_spelled, any_message};

use crate::field_writing::{
    put_call_number, put_client, put_end, put_epoch, put_last, put_log_number,
};
use crate::records::{put_server, put_update};
use crate::reply_writing::{put_query, put_reply};
use std::alloc::{AllocError, Global};
use zcalls::{CallNumber, Entry, Query, Reply, Update};
use zcodec::put_u8;
use zprotocol::{Epoch, LogNumber, Message, ServerId};

/// Writes a message, without the state of a snapshot.
#[tactic(auto, unfolding(crate::specs::Messages::any_message))]
pub(crate) fn put_message<T>(
    alloc: Global,
    out: &mut Vec<u8>,
    message: &Message<T>,
) -> Result<(), AllocError>
    ensures text { OnOk result
        (out.new.items ≡ out.old.items ++ any_message.spell (bare message.now)) }
    ensures fits { OnOk result (any_message.Fits (bare message.now)) }
{
    put_u8(out, tag_of(message))?;
    put_fields(alloc, out, message)
}

// Returns the tag of a message.
fn tag_of<T>(message: &Message<T>) -> u8
    ensures { result ≡ (message_spelled (bare message.now)).tag }
{
    match message {
        Message::Submit(_, _) => 0,
        Message::Query(_, _) => 1,
        Message::Answer(_, _) => 2,
        Message::Update(_, _, _) => 3,
        Message::Ack(_, _) => 4,
        Message::Snapshot(_, _) => 5,
        Message::NewPred(_, _) => 6,
        Message::Have(_, _) => 7,
        Message::NewSucc(_, _, _) => 8,
        Message::BecomeHead(_) => 9,
        Message::BecomeTail(_) => 10,
        Message::Retire => 11,
        Message::Joined(_) => 12,
        Message::Gone => 13,
        Message::Config(_, _, _) => 14,
    }
}

// Writes what follows the tag of a message.
fn put_fields<T>(alloc: Global, out: &mut Vec<u8>, message: &Message<T>) -> Result<(), AllocError>
    ensures text { OnOk result
        (out.new.items ≡ out.old.items ++ (message_spelled (bare message.now)).text) }
    ensures fits { OnOk result (message_spelled (bare message.now)).fits }
{
    match message {
        Message::Submit(number, update) => put_submit(alloc, out, *number, update),
        Message::Query(number, query) => put_asked(alloc, out, *number, query),
        Message::Answer(number, reply) => put_answer(alloc, out, *number, reply),
        Message::Update(epoch, number, entry) => {
            put_forwarded(alloc, out, *epoch, *number, entry.entry())
        }
        Message::Ack(epoch, number) => put_ack(out, *epoch, *number),
        Message::NewPred(epoch, server) => put_new_pred(out, *epoch, *server),
        Message::Have(epoch, last) => put_have(out, *epoch, *last),
        Message::NewSucc(epoch, server, last) => put_new_succ(out, *epoch, *server, *last),
        Message::Snapshot(epoch, _)
        | Message::BecomeHead(epoch)
        | Message::BecomeTail(epoch)
        | Message::Joined(epoch) => put_epoch(out, *epoch),
        Message::Retire | Message::Gone => Ok(()),
        Message::Config(epoch, head, tail) => put_config(out, *epoch, *head, *tail),
    }
}

// Writes a call's number, and the update.
fn put_submit(
    alloc: Global,
    out: &mut Vec<u8>,
    number: CallNumber,
    update: &Update,
) -> Result<(), AllocError>
    ensures text { OnOk result
        (out.new.items ≡ out.old.items ++ submitted.spell (number, update.now)) }
    ensures fits { OnOk result (submitted.Fits (number, update.now)) }
{
    put_call_number(out, number)?;
    put_update(alloc, out, update)
}

// Writes a call's number, and the query.
fn put_asked(
    alloc: Global,
    out: &mut Vec<u8>,
    number: CallNumber,
    query: &Query,
) -> Result<(), AllocError>
    ensures text { OnOk result (out.new.items ≡ out.old.items ++ asked.spell (number, query.now)) }
    ensures fits { OnOk result (asked.Fits (number, query.now)) }
{
    put_call_number(out, number)?;
    put_query(alloc, out, query)
}

// Writes a call's number, and the reply.
fn put_answer(
    alloc: Global,
    out: &mut Vec<u8>,
    number: CallNumber,
    reply: &Reply,
) -> Result<(), AllocError>
    ensures text { OnOk result
        (out.new.items ≡ out.old.items ++ answered.spell (number, reply.now)) }
    ensures fits { OnOk result (answered.Fits (number, reply.now)) }
{
    put_call_number(out, number)?;
    put_reply(alloc, out, reply)
}

// Writes an epoch, and an entry after its number.
fn put_forwarded(
    alloc: Global,
    out: &mut Vec<u8>,
    epoch: Epoch,
    number: LogNumber,
    entry: &Entry,
) -> Result<(), AllocError>
    ensures text { OnOk result
        (out.new.items ≡ out.old.items ++ forwarded.spell (epoch, (number, entry.now))) }
    ensures fits { OnOk result (forwarded.Fits (epoch, (number, entry.now))) }
{
    put_epoch(out, epoch)?;
    put_log_number(out, number)?;
    put_entry(alloc, out, entry)
}

// Writes a log entry.
#[tactic(auto, unfolding(crate::specs::Messages::entry))]
fn put_entry(alloc: Global, out: &mut Vec<u8>, entry: &Entry) -> Result<(), AllocError>
    ensures text { OnOk result (out.new.items ≡ out.old.items ++ entry_form.spell entry.now) }
    ensures fits { OnOk result (entry_form.Fits entry.now) }
{
    put_client(out, entry.client)?;
    put_call_number(out, entry.number)?;
    put_update(alloc, out, &entry.update)
}

// Writes an epoch, and the number up to which entries were processed.
fn put_ack(out: &mut Vec<u8>, epoch: Epoch, number: LogNumber) -> Result<(), AllocError>
    ensures text { OnOk result
        (out.new.items ≡ out.old.items ++ acknowledged.spell (epoch, number)) }
    ensures fits { OnOk result (acknowledged.Fits (epoch, number)) }
{
    put_epoch(out, epoch)?;
    put_log_number(out, number)
}

// Writes an epoch, and the new predecessor.
fn put_new_pred(out: &mut Vec<u8>, epoch: Epoch, server: ServerId) -> Result<(), AllocError>
    ensures text { OnOk result
        (out.new.items ≡ out.old.items ++ predecessor.spell (epoch, server)) }
    ensures fits { OnOk result (predecessor.Fits (epoch, server)) }
{
    put_epoch(out, epoch)?;
    put_server(out, server)
}

// Writes an epoch, and the last number of a log.
fn put_have(out: &mut Vec<u8>, epoch: Epoch, last: Option<LogNumber>) -> Result<(), AllocError>
    ensures text { OnOk result (out.new.items ≡ out.old.items ++ held.spell (epoch, last)) }
    ensures fits { OnOk result (held.Fits (epoch, last)) }
{
    put_epoch(out, epoch)?;
    put_last(out, last)
}

// Writes an epoch, the new successor, and the last number of its log.
fn put_new_succ(
    out: &mut Vec<u8>,
    epoch: Epoch,
    server: ServerId,
    last: Option<LogNumber>,
) -> Result<(), AllocError>
    ensures text { OnOk result
        (out.new.items ≡ out.old.items ++ successor.spell (epoch, (server, last))) }
    ensures fits { OnOk result (successor.Fits (epoch, (server, last))) }
{
    put_epoch(out, epoch)?;
    put_server(out, server)?;
    put_last(out, last)
}

// Writes an epoch, and the ends of the chain.
fn put_config(
    out: &mut Vec<u8>,
    epoch: Epoch,
    head: Option<ServerId>,
    tail: Option<ServerId>,
) -> Result<(), AllocError>
    ensures text { OnOk result (out.new.items ≡ out.old.items ++ ends.spell (epoch, (head, tail))) }
    ensures fits { OnOk result (ends.Fits (epoch, (head, tail))) }
{
    put_epoch(out, epoch)?;
    put_end(out, head)?;
    put_end(out, tail)
}
