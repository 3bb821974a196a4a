//! Messages, read from the front of bytes with what follows them.

ghost use Rattle.zcodec.specs.Readers.{Gives};
ghost use Rattle.zprotocol.specs.declared.message.Message.TheVariants as message;
ghost use Rattle.zjute.specs.Shapes.{read_as};
ghost use Rattle.zwire.specs.Fields.{epoch};
ghost use Rattle.zwire.specs.Messages.{entry, submitted, asked, answered, forwarded, acknowledged};
ghost use Rattle.zwire.specs.Messages.{predecessor, held, successor, ends, order_at};
ghost use Rattle.zwire.specs.Messages.{message_at};
ghost use Rattle.zwire.specs.Messages.{any_message};

use crate::field_reading::{call_number_at, client_at, end_at, epoch_at, last_at, log_number_at};
use crate::records::{server_at, update_of};
use crate::reply_reading::{query_of, reply_of};
use std::alloc::Global;
use zcalls::{Entry, SharedEntry};
use zcodec::{Fault, ReadError, u8_at};
use zprotocol::Message;

/// Reads a message.
#[tactic(auto, unfolding(crate::specs::Messages::any_message))]
pub(crate) fn message_of(alloc: Global, bytes: &[u8]) -> Result<(Message<()>, &[u8]), ReadError>
    ensures { Gives (λ x. (x.0, x.1.now)) result (any_message.read bytes.now) }
{
    let (tag, rest) = u8_at(bytes)?;
    message_behind(alloc, tag, rest)
}

// The value read, as a message of this kind.
macro_rules! a {
    ($kind:path, $read:expr) => {
        match $read {
            Ok((it, rest)) => Ok(($kind(it), rest)),
            Err(fault) => Err(ReadError::Fault(fault)),
        }
    };
}

// The value read; a fault ends the reading.
macro_rules! read {
    ($read:expr) => {
        match $read {
            Ok(read) => read,
            Err(fault) => return Err(ReadError::Fault(fault)),
        }
    };
}

// Reads what follows the tag of a message.
#[tactic(auto, unfolding(crate::specs::Messages::message_at))]
fn message_behind(alloc: Global, tag: u8, bytes: &[u8]) -> Result<(Message<()>, &[u8]), ReadError>
    ensures { Gives (λ x. (x.0, x.1.now)) result (message_at tag bytes.now) }
{
    match tag {
        0 => submit_of(alloc, bytes),
        1 => query_call_of(alloc, bytes),
        2 => answer_of(alloc, bytes),
        3 => forwarded_of(alloc, bytes),
        4 => ack_of(bytes),
        5 => snapshot_of(bytes),
        _ => order_behind(tag, bytes),
    }
}

// Reads what follows the tag of a message to or from the master.
#[tactic(auto, unfolding(crate::specs::Messages::order_at))]
fn order_behind(tag: u8, bytes: &[u8]) -> Result<(Message<()>, &[u8]), ReadError>
    ensures { Gives (λ x. (x.0, x.1.now)) result (order_at tag bytes.now) }
{
    match tag {
        6 => new_pred_of(bytes),
        7 => have_of(bytes),
        8 => new_succ_of(bytes),
        9 => a!(Message::BecomeHead, epoch_at(bytes)),
        10 => a!(Message::BecomeTail, epoch_at(bytes)),
        11 => Ok((Message::Retire, bytes)),
        12 => a!(Message::Joined, epoch_at(bytes)),
        13 => Ok((Message::Gone, bytes)),
        14 => config_of(bytes),
        _ => Err(ReadError::Fault(Fault::Invalid)),
    }
}

// Reads a submit.
fn submit_of(alloc: Global, bytes: &[u8]) -> Result<(Message<()>, &[u8]), ReadError>
    ensures { Gives (λ x. (x.0, x.1.now)) result
        (read_as submitted (λ m. message.Submit m.0 m.1) bytes.now) }
{
    let (number, rest) = read!(call_number_at(bytes));
    let (update, rest) = update_of(alloc, rest)?;
    Ok((Message::Submit(number, update), rest))
}

// Reads a query with its number.
fn query_call_of(alloc: Global, bytes: &[u8]) -> Result<(Message<()>, &[u8]), ReadError>
    ensures { Gives (λ x. (x.0, x.1.now)) result
        (read_as asked (λ m. message.Query m.0 m.1) bytes.now) }
{
    let (number, rest) = read!(call_number_at(bytes));
    let (query, rest) = query_of(alloc, rest)?;
    Ok((Message::Query(number, query), rest))
}

// Reads an answer.
fn answer_of(alloc: Global, bytes: &[u8]) -> Result<(Message<()>, &[u8]), ReadError>
    ensures { Gives (λ x. (x.0, x.1.now)) result
        (read_as answered (λ m. message.Answer m.0 m.1) bytes.now) }
{
    let (number, rest) = read!(call_number_at(bytes));
    match reply_of(alloc, rest) {
        Ok((reply, rest)) => Ok((Message::Answer(number, reply), rest)),
        Err(error) => Err(error),
    }
}

// Reads an entry that was forwarded.
fn forwarded_of(alloc: Global, bytes: &[u8]) -> Result<(Message<()>, &[u8]), ReadError>
    ensures { Gives (λ x. (x.0, x.1.now)) result
        (read_as forwarded (λ m. message.Update m.0 m.1.0 m.1.1) bytes.now) }
{
    let (epoch, rest) = read!(epoch_at(bytes));
    let (number, rest) = read!(log_number_at(rest));
    let (entry, rest) = entry_of(alloc, rest)?;
    match SharedEntry::new(alloc, entry) {
        Ok(shared) => Ok((Message::Update(epoch, number, shared), rest)),
        Err(_) => Err(ReadError::Memory),
    }
}

// Reads a log entry.
#[tactic(auto, unfolding(crate::specs::Messages::entry))]
fn entry_of(alloc: Global, bytes: &[u8]) -> Result<(Entry, &[u8]), ReadError>
    ensures { Gives (λ x. (x.0, x.1.now)) result (entry.read bytes.now) }
{
    let (client, rest) = read!(client_at(bytes));
    let (number, rest) = read!(call_number_at(rest));
    let (update, rest) = update_of(alloc, rest)?;
    let entry = Entry {
        client,
        number,
        update,
    };
    Ok((entry, rest))
}

// Reads an acknowledgement.
fn ack_of(bytes: &[u8]) -> Result<(Message<()>, &[u8]), ReadError>
    ensures { Gives (λ x. (x.0, x.1.now)) result
        (read_as acknowledged (λ m. message.Ack m.0 m.1) bytes.now) }
{
    let (epoch, rest) = read!(epoch_at(bytes));
    let (number, rest) = read!(log_number_at(rest));
    Ok((Message::Ack(epoch, number), rest))
}

// Reads a snapshot without its state.
fn snapshot_of(bytes: &[u8]) -> Result<(Message<()>, &[u8]), ReadError>
    ensures { Gives (λ x. (x.0, x.1.now)) result
        (read_as epoch (λ n. message.Snapshot n tt) bytes.now) }
{
    let (epoch, rest) = read!(epoch_at(bytes));
    Ok((Message::Snapshot(epoch, ()), rest))
}

// Reads a new predecessor.
fn new_pred_of(bytes: &[u8]) -> Result<(Message<()>, &[u8]), ReadError>
    ensures { Gives (λ x. (x.0, x.1.now)) result
        (read_as predecessor (λ m. message.NewPred m.0 m.1) bytes.now) }
{
    let (epoch, rest) = read!(epoch_at(bytes));
    let (server, rest) = read!(server_at(rest));
    Ok((Message::NewPred(epoch, server), rest))
}

// Reads the last number of a log.
fn have_of(bytes: &[u8]) -> Result<(Message<()>, &[u8]), ReadError>
    ensures { Gives (λ x. (x.0, x.1.now)) result
        (read_as held (λ m. message.Have m.0 m.1) bytes.now) }
{
    let (epoch, rest) = read!(epoch_at(bytes));
    let (last, rest) = read!(last_at(rest));
    Ok((Message::Have(epoch, last), rest))
}

// Reads a new successor.
fn new_succ_of(bytes: &[u8]) -> Result<(Message<()>, &[u8]), ReadError>
    ensures { Gives (λ x. (x.0, x.1.now)) result
        (read_as successor (λ m. message.NewSucc m.0 m.1.0 m.1.1) bytes.now) }
{
    let (epoch, rest) = read!(epoch_at(bytes));
    let (server, rest) = read!(server_at(rest));
    let (last, rest) = read!(last_at(rest));
    Ok((Message::NewSucc(epoch, server, last), rest))
}

// Reads the ends of the chain.
fn config_of(bytes: &[u8]) -> Result<(Message<()>, &[u8]), ReadError>
    ensures { Gives (λ x. (x.0, x.1.now)) result
        (read_as ends (λ m. message.Config m.0 m.1.0 m.1.1) bytes.now) }
{
    let (epoch, rest) = read!(epoch_at(bytes));
    let (head, rest) = read!(end_at(rest));
    let (tail, rest) = read!(end_at(rest));
    Ok((Message::Config(epoch, head, tail), rest))
}
