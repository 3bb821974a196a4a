//! Records, read from bytes.

ghost use Rattle.std.specs.Prelude.{◌≡◌};
ghost use Rattle.zcodec.specs.Readers.{Reads, Gives, whole};
ghost use Rattle.zwire.specs.records.Records.{password, server, row, logged_at, logged};

use crate::records::call_reading::update_of;
use crate::records::limits::MAX_ROW_BYTES;
use crate::records::record::Record;
use crate::records::row::Row;
use std::alloc::Global;
use zcodec::{Fault, ReadError, end, sized_at, u8_at};
use zpasswords::Password;
use zprotocol::ServerId;

/// Reads the record that all of the bytes spell.
pub(crate) fn whole_record(alloc: Global, bytes: &[u8]) -> Result<Record, ReadError>
    ensures { Gives (λ it. it) result (whole logged bytes.now) }
{
    let (record, rest) = record_of(alloc, bytes)?;
    end(rest)?;
    Ok(record)
}

// Reads a record, and what follows it.
#[tactic(auto, unfolding(crate::specs::records::Records::logged))]
fn record_of(alloc: Global, bytes: &[u8]) -> Result<(Record, &[u8]), ReadError>
    ensures { Gives (λ x. (x.0, x.1.now)) result (logged.read bytes.now) }
{
    let (tag, rest) = u8_at(bytes)?;
    record_behind(alloc, tag, rest)
}

// Reads what follows the tag of a record.
#[tactic(auto, unfolding(crate::specs::records::Records::logged_at))]
fn record_behind(alloc: Global, tag: u8, bytes: &[u8]) -> Result<(Record, &[u8]), ReadError>
    ensures { Gives (λ x. (x.0, x.1.now)) result (logged_at tag bytes.now) }
{
    match tag {
        0 => match password_at(bytes) {
            Ok((password, rest)) => Ok((Record::Password(password), rest)),
            Err(fault) => Err(ReadError::Fault(fault)),
        }
        1 => {
            let (update, rest) = update_of(alloc, bytes)?;
            Ok((Record::Update(update), rest))
        }
        2 => match server_at(bytes) {
            Ok((server, rest)) => Ok((Record::Fail(server), rest)),
            Err(fault) => Err(ReadError::Fault(fault)),
        }
        3 => match server_at(bytes) {
            Ok((server, rest)) => Ok((Record::Join(server), rest)),
            Err(fault) => Err(ReadError::Fault(fault)),
        }
        4 => match server_at(bytes) {
            Ok((server, rest)) => Ok((Record::Retire(server), rest)),
            Err(fault) => Err(ReadError::Fault(fault)),
        }
        5 => {
            let (row, rest) = row_of(alloc, bytes)?;
            Ok((Record::Row(row), rest))
        }
        _ => Err(ReadError::Fault(Fault::Invalid)),
    }
}

// Reads a password.
#[tactic(auto, unfolding(crate::specs::records::Records::password))]
fn password_at(bytes: &[u8]) -> Result<(Password, &[u8]), Fault>
    ensures { Reads (λ x. (x.0, x.1.now)) result (password.read bytes.now) }
{
    match bytes.split_first_chunk::<16>() {
        Some((front, rest)) => Ok((Password::new(*front), rest)),
        None => Err(Fault::Short),
    }
}

// Reads a row of a snapshot.
#[tactic(auto, unfolding(crate::specs::records::Records::row))]
fn row_of(alloc: Global, bytes: &[u8]) -> Result<(Row, &[u8]), ReadError>
    ensures { Gives (λ x. (x.0, x.1.now)) result (row.read bytes.now) }
{
    let (bytes, rest) = sized_at(MAX_ROW_BYTES, bytes)?;
    match Row::new(Vec::from_slice(alloc, bytes)?) {
        Some(row) => Ok((row, rest)),
        None => unreachable!(),
    }
}

/// Reads the id of a server.
#[tactic(auto, unfolding(crate::specs::records::Records::server))]
pub fn server_at(bytes: &[u8]) -> Result<(ServerId, &[u8]), Fault>
    ensures { Reads (λ x. (x.0, x.1.now)) result (server.read bytes.now) }
{
    let (number, rest) = u8_at(bytes)?;
    match ServerId::new(number) {
        Some(server) => Ok((server, rest)),
        None => Err(Fault::Invalid),
    }
}
