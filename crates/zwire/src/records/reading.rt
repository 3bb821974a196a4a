//! Records, read from the text of a log.

ghost use Rattle.std.specs.Prelude.{◌≡◌, List, ◌++◌, IfOk, IfErr, IfSome, IfNone};
ghost use Rattle.zwire.specs.declared.records.fault.RecordFault.TheVariants.{Memory as OfMemory};
ghost use Rattle.zwire.specs.declared.records.record.Record.{Record};
ghost use Rattle.zwire.specs.records.Records.{Fits, AllFit, line_of, text_of, HasNoRecord, IsFaultOf};

use crate::records::fault::RecordFault;
use crate::records::record::Record;
use crate::records::record_reading::whole_record;
use base64::DecodeAllocError;
use base64::engine::general_purpose::STANDARD;
use memchr::memchr;
use std::alloc::Global;
use zalloc::Memory;
use zcodec::ReadError;

/// Reads the record whose line comes first in the text, with what follows the line. Returns `None`
/// if the text doesn't begin with a record's line.
pub fn next_record(alloc: Global, text: &[u8]) -> Result<Option<(Record, &[u8])>, Memory>
    ensures some { IfOk result (λ next. IfSome next (λ x.
        Fits x.0 × (text.now ≡ line_of x.0 ++ x.1.now))) }
    ensures none { IfOk result (λ next. IfNone next (HasNoRecord text.now)) }
{
    let Some(place) = memchr(b'\n', text) else {
        return Ok(None);
    };
    let bytes = match STANDARD.decode(alloc, &text[..place]) {
        Ok(bytes) => bytes,
        Err(DecodeAllocError::OutOfMemory) => return Err(Memory),
        Err(DecodeAllocError::DecodeError(_)) => return Ok(None),
    };
    match whole_record(alloc, &bytes) {
        Ok(record) => Ok(Some((record, &text[place + 1..]))),
        Err(ReadError::Memory) => Err(Memory),
        Err(ReadError::Fault(_)) => Ok(None),
    }
}

/// Reads the records of a log, in order. Fails at the first line that isn't a record.
pub fn read_records(alloc: Global, text: &[u8]) -> Result<Vec<Record>, RecordFault>
    // What is read is written so.
    ensures found { IfOk result (λ records.
        AllFit records.items × (text.now ≡ text_of records.items)) }
    // What is written so is read, unless memory runs out.
    ensures only { (records : List Record) → AllFit records → text.now ≡ text_of records
        → IfOk result (λ read. read.items ≡ records)
        × IfErr result (λ fault. fault ≡ OfMemory) }
    // Which line it is.
    ensures fault { IfErr result (IsFaultOf text.now) }
{
    records_in(alloc, text)
}

// The same, without the second clause.
#[tactic(auto, using(crate::proofs::records_lemmas::Texts::shorter))]
fn records_in(alloc: Global, text: &[u8]) -> Result<Vec<Record>, RecordFault>
    ensures found { IfOk result (λ records.
        AllFit records.items × (text.now ≡ text_of records.items)) }
    ensures fault { IfErr result (IsFaultOf text.now) }
{
    let mut records = Vec::new(alloc);
    let mut rest = text;
    while !rest.is_empty() {
        let Some((record, after)) = next_record(alloc, rest)? else {
            return Err(RecordFault::Line(records.len() + 1));
        };
        records.push(record)?;
        rest = after;
    }
    Ok(records)
}
