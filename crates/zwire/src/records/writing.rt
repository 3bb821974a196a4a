//! Records, written as the text of a log.

ghost use Rattle.std.specs.Prelude.{◌≡◌, ◌++◌, OnOk, OnErr, IfOk, string_bytes};
ghost use Rattle.zjournal.specs.Blocks.{IsText};
ghost use Rattle.zwire.specs.records.Records.{Fits, AllFit, line_of, text_of};

use crate::records::record::Record;
use crate::records::record_writing::put_record;
use base64::engine::general_purpose::STANDARD;
use std::alloc::{AllocError, Global};
use zalloc::Memory;

/// Appends the text of the records to a log. At `Memory` the log is unchanged.
///
/// Every record fits, so `read_records` reads them again.
pub fn write_records(alloc: Global, records: &[Record], out: &mut Vec<u8>) -> Result<(), Memory>
    ensures ok { OnOk result (out.new.items ≡ out.old.items ++ text_of records.now) }
    ensures fits { OnOk result (AllFit records.now) }
    ensures text { OnOk result (IsText (text_of records.now)) }
    ensures err { OnErr result (out.new.items ≡ out.old.items) }
{
    let text = lines(alloc, records)?;
    out.extend_from_slice(text.as_bytes())?;
    Ok(())
}

// Returns the lines of the records.
fn lines(alloc: Global, records: &[Record]) -> Result<String, AllocError>
    ensures text { IfOk result (λ text. string_bytes text ≡ text_of records.now) }
    ensures fits { OnOk result (AllFit records.now) }
{
    let mut text = String::new(alloc);
    for record in records {
        add_line(alloc, record, &mut text)?;
    }
    Ok(text)
}

// Appends the line of a record.
#[tactic(auto, unfolding(crate::specs::records::Records::line_of))]
fn add_line(alloc: Global, it: &Record, text: &mut String) -> Result<(), AllocError>
    ensures line { OnOk result
        (string_bytes text.new ≡ string_bytes text.old ++ line_of it.now) }
    ensures fits { OnOk result (Fits it.now) }
{
    let mut bytes = Vec::new(alloc);
    put_record(alloc, &mut bytes, it)?;
    STANDARD.encode_string(&bytes, text)?;
    text.push_str("\n")
}
