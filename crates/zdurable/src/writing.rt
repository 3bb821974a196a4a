//! Changes of a front end, written as records of a log.
//!
//! # Why
//! A refused update is written too. It takes no zxid, but to leave it out the code would have to
//! know what each refusal leaves.

ghost use Rattle.std.specs.Prelude.{◌≡◌, IfOk, OnOk};
ghost use Rattle.zjournal.specs.Blocks.{IsText};
ghost use Rattle.zsnapshots.specs.folder.Entries.{entries_text, records_of, AreEntries};

use std::alloc::Global;
use zalloc::Memory;
use zcalls::Update;
use zsnapshots::folder::add_entry;
use zwire::records::{Record, write_records};

/// Returns the text of updates: the record of each.
pub(crate) fn written(alloc: Global, updates: Vec<Update>) -> Result<Vec<u8>, Memory>
    ensures text { IfOk result (λ text. text.items ≡ entries_text updates.items) }
    ensures are { OnOk result (AreEntries updates.items) }
    ensures no_zero { IfOk result (λ text. IsText text.items) }
{
    let records = records_of(alloc, updates)?;
    let mut text = Vec::new(alloc);
    write_records(alloc, &records, &mut text)?;
    Ok(text)
}

// Returns the records of updates.
fn records_of(alloc: Global, updates: Vec<Update>) -> Result<Vec<Record>, Memory>
    ensures { IfOk result (λ records. records.items ≡ records_of updates.items) }
{
    let mut records = Vec::new(alloc);
    for update in updates {
        add_entry(&mut records, update)?;
    }
    Ok(records)
}
