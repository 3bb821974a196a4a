//! Updates as records of a log.

ghost use Rattle.std.specs.Prelude.{◌≡◌, [], ◌∷◌, ◌++◌, OnOk};
ghost use Rattle.zsnapshots.specs.folder.Entries.{entry_record};

use zalloc::Memory;
use zcalls::Update;
use zwire::records::Record;

/// Appends the record of an update.
pub fn add_entry(records: &mut Vec<Record>, update: Update) -> Result<(), Memory>
    ensures { OnOk result (records.new.items ≡ records.old.items ++ entry_record update ∷ []) }
{
    records.push(Record::Update(update))?;
    Ok(())
}
