//! A tree, written as the text of its snapshot, chunk by chunk.

ghost use Rattle.std.specs.Prelude.{◌≡◌, ◌++◌, true, false, length, IfNone, IfOk, IfSome, OnOk};
ghost use Rattle.zjournal.specs.Blocks.{IsText};
ghost use Rattle.zwire.specs.records.Records.{Fits as FitsLine, line_of};
ghost use Rattle.zsnapshots.specs.States.{Fits, spelled, StateRow};
ghost use Rattle.zsnapshots.specs.folder.Compaction.{IsAllWritten, IsChunk};
ghost use Rattle.zsnapshots.specs.folder.support.Writing.{IsRecordWritten};

use crate::Writing;
use crate::limits::CHUNK;
use std::alloc::Global;
use std::marker::Model;
use zalloc::Memory;
use ztree_service::LocalTree;
use zwire::records::{Record, Row, write_records};

/// A tree that is being written as a snapshot, chunk by chunk. The chunks together are the
/// snapshot's text.
#[derive(Drop)]
pub struct Compaction<'a> {
    alloc: Global,
    tree: &'a LocalTree,
    writing: Writing<'a>,
    is_broken: bool,
}

impl<'a> Model for Compaction<'a> {
    ghost use Rattle.zsnapshots.specs.folder.Compaction.{CompactionView};
    ghost use Rattle.zsnapshots.specs.folder.support.Codes.{coded_compaction};
    ghost use Rattle.zsnapshots.specs.folder.support.Writing.{IsCompactionIf};

    ghost Value = { CompactionView };

    ghost coded = { coded_compaction };

    ghost view = { λ s. record { tree = s.tree.now.tree; written = s.writing.written } };

    ghost invariant = { λ s. IsCompactionIf s.is_broken s.tree.now.tree s.writing };
}

impl<'a> Compaction<'a> {
    /// Begins with nothing written. Returns `Memory`, too, if the tree ran out of memory before.
    pub fn new(alloc: Global, tree: &'a LocalTree) -> Result<Compaction<'a>, Memory>
        ensures begun { IfOk result (λ s. s ≡ record { tree = tree.now.tree; written = 0 }) }
        ensures whole { OnOk result (tree.now.is_broken ≡ false) }
    {
        let writing = Writing::of_tree(alloc, tree.machine()?)?;
        Ok(Compaction {
            alloc,
            tree,
            writing,
            is_broken: false,
        })
    }

    /// Returns the next chunk. It has whole records: enough of them for 64 KiB, or all that are
    /// left. Returns `None` once all were returned. After `Memory` some may be missing: start over.
    pub fn next_chunk(&mut self) -> Result<Option<Vec<u8>>, Memory>
        ensures chunk { IfOk result (λ next. IfSome next (λ chunk.
            IsChunk self.old self.new chunk.items)) }
        ensures text { IfOk result (λ next. IfSome next (λ chunk. IsText chunk.items)) }
        ensures end { IfOk result (λ next. IfNone next (IsAllWritten self.old)) }
        ensures ended { IfOk result (λ next. IfNone next (self.new ≡ self.old)) }
    {
        let mut text = Vec::new(self.alloc);
        if !self.write_next(&mut text)? {
            return Ok(None);
        }
        while text.len() < CHUNK {
            if !self.write_next(&mut text)? {
                return Ok(Some(text));
            }
        }
        Ok(Some(text))
    }

    // Appends the line of the next record, and returns true; or returns false if there is none.
    fn write_next(&mut self, text: &mut Vec<u8>) -> Result<bool, Memory>
        ensures next { IfOk result (λ more. more ≡ true
            → IsRecordWritten self.old self.new text.old.items text.new.items) }
        ensures end { IfOk result (λ more. more ≡ false → IsAllWritten self.old) }
        ensures ended { IfOk result (λ more. more ≡ false
            → (self.new ≡ self.old) × (text.new.items ≡ text.old.items)) }
    {
        if self.is_broken {
            return Err(Memory);
        }
        let mut bytes = Vec::new(self.alloc);
        if !self.writing.write_next(&mut bytes)? {
            return Ok(false);
        }
        self.is_broken = true;
        write_line(self.alloc, Record::Row(row_of(bytes)), text)?;
        self.is_broken = false;
        Ok(true)
    }
}

// Returns the bytes of a row of a state as a row.
fn row_of(bytes: Vec<u8>) -> Row
    requires { (x : StateRow) × Fits x × (bytes.items ≡ spelled x) }
    ensures { result ≡ bytes.items }
{
    match Row::new(bytes) {
        Some(row) => row,
        None => unreachable!(),
    }
}

// Appends the line of a record.
fn write_line(alloc: Global, it: Record, text: &mut Vec<u8>) -> Result<(), Memory>
    ensures line { OnOk result (text.new.items ≡ text.old.items ++ line_of it) }
    ensures fits { OnOk result (FitsLine it) }
{
    let records = vec![in alloc; it]?;
    write_records(alloc, &records, text)
}
