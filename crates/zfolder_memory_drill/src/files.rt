//! Files in memory, and their contents.

ghost use Rattle.std.specs.Prelude.{IfSome};
ghost use Rattle.zjournal.specs.Device.{Only};
ghost use Rattle.zjournal.specs.Memory.{current_of};
ghost use Rattle.zjournal.specs.Past.{CanBe};

use crate::trees::{Stage, stage_of, worked_text};
use std::alloc::Global;
use zalloc::Memory;
use zjournal::{MemoryFile, OpenError, open, read_text};
use zsnapshots::folder::ReadFault;

// This number chooses what power cuts leave of a file.
const CHANCE: u64 = 7;

// A step of a file fails only when out of memory.
const STEPS: u64 = u64::MAX;

/// Returns a file that holds the tree, durably.
pub(crate) fn worked_file(alloc: Global) -> Option<MemoryFile>
    ensures { IfSome result (λ file. Only (current_of file).seen.items (CanBe (current_of file))) }
{
    let bytes = worked_bytes(alloc)?;
    match MemoryFile::new(alloc, &bytes, CHANCE, STEPS) {
        Ok(file) => Some(file),
        Err(_) => None,
    }
}

// Returns the bytes of such a file.
fn worked_bytes(alloc: Global) -> Option<Vec<u8>> {
    let Ok(text) = worked_text(alloc) else {
        return None;
    };
    let Ok(file) = MemoryFile::new(alloc, &[], CHANCE, STEPS) else {
        return None;
    };
    let Ok((mut journal, _)) = open(alloc, file, 1) else {
        return None;
    };
    if journal.put(&text).is_err() {
        return None;
    }
    match journal.device().current().disk.to_vec(alloc) {
        Ok(bytes) => Some(bytes),
        Err(_) => None,
    }
}

/// Returns the content of a file with these bytes. Memory may run out once.
pub(crate) fn stage_in(alloc: Global, bytes: &[u8]) -> Stage {
    match read_stage(alloc, bytes) {
        Ok(found) => found,
        Err(Memory) => match read_stage(alloc, bytes) {
            Ok(found) => found,
            Err(Memory) => Stage::Other,
        },
    }
}

fn read_stage(alloc: Global, bytes: &[u8]) -> Result<Stage, Memory> {
    let Some(text) = text_in(alloc, bytes)? else {
        return Ok(Stage::Other);
    };
    match stage_of(alloc, &text) {
        Ok(found) => Ok(found),
        Err(ReadFault::NotRecords) => Ok(Stage::Other),
        Err(ReadFault::Memory) => Err(Memory),
    }
}

// Returns the text of a file with these bytes, if it is a journal.
fn text_in(alloc: Global, bytes: &[u8]) -> Result<Option<Vec<u8>>, Memory> {
    let mut file = MemoryFile::new(alloc, bytes, CHANCE, STEPS)?;
    match read_text(alloc, &mut file, 1) {
        Ok(content) => Ok(Some(content.text)),
        Err(OpenError::Memory) => Err(Memory),
        Err(_) => Ok(None),
    }
}
