//! Incarnations of a journal: batches are put, and its file is opened again.

ghost use Rattle.zjournal.specs.Journal.{IsSound};

use std::alloc::Global;
use zjournal::{Device, Journal, MemoryFile, open};

/// The batches, in the order in which they are put.
pub const BATCHES: [&str; 5] = [
    "1 create /a p aGk=\n",
    "0 tick\n1 get /a\n",
    "x",
    "1 set /a 0 aGV5\n2 open 5\n2 create /b e aQ==\n",
    "2 close 1\n",
];

/// Puts the first batches, until one isn't taken. How many were taken.
pub fn put_all<D: Device>(journal: &mut Journal<D>, count: usize) -> usize
    requires { IsSound D.seen D.may_leave journal.old }
    ensures { IsSound D.seen D.may_leave journal.new }
{
    for i in 0..count {
        let Some(batch) = BATCHES.get(i) else {
            return i;
        };
        if journal.put(batch.as_bytes()).is_err() {
            return i;
        }
    }
    count
}

/// How many of the first batches make this text.
pub fn count_of(text: &[u8]) -> Option<usize> {
    let mut rest = text;
    for i in 0..BATCHES.len() {
        if rest.is_empty() {
            return Some(i);
        }
        let Some(more) = rest.strip_prefix(BATCHES[i].as_bytes()) else {
            return None;
        };
        rest = more;
    }
    if rest.is_empty() {
        Some(BATCHES.len())
    } else {
        None
    }
}

// How many batches are read from a file with these bytes.
fn opened_once(alloc: Global, bytes: &[u8], chance: u64) -> Option<usize> {
    let Ok(file) = MemoryFile::new(alloc, bytes, chance, u64::MAX) else {
        return None;
    };
    let Ok((_, text)) = open(alloc, file, 3) else {
        return None;
    };
    count_of(&text)
}

// Whether this many batches are read, whatever a power cut left while the file was opened.
fn is_same_at_each_moment(alloc: Global, file: &MemoryFile, count: usize, chance: u64) -> bool {
    for moment in file.past() {
        if opened_once(alloc, &moment.disk, chance) != Some(count) {
            return false;
        }
        if opened_once(alloc, &moment.seen, chance) != Some(count) {
            return false;
        }
    }
    true
}

/// How many batches are read from a file with these bytes, also after a power cut at any moment of
/// the opening.
pub fn opened(alloc: Global, bytes: &[u8], chance: u64) -> Option<usize> {
    let Ok(file) = MemoryFile::new(alloc, bytes, chance, u64::MAX) else {
        return None;
    };
    let Ok((journal, text)) = open(alloc, file, 3) else {
        return None;
    };
    let Some(count) = count_of(&text) else {
        return None;
    };
    if is_same_at_each_moment(alloc, journal.device(), count, chance) {
        Some(count)
    } else {
        None
    }
}
