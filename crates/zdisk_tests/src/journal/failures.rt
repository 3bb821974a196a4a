//! A disk that fails at each call in turn.

use crate::journal::incarnations::{BATCHES, opened, put_all};
use std::alloc::Global;
use std::test::Fail;
use zjournal::{MemoryFile, OpenError, PutError, open};

// Whether the file has the acknowledged batches, or these and one more.
fn has(alloc: Global, file: &MemoryFile, reported: usize, chance: u64) -> bool {
    match opened(alloc, &file.current().disk, chance) {
        Some(count) => count >= reported && count - reported <= 1,
        None => false,
    }
}

// Whether a journal whose disk fails after this many calls returns nothing wrong, and makes no
// further call.
fn is_reported(alloc: Global, chance: u64, calls: u64) -> bool {
    let Ok(file) = MemoryFile::new(alloc, &[], chance, calls) else {
        return false;
    };
    let mut journal = match open(alloc, file, 3) {
        Ok((journal, _)) => journal,
        Err((e, file)) => return e == OpenError::Failed && has(alloc, &file, 0, chance),
    };
    let reported = put_all(&mut journal, 5);
    let calls_so_far = journal.device().past().len();
    let again = journal.put(BATCHES[0].as_bytes());
    reported < 5
        && again == Err(PutError::Closed)
        && journal.device().past().len() == calls_so_far
        && has(alloc, journal.device(), reported, chance)
}

#[test]
fn a_failing_disk_is_reported(rt: HostRuntime) -> Result<(), Fail> {
    for calls in 0..28u64 {
        assert!(rt; is_reported(rt.alloc(), 5, calls));
        assert!(rt; is_reported(rt.alloc(), 17, calls));
    }
    Ok(())
}
