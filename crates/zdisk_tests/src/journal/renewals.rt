//! The power is cut at every moment of a renewal, and the file is opened each time.

ghost use Rattle.zjournal.specs.Journal.{IsSound};

use crate::journal::incarnations::put_all;
use std::alloc::Global;
use std::test::Fail;
use zjournal::{Device, Journal, MemoryFile, Moment, PutError, open};

// The sizes of a new file's batches, in order.
const SIZES: [usize; 4] = [3, 1, 900, 20];

// A batch of this many letters.
fn letters(alloc: Global, count: usize) -> Option<Vec<u8>> {
    let mut batch = Vec::new(alloc);
    for _ in 0..count {
        if batch.push(b'r').is_err() {
            return None;
        }
    }
    Some(batch)
}

// Renews the file with this many batches.
fn renew<D: Device>(alloc: Global, journal: &mut Journal<D>, count: usize) -> Result<(), PutError>
    requires { IsSound D.seen D.may_leave journal.old }
    ensures { IsSound D.seen D.may_leave journal.new }
{
    journal.begin_renewal(1)?;
    for i in 0..count {
        let Some(batch) = letters(alloc, SIZES[i % 4]) else {
            return Err(PutError::Memory);
        };
        journal.put_renewed(&batch)?;
    }
    journal.end_renewal()
}

// How many letters this many batches have.
fn renewed_size(count: usize) -> usize {
    let mut size = 0usize;
    for i in 0..count {
        size = size.saturating_add(SIZES[i % 4]);
    }
    size
}

// The text that is read from a file with these bytes.
fn text_in(alloc: Global, bytes: &[u8], chance: u64) -> Option<Vec<u8>> {
    let Ok(file) = MemoryFile::new(alloc, bytes, chance, u64::MAX) else {
        return None;
    };
    match open(alloc, file, 3) {
        Ok((_, text)) => Some(text),
        Err(_) => None,
    }
}

// Whether a file with these bytes has the new batches (`Some(true)`), or the old ones.
fn is_renewed(alloc: Global, bytes: &[u8], old: &[u8], count: usize, chance: u64) -> Option<bool> {
    let Some(text) = text_in(alloc, bytes, chance) else {
        return None;
    };
    if text.as_slice() == old {
        return Some(false);
    }
    if text.len() == renewed_size(count) && text.iter().all(|byte| *byte == b'r') {
        return Some(true);
    }
    None
}

// Whether a power cut at these moments leaves the old batches or the new ones.
fn each_is_whole(alloc: Global, moments: &[Moment], old: &[u8], count: usize, chance: u64) -> bool {
    for moment in moments {
        if is_renewed(alloc, &moment.disk, old, count, chance).is_none() {
            return false;
        }
        if is_renewed(alloc, &moment.seen, old, count, chance).is_none() {
            return false;
        }
    }
    true
}

// Whether a journal with three batches is renewed with this many, and power cuts leave either.
fn is_kept(alloc: Global, count: usize, chance: u64) -> bool {
    let Ok(file) = MemoryFile::new(alloc, &[], chance, u64::MAX) else {
        return false;
    };
    let Ok((mut journal, _)) = open(alloc, file, 3) else {
        return false;
    };
    if put_all(&mut journal, 3) < 3 {
        return false;
    }
    let before = journal.device().past().len();
    let Some(old) = text_in(alloc, &journal.device().current().disk, chance) else {
        return false;
    };
    if renew(alloc, &mut journal, count).is_err() {
        return false;
    }
    let file = journal.device();
    let Some(moments) = file.past().get(before..) else {
        return false;
    };
    each_is_whole(alloc, moments, &old, count, chance)
        && is_renewed(alloc, &file.current().disk, &old, count, chance) == Some(true)
}

#[test]
fn power_cuts_leave_either_file(rt: HostRuntime) -> Result<(), Fail> {
    for chance in 0..20u64 {
        for count in 0..6usize {
            assert!(rt; is_kept(rt.alloc(), count, chance));
        }
    }
    Ok(())
}

// The steps until the end of a renewal begins: opening takes eight, a batch four, and the begin of a
// renewal with two batches seven.
const END_AFTER: u64 = 19;

// Whether a renewal whose disk fails after this many steps leaves either file. If it failed before
// its end, the journal is open, so its next batch comes to the disk. Else it makes no further call.
fn is_reported(alloc: Global, calls: u64, chance: u64) -> bool {
    let Ok(file) = MemoryFile::new(alloc, &[], chance, calls) else {
        return false;
    };
    let Ok((mut journal, _)) = open(alloc, file, 3) else {
        return false;
    };
    if put_all(&mut journal, 1) < 1 {
        return false;
    }
    let Some(old) = text_in(alloc, &journal.device().current().disk, chance) else {
        return false;
    };
    if renew(alloc, &mut journal, 2).is_ok() {
        return false;
    }
    let steps = journal.device().past().len();
    let again = journal.put(b"x");
    let file = journal.device();
    let calls_more = file.past().len() > steps;
    let is_as_before = if calls < END_AFTER {
        again == Err(PutError::Failed) && calls_more
    } else {
        again == Err(PutError::Closed) && !calls_more
    };
    is_as_before && is_renewed(alloc, &file.current().disk, &old, 2, chance).is_some()
}

#[test]
fn a_failing_disk_is_reported(rt: HostRuntime) -> Result<(), Fail> {
    // This renewal takes eleven steps: four of them are its end.
    for calls in 12..23u64 {
        assert!(rt; is_reported(rt.alloc(), calls, 5));
        assert!(rt; is_reported(rt.alloc(), calls, 23));
    }
    Ok(())
}

#[test]
fn a_renewed_file_takes_batches(rt: HostRuntime) -> Result<(), Fail> {
    let alloc = rt.alloc();
    let Ok((mut journal, _)) = open(alloc, MemoryFile::new(alloc, &[], 7, u64::MAX)?, 3) else {
        return Err("a journal".into());
    };
    assert_eq!(rt; put_all(&mut journal, 5), 5);
    assert!(rt; renew(alloc, &mut journal, 2).is_ok());
    assert!(rt; journal.put(b"xyz").is_ok());
    assert!(rt; renew(alloc, &mut journal, 1).is_ok());
    assert!(rt; journal.put(b"abc").is_ok());
    assert!(rt; journal.put(b"de").is_ok());
    let text = text_in(alloc, &journal.device().current().disk, 7).ok_or("a text")?;
    assert_eq!(rt; text.as_slice(), b"rrrabcde".as_slice());
    Ok(())
}

#[test]
fn an_unfinished_renewal_counts_for_nothing(rt: HostRuntime) -> Result<(), Fail> {
    let alloc = rt.alloc();
    let Ok((mut journal, _)) = open(alloc, MemoryFile::new(alloc, &[], 7, u64::MAX)?, 3) else {
        return Err("a journal".into());
    };
    assert!(rt; journal.put(b"abc").is_ok());
    let Ok(()) = journal.begin_renewal(1) else {
        return Err("a new file".into());
    };
    assert!(rt; journal.put_renewed(b"x").is_ok());
    let text = text_in(alloc, &journal.device().current().disk, 7).ok_or("a text")?;
    assert_eq!(rt; text.as_slice(), b"abc".as_slice());
    assert!(rt; renew(alloc, &mut journal, 1).is_ok());
    let text = text_in(alloc, &journal.device().current().disk, 7).ok_or("a text")?;
    assert_eq!(rt; text.as_slice(), b"rrr".as_slice());
    Ok(())
}

#[test]
fn other_batches_are_refused(rt: HostRuntime) -> Result<(), Fail> {
    let alloc = rt.alloc();
    let Ok((mut journal, _)) = open(alloc, MemoryFile::new(alloc, &[], 7, u64::MAX)?, 3) else {
        return Err("a journal".into());
    };
    let Ok(()) = journal.begin_renewal(1) else {
        return Err("a new file".into());
    };
    assert_eq!(rt; journal.put_renewed(b"a\0b"), Err(PutError::NotText));
    Ok(())
}
