//! The bytes of a new file, and of one that replaces others and ends with the same sum.

use std::test::Fail;
use zjournal::{MemoryFile, open, start_before};

// A new file for three servers, with two batches.
const NEW: &[u8] = b"\x01jellqupas journal \x03\x03tree00000001\0\x0100620062a\0\x01012600c4b\0\0";

// One with a batch that ends with the same sum, and one that was put after it.
const REPLACED: &[u8] =
    b"\x01jellqupas journal \x03\x03tree00620061\0\x01012600c4c\0\x01024e0128d\0\0";

#[test]
fn a_new_file_begins_with_the_sum_1(rt: HostRuntime) -> Result<(), Fail> {
    let alloc = rt.alloc();
    let Ok((mut journal, _)) = open(alloc, MemoryFile::new(alloc, &[], 0, u64::MAX)?, 3) else {
        return Err("a journal".into());
    };
    assert!(rt; journal.put(b"a").is_ok());
    assert!(rt; journal.put(b"b").is_ok());
    assert!(rt; journal.device().current().seen.as_slice() == NEW);
    assert_eq!(rt; journal.sum(), 19_267_780);
    Ok(())
}

#[test]
fn a_sum_is_found_backwards(rt: HostRuntime) -> Result<(), Fail> {
    let alloc = rt.alloc();
    let mut texts = Vec::new(alloc);
    texts.push(b"c".to_vec(alloc)?)?;
    assert_eq!(rt; start_before(19_267_780, &texts), 6_422_625);
    texts.push(b"d".to_vec(alloc)?)?;
    assert_eq!(rt; start_before(38_666_536, &texts), 6_422_625);
    Ok(())
}

#[test]
fn another_file_ends_with_the_same_sum(rt: HostRuntime) -> Result<(), Fail> {
    let alloc = rt.alloc();
    let Ok((mut journal, _)) = open(alloc, MemoryFile::new(alloc, NEW, 0, u64::MAX)?, 3) else {
        return Err("a journal".into());
    };
    let Ok(()) = journal.begin_renewal(6_422_625) else {
        return Err("a new file".into());
    };
    let Ok(()) = journal.put_renewed(b"c") else {
        return Err("a batch".into());
    };
    assert!(rt; journal.end_renewal().is_ok());
    assert_eq!(rt; journal.sum(), 19_267_780);
    assert!(rt; journal.put(b"d").is_ok());
    assert!(rt; journal.device().current().seen.as_slice() == REPLACED);
    let Ok((_, text)) = open(alloc, MemoryFile::new(alloc, REPLACED, 0, u64::MAX)?, 3) else {
        return Err("the file that replaced it".into());
    };
    assert!(rt; text.as_slice() == b"cd".as_slice());
    Ok(())
}
