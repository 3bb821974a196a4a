//! Files that aren't what they should be.

ghost use Rattle.std.specs.Prelude.{◌<◌};

use crate::journal::incarnations::put_all;
use std::alloc::Global;
use std::test::Fail;
use zjournal::{MemoryFile, OpenError, open};

// The bytes of a journal with two batches.
fn made(alloc: Global, servers: u8) -> Option<Vec<u8>>
    requires { 0 < servers }
{
    let Ok(file) = MemoryFile::new(alloc, &[], 0, u64::MAX) else {
        return None;
    };
    let Ok((mut journal, _)) = open(alloc, file, servers) else {
        return None;
    };
    if put_all(&mut journal, 2) < 2 {
        return None;
    }
    match journal.device().current().seen.to_vec(alloc) {
        Ok(bytes) => Some(bytes),
        Err(_) => None,
    }
}

// The fault of a file, which is unchanged.
fn fault_of(alloc: Global, bytes: &[u8]) -> Option<OpenError> {
    let Ok(file) = MemoryFile::new(alloc, bytes, 0, u64::MAX) else {
        return None;
    };
    match open(alloc, file, 3) {
        Ok(_) => None,
        Err((e, file)) => if file.past().is_empty() {
            Some(e)
        } else {
            None
        },
    }
}

// The fault of a journal with another byte at this index.
fn fault_with(alloc: Global, at: usize, byte: u8) -> Option<OpenError> {
    let Some(mut bytes) = made(alloc, 3) else {
        return None;
    };
    if at >= bytes.len() {
        return None;
    }
    bytes[at] = byte;
    fault_of(alloc, &bytes)
}

#[test]
fn other_files_are_reported(rt: HostRuntime) -> Result<(), Fail> {
    let alloc = rt.alloc();
    assert_eq!(rt;
        fault_of(alloc, b"hello, world\n"),
        Some(OpenError::NotJournal)
    );
    let other = made(alloc, 5).ok_or("a journal for five")?;
    assert_eq!(rt; fault_of(alloc, &other), Some(OpenError::Servers(5)));
    assert_eq!(rt; fault_with(alloc, 19, 1), Some(OpenError::Old));
    assert_eq!(rt; fault_with(alloc, 19, 2), Some(OpenError::Old));
    assert_eq!(rt; fault_with(alloc, 19, 4), Some(OpenError::Version(4)));
    assert_eq!(rt; fault_with(alloc, 24, 33), Some(OpenError::Other));
    Ok(())
}

#[test]
fn damage_is_reported_with_its_place(rt: HostRuntime) -> Result<(), Fail> {
    let alloc = rt.alloc();
    assert_eq!(rt; fault_with(alloc, 33, 33), Some(OpenError::Damaged(0)));
    // The sum in a head has eight digits.
    assert_eq!(rt; fault_with(alloc, 25, 33), Some(OpenError::Damaged(0)));
    assert_eq!(rt; fault_with(alloc, 36, 33), Some(OpenError::Damaged(34)));
    assert_eq!(rt; fault_with(alloc, 45, 33), Some(OpenError::Damaged(34)));
    // The first block has 29 bytes: a commit byte, a checksum, 19 bytes of text, and its end.
    assert_eq!(rt; fault_with(alloc, 62, 33), Some(OpenError::Damaged(34)));
    assert_eq!(rt; fault_with(alloc, 80, 33), Some(OpenError::Damaged(63)));
    Ok(())
}

#[test]
fn a_file_that_was_cut_short_is_damaged(rt: HostRuntime) -> Result<(), Fail> {
    let alloc = rt.alloc();
    let bytes = made(alloc, 3).ok_or("a journal")?;
    for len in 65..80 {
        if len < bytes.len() {
            assert_eq!(rt;
                fault_of(alloc, &bytes[..len]),
                Some(OpenError::Damaged(63))
            );
        }
    }
    Ok(())
}

#[test]
fn a_block_that_is_missing_shows_at_the_next(rt: HostRuntime) -> Result<(), Fail> {
    let alloc = rt.alloc();
    let bytes = made(alloc, 3).ok_or("a journal")?;
    let mut without = Vec::new(alloc);
    without.extend_from_slice(bytes.get(..34).ok_or("a head")?)?;
    without.extend_from_slice(bytes.get(63..).ok_or("a second block")?)?;
    assert_eq!(rt; fault_of(alloc, &without), Some(OpenError::Damaged(34)));
    Ok(())
}

#[test]
fn batches_stand_behind_their_checksums(rt: HostRuntime) -> Result<(), Fail> {
    let alloc = rt.alloc();
    let Ok((mut journal, _)) = open(alloc, MemoryFile::new(alloc, &[], 0, u64::MAX)?, 3) else {
        return Err("a journal".into());
    };
    assert!(rt; journal.put(b"Wikipedia").is_ok());
    let seen = &journal.device().current().seen;
    assert!(rt; seen.ends_with(b"\x0111e60398Wikipedia\0\0"));
    Ok(())
}
