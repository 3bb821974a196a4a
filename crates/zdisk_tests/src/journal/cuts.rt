//! The power is cut at every moment of sixty runs, and the file is opened each time.

use crate::journal::incarnations::{opened, put_all};
use std::alloc::Global;
use std::test::Fail;
use zjournal::{MemoryFile, open};

// Whether at each moment the acknowledged batches are in the file, and at most the one in flight.
fn keeps_what_was_reported(alloc: Global, file: &MemoryFile, chance: u64) -> bool {
    let mut reported = 0;
    for moment in file.past() {
        let Some(torn) = opened(alloc, &moment.disk, chance) else {
            return false;
        };
        let Some(whole) = opened(alloc, &moment.seen, chance) else {
            return false;
        };
        if torn < reported || whole < torn || whole - torn > 1 {
            return false;
        }
        reported = torn;
    }
    opened(alloc, &file.current().disk, chance) == Some(5)
}

fn is_kept(alloc: Global, chance: u64) -> bool {
    let Ok(file) = MemoryFile::new(alloc, &[], chance, u64::MAX) else {
        return false;
    };
    let Ok((mut journal, _)) = open(alloc, file, 3) else {
        return false;
    };
    put_all(&mut journal, 5) == 5 && keeps_what_was_reported(alloc, journal.device(), chance)
}

#[test]
fn what_power_cuts_leave_is_opened(rt: HostRuntime) -> Result<(), Fail> {
    for chance in 0..60u64 {
        assert!(rt; is_kept(rt.alloc(), chance));
    }
    Ok(())
}
