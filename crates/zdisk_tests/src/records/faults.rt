//! Texts that aren't logs.

use std::alloc::Global;
use std::test::Fail;
use zwire::records::{RecordFault, next_record, read_records};

// The fault of a text.
fn fault_of(alloc: Global, text: &[u8]) -> Option<RecordFault> {
    read_records(alloc, text).err()
}

#[test]
fn bad_lines_are_reported(rt: HostRuntime) -> Result<(), Fail> {
    let alloc = rt.alloc();
    assert_eq!(rt; fault_of(alloc, b""), None);
    assert_eq!(rt; fault_of(alloc, b"AQc=\n"), None);
    assert_eq!(rt; fault_of(alloc, b"\n"), Some(RecordFault::Line(1)));
    assert_eq!(rt; fault_of(alloc, b"AQc="), Some(RecordFault::Line(1)));
    assert_eq!(rt; fault_of(alloc, b"AQc=\n\n"), Some(RecordFault::Line(2)));
    assert_eq!(rt; fault_of(alloc, b"AQc=\nAQc\n"), Some(RecordFault::Line(2)));
    assert_eq!(rt;
        fault_of(alloc, b"AQc=\nAQg=\nAQc=\n"),
        Some(RecordFault::Line(2))
    );
    assert_eq!(rt; fault_of(alloc, b"AQcA\n"), Some(RecordFault::Line(1)));
    Ok(())
}

#[test]
fn no_record_stands_in_front(rt: HostRuntime) -> Result<(), Fail> {
    let alloc = rt.alloc();
    assert!(rt; next_record(alloc, b"")?.is_none());
    assert!(rt; next_record(alloc, b"\xff\n")?.is_none());
    assert!(rt; next_record(alloc, b"AgA=\n")?.is_none());
    Ok(())
}
