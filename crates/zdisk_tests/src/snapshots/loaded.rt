//! Machines, loaded from rows with bytes of their own.

ghost use Rattle.std.specs.Prelude.{◌≡◌, false, IfOk};

use crate::snapshots::machines::{SESSIONS, machine, rows};
use std::alloc::Global;
use std::process::Abort;
use zcodec::Fault;
use zops::Machine;
use zsnapshots::{Loading, RowFault};

/// Loads the machine of these rows, or returns the fault of the first row that is refused. For
/// missing rows the fault is `Cut`.
pub(crate) fn load(alloc: Global, rows: &[Vec<u8>]) -> Result<Machine, RowFault>
    ensures { IfOk result (λ m. m.is_broken ≡ false) }
{
    let mut loading = Loading::new(alloc);
    take_all(&mut loading, rows)?;
    loading.finish().ok_or(RowFault::Cut)
}

// Takes rows until one is refused.
fn take_all(loading: &mut Loading, rows: &[Vec<u8>]) -> Result<(), RowFault> {
    for row in rows {
        if let Err(fault) = loading.take(row) {
            return Err(fault);
        }
    }
    Ok(())
}

// The fault of the row at this index, once some of its bytes are gone and others follow.
fn fault_at(
    rt: &impl Abort,
    alloc: Global,
    place: usize,
    cut: usize,
    more: &[u8],
) -> Option<RowFault> {
    let machine = machine(rt, alloc, SESSIONS);
    let mut rows = rows(rt, alloc, &machine);
    assert!(rt; place < rows.len());
    let row = &mut rows[place];
    row.truncate(cut);
    row.extend_from_slice(more).expect(rt, "there is memory");
    load(alloc, &rows).err()
}

#[test]
fn rows_stand_alone(rt: HostRuntime) {
    let alloc = rt.alloc();
    for place in [0, 1, 2, 5] {
        let fault_of = |cut, more: &[u8]| fault_at(&rt, alloc, place, cut, more);
        assert_eq!(rt; fault_of(1000, b""), None);
        assert_eq!(rt; fault_of(1000, b"x"), Some(RowFault::Trailing));
        assert_eq!(rt; fault_of(3, b""), Some(RowFault::Cut));
        assert_eq!(rt; fault_of(0, b""), Some(RowFault::Cut));
        assert_eq!(rt;
            fault_of(0, b"\0\0\0\0"),
            Some(RowFault::Contents(Fault::Short))
        );
        assert_eq!(rt; fault_of(0, b"\xff\0\0\0"), Some(RowFault::TooLong));
    }
}

#[test]
fn rows_have_an_order(rt: HostRuntime) {
    let alloc = rt.alloc();
    let machine = machine(&rt, alloc, SESSIONS);
    let mut rows = rows(&rt, alloc, &machine);
    assert!(rt; rows.len() > 7);
    // The second session before the first.
    rows.swap(2, 3);
    assert_eq!(rt; load(alloc, &rows).err(), Some(RowFault::Unordered));
    rows.swap(2, 3);
    // A child before its parent.
    rows.swap(5, 6);
    assert_eq!(rt; load(alloc, &rows).err(), Some(RowFault::Unlawful));
    rows.swap(5, 6);
    // No header.
    assert!(rt; load(alloc, &rows[1..]).is_err());
    assert!(rt; load(alloc, &rows).is_ok());
}

#[test]
fn rows_are_missed(rt: HostRuntime) {
    let alloc = rt.alloc();
    let machine = machine(&rt, alloc, SESSIONS);
    let rows = rows(&rt, alloc, &machine);
    for len in 0..rows.len() {
        assert_eq!(rt;
            load(alloc, &rows[..len]).err(),
            Some(RowFault::Cut),
            "{len} rows"
        );
    }
}
