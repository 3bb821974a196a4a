//! A machine, written row by row.
//!
//! # Why
//! A writer borrows its machine, so the machine can't change between two rows.

ghost use Rattle.std.specs.Prelude.{◌≡◌, ◌≤◌, true, false, length, IfOk, OnErr};
ghost use Rattle.zsnapshots.specs.States.{rows_of, IsWritten, tree_alone};
ghost use Rattle.zops.specs.declared.limits.TheConstants.{MAX_APPLIED};
ghost use Rattle.zops.specs.RestoredLaws.{IsSettled};

use crate::row_keys::RowKeys;
use std::alloc::{AllocError, Global};
use std::marker::Model;
use zalloc::Memory;
use zops::Machine;

/// A machine that is being written, one row at a time.
#[derive(Drop)]
pub struct Writing<'a> {
    alloc: Global,
    machine: &'a Machine,
    keys: RowKeys,
    // How many rows were written.
    written: usize,
}

impl<'a> Model for Writing<'a> {
    ghost use Rattle.zsnapshots.specs.States.{WritingView, written_of};
    ghost use Rattle.zsnapshots.specs.support.Writing.{coded_writing, IsWriting};

    ghost Value = { WritingView };

    ghost coded = { coded_writing };

    ghost view = { λ w. record {
      state = written_of w.keys.is_alone w.machine.now.state;
      written = w.written;
    } };

    ghost invariant = { λ w. IsWriting w.machine.now w.keys };
}

impl<'a> Writing<'a> {
    /// Begins with no row written.
    pub fn new(alloc: Global, machine: &'a Machine) -> Result<Writing<'a>, Memory>
        requires whole { machine.now.is_broken ≡ false }
        ensures state { IfOk result (λ w. w.state ≡ machine.now.state) }
        ensures none { IfOk result (λ w. w.written ≡ 0) }
        ensures settled { IfOk result (λ w. IsSettled w.state.service.plain) }
        ensures few { IfOk result (λ w. w.state.applied ≤ MAX_APPLIED) }
    {
        let keys = RowKeys::new(machine)?;
        Ok(Writing {
            alloc,
            machine,
            keys,
            written: 0,
        })
    }

    /// Begins to write the tree alone, as that of a machine with no cached reply that applied no
    /// entry.
    pub fn of_tree(alloc: Global, machine: &'a Machine) -> Result<Writing<'a>, Memory>
        requires whole { machine.now.is_broken ≡ false }
        ensures state { IfOk result (λ w. w.state ≡ tree_alone machine.now.state) }
        ensures none { IfOk result (λ w. w.written ≡ 0) }
        ensures settled { IfOk result (λ w. IsSettled w.state.service.plain) }
    {
        let keys = RowKeys::of_tree(alloc, machine)?;
        Ok(Writing {
            alloc,
            machine,
            keys,
            written: 0,
        })
    }

    /// Appends the next row, and returns true; or returns false if all rows were written. On an
    /// error nothing has changed.
    pub fn write_next(&mut self, out: &mut Vec<u8>) -> Result<bool, AllocError>
        ensures row { IfOk result (λ more. more ≡ true
            → IsWritten self.old self.new out.old.items out.new.items) }
        ensures end { IfOk result (λ more. more ≡ false
            → length (rows_of self.old.state) ≤ self.old.written) }
        ensures ended { IfOk result (λ more. more ≡ false → self.new ≡ self.old) }
        ensures nothing { IfOk result (λ more. more ≡ false → out.new.items ≡ out.old.items) }
        ensures err { OnErr result (self.new ≡ self.old) }
        ensures out { OnErr result (out.new.items ≡ out.old.items) }
    {
        let more = self
            .keys
            .write_row(self.alloc, self.machine, self.written, out)?;
        if more {
            self.written += 1;
        }
        Ok(more)
    }
}
