//! A machine's rows, and the machine that is read from them.

ghost use Rattle.std.specs.Prelude.{◌≡◌, false, IfOk};

use crate::trouble::Trouble;
use std::alloc::Global;
use zops::Machine;
use zsnapshots::{Loading, Writing};

// More rows than any state has.
const MANY: usize = 10_000;

/// Returns the rows of a machine.
pub(crate) fn rows(alloc: Global, machine: &Machine) -> Result<Vec<Vec<u8>>, Trouble>
    requires { machine.now.is_broken ≡ false }
{
    all_rows(alloc, Writing::new(alloc, machine)?)
}

/// Returns the rows of its tree alone.
pub(crate) fn tree_rows(alloc: Global, machine: &Machine) -> Result<Vec<Vec<u8>>, Trouble>
    requires { machine.now.is_broken ≡ false }
{
    all_rows(alloc, Writing::of_tree(alloc, machine)?)
}

fn all_rows(alloc: Global, mut writing: Writing) -> Result<Vec<Vec<u8>>, Trouble> {
    let mut rows = Vec::new(alloc);
    for _ in 0..MANY {
        let mut row = Vec::new(alloc);
        if !writing.write_next(&mut row)? {
            return Ok(rows);
        }
        rows.push(row)?;
    }
    Ok(rows)
}

/// Reads the machine of these rows, which is written to the same rows again.
pub(crate) fn read_again(alloc: Global, written: &[Vec<u8>]) -> Result<Machine, Trouble>
    ensures { IfOk result (λ m. m.is_broken ≡ false) }
{
    let machine = load(alloc, written)?;
    if rows(alloc, &machine)?.as_slice() != written {
        return Err(Trouble::Rows);
    }
    Ok(machine)
}

fn load(alloc: Global, rows: &[Vec<u8>]) -> Result<Machine, Trouble>
    ensures { IfOk result (λ m. m.is_broken ≡ false) }
{
    let mut loading = Loading::new(alloc);
    for row in rows {
        loading.take(row)?;
    }
    match loading.finish() {
        Some(machine) => Ok(machine),
        None => Err(Trouble::Refused),
    }
}
