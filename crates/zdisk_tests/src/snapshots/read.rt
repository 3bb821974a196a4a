//! Machines, read from the front of a text.

ghost use Rattle.std.specs.Prelude.{◌≡◌, false, IfOk};

use crate::snapshots::machines::MANY;
use std::alloc::Global;
use std::process::Abort;
use zops::Machine;
use zsnapshots::{Reading, RowFault, read_header_row};
use zwire::FrameFault;

/// Reads the machine at the front of the text, with what follows it.
pub(crate) fn read<'a>(
    rt: &impl Abort,
    alloc: Global,
    text: &'a [u8],
) -> Result<(Machine, &'a [u8]), RowFault>
    ensures { IfOk result (λ x. x.0.is_broken ≡ false) }
{
    let (mut reading, rest) = begun(alloc, text)?;
    let rest = read_rest(&mut reading, rest)?;
    Ok((reading.finish().expect(rt, "all rows were taken"), rest))
}

// Reads the header and the root.
fn begun(alloc: Global, text: &[u8]) -> Result<(Reading, &[u8]), RowFault> {
    match read_header_row(text) {
        Ok((header, rest)) => Reading::new(alloc, header, rest),
        Err(FrameFault::Cut) => Err(RowFault::Cut),
        Err(FrameFault::TooLong) => Err(RowFault::TooLong),
        Err(FrameFault::Contents(fault)) => Err(RowFault::Contents(fault)),
        Err(FrameFault::Memory) => Err(RowFault::Memory),
    }
}

// Reads the other rows.
fn read_rest<'a>(reading: &mut Reading, text: &'a [u8]) -> Result<&'a [u8], RowFault> {
    let mut rest = text;
    for _ in 0..MANY {
        if reading.is_done() {
            break;
        }
        rest = match reading.take(rest) {
            Ok(rest) => rest,
            Err(fault) => return Err(fault),
        };
    }
    Ok(rest)
}
