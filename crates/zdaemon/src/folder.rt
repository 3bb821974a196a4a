//! A server with a folder, as a service of its host.

ghost use Rattle.std.specs.Prelude.{◌≡◌, Err, Ok, OnOk};
ghost use Rattle.zdaemon.specs.Folder.{HasReportedIn, IsGood, Keeps, KeepsIn, ReportsIn, TakesIn};
ghost use Rattle.zdaemon.specs.Folder.{chunks_left};

use crate::pipe::{Chunk, Input, ServeFault, Service};
use zdurable::{DurableFault, DurableFront};
use zjournal::Device;

/// A server with a folder, as a service of its host.
#[derive(Drop)]
pub struct InFolder<D: Device> {
    kept: DurableFront<D>,
    // Once its journal has grown by this many bytes, a new part is begun.
    long: usize,
}

impl<D: Device> InFolder<D> {
    /// Wraps a front end. A new part of its journal is begun once it has grown by `long` bytes, and
    /// by what `DurableFront::is_long` says.
    pub fn new(kept: DurableFront<D>, long: usize) -> InFolder<D>
        ensures kept { result.kept ≡ kept }
        ensures long { result.long ≡ long }
    {
        InFolder { kept, long }
    }
}

impl<D: Device> Service for InFolder<D> {
    ghost took = { TakesIn D.seen D.may_leave };

    ghost kept = { KeepsIn D.seen D.may_leave };

    ghost reported = { ReportsIn };

    ghost has_reported = { HasReportedIn };

    ghost chunks_left = { λ s. chunks_left s.kept };

    ghost is_sound = { λ s. IsGood D.seen D.may_leave s.kept };

    fn take(&mut self, input: Input<'_>) -> Result<(), ServeFault> {
        match self.kept.take(input) {
            Ok(()) => Ok(()),
            Err(fault) => Err(unkept(fault)),
        }
    }

    fn keep(&mut self) -> Result<(), ServeFault> {
        match keep(&mut self.kept, self.long) {
            Ok(()) => Ok(()),
            Err(fault) => Err(unkept(fault)),
        }
    }

    fn next_chunk(&mut self) -> Option<Chunk> {
        self.kept.next_chunk()
    }
}

// Commits the changes. If the journal has grown long, a new part of it is begun.
fn keep<D: Device>(kept: &mut DurableFront<D>, long: usize) -> Result<(), DurableFault>
    requires { IsGood D.seen D.may_leave kept.old }
    ensures keeps { OnOk result (Keeps D.seen D.may_leave long kept.old kept.new) }
    ensures good { OnOk result (IsGood D.seen D.may_leave kept.new) }
{
    kept.commit()?;
    if !kept.is_long(long)? {
        return Ok(());
    }
    kept.split()?; // if none is begun, the last one grows on
    Ok(())
}

/// Why a service has ended, in the words of a host.
pub(crate) fn unkept(fault: DurableFault) -> ServeFault {
    match fault {
        DurableFault::Memory => ServeFault::Memory,
        DurableFault::Failed => ServeFault::Disk,
        DurableFault::Full => ServeFault::Full,
        DurableFault::Ended => ServeFault::Ended,
    }
}
