//! A server in memory, as a service of its host. Nothing of it is durable.

ghost use Rattle.std.specs.Prelude.{◌≡◌, false, length};
ghost use Rattle.zdaemon.specs.Memory.{HasReportedInMemory, KeepsInMemory, ReportsInMemory};
ghost use Rattle.zdaemon.specs.Memory.{TakesInMemory};

use crate::pipe::{Chunk, Input, ServeFault, Service};
use zfront::Front;
use ztree_service::TreeService;

impl<T: TreeService + Drop> Service for Front<T> {
    ghost took = { TakesInMemory };

    ghost kept = { KeepsInMemory };

    ghost reported = { ReportsInMemory };

    ghost has_reported = { HasReportedInMemory };

    ghost chunks_left = { λ s. length s.front.tables.unsent };

    ghost is_sound = { λ s. s.is_broken ≡ false };

    fn take(&mut self, input: Input<'_>) -> Result<(), ServeFault> {
        Front::take(self, input)?;
        Ok(())
    }

    fn keep(&mut self) -> Result<(), ServeFault> {
        Ok(())
    }

    fn next_chunk(&mut self) -> Option<Chunk> {
        Front::next_chunk(self)
    }
}
