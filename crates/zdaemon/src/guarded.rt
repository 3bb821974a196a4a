//! A service behind a guard, as a service of its host.
//!
//! # Why
//!
//! It is over any service, so neither the front end nor its journal knows of logins. A refusal is
//! sent with the close of its connection, after all that the service queued for it.

ghost use Rattle.std.specs.Prelude.{◌≡◌};
ghost use Rattle.zguard.specs.Guarding.{guard_of};
ghost use Rattle.zdaemon.specs.Guarded.{HasReportedGuarded, KeepsGuarded, ReportsGuarded, TakesGuarded};

use crate::pipe::{Chunk, Input, ServeFault, Service};
use std::alloc::Global;
use zguard::{Guard, Logins, Passed};

/// A service behind a guard: only who gives a login makes calls.
#[derive(Drop)]
pub struct Guarded<V: Service> {
    guard: Guard,
    service: V,
}

impl<V: Service> Guarded<V> {
    /// Puts a guard with these logins before a service.
    pub fn new(alloc: Global, service: V, logins: Logins) -> Guarded<V>
        ensures guard { result.guard ≡ guard_of logins }
        ensures service { result.service ≡ service }
    {
        Guarded {
            guard: Guard::new(alloc, logins),
            service,
        }
    }
}

impl<V: Service> Service for Guarded<V> {
    ghost took = { TakesGuarded V.took };

    ghost kept = { KeepsGuarded V.kept };

    ghost reported = { ReportsGuarded V.reported };

    ghost has_reported = { HasReportedGuarded V.has_reported };

    ghost chunks_left = { λ s. V.chunks_left s.service };

    ghost is_sound = { λ s. V.is_sound s.service };

    fn take(&mut self, input: Input<'_>) -> Result<(), ServeFault> {
        match input {
            Input::Opened(connection) => {
                self.guard.open(connection)?;
                self.service.take(input)
            }
            Input::Came(connection, bytes) => match self.guard.hear(connection, bytes)? {
                Passed::All => self.service.take(input),
                Passed::These(passed) => self.service.take(Input::Came(connection, &passed)),
            },
            Input::Ended(connection) => {
                self.guard.end(connection);
                self.service.take(input)
            }
            Input::Tick => self.service.take(input),
        }
    }

    fn keep(&mut self) -> Result<(), ServeFault> {
        self.service.keep()
    }

    fn next_chunk(&mut self) -> Option<Chunk> {
        let mut chunk = self.service.next_chunk()?;
        if chunk.is_last && self.guard.refuses(chunk.connection) {
            chunk.bytes = self.guard.answer(chunk.connection);
        }
        Some(chunk)
    }
}
