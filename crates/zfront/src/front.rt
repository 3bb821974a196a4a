//! The front end.
//!
//! # Why
//!
//! All inputs go through `take`, and one relation, `Does`, defines their effects. So the clauses on
//! the effect, and on running out of memory, are written once.

ghost use Rattle.std.specs.Prelude.{◌≡◌, true, false, IfOk, IsErr, OnErr, OnOk};
ghost use Rattle.std.specs.Option.{option_copied};
ghost use Rattle.zconnections.specs.buffers.Inputs.{input_of};
ghost use Rattle.zconnections.specs.buffers.Outbox.{first_of};
ghost use Rattle.zfront.specs.Inputs.{Does, IsSound, without_first};
ghost use Rattle.zfront.specs.Restoring.{all_taken, beginning};

use crate::inner::Inner;
use std::alloc::Global;
use std::marker::Model;
use zalloc::Memory;
use zcalls::Update;
use zconnections::buffers::{Chunk, Input};
use zpasswords::Secret;
use zresponses::Clock;
use ztree_service::TreeService;
use zwatches::WatchLimits;

/// A front end for ZooKeeper's clients, over a service of one tree.
///
/// After it has run out of memory, every input returns `Memory`. Chunks can still be taken.
#[derive(Drop)]
pub struct Front<T: TreeService> {
    inner: Inner<T>,
    is_broken: bool,
}

impl<T: TreeService> Model for Front<T> {
    ghost use Rattle.zfront.specs.Inputs.{ServerView};
    ghost use Rattle.zfront.specs.support.Codes.{coded_server};

    ghost Value = { ServerView };

    ghost coded = { coded_server };

    ghost view = { λ f. record { front = f.inner; is_broken = f.is_broken } };
}

impl<T: TreeService + Drop> Front<T> {
    /// Returns a front that begins with the service's tree, and with these limits of watches. It
    /// derives the passwords of sessions from the secret. If `is_kept`, it records its updates, and
    /// `take_made` returns them.
    pub fn new(
        alloc: Global,
        service: T,
        secret: Secret,
        clock: Clock,
        limits: WatchLimits,
        is_kept: bool,
    ) -> Result<Front<T>, Memory>
        ensures { IfOk result (λ f. f ≡ record {
          front = beginning limits (T.tree service) secret clock is_kept;
          is_broken = false;
        }) }
    {
        Ok(Front {
            inner: Inner::new(alloc, service, secret, clock, limits, is_kept)?,
            is_broken: false,
        })
    }

    /// Handles an input. After `Memory` every later input fails.
    pub fn take(&mut self, input: Input<'_>) -> Result<(), Memory>
        ensures does { OnOk result
            (Does (input_of input.entry) self.old.front self.new.front) }
        ensures sound { OnOk result (IsSound self.old self.new) }
        ensures broken { OnErr result (self.new.is_broken ≡ true) }
        ensures stays { self.old.is_broken ≡ true → IsErr result }
    {
        if self.is_broken {
            return Err(Memory);
        }
        let done = self.inner.take(input);
        self.is_broken = done.is_err();
        done
    }

    /// Returns the chunk to be sent first, if there is one.
    pub fn first_chunk(&self) -> Option<&Chunk>
        ensures { option_copied result ≡ first_of self.now.front.tables.unsent }
    {
        self.inner.tables.first_chunk()
    }

    /// Removes and returns the chunk to be sent first, if there is one.
    pub fn next_chunk(&mut self) -> Option<Chunk>
        ensures first { result ≡ first_of self.old.front.tables.unsent }
        ensures rest { self.new ≡ record self.old { front = without_first self.old.front } }
    {
        self.inner.tables.next_chunk()
    }

    /// Returns the recorded updates, in order.
    pub fn made(&self) -> &[Update]
        ensures { result.now ≡ self.now.front.made }
    {
        &self.inner.made
    }

    /// Removes and returns the recorded updates, in order.
    pub fn take_made(&mut self) -> Vec<Update>
        ensures all { result.items ≡ self.old.front.made }
        ensures taken { self.new ≡ record self.old { front = all_taken self.old.front } }
    {
        self.inner.take_made()
    }

    /// Returns the service.
    pub fn service(&self) -> &T
        ensures { T.tree result.now ≡ self.now.front.tree }
    {
        &self.inner.service
    }
}
