//! A service that takes inputs, commits their changes, and returns chunks.
//!
//! # Why
//! The loop is over a trait, not over the front end itself. So its proof needs no front end and no
//! journal, and its contract says briefly what is sent when.

ghost use Rattle.std.specs.Prelude.{◌≡◌, ◌<◌, ℕ, IfNone, IfSome, OnOk};
ghost use Rattle.zconnections.specs.buffers.Inputs.{InputView, input_of};
ghost use Rattle.zconnections.specs.buffers.Outbox.{ChunkView};

use crate::pipe::fault::ServeFault;
use zconnections::buffers::{Chunk, Input};

/// A service that makes its changes durable. Once it failed nothing is promised of it.
pub trait Service {
    /// Between two states it took this input.
    ghost took: { Self → InputView → Self → Type 0 };

    /// Between two states it committed all changes of its inputs.
    ghost kept: { Self → Self → Type 0 };

    /// Between two states it returned this chunk.
    ghost reported: { Self → ChunkView → Self → Type 0 };

    /// No chunk is left.
    ghost has_reported: { Self → Type 0 };

    /// How many chunks are left.
    ghost chunks_left: { Self → ℕ };

    /// It has not failed.
    ghost is_sound: { Self → Type 0 };

    /// Takes an input.
    fn take(&mut self, input: Input<'_>) -> Result<(), ServeFault>
        requires { is_sound self.old }
        ensures took { OnOk result (took self.old (input_of input.entry) self.new) }
        ensures sound { OnOk result (is_sound self.new) };

    /// Commits all changes of the inputs.
    fn keep(&mut self) -> Result<(), ServeFault>
        requires { is_sound self.old }
        ensures kept { OnOk result (kept self.old self.new) }
        ensures sound { OnOk result (is_sound self.new) };

    /// Takes the next chunk to be sent, if there is one.
    fn next_chunk(&mut self) -> Option<Chunk>
        requires { is_sound self.old }
        ensures reported { IfSome result (λ chunk. reported self.old chunk self.new) }
        ensures fewer { IfSome result (λ _. chunks_left self.new < chunks_left self.old) }
        ensures none { IfNone result (has_reported self.old × (self.new ≡ self.old)) }
        ensures sound { is_sound self.new };
}
