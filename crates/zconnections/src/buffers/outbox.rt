//! The queue of chunks to be sent.

ghost use Rattle.std.specs.Prelude.{◌≡◌, ◌==◌, [], ◌∷◌, ◌++◌, drop, length, nat_eq, OnErr, OnOk};
ghost use Rattle.std.specs.Option.{option_copied};
ghost use Rattle.zconnections.specs.buffers.Outbox.{first_of, without};

use crate::buffers::chunk::Chunk;
use std::alloc::Global;
use std::collections::VecDeque;
use std::marker::Model;
use zalloc::Memory;

/// The chunks to be sent, in the order in which they were added.
#[derive(Drop)]
pub struct Outbox {
    chunks: VecDeque<Chunk>,
}

impl Model for Outbox {
    ghost use Rattle.std.specs.Prelude.{List};
    ghost use Rattle.zconnections.specs.buffers.Outbox.{ChunkView};
    ghost use Rattle.zconnections.specs.buffers.support.Codes.{coded_chunks};

    ghost Value = { List ChunkView };

    ghost coded = { coded_chunks };

    ghost view = { λ o. o.chunks.items };
}

impl Outbox {
    /// Returns an empty outbox. Allocates nothing.
    pub fn new(alloc: Global) -> Outbox
        ensures { result ≡ [] }
    {
        Outbox {
            chunks: VecDeque::new(alloc),
        }
    }

    /// Returns whether nothing is to be sent.
    pub fn is_empty(&self) -> bool
        ensures { result ≡ (length self.now == 0) }
    {
        self.chunks.is_empty()
    }

    /// Returns the chunk to be sent first.
    pub fn first(&self) -> Option<&Chunk>
        ensures { option_copied result ≡ first_of self.now }
    {
        self.chunks.front()
    }

    /// Adds a chunk at the end. After `Memory` nothing has changed.
    pub fn push(&mut self, chunk: Chunk) -> Result<(), Memory>
        ensures ok { OnOk result (self.new ≡ self.old ++ chunk ∷ []) }
        ensures err { OnErr result (self.new ≡ self.old) }
    {
        self.chunks.push_back(chunk)?;
        Ok(())
    }

    /// Removes and returns the chunk to be sent first. Allocates nothing.
    pub fn next(&mut self) -> Option<Chunk>
        ensures first { result ≡ first_of self.old }
        ensures rest { self.new ≡ drop 1 self.old }
    {
        self.chunks.pop_front()
    }

    /// Drops the chunks of a connection. Allocates nothing.
    pub fn forget(&mut self, connection: u32)
        ensures { self.new ≡ without self.old connection }
    {
        keep_others(&mut self.chunks, connection);
    }
}

// Retains the chunks of other connections.
fn keep_others(chunks: &mut VecDeque<Chunk>, connection: u32)
    ensures { chunks.new.items ≡ without chunks.old.items connection }
{
    chunks.retain(|chunk| !is_for(chunk, connection));
}

// Returns whether the chunk is for this connection.
fn is_for(chunk: &Chunk, connection: u32) -> bool
    ensures { result ≡ nat_eq chunk.now.connection connection }
{
    chunk.connection == connection
}
