//! Chunks to be sent.

ghost use Rattle.std.specs.Prelude.{◌≡◌, drop, OnOk};
ghost use Rattle.std.specs.Option.{option_copied};
ghost use Rattle.zconnections.specs.buffers.Outbox.{first_of};
ghost use Rattle.zconnections.specs.Tables.{sent};

use crate::buffers::Chunk;
use crate::tables::Tables;
use zalloc::Memory;

impl Tables {
    /// Queues bytes for a connection. Nothing is queued if it is closing.
    pub fn send(&mut self, connection: u32, bytes: Vec<u8>) -> Result<(), Memory>
        ensures { OnOk result (self.new ≡ sent connection bytes.items self.old) }
    {
        if !self.is_open(connection) {
            return Ok(());
        }
        self.outbox.push(Chunk {
            connection,
            bytes,
            is_last: false,
        })
    }

    /// Returns the chunk to be sent first, if there is one.
    pub fn first_chunk(&self) -> Option<&Chunk>
        ensures { option_copied result ≡ first_of self.now.unsent }
    {
        self.outbox.first()
    }

    /// Removes and returns the chunk to be sent first, if there is one.
    pub fn next_chunk(&mut self) -> Option<Chunk>
        ensures first { result ≡ first_of self.old.unsent }
        ensures rest { self.new ≡ record self.old { unsent = drop 1 self.old.unsent } }
    {
        self.outbox.next()
    }
}
