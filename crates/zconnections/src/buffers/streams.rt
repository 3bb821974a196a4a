//! The streams of all connections.

ghost use Rattle.std.specs.Prelude.{◌≡◌, ◌^◌, ◌<◌, [], OnErr, OnOk};
ghost use Rattle.std.specs.FinMap as finite;
ghost use Rattle.zconnections.specs.buffers.Streams.{bytes_of, closed, held_of, opened, phase_of};
ghost use Rattle.zconnections.specs.buffers.Streams.{with_bytes, with_phase};

use crate::buffers::phase::Phase;
use crate::buffers::table::StreamTable;
use std::alloc::Global;
use std::marker::Model;
use zalloc::Memory;

/// The streams of all connections, each under its connection's number.
#[derive(Drop)]
pub struct Streams {
    alloc: Global,
    table: StreamTable,
}

impl Model for Streams {
    ghost use Rattle.zconnections.specs.buffers.Streams.{StreamRows};
    ghost use Rattle.zconnections.specs.buffers.support.Codes.{coded_rows};

    ghost Value = { StreamRows };

    ghost coded = { coded_rows };

    ghost view = { λ s. s.table };
}

impl Streams {
    /// Returns an empty table. Allocates nothing.
    pub fn new(alloc: Global) -> Streams
        ensures { result ≡ finite.empty }
    {
        Streams {
            alloc,
            table: StreamTable::new(alloc),
        }
    }

    /// Returns the number of connections with a stream.
    pub fn count(&self) -> usize
        ensures { result ≡ finite.len self.now }
    {
        self.table.len()
    }

    /// Returns the number of bytes of all streams. No machine has 2^64 of them.
    pub fn held(&self) -> usize
        ensures { held_of self.now < 2 ^ 64 → result ≡ held_of self.now }
    {
        self.table.held()
    }

    /// Returns the phase of a connection, if it has a stream.
    pub fn phase(&self, connection: u32) -> Option<Phase>
        ensures { result ≡ phase_of self.now connection }
    {
        self.table.phase(connection)
    }

    /// Adds the stream of a connection on which nothing was read yet. Replaces its stream, if it
    /// has one. After `Memory` nothing has changed.
    pub fn open(&mut self, connection: u32) -> Result<(), Memory>
        ensures ok { OnOk result (self.new ≡ finite.insert self.old connection opened) }
        ensures err { OnErr result (self.new ≡ self.old) }
    {
        self.table.insert(connection, Phase::Silent)
    }

    /// Sets the phase of a connection, if it has a stream. Allocates nothing.
    pub fn set_phase(&mut self, connection: u32, phase: Phase)
        ensures { self.new ≡ with_phase self.old connection phase }
    {
        self.table.set_phase(connection, phase);
    }

    /// Stops reading on a connection, if it has a stream. Drops its bytes, and allocates nothing.
    pub fn close(&mut self, connection: u32)
        ensures { self.new ≡ closed self.old connection }
    {
        self.table.close(connection);
    }

    /// Takes the bytes of a connection; none if it has no stream. Allocates nothing.
    pub fn take(&mut self, connection: u32) -> Vec<u8>
        ensures bytes { result.items ≡ bytes_of self.old connection }
        ensures rest { self.new ≡ with_bytes self.old connection [] }
    {
        self.table.swap(connection, Vec::new(self.alloc))
    }

    /// Replaces the bytes of a connection, if it has a stream. Allocates nothing.
    pub fn keep(&mut self, connection: u32, bytes: Vec<u8>)
        ensures { self.new ≡ with_bytes self.old connection bytes.items }
    {
        self.table.swap(connection, bytes);
    }

    /// Removes the stream of a connection, if it has one. Allocates nothing.
    pub fn end(&mut self, connection: u32)
        ensures { self.new ≡ finite.remove self.old connection }
    {
        self.table.remove(connection);
    }
}
