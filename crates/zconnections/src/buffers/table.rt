//! The streams of all connections, and their total size.

ghost use Rattle.std.specs.Prelude.{◌≡◌, ◌^◌, ◌<◌, [], OnErr, OnOk};
ghost use Rattle.std.specs.FinMap as finite;
ghost use Rattle.zconnections.specs.buffers.Streams.{bytes_of, closed, empty_in, held_of, phase_of};
ghost use Rattle.zconnections.specs.buffers.Streams.{with_bytes, with_phase};

use crate::buffers::phase::Phase;
use crate::buffers::stream::Stream;
use std::alloc::Global;
use std::collections::BTreeMap;
use std::marker::Model;
use std::mem;
use zalloc::Memory;

// A stream under each connection's number.
#[derive(Drop)]
pub(crate) struct StreamTable {
    alloc: Global,
    rows: BTreeMap<u32, Stream>,
    // The number of bytes of all rows, wrapped at 2^64.
    held: usize,
}

impl Model for StreamTable {
    ghost use Rattle.std.specs.FinMap as finite;
    ghost use Rattle.zconnections.specs.buffers.Streams.{StreamRows};
    ghost use Rattle.zconnections.specs.buffers.support.Codes.{coded_rows};
    ghost use Rattle.zconnections.specs.buffers.support.Entries.{IsCounted};

    ghost Value = { StreamRows };

    ghost coded = { coded_rows };

    ghost view = { λ s. finite.from_entries s.rows.entries };

    ghost invariant = { λ s. IsCounted s.rows.entries s.held };
}

impl StreamTable {
    // Returns an empty table. Allocates nothing.
    pub(crate) fn new(alloc: Global) -> StreamTable
        ensures { result ≡ finite.empty }
    {
        StreamTable {
            alloc,
            rows: BTreeMap::new(alloc),
            held: 0,
        }
    }

    // Returns the number of connections with a stream.
    pub(crate) fn len(&self) -> usize
        ensures { result ≡ finite.len self.now }
    {
        self.rows.len()
    }

    // Returns the number of bytes of all streams, unless the count has wrapped.
    pub(crate) fn held(&self) -> usize
        ensures { held_of self.now < 2 ^ 64 → result ≡ held_of self.now }
    {
        self.held
    }

    // Returns the phase of a connection, if it has a stream.
    pub(crate) fn phase(&self, connection: u32) -> Option<Phase>
        ensures { result ≡ phase_of self.now connection }
    {
        let stream = self.rows.get(&connection)?;
        Some(stream.phase)
    }

    // Adds a stream without bytes. Replaces the connection's stream, if it has one. After `Memory`
    // nothing has changed.
    pub(crate) fn insert(&mut self, connection: u32, phase: Phase) -> Result<(), Memory>
        ensures ok { OnOk result (self.new ≡ finite.insert self.old connection (empty_in phase)) }
        ensures err { OnErr result (self.new ≡ self.old) }
    {
        let stream = Stream {
            phase,
            bytes: Vec::new(self.alloc),
        };
        let old = self.rows.insert(connection, stream)?;
        if let Some(old) = old {
            self.held = self.held.wrapping_sub(old.bytes.len());
        }
        Ok(())
    }

    // Sets the phase of a connection, if it has a stream. Allocates nothing.
    pub(crate) fn set_phase(&mut self, connection: u32, phase: Phase)
        ensures { self.new ≡ with_phase self.old connection phase }
    {
        let Some(stream) = self.rows.get_mut(&connection) else {
            return;
        };
        stream.phase = phase;
    }

    // Stops reading on a connection, if it has a stream. Drops its bytes.
    pub(crate) fn close(&mut self, connection: u32)
        ensures { self.new ≡ closed self.old connection }
    {
        self.swap(connection, Vec::new(self.alloc));
        self.set_phase(connection, Phase::Closing);
    }

    // Removes the stream of a connection, if it has one. Allocates nothing.
    pub(crate) fn remove(&mut self, connection: u32)
        ensures { self.new ≡ finite.remove self.old connection }
    {
        if let Some(old) = self.rows.remove(&connection) {
            self.held = self.held.wrapping_sub(old.bytes.len());
        }
    }

    // Replaces the bytes of a connection, if it has a stream, and returns the old ones.
    pub(crate) fn swap(&mut self, connection: u32, bytes: Vec<u8>) -> Vec<u8>
        ensures bytes { result.items ≡ bytes_of self.old connection }
        ensures rest { self.new ≡ with_bytes self.old connection bytes.items }
    {
        let added = bytes.len();
        let Some(stream) = self.rows.get_mut(&connection) else {
            return Vec::new(self.alloc);
        };
        let old = mem::replace(&mut stream.bytes, bytes);
        self.held = self.held.wrapping_sub(old.len()).wrapping_add(added);
        old
    }
}
