//! Connections, and their unread bytes.

ghost use Rattle.std.specs.Prelude.{◌≡◌, ◌<◌, ◌^◌, [], OnOk};
ghost use Rattle.std.specs.FinMap as finite;
ghost use Rattle.zconnections.specs.buffers.Streams.{bytes_of, held_of, opened, phase_of, with_bytes};
ghost use Rattle.zconnections.specs.Tables.{is_open, session_in};

use crate::buffers::Phase;
use crate::tables::Tables;
use zalloc::Memory;
use ztree::SessionId;

impl Tables {
    /// Opens a connection.
    pub fn open(&mut self, connection: u32) -> Result<(), Memory>
        ensures { OnOk result (self.new ≡ record self.old {
          streams = finite.insert self.old.streams connection opened;
        }) }
    {
        self.streams.open(connection)
    }

    /// Returns the phase of a connection, if it exists.
    pub fn phase(&self, connection: u32) -> Option<Phase>
        ensures { result ≡ phase_of self.now.streams connection }
    {
        self.streams.phase(connection)
    }

    /// Returns the session of a connection, if it has one.
    pub fn session(&self, connection: u32) -> Option<SessionId>
        ensures { result ≡ session_in (phase_of self.now.streams connection) }
    {
        match self.phase(connection)? {
            Phase::Speaking(session) => Some(session),
            Phase::Silent | Phase::Closing => None,
        }
    }

    /// Returns whether something may still be sent on a connection.
    pub fn is_open(&self, connection: u32) -> bool
        ensures { result ≡ is_open self.now connection }
    {
        match self.phase(connection) {
            Some(Phase::Silent | Phase::Speaking(_)) => true,
            Some(Phase::Closing) | None => false,
        }
    }

    /// Takes the unread bytes of a connection.
    pub fn take_bytes(&mut self, connection: u32) -> Vec<u8>
        ensures bytes { result.items ≡ bytes_of self.old.streams connection }
        ensures rest { self.new
            ≡ record self.old { streams = with_bytes self.old.streams connection [] } }
    {
        self.streams.take(connection)
    }

    /// Replaces the unread bytes of a connection.
    pub fn keep_bytes(&mut self, connection: u32, bytes: Vec<u8>)
        ensures { self.new
            ≡ record self.old { streams = with_bytes self.old.streams connection bytes.items } }
    {
        self.streams.keep(connection, bytes);
    }

    /// Returns the number of unread bytes of all connections. No machine has 2^64 of them.
    pub fn kept(&self) -> usize
        ensures { held_of self.now.streams < 2 ^ 64 → result ≡ held_of self.now.streams }
    {
        self.streams.held()
    }
}
