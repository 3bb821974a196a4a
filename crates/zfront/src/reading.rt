//! Bytes that arrive on connections.
//!
//! # Why
//!
//! The contract of `keep` speaks of fewer than 2^64 stored bytes: the count has 64 bits, and the
//! table alone can't know that it is small. The law `every_front_keeps_few` proves it for each
//! front.

ghost use Rattle.std.specs.Prelude.{◌≡◌, None, Some, IfOk, OnOk, IfSome, is_some};
ghost use Rattle.zconnections.specs.Tables.{is_open};
ghost use Rattle.zconnections.specs.buffers.Streams.{phase_of};
ghost use Rattle.zjute.specs.Frames.{next_of};
ghost use Rattle.zfront.specs.Reading.{Comes, ComesBehind, ComesBy, HandlesIn};
ghost use Rattle.zfront.specs.Reading.{is_too_long, Keeps, Reads};

use crate::inner::Inner;
use crate::limits::MAX_KEPT;
use zalloc::Memory;
use zconnections::buffers::Phase;
use zjute::{Next, next_frame};
use ztree_service::TreeService;

impl<T: TreeService> Inner<T> {
    // Reads bytes that arrived on a connection. They are dropped unless it is open.
    pub(crate) fn came(&mut self, connection: u32, bytes: &[u8]) -> Result<(), Memory>
        ensures { OnOk result (Comes bytes.now connection self.old self.new) }
    {
        if !self.tables.is_open(connection) {
            return Ok(());
        }
        let mut came = self.tables.take_bytes(connection);
        came.extend_from_slice(bytes)?;
        self.read(connection, came)
    }

    // Reads all unread bytes of a connection.
    fn read(&mut self, connection: u32, came: Vec<u8>) -> Result<(), Memory>
        ensures { OnOk result (ComesBehind came.items connection self.old self.new) }
    {
        match self.word_asked(connection, &came) {
            Some(word) => self.say(word, connection),
            None => self.read_all(connection, came),
        }
    }

    // Handles the leading frames, and stores the rest. If no frame is whole yet, nothing is copied.
    // So a long frame costs the same in many small chunks as in one.
    fn read_all(&mut self, connection: u32, came: Vec<u8>) -> Result<(), Memory>
        ensures { OnOk result (ComesBy None came.items connection self.old self.new) }
    {
        let rest = self.read_frames(connection, &came)?;
        if rest.len() == came.len() {
            return self.keep(connection, came);
        }
        let rest = Vec::from_slice(self.alloc, rest)?;
        self.keep(connection, rest)
    }

    // Handles the leading frames while the connection is open, and returns the rest.
    fn read_frames<'a>(&mut self, connection: u32, came: &'a [u8]) -> Result<&'a [u8], Memory>
        ensures { IfOk result (λ rest. Reads came.now connection self.old rest.now self.new) }
    {
        let mut rest = came;
        while let Some(phase) = self.open_phase(connection) {
            match next_frame(rest) {
                Next::Whole(frame, more) => {
                    self.handle(phase, connection, frame)?;
                    rest = more;
                }
                Next::Partial | Next::TooLong => break,
            }
        }
        Ok(rest)
    }

    // Returns the phase of a connection that is open.
    fn open_phase(&self, connection: u32) -> Option<Phase>
        ensures phase { IfSome result
            (λ phase. phase_of self.now.tables.streams connection ≡ Some phase) }
        ensures open { is_some result ≡ is_open self.now.tables connection }
    {
        match self.tables.phase(connection)? {
            Phase::Closing => None,
            phase => Some(phase),
        }
    }

    // Handles a frame on a connection in this phase.
    fn handle(&mut self, phase: Phase, connection: u32, frame: &[u8]) -> Result<(), Memory>
        ensures { OnOk result
            (HandlesIn (Some phase) frame.now connection self.old self.new) }
    {
        match phase {
            Phase::Silent => self.greet(frame, connection),
            Phase::Speaking(session) => self.serve(frame, session, connection),
            Phase::Closing => Ok(()),
        }
    }

    // Stores the rest, if the connection is still open. Closes the connection if the rest can't
    // begin a frame, or if too much would be stored.
    fn keep(&mut self, connection: u32, rest: Vec<u8>) -> Result<(), Memory>
        ensures { OnOk result (Keeps rest.items connection self.old self.new) }
    {
        if !self.tables.is_open(connection) {
            return Ok(());
        }
        if is_too_long(&rest) || self.tables.kept().saturating_add(rest.len()) > MAX_KEPT {
            return self.tables.close(connection);
        }
        self.tables.keep_bytes(connection, rest);
        Ok(())
    }
}

// Returns whether the bytes begin with a length that no frame has.
fn is_too_long(rest: &[u8]) -> bool
    ensures { result ≡ is_too_long (next_of rest.now) }
{
    match next_frame(rest) {
        Next::TooLong => true,
        Next::Whole(_, _) | Next::Partial => false,
    }
}
