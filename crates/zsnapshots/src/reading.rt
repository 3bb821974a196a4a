//! A machine, read row by row.
//!
//! # Why
//! A reader takes the first row of some bytes and returns what follows. If the row is cut, nothing
//! has changed, so a caller reads a file or a stream in chunks of any size. Counts only fall: a
//! header that announces too many rows fails at the first invalid or missing one.

ghost use Rattle.std.specs.Prelude.{◌≡◌, [], ◌∷◌, true, false, IfOk, IfErr, IfSome, IfNone};
ghost use Rattle.std.specs.Prelude.{OnOk, OnErr};
ghost use Rattle.zstore.specs.declared.restore_fault.RestoreFault.TheVariants.{Memory as OfMemory};
ghost use Rattle.zops.specs.Restored.{rooted_machine, CanBegin};
ghost use Rattle.zops.specs.RestoredLaws.{IsSettled};
ghost use Rattle.zsnapshots.specs.States.{NeverRefuses};
ghost use Rattle.zsnapshots.specs.support.Reading.{HasBegun};
ghost use Rattle.zsnapshots.specs.States.StateRow.{OfHeader};
ghost use Rattle.zsnapshots.specs.States.{rows_of, rows_so_far, IsTaken, IsRootTaken};
ghost use Rattle.zsnapshots.specs.States.{wants_session, wants_node, wants_reply, is_done};
ghost use Rattle.zsnapshots.specs.States.{IsRootFault, IsNextFault};
ghost use Rattle.zsnapshots.specs.States.{IsSessionFault, IsNodeFault, IsReplyFault};

use crate::fault::RowFault;
use crate::head::Head;
use crate::header::Header;
use crate::order::{is_client_above, is_path_above, is_root, is_session_above};
use crate::row_reading::{read_node_row, read_reply_row, read_session_row};
use std::alloc::Global;
use std::marker::Model;
use zops::{Machine, RestoreFault, Restoring};
use zpath::Path;
use ztree::{ClientId, Node, SessionId};

/// A machine that is being read, one row at a time.
///
/// `new` takes the row of the root, `take` each further row. The bytes need to hold no more than
/// one row. If it is `Cut`, nothing has changed, and the caller calls again with more bytes.
#[derive(Drop)]
pub struct Reading {
    alloc: Global,
    header: Head,
    restoring: Restoring,
    // How many rows of each kind are still to come.
    sessions: u32,
    nodes: u32,
    replies: u32,
    // The keys of the last rows.
    session: Option<SessionId>,
    path: Path,
    client: Option<ClientId>,
}

impl Model for Reading {
    ghost use Rattle.zsnapshots.specs.States.{ReadingView};
    ghost use Rattle.zsnapshots.specs.support.Reading.{coded_reading, IsReading};

    ghost Value = { ReadingView };

    ghost coded = { coded_reading };

    ghost view = { λ r. record { header = r.header; state = r.restoring } };

    ghost invariant = { λ r. IsReading r.header r.restoring r.sessions r.nodes r.replies r.session
        r.path r.client };
}

impl Reading {
    /// Begins with the root after this header. Its row comes first in the bytes. Returns also what
    /// follows it.
    pub fn new(alloc: Global, header: Header, bytes: &[u8]) -> Result<(Reading, &[u8]), RowFault>
        ensures taken { IfOk result (λ x. IsRootTaken header x.0 bytes.now x.1.now) }
        // The root of a state that can be read is never refused.
        ensures only { NeverRefuses (OfHeader header ∷ [])
            (λ x. (rows_so_far x.0, x.1.now)) result bytes.now }
        ensures fault { IfErr result (IsRootFault header bytes.now) }
    {
        Reading::begun(alloc, header, bytes)
    }

    // The same, by the definitions of a row and of its fault.
    fn begun(alloc: Global, header: Header, bytes: &[u8]) -> Result<(Reading, &[u8]), RowFault>
        ensures taken { IfOk result (λ x. IsRootTaken header x.0 bytes.now x.1.now) }
        ensures fault { IfErr result (IsRootFault header bytes.now) }
    {
        let (path, root, rest) = match read_node_row(alloc, bytes) {
            Ok(read) => read,
            Err(fault) => return Err(RowFault::from(fault)),
        };
        if !is_root(&path) {
            drop(path);
            drop(root);
            return Err(RowFault::Unordered);
        }
        match Reading::rooted(alloc, header, path, root) {
            Ok(reading) => Ok((reading, rest)),
            Err(fault) => Err(RowFault::from(fault)),
        }
    }

    // Begins with this root and its path, after this header.
    fn rooted(
        alloc: Global,
        header: Header,
        path: Path,
        root: Node,
    ) -> Result<Reading, RestoreFault>
        requires { path ≡ [] }
        ensures reading { IfOk result (λ r. r ≡ record {
          header = header;
          state = rooted_machine root header.time header.zxid header.last header.limits;
        }) }
        ensures can { OnOk result
            (CanBegin root header.time header.zxid header.last header.limits) }
        ensures fault { IfErr result (λ fault.
            CanBegin root header.time header.zxid header.last header.limits
            → fault ≡ OfMemory) }
    {
        let (time, zxid, last) = (header.time, header.zxid, header.last.number());
        match Restoring::new(alloc, root, time, zxid, last, header.limits) {
            Ok(restoring) => Ok(Reading::of(alloc, header, path, restoring)),
            Err(fault) => {
                drop(path);
                Err(fault)
            }
        }
    }

    // Begins with the root alone.
    fn of(alloc: Global, header: Header, path: Path, restoring: Restoring) -> Reading
        requires { HasBegun header path restoring }
        ensures { result ≡ record { header = header; state = restoring } }
    {
        let (sessions, nodes, replies) = (header.sessions, header.nodes, header.replies);
        Reading {
            alloc,
            header: Head::of(header),
            restoring,
            sessions,
            nodes,
            replies,
            session: None,
            path,
            client: None,
        }
    }

    /// Takes the next row, which comes first in the bytes: a session while there are some, then a
    /// node, then a cached reply. Returns what follows it. If it is refused, nothing has changed.
    pub fn take<'a>(&mut self, bytes: &'a [u8]) -> Result<&'a [u8], RowFault>
        ensures taken { IfOk result (λ rest. IsTaken self.old self.new bytes.now rest.now) }
        // The next row of a state that can be read is never refused.
        ensures only { NeverRefuses (rows_so_far self.old)
            (λ rest. (rows_so_far self.new, rest.now)) result bytes.now }
        ensures fault { IfErr result (IsNextFault self.old bytes.now) }
        ensures err { OnErr result (self.new ≡ self.old) }
    {
        let alloc = self.alloc;
        self.take_next(alloc, bytes)
    }

    // The same, by the definitions of a row and of its fault.
    fn take_next<'a>(&mut self, alloc: Global, bytes: &'a [u8]) -> Result<&'a [u8], RowFault>
        ensures taken { IfOk result (λ rest. IsTaken self.old self.new bytes.now rest.now) }
        ensures fault { IfErr result (IsNextFault self.old bytes.now) }
        ensures err { OnErr result (self.new ≡ self.old) }
    {
        if self.sessions > 0 {
            self.take_session(bytes)
        } else if self.nodes > 0 {
            self.take_node(alloc, bytes)
        } else if self.replies > 0 {
            self.take_reply(alloc, bytes)
        } else {
            Err(RowFault::Ended)
        }
    }

    // Takes the row of a session.
    fn take_session<'a>(&mut self, bytes: &'a [u8]) -> Result<&'a [u8], RowFault>
        requires { wants_session self.old ≡ true }
        ensures taken { IfOk result (λ rest. IsTaken self.old self.new bytes.now rest.now) }
        ensures fault { IfErr result (IsSessionFault self.old.state bytes.now) }
        ensures err { OnErr result (self.new ≡ self.old) }
    {
        let (id, session, rest) = match read_session_row(bytes) {
            Ok(read) => read,
            Err(fault) => return Err(RowFault::from(fault)),
        };
        if !is_session_above(self.session, id) {
            return Err(RowFault::Unordered);
        }
        if let Err(fault) = self.restoring.put_session(id, session) {
            return Err(RowFault::from(fault));
        }
        self.session = Some(id);
        self.sessions -= 1;
        Ok(rest)
    }

    // Takes the row of a node.
    fn take_node<'a>(&mut self, alloc: Global, bytes: &'a [u8]) -> Result<&'a [u8], RowFault>
        requires sessions { wants_session self.old ≡ false }
        requires wanted { wants_node self.old ≡ true }
        ensures taken { IfOk result (λ rest. IsTaken self.old self.new bytes.now rest.now) }
        ensures fault { IfErr result (IsNodeFault self.old.state bytes.now) }
        ensures err { OnErr result (self.new ≡ self.old) }
    {
        let (path, node, rest) = match read_node_row(alloc, bytes) {
            Ok(read) => read,
            Err(fault) => return Err(RowFault::from(fault)),
        };
        if !is_path_above(&self.path, &path) {
            drop(path);
            drop(node);
            return Err(RowFault::Unordered);
        }
        let Ok(copy) = path.clone() else {
            drop(path);
            drop(node);
            return Err(RowFault::Memory);
        };
        if let Err(fault) = self.restoring.put_node(path, node) {
            drop(copy);
            return Err(RowFault::from(fault));
        }
        self.path = copy;
        self.nodes -= 1;
        Ok(rest)
    }

    // Takes the row of a cached reply.
    fn take_reply<'a>(&mut self, alloc: Global, bytes: &'a [u8]) -> Result<&'a [u8], RowFault>
        requires sessions { wants_session self.old ≡ false }
        requires nodes { wants_node self.old ≡ false }
        requires wanted { wants_reply self.old ≡ true }
        ensures taken { IfOk result (λ rest. IsTaken self.old self.new bytes.now rest.now) }
        ensures fault { IfErr result (IsReplyFault self.old.state bytes.now) }
        ensures err { OnErr result (self.new ≡ self.old) }
    {
        let (client, number, reply, rest) = match read_reply_row(alloc, bytes) {
            Ok(read) => read,
            Err(fault) => return Err(RowFault::from(fault)),
        };
        if !is_client_above(self.client, client) {
            drop(reply);
            return Err(RowFault::Unordered);
        }
        if let Err(fault) = self.restoring.put_reply(client, number, reply) {
            return Err(RowFault::from(fault));
        }
        self.client = Some(client);
        self.replies -= 1;
        Ok(rest)
    }

    /// Returns whether all rows that the header announces were taken.
    pub fn is_done(&self) -> bool
        ensures { result ≡ is_done self.now }
    {
        self.sessions == 0 && self.nodes == 0 && self.replies == 0
    }

    /// Returns the machine, once all rows were taken: these are its rows.
    pub fn finish(self) -> Option<Machine>
        ensures machine { IfSome result (λ m. rows_of m.state ≡ rows_so_far self) }
        ensures settled { IfSome result (λ m. IsSettled m.state.service.plain) }
        ensures whole { IfSome result (λ m. m.is_broken ≡ false) }
        ensures none { IfNone result (is_done self ≡ false) }
    {
        if self.is_done() {
            Some(self.restoring.finish())
        } else {
            drop(self);
            None
        }
    }
}
