//! The keys of a machine's rows, and the rows of a machine by their numbers.
//!
//! # Why
//! Keys borrow nothing, so a queue can own a machine and its keys, and write the rows one at a
//! time. They are found once: to find the row with a number would take a walk over all of them.

ghost use Rattle.std.specs.Prelude.{◌≡◌, ◌<◌, ◌≤◌, ◌++◌, true, false, length, map, IfOk};
ghost use Rattle.std.specs.Prelude.{OnOk, OnErr};
ghost use Rattle.ztree.specs.declared.limits.TheConstants.{MAX_CLIENTS};
ghost use Rattle.zsnapshots.specs.States.{rows_of, head_of, sessions_of, nodes_of, replies_of};
ghost use Rattle.zsnapshots.specs.States.{spelled, Fits, tree_alone, written_of};
ghost use Rattle.zsnapshots.specs.States.{AreKeysOf, IsItem, IsRow};
ghost use Rattle.zsnapshots.specs.States.StateRow.{OfHeader, OfSession, OfNode, OfReply};

use crate::header::Header;
use crate::row_writing::{write_header_row, write_node_row, write_reply_row, write_session_row};
use std::alloc::{AllocError, Global};
use std::marker::Model;
use zalloc::Memory;
use zops::Machine;
use zpath::Path;
use zprotocol::LogNumber;
use ztree::{ClientId, SessionId};

/// The keys of the rows of a machine, in the order of the rows.
#[derive(Drop)]
pub struct RowKeys {
    sessions: Vec<SessionId>,
    paths: Vec<Path>,
    clients: Vec<ClientId>,
    // Whether the rows are those of the tree alone.
    is_alone: bool,
}

impl Model for RowKeys {
    ghost use Rattle.zsnapshots.specs.States.{KeysView};
    ghost use Rattle.zsnapshots.specs.support.Writing.{coded_keys};

    ghost Value = { KeysView };

    ghost coded = { coded_keys };

    ghost view = { λ k. record {
      is_alone = k.is_alone;
      sessions = k.sessions.items;
      paths = k.paths.items;
      clients = k.clients.items;
    } };
}

impl RowKeys {
    /// Returns the keys of the rows of this machine.
    pub fn new(machine: &Machine) -> Result<RowKeys, Memory>
        requires whole { machine.now.is_broken ≡ false }
        ensures keys { IfOk result (λ keys. AreKeysOf keys machine.now.state) }
        ensures all { IfOk result (λ keys. keys.is_alone ≡ false) }
    {
        let clients = machine.clients()?;
        RowKeys::with_clients(machine, clients, false)
    }

    /// Returns the keys of the rows of the tree alone.
    pub(crate) fn of_tree(alloc: Global, machine: &Machine) -> Result<RowKeys, Memory>
        requires whole { machine.now.is_broken ≡ false }
        ensures keys { IfOk result (λ keys. AreKeysOf keys (tree_alone machine.now.state)) }
        ensures alone { IfOk result (λ keys. keys.is_alone ≡ true) }
    {
        RowKeys::with_clients(machine, Vec::new(alloc), true)
    }

    // Adds the keys of the sessions and of the nodes to these clients.
    fn with_clients(
        machine: &Machine,
        clients: Vec<ClientId>,
        is_alone: bool,
    ) -> Result<RowKeys, Memory>
        requires whole { machine.now.is_broken ≡ false }
        requires clients { clients.items
            ≡ map (λ e. e.0) (replies_of (written_of is_alone machine.now.state)) }
        requires few { length clients.items ≤ MAX_CLIENTS }
        ensures keys { IfOk result (λ keys.
            AreKeysOf keys (written_of is_alone machine.now.state)) }
        ensures alone { IfOk result (λ keys. keys.is_alone ≡ is_alone) }
    {
        let _ = machine.applied();
        let sessions = machine.session_ids()?;
        let paths = machine.paths()?;
        Ok(RowKeys {
            sessions,
            paths,
            clients,
            is_alone,
        })
    }

    /// Appends the row with this number, counted from 0, and returns true; or returns false if
    /// there are no more. The machine is the one whose keys these are. On an error nothing has
    /// changed.
    pub fn write_row(
        &self,
        alloc: Global,
        machine: &Machine,
        number: usize,
        out: &mut Vec<u8>,
    ) -> Result<bool, AllocError>
        requires whole { machine.now.is_broken ≡ false }
        requires keys { AreKeysOf self.now (written_of self.now.is_alone machine.now.state) }
        ensures row { IfOk result (λ more. more ≡ true
            → IsRow (written_of self.now.is_alone machine.now.state) number
            out.old.items out.new.items) }
        ensures end { IfOk result (λ more. more ≡ false
            → length (rows_of (written_of self.now.is_alone machine.now.state)) ≤ number) }
        ensures nothing { IfOk result (λ more. more ≡ false → out.new.items ≡ out.old.items) }
        ensures out { OnErr result (out.new.items ≡ out.old.items) }
    {
        let sessions = self.sessions.len();
        let below = self.paths.len() - 1;
        let replies = self.clients.len();
        if number == 0 {
            self.write_header(alloc, machine, out)?;
            return Ok(true);
        }
        if number == 1 {
            self.write_node(alloc, machine, 0, out)?;
            return Ok(true);
        }
        let behind = number - 2;
        if behind < sessions {
            self.write_session(alloc, machine, behind, out)?;
            return Ok(true);
        }
        let behind = behind - sessions;
        if behind < below {
            self.write_node(alloc, machine, behind + 1, out)?;
            return Ok(true);
        }
        let behind = behind - below;
        if behind < replies {
            self.write_reply(alloc, machine, behind, out)?;
            return Ok(true);
        }
        Ok(false)
    }

    // Appends the header.
    fn write_header(
        &self,
        alloc: Global,
        machine: &Machine,
        out: &mut Vec<u8>,
    ) -> Result<(), AllocError>
        requires whole { machine.now.is_broken ≡ false }
        requires keys { AreKeysOf self.now (written_of self.now.is_alone machine.now.state) }
        ensures ok { OnOk result (out.new.items ≡ out.old.items
            ++ spelled (OfHeader (head_of (written_of self.now.is_alone machine.now.state)))) }
        ensures fits { OnOk result
            (Fits (OfHeader (head_of (written_of self.now.is_alone machine.now.state)))) }
        ensures err { OnErr result (out.new.items ≡ out.old.items) }
    {
        let header = Header {
            last: last_of(machine, self.is_alone),
            time: machine.time(),
            zxid: machine.zxid(),
            limits: machine.limits(),
            sessions: self.sessions.len() as u32,
            nodes: (self.paths.len() - 1) as u32,
            replies: self.clients.len() as u32,
        };
        write_header_row(alloc, out, header)
    }

    // Appends the session with this index among all.
    fn write_session(
        &self,
        alloc: Global,
        machine: &Machine,
        place: usize,
        out: &mut Vec<u8>,
    ) -> Result<(), AllocError>
        requires whole { machine.now.is_broken ≡ false }
        requires keys { AreKeysOf self.now (written_of self.now.is_alone machine.now.state) }
        requires within { place < length (sessions_of machine.now.state) }
        ensures ok { OnOk result
            (IsItem OfSession (sessions_of machine.now.state) place out.old.items out.new.items) }
        ensures err { OnErr result (out.new.items ≡ out.old.items) }
    {
        let id = self.sessions[place];
        match machine.session(id) {
            Some(session) => write_session_row(alloc, out, id, session),
            None => unreachable!(),
        }
    }

    // Appends the node with this index among all.
    fn write_node(
        &self,
        alloc: Global,
        machine: &Machine,
        place: usize,
        out: &mut Vec<u8>,
    ) -> Result<(), AllocError>
        requires whole { machine.now.is_broken ≡ false }
        requires keys { AreKeysOf self.now (written_of self.now.is_alone machine.now.state) }
        requires within { place < length (nodes_of machine.now.state) }
        ensures ok { OnOk result
            (IsItem OfNode (nodes_of machine.now.state) place out.old.items out.new.items) }
        ensures err { OnErr result (out.new.items ≡ out.old.items) }
    {
        let path = &self.paths[place];
        match machine.node(path) {
            Some(node) => write_node_row(alloc, out, path, node),
            None => unreachable!(),
        }
    }

    // Appends the cached reply with this index among all.
    fn write_reply(
        &self,
        alloc: Global,
        machine: &Machine,
        place: usize,
        out: &mut Vec<u8>,
    ) -> Result<(), AllocError>
        requires whole { machine.now.is_broken ≡ false }
        requires keys { AreKeysOf self.now (written_of self.now.is_alone machine.now.state) }
        requires within { place
            < length (replies_of (written_of self.now.is_alone machine.now.state)) }
        ensures ok { OnOk result
            (IsItem OfReply (replies_of (written_of self.now.is_alone machine.now.state)) place
            out.old.items out.new.items) }
        ensures err { OnErr result (out.new.items ≡ out.old.items) }
    {
        let client = self.clients[place];
        match machine.kept(client) {
            Some(kept) => write_reply_row(alloc, out, client, kept.0, kept.1),
            None => unreachable!(),
        }
    }
}

// Returns the number of the last entry that is written: none where the tree is written alone.
fn last_of(machine: &Machine, is_alone: bool) -> LogNumber
    ensures { result ≡ (written_of is_alone machine.now.state).applied }
{
    let applied = if is_alone { 0 } else { machine.applied() };
    match LogNumber::new(applied) {
        Some(last) => last,
        None => unreachable!(),
    }
}
