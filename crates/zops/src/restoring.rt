//! Restoring a machine from rows: the root, then the sessions, then the other nodes, each after its
//! parent, and the cached replies.
//!
//! # Why
//! Rows are put one by one, so a whole state is never in one buffer. Sessions are put before
//! nodes, since a node's owner is looked up. Any order with parents first is accepted; a format
//! with one encoding for each state orders ids and paths in its reader.
//!
//! A node of a later change or tick than its tree is refused here, where the tree's zxid and tick
//! are known. So each format of rows has the same test.
//!
//! Only replies to updates are cached, so replies to queries are refused. The longest row of a
//! state is then known: a multi has at most 1,024 parts.

ghost use Rattle.std.specs.Prelude.{◌≡◌, ◌*◌, ◌<◌, IsTrue, IsFalse, IfOk, IfErr, OnOk, OnErr, false};
ghost use Rattle.ztree.specs.declared.limits.TheConstants.{ZXID_BOUND};
ghost use Rattle.ztree.specs.Lawful.{IsLawful, HasPaths};
ghost use Rattle.zcalls.specs.declared.limits.TheConstants.{MAX_RAISES};
ghost use Rattle.zcalls.specs.Bounds.{IsWithin, IsBounded};
ghost use Rattle.zstore.specs.declared.restore_fault.RestoreFault.TheVariants.{Memory as OfMemory};
ghost use Rattle.zstore.specs.Restored.{with_row, with_session_row};
ghost use Rattle.zops.specs.Restored.{rooted_machine, with_plain, with_reply, IsDated, IsOfUpdate, CanBegin, CanPutNode, CanPutGranted};

use crate::kept::CachedReplies;
use crate::limits::MAX_APPLIED;
use crate::machine::Machine;
use std::alloc::Global;
use std::marker::Model;
use zcalls::limits::{MAX_COUNTER, MAX_RAISES, MOST_PARTS};
use zcalls::{CallNumber, Reply};
use zpath::Path;
use zstore::{ClientId, Node, RestoreFault, Session, SessionId, Store, Zxid};
use ztree::TreeLimits;
use ztree::limits::{MIN_TIMEOUT, TICK_BOUND, ZXID_BOUND};

/// A machine that is being restored from rows: the rows so far.
#[derive(Drop)]
pub struct Restoring {
    alloc: Global,
    store: Store,
    kept: CachedReplies,
    applied: u64,
}

impl Model for Restoring {
    ghost use Rattle.zops.specs.Machine.{MachineState};
    ghost use Rattle.zops.specs.support.Codes.{coded_machine_state};
    ghost use Rattle.zops.specs.support.Ready.{IsRestoring};

    ghost Value = { MachineState };

    ghost coded = { coded_machine_state };

    ghost view = { λ r. record {
      service = record { plain = r.store.tree; kept = r.kept };
      applied = r.applied;
    } };

    ghost invariant = { λ r. IsRestoring r.store r.applied };
}

impl Restoring {
    /// Begins with the root alone, at this tick, after this change and that many entries, within
    /// these limits.
    pub fn new(
        alloc: Global,
        root: Node,
        time: u64,
        zxid: Zxid,
        applied: u64,
        limits: TreeLimits,
    ) -> Result<Restoring, RestoreFault>
        ensures state { IfOk result (λ r. r ≡ rooted_machine root time zxid applied limits) }
        ensures can { OnOk result (CanBegin root time zxid applied limits) }
        ensures fault { IfErr result (λ fault.
            CanBegin root time zxid applied limits → fault ≡ OfMemory) }
    {
        if !can_begin(&root, time, zxid, applied, limits) {
            drop(root);
            return Err(RestoreFault::Unlawful);
        }
        let kept = match CachedReplies::new(alloc) {
            Ok(kept) => kept,
            Err(_) => {
                drop(root);
                return Err(RestoreFault::Memory);
            }
        };
        match Store::restored(alloc, root, time, zxid, limits) {
            Ok(store) => Ok(Restoring {
                alloc,
                store,
                kept,
                applied,
            }),
            Err(fault) => {
                drop(kept);
                Err(fault)
            }
        }
    }

    /// Puts one more session, as it is. If it is refused, nothing has changed.
    pub fn put_session(&mut self, id: SessionId, session: Session) -> Result<(), RestoreFault>
        ensures state { OnOk result (self.new
            ≡ with_plain self.old (with_session_row self.old.service.plain id session)) }
        ensures can { OnOk result (CanPutGranted self.old.service.plain id session) }
        ensures fault { IfErr result (λ fault.
            CanPutGranted self.old.service.plain id session → fault ≡ OfMemory) }
        ensures err { OnErr result (self.new ≡ self.old) }
    {
        if id.number() > self.store.zxid().number() {
            return Err(RestoreFault::Unlawful);
        }
        if session.timeout < MIN_TIMEOUT {
            return Err(RestoreFault::Unlawful);
        }
        if session.timeout > self.store.limits().timeout {
            return Err(RestoreFault::Unlawful);
        }
        self.store.put_session(id, session)
    }

    /// Puts one more node, unchanged, beneath an existing parent. If it is refused, nothing has
    /// changed.
    pub fn put_node(&mut self, path: Path, node: Node) -> Result<(), RestoreFault>
        ensures state { OnOk result (self.new
            ≡ with_plain self.old (with_row self.old.service.plain path node)) }
        ensures can { OnOk result (CanPutNode self.old.service.plain path node) }
        ensures fault { IfErr result (λ fault.
            CanPutNode self.old.service.plain path node → fault ≡ OfMemory) }
        ensures err { OnErr result (self.new ≡ self.old) }
    {
        if !is_of_its_tree(self.store.zxid(), self.store.now(), &node) {
            drop(path);
            drop(node);
            return Err(RestoreFault::Unlawful);
        }
        self.store.put_node(path, node)
    }

    /// Caches a reply to the client, with the number of its call. Replaces one that was put before.
    /// Refuses the reply to a query. If it is refused, nothing has changed.
    pub fn put_reply(
        &mut self,
        client: ClientId,
        number: CallNumber,
        reply: Reply,
    ) -> Result<(), RestoreFault>
        ensures state { OnOk result (self.new ≡ with_reply self.old client number reply) }
        ensures can { OnOk result (IsOfUpdate reply) }
        ensures fault { IfErr result (λ fault. IsOfUpdate reply → fault ≡ OfMemory) }
        ensures err { OnErr result (self.new ≡ self.old) }
    {
        if !is_of_update(&reply) {
            drop(reply);
            return Err(RestoreFault::Unlawful);
        }
        self.kept.keep(client, number, reply);
        Ok(())
    }

    /// Returns the machine, once all rows are put.
    pub fn finish(self) -> Machine
        ensures state { result ≡ record { state = self; is_broken = false } }
        ensures lawful { IsLawful self.service.plain }
        ensures paths { HasPaths self.service.plain.nodes }
        ensures bounded { IsBounded self.service.plain }
    {
        self.store.keeps_lawful();
        self.store.keeps_paths();
        Machine {
            alloc: self.alloc,
            store: self.store,
            kept: self.kept,
            applied: self.applied,
            is_broken: false,
        }
    }
}

// Returns whether it is the reply to an update.
fn is_of_update(reply: &Reply) -> bool
    ensures yes { IsTrue result → IsOfUpdate reply.now }
    ensures no { IsFalse result → IsOfUpdate reply.now → ⊥ }
{
    match reply {
        Reply::Multi(replies) => replies.as_slice().len() <= MOST_PARTS,
        Reply::Data(_, _) | Reply::Exists(_) | Reply::Children(_) => false,
        _ => true,
    }
}

// Returns whether a machine can begin with these.
fn can_begin(root: &Node, time: u64, zxid: Zxid, applied: u64, limits: TreeLimits) -> bool
    ensures yes { IsTrue result → CanBegin root.now time zxid applied limits }
    ensures no { IsFalse result → CanBegin root.now time zxid applied limits → ⊥ }
{
    if !limits.is_allowed() {
        return false;
    }
    if root.owner != 0 {
        return false;
    }
    if !root.term.is_unlimited() {
        return false;
    }
    if zxid.number() >= ZXID_BOUND || time >= TICK_BOUND || applied > MAX_APPLIED {
        return false;
    }
    is_of_its_tree(zxid, time, root)
}

// Returns whether the node's numbers are bounded, and not above those of its tree.
fn is_of_its_tree(zxid: Zxid, time: u64, node: &Node) -> bool
    requires { zxid < ZXID_BOUND }
    ensures within { IsTrue result → IsWithin (MAX_RAISES * zxid) node.now }
    ensures dated { IsTrue result → IsDated zxid time node.now }
    ensures no { IsFalse result
        → IsWithin (MAX_RAISES * zxid) node.now → IsDated zxid time node.now → ⊥ }
{
    if !is_within(zxid, node) {
        return false;
    }
    is_dated(zxid, time, node)
}

// Returns whether the node's numbers are bounded, in a tree after this change.
fn is_within(zxid: Zxid, node: &Node) -> bool
    requires { zxid < ZXID_BOUND }
    ensures yes { IsTrue result → IsWithin (MAX_RAISES * zxid) node.now }
    ensures no { IsFalse result → IsWithin (MAX_RAISES * zxid) node.now → ⊥ }
{
    let raises = MAX_RAISES * zxid.number();
    if node.version > raises || node.cversion > raises || node.aversion > raises {
        return false;
    }
    node.seq <= MAX_COUNTER + 1
}

// Returns whether no zxid and no tick of the node is above these.
fn is_dated(zxid: Zxid, time: u64, node: &Node) -> bool
    ensures yes { IsTrue result → IsDated zxid time node.now }
    ensures no { IsFalse result → IsDated zxid time node.now → ⊥ }
{
    let last = zxid.number();
    if node.czxid.number() > last || node.mzxid.number() > last || node.pzxid.number() > last {
        return false;
    }
    if node.ctime > time {
        return false;
    }
    node.mtime <= time
}
