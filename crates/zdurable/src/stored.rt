//! A file that no service has open, and its tree: so its journal is compacted. Or all parts of a file
//! but the last one, to which a service may append.

ghost use Rattle.std.specs.Prelude.{◌≡◌, List, ℕ, IfErr, IfOk, OnOk};
ghost use Rattle.zjournal.specs.Device.{LeavesOnly, Only};
ghost use Rattle.zjournal.specs.Journal.{Represents};
ghost use Rattle.zjournal.specs.Scan.{joined};
ghost use Rattle.zdurable.specs.Faults.{IsOfReading, IsSuchFile};
ghost use Rattle.zdurable.specs.Compaction.{IsOldOrReplaces, MayReplace};
ghost use Rattle.zdurable.specs.DurableFront.{KeepsTree};
ghost use Rattle.zdurable.specs.Stored.{bytes_of, file_of, tree_of, IsGood, IsStored};
ghost use Rattle.zsnapshots.specs.folder.Texts.{snapshot_text};

use crate::beginning::compact_beginning;
use crate::compaction::compact;
use crate::fault::{DurableFault, OpenFault};
use crate::looking::look;
use std::alloc::Global;
use zjournal::{Device, Journal};
use zprotocol::ServerId;
use zsnapshots::folder::Found;
use ztree_service::LocalTree;

/// A journal, and its tree, without a front end.
#[derive(Drop)]
pub struct Stored<D: Device> {
    alloc: Global,
    tree: LocalTree,
    journal: Journal<D>,
}

impl<D: Device> Stored<D> {
    /// Opens a file that a crash may have left. If reading fails, the file is unchanged. A crash
    /// while opening leaves a file with the same tree. An `Err` returns the device.
    pub fn open(alloc: Global, device: D, servers: ServerId) -> Result<Stored<D>, (OpenFault, D)>
        // After a restart, a read returns what is durable.
        requires durable { Only (D.seen device) (D.may_leave device) }
        ensures stored { IfOk result (λ stored. (batches : List (List ℕ))
            × Represents servers batches (D.seen device)
            × IsStored D.seen D.may_leave servers batches stored) }
        ensures good { IfOk result (IsGood D.seen D.may_leave) }
        ensures any_moment { (batches : List (List ℕ)) → Represents servers batches (D.seen device)
            → IfOk result (λ stored. LeavesOnly D.moment D.left_since device (file_of stored)
            (Represents servers batches)) }
        ensures any_moment_err { (batches : List (List ℕ))
            → Represents servers batches (D.seen device)
            → IfErr result (λ e. LeavesOnly D.moment D.left_since device e.1
            (Represents servers batches)) }
        ensures untouched { IfErr result (λ e. IsOfReading e.0
            → (D.seen e.1 ≡ D.seen device)
            × LeavesOnly D.moment D.left_since device e.1 (λ c. c ≡ D.seen device)) }
        ensures fault { IfErr result (λ e. IsSuchFile servers (D.seen device) e.0) }
    {
        let mut device = device;
        let found = match look(alloc, &mut device, servers) {
            Ok(it) => it.found,
            Err(fault) => return Err((fault, device)),
        };
        let Found { tree, .. } = found;
        match zjournal::open(alloc, device, servers.number()) {
            Ok((journal, _)) => Ok(Stored {
                alloc,
                tree,
                journal,
            }),
            Err((e, device)) => {
                drop(tree);
                Err((OpenFault::Journal(e), device))
            }
        }
    }

    /// The device that holds the file.
    pub fn device(&self) -> &D
        ensures { result.now ≡ file_of self.now }
    {
        self.journal.device()
    }

    /// The bytes of the journal.
    pub fn size(&self) -> usize
        ensures { result ≡ bytes_of self.now }
    {
        self.journal.size()
    }

    /// Replaces the file, which may have many changes, with one that holds the tree alone. At each
    /// moment a crash leaves a file with the same tree. A disk that fails is a fault here, also
    /// before the new file is written. After a fault it is to be opened again.
    pub fn compact(&mut self) -> Result<(), DurableFault>
        requires { IsGood D.seen D.may_leave self.old }
        ensures kept { (servers : ℕ) (batches : List (List ℕ))
            → IsStored D.seen D.may_leave servers batches self.old
            → OnOk result ((next : List (List ℕ))
            × IsStored D.seen D.may_leave servers next self.new
            × (joined next ≡ snapshot_text (tree_of self.old))) }
        ensures good { OnOk result (IsGood D.seen D.may_leave self.new) }
        ensures same { tree_of self.new ≡ tree_of self.old }
        ensures any_moment { (servers : ℕ) (batches : List (List ℕ))
            → IsStored D.seen D.may_leave servers batches self.old
            → LeavesOnly D.moment D.left_since (file_of self.old) (file_of self.new)
            (KeepsTree servers (tree_of self.old)) }
    {
        compact(self.alloc, &mut self.journal, &self.tree)?;
        Ok(())
    }

    /// Replaces the file, which is all parts of a journal but the last one, with one that holds the
    /// tree alone. At each moment a crash leaves the old file, or one that can take its place: the
    /// last part continues from it as from the old one. After a fault it is to be opened again.
    pub fn compact_beginning(&mut self) -> Result<(), DurableFault>
        requires { IsGood D.seen D.may_leave self.old }
        ensures kept { (servers : ℕ) (batches : List (List ℕ))
            → IsStored D.seen D.may_leave servers batches self.old
            → OnOk result ((next : List (List ℕ))
            × IsStored D.seen D.may_leave servers next self.new
            × (joined next ≡ snapshot_text (tree_of self.old))
            × MayReplace servers (tree_of self.old) (D.seen (file_of self.old))
            (D.seen (file_of self.new))) }
        ensures good { OnOk result (IsGood D.seen D.may_leave self.new) }
        ensures same { tree_of self.new ≡ tree_of self.old }
        ensures any_moment { (servers : ℕ) (batches : List (List ℕ))
            → IsStored D.seen D.may_leave servers batches self.old
            → LeavesOnly D.moment D.left_since (file_of self.old) (file_of self.new)
            (IsOldOrReplaces servers (tree_of self.old) (D.seen (file_of self.old))) }
    {
        compact_beginning(self.alloc, &mut self.journal, &self.tree)?;
        Ok(())
    }
}
