//! The limits of a tree that was read, and the journal of its file.
//!
//! # Why
//! The tree is limited before the journal is opened: so where it doesn't fit, the file is
//! unchanged. A tree with other limits is written at once: its snapshot is where a file has limits,
//! and what is appended to it acts within them.

ghost use Rattle.std.specs.Prelude.{◌≡◌, ◌≢◌, ◌<◌, true, false, List, ℕ, IfErr, IfOk};
ghost use Rattle.zstore.specs.Restored.{with_limits};
ghost use Rattle.zjournal.specs.Device.{LeavesOnly, Only};
ghost use Rattle.zjournal.specs.Journal.{IsAtRest, Represents, device_of};
ghost use Rattle.zjournal.specs.Journal as file;
ghost use Rattle.zdurable.specs.Compaction.{IsOldOrTree, RestsAfter};
ghost use Rattle.zdurable.specs.Faults.{disk_failed, IsOfReading};
ghost use Rattle.zdurable.specs.support.Opening.{AreNext, IsFoundOr, IsOfLimits, IsOfRenewal};
ghost use Rattle.zdurable.specs.support.Opening.{IsSuchOpening, SaysOther, measure_if};

use crate::compaction::compact;
use crate::fault::{DurableFault, OpenFault};
use std::alloc::Global;
use zjournal::{Device, Journal};
use zprotocol::ServerId;
use ztree_service::{LocalTree, TreeLimits};

/// Sets the limits of a tree that was read. Returns the tree, and whether it had others.
pub(crate) fn limited(tree: LocalTree, limits: TreeLimits) -> Result<(LocalTree, bool), OpenFault>
    requires whole { tree.is_broken ≡ false }
    ensures tree { IfOk result (λ x.
        x.0 ≡ record { tree = with_limits tree.tree limits; is_broken = false }) }
    ensures says { IfOk result (λ x. SaysOther x.1 tree.tree limits) }
    ensures fault { IfErr result (IsOfLimits tree.tree limits) }
{
    let mut tree = tree;
    if is_same(tree.limits()?, limits) {
        return Ok((tree, false));
    }
    tree.set_limits(limits)?;
    Ok((tree, true))
}

// Returns whether these are the same limits.
fn is_same(one: TreeLimits, other: TreeLimits) -> bool
    ensures yes { result ≡ true → one ≡ other }
    ensures no { result ≡ false → one ≢ other }
{
    one.nodes == other.nodes && one.sessions == other.sessions && one.timeout == other.timeout
}

/// Opens the journal of a file. If the tree has other limits than the file's, a file with its text
/// alone replaces that one. An `Err` returns the device.
pub(crate) fn open_within<D: Device>(
    alloc: Global,
    device: D,
    servers: ServerId,
    tree: &LocalTree,
    is_other: bool,
) -> Result<Journal<D>, (OpenFault, D)>
    requires durable { Only (D.seen device) (D.may_leave device) }
    ensures journal { IfOk result (λ journal. (batches next : List (List ℕ))
        × Represents servers batches (D.seen device)
        × IsAtRest D.seen D.may_leave servers next journal
        × AreNext is_other tree.now.tree batches next) }
    ensures open { IfOk result (λ journal. file.IsOpen journal) }
    ensures any_moment { (batches : List (List ℕ)) → Represents servers batches (D.seen device)
        → IfOk result (λ journal. LeavesOnly D.moment D.left_since device (device_of journal)
        (IsFoundOr is_other servers batches tree.now.tree)) }
    ensures any_moment_err { (batches : List (List ℕ))
        → Represents servers batches (D.seen device)
        → IfErr result (λ e. LeavesOnly D.moment D.left_since device e.1
        (IsFoundOr is_other servers batches tree.now.tree)) }
    ensures untouched { IfErr result (λ e. IsOfReading e.0
        → (D.seen e.1 ≡ D.seen device)
        × LeavesOnly D.moment D.left_since device e.1 (λ c. c ≡ D.seen device)) }
    ensures fault { IfErr result (λ e. IsSuchOpening is_other servers (D.seen device) e.0) }
    ensures failed { IfErr result (λ e. e.0 ≡ disk_failed → D.faults device < D.faults e.1) }
{
    match zjournal::open(alloc, device, servers.number()) {
        Ok((journal, _)) => {
            if is_other {
                renewed(alloc, journal, tree)
            } else {
                Ok(journal)
            }
        }
        Err((e, device)) => Err((OpenFault::Journal(e), device)),
    }
}

// Replaces the file of a journal with one that has the text of the tree alone.
fn renewed<D: Device>(
    alloc: Global,
    journal: Journal<D>,
    tree: &LocalTree,
) -> Result<Journal<D>, (OpenFault, D)>
    requires { file.IsSound D.seen D.may_leave journal }
    ensures kept { (servers : ℕ) (batches : List (List ℕ)) → file.IsOpen journal
        → IsAtRest D.seen D.may_leave servers batches journal
        → IfOk result (λ new. RestsAfter D.seen D.may_leave servers tree.now.tree new) }
    ensures open { IfOk result (λ new. file.IsOpen new) }
    ensures any_moment { (servers : ℕ) (batches : List (List ℕ))
        → IsAtRest D.seen D.may_leave servers batches journal
        → IfOk result (λ new. LeavesOnly D.moment D.left_since (device_of journal) (device_of new)
        (IsOldOrTree servers batches tree.now.tree)) }
    ensures any_moment_err { (servers : ℕ) (batches : List (List ℕ))
        → IsAtRest D.seen D.may_leave servers batches journal
        → IfErr result (λ e. LeavesOnly D.moment D.left_since (device_of journal) e.1
        (IsOldOrTree servers batches tree.now.tree)) }
    ensures fault { IfErr result (λ e. IsOfRenewal e.0) }
{
    let mut journal = journal;
    match compact(alloc, &mut journal, tree) {
        Ok(()) => Ok(journal),
        Err(fault) => Err((OpenFault::Renewal(fault), journal.into_device())),
    }
}

/// Returns from where the growth of a journal is measured: its end, if its file replaced another.
pub(crate) fn measure_if<D: Device>(is_other: bool, journal: &Journal<D>) -> usize
    ensures { result ≡ measure_if is_other journal.now }
{
    if is_other { journal.size() } else { 0 }
}
