//! A machine with another machine's tree. It has cached no reply and applied no entry.

ghost use Rattle.std.specs.Prelude.{◌≡◌, [], false, Some, IfOk, OnOk};
ghost use Rattle.std.specs.FinMap.{entries, get, keys};
ghost use Rattle.ztree.specs.declared.node.Node.{Node};
ghost use Rattle.zstore.specs.Restored.{with_session_rows};
ghost use Rattle.zstore.specs.declared.restore_fault.RestoreFault.TheVariants.{Memory as OfMemory};
ghost use Rattle.zops.specs.Restored.{rooted_machine, with_plain};
ghost use Rattle.zops.specs.RestoredLaws.{CanPutAllGranted, IsSettled};
ghost use Rattle.ztree_service.specs.Machines.{machine_of, tree_in};
ghost use Rattle.ztree_service.specs.support.Tables.{NodesAreLeft};

use std::alloc::Global;
use zalloc::Memory;
use zops::{Machine, RestoreFault, Restoring};
use zpath::Path;
use ztree::SessionId;

/// Returns a machine with the same tree.
pub(crate) fn fresh(alloc: Global, machine: &Machine) -> Result<Machine, Memory>
    requires whole { machine.now.is_broken ≡ false }
    ensures { IfOk result (λ m. m
        ≡ record { state = machine_of (tree_in machine.now); is_broken = false }) }
{
    let ids = machine.session_ids()?;
    let mut paths = machine.paths()?;
    let _ = paths.remove(0);
    let mut restoring = rooted(alloc, machine)?;
    put_sessions(machine, ids, &mut restoring)?;
    put_nodes(machine, paths, &mut restoring)?;
    Ok(restoring.finish())
}

// Begins with only the root.
fn rooted(alloc: Global, machine: &Machine) -> Result<Restoring, Memory>
    requires whole { machine.now.is_broken ≡ false }
    requires settled { IsSettled (tree_in machine.now) }
    ensures { IfOk result (λ r. (root : Node) × (get (tree_in machine.now).nodes [] ≡ Some root)
        × (r ≡ rooted_machine root (tree_in machine.now).time (tree_in machine.now).zxid 0
        (tree_in machine.now).limits)) }
{
    let Some(root) = machine.node(&Path::root()) else {
        unreachable!()
    };
    let root = root.copied()?;
    let limits = machine.limits();
    match Restoring::new(alloc, root, machine.time(), machine.zxid(), 0, limits) {
        Ok(restoring) => Ok(restoring),
        Err(fault) => Err(memory(fault)),
    }
}

// Restores the sessions of a machine, in order.
fn put_sessions(
    machine: &Machine,
    ids: Vec<SessionId>,
    restoring: &mut Restoring,
) -> Result<(), Memory>
    requires whole { machine.now.is_broken ≡ false }
    requires ids { ids.items ≡ keys (tree_in machine.now).sessions }
    requires can { CanPutAllGranted restoring.old.service.plain
        (entries (tree_in machine.now).sessions) }
    ensures { OnOk result (restoring.new ≡ with_plain restoring.old
        (with_session_rows restoring.old.service.plain
        (entries (tree_in machine.now).sessions))) }
{
    for id in ids {
        let Some(session) = machine.session(id) else {
            unreachable!()
        };
        if let Err(fault) = restoring.put_session(id, session) {
            return Err(memory(fault));
        }
    }
    Ok(())
}

// Restores the nodes of a machine below the root, in order.
fn put_nodes(machine: &Machine, paths: Vec<Path>, restoring: &mut Restoring) -> Result<(), Memory>
    requires whole { machine.now.is_broken ≡ false }
    requires left { NodesAreLeft (tree_in machine.now) restoring.old paths.items }
    ensures { OnOk result (NodesAreLeft (tree_in machine.now) restoring.new []) }
{
    for path in paths {
        let Some(node) = machine.node(&path) else {
            unreachable!()
        };
        let node = node.copied()?;
        if let Err(fault) = restoring.put_node(path, node) {
            return Err(memory(fault));
        }
    }
    Ok(())
}

// Returns the only possible fault: out of memory.
fn memory(fault: RestoreFault) -> Memory
    requires { fault ≡ OfMemory }
{
    match fault {
        RestoreFault::Memory => Memory,
        RestoreFault::Unlawful => unreachable!(),
    }
}
