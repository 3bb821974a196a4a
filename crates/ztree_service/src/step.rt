//! One update of a machine, as client 0's.

ghost use Rattle.std.specs.Prelude.{◌≡◌, ◌<◌, ◌+◌, IfOk, OnOk};
ghost use Rattle.zops.specs.declared.limits.TheConstants.{MAX_APPLIED};
ghost use Rattle.zcalls.specs.declared.call.Call.TheVariants.{Update as Called};
ghost use Rattle.zprotocol.specs.world.PlainTree.{serve};
ghost use Rattle.ztree_service.specs.Machines.{tree_in};
ghost use Rattle.ztree_service.specs.support.Tables.{IsReady};

use crate::fresh::fresh;
use std::alloc::Global;
use zalloc::Memory;
use zcalls::{CallNumber, Entry, Reply, Update};
use zops::{MAX_APPLIED, Machine};
use ztree::ClientId;

/// Applies an update. Returns the reply and the update. A machine whose count of entries is full is
/// replaced first, by one with the same tree.
pub(crate) fn step(
    alloc: Global,
    machine: &mut Machine,
    update: Update,
) -> Result<(Reply, Update), Memory>
    requires { IsReady machine.old }
    ensures ok { IfOk result (λ did.
        (tree_in machine.new, did.0) ≡ serve (tree_in machine.old) 0 (Called update)) }
    ensures same { IfOk result (λ did. did.1 ≡ update) }
    ensures ready { OnOk result (IsReady machine.new) }
{
    make_room(alloc, machine)?;
    enter(machine, update)
}

// Replaces the machine if its count of entries is full.
fn make_room(alloc: Global, machine: &mut Machine) -> Result<(), Memory>
    requires { IsReady machine.old }
    ensures ready { OnOk result (IsReady machine.new) }
    ensures room { OnOk result (machine.new.state.applied < MAX_APPLIED) }
    ensures tree { OnOk result (tree_in machine.new ≡ tree_in machine.old) }
{
    if machine.applied() < MAX_APPLIED {
        return Ok(());
    }
    *machine = fresh(alloc, machine)?;
    Ok(())
}

// Applies an update. The machine must be able to count one more entry.
fn enter(machine: &mut Machine, update: Update) -> Result<(Reply, Update), Memory>
    requires ready { IsReady machine.old }
    requires room { machine.old.state.applied < MAX_APPLIED }
    ensures ok { IfOk result (λ did.
        (tree_in machine.new, did.0) ≡ serve (tree_in machine.old) 0 (Called update)) }
    ensures same { IfOk result (λ did. did.1 ≡ update) }
    ensures ready { OnOk result (IsReady machine.new) }
{
    let entry = Entry {
        client: first_client(),
        number: number(machine),
        update,
    };
    match machine.apply(&entry)? {
        Some(reply) => {
            let Entry { update, .. } = entry;
            Ok((reply, update))
        }
        None => unreachable!(),
    }
}

// Returns the client of all updates.
fn first_client() -> ClientId
    ensures { result ≡ 0 }
{
    match ClientId::new(0) {
        Some(client) => client,
        None => unreachable!(),
    }
}

// Returns the number of the next entry.
fn number(machine: &Machine) -> CallNumber
    requires { machine.now.state.applied < MAX_APPLIED }
    ensures { result ≡ machine.now.state.applied + 1 }
{
    match CallNumber::new(machine.applied() + 1) {
        Some(number) => number,
        None => unreachable!(),
    }
}
