//! The parts of a multi, done one after the other.
//!
//! # Why
//! The definition (`run` of `zcalls`) is a plain recursion from the first part. A lemma shows that
//! the loop, which appends to the replies so far, returns the same.

ghost use Rattle.std.specs.Prelude.{◌≡◌, ◌≤◌, ◌+◌, Ok, length, IfOk, IfErr, OnOk};
ghost use Rattle.zcalls.specs.Multi.{run};
ghost use Rattle.zcalls.specs.declared.limits.TheConstants.{MOST_PARTS};
ghost use Rattle.zops.specs.support.Ready.{IsReady, IsRun, HasMark};
ghost use Rattle.zops.specs.support.Steps.{Gives};
ghost use Rattle.zstore.specs.StoreView.{Mark};
ghost use Rattle.zops.specs.support.Stops.{IsHalt};

use crate::part::part;
use crate::stop::{Halt, Stop};
use std::alloc::Global;
use zcalls::{Part, PartReply};
use zstore::Store;
use ztree::ClientId;

/// Does a client's parts in sequence, up to the first refusal. On an error the store still has the
/// changes of the earlier parts. Room for all replies is reserved first.
pub(crate) fn run(
    alloc: Global,
    store: &mut Store,
    client: ClientId,
    parts: &[Part],
) -> Result<Vec<PartReply>, Halt>
    requires ready { IsReady store.old }
    requires few { length parts.now ≤ MOST_PARTS }
    ensures done { IfOk result (λ r.
        Gives (run store.old.tree client parts.now) store.new r.items) }
    ensures stopped { IfErr result (IsHalt (run store.old.tree client parts.now)) }
    ensures stays { OnOk result (IsRun store.old store.new) }
    ensures given { store.new.given ≤ store.old.given + MOST_PARTS }
    ensures mark { (m : Mark) → HasMark (length parts.now) m store.old → HasMark 0 m store.new }
{
    let mut replies = Vec::with_capacity(alloc, parts.len())?;
    for wanted in parts {
        match part(alloc, store, client, wanted) {
            Ok(reply) => replies.push(reply)?,
            Err(Stop::Refused(refusal)) => return Err(Halt::Refused(replies.len() + 1, refusal)),
            Err(Stop::Memory) => return Err(Halt::Memory),
        }
    }
    Ok(replies)
}
