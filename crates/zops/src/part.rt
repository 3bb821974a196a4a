//! One part of a multi, applied to a store.

ghost use Rattle.std.specs.Prelude.{◌≡◌, Ok, Err, IfOk, IfErr, OnErr};
ghost use Rattle.zcalls.specs.Part.{check_step, part_step};
ghost use Rattle.zops.specs.support.Ready.{IsReadyForPart};
ghost use Rattle.zops.specs.support.Steps.{Gives};
ghost use Rattle.zops.specs.support.Stops.{IsPartDone, IsStop};

use crate::change::{create, delete, has_other_version, set};
use crate::stop::Stop;
use std::alloc::Global;
use zcalls::{Check, Part, PartReply, Refusal};
use zstore::Store;
use ztree::ClientId;

/// Does one part for a client. On an error the store is unchanged.
pub(crate) fn part(
    alloc: Global,
    store: &mut Store,
    client: ClientId,
    part: &Part,
) -> Result<PartReply, Stop>
    requires ready { IsReadyForPart store.old }
    ensures done { IfOk result (IsPartDone client part.now store.old store.new) }
    ensures stopped { IfErr result (IsStop (part_step store.old.tree client part.now)) }
    ensures same { OnErr result (store.new ≡ store.old) }
{
    match part {
        Part::Create(wanted) => Ok(PartReply::from(create(alloc, store, client, wanted)?)),
        Part::Delete(wanted) => Ok(PartReply::from(delete(store, wanted)?)),
        Part::SetData(wanted) => Ok(PartReply::from(set(store, wanted)?)),
        Part::Check(wanted) => check(store, wanted),
    }
}

// Checks that a node exists and has the version.
fn check(store: &Store, check: &Check) -> Result<PartReply, Stop>
    ensures done { IfOk result (Gives (check_step store.now.tree check.now) store.now) }
    ensures stopped { IfErr result (IsStop (check_step store.now.tree check.now)) }
{
    let Some(id) = store.find(&check.path) else {
        return Err(Stop::Refused(Refusal::NoNode));
    };
    if has_other_version(store, id, check.version) {
        return Err(Stop::Refused(Refusal::BadVersion));
    }
    Ok(PartReply::Checked)
}
