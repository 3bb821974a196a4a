//! The result of one part of a multi or of a multiRead.
//!
//! # Why
//!
//! A create2 in a multi returns its stat, as in zookeeper.jute, and so does a create with a TTL
//! or of a container.
//! ZooKeeper 3.8 returns the path only, as for a plain create. Clients go by the kind that precedes
//! each result.

ghost use Rattle.std.specs.Prelude.{◌≡◌, IfOk};
ghost use Rattle.zpath.specs.Grammar.{text_of};
ghost use Rattle.zresponses.specs.Results as table;
ghost use Rattle.zresponses.specs.Results.{names_result};

use crate::clock::{Clock, Now};
use crate::stats::{made_stat, stat_reported};
use crate::texts::{data_reported, names_reported, path_reported};
use std::alloc::Global;
use zalloc::Memory;
use zcalls::{Create, Names, Part, PartReply, Reply};
use zjute::{Code, PartResult};
use zpath::Path;
use zrequests::code_of;

/// Returns the result of a part that was done.
pub(crate) fn part_result(
    alloc: Global,
    clock: &Clock,
    at: &Now,
    asked: &zjute::PartRequest,
    part: &Part,
    reply: &PartReply,
) -> Result<PartResult, Memory>
    ensures { IfOk result
        (λ reported. reported ≡ table.part_result clock.now at.now asked.now part.now reply.now) }
{
    match reply {
        PartReply::Created(path) => match part {
            Part::Create(create) => made_result(alloc, clock, at, asked, create, path),
            Part::Delete(_) | Part::SetData(_) | Part::Check(_) => {
                Ok(PartResult::Create(path_reported(alloc, path)?))
            }
        },
        PartReply::Deleted => Ok(PartResult::Delete),
        PartReply::Set(stat) => Ok(PartResult::SetData(stat_reported(clock, stat))),
        PartReply::Checked => Ok(PartResult::Check),
    }
}

// Returns a node that a part created.
fn made_result(
    alloc: Global,
    clock: &Clock,
    at: &Now,
    asked: &zjute::PartRequest,
    create: &Create,
    path: &Path,
) -> Result<PartResult, Memory>
    ensures { IfOk result (λ reported. reported
        ≡ table.made_result clock.now at.now asked.now create.now (text_of path.now)) }
{
    let path = path_reported(alloc, path)?;
    match asked {
        zjute::PartRequest::Create2(_)
        | zjute::PartRequest::CreateTtl(_)
        | zjute::PartRequest::CreateContainer(_) => {
            let stat = stat_reported(clock, &made_stat(at, create));
            Ok(PartResult::Create2(path, stat))
        }
        _ => Ok(PartResult::Create(path)),
    }
}

/// Returns the result of a part of a multiRead.
pub(crate) fn look_result(alloc: Global, clock: &Clock, reply: &Reply) -> Result<PartResult, Memory>
    ensures { IfOk result (λ reported. reported ≡ table.look_result clock.now reply.now) }
{
    match reply {
        Reply::Data(bytes, stat) => {
            let reported = data_reported(alloc, bytes)?;
            Ok(PartResult::GetData(reported, stat_reported(clock, stat)))
        }
        Reply::Children(names) => names_of(alloc, names),
        Reply::Refused(refusal) => Ok(PartResult::Error(code_of(*refusal))),
        _ => Ok(PartResult::Error(Code::SystemError)),
    }
}

// Returns names as a result.
fn names_of(alloc: Global, names: &Names) -> Result<PartResult, Memory>
    ensures { IfOk result (λ reported. reported ≡ names_result names.now) }
{
    match names_reported(alloc, names)? {
        Some(reported) => Ok(PartResult::GetChildren(reported)),
        None => Ok(PartResult::Error(Code::MarshallingError)),
    }
}
