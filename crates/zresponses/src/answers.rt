//! Answers from one reply, or from two.

ghost use Rattle.std.specs.Prelude.{◌≡◌, Some, IfOk};
ghost use Rattle.zpath.specs.Grammar.{text_of};
ghost use Rattle.zjute.specs.declared.reply.Body.TheVariants as body;
ghost use Rattle.zresponses.specs.Stats as reported;
ghost use Rattle.zresponses.specs.Answers as table;
ghost use Rattle.zresponses.specs.Answers.{names_answer, names_stat_answer};

use crate::answer::Answer;
use crate::clock::{Clock, Now};
use crate::stats::{made_stat, stat_reported};
use crate::texts::{bytes_of, data_reported, names_reported, path_reported};
use std::alloc::Global;
use zalloc::Memory;
use zcalls::{Create, Data, Names, Reply, Stat};
use zjute::{Acl, Acls, Body, Code};
use zpath::Path;
use zrequests::{ALL_PERMISSIONS, code_of};

/// Returns the answer to a request of one call, from the reply to it.
pub(crate) fn answer_of(alloc: Global, clock: &Clock, reply: &Reply) -> Result<Answer, Memory>
    ensures { IfOk result (λ answer. answer ≡ table.answer_of clock.now reply.now) }
{
    match reply {
        Reply::Created(path) => path_alone(alloc, path),
        Reply::Set(stat) | Reply::Exists(stat) => {
            Ok(Answer::done(Body::Stat(stat_reported(clock, stat))))
        }
        Reply::Data(bytes, stat) => data_and_stat(alloc, clock, bytes, stat),
        Reply::Children(names) => names_alone(alloc, names),
        Reply::Refused(refusal) | Reply::MultiRefused(_, refusal) => {
            Ok(Answer::failed(code_of(*refusal)))
        }
        Reply::Deleted
        | Reply::Multi(_)
        | Reply::Opened(_, _)
        | Reply::Pinged
        | Reply::Closed
        | Reply::Ticked(_, _, _) => Ok(Answer::done(Body::Nothing)),
    }
}

// Returns the path of a created node.
fn path_alone(alloc: Global, path: &Path) -> Result<Answer, Memory>
    ensures { IfOk result (λ answer. answer ≡ table.done (body.Path (text_of path.now))) }
{
    Ok(Answer::done(Body::Path(path_reported(alloc, path)?)))
}

// Returns data and a stat.
fn data_and_stat(alloc: Global, clock: &Clock, bytes: &Data, stat: &Stat) -> Result<Answer, Memory>
    ensures { IfOk result (λ answer. answer
        ≡ table.done (body.DataStat (Some bytes.now) (reported.stat_reported clock.now stat.now))) }
{
    let data = data_reported(alloc, bytes)?;
    Ok(Answer::done(Body::DataStat(data, stat_reported(clock, stat))))
}

// Returns names.
fn names_alone(alloc: Global, names: &Names) -> Result<Answer, Memory>
    ensures { IfOk result (λ answer. answer ≡ names_answer names.now) }
{
    match names_reported(alloc, names)? {
        Some(reported) => Ok(Answer::done(Body::Names(reported))),
        None => Ok(Answer::failed(Code::MarshallingError)),
    }
}

/// Returns the answer to a create that asks for the new node's stat too.
pub(crate) fn made_answer(
    alloc: Global,
    clock: &Clock,
    at: &Now,
    create: &Create,
    reply: &Reply,
) -> Result<Answer, Memory>
    ensures { IfOk result
        (λ answer. answer ≡ table.made_answer clock.now at.now create.now reply.now) }
{
    let Reply::Created(path) = reply else {
        return answer_of(alloc, clock, reply);
    };
    let reported = path_reported(alloc, path)?;
    let stat = stat_reported(clock, &made_stat(at, create));
    Ok(Answer::done(Body::PathStat(reported, stat)))
}

/// Returns the answer to a request for a node's ACL.
pub(crate) fn acl_answer(alloc: Global, clock: &Clock, reply: &Reply) -> Result<Answer, Memory>
    ensures { IfOk result (λ answer. answer ≡ table.acl_answer clock.now reply.now) }
{
    let Reply::Exists(stat) = reply else {
        return answer_of(alloc, clock, reply);
    };
    let acls = acls_for_all(alloc, ALL_PERMISSIONS)?;
    Ok(Answer::done(Body::AclsStat(acls, stat_reported(clock, stat))))
}

/// Returns an ACL of anyone with these permissions.
pub(crate) fn acls_for_all(alloc: Global, perms: i32) -> Result<Acls, Memory>
    ensures { IfOk result (λ acls. acls ≡ table.acls_for_all perms) }
{
    let scheme = bytes_of(alloc, b"world")?;
    let id = bytes_of(alloc, b"anyone")?;
    let mut acls = Vec::new(alloc);
    acls.push(Acl {
        perms,
        scheme: Some(scheme),
        id: Some(id),
    })?;
    match Acls::new(acls) {
        Some(acls) => Ok(acls),
        None => unreachable!(),
    }
}

/// Returns the answer to a request for the names of a node's children and its stat.
pub(crate) fn children_answer(
    alloc: Global,
    clock: &Clock,
    first: &Reply,
    second: &Reply,
) -> Result<Answer, Memory>
    ensures { IfOk result
        (λ answer. answer ≡ table.children_answer clock.now first.now second.now) }
{
    match (first, second) {
        (Reply::Children(names), Reply::Exists(stat)) => {
            names_and_stat(alloc, clock, names, stat)
        }
        _ => answer_of(alloc, clock, first),
    }
}

// Returns names and a stat.
fn names_and_stat(
    alloc: Global,
    clock: &Clock,
    names: &Names,
    stat: &Stat,
) -> Result<Answer, Memory>
    ensures { IfOk result
        (λ answer. answer ≡ names_stat_answer clock.now names.now stat.now) }
{
    match names_reported(alloc, names)? {
        Some(reported) => Ok(Answer::done(Body::NamesStat(reported, stat_reported(clock, stat)))),
        None => Ok(Answer::failed(Code::MarshallingError)),
    }
}
