//! The answer to a request, from all its replies.

ghost use Rattle.std.specs.Prelude.{◌≡◌, IfOk};
ghost use Rattle.zresponses.specs.Answers as of_one;
ghost use Rattle.zresponses.specs.Answering.{answer_in, was_lost, by_first, by_two, made_by, multi_by};
ghost use Rattle.zresponses.specs.Answering.{is_anyone, sync_by};

use crate::answer::Answer;
use crate::answers::{acl_answer, answer_of, children_answer, made_answer};
use crate::clock::{Clock, Now};
use crate::parts::{looks_answer, multi_answer};
use crate::texts::bytes_of;
use std::alloc::Global;
use zalloc::Memory;
use zcalls::{Call, Reply, Update};
use zjute::{Asked, Body, Bytes, Code, Parts, Results};

/// Returns the answer to a request, from its calls and the reply to each. `at` is the zxid and the
/// tick of the tree after the calls. The only error is out of memory.
pub fn answer_to(
    alloc: Global,
    clock: &Clock,
    at: &Now,
    asked: &Asked,
    calls: &[Call],
    replies: &[Reply],
) -> Result<Answer, Memory>
    ensures { IfOk result (λ reported. reported
        ≡ answer_in clock.now at.now asked.now calls.now replies.now) }
{
    match asked {
        Asked::Create2(_) | Asked::CreateContainer(_) | Asked::CreateTtl(_) => {
            made(alloc, clock, at, calls, replies)
        }
        Asked::Multi(parts) => multi(alloc, clock, at, parts, calls, replies),
        Asked::MultiRead(_) => looks_answer(alloc, clock, replies),
        Asked::GetChildren2(_) => children(alloc, clock, replies),
        Asked::GetAcl(_) => acl(alloc, clock, replies),
        Asked::Sync(path) => sync(alloc, path),
        Asked::SetWatches(_)
        | Asked::SetWatches2(_)
        | Asked::CheckWatches(_)
        | Asked::RemoveWatches(_)
        | Asked::Auth(_)
        | Asked::Ping => Ok(Answer::done(Body::Nothing)),
        Asked::Sasl(_) => Ok(Answer::done(Body::NoToken)),
        Asked::WhoAmI => anyone(alloc),
        Asked::AddWatch(_) => Ok(Answer::done(Body::Error(Code::Ok))),
        _ => first(alloc, clock, replies),
    }
}

// Returns the answer where a call has no reply.
fn lost() -> Answer
    ensures { result ≡ was_lost }
{
    Answer::failed(Code::SystemError)
}

// Returns the answer from the first reply.
fn first(alloc: Global, clock: &Clock, replies: &[Reply]) -> Result<Answer, Memory>
    ensures { IfOk result (λ reported. reported ≡ by_first (of_one.answer_of clock.now)
        replies.now) }
{
    match replies {
        [reply, ..] => answer_of(alloc, clock, reply),
        [] => Ok(lost()),
    }
}

// Returns the answer to a create that asks for the stat too.
fn made(
    alloc: Global,
    clock: &Clock,
    at: &Now,
    calls: &[Call],
    replies: &[Reply],
) -> Result<Answer, Memory>
    ensures { IfOk result (λ reported. reported ≡ made_by clock.now at.now calls.now replies.now) }
{
    let [Call::Update(Update::Create(create)), ..] = calls else {
        return first(alloc, clock, replies);
    };
    match replies {
        [reply, ..] => made_answer(alloc, clock, at, create, reply),
        [] => Ok(lost()),
    }
}

// Returns the answer to a multi.
fn multi(
    alloc: Global,
    clock: &Clock,
    at: &Now,
    asked: &Parts,
    calls: &[Call],
    replies: &[Reply],
) -> Result<Answer, Memory>
    ensures { IfOk result (λ reported. reported
        ≡ multi_by clock.now at.now asked.now calls.now replies.now) }
{
    let [Call::Update(Update::Multi(parts)), ..] = calls else {
        return Ok(Answer::done(Body::Results(Results::new(Vec::new(alloc)))));
    };
    match replies {
        [reply, ..] => { multi_answer(alloc, clock, at, asked.as_slice(), parts.as_slice(), reply) }
        [] => Ok(lost()),
    }
}

// Returns the answer to a request for the names of children and the stat.
fn children(alloc: Global, clock: &Clock, replies: &[Reply]) -> Result<Answer, Memory>
    ensures { IfOk result
        (λ reported. reported ≡ by_two (of_one.children_answer clock.now) replies.now) }
{
    match replies {
        [names, stat, ..] => children_answer(alloc, clock, names, stat),
        _ => Ok(lost()),
    }
}

// Returns the answer to a request for an ACL.
fn acl(alloc: Global, clock: &Clock, replies: &[Reply]) -> Result<Answer, Memory>
    ensures { IfOk result (λ reported. reported ≡ by_first (of_one.acl_answer clock.now)
        replies.now) }
{
    match replies {
        [reply, ..] => acl_answer(alloc, clock, reply),
        [] => Ok(lost()),
    }
}

// Returns that the client is anyone.
fn anyone(alloc: Global) -> Result<Answer, Memory>
    ensures { IfOk result (λ reported. reported ≡ is_anyone) }
{
    let scheme = bytes_of(alloc, b"world")?;
    Ok(Answer::done(Body::Client(scheme, bytes_of(alloc, b"anyone")?)))
}

// Returns the answer to a sync.
fn sync(alloc: Global, path: &Option<Bytes>) -> Result<Answer, Memory>
    ensures { IfOk result (λ reported. reported ≡ sync_by path.now) }
{
    match path {
        Some(text) => Ok(Answer::done(Body::Path(bytes_of(alloc, text.as_slice())?))),
        None => Ok(Answer::done(Body::Nothing)),
    }
}
