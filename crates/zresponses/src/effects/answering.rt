//! Answers to requests.

ghost use Rattle.std.specs.Prelude.{◌≡◌, IfOk, OnOk};
ghost use Rattle.zresponses.specs.effects.Answering as table;
ghost use Rattle.zresponses.specs.effects.Answering.{answered, granted_and_answered};

use crate::effects::absorbing::absorb_all;
use crate::effects::replying::reply;
use crate::effects::watching::grant_all;
use crate::effects::wishes::wishes;
use crate::{Clock, Now, answer_to, told};
use std::alloc::Global;
use zalloc::Memory;
use zcalls::{Call, Reply};
use zconnections::Tables;
use zjute::{Code, Request};

/// A request whose calls all have replies.
#[derive(Drop)]
pub struct Done<'a> {
    /// The connection of the request.
    pub connection: u32,
    /// The request.
    pub request: &'a Request,
    /// The calls that it made.
    pub calls: &'a [Call],
    /// The reply to each call.
    pub replies: &'a [Reply],
}

/// Sends the answer to a request whose calls all have replies. The events of its calls are sent
/// first, then its watches are set or removed.
pub fn answer(
    alloc: Global,
    tables: &mut Tables,
    clock: &Clock,
    now: &Now,
    done: &Done,
) -> Result<(), Memory>
    ensures { OnOk result (tables.new
        ≡ answered clock.now now.now done.now.connection done.now.request.now
        done.now.calls.now done.now.replies.now tables.old) }
{
    absorb_all(alloc, tables, done.calls, done.replies)?;
    grant_and_answer(alloc, tables, clock, now, done)
}

// Sets or removes the watches of a request, and sends its answer.
fn grant_and_answer(
    alloc: Global,
    tables: &mut Tables,
    clock: &Clock,
    now: &Now,
    done: &Done,
) -> Result<(), Memory>
    ensures { OnOk result (tables.new
        ≡ granted_and_answered clock.now now.now done.now.connection done.now.request.now
        done.now.calls.now done.now.replies.now tables.old) }
{
    let wishes = wishes(alloc, &done.request.asked, done.calls, done.replies)?;
    let fault = grant_all(tables, done.connection, &wishes)?;
    drop(wishes);
    let answer = answer_unless(alloc, fault, clock, now, done)?;
    reply(
        alloc,
        tables,
        told(clock, now.zxid),
        done.connection,
        done.request.xid,
        answer,
    )
}

// Returns the answer to a request; an error, if a wish wasn't granted.
fn answer_unless(
    alloc: Global,
    fault: Option<Code>,
    clock: &Clock,
    now: &Now,
    done: &Done,
) -> Result<crate::Answer, Memory>
    ensures { IfOk result (λ answer. answer
        ≡ table.answer_unless fault clock.now now.now done.now.request.now.asked
        done.now.calls.now done.now.replies.now) }
{
    if let Some(code) = fault {
        return Ok(crate::Answer::failed(code));
    }
    answer_to(
        alloc,
        clock,
        now,
        &done.request.asked,
        done.calls,
        done.replies,
    )
}
