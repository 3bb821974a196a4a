//! The results of all parts of a multi or of a multiRead.

ghost use Rattle.std.specs.Prelude.{◌≡◌, ◌<◌, ◌++◌, replicate, map, IfOk, OnOk};
ghost use Rattle.zrequests.specs.Codes as codes;
ghost use Rattle.zjute.specs.declared.reply.PartResult.TheVariants as result_of;
ghost use Rattle.zresponses.specs.Answers as reported;
ghost use Rattle.zresponses.specs.Results as table;
ghost use Rattle.zresponses.specs.Results.{part_code, part_results, refused_results};

use crate::answer::Answer;
use crate::answers::answer_of;
use crate::clock::{Clock, Now};
use crate::results::{look_result, part_result};
use std::alloc::Global;
use zalloc::Memory;
use zcalls::{Part, PartReply, Refusal, Reply};
use zjute::{Body, Code, PartResult, Results};
use zrequests::{Terms, code_of, refused_part};

/// Returns the answer to a multi.
pub(crate) fn multi_answer(
    alloc: Global,
    clock: &Clock,
    at: &Now,
    asked: &[zjute::PartRequest],
    parts: &[Part],
    reply: &Reply,
) -> Result<Answer, Memory>
    ensures { IfOk result (λ answer. answer
        ≡ table.multi_answer clock.now at.now asked.now parts.now reply.now) }
{
    match reply {
        Reply::Multi(replies) => {
            let results = results_of(alloc, clock, at, asked, parts, replies.as_slice())?;
            Ok(Answer::done(Body::Results(Results::new(results))))
        }
        Reply::MultiRefused(number, refusal) => {
            let code = part_code(alloc, clock.terms, asked, *number, *refusal)?;
            let results = refused(alloc, asked.len(), *number, code)?;
            Ok(Answer::done(Body::Results(Results::new(results))))
        }
        _ => answer_of(alloc, clock, reply),
    }
}

// Returns the code of the part that the tree refused.
fn part_code(
    alloc: Global,
    terms: Terms,
    asked: &[zjute::PartRequest],
    number: usize,
    refusal: Refusal,
) -> Result<Code, Memory>
    ensures { IfOk result (λ code. code ≡ part_code terms asked.now number refusal) }
{
    let Some(part) = asked.get(number.saturating_sub(1)) else {
        return Ok(code_of(refusal));
    };
    match refused_part(alloc, terms, part)? {
        Some(code) => Ok(code),
        None => Ok(code_of(refusal)),
    }
}

// Returns the results of a multi that was done.
fn results_of(
    alloc: Global,
    clock: &Clock,
    at: &Now,
    asked: &[zjute::PartRequest],
    parts: &[Part],
    replies: &[PartReply],
) -> Result<Vec<PartResult>, Memory>
    ensures { IfOk result (λ results. results.items
        ≡ part_results clock.now at.now asked.now parts.now replies.now) }
{
    let mut results = Vec::new(alloc);
    for place in 0..asked.len().min(parts.len()).min(replies.len()) {
        let reported = part_result(
            alloc,
            clock,
            at,
            &asked[place],
            &parts[place],
            &replies[place],
        )?;
        results.push(reported)?;
    }
    Ok(results)
}

// Returns the results of a multi with a refused part.
fn refused(
    alloc: Global,
    count: usize,
    number: usize,
    code: Code,
) -> Result<Vec<PartResult>, Memory>
    ensures { IfOk result (λ results. results.items ≡ refused_results count number code) }
{
    let mut results = Vec::new(alloc);
    add_errors(number.saturating_sub(1), Code::Ok, &mut results)?;
    results.push(PartResult::Error(code))?;
    let behind = count.saturating_sub(number);
    add_errors(behind, Code::RuntimeInconsistency, &mut results)?;
    Ok(results)
}

// Adds `count` errors with a code.
fn add_errors(count: usize, code: Code, results: &mut Vec<PartResult>) -> Result<(), Memory>
    ensures { OnOk result (results.new.items
        ≡ results.old.items ++ replicate count (result_of.Error code)) }
{
    for _place in 0..count {
        results.push(PartResult::Error(code))?;
    }
    Ok(())
}

/// Returns the answer to a multiRead.
pub(crate) fn looks_answer(
    alloc: Global,
    clock: &Clock,
    replies: &[Reply],
) -> Result<Answer, Memory>
    ensures { IfOk result (λ answer. answer ≡ table.looks_answer clock.now replies.now) }
{
    let mut results = Vec::new(alloc);
    for reply in replies {
        results.push(look_result(alloc, clock, reply)?)?;
    }
    Ok(Answer::done(Body::Results(Results::new(results))))
}
