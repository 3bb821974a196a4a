//! A line of a script, played on a world.

ghost use Rattle.std.specs.Prelude.{◌≡◌, ◌&&◌, [], IfOk, OnOk};
ghost use Rattle.zscript_text.specs.Texts.{Writes};
ghost use Rattle.zscript.specs.Line.{effect_of, call_effect, begin_effect};
ghost use Rattle.zscript.specs.Line.{settle_effect};
ghost use Rattle.zscript.specs.Done.{AnswersLine, AnswersLineActing, world_between};
ghost use Rattle.zscript.specs.Script.{opening_of};
ghost use Rattle.zscript.specs.support.Effects.{Plays, IsEventDone};
ghost use Rattle.zscript.specs.support.Strict.{AnswersLineBy};
ghost use Rattle.zscript.specs.declared.limits.TheConstants.{MAX_EVENTS};
ghost use Rattle.zworld.specs.Did.{is_short};
ghost use Rattle.zworld.specs.support.Settled.{IsSettledBy};

use crate::limits::MAX_EVENTS;
use crate::texts::{write_begun, write_called, write_cause, write_did, write_fault, write_settled};
use std::alloc::Global;
use zalloc::Memory;
use zprotocol::ServerId;
use zprotocol::world::{Event, Settled};
use zscript_text::{Line, Request, read_line};
use ztree::limits::MAX_CLIENTS;
use zworld::{Did, World};

/// Returns the world that a script begins in. Its chain is the servers up to `last`, and no client
/// has invoked a call yet.
pub fn script_world(alloc: Global, last: ServerId) -> Result<World, Memory>
    ensures { IfOk result (λ world. world_between world.held ≡ opening_of last) }
{
    World::new(alloc, last, MAX_CLIENTS)
}

/// Executes a line on a world: does what it asks for, and appends its answer and an LF to `out`.
/// The world's history before the line is cleared first. The only error is out of memory.
pub fn answer_line(world: &mut World, line: &[u8], out: &mut String) -> Result<(), Memory>
    ensures done { OnOk result (AnswersLine line.now world.old world.new out.old out.new) }
{
    answer(world, line, false, out)
}

/// Does the same, but returns out of memory as soon as a server runs out of memory. So the same
/// line on the same world does the same again.
pub fn answer_line_strictly(world: &mut World, line: &[u8], out: &mut String) -> Result<(), Memory>
    ensures done { OnOk result (AnswersLineActing line.now world.old world.new out.old out.new) }
{
    answer(world, line, true, out)
}

// The same, strictly or not.
fn answer(world: &mut World, line: &[u8], strict: bool, out: &mut String) -> Result<(), Memory>
    ensures done { OnOk result
        (AnswersLineBy strict line.now world.old world.new out.old out.new) }
{
    world.forget();
    play_line(world, line, strict, out)?;
    out.push('\n')?;
    Ok(())
}

// The same on a world with an empty history, and without the LF.
fn play_line(world: &mut World, line: &[u8], strict: bool, out: &mut String) -> Result<(), Memory>
    requires { world.old.history ≡ [] }
    ensures { OnOk result
        (Plays strict (λ s. effect_of s line.now) world.old world.new out.old out.new) }
{
    match read_line(world.allocator(), line) {
        Ok(asked) => match asked {
            Line::Call(request) => call(world, request, strict, out),
            Line::Begin(request) => begin(world, request, strict, out),
            Line::Take(from, to) => do_event(world, Event::Take(from, to), strict, out),
            Line::Ignore(from, to) => do_event(world, Event::Ignore(from, to), strict, out),
            Line::Fail(server) => do_event(world, Event::Fail(server), strict, out),
            Line::Order(order) => do_event(world, Event::Order(order), strict, out),
            Line::Retry(client) => do_event(world, Event::Retry(client), strict, out),
            Line::Settle => settle(world, strict, out),
        },
        Err(fault) => write_fault(fault, out),
    }
}

// Invokes a call, and runs the world until it is quiescent.
fn call(world: &mut World, request: Request, strict: bool, out: &mut String) -> Result<(), Memory>
    requires { world.old.history ≡ [] }
    ensures { OnOk result
        (Plays strict (λ s. call_effect s request) world.old world.new out.old out.new) }
{
    let Request { client, call } = request;
    if let Did::Idle(cause) = world.step(Event::Begin(client, call))? {
        return write_cause(cause, out);
    }
    settle_world(world, strict)?;
    write_called(world.history(), out)
}

// Invokes a call.
fn begin(world: &mut World, request: Request, strict: bool, out: &mut String) -> Result<(), Memory>
    requires { world.old.history ≡ [] }
    ensures { OnOk result
        (Plays strict (λ s. begin_effect s request) world.old world.new out.old out.new) }
{
    let Request { client, call } = request;
    let did = world.step(Event::Begin(client, call))?;
    write_begun(did, out)
}

// Does another event. Where it is strict, it fails if a server runs out of memory.
fn do_event(world: &mut World, event: Event, strict: bool, out: &mut String) -> Result<(), Memory>
    ensures { OnOk result
        (IsEventDone strict world.old world.new event (Writes out.old out.new)) }
{
    let did = world.step(event)?;
    if must_stop(strict, did) {
        return Err(Memory);
    }
    write_did(did, world.history(), out)
}

// Returns whether what became of an event ends the line: a server ran out of memory, and none may.
fn must_stop(strict: bool, did: Did) -> bool
    ensures { result ≡ (strict && is_short did) }
{
    strict && did.is_short()
}

// Runs the world until it is quiescent.
fn settle(world: &mut World, strict: bool, out: &mut String) -> Result<(), Memory>
    ensures { OnOk result (Plays strict settle_effect world.old world.new out.old out.new) }
{
    let settled = settle_world(world, strict)?;
    write_settled(settled, world.history(), out)
}

// The same, and no more.
fn settle_world(world: &mut World, strict: bool) -> Result<Settled, Memory>
    ensures { IfOk result (IsSettledBy strict world.old world.new MAX_EVENTS) }
{
    if strict {
        world.settle_strictly(MAX_EVENTS)
    } else {
        world.settle(MAX_EVENTS)
    }
}
