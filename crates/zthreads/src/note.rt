//! What is noted of an input.

ghost use Rattle.std.specs.Prelude.{◌≡◌, IfOk};
ghost use Rattle.zthreads.specs.Steps.{answer_event};
ghost use Rattle.zthreads.specs.Reported.{act_heard, reported_at, reported_begun, reported_heard};

use std::alloc::Global;
use zactor::{Done, Input};
use zalloc::Memory;
use zcalls::{Call, ClientId};
use zprotocol::traces::Act;
use zprotocol::world::{CallEvent, Outcome};
use zprotocol::{Message, Order, Process};
use zserver::Snapshot;

/// What is noted of an input for trace and record, before the process is given it. So the event can
/// be entered whatever memory is left then.
#[derive(Drop)]
pub(crate) enum Note {
    /// It receives a message from this process, and the caller may see these events.
    Heard(Process, Option<CallEvent>),
    /// It invokes this call, which is also its copy.
    Begun(Call, Call),
    /// It sends its call once more.
    Retried,
    /// It is given this order.
    Ordered(Order),
    /// It is halted.
    Halted,
}

impl Note {
    ghost use Rattle.zthreads.specs.Hosting.{act_noted, note_of, reported_noted};

    /// Notes an input that this process is to be given.
    pub(crate) fn new(alloc: Global, me: &Process, input: &Input) -> Result<Note, Memory>
        ensures { IfOk result (λ note. note ≡ note_of me.now input.now) }
    {
        match input {
            Input::Hear(from, message) => {
                let reported = reported_of(alloc, me, message)?;
                Ok(Note::Heard(*from, reported))
            }
            Input::Begin(call) => {
                let traced = call.copied(alloc)?;
                let Ok(reported) = call.copied(alloc) else {
                    drop(traced);
                    return Err(Memory);
                };
                Ok(Note::Begun(traced, reported))
            }
            Input::Retry => Ok(Note::Retried),
            Input::Obey(order) => Ok(Note::Ordered(*order)),
            Input::Stop => Ok(Note::Halted),
        }
    }

    /// Returns what is entered, by what became of the input.
    pub(crate) fn entry(self, me: &Process, done: &Done) -> (Act, Option<CallEvent>)
        ensures act { result.0 ≡ act_noted self done.now }
        ensures reported { result.1 ≡ reported_noted me.now self done.now }
    {
        match self {
            Note::Heard(from, reported) => heard(from, reported, done),
            Note::Begun(traced, copy) => (Act::Began(traced), begun(me, done, copy)),
            Note::Retried => (Act::Retried, None),
            Note::Ordered(order) => (Act::Ordered(order), None),
            Note::Halted => (Act::Halted, None),
        }
    }
}

// Returns what the caller may see of a message that a process receives.
fn reported_of(
    alloc: Global,
    me: &Process,
    message: &Message<Snapshot>,
) -> Result<Option<CallEvent>, Memory>
    ensures { IfOk result (λ reported. reported ≡ reported_at me.now message.now) }
{
    match me {
        Process::Client(id) => answer_of(alloc, *id, message),
        Process::Master | Process::Server(_) => Ok(None),
    }
}

// Returns the reply that a message brings.
fn answer_of(
    alloc: Global,
    id: ClientId,
    message: &Message<Snapshot>,
) -> Result<Option<CallEvent>, Memory>
    ensures { IfOk result (λ reported. reported ≡ answer_event id message.now) }
{
    match message {
        Message::Answer(number, reply) => {
            let copy = reply.copied(alloc)?;
            Ok(Some(CallEvent::Answer(id, *number, copy)))
        }
        _ => Ok(None),
    }
}

// Returns what is entered of a message.
fn heard(from: Process, reported: Option<CallEvent>, done: &Done) -> (Act, Option<CallEvent>)
    ensures act { result.0 ≡ act_heard from done.now }
    ensures reported { result.1 ≡ reported_heard reported done.now }
{
    match done {
        Done::Answered(_) => (Act::Took(from, Outcome::Acted), reported),
        Done::Acted | Done::Began(_) => {
            drop(reported);
            (Act::Took(from, Outcome::Acted), None)
        }
        Done::Unheard => {
            drop(reported);
            (Act::Took(from, Outcome::Unheard), None)
        }
        Done::Stopped => {
            drop(reported);
            (Act::Took(from, Outcome::Stopped), None)
        }
        Done::Left => {
            drop(reported);
            (Act::Left, None)
        }
    }
}

// Returns what the caller sees of a call that was invoked.
fn begun(me: &Process, done: &Done, copy: Call) -> Option<CallEvent>
    ensures { result ≡ reported_begun me.now copy done.now }
{
    if let (Process::Client(id), Done::Began(number)) = (me, done) {
        return Some(CallEvent::Begin(*id, *number, copy));
    }
    drop(copy);
    None
}
