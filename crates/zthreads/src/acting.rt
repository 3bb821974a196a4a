//! A process is given an input at its endpoint.

ghost use Rattle.std.specs.Prelude.{◌≡◌, [], None, Some, Err, Ok, false, IfErr, IfNone, IfOk};
ghost use Rattle.std.specs.Prelude.{IfSome, OnErr, OnOk};
ghost use Rattle.zactor.specs.declared.act_fault.ActFault.TheVariants.{Memory};
ghost use Rattle.zactor.specs.declared.input.Input.TheVariants.{Hear};
ghost use Rattle.zactor.specs.Acting.{handed_by, has_stopped};
ghost use Rattle.zthreads.specs.Endpoints.{HasRoom, IsCutForNeed, IsLostForNeed, IsSettled};
ghost use Rattle.zthreads.specs.Endpoints.{is_traced_of, Keeps, pending, SameBooks, SameEndpoint};
ghost use Rattle.zthreads.specs.Endpoints.{stamp_of_endpoint, Stands};
ghost use Rattle.zthreads.specs.Hosting.{ActsAt, CanBeStamped, Did, DidNot, EntersDone, Fits};
ghost use Rattle.zthreads.specs.Hosting.{GoesTo, IsUndone, unsent};

use crate::note::Note;
use crate::{Endpoint, Stamped};
use std::mem::replace;
use zactor::{ActFault, Actor, Done, Handed, Input};
use zprotocol::traces::Stamp;
use zprotocol::{Message, Process};
use zserver::Snapshot;

/// Gives an input to the process of an endpoint. What it did is entered, if it has a trace. What it
/// sends waits in the endpoint, and the failure notice of a server that stops is on its channel.
pub(crate) fn act(
    endpoint: &mut Endpoint,
    actor: &mut Actor,
    input: Input,
    stamp: Stamp,
    next: Stamp,
    handed: &mut Handed,
) -> Result<Done, ActFault>
    requires fits { Fits endpoint.old actor.old }
    requires settled { IsSettled endpoint.old }
    requires next { CanBeStamped endpoint.old input stamp next }
    ensures fits { Fits endpoint.new actor.new }
    ensures handed { handed.new ≡ handed_by input result handed.old }
    ensures goes { OnOk result
        (GoesTo endpoint.old actor.old endpoint.new actor.new input stamp (pending endpoint.new)) }
    ensures did { IfOk result (Did endpoint.old actor.old endpoint.new actor.new input next) }
    ensures undone { IfErr result (DidNot endpoint.old actor.old endpoint.new actor.new input) }
    ensures same { SameEndpoint endpoint.old endpoint.new }
{
    match enter(endpoint, actor, input, stamp, next, handed) {
        Ok(done) => {
            if !done.is_end() {
                return Ok(done);
            }
            endpoint.put_gone();
            Ok(done)
        }
        Err(fault) => Err(fault),
    }
}

// Does the same, but the failure notice of a server that stops is on no channel yet.
fn enter(
    endpoint: &mut Endpoint,
    actor: &mut Actor,
    input: Input,
    stamp: Stamp,
    next: Stamp,
    handed: &mut Handed,
) -> Result<Done, ActFault>
    requires fits { Fits endpoint.old actor.old }
    requires settled { IsSettled endpoint.old }
    requires next { CanBeStamped endpoint.old input stamp next }
    ensures handed { handed.new ≡ handed_by input result handed.old }
    ensures goes { IfOk result (λ done.
        GoesTo endpoint.old actor.old endpoint.new actor.new input stamp (unsent endpoint.new done)) }
    ensures acted { IfOk result (ActsAt endpoint.old actor.old endpoint.new actor.new input) }
    ensures entered { IfOk result (EntersDone endpoint.old endpoint.new input) }
    ensures stamp { OnOk result (stamp_of_endpoint endpoint.new ≡ next) }
    ensures whole { OnOk result (HasRoom endpoint.old → IsCutForNeed endpoint.old endpoint.new
        next) }
    ensures unlost { OnOk result (IsLostForNeed endpoint.old endpoint.new next) }
    ensures fault { IfErr result (IsUndone actor.old input) }
    ensures kept { OnErr result (actor.new ≡ actor.old) }
    ensures keeps { OnErr result (Keeps endpoint.old endpoint.new) }
    ensures books { OnErr result (SameBooks endpoint.old endpoint.new) }
    ensures pending { OnErr result (pending endpoint.new ≡ []) }
    ensures same { SameEndpoint endpoint.old endpoint.new }
{
    if !endpoint.is_traced() {
        return enter_untraced(endpoint, actor, input, stamp, next, handed);
    }
    let me = endpoint.me;
    let Ok(note) = Note::new(endpoint.alloc, &me, &input) else {
        hand_back(input, handed);
        return Err(ActFault::Memory);
    };
    match actor.act(input, &mut endpoint.out, handed) {
        Ok(done) => {
            let (did, reported) = note.entry(&me, &done);
            endpoint.enter(did, next, reported);
            Ok(done)
        }
        Err(fault) => {
            drop(note);
            Err(fault)
        }
    }
}

// Does the same for a process that isn't traced. Nothing is copied for a trace and a record.
fn enter_untraced(
    endpoint: &mut Endpoint,
    actor: &mut Actor,
    input: Input,
    stamp: Stamp,
    next: Stamp,
    handed: &mut Handed,
) -> Result<Done, ActFault>
    requires untraced { is_traced_of endpoint.old ≡ false }
    requires fits { Fits endpoint.old actor.old }
    requires settled { IsSettled endpoint.old }
    requires next { CanBeStamped endpoint.old input stamp next }
    ensures handed { handed.new ≡ handed_by input result handed.old }
    ensures goes { IfOk result (λ done.
        GoesTo endpoint.old actor.old endpoint.new actor.new input stamp (unsent endpoint.new done)) }
    ensures acted { IfOk result (ActsAt endpoint.old actor.old endpoint.new actor.new input) }
    ensures entered { IfOk result (EntersDone endpoint.old endpoint.new input) }
    ensures stamp { OnOk result (stamp_of_endpoint endpoint.new ≡ next) }
    ensures whole { OnOk result (IsCutForNeed endpoint.old endpoint.new next) }
    ensures unlost { OnOk result (IsLostForNeed endpoint.old endpoint.new next) }
    ensures fault { IfErr result (IsUndone actor.old input) }
    ensures kept { OnErr result (actor.new ≡ actor.old) }
    ensures keeps { OnErr result (Keeps endpoint.old endpoint.new) }
    ensures books { OnErr result (SameBooks endpoint.old endpoint.new) }
    ensures pending { OnErr result (pending endpoint.new ≡ []) }
    ensures same { SameEndpoint endpoint.old endpoint.new }
{
    let _ = stamp;
    match actor.act(input, &mut endpoint.out, handed) {
        Ok(done) => {
            endpoint.enter_untraced(next);
            Ok(done)
        }
        Err(fault) => Err(fault),
    }
}

// Writes the message of an input back to `handed`, if the input is one.
fn hand_back(input: Input, handed: &mut Handed)
    ensures { handed.new ≡ handed_by input (Err Memory) handed.old }
{
    match input {
        Input::Hear(_, message) => *handed = Handed::Message(message),
        Input::Begin(call) => drop(call),
        Input::Retry | Input::Obey(_) | Input::Stop => (),
    }
}

/// Gives a received message to a process that hasn't stopped. If there is no memory for the
/// message, it remains here, and counts as still in its ring.
pub(crate) fn hear(
    endpoint: &mut Endpoint,
    actor: &mut Actor,
    front: &mut Option<(Process, Stamped)>,
    from: Process,
    stamp: Stamp,
    message: Message<Snapshot>,
    next: Stamp,
    handed: &mut Handed,
) -> Option<Done>
    requires fits { Fits endpoint.old actor.old }
    requires goes_on { has_stopped actor.old ≡ false }
    requires settled { IsSettled endpoint.old }
    requires next { CanBeStamped endpoint.old (Hear from message) stamp next }
    requires front { front.old ≡ None }
    ensures fits { Fits endpoint.new actor.new }
    ensures stands { Stands endpoint.old actor.old (Some (from, (stamp, message))) []
        → Stands endpoint.new actor.new front.new (pending endpoint.new) }
    ensures did { IfSome result
        (λ done. Did endpoint.old actor.old endpoint.new actor.new (Hear from message) next done
        × (handed.new ≡ handed_by (Hear from message) (Ok done) handed.old)) }
    ensures kept { IfNone result (actor.new ≡ actor.old) }
    ensures books { IfNone result (SameBooks endpoint.old endpoint.new) }
    ensures same { SameEndpoint endpoint.old endpoint.new }
{
    let sender = from;
    match act(
        endpoint,
        actor,
        Input::Hear(sender, message),
        stamp,
        next,
        handed,
    ) {
        Ok(done) => Some(done),
        Err(ActFault::Memory) => {
            let Some(message) = handed.take_message() else {
                // A message that couldn't be heard is in `handed`.
                unreachable!();
            };
            drop(replace(front, handed_back(&from, stamp, message)));
            None
        }
        Err(ActFault::Refused(_)) => {
            // A process that hasn't stopped refuses no message.
            unreachable!();
        }
    }
}

// Returns a message that couldn't be heard, with its sender and timestamp.
fn handed_back(
    from: &Process,
    stamp: Stamp,
    message: Message<Snapshot>,
) -> Option<(Process, Stamped)>
    ensures { result ≡ Some (from.now, (stamp, message)) }
{
    Some((*from, (stamp, message)))
}
