//! The texts of a line's answer.

ghost use Rattle.std.specs.Prelude.{◌≡◌, ◌++◌, OnOk};
ghost use Rattle.std.specs.List.{flat_map};
ghost use Rattle.zscript_text.specs.Texts.{Writes};
ghost use Rattle.zscript.specs.Line.{order_fault_name, settled_text};
ghost use Rattle.zscript.specs.Line.{taken_text, is_answer_to};
ghost use Rattle.zscript.specs.support.Effects.{cause_text, did_text, begun_text, called_text};
ghost use Rattle.zscript.specs.support.Effects.{WritesFault, taken_lines, own_call};

use zalloc::Memory;
use zcalls::{CallNumber, ClientId};
use zprotocol::world::{CallEvent, Settled};
use zprotocol::{BeginFault, OrderFault};
use zscript_text::{LineFault, write_reply};
use zworld::{Did, IdleCause};

// A call, by its client and that client's number of it.
type Own = Option<(ClientId, CallNumber)>;

/// Writes why a line was refused, unless it was out of memory.
pub(crate) fn write_fault(fault: LineFault, out: &mut String) -> Result<(), Memory>
    ensures { OnOk result (WritesFault fault out.old out.new) }
{
    match fault {
        LineFault::BadLine => out.push_str("bad line")?,
        LineFault::BadPath(fault) => write!(out, "bad path {fault}")?,
        LineFault::BadData => out.push_str("bad data")?,
        LineFault::Memory => return Err(Memory),
    }
    Ok(())
}

/// Writes the responses that clients received at an event, and what became of the event.
pub(crate) fn write_did(did: Did, history: &[CallEvent], out: &mut String) -> Result<(), Memory>
    ensures { OnOk result (Writes out.old out.new (taken_lines history.now ++ did_text did)) }
{
    write_taken(history, &None, out)?;
    if let Did::Idle(cause) = did {
        return write_cause(cause, out);
    }
    out.push_str("done")?;
    Ok(())
}

/// Writes whether a call was invoked, or why not.
pub(crate) fn write_begun(did: Did, out: &mut String) -> Result<(), Memory>
    ensures { OnOk result (Writes out.old out.new (begun_text did)) }
{
    if let Did::Idle(cause) = did {
        return write_cause(cause, out);
    }
    out.push_str("begun")?;
    Ok(())
}

/// Writes the responses that clients received while the world settled, and how that ended.
pub(crate) fn write_settled(
    settled: Settled,
    history: &[CallEvent],
    out: &mut String,
) -> Result<(), Memory>
    ensures { OnOk result
        (Writes out.old out.new (taken_lines history.now ++ settled_text settled)) }
{
    write_taken(history, &None, out)?;
    match settled {
        Settled::Quiet => out.push_str("quiet")?,
        Settled::Limit => out.push_str("limit")?,
    }
    Ok(())
}

/// Writes the responses that clients received after a call was invoked. Then comes the reply to
/// that call, the first of the history, or that there is none.
pub(crate) fn write_called(history: &[CallEvent], out: &mut String) -> Result<(), Memory>
    ensures { OnOk result (Writes out.old out.new (called_text history.now)) }
{
    let own = own_call(history);
    write_taken(history, &own, out)?;
    for event in history {
        let CallEvent::Answer(client, number, reply) = event else {
            continue;
        };
        if is_answer_to(&own, client, number) {
            return write_reply(reply, out);
        }
    }
    out.push_str("unanswered")?;
    Ok(())
}

/// Writes why an event didn't happen.
pub(crate) fn write_cause(cause: IdleCause, out: &mut String) -> Result<(), Memory>
    ensures { OnOk result (Writes out.old out.new (cause_text cause)) }
{
    match cause {
        IdleCause::Nothing => out.push_str("idle")?,
        IdleCause::Begin(BeginFault::Busy) => out.push_str("busy")?,
        IdleCause::Begin(BeginFault::Exhausted) => out.push_str("no Numbers")?,
        IdleCause::Begin(BeginFault::Memory) => return Err(Memory),
        IdleCause::Order(fault) => {
            out.push_str("no ")?;
            out.push_str(order_fault_name(fault))?;
        }
    }
    Ok(())
}

// Returns the name of a fault of an order.
fn order_fault_name(fault: OrderFault) -> &'static str
    ensures { result.now ≡ order_fault_name fault }
{
    match fault {
        OrderFault::Used => "Used",
        OrderFault::NotMember => "NotMember",
        OrderFault::Joining => "Joining",
        OrderFault::NoChain => "NoChain",
        OrderFault::Lost => "Lost",
        OrderFault::Last => "Last",
        OrderFault::Retiring => "Retiring",
    }
}

// Returns the call that a history begins with.
fn own_call(history: &[CallEvent]) -> Own
    ensures { result ≡ own_call history.now }
{
    match history.first() {
        Some(CallEvent::Begin(client, number, _)) => Some((*client, *number)),
        _ => None,
    }
}

// Writes the responses that clients received, each as a line, except the one to the line's own
// call. Invocations are not written.
fn write_taken(history: &[CallEvent], own: &Own, out: &mut String) -> Result<(), Memory>
    ensures { OnOk result (Writes out.old out.new (flat_map (taken_text own.now) history.now)) }
{
    for event in history {
        let CallEvent::Answer(client, number, reply) = event else {
            continue;
        };
        if is_answer_to(own, client, number) {
            continue;
        }
        write!(out, "c{} ", client.number())?;
        write_reply(reply, out)?;
        out.push('\n')?;
    }
    Ok(())
}

// Returns whether a client's response with this number is the one to this call.
fn is_answer_to(own: &Own, client: &ClientId, number: &CallNumber) -> bool
    ensures { result ≡ is_answer_to own.now client.now number.now }
{
    match own {
        Some((own_client, own_number)) => own_client == client && own_number == number,
        None => false,
    }
}
