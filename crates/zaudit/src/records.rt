//! Clients' records compared with a history.

ghost use Rattle.std.specs.Prelude.{◌≡◌, true, false};
ghost use Rattle.zprotocol.specs.traces.Traces.{reported_of, AgreesWithRecords};
ghost use Rattle.zprotocol.specs.traces.Traces as traces_of;
ghost use Rattle.zaudit.specs.support.Findings.{DiffersFromRecord};

use crate::sameness::is_same_event;
use zprotocol::traces::Traces;
use zprotocol::world::CallEvent;

// Returns whose event it is.
fn client_of(event: &CallEvent) -> u8
    ensures { result ≡ traces_of.client_of event.now }
{
    match event {
        CallEvent::Begin(client, _, _) => client.number(),
        CallEvent::Answer(client, _, _) => client.number(),
    }
}

// Returns whether the history has exactly the record's events of the client.
fn reports(history: &[CallEvent], client: u8, seen: &[CallEvent]) -> bool
    ensures yes { result ≡ true → reported_of client history.now ≡ seen.now }
    ensures no { result ≡ false → reported_of client history.now ≡ seen.now → ⊥ }
{
    let mut at = 0;
    for event in history {
        if client_of(event) == client {
            if at == seen.len() {
                return false;
            }
            if !is_same_event(event, &seen[at]) {
                return false;
            }
            at += 1;
        }
    }
    at == seen.len()
}

/// Returns whether the history has, of each client, exactly the events of its record.
pub(crate) fn agree(traces: &Traces, history: &[CallEvent]) -> bool
    ensures yes { result ≡ true → AgreesWithRecords traces.now history.now }
    ensures no { result ≡ false → DiffersFromRecord traces.now history.now }
{
    for place in 0..traces.clients.len() {
        if !reports(history, place as u8, &traces.clients[place].record) {
            return false;
        }
    }
    true
}
