//! What the tests share: lines are played on a machine, and each answer is compared.

use std::alloc::Global;
use std::process::Abort;
use zops::{Call, CallNumber, ClientId, Entry, MAX_APPLIED, Machine, Query, Reply, Update};
use zscript_text::{Line, Request, read_line, write_reply};

/// Lines of calls, each with its answer.
pub type Row = &'static [(&'static str, &'static str)];

/// Lines of calls, each preceded by the number of its entry and followed by its answer, which is
/// empty where there is no reply.
pub type Entries = &'static [(u64, &'static str, &'static str)];

/// Plays rows, each on a machine of its own.
pub(crate) fn plays_rows(rt: &impl Abort, alloc: Global, rows: &[Row]) {
    for row in rows {
        let mut machine = machine(rt, alloc);
        plays_more(rt, alloc, &mut machine, row);
        drop(machine);
    }
}

/// Returns a new machine.
pub(crate) fn machine(rt: &impl Abort, alloc: Global) -> Machine {
    Machine::new(alloc).expect(rt, "there is memory")
}

/// Plays the lines of a row on a machine.
pub(crate) fn plays_more(rt: &impl Abort, alloc: Global, machine: &mut Machine, row: Row) {
    for (line, want) in row {
        plays(rt, alloc, machine, line, want);
    }
}

/// Plays a line, as the next entry of the machine where it is an update, and compares the answer.
pub(crate) fn plays(rt: &impl Abort, alloc: Global, machine: &mut Machine, line: &str, want: &str) {
    let next = machine.applied() + 1;
    enters(rt, alloc, machine, next, line, want);
}

/// Plays entries, each of the client that its line names.
pub(crate) fn plays_entries(
    rt: &impl Abort,
    alloc: Global,
    machine: &mut Machine,
    entries: Entries,
) {
    for (number, line, want) in entries {
        enters(rt, alloc, machine, *number, line, want);
    }
}

// Plays a line, an update as the entry of this number, and compares the answer.
fn enters(
    rt: &impl Abort,
    alloc: Global,
    machine: &mut Machine,
    number: u64,
    line: &str,
    want: &str,
) {
    let text = answer(rt, alloc, machine, number, request(rt, alloc, line));
    same(rt, line, &text, want);
    drop(text);
}

/// Compares the text at a position.
pub(crate) fn same(rt: &impl Abort, place: &str, text: &str, want: &str) {
    assert!(rt; text == want, "{place}: {text}, not {want}");
}

// Returns the call that a line asks for.
fn request(rt: &impl Abort, alloc: Global, line: &str) -> Request {
    match read_line(alloc, line.as_bytes()) {
        Ok(Line::Call(request)) => request,
        _ => panic!(rt; "a line asks for a call"),
    }
}

// Returns the text of a call's answer.
fn answer(
    rt: &impl Abort,
    alloc: Global,
    machine: &mut Machine,
    number: u64,
    request: Request,
) -> String {
    let Request { client, call } = request;
    match call {
        Call::Update(update) => apply(rt, alloc, machine, client, number, update),
        Call::Query(query) => ask(rt, alloc, machine, query),
    }
}

fn apply(
    rt: &impl Abort,
    alloc: Global,
    machine: &mut Machine,
    client: ClientId,
    number: u64,
    update: Update,
) -> String {
    assert!(rt; machine.applied() < MAX_APPLIED);
    let entry = Entry {
        client,
        number: CallNumber::new(number).expect(rt, "there is such a number"),
        update,
    };
    let reply = machine.apply(&entry).expect(rt, "there is memory");
    drop(entry);
    match reply {
        Some(reply) => text_of(rt, alloc, reply),
        None => String::new(alloc),
    }
}

fn ask(rt: &impl Abort, alloc: Global, machine: &Machine, query: Query) -> String {
    let reply = machine.ask(&query).expect(rt, "there is memory");
    drop(query);
    text_of(rt, alloc, reply)
}

fn text_of(rt: &impl Abort, alloc: Global, reply: Reply) -> String {
    let mut text = String::new(alloc);
    write_reply(&reply, &mut text).expect(rt, "there is memory");
    drop(reply);
    text
}
