//! Machines that calls come to, and their rows.

ghost use Rattle.std.specs.Prelude.{◌≡◌, false};

use std::alloc::Global;
use std::process::Abort;
use zcalls::{Call, CallNumber, Entry};
use zops::{MAX_APPLIED, Machine};
use zscript_text::{Line, Request, read_line};
use zsnapshots::Writing;

/// More rows than any state here has.
pub(crate) const MANY: usize = 100;

/// Sessions of three clients, with nodes of each kind, one of them below another.
pub(crate) const SESSIONS: &[&str] = &[
    "1 open 100",
    "3 open 20000",
    "0 tick",
    "31 open 3",
    "1 create /a p aGk=",
    "1 create /a/e e:1 -",
    "3 create /a/n- es:2 eA==",
    "3 create /a/n- ps -",
    "1 create /a/b p -",
    "31 create /a/b/t t:7 aGk=",
    "31 create /c ts:1048576 -",
    "0 tick",
    "1 ping 1",
    "3 set /a/b any aGVsbG8=",
    "1 delete /a/n-0000000001 any",
];

/// Replies of each kind, each of another client, refusals among them.
pub(crate) const REPLIES: &[&str] = &[
    "1 create /a p -",
    "2 set /a 0 aGk=",
    "3 multi create /b p - ; set /a any - ; check /b 0 ; delete /b any",
    "4 multi check /a any ; delete /none any",
    "5 delete /a/b any",
    "6 open 5",
    "7 open 6",
    "6 create /e e:4 -",
    "0 tick",
    "7 ping 5",
    "8 close 5",
    "9 delete /a any",
    "31 set /none any -",
];

/// Ten nodes, with a session and some replies.
pub(crate) const TEN: &[&str] = &[
    "1 open 9",
    "1 create /a p aGk=",
    "1 create /a/b p -",
    "1 create /a/b/c p aGVsbG8=",
    "1 create /a-b p -",
    "2 create /a/e e:1 eA==",
    "1 create /a/e e:1 eA==",
    "1 create /s- ps -",
    "1 create /s- es:1 -",
    "2 create /t t:5 -",
    "2 create /t/u p -",
    "3 create /z p -",
];

/// Returns the machine that comes of these updates, each a call of its client.
pub(crate) fn machine(rt: &impl Abort, alloc: Global, lines: &[&str]) -> Machine
    ensures { result.is_broken ≡ false }
{
    let mut machine = Machine::new(alloc).expect(rt, "there is memory");
    for line in lines {
        apply(rt, alloc, &mut machine, line);
    }
    machine
}

// Applies the update of a line.
fn apply(rt: &impl Abort, alloc: Global, machine: &mut Machine, line: &str)
    ensures { machine.new.is_broken ≡ false }
{
    assert!(rt; machine.applied() < MAX_APPLIED);
    let number = machine.applied() + 1;
    let entry = entry(rt, alloc, number, line);
    let reply = machine.apply(&entry).expect(rt, "there is memory");
    drop(entry);
    assert!(rt; reply.is_some(), "{line}");
    drop(reply);
}

// Returns the update of a line, with this number.
fn entry(rt: &impl Abort, alloc: Global, number: u64, line: &str) -> Entry {
    let Ok(Line::Call(request)) = read_line(alloc, line.as_bytes()) else {
        panic!(rt; "a line is a call: {line}")
    };
    let Request { client, call } = request;
    let Call::Update(update) = call else {
        panic!(rt; "a line is an update: {line}")
    };
    Entry {
        client,
        number: CallNumber::new(number).expect(rt, "there is such a number"),
        update,
    }
}

/// Returns the rows of a machine.
pub(crate) fn rows(rt: &impl Abort, alloc: Global, machine: &Machine) -> Vec<Vec<u8>>
    requires { machine.now.is_broken ≡ false }
{
    let writing = Writing::new(alloc, machine).expect(rt, "there is memory");
    all_rows(rt, alloc, writing)
}

/// Returns the rows of its tree alone.
pub(crate) fn tree_rows(rt: &impl Abort, alloc: Global, machine: &Machine) -> Vec<Vec<u8>>
    requires { machine.now.is_broken ≡ false }
{
    let writing = Writing::of_tree(alloc, machine).expect(rt, "there is memory");
    all_rows(rt, alloc, writing)
}

fn all_rows(rt: &impl Abort, alloc: Global, mut writing: Writing) -> Vec<Vec<u8>> {
    let mut rows = Vec::new(alloc);
    for _ in 0..MANY {
        let mut row = Vec::new(alloc);
        if !writing.write_next(&mut row).expect(rt, "there is memory") {
            break;
        }
        rows.push(row).expect(rt, "there is memory");
    }
    assert!(rt; rows.len() < MANY);
    rows
}

/// Returns all bytes of these rows.
pub(crate) fn joined(rt: &impl Abort, alloc: Global, rows: &[Vec<u8>]) -> Vec<u8> {
    let mut text = Vec::new(alloc);
    for row in rows {
        text.extend_from_slice(row).expect(rt, "there is memory");
    }
    text
}
