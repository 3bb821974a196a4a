//! Texts with passwords of sessions among their records, as in old folders: the passwords have no
//! effect.

use crate::folder::states::{WORKED, add_lines, snapshot_of};
use crate::folder::texts::is_there;
use std::alloc::Global;
use std::process::Abort;
use zcalls::Update;
use zpasswords::Password;
use zsnapshots::folder::{ReadFault, read};
use zwire::records::{Record, write_records};

// Appends the line of a record.
fn add(rt: &impl Abort, alloc: Global, it: Record, text: &mut Vec<u8>) {
    let records = vec![in alloc; it].expect(rt, "there is memory");
    write_records(alloc, &records, text).expect(rt, "there is memory");
}

// Appends the line of a password.
fn add_password(rt: &impl Abort, alloc: Global, text: &mut Vec<u8>) {
    add(rt, alloc, Record::Password(Password::new([7; 16])), text);
}

#[test]
fn passwords_behind_a_snapshot_say_nothing(rt: HostRuntime) {
    let alloc = rt.alloc();
    let mut text = snapshot_of(&rt, alloc, WORKED);
    add_password(&rt, alloc, &mut text);
    let long = text.len();
    add_password(&rt, alloc, &mut text);
    add(&rt, alloc, Record::Update(Update::Open(3)), &mut text);
    add_lines(&rt, alloc, &["0 tick"], &mut text);
    let found = read(alloc, &text).expect(&rt, "the text keeps a tree");
    assert!(rt; found.had_passwords);
    assert!(rt; long <= found.snapshot);
    assert!(rt; is_there(&rt, &found.tree, 2, &[2, 6]));
    drop(found);
}

#[test]
fn a_password_in_front_of_an_open_says_nothing(rt: HostRuntime) {
    let alloc = rt.alloc();
    let mut text = Vec::new(alloc);
    add_password(&rt, alloc, &mut text);
    add(&rt, alloc, Record::Update(Update::Open(3)), &mut text);
    let found = read(alloc, &text).expect(&rt, "the text keeps a tree");
    assert!(rt; found.had_passwords);
    assert!(rt; found.snapshot == 0);
    assert!(rt; is_there(&rt, &found.tree, 0, &[1]));
    drop(found);
}

#[test]
fn a_row_behind_an_entry_is_refused(rt: HostRuntime) {
    let alloc = rt.alloc();
    let mut text = Vec::new(alloc);
    add_lines(&rt, alloc, &["0 tick"], &mut text);
    let rows = snapshot_of(&rt, alloc, WORKED);
    text.extend_from_slice(&rows).expect(&rt, "there is memory");
    assert!(rt; read(alloc, &text).err() == Some(ReadFault::NotRecords));
}
