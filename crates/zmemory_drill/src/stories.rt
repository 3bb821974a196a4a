//! The stories of the parts of a server and of a client, by name.

use crate::applying::{
    create_is_applied, multi_is_applied, open_is_applied, removal_is_applied, retry_is_applied,
};
use crate::asking::{children_are_reported, machine_is_copied};
use crate::calling::{call_is_retried, config_is_taken, query_begins, update_begins};
use crate::joining::snapshot_is_taken;
use crate::marking::mark_is_set;
use crate::parsing::path_is_parsed;
use crate::restoring::{rows_are_loaded, rows_are_written};
use crate::serving::query_is_taken;
use crate::sharing::data_is_made;
use crate::story::{Taking, Word, reported};
use std::alloc::Global;
use std::io;
use std::io::Print;
use ztesting::{Ended, tell};

// What may be refused memory.
#[derive(Clone, Copy)]
enum Story {
    Parse,
    Data,
    Mark,
    ApplyCreate,
    ApplyMulti,
    ApplyOpen,
    ApplyRetry,
    ApplyRemoval,
    AskChildren,
    Copy,
    WriteRows,
    LoadRows,
    Take(Taking),
    TakeQuery,
    TakeSnapshot,
    BeginUpdate,
    BeginQuery,
    Config,
    Retry,
}

// A server's neighbours, what it received before, and what it receives.
const STORIES: &[(&str, Story)] = &[
    ("a path is parsed", Story::Parse),
    ("bytes become data", Story::Data),
    ("a store sets a mark", Story::Mark),
    ("a machine applies a create", Story::ApplyCreate),
    ("a machine applies a multi", Story::ApplyMulti),
    ("a machine applies an open", Story::ApplyOpen),
    ("a machine applies a call again", Story::ApplyRetry),
    ("a machine removes a node at a tick", Story::ApplyRemoval),
    ("a machine is asked for children", Story::AskChildren),
    ("a machine is copied", Story::Copy),
    ("a machine's rows are written", Story::WriteRows),
    ("a machine is loaded from rows", Story::LoadRows),
    (
        "the head takes a submit",
        Story::Take((0, 2, None, Word::Submit)),
    ),
    (
        "the only server takes a submit",
        Story::Take((0, 0, None, Word::Submit)),
    ),
    (
        "a server between takes an update",
        Story::Take((1, 3, None, Word::Update)),
    ),
    (
        "the tail takes an update",
        Story::Take((1, 0, None, Word::Update)),
    ),
    (
        "a server takes an ack",
        Story::Take((1, 3, Some(Word::Tick), Word::Ack)),
    ),
    ("the tail takes a query", Story::TakeQuery),
    (
        "a server takes a new predecessor",
        Story::Take((1, 3, Some(Word::Update), Word::NewPred)),
    ),
    (
        "a server takes a new successor",
        Story::Take((1, 3, Some(Word::Update), Word::NewSucc)),
    ),
    (
        "a server becomes the tail",
        Story::Take((1, 3, Some(Word::Update), Word::BecomeTail)),
    ),
    (
        "a server hands its state over",
        Story::Take((0, 0, Some(Word::Submit), Word::JoinedBy)),
    ),
    ("a server takes a snapshot", Story::TakeSnapshot),
    ("a client begins an update", Story::BeginUpdate),
    ("a client begins a query", Story::BeginQuery),
    ("a client takes a config", Story::Config),
    ("a client asks again", Story::Retry),
];

/// Runs these stories in order.
pub(crate) fn report_parts(rt: &impl Print, alloc: Global) -> io::Result<()> {
    for (name, story) in STORIES {
        tell(rt, name, ended(alloc, *story))?;
    }
    Ok(())
}

fn ended(alloc: Global, story: Story) -> Ended {
    match story {
        Story::Parse => path_is_parsed(alloc),
        Story::Data => data_is_made(alloc),
        Story::Mark => mark_is_set(alloc),
        Story::ApplyCreate => create_is_applied(alloc),
        Story::ApplyMulti => multi_is_applied(alloc),
        Story::ApplyOpen => open_is_applied(alloc),
        Story::ApplyRetry => retry_is_applied(alloc),
        Story::ApplyRemoval => removal_is_applied(alloc),
        Story::AskChildren => children_are_reported(alloc),
        Story::Copy => machine_is_copied(alloc),
        Story::WriteRows => rows_are_written(alloc),
        Story::LoadRows => rows_are_loaded(alloc),
        Story::Take(taking) => reported(alloc, &taking),
        Story::TakeQuery => query_is_taken(alloc),
        Story::TakeSnapshot => snapshot_is_taken(alloc),
        Story::BeginUpdate => update_begins(alloc),
        Story::BeginQuery => query_begins(alloc),
        Story::Config => config_is_taken(alloc),
        Story::Retry => call_is_retried(alloc),
    }
}
