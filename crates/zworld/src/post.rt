//! What becomes of what a process sends, and of a process that stops.

ghost use Rattle.std.specs.Prelude.{◌≡◌, [], false, OnOk, length};
ghost use Rattle.zprotocol.specs.declared.limits.TheConstants.{PROCESSES};
ghost use Rattle.zworld.specs.links.Places.{has_notice, Notes};
ghost use Rattle.zworld.specs.support.Posting.{is_lost, waiting_after};
ghost use Rattle.zworld.specs.support.Posting.{CanCount, CanEnd, HasEnded, IsPosted};

use crate::links::Links;
use std::alloc::Global;
use zactor::{Actor, Done};
use zalloc::Memory;
use zprotocol::{Out, Process};
use zserver::Snapshot;

/// Returns whether a process has stopped for good, which only a server does.
pub(crate) fn is_lost(actors: &[Actor], process: &Process) -> bool
    requires { length actors.now ≡ PROCESSES }
    ensures { result ≡ is_lost actors.now process.now }
{
    match process {
        Process::Server(_) => actors[process.place()].has_stopped(),
        _ => false,
    }
}

/// Sends the messages of the list from a process, in order; those to servers that have stopped are
/// dropped. The list is empty afterwards, even where memory ran out.
pub(crate) fn post(
    alloc: Global,
    links: &mut Links<Snapshot>,
    actors: &[Actor],
    from: &Process,
    out: &mut Out<Snapshot>,
) -> Result<(), Memory>
    requires all { length actors.now ≡ PROCESSES }
    requires goes_on { has_notice links.old from.now ≡ false }
    ensures posted { OnOk result
        (IsPosted actors.now links.old from.now out.old.posts links.new) }
    ensures emptied { out.new.posts ≡ [] }
    ensures notices { Notes links.new (has_notice links.old) }
{
    while let Some((to, message)) = out.next() {
        if is_lost(actors, &to) {
            drop(message);
        } else {
            let Ok(()) = links.put(from, &to, message) else {
                *out = Out::new(alloc);
                return Err(Memory);
            };
        }
    }
    Ok(())
}

/// A server has stopped: it sends its failure notice, and what is on channels to it is dropped.
#[cold]
#[inline(never)]
pub(crate) fn end(links: &mut Links<Snapshot>, process: &Process)
    requires { CanEnd links.old process.now }
    ensures { HasEnded links.old links.new process.now }
{
    let Process::Server(server) = process else {
        unreachable!();
    };
    links.put_notice(*server);
    links.clear(process);
}

/// Returns how many clients wait, where as many waited before.
pub(crate) fn waiting_after(waiting: usize, done: &Done) -> usize
    requires { CanCount waiting done.now }
    ensures { result ≡ waiting_after waiting done.now }
{
    match done {
        Done::Began(_) => waiting + 1,
        Done::Answered(_) => waiting - 1,
        Done::Acted | Done::Unheard | Done::Stopped | Done::Left => waiting,
    }
}
