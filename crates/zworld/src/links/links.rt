//! The channels.
//!
//! # Why
//!
//! The first channel is the last of the list: a process that has just received is mostly the next
//! to send, so channels come and go at the end. A channel is sought from the end, as mostly one or
//! two hold messages. Room is reserved before a message is put, so that no result has room for one.

ghost use Rattle.std.specs.Prelude.{◌≡◌, ◌≤◌, ◌<◌, true, false, [], IfNone, IfOk, OnErr, OnOk};
ghost use Rattle.std.specs.Prelude.{slice_index_or, vec_len};
ghost use Rattle.std.specs.List.{filter, insert, remove};
ghost use Rattle.zprotocol.specs.declared.message.Message.TheVariants.{Gone};
ghost use Rattle.zprotocol.specs.declared.process.Process.{Process};
ghost use Rattle.zprotocol.specs.declared.process.Process.TheVariants.{Master, Server};
ghost use Rattle.zprotocol.specs.declared.limits.TheConstants.{PROCESSES};
ghost use Rattle.zworld.specs.links.Places.{links_of, with_last, without_first, without_receiver, Keeps};
ghost use Rattle.zworld.specs.links.Places.{holds, IsFrontOf, ShowsFront, Between, At, Reaches};
ghost use Rattle.zworld.specs.links.Places.{has_notice, with_notice, notices_left, Notes};
ghost use Rattle.zworld.specs.links.support.Order.{is_for_others};

use crate::links::notices::Notices;
use crate::links::queue::Queue;
use crate::links::search::{find, next_turn};
use crate::links::turn::Turn;
use std::alloc::Global;
use std::marker::Model;
use zalloc::Memory;
use zprotocol::{Message, PROCESSES, Process, ServerId};

/// The channels between all processes: the queues of those with messages in flight, sorted by
/// sender and then by receiver, the first one last. Mostly there is one, and the list retains its
/// capacity. So a message that is sent and received needs no block.
///
/// A failure notice is stored apart, and comes after all that its server had sent. All are alike,
/// so one serves for all when a front is returned.
#[derive(Drop)]
pub struct Links<T> {
    queues: Vec<Queue<T>>,
    notices: Notices,
    shown: Message<T>,
    alloc: Global,
}

impl<T> Model for Links<T> {
    ghost use Rattle.zworld.specs.links.Places.{Channels};
    ghost use Rattle.std.specs.Prelude.{◌≡◌};
    ghost use Rattle.zprotocol.specs.declared.message.Message.TheVariants.{Gone};
    ghost use Rattle.zworld.specs.links.support.Order.{AreSorted};

    ghost Value = { Channels T };

    ghost view = { λ links. record { sent = links.queues.items; noted = links.notices } };

    ghost invariant = { λ links. AreSorted links.queues.items × (links.shown ≡ Gone) };
}

impl<T: Drop> Links<T> {
    /// Returns empty channels.
    pub fn new(alloc: Global) -> Result<Links<T>, Memory>
        ensures empty { IfOk result (λ links. (from to : Process) → links_of links from to ≡ []) }
        ensures notices { IfOk result (λ links. Notes links (λ p. false)) }
    {
        let queues = Vec::with_capacity(alloc, 1)?;
        Ok(Links {
            queues,
            notices: Notices::none(),
            shown: Message::Gone,
            alloc,
        })
    }

    /// Returns the first channel, from these positions on, with messages in flight: by senders, and
    /// for one sender by receivers. Where there is none, the sender is `PROCESSES`.
    #[inline(always)]
    pub fn next_turn(&self, from: usize, to: usize) -> Turn
        ensures few { (result.sender ≤ PROCESSES) × (result.receiver < PROCESSES) }
        ensures ahead { from < PROCESSES → Reaches from to result.sender result.receiver }
        ensures empty { Between from to result (λ p q. links_of self.now p q ≡ []) }
        ensures held { At result (λ p q. holds (links_of self.now p q) ≡ true) }
    {
        let next = next_turn(&self.queues, from, to);
        if self.notices.are_none() {
            return next;
        }
        self.notices.sooner(from, to, next)
    }

    /// Appends a message to a channel. A server that has sent its failure notice sends no more.
    #[inline(always)]
    pub fn put(&mut self, from: &Process, to: &Process, message: Message<T>) -> Result<(), Memory>
        requires { has_notice self.old from.now ≡ false }
        ensures put { OnOk result
            (Keeps self.new (with_last (links_of self.old) from.now to.now message)) }
        ensures same { OnErr result (Keeps self.new (links_of self.old)) }
        ensures notices { Notes self.new (has_notice self.old) }
    {
        let sender = from.place();
        let receiver = to.place();
        match find(&self.queues, sender, receiver) {
            Ok(at) => self.queues[at].put(message),
            Err(at) => {
                let queue = Queue::new(self.alloc, sender, receiver, message);
                insert_at(&mut self.queues, at, queue)
            }
        }
    }

    /// Appends the failure notice of a server to its channel to the master. It needs no memory.
    pub fn put_notice(&mut self, server: ServerId)
        requires { has_notice self.old (Server server) ≡ false }
        ensures put { Keeps self.new (with_last (links_of self.old) (Server server) Master Gone) }
        ensures notices { Notes self.new (with_notice self.old (Server server)) }
    {
        self.notices.put(server);
    }

    /// Returns the front of a channel, and leaves it there.
    pub fn front(&self, from: &Process, to: &Process) -> Option<&Message<T>>
        ensures { ShowsFront (links_of self.now from.now to.now) result }
    {
        let sender = from.place();
        let receiver = to.place();
        let Ok(at) = find(&self.queues, sender, receiver) else {
            if self.notices.is_between(from, to) {
                return Some(&self.shown);
            }
            return None;
        };
        Some(self.queues[at].front())
    }

    /// Removes the front of a channel and returns it.
    pub fn next(&mut self, from: &Process, to: &Process) -> Option<Message<T>>
        ensures rest { Keeps self.new (without_first (links_of self.old) from.now to.now) }
        ensures front { IsFrontOf (links_of self.old from.now to.now) result }
        ensures same { IfNone result (self.new ≡ self.old) }
        ensures notices { Notes self.new (notices_left self.old (links_of self.new)) }
    {
        let sender = from.place();
        let receiver = to.place();
        let Ok(at) = find(&self.queues, sender, receiver) else {
            if self.notices.take(from, to) {
                return Some(Message::Gone);
            }
            return None;
        };
        if let Some(front) = self.queues[at].next() {
            return Some(front);
        }
        let emptied = remove_at(&mut self.queues, at);
        Some(emptied.into_front())
    }

    /// Drops all messages on channels to a process.
    pub fn clear(&mut self, to: &Process)
        ensures cleared { Keeps self.new (without_receiver (links_of self.old) to.now) }
        ensures notices { Notes self.new (notices_left self.old (links_of self.new)) }
    {
        let receiver = to.place();
        keep_others(&mut self.queues, receiver);
        self.notices.clear(to);
    }
}

// Inserts a queue; or drops it, where memory runs out. Mostly it comes first, so it goes last, and
// nothing is moved.
#[inline(always)]
fn insert_at<T: Drop>(queues: &mut Vec<Queue<T>>, at: usize, queue: Queue<T>) -> Result<(), Memory>
    requires { at ≤ vec_len queues.old }
    ensures inserted { OnOk result (queues.new.items ≡ insert queues.old.items at queue) }
    ensures same { OnErr result (queues.new.items ≡ queues.old.items) }
{
    if at < queues.len() {
        return insert_between(queues, at, queue);
    }
    let Ok(()) = queues.reserve(1) else {
        drop(queue);
        return Err(Memory);
    };
    queues.push_reserved(queue);
    Ok(())
}

// The same, where others have to be moved.
#[cold]
#[inline(never)]
fn insert_between<T: Drop>(
    queues: &mut Vec<Queue<T>>,
    at: usize,
    queue: Queue<T>,
) -> Result<(), Memory>
    requires { at ≤ vec_len queues.old }
    ensures inserted { OnOk result (queues.new.items ≡ insert queues.old.items at queue) }
    ensures same { OnErr result (queues.new.items ≡ queues.old.items) }
{
    Ok(queues.insert(at, queue)?)
}

// Removes a queue and returns it. Mostly it is the last of the list, and nothing is moved.
#[inline(always)]
fn remove_at<T: Drop>(queues: &mut Vec<Queue<T>>, at: usize) -> Queue<T>
    requires { at < vec_len queues.old }
    ensures value { result ≡ slice_index_or queues.old.items at result }
    ensures items { queues.new.items ≡ remove queues.old.items at }
{
    if at + 1 < queues.len() {
        return queues.remove(at);
    }
    let Some(last) = queues.pop() else {
        unreachable!();
    };
    last
}

// Retains the queues to other receivers.
fn keep_others<T: Drop>(queues: &mut Vec<Queue<T>>, to: usize)
    ensures { queues.new.items ≡ filter (is_for_others to) queues.old.items }
{
    queues.retain(|queue| queue.to() != to);
}
