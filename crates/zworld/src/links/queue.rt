//! The messages on one channel.

ghost use Rattle.std.specs.Prelude.{◌≡◌, ◌<◌, [], ◌∷◌, ◌++◌, IfNone, IfSome, OnErr, OnOk};
ghost use Rattle.zprotocol.specs.declared.limits.TheConstants.{PROCESSES};
ghost use Rattle.zworld.specs.links.Places.{is_between};
ghost use Rattle.zworld.specs.links.support.Order.{is_before, longer};

use crate::links::turn::Turn;
use std::alloc::Global;
use std::collections::VecDeque;
use std::marker::Model;
use std::mem::replace;
use zalloc::Memory;
use zprotocol::Message;

/// The messages in flight from one process to another, by the positions of the two. There is always
/// one, the front, and mostly no other. So the front is stored in the queue itself, and needs no
/// block.
#[derive(Drop)]
pub(crate) struct Queue<T> {
    from: usize,
    to: usize,
    front: Message<T>,
    others: VecDeque<Message<T>>,
}

impl<T> Model for Queue<T> {
    ghost use Rattle.std.specs.Prelude.{◌<◌};
    ghost use Rattle.zprotocol.specs.declared.limits.TheConstants.{PROCESSES};
    ghost use Rattle.zworld.specs.links.Places.{Channel};

    ghost Value = { Channel T };

    ghost view = { λ queue. record {
      from = queue.from;
      to = queue.to;
      front = queue.front;
      others = queue.others.items;
    } };

    ghost invariant = { λ queue. (queue.from < PROCESSES) × (queue.to < PROCESSES) };
}

impl<T: Drop> Queue<T> {
    /// Returns a queue of one message. It allocates nothing.
    pub(crate) fn new(alloc: Global, from: usize, to: usize, front: Message<T>) -> Queue<T>
        requires from { from < PROCESSES }
        requires to { to < PROCESSES }
        ensures { result ≡ record { from = from; to = to; front = front; others = [] } }
    {
        Queue {
            from,
            to,
            front,
            others: VecDeque::new(alloc),
        }
    }

    /// Returns its positions.
    pub(crate) fn turn(&self) -> Turn
        ensures places { (result.sender ≡ self.now.from) × (result.receiver ≡ self.now.to) }
        ensures small { (result.sender < PROCESSES) × (result.receiver < PROCESSES) }
    {
        Turn {
            sender: self.from,
            receiver: self.to,
        }
    }

    /// Returns the position of the receiver.
    pub(crate) fn to(&self) -> usize
        ensures { result ≡ self.now.to }
    {
        self.to
    }

    /// Returns whether it is the queue between these positions.
    pub(crate) fn is_between(&self, from: usize, to: usize) -> bool
        ensures { result ≡ is_between self.now from to }
    {
        self.from == from && self.to == to
    }

    /// Returns whether it comes before a queue between these positions: by the senders, and for one
    /// sender by the receivers.
    pub(crate) fn is_before(&self, from: usize, to: usize) -> bool
        ensures { result ≡ is_before self.now from to }
    {
        if self.from == from {
            self.to < to
        } else {
            self.from < from
        }
    }

    /// Appends a message.
    pub(crate) fn put(&mut self, message: Message<T>) -> Result<(), Memory>
        ensures places { (self.new.from ≡ self.old.from) × (self.new.to ≡ self.old.to) }
        ensures put { OnOk result (self.new ≡ longer self.old message) }
        ensures same { OnErr result (self.new ≡ self.old) }
    {
        match self.others.push_back(message) {
            Ok(()) => Ok(()),
            Err(refused) => {
                drop(refused);
                Err(Memory)
            }
        }
    }

    /// Returns the front, and leaves it there.
    pub(crate) fn front(&self) -> &Message<T>
        ensures { result.now ≡ self.now.front }
    {
        &self.front
    }

    /// Removes the front and returns it, unless it is the only message.
    pub(crate) fn next(&mut self) -> Option<Message<T>>
        ensures places { (self.new.from ≡ self.old.from) × (self.new.to ≡ self.old.to) }
        ensures more { IfSome result (λ front. (front ≡ self.old.front)
            × (self.old.others ≡ self.new.front ∷ self.new.others)) }
        ensures only { IfNone result ((self.old.others ≡ []) × (self.new ≡ self.old)) }
    {
        let second = self.others.pop_front()?;
        Some(replace(&mut self.front, second))
    }

    /// Returns the front, which is the only message.
    #[inline(always)]
    pub(crate) fn into_front(self) -> Message<T>
        ensures { result ≡ self.front }
    {
        let Queue { front, .. } = self;
        front
    }
}
