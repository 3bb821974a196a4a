//! The list of outgoing messages.

ghost use Rattle.std.specs.Prelude.{◌≡◌, ◌+◌, ◌<◌, ◌≤◌, [], ◌∷◌, ◌++◌, IfErr, IfNone, IfSome, IsOk, OnErr, OnOk};

use crate::{Message, Process};
use std::alloc::Global;
use std::collections::VecDeque;
use std::marker::Model;
use zalloc::Memory;

/// The outgoing messages, each with its receiver, and the room reserved for more.
#[derive(Drop)]
pub struct Out<T> {
    posts: VecDeque<(Process, Message<T>)>,
}

impl<T> Model for Out<T> {
    ghost use Rattle.std.specs.Prelude.{◌-◌};
    ghost use Rattle.std.specs.VecDeque.{deque_len, deque_capacity};
    ghost use Rattle.zprotocol.specs.Posts.{OutView};

    ghost Value = { OutView T };

    ghost view = { λ out. record {
      posts = out.posts.items;
      room = deque_capacity out.posts - deque_len out.posts;
    } };
}

impl<T: Drop> Out<T> {
    /// Returns an empty list. Allocates nothing.
    pub fn new(alloc: Global) -> Out<T>
        ensures { result.posts ≡ [] }
    {
        Out {
            posts: VecDeque::new(alloc),
        }
    }

    /// Reserves room, so that the next `count` messages can't be refused. `Memory` is returned only
    /// if there was too little room.
    pub fn reserve(&mut self, count: usize) -> Result<(), Memory>
        ensures posts { self.new.posts ≡ self.old.posts }
        ensures enough { OnOk result (count ≤ self.new.room) }
        ensures kept { self.old.room ≤ self.new.room }
        ensures needed { OnErr result (self.old.room < count) }
    {
        self.posts.reserve(count)?;
        Ok(())
    }

    /// Appends a message. Returns it as the error for out of memory.
    pub fn put(&mut self, receiver: Process, message: Message<T>) -> Result<(), Message<T>>
        ensures put { OnOk result (self.new.posts ≡ self.old.posts ++ (receiver, message) ∷ []) }
        ensures back { IfErr result (λ back. back ≡ message) }
        ensures same { OnErr result (self.new.posts ≡ self.old.posts) }
        ensures reserved { 0 < self.old.room → IsOk result }
        ensures room { self.old.room ≤ self.new.room + 1 }
    {
        match self.posts.push_back((receiver, message)) {
            Ok(()) => Ok(()),
            Err(refused) => Err(refused.value.1),
        }
    }

    /// Appends a message within the reserved room. Inlined, so that a message is built in its slot.
    #[inline(always)]
    pub fn put_reserved(&mut self, receiver: Process, message: Message<T>)
        requires { 0 < self.old.room }
        ensures put { self.new.posts ≡ self.old.posts ++ (receiver, message) ∷ [] }
        ensures room { self.new.room + 1 ≡ self.old.room }
    {
        self.posts.push_back_reserved((receiver, message));
    }

    /// Removes and returns the first message with its receiver, or `None` if the list is empty. The
    /// cost doesn't depend on the list's length. The freed room can be used again.
    pub fn next(&mut self) -> Option<(Process, Message<T>)>
        ensures none { IfNone result (self.old.posts ≡ []) }
        ensures same { IfNone result (self.new ≡ self.old) }
        ensures first { IfSome result (λ first. self.old.posts ≡ first ∷ self.new.posts) }
        ensures room { IfSome result (λ _. self.old.room + 1 ≡ self.new.room) }
    {
        self.posts.pop_front()
    }
}
