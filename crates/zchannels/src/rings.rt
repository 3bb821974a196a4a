//! The two ends of a channel.
//!
//! # Why
//!
//! `put` moves a message straight into the ring if no other waits, and an empty channel costs one
//! look. `put_last` has a slot of its own, which no `put` can take: a server's failure notice needs
//! no memory. A message is any type, so a refused `put` returns the timestamp too.
ghost use Rattle.std.specs.Prelude.{◌≡◌, ◌≢◌, ◌<◌, ◌++◌, [], ◌∷◌, length, option_to_list};
ghost use Rattle.std.specs.Prelude.{IfErr, IfOk, IfSome, IsFalse, IsOk, IsTrue, OnErr, OnOk};
ghost use mathlib.Core.List.{IsPrefix};
ghost use Rattle.zchannels.specs.Rings.{AreEnds, HasLastPlace, in_ring, IsAllThere, IsFlushed, put_of};
ghost use Rattle.zchannels.specs.Rings.{ring_of_rx, ring_of_tx, taken_of, waiting};
ghost use Rattle.zchannels.specs.declared.rings.TheConstants.{RING};

use rtrb::{Consumer, Producer, PushError, RingBuffer};
use std::alloc::{AllocFailed, Global};
use std::collections::VecDeque;
use zalloc::Memory;

/// The capacity of the ring, in messages. Only memory bounds the outbox.
pub const RING: usize = 64;

/// The limit is this number.
pub fn limits_are_numbers()
    ensures ring { RING ≡ 64 }
{}

/// The sending end. It has a slot for one last message, which then takes no memory.
#[derive(Drop)]
pub struct Tx<M: Drop> {
    pub(crate) outbox: VecDeque<M>,
    pub(crate) last: Option<M>,
    pub(crate) ring: Producer<M>,
}

/// The receiving end.
#[derive(Drop)]
pub struct Rx<M: Drop> {
    pub(crate) ring: Consumer<M>,
}

/// Returns the two ends of an empty channel. The only error is out of memory.
pub fn link<M: Drop>(alloc: Global) -> Result<(Tx<M>, Rx<M>), Memory>
    ensures ends { IfOk result (λ r. AreEnds r.0 r.1) }
    ensures empty { IfOk result (λ r. (put_of r.0 ≡ []) × (taken_of r.1 ≡ [])) }
    ensures place { IfOk result (λ r. HasLastPlace r.0) }
{
    let (producer, consumer) = RingBuffer::new(alloc, RING)?;
    let outbox = VecDeque::new(alloc);
    Ok((
        Tx {
            outbox,
            last: None,
            ring: producer,
        },
        Rx { ring: consumer },
    ))
}

impl<M: Drop> Tx<M> {
    /// Sends a message: it goes into the ring, or waits in the outbox for a flush, if others wait
    /// there or the ring is full. Returns it if there is no memory, or if a last message waits.
    pub fn put(&mut self, message: M) -> Result<(), M>
        ensures ok { OnOk result (put_of self.new ≡ put_of self.old ++ message ∷ []) }
        ensures err { IfErr result (λ m. (m ≡ message) × (put_of self.new ≡ put_of self.old)) }
        ensures ends { ring_of_tx self.new ≡ ring_of_tx self.old }
        ensures before_last { OnOk result (HasLastPlace self.old) }
        ensures waits { OnErr result (waiting self.new ≡ waiting self.old) }
        ensures place { HasLastPlace self.old → HasLastPlace self.new }
        ensures flushed { IsFlushed self.old → IsFlushed self.new }
    {
        if self.last.is_some() {
            return Err(message);
        }
        if self.outbox.is_empty() {
            if !self.ring.is_full() {
                self.ring.push_reserved(message);
                return Ok(());
            }
        }
        match self.outbox.push_back(message) {
            Ok(()) => Ok(()),
            Err(AllocFailed { value }) => Err(value),
        }
    }

    /// Sends a last message, or returns it if one waits already. It takes no memory.
    pub fn put_last(&mut self, message: M) -> Result<(), M>
        ensures ok { OnOk result (put_of self.new ≡ put_of self.old ++ message ∷ []) }
        ensures err { IfErr result (λ m. (m ≡ message) × (put_of self.new ≡ put_of self.old)) }
        ensures ends { ring_of_tx self.new ≡ ring_of_tx self.old }
        ensures place { HasLastPlace self.old → IsOk result }
        ensures one { OnOk result (HasLastPlace self.old) }
        ensures waits { OnErr result (waiting self.new ≡ waiting self.old) }
    {
        if self.last.is_some() {
            return Err(message);
        }
        self.last = Some(message);
        Ok(())
    }

    /// Moves messages from the outbox into the ring while it has room, then the last message.
    /// What still waits found no free slot. Returns whether any was moved.
    pub fn flush(&mut self) -> bool
        ensures moved { IsTrue result → length (waiting self.new) < length (waiting self.old) }
        ensures still { IsFalse result → waiting self.new ≡ waiting self.old }
        ensures flushed { IsFlushed self.new }
        ensures put { put_of self.new ≡ put_of self.old }
        ensures ends { ring_of_tx self.new ≡ ring_of_tx self.old }
        ensures place { HasLastPlace self.old → HasLastPlace self.new }
    {
        let mut is_moved = false;
        while !self.ring.is_full() {
            let Some(message) = self.outbox.pop_front() else {
                is_moved |= self.flush_last();
                return is_moved;
            };
            self.ring.push_reserved(message);
            is_moved = true;
        }
        is_moved
    }

    /// Returns whether a message waits before the ring.
    pub fn has_waiting(&self) -> bool
        ensures none { IsFalse result → waiting self.now ≡ [] }
        ensures some { IsTrue result → waiting self.now ≢ [] }
    {
        !self.outbox.is_empty() || self.last.is_some()
    }

    // Moves the last message into the ring, if it has room. The outbox is empty. Returns whether
    // it was moved.
    fn flush_last(&mut self) -> bool
        requires { self.old.outbox.items ≡ [] }
        ensures moved { IsTrue result → length (waiting self.new) < length (waiting self.old) }
        ensures still { IsFalse result → waiting self.new ≡ waiting self.old }
        ensures flushed { IsFlushed self.new }
        ensures put { put_of self.new ≡ put_of self.old }
        ensures ends { ring_of_tx self.new ≡ ring_of_tx self.old }
        ensures place { HasLastPlace self.old → HasLastPlace self.new }
    {
        if self.ring.is_full() {
            return false;
        }
        let Some(message) = self.last.take() else {
            return false;
        };
        self.ring.push_reserved(message);
        true
    }
}

impl<M: Drop> Rx<M> {
    /// Returns whether this end finds no message in the ring.
    pub fn is_empty(&mut self) -> bool
        ensures none { IsTrue result → in_ring self.new ≡ [] }
        ensures some { IsFalse result → in_ring self.new ≢ [] }
        ensures seen { IsPrefix (in_ring self.old) (in_ring self.new) }
        ensures taken { taken_of self.new ≡ taken_of self.old }
        ensures ends { ring_of_rx self.new ≡ ring_of_rx self.old }
    {
        self.ring.is_empty()
    }

    /// Receives the oldest message in the ring. Returns `None` if this end finds none.
    pub fn take(&mut self) -> Option<M>
        ensures taken { taken_of self.new ≡ taken_of self.old ++ option_to_list result }
        ensures ends { ring_of_rx self.new ≡ ring_of_rx self.old }
    {
        self.ring.pop().ok()
    }
}

/// Returns how many messages are in the ring. With both ends in one thread, what was sent is what
/// was received, then what is in the ring, then what waits before it.
pub fn reported<M: Drop>(tx: &mut Tx<M>, rx: &mut Rx<M>) -> Option<u64>
    requires { AreEnds tx.old rx.old }
    ensures same { (put_of tx.new ≡ put_of tx.old) × (taken_of rx.new ≡ taken_of rx.old) }
    ensures tx { ring_of_tx tx.new ≡ ring_of_tx tx.old }
    ensures rx { ring_of_rx rx.new ≡ ring_of_rx rx.old }
    ensures number { IfSome result (λ n. n ≡ length (in_ring rx.new)) }
    ensures law { IfSome result (λ _. IsAllThere tx.new rx.new) }
{
    let inside = rx.ring.slots_beside(&mut tx.ring);
    Some(inside as u64)
}
