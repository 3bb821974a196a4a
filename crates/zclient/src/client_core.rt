//! The core of a client.
//!
//! # Why
//!
//! `ClientCore::new` takes only the last server of the initial chain: the head is always server 1,
//! and the channels know who the client is. It stores the allocator, by which its later calls grow.

ghost use Rattle.std.specs.Prelude.{◌≡◌, ◌+◌, ◌<◌, ◌≤◌, ℕ, None, Some, [], IfErr, IfOk, IsSome, OnErr, OnOk, is_some};
ghost use Rattle.std.specs.Option.{option_map};
ghost use Rattle.zprotocol.specs.client.View.{opening_client};
ghost use Rattle.zprotocol.specs.client.Table.{begin_fault, begin_step, call_posts, client_step, answer_row, config_row, retry_posts};
ghost use Rattle.zprotocol.specs.Posts.{Puts};
ghost use Rattle.zclient.specs.Core.{IsBeginFault, IsResend, reply_of, sent_to};

use std::alloc::Global;
use std::marker::Model;
use zalloc::Memory;
use zcalls::{Call, CallNumber, MAX_CALL_NUMBER, Reply};
use zprotocol::{BeginFault, Epoch, Message, Out, Process, ServerId};

/// What a client knows: the number of its last call, its outstanding call, and the ends of the
/// chain.
#[derive(Drop)]
pub struct ClientCore {
    alloc: Global,
    number: CallNumber,
    outstanding: Option<(CallNumber, Call)>,
    epoch: Epoch,
    head: Option<ServerId>,
    tail: Option<ServerId>,
}

impl Model for ClientCore {
    ghost use Rattle.zprotocol.specs.client.View.{ClientView};

    ghost Value = { ClientView };

    ghost view = { λ client. record {
      number = client.number;
      outstanding = client.outstanding;
      epoch = client.epoch;
      head = client.head;
      tail = client.tail;
    } };
}

impl ClientCore {
    /// Returns a client of the initial chain, whose last server is `last`. It allocates nothing.
    pub fn new(alloc: Global, last: ServerId) -> ClientCore
        ensures { (clients c : ℕ) → c < clients → result ≡ opening_client last clients c }
    {
        ClientCore {
            alloc,
            number: CallNumber::before_all(),
            outstanding: None,
            epoch: Epoch::opening(),
            head: Some(ServerId::first()),
            tail: Some(last),
        }
    }

    /// Returns the state of a client number that the world doesn't have: it knows no chain. It
    /// allocates nothing.
    pub fn outside(alloc: Global) -> ClientCore
        ensures { (servers clients c : ℕ) → clients ≤ c
            → result ≡ opening_client servers clients c }
    {
        ClientCore {
            alloc,
            number: CallNumber::before_all(),
            outstanding: None,
            epoch: Epoch::opening(),
            head: None,
            tail: None,
        }
    }

    /// Returns the number of the outstanding call, if there is one.
    pub fn outstanding(&self) -> Option<CallNumber>
        ensures { result ≡ option_map (λ waits. waits.0) self.now.outstanding }
    {
        let (number, _) = self.outstanding.as_ref()?;
        Some(*number)
    }

    /// Returns the head of the chain, as in the master's last configuration.
    pub fn head(&self) -> Option<ServerId>
        ensures { result ≡ self.now.head }
    {
        let ClientCore { head, .. } = self;
        *head
    }

    /// Returns the tail of the chain, as in the master's last configuration.
    pub fn tail(&self) -> Option<ServerId>
        ensures { result ≡ self.now.tail }
    {
        let ClientCore { tail, .. } = self;
        *tail
    }

    /// Returns why no call can be invoked now: `Busy` (one is outstanding) or `Exhausted` (no call
    /// number is left).
    #[tactic(auto, unfolding(zprotocol::specs::client::Table::begin_fault))]
    pub fn begin_fault(&self) -> Option<BeginFault>
        ensures { result ≡ begin_fault self.now }
    {
        if self.outstanding.is_some() {
            return Some(BeginFault::Busy);
        }
        if self.number.number() >= MAX_CALL_NUMBER {
            return Some(BeginFault::Exhausted);
        }
        None
    }

    /// Invokes a call and returns its number. It fails as `begin_fault` says, or with `Memory`;
    /// then nothing has changed and nothing was sent.
    #[tactic(auto, unfolding(zprotocol::specs::client::Table::begin_step, zprotocol::specs::client::Table::begin_fault))]
    #[inline(always)]
    pub fn begin<T: Drop>(&mut self, call: Call, out: &mut Out<T>) -> Result<CallNumber, BeginFault>
        ensures number { IfOk result (λ number. number ≡ self.new.number) }
        ensures next { OnOk result (self.new ≡ (begin_step {T = T} self.old call).0) }
        ensures puts { OnOk result (Puts out.old out.new (begin_step self.old call).1) }
        ensures allowed { OnOk result (begin_fault self.old ≡ None) }
        ensures fault { IfErr result (IsBeginFault self.old) }
        ensures same { OnErr result (self.new ≡ self.old) }
        ensures silent { OnErr result (out.new.posts ≡ out.old.posts) }
    {
        if let Some(fault) = self.begin_fault() {
            drop(call);
            return Err(fault);
        }
        let Some(number) = CallNumber::new(self.number.number() + 1) else {
            // Without a fault there is a next number.
            unreachable!();
        };
        let Ok(()) = send_call(self.alloc, &self.head, &self.tail, number, &call, out) else {
            drop(call);
            return Err(BeginFault::Memory);
        };
        self.number = number;
        drop(self.outstanding.replace((number, call)));
        Ok(number)
    }

    /// Handles a received message, and returns the reply that the outstanding call waited for.
    /// Where the call must be sent again and memory runs out, it returns the message as the error.
    /// Then nothing has changed and nothing was sent.
    #[tactic(auto, unfolding(zprotocol::specs::client::Table::client_step))]
    #[inline(always)]
    pub fn take<T: Drop>(
        &mut self,
        from: Process,
        message: Message<T>,
        out: &mut Out<T>,
    ) -> Result<Option<Reply>, Message<T>>
        ensures next { OnOk result (self.new ≡ (client_step self.old from message).0) }
        ensures puts { OnOk result (Puts out.old out.new (client_step self.old from message).1) }
        ensures reply { IfOk result
            (λ reply. reply ≡ reply_of (client_step self.old from message).2) }
        ensures back { IfErr result (λ back. back ≡ message) }
        ensures resends { OnErr result (IsResend self.old from message) }
        ensures same { OnErr result (self.new ≡ self.old) }
        ensures silent { OnErr result (out.new.posts ≡ out.old.posts) }
    {
        match (from, message) {
            (Process::Server(_), Message::Answer(number, reply)) => Ok(self.answer::<T>(
                number, reply,
            )),
            (Process::Master, Message::Config(epoch, head, tail)) => match self.config(
                epoch, &head, &tail, out,
            ) {
                Ok(()) => Ok(None),
                Err(Memory) => Err(Message::Config(epoch, head, tail)),
            },
            (_, message) => {
                drop(message);
                Ok(None)
            }
        }
    }

    /// Sends the outstanding call again; returns whether there is one. Out of memory is the only
    /// error, and then nothing was sent.
    #[tactic(auto, unfolding(zprotocol::specs::client::Table::retry_posts))]
    pub fn retry<T: Drop>(&self, out: &mut Out<T>) -> Result<bool, Memory>
        ensures waits { IfOk result (λ waits. waits ≡ is_some self.now.outstanding) }
        ensures puts { OnOk result (Puts out.old out.new (retry_posts self.now)) }
        ensures waited { OnErr result (IsSome self.now.outstanding) }
        ensures silent { OnErr result (out.new.posts ≡ out.old.posts) }
    {
        self.send(&self.head, &self.tail, out)?;
        Ok(self.outstanding.is_some())
    }

    // Sends the outstanding call, if there is one, to these ends of the chain.
    fn send<T: Drop>(
        &self,
        head: &Option<ServerId>,
        tail: &Option<ServerId>,
        out: &mut Out<T>,
    ) -> Result<(), Memory>
        ensures puts { OnOk result (Puts out.old out.new (sent_to self.now head.now tail.now)) }
        ensures waited { OnErr result (IsSome self.now.outstanding) }
        ensures silent { OnErr result (out.new.posts ≡ out.old.posts) }
    {
        let Some((number, call)) = &self.outstanding else {
            return Ok(());
        };
        send_call(self.alloc, head, tail, *number, call, out)
    }

    // `Answer`: the reply to the outstanding call ends the wait and is returned. Any other is
    // dropped.
    #[tactic(auto, unfolding(zprotocol::specs::client::Table::answer_row))]
    #[inline(always)]
    fn answer<T: Drop>(&mut self, number: CallNumber, reply: Reply) -> Option<Reply>
        ensures next { self.new ≡ (answer_row {T = T} self.old number reply).0 }
        ensures silent { (answer_row {T = T} self.old number reply).1 ≡ [] }
        ensures reply { result ≡ reply_of (answer_row {T = T} self.old number reply).2 }
    {
        if let Some((waited, _)) = &self.outstanding
            && waited.number() == number.number()
        {
            drop(self.outstanding.take());
            return Some(reply);
        }
        drop(reply);
        None
    }

    // `Config`: a later configuration replaces the known one, and the outstanding call is sent
    // again.
    #[tactic(auto, unfolding(zprotocol::specs::client::Table::config_row))]
    fn config<T: Drop>(
        &mut self,
        epoch: Epoch,
        head: &Option<ServerId>,
        tail: &Option<ServerId>,
        out: &mut Out<T>,
    ) -> Result<(), Memory>
        ensures next { OnOk result
            (self.new ≡ (config_row {T = T} self.old epoch head.now tail.now).0) }
        ensures puts { OnOk result
            (Puts out.old out.new (config_row self.old epoch head.now tail.now).1) }
        ensures no_reply { OnOk result
            ((config_row {T = T} self.old epoch head.now tail.now).2 ≡ None) }
        ensures later { OnErr result (self.old.epoch < epoch) }
        ensures waited { OnErr result (IsSome self.old.outstanding) }
        ensures same { OnErr result (self.new ≡ self.old) }
        ensures silent { OnErr result (out.new.posts ≡ out.old.posts) }
    {
        if epoch.number() <= self.epoch.number() {
            return Ok(());
        }
        self.send(head, tail, out)?;
        self.epoch = epoch;
        self.head = *head;
        self.tail = *tail;
        Ok(())
    }
}

// Sends a call to these ends of the chain: an update to the head, a query to the tail. It sends
// nothing where there is no such server. It allocates everything before it sends.
fn send_call<T: Drop>(
    alloc: Global,
    head: &Option<ServerId>,
    tail: &Option<ServerId>,
    number: CallNumber,
    call: &Call,
    out: &mut Out<T>,
) -> Result<(), Memory>
    ensures puts { OnOk result (Puts out.old out.new
        (call_posts head.now tail.now number call.now)) }
    ensures silent { OnErr result (out.new.posts ≡ out.old.posts) }
{
    out.reserve(1)?;
    match call {
        Call::Update(update) => {
            if let Some(head) = head {
                let copy = update.copied(alloc)?;
                out.put_reserved(Process::Server(*head), Message::Submit(number, copy));
            }
        }
        Call::Query(query) => {
            if let Some(tail) = tail {
                let copy = query.copied()?;
                out.put_reserved(Process::Server(*tail), Message::Query(number, copy));
            }
        }
    }
    Ok(())
}
