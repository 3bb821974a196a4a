//! The two ends of the console's channel.
//!
//! # Why
//!
//! An outcome goes into a ring, and waits in an outbox where that is full. So a console whose owner
//! asks for no outcome blocks no one, and loses none.

ghost use Rattle.std.specs.Prelude.{◌≡◌, true, List, [], ◌∷◌, ◌++◌, map, option_to_list};
ghost use Rattle.std.specs.Prelude.{IfErr, IfOk, IsTrue, OnErr, OnOk};
ghost use Rattle.crossbeam_channel.specs.Claims.{view, IsSeatAt};
ghost use Rattle.crossbeam_channel.specs.Ends.{receives_on, sends_on};

use crate::bells::Bells;
use crate::outcome::OrderOutcome;
use crate::rings::{Rx, Tx, link, reported};
use crate::rule::{Fifo, Law, Log, Puts, Roles, Takes};
use crossbeam_channel::{Pass, RuledReceiver, RuledSender, bounded_with};
use std::alloc::Global;
use std::sync::Wait;
use thiserror::Error;
use zalloc::Memory;
use zprotocol::{Order, Process, ServerId};

/// How many orders the channel has room for.
pub const ROOM: usize = 32;

/// Why an order was not sent: the master's thread has ended.
#[derive(Clone, Copy, Debug, Drop, PartialEq, Eq, Error)]
#[error("Closed")]
pub struct Closed;

/// The sending end, which orders servers to join and to leave.
#[derive(Drop)]
pub struct Console {
    pub(crate) to: RuledSender<Order, Log, Fifo>,
    pub(crate) pass: Pass<Order, Log>,
    // wakes the master's thread
    pub(crate) bells: Bells,
    pub(crate) outcomes: Rx<OrderOutcome>,
    ghost seat: { IsSeatAt (sends_on to) pass },
    ghost puts: { (view pass).puts ≡ true },
}

/// The receiving end, where the master's thread receives the orders, and returns their outcomes.
#[derive(Drop)]
pub struct Inbox {
    pub(crate) from: RuledReceiver<Order, Log, Fifo>,
    pub(crate) pass: Pass<Order, Log>,
    pub(crate) outcomes: Tx<OrderOutcome>,
    ghost seat: { IsSeatAt (receives_on from) pass },
    ghost takes: { (view pass).takes ≡ true },
}

impl Console {
    ghost use Rattle.zchannels.specs.declared.console.TheConstants.{ROOM};
    ghost use Rattle.zprotocol.specs.declared.master.order.Order.{Order};
    ghost use Rattle.zprotocol.specs.declared.master.order.Order.TheVariants.{Join, Retire};
    ghost use Rattle.zchannels.specs.declared.outcome.OrderOutcome.{OrderOutcome};
    ghost use Rattle.zchannels.specs.Console.{AreEnds, heard, IsSameConsole, ordered, room_of, said};
    ghost use Rattle.zchannels.specs.Console.{taken_of};
    ghost use Rattle.zchannels.specs.Outcomes.{AreSaid, order_of};

    /// Returns the two ends of an empty channel with room for `ROOM` orders. The only error is out
    /// of memory.
    pub fn open(alloc: Global, bells: Bells) -> Result<(Console, Inbox), Memory>
        ensures ends { IfOk result (λ r. AreEnds r.0 r.1) }
        ensures empty { IfOk result (λ r. (ordered r.0 ≡ []) × (taken_of r.1 ≡ [])) }
        ensures silent { IfOk result (λ r. (heard r.0 ≡ []) × (said r.1 ≡ [])) }
        ensures room { IfOk result (λ r. room_of r.0 ≡ ROOM) }
    {
        let (sayer, hearer) = link(alloc)?;
        let (to, from, mut pass) = bounded_with::<Order, Log, Fifo, Global>(alloc, ROOM)?;
        let other = to.another::<Roles>(&mut pass);
        Ok((
            Console {
                to,
                pass,
                bells,
                outcomes: hearer,
            },
            Inbox {
                from,
                pass: other,
                outcomes: sayer,
            },
        ))
    }

    /// Orders that a server join. Blocks until there is room. At `Err` nothing was sent.
    pub fn join<R: Wait>(&mut self, rt: &R, server: ServerId) -> Result<(), Closed>
        ensures ok { OnOk result
            (ordered self.new ≡ ordered self.old ++ Join server ∷ []) }
        ensures err { OnErr result (ordered self.new ≡ ordered self.old) }
        ensures heard { heard self.new ≡ heard self.old }
        ensures ends { IsSameConsole self.old self.new }
    {
        self.put(rt, Order::Join(server))
    }

    /// Orders that a server leave. Blocks until there is room. At `Err` nothing was sent.
    pub fn retire<R: Wait>(&mut self, rt: &R, server: ServerId) -> Result<(), Closed>
        ensures ok { OnOk result
            (ordered self.new ≡ ordered self.old ++ Retire server ∷ []) }
        ensures err { OnErr result (ordered self.new ≡ ordered self.old) }
        ensures heard { heard self.new ≡ heard self.old }
        ensures ends { IsSameConsole self.old self.new }
    {
        self.put(rt, Order::Retire(server))
    }

    /// Returns the outcome of the first order whose outcome wasn't returned yet, or `None` if the
    /// master hasn't decided that one yet. It doesn't wait.
    ///
    /// Outcomes that no one asks for are stored, a few bytes each.
    pub fn outcome(&mut self) -> Option<OrderOutcome>
        ensures heard { heard self.new ≡ heard self.old ++ option_to_list result }
        ensures ordered { ordered self.new ≡ ordered self.old }
        ensures ends { IsSameConsole self.old self.new }
    {
        let outcome = self.outcomes.take();
        if outcome.is_some() {
            // There is room for one more.
            self.bells.ring(Process::Master.place());
        }
        outcome
    }

    // Sends an order, and wakes the master's thread.
    fn put<R: Wait>(&mut self, rt: &R, order: Order) -> Result<(), Closed>
        ensures ok { OnOk result (ordered self.new ≡ ordered self.old ++ order ∷ []) }
        ensures err { OnErr result (ordered self.new ≡ ordered self.old) }
        ensures heard { heard self.new ≡ heard self.old }
        ensures ends { IsSameConsole self.old self.new }
    {
        match self.to.send_as::<Puts, R>(rt, &mut self.pass, order) {
            Ok(()) => {
                self.bells.ring(Process::Master.place());
                Ok(())
            }
            Err(_) => Err(Closed),
        }
    }

    /// With both ends in one thread again: the orders received are a prefix of the orders sent. If
    /// it returns true, the outcomes received are a prefix of the outcomes sent. So if each order's
    /// outcome was sent in order, the outcomes received are those of the first orders, in order.
    pub fn reported(self, inbox: Inbox) -> bool
        requires { AreEnds self inbox }
        ensures orders { (left : List Order) × (ordered self ≡ taken_of inbox ++ left) }
        ensures outcomes { IsTrue result
            → (left : List OrderOutcome) × (said inbox ≡ heard self ++ left) }
        ensures in_turn { IsTrue result → (unsaid : List Order) → AreSaid inbox unsaid
            → (left : List Order) × (ordered self ≡ map order_of (heard self) ++ left) }
    {
        let Console {
            to,
            mut pass,
            mut outcomes,
            ..
        } = self;
        let Inbox {
            from: _,
            pass: other,
            outcomes: mut sayer,
        } = inbox;
        to.absorb::<Roles>(&mut pass, other);
        to.learn_as::<Law>(&mut pass);
        let Some(_) = reported(&mut sayer, &mut outcomes) else {
            return false;
        };
        true
    }
}

impl Inbox {
    ghost use Rattle.zchannels.specs.Console.{IsFlushed, IsSameInbox, said, taken_of};

    /// Receives the oldest order, if there is one. It doesn't wait for one.
    pub fn take<R: Wait>(&mut self, rt: &R) -> Option<Order>
        ensures taken { taken_of self.new ≡ taken_of self.old ++ option_to_list result }
        ensures said { said self.new ≡ said self.old }
        ensures ends { IsSameInbox self.old self.new }
    {
        self.from.try_recv_as::<Takes, R>(rt, &mut self.pass).ok()
    }

    /// Sends an order's outcome, or returns it if there is no memory. It doesn't wait for the
    /// console to receive it.
    pub fn say(&mut self, outcome: OrderOutcome) -> Result<(), OrderOutcome>
        ensures ok { OnOk result (said self.new ≡ said self.old ++ outcome ∷ []) }
        ensures err { IfErr result (λ back. (back ≡ outcome) × (said self.new ≡ said self.old)) }
        ensures taken { taken_of self.new ≡ taken_of self.old }
        ensures ends { IsSameInbox self.old self.new }
    {
        self.outcomes.put(outcome)
    }

    /// Moves outcomes from the outbox into the ring while it has room. What still waits found none.
    pub fn flush(&mut self)
        ensures flushed { IsFlushed self.new }
        ensures said { said self.new ≡ said self.old }
        ensures taken { taken_of self.new ≡ taken_of self.old }
        ensures ends { IsSameInbox self.old self.new }
    {
        let _ = self.outcomes.flush();
    }
}
