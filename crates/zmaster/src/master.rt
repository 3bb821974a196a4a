//! The master.

ghost use Rattle.std.specs.Prelude.{◌≡◌, ◌≤◌, IfErr, OnErr, OnOk, None, Some};
ghost use Rattle.zprotocol.specs.master.View.{opening_master};
ghost use Rattle.zprotocol.specs.declared.master.order.Order.TheVariants.{Join, Retire};
ghost use Rattle.zprotocol.specs.master.Table.{master_step, order_fault, order_step};
ghost use Rattle.zprotocol.specs.Posts.{PutsInRoom};
ghost use Rattle.ztree.specs.declared.limits.TheConstants.{MAX_CLIENTS};
ghost use Rattle.zmaster.specs.declared.limits.TheConstants.{MAX_POSTS};

use crate::knowledge::Knowledge;
use crate::limits::MAX_POSTS;
use std::marker::Model;
use zprotocol::{JoinFault, Message, Order, OrderFault, Out, Process, RetireFault, ServerId};

/// The master. Whatever it receives, it gives at most three epochs for each server number.
#[derive(Drop)]
pub struct Master {
    known: Knowledge,
}

impl Model for Master {
    ghost use Rattle.std.specs.Prelude.{◌≤◌, length};
    ghost use Rattle.zprotocol.specs.declared.limits.TheConstants.{MAX_SERVERS};
    ghost use Rattle.zprotocol.specs.master.View.{MasterView};
    ghost use Rattle.zprotocol.specs.master.Laws.{IsBounded};

    ghost Value = { MasterView };

    ghost view = { λ master. master.known };

    ghost invariant = { λ m. IsBounded m.known × (length m.known.used ≤ MAX_SERVERS) };
}

impl Master {
    /// Returns the master of the initial chain, whose last server is `last`, with this many
    /// clients. It allocates nothing.
    pub fn new(last: ServerId, clients: u8) -> Master
        requires { clients ≤ MAX_CLIENTS }
        ensures { result ≡ opening_master last clients }
    {
        let known = Knowledge::new(last, clients);
        known.keeps_few_used();
        Master { known }
    }

    /// Returns the number of clients.
    pub fn clients(&self) -> u8
        ensures same { result ≡ self.now.clients }
        ensures few { result ≤ MAX_CLIENTS }
    {
        self.known.clients()
    }

    /// Handles a received message. It allocates nothing and never fails.
    pub fn take<T: Drop>(&mut self, from: Process, message: Message<T>, out: &mut Out<T>)
        requires { MAX_POSTS ≤ out.old.room }
        ensures next { self.new ≡ (master_step self.old from message).0 }
        ensures puts { PutsInRoom out.old out.new
            (master_step self.old from message).1 }
    {
        self.known.take(from, &message, out);
        drop(message);
        self.known.keeps_few_used();
    }

    /// Returns why the order is refused now.
    pub fn order_fault(&self, order: &Order) -> Option<OrderFault>
        ensures { result ≡ order_fault self.now order.now }
    {
        self.known.order_fault(order)
    }

    /// Obeys an order, or returns why it is refused. It allocates nothing.
    pub fn order<T: Drop>(&mut self, order: &Order, out: &mut Out<T>) -> Result<(), OrderFault>
        requires { MAX_POSTS ≤ out.old.room }
        ensures next { OnOk result (self.new ≡ (order_step {T = T} self.old order.now).0) }
        ensures puts { OnOk result (PutsInRoom out.old out.new (order_step self.old order.now).1) }
        ensures allowed { OnOk result (order_fault self.old order.now ≡ None) }
        ensures fault { IfErr result (λ fault. order_fault self.old order.now ≡ Some fault) }
        ensures same { OnErr result (self.new ≡ self.old) }
        ensures silent { OnErr result (out.new ≡ out.old) }
    {
        if let Some(fault) = self.known.order_fault(order) {
            return Err(fault);
        }
        self.known.order(order, out);
        self.known.keeps_few_used();
        Ok(())
    }

    /// Lets a server join after the tail, or returns why it can't. It allocates nothing.
    pub fn join<T: Drop>(&mut self, server: ServerId, out: &mut Out<T>) -> Result<(), JoinFault>
        requires { MAX_POSTS ≤ out.old.room }
        ensures next { OnOk result (self.new ≡ (order_step {T = T} self.old (Join server)).0) }
        ensures puts { OnOk result
            (PutsInRoom out.old out.new (order_step self.old (Join server)).1) }
        ensures allowed { OnOk result (order_fault self.old (Join server) ≡ None) }
        ensures fault { IfErr result (λ fault. order_fault self.old (Join server) ≡ Some fault) }
        ensures same { OnErr result (self.new ≡ self.old) }
        ensures silent { OnErr result (out.new ≡ out.old) }
    {
        self.order(&Order::Join(server), out)
    }

    /// Orders a member to leave, or returns why it can't. It allocates nothing.
    pub fn retire<T: Drop>(&mut self, server: ServerId, out: &mut Out<T>) -> Result<(), RetireFault>
        requires { MAX_POSTS ≤ out.old.room }
        ensures next { OnOk result (self.new ≡ (order_step {T = T} self.old (Retire server)).0) }
        ensures puts { OnOk result
            (PutsInRoom out.old out.new (order_step self.old (Retire server)).1) }
        ensures allowed { OnOk result (order_fault self.old (Retire server) ≡ None) }
        ensures fault { IfErr result (λ fault. order_fault self.old (Retire server) ≡ Some fault) }
        ensures same { OnErr result (self.new ≡ self.old) }
        ensures silent { OnErr result (out.new ≡ out.old) }
    {
        self.order(&Order::Retire(server), out)
    }
}
