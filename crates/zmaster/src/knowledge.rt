//! What the master knows, and the rows of its table.

ghost use Rattle.std.specs.Prelude.{◌≡◌, ◌+◌, ◌<◌, ◌≤◌, None, length};
ghost use Rattle.zpath.specs.First.{first_that_holds};
ghost use Rattle.zprotocol.specs.declared.limits.TheConstants.{MAX_EPOCH, MAX_SERVERS};
ghost use Rattle.zprotocol.specs.master.View.{opening_master, head_of, tail_of, with_number};
ghost use Rattle.zprotocol.specs.declared.master.order.Order.TheVariants.{Join, Retire};
ghost use Rattle.zprotocol.specs.master.Table.{config_posts, master_step, have_row, joined_row, gone_row};
ghost use Rattle.zprotocol.specs.master.Table.{order_fault, order_step, own_tests};
ghost use Rattle.zprotocol.specs.Posts.{PutsInRoom};
ghost use Rattle.ztree.specs.declared.limits.TheConstants.{MAX_CLIENTS};
ghost use Rattle.zmaster.specs.declared.limits.TheConstants.{MAX_POSTS};

use crate::chain::{
    Members, chain_fault, is_the_joining, last_member, last_with_state, member_before, mend,
    position_of, who_stays,
};
use crate::limits::{MAX_POSTS, SERVERS};
use crate::member::Member;
use crate::used::{is_used, keeps_few, mark_used};
use std::marker::Model;
use zprotocol::{ClientId, Epoch, LogNumber, Message, Order, OrderFault, Out, Process, ServerId};

/// What the master knows. Its owner bounds how many epochs it gives out.
#[derive(Drop)]
pub(crate) struct Knowledge {
    chain: Members,
    joining: Option<ServerId>,
    retiring: Option<ServerId>,
    used: [bool; SERVERS],
    epoch: Epoch,
    clients: u8,
}

impl Model for Knowledge {
    ghost use Rattle.std.specs.Prelude.{◌≤◌};
    ghost use Rattle.zprotocol.specs.master.View.{MasterView};
    ghost use Rattle.zmaster.specs.support.Marks.{numbers_from};
    ghost use Rattle.ztree.specs.declared.limits.TheConstants.{MAX_CLIENTS};

    ghost Value = { MasterView };

    ghost view = { λ known. record {
      chain = known.chain.items;
      joining = known.joining;
      retiring = known.retiring;
      used = numbers_from 1 known.used;
      epoch = known.epoch;
      clients = known.clients;
    } };

    ghost invariant = { λ known. known.clients ≤ MAX_CLIENTS };
}

impl Knowledge {
    /// Returns the initial state: the chain is the servers from 1 to `last`, and there are this
    /// many clients.
    pub(crate) fn new(last: ServerId, clients: u8) -> Knowledge
        requires { clients ≤ MAX_CLIENTS }
        ensures { result ≡ opening_master last clients }
    {
        let mut chain = Members::new();
        let mut used = [false; SERVERS];
        for number in 1..last.number() + 1 {
            let Some(server) = ServerId::new(number) else {
                unreachable!();
            };
            mark_used(&mut used, server);
            chain.push(Member::new(server, Epoch::opening()));
        }
        Knowledge {
            chain,
            joining: None,
            retiring: None,
            used,
            epoch: Epoch::opening(),
            clients,
        }
    }

    /// Returns the number of clients.
    pub(crate) fn clients(&self) -> u8
        ensures same { result ≡ self.now.clients }
        ensures few { result ≤ MAX_CLIENTS }
    {
        self.clients
    }

    /// At most `MAX_SERVERS` numbers are used. The function does nothing.
    pub(crate) fn keeps_few_used(&self)
        ensures { length self.now.used ≤ MAX_SERVERS }
    {
        keeps_few(&self.used);
    }

    /// Handles a received message by the master table.
    #[tactic(auto, using(zprotocol::proofs::Posts::put_none), unfolding(zprotocol::specs::master::Table::master_step))]
    pub(crate) fn take<T: Drop>(&mut self, from: Process, message: &Message<T>, out: &mut Out<T>)
        requires epochs { self.old.epoch < MAX_EPOCH }
        requires room { MAX_POSTS ≤ out.old.room }
        ensures next { self.new ≡ (master_step self.old from message.now).0 }
        ensures puts { PutsInRoom out.old out.new
            (master_step self.old from message.now).1 }
    {
        let Process::Server(server) = from else {
            return;
        };
        match message {
            Message::Have(epoch, last) => self.have(server, *epoch, *last, out),
            Message::Joined(_) => self.joined(server, out),
            Message::Gone => self.gone(server, out),
            _ => {}
        }
    }

    // `Have`: sends the sender's predecessor its new successor, and the last entry that the
    // successor has.
    fn have<T: Drop>(
        &self,
        server: ServerId,
        epoch: Epoch,
        last: Option<LogNumber>,
        out: &mut Out<T>,
    )
        requires { 0 < out.old.room }
        ensures same { (have_row {T = T} self.now server epoch last).0 ≡ self.now }
        ensures puts { PutsInRoom out.old out.new
            (have_row self.now server epoch last).1 }
    {
        if let Some(before) = member_before(&self.chain, server, epoch) {
            out.put_reserved(
                Process::Server(before),
                Message::NewSucc(epoch, server, last),
            );
        }
    }

    // `Joined`, from the joining server: clients are sent the new tail.
    fn joined<T: Drop>(&mut self, server: ServerId, out: &mut Out<T>)
        requires epochs { self.old.epoch < MAX_EPOCH }
        requires room { MAX_POSTS ≤ out.old.room }
        ensures next { self.new ≡ (joined_row {T = T} self.old server).0 }
        ensures puts { PutsInRoom out.old out.new (joined_row self.old server).1 }
    {
        if is_the_joining(&self.joining, server) {
            self.joining = None;
            self.epoch = next_epoch(self.epoch);
            self.tell(out);
        }
    }

    // `Gone`: outside the chain the server's number counts as used. In the chain, the chain is
    // repaired in a new epoch, and clients are sent the configuration.
    fn gone<T: Drop>(&mut self, server: ServerId, out: &mut Out<T>)
        requires epochs { self.old.epoch < MAX_EPOCH }
        requires room { MAX_POSTS ≤ out.old.room }
        ensures next { self.new ≡ (gone_row {T = T} self.old server).0 }
        ensures puts { PutsInRoom out.old out.new (gone_row self.old server).1 }
    {
        let Some(at) = position_of(&self.chain, server) else {
            mark_used(&mut self.used, server);
            return;
        };
        let epoch = next_epoch(self.epoch);
        self.chain.remove(at);
        mend(&mut self.chain, at, epoch, out);
        self.joining = who_stays(self.joining, server);
        self.retiring = who_stays(self.retiring, server);
        self.epoch = epoch;
        self.tell(out);
    }

    /// Returns why the order is refused.
    pub(crate) fn order_fault(&self, order: &Order) -> Option<OrderFault>
        ensures { result ≡ order_fault self.now order.now }
    {
        if let Some(fault) = self.own_fault(order) {
            return Some(fault);
        }
        if self.retiring.is_some() {
            return Some(OrderFault::Retiring);
        }
        None
    }

    /// Obeys an order. The caller has checked that it isn't refused.
    pub(crate) fn order<T: Drop>(&mut self, order: &Order, out: &mut Out<T>)
        requires epochs { self.old.epoch < MAX_EPOCH }
        requires enough { length self.old.chain ≤ length self.old.used }
        requires allowed { order_fault self.old order.now ≡ None }
        requires room { MAX_POSTS ≤ out.old.room }
        ensures next { self.new ≡ (order_step {T = T} self.old order.now).0 }
        ensures puts { PutsInRoom out.old out.new (order_step self.old order.now).1 }
    {
        match order {
            Order::Join(server) => self.join(*server, out),
            Order::Retire(server) => self.retire(*server, out),
        }
    }

    // Returns which of the order's own tests holds.
    fn own_fault(&self, order: &Order) -> Option<OrderFault>
        ensures { result ≡ first_that_holds (own_tests self.now order.now) }
    {
        match order {
            Order::Join(server) => self.join_fault(*server),
            Order::Retire(server) => self.retire_fault(*server),
        }
    }

    // The same of a join.
    fn join_fault(&self, server: ServerId) -> Option<OrderFault>
        ensures { result ≡ first_that_holds (own_tests self.now (Join server)) }
    {
        if is_used(&self.used, server) {
            return Some(OrderFault::Used);
        }
        chain_fault(&self.chain, &self.joining)
    }

    // The same of an order to leave.
    fn retire_fault(&self, server: ServerId) -> Option<OrderFault>
        ensures { result ≡ first_that_holds (own_tests self.now (Retire server)) }
    {
        if position_of(&self.chain, server).is_none() {
            return Some(OrderFault::NotMember);
        }
        if self.joining.is_some() {
            return Some(OrderFault::Joining);
        }
        if self.chain.len() == 1 {
            return Some(OrderFault::Last);
        }
        None
    }

    // A server joins after the last member.
    fn join<T: Drop>(&mut self, server: ServerId, out: &mut Out<T>)
        requires epochs { self.old.epoch < MAX_EPOCH }
        requires new { length self.old.chain < length (with_number server self.old.used) }
        requires room { MAX_POSTS ≤ out.old.room }
        ensures next { self.new ≡ (order_step {T = T} self.old (Join server)).0 }
        ensures puts { PutsInRoom out.old out.new (order_step self.old (Join server)).1 }
    {
        let Some(before) = last_member(&self.chain, None) else {
            return;
        };
        let epoch = next_epoch(self.epoch);
        mark_used(&mut self.used, server);
        self.epoch = epoch;
        self.joining = Some(server);
        self.chain.push(Member::new(server, epoch));
        out.put_reserved(Process::Server(server), Message::NewPred(epoch, before));
    }

    // A member is sent the order to leave.
    fn retire<T: Drop>(&mut self, server: ServerId, out: &mut Out<T>)
        requires { MAX_POSTS ≤ out.old.room }
        ensures next { self.new ≡ (order_step {T = T} self.old (Retire server)).0 }
        ensures puts { PutsInRoom out.old out.new (order_step self.old (Retire server)).1 }
    {
        self.retiring = Some(server);
        out.put_reserved(Process::Server(server), Message::Retire);
    }

    // Sends the epoch, the head and the tail to every client, in the order of their numbers.
    fn tell<T: Drop>(&self, out: &mut Out<T>)
        requires { self.now.clients ≤ out.old.room }
        ensures { PutsInRoom out.old out.new (config_posts self.now) }
    {
        for number in 0..self.clients {
            let Some(client) = ClientId::new(number) else {
                unreachable!();
            };
            out.put_reserved(
                Process::Client(client),
                Message::Config(self.epoch, self.head(), self.tail()),
            );
        }
    }

    // Returns the head in the configuration sent to clients.
    fn head(&self) -> Option<ServerId>
        ensures { result ≡ head_of self.now }
    {
        Some(self.chain.first()?.id())
    }

    // Returns the tail in the configuration sent to clients.
    fn tail(&self) -> Option<ServerId>
        ensures { result ≡ tail_of self.now }
    {
        last_with_state(&self.chain, &self.joining, self.head())
    }
}

// Returns the next epoch.
fn next_epoch(epoch: Epoch) -> Epoch
    requires { epoch < MAX_EPOCH }
    ensures { result ≡ epoch + 1 }
{
    match Epoch::new(epoch.number() + 1) {
        Some(next) => next,
        None => unreachable!(),
    }
}
