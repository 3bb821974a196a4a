//! The replica of the master in one node.

ghost use Rattle.std.specs.Prelude.{◌≡◌, ◌<◌, ◌≤◌, ◌⊎◌, None, Some, IfErr, IfNone, IfOk, IfSome, OnErr, OnOk};
ghost use Rattle.std.specs.Option.{option_copied};
ghost use Rattle.zprotocol.specs.Posts.{Puts};
ghost use Rattle.zmaster.specs.declared.limits.TheConstants.{MAX_POSTS};
ghost use Rattle.zmaster_log.specs.Log.{entry_played, first_to, order_for, after_entry, is_this_server};
ghost use Rattle.zmaster_log.specs.Log.{IsPlayFault, has_live, plays, reports_of, node_of, next_of};
ghost use Rattle.zmaster_log.specs.Log.{fault_of};
ghost use Rattle.zprotocol.specs.declared.limits.TheConstants.{MAX_SERVERS};

use crate::entry::LogEntry;
use crate::entry_count::EntryCount;
use crate::membership::Membership;
use crate::node_name::NodeName;
use crate::play_fault::PlayFault;
use std::alloc::Global;
use std::marker::Model;
use zalloc::Memory;
use zmaster::MAX_POSTS;
use zprotocol::{Message, Order, OrderFault, Out, Process, ServerId};

/// The master, as one node has it: it plays the log from its first entry on, and hands out the
/// orders for the server of its node.
#[derive(Drop)]
pub struct MasterReplica {
    own: Option<ServerId>,
    played: EntryCount,
    state: Option<Membership>,
}

impl Model for MasterReplica {
    ghost use Rattle.zmaster_log.specs.Log.{ReplicaView};

    ghost Value = { ReplicaView };

    ghost view = { λ r. record { own = r.own; played = r.played; state = r.state } };
}

impl MasterReplica {
    /// Returns a replica that has played nothing, of a node without a server.
    pub fn new() -> MasterReplica
        ensures { result ≡ record { own = None; played = 0; state = None } }
    {
        MasterReplica {
            own: None,
            played: EntryCount::none(),
            state: None,
        }
    }

    /// Takes this number for the server of the node. A node has one number at most.
    pub fn act_as(&mut self, server: ServerId)
        requires { self.old.own ≡ None }
        ensures { self.new ≡ record self.old { own = Some server } }
    {
        self.own = Some(server);
    }

    /// Returns the number of the node's server, if it has one.
    pub fn own(&self) -> Option<ServerId>
        ensures { result ≡ self.now.own }
    {
        self.own
    }

    /// Returns the number of entries played: the index of the next one.
    pub fn played(&self) -> EntryCount
        ensures { result ≡ self.now.played }
    {
        self.played
    }

    /// Returns whether the server has joined, or was in the initial chain, and isn't gone.
    pub fn is_live(&self, server: ServerId) -> bool
        ensures { result ≡ has_live self.now.state server }
    {
        match &self.state {
            Some(membership) => membership.is_live(server),
            None => false,
        }
    }

    /// Returns how many reports of the server were played: that many precede its next one.
    pub fn reports_of(&self, server: ServerId) -> u64
        ensures { result ≡ reports_of self.now.state server }
    {
        match &self.state {
            Some(membership) => membership.count_of(server),
            None => 0,
        }
    }

    /// Returns the node of a server, if it has joined or was in the initial chain.
    pub fn node_of(&self, server: ServerId) -> Option<&NodeName>
        ensures { option_copied result ≡ node_of self.now.state server }
    {
        match &self.state {
            Some(membership) => membership.node_of(server),
            None => None,
        }
    }

    /// Returns the number of the next server that joins, or `None` before the opening and once all
    /// numbers are used.
    pub fn next_server(&self) -> Option<ServerId>
        ensures next { IfSome result (λ s. s ≡ next_of self.now.state) }
        ensures none { IfNone result
            ((next_of self.now.state ≡ 0) ⊎ (MAX_SERVERS < next_of self.now.state)) }
    {
        match &self.state {
            Some(membership) => membership.next_server(),
            None => None,
        }
    }

    /// Returns why the master refuses an order now. Before the opening it has no chain.
    pub fn order_fault(&self, order: &Order) -> Option<OrderFault>
        ensures { result ≡ fault_of self.now.state order.now }
    {
        match &self.state {
            Some(membership) => membership.order_fault(order),
            None => Some(OrderFault::NoChain),
        }
    }

    /// Plays the entry with this index, and returns the order that it has for the node's server, if
    /// any. The entry is skipped where the master has no such input now.
    pub fn play<T: Drop>(
        &mut self,
        alloc: Global,
        index: EntryCount,
        entry: LogEntry,
    ) -> Result<Option<Message<T>>, PlayFault>
        ensures next { OnOk result
            (self.new ≡ after_entry self.old (entry_played {T = T} self.old.state entry).0) }
        ensures order { IfOk result (λ order.
            order ≡ order_for self.old.own (entry_played self.old.state entry).1) }
        ensures index { OnOk result (index ≡ self.old.played) }
        ensures fault { IfErr result (IsPlayFault self.old index) }
        ensures same { OnErr result (self.new ≡ self.old) }
    {
        if index.number() != self.played.number() {
            return Err(PlayFault::NotNext);
        }
        let Some(next) = self.played.next() else {
            return Err(PlayFault::Full);
        };
        let mut posts: Out<T> = Out::new(alloc);
        posts.reserve(MAX_POSTS)?;
        enter(&mut self.state, entry, &mut posts)?;
        self.played = next;
        Ok(order_for(self.own, &mut posts))
    }
}

// Plays an entry.
fn enter<T: Drop>(
    state: &mut Option<Membership>,
    entry: LogEntry,
    posts: &mut Out<T>,
) -> Result<(), Memory>
    requires { MAX_POSTS ≤ posts.old.room }
    ensures next { OnOk result (state.new ≡ (entry_played {T = T} state.old entry).0) }
    ensures puts { OnOk result (Puts posts.old posts.new (entry_played state.old entry).1) }
    ensures same { OnErr result (state.new ≡ state.old) }
{
    match state {
        Some(membership) => go_on(membership, entry, posts),
        None => {
            if let LogEntry::Opening(nodes) = entry {
                *state = Some(Membership::opened(nodes));
            }
            Ok(())
        }
    }
}

// Plays an entry after the opening.
fn go_on<T: Drop>(
    membership: &mut Membership,
    entry: LogEntry,
    posts: &mut Out<T>,
) -> Result<(), Memory>
    requires { MAX_POSTS ≤ posts.old.room }
    ensures next { OnOk result
        (membership.new ≡ (plays {T = T} membership.old entry).0) }
    ensures puts { OnOk result
        (Puts posts.old posts.new (plays membership.old entry).1) }
    ensures same { OnErr result (membership.new ≡ membership.old) }
{
    match entry {
        LogEntry::Opening(_) => Ok(()),
        LogEntry::Join(server, node) => membership.join(server, node, posts),
        LogEntry::Retire(server) => {
            membership.retire(server, posts);
            Ok(())
        }
        LogEntry::Reported(report) => {
            membership.report(&report, posts);
            Ok(())
        }
    }
}

// Returns the order for the node's server.
fn order_for<T: Drop>(own: Option<ServerId>, posts: &mut Out<T>) -> Option<Message<T>>
    ensures { result ≡ order_for own posts.old.posts }
{
    match own {
        Some(server) => first_to(server, posts),
        None => None,
    }
}

// Returns the first message to the server.
fn first_to<T: Drop>(server: ServerId, posts: &mut Out<T>) -> Option<Message<T>>
    ensures { result ≡ first_to server posts.old.posts }
{
    let (to, message) = posts.next()?;
    if is_this_server(server, to) {
        return Some(message);
    }
    first_to(server, posts)
}

// Returns whether the process is this server.
fn is_this_server(server: ServerId, process: Process) -> bool
    ensures { result ≡ is_this_server server process }
{
    match process {
        Process::Server(other) => other.number() == server.number(),
        Process::Master | Process::Client(_) => false,
    }
}
