//! What the entries from the opening on make.

ghost use Rattle.std.specs.Prelude.{◌≡◌, ◌+◌, ◌-◌, ◌<◌, ◌≤◌, length, slice_get, IfNone, IfSome, OnErr, OnOk};
ghost use Rattle.std.specs.Option.{option_copied};
ghost use Rattle.zprotocol.specs.master.Table.{order_fault};
ghost use Rattle.zprotocol.specs.Posts.{Puts};
ghost use Rattle.zmaster.specs.declared.limits.TheConstants.{MAX_POSTS};
ghost use Rattle.zprotocol.specs.declared.limits.TheConstants.{MAX_SERVERS};
ghost use Rattle.zmaster_log.specs.Log.{opened, is_live, count_of, join_played, retire_played};
ghost use Rattle.zmaster_log.specs.Log.{subject_of, message_of, is_next, gone_after, report_played};

use crate::entry::{News, Report};
use crate::limits::SERVERS;
use crate::node_name::NodeName;
use crate::node_names::NodeNames;
use std::marker::Model;
use zalloc::Memory;
use zmaster::{MAX_POSTS, Master};
use zprotocol::{Message, Order, OrderFault, Out, Process, ServerId};

/// The master, the node of each server, and what was heard of each server.
#[derive(Drop)]
pub(crate) struct Membership {
    master: Master,
    nodes: Vec<NodeName>,
    counts: [u64; SERVERS],
    gone: [bool; SERVERS],
}

impl Model for Membership {
    ghost use Rattle.zmaster_log.specs.Log.{MembershipView};

    ghost Value = { MembershipView };

    ghost view = { λ m. record {
      master = m.master;
      nodes = m.nodes.items;
      counts = m.counts;
      gone = m.gone;
    } };
}

impl Membership {
    /// Returns what the opening makes: a server on each of these nodes.
    #[tactic(auto, unfolding(crate::specs::Log::opened))]
    pub(crate) fn opened(nodes: NodeNames) -> Membership
        ensures { result ≡ opened nodes }
    {
        let nodes = nodes.into_names();
        let Some(last) = ServerId::new(nodes.len() as u8) else {
            unreachable!();
        };
        Membership {
            master: Master::new(last, 0),
            nodes,
            counts: [0; SERVERS],
            gone: [false; SERVERS],
        }
    }

    /// Returns whether the server has joined, or was in the initial chain, and isn't gone.
    pub(crate) fn is_live(&self, server: ServerId) -> bool
        ensures { result ≡ is_live self.now server }
    {
        let at = server.number() as usize;
        at <= self.nodes.len() && !self.gone[at - 1]
    }

    /// Returns how many reports of the server were played.
    pub(crate) fn count_of(&self, server: ServerId) -> u64
        ensures { result ≡ count_of self.now server }
    {
        self.counts[server.number() as usize - 1]
    }

    /// Returns the number of the next server that joins, or `None` if all are used.
    pub(crate) fn next_server(&self) -> Option<ServerId>
        ensures next { IfSome result (λ s. s ≡ length self.now.nodes + 1) }
        ensures none { IfNone result (MAX_SERVERS < length self.now.nodes + 1) }
    {
        if self.nodes.len() >= SERVERS {
            return None;
        }
        ServerId::new(self.nodes.len() as u8 + 1)
    }

    /// Returns the node of a server.
    pub(crate) fn node_of(&self, server: ServerId) -> Option<&NodeName>
        ensures { option_copied result ≡ slice_get self.now.nodes (server - 1) }
    {
        self.nodes.get(server.number() as usize - 1)
    }

    /// Returns why the master refuses an order now.
    pub(crate) fn order_fault(&self, order: &Order) -> Option<OrderFault>
        ensures { result ≡ order_fault self.now.master order.now }
    {
        self.master.order_fault(order)
    }

    /// Lets a server join on this node, if its number is the next one and the master allows it.
    #[tactic(auto, unfolding(crate::specs::Log::join_played))]
    pub(crate) fn join<T: Drop>(
        &mut self,
        server: ServerId,
        node: NodeName,
        posts: &mut Out<T>,
    ) -> Result<(), Memory>
        requires { MAX_POSTS ≤ posts.old.room }
        ensures next { OnOk result (self.new ≡ (join_played {T = T} self.old server node).0) }
        ensures puts { OnOk result
            (Puts posts.old posts.new (join_played self.old server node).1) }
        ensures same { OnErr result (self.new ≡ self.old) }
    {
        if server.number() as usize != self.nodes.len() + 1 {
            return Ok(());
        }
        if self.master.order_fault(&Order::Join(server)).is_some() {
            return Ok(());
        }
        self.nodes.push(node)?;
        if self.master.join(server, posts).is_err() {
            unreachable!();
        }
        Ok(())
    }

    /// Orders a member to leave, if the master allows it.
    #[tactic(auto, unfolding(crate::specs::Log::retire_played))]
    pub(crate) fn retire<T: Drop>(&mut self, server: ServerId, posts: &mut Out<T>)
        requires { MAX_POSTS ≤ posts.old.room }
        ensures next { self.new ≡ (retire_played {T = T} self.old server).0 }
        ensures puts { Puts posts.old posts.new (retire_played self.old server).1 }
    {
        if self.master.order_fault(&Order::Retire(server)).is_some() {
            return;
        }
        if self.master.retire(server, posts).is_err() {
            unreachable!();
        }
    }

    /// Gives a report to the master, if it is the next one of its author.
    #[tactic(auto, unfolding(crate::specs::Log::report_played))]
    pub(crate) fn report<T: Drop>(&mut self, report: &Report, posts: &mut Out<T>)
        requires { MAX_POSTS ≤ posts.old.room }
        ensures next { self.new ≡ (report_played {T = T} self.old report.now).0 }
        ensures puts { Puts posts.old posts.new (report_played self.old report.now).1 }
    {
        if !self.is_next(report) {
            return;
        }
        let sender = Process::Server(subject_of(report.author, &report.news));
        let message = message_of(&report.news);
        self.master.take(sender, message, posts);
        self.counts[report.author.number() as usize - 1] = report.earlier.number() + 1;
        mark_gone(&mut self.gone, &report.news);
    }

    // Returns whether the report is the next one of its author, and no server in it is gone.
    fn is_next(&self, report: &Report) -> bool
        ensures { result ≡ is_next self.now report.now }
    {
        self.is_live(report.author)
            && self.count_of(report.author) == report.earlier.number()
            && self.is_live(subject_of(report.author, &report.news))
    }
}

// Marks the server that is gone by this, if any.
fn mark_gone(gone: &mut [bool; SERVERS], news: &News)
    ensures { gone.new ≡ gone_after gone.old news.now }
{
    match news {
        News::Have(_, _) | News::Joined(_) => {}
        News::Gone(server) => gone[server.number() as usize - 1] = true,
    }
}

// Returns the server that a report is about.
fn subject_of(author: ServerId, news: &News) -> ServerId
    ensures { result ≡ subject_of author news.now }
{
    match news {
        News::Have(_, _) | News::Joined(_) => author,
        News::Gone(server) => *server,
    }
}

// Returns the message of that server that the master takes.
fn message_of<T>(news: &News) -> Message<T>
    ensures { result ≡ message_of news.now }
{
    match news {
        News::Have(epoch, last) => Message::Have(*epoch, *last),
        News::Joined(epoch) => Message::Joined(*epoch),
        News::Gone(_) => Message::Gone,
    }
}
