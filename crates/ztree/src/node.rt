//! A znode and its stat.

use crate::node_data::Data;
use crate::term::Term;
use crate::zxid::Zxid;
use zalloc::Memory;

/// A znode: the fields of the stat structure (ZooKeeper Programmer's Guide, "ZooKeeper Stat
/// Structure"), its data, its term, and the counter that this project's profile gives each node.
#[derive(Drop)]
pub struct Node {
    /// The data.
    pub bytes: Data,
    /// The zxid of the change that created the node.
    pub czxid: Zxid,
    /// The zxid of the last change of its data.
    pub mzxid: Zxid,
    /// The zxid of the last change of its children.
    pub pzxid: Zxid,
    /// The tick at which it was created.
    pub ctime: u64,
    /// The tick of the last change of its data.
    pub mtime: u64,
    /// The number of changes of its data.
    pub version: u64,
    /// The number of times a child was created or removed.
    pub cversion: u64,
    /// The number of writes of its access control list.
    pub aversion: u64,
    /// The id of the session that owns it, or 0 for a persistent node.
    pub owner: u64,
    /// The number that the next sequential create beneath it appends to the name.
    pub seq: u64,
    /// What a tick may remove it for.
    pub term: Term,
}

/// A node's stat: the stat structure of the ZooKeeper Programmer's Guide. The access control list of
/// every node is the open one, so a write of it is only counted.
#[derive(Clone, Copy, Debug, PartialEq, Eq)]
pub struct Stat {
    /// The zxid of the change that created the node.
    pub czxid: Zxid,
    /// The zxid of the last change of its data.
    pub mzxid: Zxid,
    /// The zxid of the last change of its children.
    pub pzxid: Zxid,
    /// The tick at which it was created.
    pub ctime: u64,
    /// The tick of the last change of its data.
    pub mtime: u64,
    /// The number of changes of its data.
    pub version: u64,
    /// The number of times a child was created or removed.
    pub cversion: u64,
    /// The number of writes of its access control list.
    pub aversion: u64,
    /// The id of the session that owns it; 2^63 for a container, or 0 for any other node.
    pub owner: u64,
    /// The size of its data, in bytes.
    pub length: u64,
    /// The number of its children.
    pub children: u64,
}

impl Node {
    ghost use Rattle.std.specs.Prelude.{◌≡◌, IfOk};
    ghost use Rattle.ztree.specs.Tree.{new_node, stat_with};
    ghost use Rattle.ztree.specs.Stale.{is_due};

    /// Makes a node created by change `zxid` at tick `time`. The owner is a session's id, or 0 for
    /// none.
    pub fn new(bytes: Data, owner: u64, term: Term, zxid: Zxid, time: u64) -> Node
        ensures { result ≡ new_node bytes owner term zxid time }
    {
        Node {
            bytes,
            czxid: zxid,
            mzxid: zxid,
            pzxid: zxid,
            ctime: time,
            mtime: time,
            version: 0,
            cversion: 0,
            aversion: 0,
            owner,
            seq: 0,
            term,
        }
    }

    /// Returns the stat of the node, given the number of its children.
    pub fn stat(&self, children: u64) -> Stat
        ensures { result ≡ stat_with self.now children }
    {
        Stat {
            czxid: self.czxid,
            mzxid: self.mzxid,
            pzxid: self.pzxid,
            ctime: self.ctime,
            mtime: self.mtime,
            version: self.version,
            cversion: self.cversion,
            aversion: self.aversion,
            owner: self.term.shown_owner(self.owner),
            length: self.bytes.as_slice().len() as u64,
            children,
        }
    }

    /// Returns whether a tick removes the node if it has no children: its TTL has expired at the
    /// tick, or it is a container that has had children.
    pub fn is_due(&self, tick: u64) -> bool
        ensures { result ≡ is_due tick self.now }
    {
        match self.term {
            Term::Unlimited => false,
            Term::Timed(ttl) => tick.saturating_sub(self.mtime) >= ttl.ticks(),
            Term::Container => self.cversion > 0,
        }
    }

    /// Returns a copy of the node, or `Memory`.
    pub fn copied(&self) -> Result<Node, Memory>
        ensures { IfOk result (λ copy. copy ≡ self.now) }
    {
        Ok(Node {
            bytes: self.bytes.clone()?,
            czxid: self.czxid,
            mzxid: self.mzxid,
            pzxid: self.pzxid,
            ctime: self.ctime,
            mtime: self.mtime,
            version: self.version,
            cversion: self.cversion,
            aversion: self.aversion,
            owner: self.owner,
            seq: self.seq,
            term: self.term,
        })
    }
}
