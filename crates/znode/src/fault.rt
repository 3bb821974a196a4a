//! What ends a node.

ghost use Rattle.std.specs.Prelude.{◌≡◌};

use std::alloc::{AllocError, AllocFailed};
use std::fmt;
use thiserror::Error;
use zalloc::Memory;
use zarguments::WordsFault;
use zcodec::ReadError;
use zmaster_log::PlayFault;
use zpeers::PeerFault;
use zwire::WriteError;

/// Why an input wasn't taken, or not as a whole. The node takes no further one then.
#[derive(Clone, Copy, Debug, PartialEq, Eq, Error)]
pub enum NodeFault {
    /// Out of memory.
    Memory,
    /// An entry's bytes are none.
    Entry,
    /// An entry isn't the next one, or the log is full.
    Order,
    /// A record of a link, while the node has no server.
    NoServer,
    /// A record of a link from the master, which has none.
    Master,
    /// A record of a link that no server sends. One of a client is dropped.
    Peer(PeerFault),
    /// A message that its server put is too long for a frame.
    TooLong,
}

impl NodeFault {
    ghost use Rattle.znode.specs.Running.{node_status, node_text};

    /// Returns the line that a program reports.
    pub fn text(self) -> &'static str
        ensures { result.now ≡ node_text self }
    {
        match self {
            NodeFault::Memory => "zk: memory",
            NodeFault::Entry => "zk: an entry of the log is none",
            NodeFault::Order => "zk: an entry of the log isn't the next one",
            NodeFault::NoServer => "zk: a record of a link, and no server",
            NodeFault::Master => "zk: a record of a link from the master",
            NodeFault::Peer(_) => "zk: a record of a link that no peer sends",
            NodeFault::TooLong => "zk: a message is too long for a frame",
        }
    }

    /// Returns the exit status: 1 where memory ran out, else 65.
    pub fn status(self) -> u8
        ensures { result ≡ node_status self }
    {
        match self {
            NodeFault::Memory => 1,
            NodeFault::Entry
            | NodeFault::Order
            | NodeFault::NoServer
            | NodeFault::Master
            | NodeFault::Peer(_)
            | NodeFault::TooLong => 65,
        }
    }
}

impl fmt::Display for NodeFault {
    ghost use Rattle.std.specs.Prelude.{Some};
    ghost use Rattle.znode.specs.Running.{node_text};

    ghost output = { λ fault. Some (node_text fault) };

    fn fmt<W: fmt::Write>(&self, f: &mut fmt::Formatter<W>) -> fmt::Result {
        f.write_str(self.text())
    }
}

impl From<Memory> for NodeFault {
    ghost use Rattle.znode.specs.declared.fault.NodeFault.TheVariants as fault;

    ghost from_gives = { λ _ e. e ≡ fault.Memory };

    fn from(_: Memory) -> NodeFault {
        NodeFault::Memory
    }
}

impl From<AllocError> for NodeFault {
    ghost use Rattle.znode.specs.declared.fault.NodeFault.TheVariants as fault;

    ghost from_gives = { λ _ e. e ≡ fault.Memory };

    fn from(_: AllocError) -> NodeFault {
        NodeFault::Memory
    }
}

impl<T: Drop> From<AllocFailed<T>> for NodeFault {
    ghost use Rattle.znode.specs.declared.fault.NodeFault.TheVariants as fault;

    ghost from_gives = { λ _ e. e ≡ fault.Memory };

    fn from(_: AllocFailed<T>) -> NodeFault {
        NodeFault::Memory
    }
}

impl From<ReadError> for NodeFault {
    ghost use Rattle.znode.specs.support.Faults.{of_reading};

    ghost from_gives = { λ cause e. e ≡ of_reading cause };

    fn from(error: ReadError) -> NodeFault {
        match error {
            ReadError::Memory => NodeFault::Memory,
            ReadError::Fault(_) => NodeFault::Entry,
        }
    }
}

impl From<PlayFault> for NodeFault {
    ghost use Rattle.znode.specs.support.Faults.{of_playing};

    ghost from_gives = { λ cause e. e ≡ of_playing cause };

    fn from(fault: PlayFault) -> NodeFault {
        match fault {
            PlayFault::Memory => NodeFault::Memory,
            PlayFault::NotNext | PlayFault::Full => NodeFault::Order,
        }
    }
}

impl From<WriteError> for NodeFault {
    ghost use Rattle.znode.specs.support.Faults.{of_writing};

    ghost from_gives = { λ cause e. e ≡ of_writing cause };

    fn from(fault: WriteError) -> NodeFault {
        match fault {
            WriteError::TooLong => NodeFault::TooLong,
            WriteError::Memory => NodeFault::Memory,
        }
    }
}

impl From<PeerFault> for NodeFault {
    ghost use Rattle.znode.specs.support.Faults.{of_peer};

    ghost from_gives = { λ cause e. e ≡ of_peer cause };

    fn from(fault: PeerFault) -> NodeFault {
        match fault {
            PeerFault::Memory => NodeFault::Memory,
            fault => NodeFault::Peer(fault),
        }
    }
}

/// What ends the program of a node before its host does.
#[derive(Clone, Copy, Debug, PartialEq, Eq, Error)]
pub enum RunFault {
    /// Its words aren't understood, or there is no memory for them.
    Words(WordsFault),
    /// An input wasn't taken.
    Node(NodeFault),
    /// The bytes aren't those of a host.
    NoInput,
    /// The source failed.
    Read,
    /// The sink failed.
    Write,
}

impl RunFault {
    ghost use Rattle.znode.specs.Running.{run_status, run_text};

    /// Returns the line that the program reports.
    pub fn text(self) -> &'static str
        ensures { result.now ≡ run_text self }
    {
        match self {
            RunFault::Words(fault) => fault.text(),
            RunFault::Node(fault) => fault.text(),
            RunFault::NoInput => "zk: no input of a host",
            RunFault::Read => "zk: read failed",
            RunFault::Write => "zk: write failed",
        }
    }

    /// Returns the exit status: 1 where memory ran out, or a device failed; 2 for words; 65 for
    /// what no host gives.
    pub fn status(self) -> u8
        ensures { result ≡ run_status self }
    {
        match self {
            RunFault::Words(fault) => fault.status(),
            RunFault::Node(fault) => fault.status(),
            RunFault::NoInput => 65,
            RunFault::Read | RunFault::Write => 1,
        }
    }
}

impl fmt::Display for RunFault {
    ghost use Rattle.std.specs.Prelude.{Some};
    ghost use Rattle.znode.specs.Running.{run_text};

    ghost output = { λ fault. Some (run_text fault) };

    fn fmt<W: fmt::Write>(&self, f: &mut fmt::Formatter<W>) -> fmt::Result {
        f.write_str(self.text())
    }
}

impl From<WordsFault> for RunFault {
    ghost use Rattle.znode.specs.declared.fault.RunFault.TheVariants as fault;

    ghost from_gives = { λ cause e. e ≡ fault.Words cause };

    fn from(fault: WordsFault) -> RunFault {
        RunFault::Words(fault)
    }
}

impl From<NodeFault> for RunFault {
    ghost use Rattle.znode.specs.declared.fault.RunFault.TheVariants as fault;

    ghost from_gives = { λ cause e. e ≡ fault.Node cause };

    fn from(fault: NodeFault) -> RunFault {
        RunFault::Node(fault)
    }
}

impl From<Memory> for RunFault {
    ghost use Rattle.znode.specs.declared.fault.NodeFault.TheVariants as node;
    ghost use Rattle.znode.specs.declared.fault.RunFault.TheVariants as fault;

    ghost from_gives = { λ _ e. e ≡ fault.Node node.Memory };

    fn from(_: Memory) -> RunFault {
        RunFault::Node(NodeFault::Memory)
    }
}

impl From<AllocError> for RunFault {
    ghost use Rattle.znode.specs.declared.fault.NodeFault.TheVariants as node;
    ghost use Rattle.znode.specs.declared.fault.RunFault.TheVariants as fault;

    ghost from_gives = { λ _ e. e ≡ fault.Node node.Memory };

    fn from(_: AllocError) -> RunFault {
        RunFault::Node(NodeFault::Memory)
    }
}

impl<T: Drop> From<AllocFailed<T>> for RunFault {
    ghost use Rattle.znode.specs.declared.fault.NodeFault.TheVariants as node;
    ghost use Rattle.znode.specs.declared.fault.RunFault.TheVariants as fault;

    ghost from_gives = { λ _ e. e ≡ fault.Node node.Memory };

    fn from(_: AllocFailed<T>) -> RunFault {
        RunFault::Node(NodeFault::Memory)
    }
}
