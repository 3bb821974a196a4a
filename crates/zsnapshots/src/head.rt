//! The header that a reader holds.

ghost use Rattle.std.specs.Prelude.{◌≡◌};

use crate::header::Header;
use std::marker::Model;
use zprotocol::LogNumber;
use ztree::{TreeLimits, Zxid};

/// A header that is held beside the machine being read.
#[derive(Drop)]
pub(crate) struct Head {
    pub(crate) last: LogNumber,
    pub(crate) time: u64,
    pub(crate) zxid: Zxid,
    pub(crate) limits: TreeLimits,
    pub(crate) sessions: u32,
    pub(crate) nodes: u32,
    pub(crate) replies: u32,
}

impl Model for Head {
    ghost use Rattle.zsnapshots.specs.declared.header.Header.{Header};
    ghost use Rattle.zsnapshots.specs.contracts.header.Header as header;

    ghost Value = { Header };

    ghost coded = { header.the_row.coded };

    ghost view = { λ h. record {
      last = h.last;
      time = h.time;
      zxid = h.zxid;
      limits = h.limits;
      sessions = h.sessions;
      nodes = h.nodes;
      replies = h.replies;
    } };
}

impl Head {
    /// Holds a header.
    pub(crate) fn of(header: Header) -> Head
        ensures { result ≡ header }
    {
        Head {
            last: header.last,
            time: header.time,
            zxid: header.zxid,
            limits: header.limits,
            sessions: header.sessions,
            nodes: header.nodes,
            replies: header.replies,
        }
    }

    /// Returns the header.
    pub(crate) fn header(&self) -> Header
        ensures { result ≡ self.now }
    {
        Header {
            last: self.last,
            time: self.time,
            zxid: self.zxid,
            limits: self.limits,
            sessions: self.sessions,
            nodes: self.nodes,
            replies: self.replies,
        }
    }
}
