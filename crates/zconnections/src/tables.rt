//! The tables.

ghost use Rattle.std.specs.Prelude.{◌≡◌, []};
ghost use Rattle.std.specs.FinMap as finite;
ghost use Rattle.std.specs.FinSet as sets;

use crate::attachments::Attachments;
use crate::buffers::{Outbox, Streams};
use std::alloc::Global;
use std::marker::Model;
use zwatches::{WatchLimits, Watches};

/// The connections, the sessions, the watches with their limits, and the chunks to be sent.
///
/// After a call ran out of memory, the contracts promise nothing of the tables.
#[derive(Drop)]
pub struct Tables {
    pub(crate) alloc: Global,
    pub(crate) streams: Streams,
    pub(crate) attachments: Attachments,
    pub(crate) watches: Watches,
    pub(crate) limits: WatchLimits,
    pub(crate) outbox: Outbox,
}

impl Model for Tables {
    ghost use Rattle.zconnections.specs.Tables.{TablesView};
    ghost use Rattle.zconnections.specs.support.Codes.{coded_tables};

    ghost Value = { TablesView };

    ghost coded = { coded_tables };

    ghost view = { λ t. record {
      streams = t.streams;
      attachments = t.attachments;
      watches = t.watches;
      limits = t.limits;
      unsent = t.outbox;
    } };
}

impl Tables {
    /// Returns empty tables, with these limits of watches. Allocates nothing.
    pub fn new(alloc: Global, limits: WatchLimits) -> Tables
        ensures { result ≡ record {
          streams = finite.empty;
          attachments = finite.empty;
          watches = sets.empty;
          limits = limits;
          unsent = [];
        } }
    {
        Tables {
            alloc,
            streams: Streams::new(alloc),
            attachments: Attachments::new(alloc),
            watches: Watches::new(alloc),
            limits,
            outbox: Outbox::new(alloc),
        }
    }

    /// Returns the number of connections.
    pub fn connections(&self) -> usize
        ensures { result ≡ finite.len self.now.streams }
    {
        self.streams.count()
    }

    /// Returns the number of sessions.
    pub fn sessions(&self) -> usize
        ensures { result ≡ finite.len self.now.attachments }
    {
        self.attachments.count()
    }

    /// Returns the number of watches.
    pub fn watches(&self) -> usize
        ensures { result ≡ sets.len self.now.watches }
    {
        self.watches.count()
    }
}
