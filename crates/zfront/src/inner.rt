//! The state of a front that has memory.

ghost use Rattle.std.specs.Prelude.{◌≡◌, IfOk, OnOk};
ghost use Rattle.zconnections.specs.buffers.Inputs.{input_of};
ghost use Rattle.zfront.specs.Inputs.{Does};
ghost use Rattle.zfront.specs.Restoring.{all_taken, beginning};

use crate::beginning::tables_of;
use std::alloc::Global;
use std::marker::Model;
use std::mem;
use zalloc::Memory;
use zcalls::Update;
use zconnections::Tables;
use zconnections::buffers::Input;
use zpasswords::Secret;
use zresponses::Clock;
use ztree_service::TreeService;
use zwatches::WatchLimits;

// The service of the tree, the tables, and the recorded updates. After a call ran out of memory,
// the contracts promise nothing of it.
#[derive(Drop)]
pub(crate) struct Inner<T: TreeService> {
    pub(crate) alloc: Global,
    pub(crate) service: T,
    pub(crate) tables: Tables,
    // Whether updates are recorded, and those not yet taken.
    pub(crate) is_kept: bool,
    pub(crate) made: Vec<Update>,
    pub(crate) secret: Secret,
    pub(crate) clock: Clock,
}

impl<T: TreeService> Model for Inner<T> {
    ghost use Rattle.zfront.specs.Front.{FrontView};
    ghost use Rattle.zfront.specs.support.Codes.{coded_front};

    ghost Value = { FrontView };

    ghost coded = { coded_front };

    ghost view = { λ f. record {
      tree = T.tree f.service;
      tables = f.tables;
      is_kept = f.is_kept;
      made = f.made.items;
      secret = f.secret;
      clock = f.clock;
    } };
}

impl<T: TreeService + Drop> Inner<T> {
    // Returns a front that begins with the service's tree.
    pub(crate) fn new(
        alloc: Global,
        service: T,
        secret: Secret,
        clock: Clock,
        limits: WatchLimits,
        is_kept: bool,
    ) -> Result<Inner<T>, Memory>
        ensures { IfOk result
            (λ v. v ≡ beginning limits (T.tree service) secret clock is_kept) }
    {
        let sessions = service.session_ids()?;
        let tables = tables_of(alloc, limits, &sessions)?;
        Ok(Inner {
            alloc,
            service,
            tables,
            is_kept,
            made: Vec::new(alloc),
            secret,
            clock,
        })
    }

    // Handles an input.
    pub(crate) fn take(&mut self, input: Input<'_>) -> Result<(), Memory>
        ensures { OnOk result (Does (input_of input.entry) self.old self.new) }
    {
        match input {
            Input::Opened(connection) => self.tables.open(connection),
            Input::Came(connection, bytes) => self.came(connection, bytes),
            Input::Ended(connection) => {
                self.tables.end(connection);
                Ok(())
            }
            Input::Tick => self.tick(),
        }
    }

    // Removes and returns the recorded updates.
    pub(crate) fn take_made(&mut self) -> Vec<Update>
        ensures all { result.items ≡ self.old.made }
        ensures taken { self.new ≡ all_taken self.old }
    {
        mem::replace(&mut self.made, Vec::new(self.alloc))
    }
}
