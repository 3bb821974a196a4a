//! A snapshot whose state is being loaded.

ghost use Rattle.std.specs.Prelude.{◌≡◌, true, IsFalse, IfOk, IfErr, OnOk, OnErr};
ghost use Rattle.zsnapshots.specs.Loading.{nothing_loaded, rows_loaded, bytes_loaded, is_whole, IsLoaded};
ghost use Rattle.zsnapshots.specs.Loading.{AreOfNone};
ghost use Rattle.zpeers.specs.declared.fault.PeerFault.TheVariants.{Memory as OfMemory};
ghost use Rattle.zpeers.specs.support.Arriving.{IsFinished, IsRowRefused};

use crate::fault::PeerFault;
use std::alloc::Global;
use std::marker::Model;
use zprotocol::{Epoch, Message};
use zserver::Snapshot;
use zsnapshots::Loading;

/// A snapshot whose state is being loaded: its epoch, and the rows that came.
#[derive(Drop)]
pub(crate) struct Arriving {
    epoch: Epoch,
    rows: Loading,
}

impl Model for Arriving {
    ghost use Rattle.zpeers.specs.Incoming.{ArrivingView};
    ghost use Rattle.zpeers.specs.support.Codes.{coded_arriving};

    ghost Value = { ArrivingView };

    ghost coded = { coded_arriving };

    ghost view = { λ a. record { epoch = a.epoch; rows = a.rows } };
}

impl Arriving {
    /// Begins without a row.
    pub(crate) fn new(alloc: Global, epoch: Epoch) -> Arriving
        ensures { result ≡ record { epoch = epoch; rows = nothing_loaded } }
    {
        Arriving {
            epoch,
            rows: Loading::new(alloc),
        }
    }

    /// Takes the next row, which has its length before it. If it is refused, nothing has changed.
    pub(crate) fn take(&mut self, row: &[u8]) -> Result<(), PeerFault>
        ensures taken { OnOk result
            (IsLoaded (rows_loaded self.old.rows) (rows_loaded self.new.rows) row.now) }
        ensures epoch { self.new.epoch ≡ self.old.epoch }
        ensures fault { IfErr result (IsRowRefused self.old.rows row.now) }
        ensures same { OnErr result (self.new ≡ self.old) }
    {
        match self.rows.take(row) {
            Ok(()) => Ok(()),
            Err(fault) => Err(PeerFault::from(fault)),
        }
    }

    /// Returns whether all rows came.
    pub(crate) fn is_whole(&self) -> bool
        ensures whole { result ≡ is_whole self.now.rows }
        ensures part { IsFalse result → AreOfNone (bytes_loaded self.now.rows) }
    {
        self.rows.is_whole()
    }

    /// Returns the message, once all rows came; or `Memory`.
    pub(crate) fn finish(self, alloc: Global) -> Result<Message<Snapshot>, PeerFault>
        requires { is_whole self.rows ≡ true }
        ensures message { IfOk result (IsFinished self) }
        ensures memory { IfErr result (λ fault. fault ≡ OfMemory) }
    {
        let Some(machine) = self.rows.finish() else {
            unreachable!();
        };
        let snapshot = Snapshot::restored(alloc, machine)?;
        Ok(Message::Snapshot(self.epoch, snapshot))
    }
}
