//! Entries of the log.

ghost use Rattle.std.specs.Prelude.{◌≡◌, None, OnOk, IfErr};
ghost use Rattle.zpeers.specs.Records.{TreeTransfer};
ghost use Rattle.zmaster_log.specs.Log.{after_entry, entry_played, order_for, IsPlayFault};
ghost use Rattle.znode.specs.Entries.{has_asked, own_by, seat_by, own_at, seat_at, HearsOrder};
ghost use Rattle.znode.specs.Entries.{Plays};
ghost use Rattle.znode.specs.Steps.{IsNodeFault};
ghost use Rattle.znode.specs.pipe.Inputs.InputView.{Entry};
ghost use Rattle.znode.specs.support.Entries.{Obeys};

use crate::fault::NodeFault;
use crate::node::Node;
use zalloc::Memory;
use zmaster_log::{EntryCount, LogEntry, PlayFault, read_entry};
use zprotocol::{Process, ServerId};

impl Node {
    /// Plays the next entry. The server handles the order that it has for it, if it has one.
    pub(crate) fn play(&mut self, index: EntryCount, bytes: &[u8]) -> Result<(), NodeFault>
        ensures taken { OnOk result (Plays self.old index bytes.now self.new) }
        ensures fault { IfErr result (IsNodeFault self.old (Entry index bytes.now)) }
    {
        if index.number() != self.replica.played().number() {
            return Err(NodeFault::Order);
        }
        let entry = read_entry(self.alloc, bytes)?;
        self.enter(bytes, &entry)?;
        self.asked = None;
        self.is_at_end = false;
        self.obey(index, entry)?;
        self.seat.remove_idle(&self.replica);
        Ok(())
    }

    // Returns whether this node has asked for these bytes as the next entry.
    fn has_asked(&self, bytes: &[u8]) -> bool
        ensures { result ≡ has_asked self.now.asked bytes.now }
    {
        match &self.asked {
            Some(asked) => asked.as_slice() == bytes,
            None => false,
        }
    }

    // The next entry is in the log. The node may have asked for it.
    fn enter(&mut self, bytes: &[u8], entry: &LogEntry) -> Result<(), Memory>
        ensures { OnOk result (self.new ≡ record self.old {
          replica = record self.old.replica { own = own_at self.old bytes.now entry.now };
          seat = seat_at self.old bytes.now entry.now;
        }) }
    {
        if self.has_asked(bytes) {
            return self.come_in(entry);
        }
        Ok(())
    }

    // The entry that the node has asked for is in the log. By the first one it gets its number. Any
    // later one is its first report.
    fn come_in(&mut self, entry: &LogEntry) -> Result<(), Memory>
        ensures { OnOk result (self.new ≡ record self.old {
          replica = record self.old.replica { own = own_by self.old.replica.own entry.now };
          seat = seat_by self.old.replica.own entry.now self.old.seat;
        }) }
    {
        match self.replica.own() {
            Some(_) => {
                self.seat.remove_report();
                Ok(())
            }
            None => self.begin(entry),
        }
    }

    // The node gets its number, and its server begins.
    fn begin(&mut self, entry: &LogEntry) -> Result<(), Memory>
        requires { self.old.replica.own ≡ None }
        ensures { OnOk result (self.new ≡ record self.old {
          replica = record self.old.replica { own = own_by None entry.now };
          seat = seat_by None entry.now self.old.seat;
        }) }
    {
        match entry {
            LogEntry::Opening(_) => {
                self.seat.open(self.alloc)?;
                self.replica.act_as(ServerId::first());
                Ok(())
            }
            LogEntry::Join(server, _) => {
                self.replica.act_as(*server);
                Ok(())
            }
            LogEntry::Retire(_) | LogEntry::Reported(_) => Ok(()),
        }
    }

    // Plays an entry, and hands its order to the server.
    fn obey(&mut self, index: EntryCount, entry: LogEntry) -> Result<(), PlayFault>
        ensures taken { OnOk result (Obeys entry self.old self.new) }
        ensures index { OnOk result (index ≡ self.old.replica.played) }
        ensures fault { IfErr result (IsPlayFault self.old.replica index) }
    {
        let order = self.replica.play(self.alloc, index, entry)?;
        let Some(own) = self.replica.own() else {
            return Ok(());
        };
        let Some(order) = order else {
            return Ok(());
        };
        self.seat.hear(self.alloc, own, Process::Master, order)?;
        Ok(())
    }
}
