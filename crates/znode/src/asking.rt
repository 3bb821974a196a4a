//! What a node wants to be appended to the log.

ghost use Rattle.std.specs.Prelude.{◌≡◌, IfOk};
ghost use Rattle.znode.specs.Entries.{first_of, wanted, wanted_number, wanted_opening};
ghost use Rattle.znode.specs.Entries.{wanted_report};

use crate::node::Node;
use std::alloc::{AllocError, Global};
use zmaster_log::{EntryCount, LogEntry, NodeName, NodeNames, Report};
use zprotocol::{Order, ServerId};

impl Node {
    /// Returns the entry that it wants as the next one: one that gives it a number, and from then
    /// on its first report.
    pub(crate) fn wanted(&self) -> Result<Option<LogEntry>, AllocError>
        ensures { IfOk result (λ entry. entry ≡ wanted self.now) }
    {
        match self.replica.own() {
            None => self.wanted_number(),
            Some(own) => Ok(self.wanted_report(own)),
        }
    }

    // Returns the entry that gives it a number, if the master allows it now.
    fn wanted_number(&self) -> Result<Option<LogEntry>, AllocError>
        ensures { IfOk result (λ entry. entry ≡ wanted_number self.now) }
    {
        let Some(next) = self.replica.next_server() else {
            return self.wanted_opening();
        };
        next.keeps_in_range();
        if self.replica.order_fault(&Order::Join(next)).is_some() {
            return Ok(None);
        }
        Ok(Some(LogEntry::Join(next, copied(self.alloc, &self.name)?)))
    }

    // Returns the entry that opens the log, if it is empty and the node may open it.
    fn wanted_opening(&self) -> Result<Option<LogEntry>, AllocError>
        ensures { IfOk result (λ entry. entry ≡ wanted_opening self.now) }
    {
        if !self.opens || self.replica.played().number() != 0 {
            return Ok(None);
        }
        let mut names = Vec::new(self.alloc);
        names.push(copied(self.alloc, &self.name)?)?;
        match NodeNames::new(names) {
            Some(names) => Ok(Some(LogEntry::Opening(names))),
            None => unreachable!(),
        }
    }

    // Returns its first report.
    fn wanted_report(&self, own: ServerId) -> Option<LogEntry>
        ensures { result ≡ wanted_report self.now.replica.state own
            (first_of self.now.seat.reports) }
    {
        let news = self.seat.reports().first()?;
        let earlier = EntryCount::new(self.replica.reports_of(own))?;
        Some(LogEntry::Reported(Report {
            author: own,
            earlier,
            news,
        }))
    }
}

// Returns a copy of a name.
fn copied(alloc: Global, name: &NodeName) -> Result<NodeName, AllocError>
    ensures { IfOk result (λ copy. copy ≡ name.now) }
{
    match NodeName::new(Vec::from_slice(alloc, name.as_bytes())?) {
        Some(name) => Ok(name),
        None => unreachable!(),
    }
}
