//! The reports that aren't in the log yet.

ghost use Rattle.std.specs.Prelude.{◌≡◌, [], ◌∷◌, ◌++◌, drop, OnOk, OnErr};
ghost use Rattle.zmaster_log.specs.Log.{has_live};
ghost use Rattle.znode.specs.Entries.{first_of, is_idle, without_idle};
ghost use Rattle.znode.specs.Steps.{accuses, is_accusation};

use std::alloc::Global;
use std::marker::Model;
use zalloc::Memory;
use zmaster_log::{MasterReplica, News};
use zprotocol::ServerId;

/// The reports of a server that aren't in the log yet, in order.
#[derive(Drop)]
pub(crate) struct Reports {
    waiting: Vec<News>,
}

impl Model for Reports {
    ghost use Rattle.std.specs.Prelude.{List};
    ghost use Rattle.zmaster_log.specs.declared.entry.News.{News};

    ghost Value = { List News };

    ghost view = { λ r. r.waiting.items };
}

impl Reports {
    /// Returns none.
    pub(crate) fn new(alloc: Global) -> Reports
        ensures { result ≡ [] }
    {
        Reports {
            waiting: Vec::new(alloc),
        }
    }

    /// Appends a report.
    pub(crate) fn put(&mut self, news: News) -> Result<(), Memory>
        ensures put { OnOk result (self.new ≡ self.old ++ news ∷ []) }
        ensures same { OnErr result (self.new ≡ self.old) }
    {
        self.waiting.extend_from_slice(&[news])?;
        Ok(())
    }

    /// Returns the first report.
    pub(crate) fn first(&self) -> Option<News>
        ensures { result ≡ first_of self.now }
    {
        match self.waiting.first() {
            Some(news) => Some(*news),
            None => None,
        }
    }

    /// Removes the first report.
    pub(crate) fn remove_first(&mut self)
        ensures { self.new ≡ drop 1 self.old }
    {
        if !self.waiting.is_empty() {
            let _ = self.waiting.remove(0);
        }
    }

    /// Returns whether it is among them that the server is gone.
    pub(crate) fn accuse(&self, server: ServerId) -> bool
        ensures { result ≡ accuses server self.now }
    {
        accuse(&self.waiting, server)
    }

    /// Removes the first reports, as long as they are that a server is gone which isn't live.
    pub(crate) fn remove_idle(&mut self, replica: &MasterReplica)
        ensures { self.new ≡ without_idle replica.now.state self.old }
    {
        while let Some(news) = self.first() {
            if !is_idle(&news, replica) {
                return;
            }
            self.remove_first();
        }
    }
}

// Returns whether it is among the reports that the server is gone.
fn accuse(reports: &[News], server: ServerId) -> bool
    ensures { result ≡ accuses server reports.now }
{
    let Some((first, rest)) = reports.split_first() else {
        return false;
    };
    if is_accusation(first, server) {
        return true;
    }
    accuse(rest, server)
}

// Returns whether this is the report that the server is gone.
fn is_accusation(news: &News, server: ServerId) -> bool
    ensures { result ≡ is_accusation server news.now }
{
    match news {
        News::Gone(accused) => accused.number() == server.number(),
        News::Have(_, _) | News::Joined(_) => false,
    }
}

// Returns whether this is the report that a server is gone which isn't live.
fn is_idle(news: &News, replica: &MasterReplica) -> bool
    ensures { result ≡ is_idle replica.now.state news.now }
{
    match news {
        News::Gone(accused) => !replica.is_live(*accused),
        News::Have(_, _) | News::Joined(_) => false,
    }
}
