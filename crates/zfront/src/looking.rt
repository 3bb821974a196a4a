//! Sessions that ended, and watched nodes deleted with them.
//!
//! # Why
//!
//! No reply names what a tick or the end of a session deletes. A mirror of all ephemeral nodes,
//! parents and TTLs would be a second tree to prove. So before such a call the front notes which
//! nodes the service may remove, and which of these and of their parents are watched. It checks
//! them after the call, and only when nodes may be gone.
//!
//! The check is made in the same input, so no flag says that one is due. Its queries are outside
//! the log: they change nothing, and no client gets their replies.
//!
//! Only a close or a tick ends sessions (`may_end`). So around other calls nothing is checked.

ghost use Rattle.std.specs.Prelude.{◌≡◌, IfOk, OnOk};
ghost use Rattle.std.specs.List.{filter, list_any};
ghost use Rattle.zjute.specs.declared.event.EventKind.TheVariants.{NodeDeleted};
ghost use Rattle.zwatches.specs.Events.{is_awaited};
ghost use Rattle.zfront.specs.Front.{ending, gone_from, looked, looked_if, looks, may_end, swept};
ghost use Rattle.zfront.specs.Front.{takes_nodes, tidied, took_unnamed, watched};

use crate::ends::{make_rising, with_parents};
use crate::inner::Inner;
use zalloc::Memory;
use zcalls::{Call, Query, Reply, Update};
use zpath::Path;
use zresponses::effects::look;
use ztree::SessionId;
use ztree_service::TreeService;

impl<T: TreeService> Inner<T> {
    // Returns the watched ones, in order, of the nodes that these calls may remove and of their
    // parents, where the calls may end these sessions.
    pub(crate) fn watched(&self, calls: &[Call], ids: &[SessionId]) -> Result<Vec<Path>, Memory>
        requires { ids.now ≡ ending calls.now self.now.tree }
        ensures { IfOk result (λ paths. paths.items ≡ watched calls.now self.now) }
    {
        let doomed = self.doomed(calls, ids)?;
        let mut paths = with_parents(self.alloc, doomed)?;
        self.keep_watched(&mut paths);
        make_rising(&mut paths);
        Ok(paths)
    }

    // Retains the paths whose deletion some watch waits for.
    fn keep_watched(&self, paths: &mut Vec<Path>)
        ensures { paths.new.items
            ≡ filter (is_awaited self.now.tables.watches NodeDeleted) paths.old.items }
    {
        paths.retain(|path| self.tables.awaits_end(path));
    }

    // Removes those of these sessions that the calls ended. Checks the nodes that were watched
    // before, if some may be gone.
    pub(crate) fn tidy(
        &mut self,
        calls: &[Call],
        replies: &[Reply],
        ids: &[SessionId],
        paths: &[Path],
    ) -> Result<(), Memory>
        ensures { OnOk result
            (self.new ≡ tidied calls.now replies.now ids.now paths.now self.old) }
    {
        if one_may_end(calls) {
            return self.sweep_and_look(replies, ids, paths);
        }
        Ok(())
    }

    // Removes those of these sessions that ended. Checks these nodes if some may be gone.
    fn sweep_and_look(
        &mut self,
        replies: &[Reply],
        ids: &[SessionId],
        paths: &[Path],
    ) -> Result<(), Memory>
        ensures { OnOk result (self.new ≡ looked_if (took_unnamed replies.now ids.now self.old)
            paths.now (swept ids.now self.old)) }
    {
        let gone = self.gone_among(ids)?;
        let made = self.tables.sweep(&gone)?;
        if one_takes_nodes(replies) || made {
            return self.look_at(paths);
        }
        Ok(())
    }

    // Returns those of these sessions that the tree no longer has.
    fn gone_among(&self, ids: &[SessionId]) -> Result<Vec<SessionId>, Memory>
        ensures { IfOk result (λ gone. gone.items ≡ gone_from ids.now self.now) }
    {
        let mut gone = Vec::new(self.alloc);
        for id in ids {
            if self.service.session(*id)?.is_none() {
                gone.push(*id)?;
            }
        }
        Ok(gone)
    }

    // Checks nodes.
    fn look_at(&mut self, paths: &[Path]) -> Result<(), Memory>
        ensures { OnOk result (self.new ≡ looked paths.now self.old) }
    {
        let replies = self.seen_at(paths)?;
        let zxid = self.last_change()?;
        look(self.alloc, &mut self.tables, zxid, paths, &replies)
    }

    // Returns the reply to an exists query at each path.
    fn seen_at(&self, paths: &[Path]) -> Result<Vec<Reply>, Memory>
        ensures { IfOk result
            (λ replies. replies.items ≡ looks self.now.tree paths.now) }
    {
        let mut replies = Vec::new(self.alloc);
        for path in paths {
            let path = path.clone()?;
            let reply = self.service.ask(&Query::Exists(path))?;
            replies.push(reply)?;
        }
        Ok(replies)
    }
}

// Returns whether one of these calls may end sessions.
fn one_may_end(calls: &[Call]) -> bool
    ensures { result ≡ list_any may_end calls.now }
{
    for call in calls {
        if may_end(call) {
            return true;
        }
    }
    false
}

// Returns whether a call may end sessions.
fn may_end(call: &Call) -> bool
    ensures { result ≡ may_end call.now }
{
    matches!(call, Call::Update(Update::Close(_) | Update::Tick))
}

// Returns whether a tick among these calls deleted nodes.
fn one_takes_nodes(replies: &[Reply]) -> bool
    ensures { result ≡ list_any takes_nodes replies.now }
{
    for reply in replies {
        if takes_nodes(reply) {
            return true;
        }
    }
    false
}

// Returns whether a tick deleted nodes.
fn takes_nodes(reply: &Reply) -> bool
    ensures { result ≡ takes_nodes reply.now }
{
    matches!(reply, Reply::Ticked(_, _, removed) if *removed > 0)
}
