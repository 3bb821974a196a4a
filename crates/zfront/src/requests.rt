//! Requests.
//!
//! # Why
//!
//! A request is done whole before the next is read. So no call comes between the two of a
//! getChildren2, and a create2 returns the stat that its node then has.

ghost use Rattle.std.specs.Prelude.{◌≡◌, OnOk};
ghost use Rattle.zrequests.specs.Requests.{calls_in};
ghost use Rattle.zresponses.specs.effects.Answering.{answered, now_of};
ghost use Rattle.zfront.specs.Front.{with_tables};
ghost use Rattle.zfront.specs.Requests.{Acts, ActsOr, Makes, Serves, Tells};
ghost use Rattle.zfront.specs.Walks.{walked};

use crate::inner::Inner;
use zalloc::Memory;
use zcalls::{Call, Reply};
use zjute::{ReadError, Request, read_request};
use zrequests::{Unasked, calls_of};
use zresponses::effects::{Done, answer, reply};
use zresponses::{Answer, Now, named, refused_answer, told};
use ztree::SessionId;
use ztree_service::TreeService;

impl<T: TreeService> Inner<T> {
    // Handles a frame of a session. Invalid bytes close the connection.
    pub(crate) fn serve(
        &mut self,
        bytes: &[u8],
        session: SessionId,
        connection: u32,
    ) -> Result<(), Memory>
        ensures { OnOk result (Serves bytes.now session connection self.old self.new) }
    {
        match read_request(self.alloc, bytes) {
            Ok(request) => {
                self.tables.touch(session);
                let request = named(self.alloc, &self.clock, request)?;
                self.act_or_walk(&request, session, connection)
            }
            Err(ReadError::Fault(_)) => self.tables.close(connection),
            Err(ReadError::Memory) => Err(Memory),
        }
    }

    // Handles a request, after its session's flag is set.
    fn act_or_walk(
        &mut self,
        request: &Request,
        session: SessionId,
        connection: u32,
    ) -> Result<(), Memory>
        ensures { OnOk result (ActsOr (walked session request.now.asked self.old.tree)
            (calls_in self.old.clock.terms session request.now.asked) connection request.now
            self.old self.new) }
    {
        match self.walk(session, &request.asked)? {
            Some(answer) => self.tell(answer, request, connection),
            None => self.act(request, session, connection),
        }
    }

    // Handles a request that is no walk.
    fn act(&mut self, request: &Request, session: SessionId, connection: u32) -> Result<(), Memory>
        ensures { OnOk result (Acts (calls_in self.old.clock.terms session request.now.asked)
            connection request.now self.old self.new) }
    {
        match calls_of(self.alloc, self.clock.terms, session, &request.asked) {
            Ok(calls) => self.make(calls.as_slice(), request, connection),
            Err(Unasked::Refused(code)) => {
                let answer = refused_answer(self.alloc, code, &request.asked)?;
                self.tell(answer, request, connection)
            }
            Err(Unasked::Memory) => Err(Memory),
        }
    }

    // Makes the calls of a request, and sends its answer.
    fn make(&mut self, calls: &[Call], request: &Request, connection: u32) -> Result<(), Memory>
        ensures { OnOk result (Makes calls.now connection request.now self.old self.new) }
    {
        let ids = self.ending(calls)?;
        let paths = self.watched(calls, &ids)?;
        let replies = self.ask(calls)?;
        self.answer(calls, request, connection, &replies)?;
        self.tidy(calls, &replies, &ids, &paths)
    }

    // Sends the answer to a request whose calls were made.
    fn answer(
        &mut self,
        calls: &[Call],
        request: &Request,
        connection: u32,
        replies: &[Reply],
    ) -> Result<(), Memory>
        ensures { OnOk result (self.new ≡ with_tables (answered self.old.clock
            (now_of self.old.tree) connection request.now calls.now replies.now
            self.old.tables) self.old) }
    {
        let (zxid, time) = self.service.clock()?;
        let now = Now { zxid, time };
        let done = Done {
            connection,
            request,
            calls,
            replies,
        };
        answer(self.alloc, &mut self.tables, &self.clock, &now, &done)
    }

    // Sends an answer without a call.
    fn tell(&mut self, answer: Answer, request: &Request, connection: u32) -> Result<(), Memory>
        ensures { OnOk result (Tells answer connection request.now self.old self.new) }
    {
        let zxid = told(&self.clock, self.last_change()?);
        reply(
            self.alloc,
            &mut self.tables,
            zxid,
            connection,
            request.xid,
            answer,
        )
    }
}
