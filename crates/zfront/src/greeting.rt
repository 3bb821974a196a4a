//! Connect requests.

ghost use Rattle.std.specs.Prelude.{◌≡◌, OnOk};
ghost use Rattle.std.specs.Prelude.{Ok as Read};
ghost use Rattle.zfront.specs.Front.{with_tables};
ghost use Rattle.zfront.specs.Greeting.{greeted, greeted_by, opened, opening, returned, with_session};

use crate::inner::Inner;
use zalloc::Memory;
use zcalls::{Call, Reply, Update};
use zjute::{ConnectRequest, ReadError, read_connect};
use zrequests::{TickLength, ticks_asked};
use zresponses::effects::{Granted, come_back, is_ahead, turn_away, welcome};
use zresponses::told;
use ztree::SessionId;
use ztree_service::TreeService;

impl<T: TreeService> Inner<T> {
    // Handles the first frame of a connection. Invalid bytes close the connection.
    pub(crate) fn greet(&mut self, bytes: &[u8], connection: u32) -> Result<(), Memory>
        ensures { OnOk result (self.new ≡ greeted bytes.now connection self.old) }
    {
        match read_connect(self.alloc, bytes) {
            Ok(greeting) => self.greet_by(&greeting, connection),
            Err(ReadError::Fault(_)) => self.tables.close(connection),
            Err(ReadError::Memory) => Err(Memory),
        }
    }

    // Handles a connect request.
    fn greet_by(&mut self, greeting: &ConnectRequest, connection: u32) -> Result<(), Memory>
        ensures { OnOk result
            (self.new ≡ greeted_by (Read greeting.now) connection self.old) }
    {
        if is_ahead(told(&self.clock, self.last_change()?), greeting) {
            return self.tables.close(connection);
        }
        if greeting.session_id == 0 {
            return self.open_session(greeting, connection);
        }
        self.take_up(greeting, connection)
    }

    // Opens a session for a connection.
    fn open_session(&mut self, greeting: &ConnectRequest, connection: u32) -> Result<(), Memory>
        ensures { OnOk result (self.new ≡ with_session greeting.now connection self.old) }
    {
        let calls = [opening(self.clock.terms.tick(), greeting)];
        let replies = self.ask(&calls)?;
        self.report_opened(greeting, connection, &replies)
    }

    // Sends a client its new session, or closes the connection if none was opened.
    fn report_opened(
        &mut self,
        greeting: &ConnectRequest,
        connection: u32,
        replies: &[Reply],
    ) -> Result<(), Memory>
        ensures { OnOk result (self.new ≡ with_tables (opened self.old.clock.terms.tick
            self.old.secret greeting.now connection replies.now self.old.tables) self.old) }
    {
        match replies {
            [Reply::Opened(id, ticks), ..] => {
                let session = Granted {
                    id: *id,
                    ticks: *ticks,
                    password: self.secret.password_of(*id),
                };
                let tick = self.clock.terms.tick();
                welcome(
                    self.alloc,
                    &mut self.tables,
                    tick,
                    greeting,
                    &session,
                    connection,
                )
            }
            _ => self.tables.close(connection),
        }
    }

    // Attaches a client to the session that it names, if the tree has it.
    fn take_up(&mut self, greeting: &ConnectRequest, connection: u32) -> Result<(), Memory>
        ensures { OnOk result (self.new ≡ with_tables
            (returned greeting.now greeting.now.session_id connection self.old) self.old) }
    {
        if greeting.session_id < 0 {
            return turn_away(self.alloc, &mut self.tables, greeting, connection);
        }
        let id = SessionId::new(greeting.session_id as u64);
        match self.service.session(id)? {
            Some(session) => {
                let granted = Granted {
                    id,
                    ticks: session.timeout,
                    password: self.secret.password_of(id),
                };
                let tick = self.clock.terms.tick();
                come_back(
                    self.alloc,
                    &mut self.tables,
                    tick,
                    greeting,
                    &granted,
                    connection,
                )
            }
            None => turn_away(self.alloc, &mut self.tables, greeting, connection),
        }
    }
}

// Returns the call that opens a session.
fn opening(tick: TickLength, greeting: &ConnectRequest) -> Call
    ensures { result ≡ opening tick greeting.now }
{
    Call::Update(Update::Open(ticks_asked(tick, greeting.timeout)))
}
