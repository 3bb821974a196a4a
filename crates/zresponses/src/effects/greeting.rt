//! Answers to connect requests.

ghost use Rattle.std.specs.Prelude.{◌≡◌, OnOk};
ghost use Rattle.zresponses.specs.effects.Greeting as table;
ghost use Rattle.zresponses.specs.effects.Greeting.{came_back, turned_away, welcomed};

use crate::effects::frames::response_frame;
use crate::numbers::long_of;
use std::alloc::Global;
use zalloc::Memory;
use zconnections::Tables;
use zjute::ConnectRequest;
use zpasswords::Password;
use zrequests::{TickLength, millis_reported};
use ztree::SessionId;

/// Returns whether a client has seen changes that the tree doesn't have, from the last zxid as
/// clients are told it.
pub fn is_ahead(zxid: i64, request: &ConnectRequest) -> bool
    ensures { result ≡ table.is_ahead zxid request.now }
{
    zxid < request.last_zxid_seen
}

/// A session of the tree, which a client asks for.
#[derive(Clone, Copy)]
pub struct Granted {
    /// Its id.
    pub id: SessionId,
    /// The granted timeout, in ticks.
    pub ticks: u64,
    /// Its password.
    pub password: Password,
}

/// Sends a client its new session.
pub fn welcome(
    alloc: Global,
    tables: &mut Tables,
    tick: TickLength,
    request: &ConnectRequest,
    session: &Granted,
    connection: u32,
) -> Result<(), Memory>
    ensures { OnOk result (tables.new
        ≡ welcomed tick request.now session.now.id session.now.ticks session.now.password
        connection tables.old) }
{
    tables.sit(session.id, connection)?;
    let timeout = millis_reported(tick, session.ticks);
    let id = long_of(session.id.number());
    let frame = response_frame(alloc, request, timeout, id, &session.password)?;
    tables.send(connection, frame)
}

/// Attaches a client to a session of the tree, if it gives the whole password. Else it gets a
/// response without a session, and its connection is closed.
pub fn come_back(
    alloc: Global,
    tables: &mut Tables,
    tick: TickLength,
    request: &ConnectRequest,
    session: &Granted,
    connection: u32,
) -> Result<(), Memory>
    ensures { OnOk result (tables.new
        ≡ came_back tick request.now session.now.id session.now.ticks session.now.password
        connection tables.old) }
{
    if !session.password.is_given(given(request)) {
        return turn_away(alloc, tables, request, connection);
    }
    tables.take_up(session.id, connection)?;
    let timeout = millis_reported(tick, session.ticks);
    let id = long_of(session.id.number());
    let frame = response_frame(alloc, request, timeout, id, &session.password)?;
    tables.send(connection, frame)
}

// Returns the bytes of the password in the request.
fn given(request: &ConnectRequest) -> &[u8]
    ensures { result.now ≡ table.given request.now }
{
    match &request.password {
        Some(bytes) => bytes.as_slice(),
        None => &[],
    }
}

/// Sends a client a response without a session, and closes its connection.
pub fn turn_away(
    alloc: Global,
    tables: &mut Tables,
    request: &ConnectRequest,
    connection: u32,
) -> Result<(), Memory>
    ensures { OnOk result (tables.new ≡ turned_away request.now connection tables.old) }
{
    let none = Password::new([0; 16]);
    let frame = response_frame(alloc, request, 0, 0, &none)?;
    tables.send(connection, frame)?;
    tables.close(connection)
}
