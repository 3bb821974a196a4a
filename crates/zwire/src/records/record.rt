//! What is logged.

use crate::records::row::Row;
use zcalls::Update;
use zpasswords::Password;
use zprotocol::ServerId;

/// What a server logs.
#[derive(Drop)]
pub enum Record {
    /// The password of the session that the next open makes.
    Password(Password),
    /// A change of the tree.
    Update(Update),
    /// A server fails for good.
    Fail(ServerId),
    /// A server is asked to join after the tail.
    Join(ServerId),
    /// A server, a member of the chain, is ordered to leave.
    Retire(ServerId),
    /// A row of a snapshot.
    Row(Row),
}
