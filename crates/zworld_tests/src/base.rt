//! The base lists of events.

use crate::trouble::Trouble;
use std::alloc::Global;
use zcalls::ClientId;
use zprotocol::{Process, ServerId};

/// One event of a base list, by the numbers of its processes. The call that is invoked is the
/// client's sequential create.
#[derive(Clone, Copy)]
pub enum Move {
    Begin,
    Retry,
    Take(u8, u8),
    Fail(u8),
    Join(u8),
    Retire(u8),
}

/// A base list: the last server of its initial chain, and the events.
#[derive(Drop)]
pub struct Base {
    pub last: u8,
    pub moves: Vec<Move>,
}

/// Returns the server of that number.
pub fn server(number: u8) -> Result<ServerId, Trouble> {
    ServerId::new(number).ok_or(Trouble::NoSuchThing)
}

/// Returns the client that invokes these calls.
pub fn client() -> Result<ClientId, Trouble> {
    ClientId::new(1).ok_or(Trouble::NoSuchThing)
}

/// The number of the client's process.
pub const CLIENT: u8 = 5;

/// Returns the process of that number: 0 is the master, then come four servers, the client, and one
/// that never invokes a call.
pub fn process(number: u8) -> Result<Process, Trouble> {
    match number {
        0 => Ok(Process::Master),
        1..=4 => Ok(Process::Server(server(number)?)),
        CLIENT => Ok(Process::Client(client()?)),
        _ => Ok(Process::Client(ClientId::new(0).ok_or(Trouble::NoSuchThing)?)),
    }
}

/// A call is invoked while a server joins after a chain of three.
pub fn joining(alloc: Global) -> Result<Base, Trouble> {
    let moves = [
        Move::Begin,
        Move::Join(4),
        Move::Take(0, 4),
        Move::Take(4, 0),
        Move::Take(0, 3),
        Move::Take(3, 4),
        Move::Take(4, 0),
    ];
    Ok(Base {
        last: 3,
        moves: moves.to_vec(alloc)?,
    })
}

/// A call is forwarded, the second server fails, and the chain is repaired.
pub fn repaired(alloc: Global, last: u8) -> Result<Base, Trouble> {
    let moves = [
        Move::Begin,
        Move::Take(CLIENT, 1),
        Move::Fail(2),
        Move::Take(2, 0),
        Move::Take(0, 3),
        Move::Take(3, 0),
        Move::Take(0, 1),
        Move::Take(1, 3),
        Move::Take(3, CLIENT),
    ];
    Ok(Base {
        last,
        moves: moves.to_vec(alloc)?,
    })
}

/// A call is sent four times, all are forwarded, the second server fails, and the chain is
/// repaired: four entries are owed.
pub fn owing(alloc: Global) -> Result<Base, Trouble> {
    let moves = [
        Move::Begin,
        Move::Retry,
        Move::Retry,
        Move::Retry,
        Move::Take(CLIENT, 1),
        Move::Take(CLIENT, 1),
        Move::Take(CLIENT, 1),
        Move::Take(CLIENT, 1),
        Move::Fail(2),
        Move::Take(2, 0),
        Move::Take(0, 3),
        Move::Take(3, 0),
        Move::Take(0, 1),
        Move::Take(1, 3),
        Move::Take(1, 3),
        Move::Take(1, 3),
        Move::Take(1, 3),
        Move::Take(3, CLIENT),
    ];
    Ok(Base {
        last: 3,
        moves: moves.to_vec(alloc)?,
    })
}
