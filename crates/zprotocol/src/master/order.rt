//! What the master is ordered to do.
//!
//! # Why
//!
//! A join and an order to leave are one `Order`, so the table has one list of tests and one step.
//! `JoinFault` and `RetireFault` are other names of `OrderFault`. Two separate kinds would have to
//! be changed together by hand.

use crate::server_id::ServerId;

/// What the master is ordered to do with a server.
#[derive(Clone, Copy, Debug, PartialEq, Eq)]
pub enum Order {
    /// To let this server join after the tail.
    Join(ServerId),
    /// To order this server, a member of the chain, to leave.
    Retire(ServerId),
}

impl Order {
    ghost use Rattle.std.specs.Prelude.{◌≡◌, true};
    ghost use Rattle.zprotocol.specs.Places.{is_server};
    ghost use Rattle.zprotocol.specs.master.Order.{server_of};

    /// Returns the server that the order is about.
    pub fn server(self) -> ServerId
        ensures same { result ≡ server_of self }
        ensures one { is_server (server_of self) ≡ true }
    {
        match self {
            Order::Join(server) => server,
            Order::Retire(server) => server,
        }
    }

    /// Every order's server has a number of 1 to `MAX_SERVERS`. The function does nothing.
    pub fn keeps_in_range(self)
        ensures { is_server (server_of self) ≡ true }
    {
        let _ = self.server();
    }
}
