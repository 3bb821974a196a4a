//! The messages between processes.
//!
//! # Why
//!
//! One generic `Message<T>` serves the code and the definitions. `T` is a machine together with the
//! number of its last entry, so a type of the code can hold the two in step.

use crate::epoch::Epoch;
use crate::log_number::LogNumber;
use crate::server_id::ServerId;
use zcalls::{CallNumber, Query, Reply, SharedEntry, Update};

/// The messages between processes. `T` is the contents of a `Snapshot`: a machine, with the number
/// of its last entry.
#[derive(Drop)]
pub enum Message<T> {
    /// From a client to a server: do this update, with this call number.
    Submit(CallNumber, Update),
    /// From a client to a server: answer this query, with this call number.
    Query(CallNumber, Query),
    /// From a server to a client: the reply to the call with this number.
    Answer(CallNumber, Reply),
    /// From a server to its successor: the log entry with this number, in the epoch of their pair.
    Update(Epoch, LogNumber, SharedEntry),
    /// From a server to its predecessor: the tail has processed the entries up to this number.
    Ack(Epoch, LogNumber),
    /// From a server to its successor without state: the whole state.
    Snapshot(Epoch, T),
    /// From the master to a server: this is your new predecessor.
    NewPred(Epoch, ServerId),
    /// From a server to the master: the last number of its log, or `None` if it has no state.
    Have(Epoch, Option<LogNumber>),
    /// From the master to a server: this is your new successor, and the last number of its log.
    NewSucc(Epoch, ServerId, Option<LogNumber>),
    /// From the master to a server: you have no predecessor any more.
    BecomeHead(Epoch),
    /// From the master to a server: you have no successor any more.
    BecomeTail(Epoch),
    /// From the master to a server: leave the chain for good.
    Retire,
    /// From a server to the master: it has received the state.
    Joined(Epoch),
    /// The failure notice of a server to the master. It is the last message on its channel.
    Gone,
    /// From the master to a client: the head and the tail of the chain, `None` if there is none.
    Config(Epoch, Option<ServerId>, Option<ServerId>),
}
