//! A service, and the safe half of each export.
//!
//! # Why
//!
//! Only an open service has an answer, so none can be pending where there are no servers. Running
//! out of memory drops the world at once: every later call would fail too. A line is not executed
//! while an answer is pending, so a program that forgets to read one loses none.

ghost use Rattle.std.specs.Prelude.{◌≡◌};
ghost use Rattle.zc_library.specs.Service.{IsOpened, IsStatusOf, Hears, HearsAs, Reports};

use crate::status::Status;
use std::alloc::Global;
use std::mem::replace;
use zprotocol::ServerId;
use zscript::{answer_line, script_world};
use zworld::World;

/// A service, in memory that C provides.
#[derive(Drop)]
pub enum Service {
    /// A world with all clients, and the answer to the last line until it is read.
    Open(World, String),
    /// Out of memory: there is no world, or it was dropped.
    OutOfMemory,
    /// There is no such number of servers.
    Refused,
}

/// Returns a service whose chain begins with `servers` servers. It is `Refused` where there is no
/// such number, and `OutOfMemory` where memory ran out.
pub(crate) fn make(alloc: Global, servers: u8) -> Service
    ensures { IsOpened servers result }
{
    let Some(last) = ServerId::new(servers) else {
        return Service::Refused;
    };
    match script_world(alloc, last) {
        Ok(world) => Service::Open(world, String::new(alloc)),
        Err(_) => Service::OutOfMemory,
    }
}

/// Returns the status code of a service that was just opened.
pub(crate) fn status(service: &mut Service) -> u32
    ensures { IsStatusOf service.old service.new result }
{
    let status = match service {
        Service::Open(_, _) => Status::Done,
        Service::OutOfMemory => Status::Memory,
        Service::Refused => Status::NoServers,
    };
    status.code()
}

/// Executes a line; its answer is then pending. Once memory has run out, no line is executed any
/// more.
fn play(service: &mut Service, line: &[u8]) -> Status
    ensures { Hears service.old service.new line.now result }
{
    let (world, answer) = match service {
        Service::Open(world, answer) => (world, answer),
        Service::OutOfMemory => return Status::Memory,
        Service::Refused => return Status::NoServers,
    };
    if !answer.is_empty() {
        return Status::Pending;
    }
    if answer_line(world, line, answer).is_ok() {
        return Status::Done;
    }
    drop(replace(service, Service::OutOfMemory));
    Status::Memory
}

/// Does the same, and returns the status code.
pub(crate) fn hear(service: &mut Service, line: &[u8]) -> u32
    ensures { HearsAs service.old service.new line.now result }
{
    play(service, line).code()
}

/// Moves the pending answer to the buffer if all of it fits. Returns its length in bytes.
pub(crate) fn tell(service: &mut Service, to: &mut [u8]) -> usize
    ensures { Reports service.old service.new to.old to.new result }
{
    let Service::Open(_, answer) = service else {
        return 0;
    };
    let count = answer.len();
    if count > to.len() {
        return count;
    }
    to[..count].copy_from_slice(answer.as_bytes());
    answer.clear();
    count
}

/// Drops a service.
pub(crate) fn finish(service: Service) {
    drop(service);
}
