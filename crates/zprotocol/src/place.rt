//! The position of a process in the order of all processes.

ghost use Rattle.std.specs.Prelude.{◌≡◌, ◌<◌, ◌≤◌, IfNone, IfSome};
ghost use Rattle.zprotocol.specs.declared.limits.TheConstants.{PROCESSES};
ghost use Rattle.zprotocol.specs.Places.{place_of, process_at};

use crate::limits::{MAX_SERVERS, PROCESSES};
use crate::process::Process;
use crate::server_id::ServerId;
use zcalls::ClientId;

const FIRST_CLIENT: usize = MAX_SERVERS as usize + 1;

impl Process {
    /// Returns the position of the process, counted from 0: first the master, then the servers,
    /// then the clients, each by number.
    pub fn place(&self) -> usize
        ensures place { result ≡ place_of self.now }
        ensures back { process_at result ≡ self.now }
        ensures small { result < PROCESSES }
    {
        match self {
            Process::Master => 0,
            Process::Server(server) => server.number() as usize,
            Process::Client(client) => FIRST_CLIENT + client.number() as usize,
        }
    }

    /// Returns the process at a position, or `None` after the last one.
    pub fn at(place: usize) -> Option<Process>
        ensures some { IfSome result (λ process. process ≡ process_at place) }
        ensures none { IfNone result (PROCESSES ≤ place) }
    {
        if place == 0 {
            return Some(Process::Master);
        }
        if place < FIRST_CLIENT {
            return Some(Process::Server(ServerId::new(place as u8)?));
        }
        if place < PROCESSES {
            return Some(Process::Client(ClientId::new((place - FIRST_CLIENT) as u8)?));
        }
        None
    }
}
