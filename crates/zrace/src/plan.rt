//! The settings of a race.

ghost use Rattle.std.specs.Prelude.{◌≡◌, ◌<◌, ◌≤◌, IfNone, IfSome};
ghost use Rattle.zrace.specs.declared.plan.TheConstants.{MAX_RACERS, MAX_ROUNDS};

use zprotocol::ServerId;
use ztree::limits::MAX_CLIENTS;

/// The most clients that race. Client 0 does not race.
pub const MAX_RACERS: u8 = MAX_CLIENTS - 1;

/// The most nodes of a race.
pub const MAX_ROUNDS: u16 = 1_000;

/// A race between clients for nodes, over a chain of servers.
#[derive(Clone, Copy, Debug, PartialEq, Eq)]
pub struct Race {
    /// The last server of the chain.
    pub last: ServerId,
    /// How many clients race.
    pub clients: u8,
    /// How many nodes there are.
    pub rounds: u16,
    /// The server that is halted halfway, if any.
    pub halt: Option<ServerId>,
    ghost some_clients: { 0 < clients },
    ghost few_clients: { clients ≤ MAX_RACERS },
    ghost some_rounds: { 0 < rounds },
    ghost few_rounds: { rounds ≤ MAX_ROUNDS },
}

impl Race {
    ghost use Rattle.zrace.specs.Ranges.{AreInRange, halted_server};

    /// Returns the race of these numbers, where 0 halts no server. `None` if one is out of range.
    ///
    /// There are 1 to `MAX_RACERS` clients and 1 to `MAX_ROUNDS` rounds. In a chain of two or more
    /// servers, one of them may be halted.
    pub fn new(last: ServerId, clients: u8, rounds: u16, halt: u8) -> Option<Race>
        ensures known { IfSome result (λ _. AreInRange last clients rounds halt) }
        ensures refused { IfNone result (AreInRange last clients rounds halt → ⊥) }
        ensures same { IfSome result (λ race. (race.last ≡ last) × (race.clients ≡ clients)
            × (race.rounds ≡ rounds) × (race.halt ≡ halted_server halt)) }
    {
        if clients == 0 || clients > MAX_RACERS {
            return None;
        }
        if rounds == 0 || rounds > MAX_ROUNDS {
            return None;
        }
        let halt = if halt == 0 {
            None
        } else {
            Some(halted(last, halt)?)
        };
        Some(Race {
            last,
            clients,
            rounds,
            halt,
        })
    }
}

// Returns the server to halt, if it is one of a chain of two or more.
fn halted(last: ServerId, halt: u8) -> Option<ServerId>
    requires { 0 < halt }
    ensures known { IfSome result (λ server. (server ≡ halt) × (halt ≤ last) × (1 < last)) }
    ensures refused { IfNone result ((halt ≤ last) × (1 < last) → ⊥) }
{
    if halt > last.number() || last.number() == 1 {
        return None;
    }
    ServerId::new(halt)
}
