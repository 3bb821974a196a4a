//! The words of a race.

ghost use Rattle.std.specs.Prelude.{◌≡◌, ◌<◌, IfErr, IfNone, IfOk, IfSome, Some};
ghost use Rattle.zarguments.specs.Asked.{texts_of};
ghost use Rattle.zrace.specs.declared.plan.Race.{Race};
ghost use Rattle.zrace.specs.Asked.{IsRaceAsked, IsRaceOf};

use crate::Race;
use std::alloc::Global;
use zarguments::{NumberOption, WordsFault, numbers_asked};
use zprotocol::ServerId;

// The options of a race.
static RACE_OPTIONS: [NumberOption; 4] = [
    NumberOption {
        name: "servers",
        default: "3",
    },
    NumberOption {
        name: "clients",
        default: "4",
    },
    NumberOption {
        name: "rounds",
        default: "100",
    },
    NumberOption {
        name: "halt",
        default: "0",
    },
];

/// Reads `NAME race [--servers N] [--clients C] [--rounds R] [--halt S]`.
///
/// N is 1 to 16 (default 3), C is 1 to 31 (4), and R is 1 to 1,000 (100). S is 0 to N (0): 0 halts
/// no server, and where N is 1 it is 0.
///
/// Everything else is `BadWords`, also a request for help. `Memory` means out of memory, and
/// nothing else.
pub fn race_settings<'a>(alloc: Global, words: &'a [&'a str]) -> Result<Race, WordsFault>
    ensures asked { IfOk result (IsRaceAsked (texts_of words.now)) }
    ensures bad { IfErr result (λ fault. fault ≡ WordsFault.BadWords
        → (race : Race) → IsRaceAsked (texts_of words.now) race → ⊥) }
{
    match numbers_asked(alloc, "race", RACE_OPTIONS.as_slice(), words)? {
        Some(numbers) => match race_of(&numbers) {
            Some(race) => Ok(race),
            None => Err(WordsFault::BadWords),
        },
        None => Err(WordsFault::BadWords),
    }
}

// Returns the race of these numbers; `None` where one is out of its range.
fn race_of(numbers: &[u16]) -> Option<Race>
    ensures known { IfSome result (IsRaceOf (Some numbers.now)) }
    ensures refused { IfNone result ((race : Race) → IsRaceOf (Some numbers.now) race → ⊥) }
{
    let [last, clients, rounds, halt] = numbers else {
        return None;
    };
    let last = ServerId::new(small(*last)?)?;
    Race::new(last, small(*clients)?, *rounds, small(*halt)?)
}

// Returns the number if a byte holds it.
fn small(number: u16) -> Option<u8>
    ensures same { IfSome result (λ byte. byte ≡ number) }
    ensures large { IfNone result (255 < number) }
{
    u8::try_from(number).ok()
}
