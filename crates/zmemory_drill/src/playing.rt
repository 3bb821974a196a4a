//! A script that is played: a multi does all of its parts, or none. A line that finds no memory
//! ends it. A server that finds none stops, which no client sees if there are others.

ghost use Rattle.std.specs.Prelude.{◌≡◌};

use std::alloc::Global;
use zscript::{PlayFault, ServerId, SliceSource, WriterSink, play};
use ztesting::{Ended, server};

const SCRIPT: &str =
    "1 create /a p aGk=\n1 multi create /m p - ; set /none any - ; delete /a any\n1 exists /m\n1 exists /\n1 multi create /m p - ; check /a 0 ; set /a 0 eA== ; delete /m any\n1 exists /\n";

const ANSWERS: &[&str] = &[
    "ok /a\n",
    "no multi 2 NoNode\n",
    "no NoNode\n",
    "ok stat 0 0 1 0 0 0 1 0 0 1\n",
    "ok multi /m ; checked ; stat 1 2 1 0 0 1 0 0 1 0 ; deleted\n",
    "ok stat 0 0 2 0 0 0 3 0 0 1\n",
];

// More than all answers.
const ROOM: usize = 512;

/// The only server: all answers; or some first ones, then out of memory; or some first ones, and
/// then none.
pub(crate) fn plays_over_one(alloc: Global) -> Ended {
    let mut room = [0u8; ROOM];
    let played = plays(alloc, ServerId::first(), &mut room);
    let (whole, rest) = reported(&room);
    match played {
        Ok(()) if whole < ANSWERS.len() => Ended::refused(is_silent(rest, whole)),
        _ => ended(played, whole, rest),
    }
}

/// Three servers: all answers, or some first ones, then out of memory.
pub(crate) fn plays_over_three(alloc: Global) -> Ended {
    let mut room = [0u8; ROOM];
    let played = plays(alloc, server(3), &mut room);
    let (whole, rest) = reported(&room);
    ended(played, whole, rest)
}

fn plays(alloc: Global, last: ServerId, room: &mut [u8]) -> Result<(), PlayFault> {
    let mut source = SliceSource::new(SCRIPT.as_bytes(), 65536);
    let mut sink = WriterSink::new(room);
    play(alloc, &mut source, &mut sink, last)
}

// How many whole lines of the answers were written, and nothing but these.
fn ended(played: Result<(), PlayFault>, whole: usize, rest: &str) -> Ended {
    match played {
        Ok(()) => Ended::done(whole == ANSWERS.len() && rest.is_empty()),
        Err(PlayFault::Memory) => Ended::refused(rest.is_empty()),
        Err(_) => Ended::Wrong,
    }
}

// How many lines of the answers the text begins with, and what follows them.
fn reported(room: &[u8]) -> (usize, &str) {
    let mut rest = text(room);
    let mut whole = 0usize;
    for answer in ANSWERS {
        let Some(behind) = rest.strip_prefix(*answer) else {
            return (whole, rest);
        };
        rest = behind;
        whole = whole.wrapping_add(1);
    }
    (whole, rest)
}

// The text that was written: the room after it is blank.
fn text(room: &[u8]) -> &str {
    let written = room.split(|byte| *byte == 0).next();
    match str::from_utf8(written.unwrap_or(&[])) {
        Ok(text) => text,
        Err(_) => "not a text",
    }
}

// Whether the next line has no answer, and the client waits for it at each line after that one.
fn is_silent(text: &str, whole: usize) -> bool {
    let Some(mut rest) = text.strip_prefix("unanswered\n") else {
        return false;
    };
    for _ in whole.wrapping_add(1)..ANSWERS.len() {
        let Some(behind) = rest.strip_prefix("busy\n") else {
            return false;
        };
        rest = behind;
    }
    rest.is_empty()
}
