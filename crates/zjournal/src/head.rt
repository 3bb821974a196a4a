//! The head of a file: its first block.
//!
//! # Why
//! The head is a block. So a file is made by the same steps as a batch, and after a crash it is still
//! known as one being made. A short foreign file isn't overwritten, unless it has at most one byte,
//! or begins with 0 and is no longer than a head.

ghost use Rattle.std.specs.Prelude.{◌≡◌, ◌<◌, ◌≤◌, ◌≢◌, ◌++◌, [], ◌∷◌, List, ℕ, length};
ghost use Rattle.std.specs.Prelude.{take, drop, IfOk, IfErr, IfSome, IfNone, IsErrOf, IsTrue, ◌↔◌};
ghost use Rattle.zjournal.specs.Checksum.{IsSum, digits};
ghost use Rattle.zjournal.specs.Journal.{head, word, IsUnmade, IsUnopened};
ghost use Rattle.zjournal.specs.Faults.{IsSuch};

use crate::OpenError;
use crate::checksum::{digits_of, is_sum, sum_of};
use crate::place::HEAD_END;

// The version of the format.
const VERSION: u8 = 3;

// What a journal is of.
const WORD: [u8; 4] = *b"tree";

/// Returns the head's block without its commit byte, and with the next, clear one. The first
/// checksum of the file continues from `start`.
pub fn head_block(start: u32, servers: u8) -> [u8; 34]
    ensures { result ≡ head start servers ++ 0 ∷ 0 ∷ [] }
{
    let sum = digits_of(start);
    [
        b'j', b'e', b'l', b'l', b'q', b'u', b'p', b'a', b's', b' ', b'j', b'o', b'u', b'r', b'n',
        b'a', b'l', b' ', VERSION, servers, WORD[0], WORD[1], WORD[2], WORD[3], sum[0], sum[1],
        sum[2], sum[3], sum[4], sum[5], sum[6], sum[7], 0, 0,
    ]
}

/// Returns whether the file holds nothing but a part of its head.
pub fn is_unmade(bytes: &[u8], servers: u8) -> bool
    ensures { IsTrue result ↔ IsUnmade servers bytes.now }
{
    bytes.len() <= 1 || (bytes[0] == 0 && bytes.len() <= HEAD_END + 1)
}

// Returns the first byte, and the rest.
fn first(bytes: &[u8]) -> Option<(u8, &[u8])>
    ensures some { IfSome result (λ found. bytes.now ≡ found.0 ∷ found.1.now) }
    ensures none { IfNone result (bytes.now ≡ []) }
{
    match bytes {
        [byte, rest @ ..] => Some((*byte, rest)),
        [] => None,
    }
}

// Returns what follows this prefix, if the bytes begin with it.
fn behind<'a>(bytes: &'a [u8], front: &[u8]) -> Option<&'a [u8]>
    ensures some { IfSome result (λ rest. bytes.now ≡ front.now ++ rest.now) }
    ensures none { IfNone result ((rest : List ℕ) → bytes.now ≡ front.now ++ rest → ⊥) }
{
    if bytes.len() < front.len() {
        return None;
    }
    let (start, rest) = bytes.split_at(front.len());
    if start == front { Some(rest) } else { None }
}

/// Returns whether the whole head of a new file is written, but its commit byte isn't set.
pub fn is_unopened(bytes: &[u8], servers: u8) -> bool
    ensures { IsTrue result ↔ IsUnopened servers bytes.now }
{
    match first(bytes) {
        Some((commit_byte, rest)) => commit_byte != 1 && rest == head_block(1, servers).as_slice(),
        None => false,
    }
}

// Returns whether this is the end of a head with another word.
fn has_other_word(last: &[u8]) -> bool
    ensures { IsTrue result ↔ ((4 ≤ length last.now) × (take 4 last.now ≢ word)) }
{
    last.len() >= 4 && &last[..4] != WORD.as_slice()
}

// Returns the sum at the end of a head, after which its block ends.
fn start_in(last: &[u8]) -> Option<u32>
    ensures some { IfSome result (λ start. IsSum start
        × (last.now ≡ word ++ digits start ++ 0 ∷ drop 13 last.now)) }
    ensures none { IfNone result ((start : ℕ) (more : List ℕ) → IsSum start
        → last.now ≡ word ++ digits start ++ 0 ∷ more → ⊥) }
{
    let rest = behind(last, &WORD)?;
    if rest.len() < 9 || rest[8] != 0 {
        return None;
    }
    let start = sum_of(&rest[..8])?;
    if is_sum(start) { Some(start) } else { None }
}

/// Returns the sum from which the first checksum of a journal for this number of servers continues,
/// if its head is that of one.
pub fn check_head(bytes: &[u8], servers: u8) -> Result<u32, OpenError>
    requires made { IsUnmade servers bytes.now → ⊥ }
    requires opened { IsUnopened servers bytes.now → ⊥ }
    ensures ok { IfOk result (λ start. IsSum start
        × (bytes.now ≡ 1 ∷ (head start servers ++ 0 ∷ drop 34 bytes.now))) }
    ensures err { IfErr result (IsSuch servers bytes.now) }
    ensures disk { IsErrOf result OpenError.Failed → ⊥ }
{
    let Some(rest) = behind(bytes, b"\x01jellqupas journal ") else {
        return Err(OpenError::NotJournal);
    };
    let Some((version, more)) = first(rest) else {
        return Err(OpenError::NotJournal);
    };
    let Some((given, last)) = first(more) else {
        return Err(OpenError::NotJournal);
    };
    if version != VERSION {
        return Err(other_version(version));
    }
    if has_other_word(last) {
        return Err(OpenError::Other);
    }
    if given != servers {
        return Err(OpenError::Servers(given));
    }
    match start_in(last) {
        Some(start) => Ok(start),
        None => Err(OpenError::Damaged(0)),
    }
}

// Returns why a journal of another version isn't opened.
fn other_version(version: u8) -> OpenError
    ensures old { 0 < version → version < 3 → result ≡ OpenError.Old }
    ensures other { (0 < version → version < 3 → ⊥) → result ≡ OpenError.Version version }
{
    match version {
        1 | 2 => OpenError::Old,
        _ => OpenError::Version(version),
    }
}
