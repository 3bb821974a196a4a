//! The meaning of single words: numbers, versions, kinds of nodes, processes.

ghost use Rattle.std.specs.Prelude.{◌≡◌, IfSome, IfNone, false, nat_eq};
ghost use Rattle.std.specs.Char.{is_ascii_digit};
ghost use Rattle.std.specs.List.{list_all, starts_with};
ghost use Rattle.zscript_text.specs.LineWords.{number_of, client_of, has_leading_zero};
ghost use Rattle.zscript_text.specs.ProcessWords.{server_of, client_process_of, process_of};
ghost use Rattle.zscript_text.specs.Shape.{kind_of, owned_kind_of, timed_kind_of, ttl_of, version_of};
ghost use Rattle.zscript_text.specs.support.Left.{IsBehind};

use crate::limits::NUMBER_BOUND;
use zcalls::{ClientId, Expected, Kind, Lifetime, SessionId, Ttl};
use zprotocol::{MAX_SERVERS, Process, ServerId};
use ztree::limits::MAX_CLIENTS;

/// Returns the number that a word spells: decimal, without leading zeros, below `NUMBER_BOUND`.
#[tactic(auto, using(crate::proofs::OneNumeral::one_digit))]
pub(crate) fn number(word: &str) -> Option<u64>
    ensures { result ≡ number_of word.now }
{
    // Most numbers have one digit.
    if let [digit @ b'0'..=b'9'] = word.as_bytes() {
        return Some(u64::from(*digit - b'0'));
    }
    if !has_digits_alone(word) || has_leading_zero(word) {
        return None;
    }
    let Ok(number) = word.parse::<u64>() else {
        return None;
    };
    if number < NUMBER_BOUND {
        Some(number)
    } else {
        None
    }
}

// Returns whether all bytes are digits; true for no bytes.
fn has_digits_alone(word: &str) -> bool
    ensures { result ≡ list_all is_ascii_digit word.now }
{
    word.as_bytes().iter().all(|byte| byte.is_ascii_digit())
}

// Returns whether the word is longer than one byte and begins with a zero.
fn has_leading_zero(word: &str) -> bool
    ensures { result ≡ has_leading_zero word.now }
{
    matches!(word.as_bytes(), [b'0', _, ..])
}

/// Returns the version that a word names: `any`, or a number.
pub(crate) fn version_in(word: &str) -> Option<Expected>
    ensures { result ≡ version_of word.now }
{
    if word == "any" {
        return Some(Expected::Any);
    }
    Some(Expected::Exactly(number(word)?))
}

/// Returns the kind of node that a word names.
#[tactic(auto, unfolding(crate::specs::Shape::kind_of))]
pub(crate) fn kind_in(word: &str) -> Option<Kind>
    ensures { result ≡ kind_of word.now }
{
    match word {
        "p" => Some(Kind::named(Lifetime::Persistent)),
        "ps" => Some(Kind::sequential(Lifetime::Persistent)),
        "c" => Some(Kind::named(Lifetime::Container)),
        _ => owned_kind_in(word),
    }
}

// `e:` or `es:`, and a session's id; else a kind with a TTL
fn owned_kind_in(word: &str) -> Option<Kind>
    ensures { result ≡ owned_kind_of word.now }
{
    if let Some(session) = behind("e:", word) {
        return Some(Kind::named(Lifetime::Ephemeral(SessionId::new(number(session)?))));
    }
    if let Some(session) = behind("es:", word) {
        return Some(Kind::sequential(Lifetime::Ephemeral(SessionId::new(number(session)?))));
    }
    timed_kind_in(word)
}

// `t:` or `ts:`, and a TTL
fn timed_kind_in(word: &str) -> Option<Kind>
    ensures { result ≡ timed_kind_of word.now }
{
    if let Some(ticks) = behind("t:", word) {
        return Some(Kind::named(Lifetime::WithTtl(ttl_in(ticks)?)));
    }
    let ticks = behind("ts:", word)?;
    Some(Kind::sequential(Lifetime::WithTtl(ttl_in(ticks)?)))
}

// Returns the TTL that a word spells.
fn ttl_in(word: &str) -> Option<Ttl>
    ensures { result ≡ ttl_of word.now }
{
    Ttl::new(number(word)?)
}

/// Returns the client that a word names: 0 to 31.
pub(crate) fn client_in(word: &str) -> Option<ClientId>
    ensures { result ≡ client_of word.now }
{
    match number(word) {
        Some(number) if number < MAX_CLIENTS as u64 => ClientId::new(number as u8),
        _ => None,
    }
}

/// Returns the process that a word names.
pub(crate) fn process_in(word: &str) -> Option<Process>
    ensures { result ≡ process_of word.now }
{
    if word == "m" {
        return Some(Process::Master);
    }
    if word.starts_with("s") {
        return Some(Process::Server(server_in(word)?));
    }
    Some(Process::Client(client_process_in(word)?))
}

/// Returns the server that a word names: `s1` to `s16`.
pub(crate) fn server_in(word: &str) -> Option<ServerId>
    ensures { result ≡ server_of word.now }
{
    match number(behind("s", word)?) {
        Some(number) if number <= MAX_SERVERS as u64 => ServerId::new(number as u8),
        _ => None,
    }
}

/// Returns the client that a word names as a process: `c0` to `c31`.
pub(crate) fn client_process_in(word: &str) -> Option<ClientId>
    ensures { result ≡ client_process_of word.now }
{
    client_in(behind("c", word)?)
}

// Returns what follows a prefix in a word, if the word begins with it.
fn behind<'a>(front: &str, word: &'a str) -> Option<&'a str>
    ensures rest { IfSome result (λ rest. IsBehind front.now word.now rest.now) }
    ensures none { IfNone result (starts_with nat_eq word.now front.now ≡ false) }
{
    word.strip_prefix(front)
}
