//! Reading the commands of clients.

ghost use Rattle.std.specs.Prelude.{◌≡◌, ◌∷◌, Ok, Err, IfOk, IfErr};
ghost use Rattle.zscript_text.specs.Request.{IsUnread, request_in, tick_in, call_in, number_in, asked_in, query_in, session_in, multi_in};
ghost use Rattle.zcalls.specs.declared.call.Query.TheVariants.{GetData, Exists, GetChildren};
ghost use Rattle.zcalls.specs.declared.call.Update.TheVariants.{Open, Ping, Close};

use crate::cursor::Cursor;
use crate::part_reading::{read_change, read_parts, read_path};
use crate::request::{LineFault, Request};
use crate::shape::{all_parts, lone_change};
use crate::words::number;
use std::alloc::Global;
use zcalls::{Call, ClientId, Multi, Query, SessionId, Update};
use zpath::Path;

/// Reads a client's command, from its verb and the words after it. Client 0 is the clock: it can
/// only `tick`, and no other client can.
pub(crate) fn read_request(
    alloc: Global,
    client: ClientId,
    verb: &str,
    words: Cursor,
) -> Result<Request, LineFault>
    ensures found { IfOk result (λ request. request_in client (verb.now ∷ words.entry)
        ≡ Ok request) }
    ensures fault { IfErr result (IsUnread (request_in client (verb.now ∷ words.entry))) }
{
    let call = if client.number() == 0 {
        read_tick(verb, words)?
    } else {
        read_call(alloc, verb, words)?
    };
    Ok(Request { client, call })
}

// `tick`, without further words
fn read_tick(verb: &str, words: Cursor) -> Result<Call, LineFault>
    ensures found { IfOk result (λ call. tick_in (verb.now ∷ words.entry) ≡ Ok call) }
    ensures fault { IfErr result (λ fault. tick_in (verb.now ∷ words.entry) ≡ Err fault) }
{
    if verb == "tick" && words.is_done() {
        Ok(Call::Update(Update::Tick))
    } else {
        Err(LineFault::BadLine)
    }
}

// Reads the call of a command.
fn read_call(alloc: Global, verb: &str, words: Cursor) -> Result<Call, LineFault>
    ensures found { IfOk result (λ call. call_in (verb.now ∷ words.entry) ≡ Ok call) }
    ensures fault { IfErr result (IsUnread (call_in (verb.now ∷ words.entry))) }
{
    match verb {
        "get" => read_get(alloc, words),
        "exists" => read_exists(alloc, words),
        "ls" => read_list(alloc, words),
        "multi" => read_multi(alloc, words),
        "open" => read_open(words),
        "ping" => read_ping(words),
        "close" => read_close(words),
        _ => {
            let Some(change) = lone_change(verb, words) else {
                return Err(LineFault::BadLine);
            };
            let change = read_change(alloc, &change)?;
            Ok(Call::Update(Update::from(change)))
        }
    }
}

// get PATH
fn read_get(alloc: Global, words: Cursor) -> Result<Call, LineFault>
    ensures found { IfOk result (λ call. query_in GetData words.entry ≡ Ok call) }
    ensures fault { IfErr result (IsUnread (query_in GetData words.entry)) }
{
    let path = read_asked(alloc, words)?;
    Ok(Call::Query(Query::GetData(path)))
}

// exists PATH
fn read_exists(alloc: Global, words: Cursor) -> Result<Call, LineFault>
    ensures found { IfOk result (λ call. query_in Exists words.entry ≡ Ok call) }
    ensures fault { IfErr result (IsUnread (query_in Exists words.entry)) }
{
    let path = read_asked(alloc, words)?;
    Ok(Call::Query(Query::Exists(path)))
}

// ls PATH
fn read_list(alloc: Global, words: Cursor) -> Result<Call, LineFault>
    ensures found { IfOk result (λ call. query_in GetChildren words.entry ≡ Ok call) }
    ensures fault { IfErr result (IsUnread (query_in GetChildren words.entry)) }
{
    let path = read_asked(alloc, words)?;
    Ok(Call::Query(Query::GetChildren(path)))
}

// open NUMBER
fn read_open(words: Cursor) -> Result<Call, LineFault>
    ensures found { IfOk result (λ call. session_in Open words.entry ≡ Ok call) }
    ensures fault { IfErr result (IsUnread (session_in Open words.entry)) }
{
    let ticks = read_number(words)?;
    Ok(Call::Update(Update::Open(ticks)))
}

// ping NUMBER
fn read_ping(words: Cursor) -> Result<Call, LineFault>
    ensures found { IfOk result (λ call. session_in Ping words.entry ≡ Ok call) }
    ensures fault { IfErr result (IsUnread (session_in Ping words.entry)) }
{
    let session = read_number(words)?;
    Ok(Call::Update(Update::Ping(SessionId::new(session))))
}

// close NUMBER
fn read_close(words: Cursor) -> Result<Call, LineFault>
    ensures found { IfOk result (λ call. session_in Close words.entry ≡ Ok call) }
    ensures fault { IfErr result (IsUnread (session_in Close words.entry)) }
{
    let session = read_number(words)?;
    Ok(Call::Update(Update::Close(SessionId::new(session))))
}

// PATH, without further words
fn read_asked(alloc: Global, mut words: Cursor) -> Result<Path, LineFault>
    ensures found { IfOk result (λ path. asked_in words.entry ≡ Ok path) }
    ensures fault { IfErr result (IsUnread (asked_in words.entry)) }
{
    let Some(path) = words.next() else {
        return Err(LineFault::BadLine);
    };
    if !words.is_done() {
        return Err(LineFault::BadLine);
    }
    read_path(alloc, path)
}

// NUMBER, without further words
fn read_number(mut words: Cursor) -> Result<u64, LineFault>
    ensures found { IfOk result (λ number. number_in words.entry ≡ Ok number) }
    ensures fault { IfErr result (λ fault. number_in words.entry ≡ Err fault) }
{
    let Some(word) = words.next() else {
        return Err(LineFault::BadLine);
    };
    if !words.is_done() {
        return Err(LineFault::BadLine);
    }
    number(word).ok_or(LineFault::BadLine)
}

// multi PART ; PART ; PART
fn read_multi(alloc: Global, words: Cursor) -> Result<Call, LineFault>
    ensures found { IfOk result (λ call. multi_in words.entry ≡ Ok call) }
    ensures fault { IfErr result (IsUnread (multi_in words.entry)) }
{
    let parts = all_parts(alloc, words)?;
    match Multi::new(read_parts(alloc, &parts)?) {
        Ok(multi) => Ok(Call::Update(Update::Multi(multi))),
        Err(_) => Err(LineFault::BadLine),
    }
}
