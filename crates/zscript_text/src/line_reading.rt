//! Reading lines.

ghost use Rattle.std.specs.Prelude.{◌≡◌, Ok, IfOk, IfErr};
ghost use Rattle.zscript_text.specs.Request.{IsUnread};
ghost use Rattle.zscript_text.specs.Line.{line_of, line_in, client_line_in, take_in, ignore_in, fail_in};
ghost use Rattle.zscript_text.specs.Line.{join_in, retire_in, retry_in, settle_in, link_in, lone_server_in};

use crate::cursor::Cursor;
use crate::limits::MAX_LINE;
use crate::line::Line;
use crate::reading::read_request;
use crate::request::LineFault;
use crate::spaced::is_spaced;
use crate::words::{client_in, client_process_in, process_in, server_in};
use std::alloc::Global;
use std::str;
use zcalls::ClientId;
use zprotocol::{Order, Process, ServerId};

/// Parses a line, without its LF. Returns its meaning, or its fault.
#[tactic(auto, unfolding(crate::specs::Line::line_of))]
pub fn read_line(alloc: Global, line: &[u8]) -> Result<Line, LineFault>
    ensures found { IfOk result (λ asked. line_of line.now ≡ Ok asked) }
    ensures fault { IfErr result (IsUnread (line_of line.now)) }
{
    if line.len() > MAX_LINE {
        return Err(LineFault::BadLine);
    }
    if !is_spaced(line) {
        return Err(LineFault::BadLine);
    }
    let Ok(text) = str::from_utf8(line) else {
        // Plain bytes are valid UTF-8.
        unreachable!();
    };
    read_words(alloc, Cursor::new(text))
}

// Returns the meaning of a line's words.
fn read_words(alloc: Global, mut words: Cursor) -> Result<Line, LineFault>
    ensures found { IfOk result (λ asked. line_in words.entry ≡ Ok asked) }
    ensures fault { IfErr result (IsUnread (line_in words.entry)) }
{
    let Some(word) = words.next() else {
        return Err(LineFault::BadLine);
    };
    match word {
        "take" => take_line(words).ok_or(LineFault::BadLine),
        "ignore" => ignore_line(words).ok_or(LineFault::BadLine),
        "fail" => fail_line(words).ok_or(LineFault::BadLine),
        "join" => join_line(words).ok_or(LineFault::BadLine),
        "retire" => retire_line(words).ok_or(LineFault::BadLine),
        "retry" => retry_line(words).ok_or(LineFault::BadLine),
        "settle" => settle_line(words).ok_or(LineFault::BadLine),
        _ => match client_in(word) {
            Some(client) => read_client_line(alloc, client, words),
            None => Err(LineFault::BadLine),
        },
    }
}

// Reads a client's command, which runs until its reply; after `begin`, it is only invoked.
fn read_client_line(alloc: Global, client: ClientId, mut words: Cursor) -> Result<Line, LineFault>
    ensures found { IfOk result (λ asked. client_line_in client words.entry ≡ Ok asked) }
    ensures fault { IfErr result (IsUnread (client_line_in client words.entry)) }
{
    let Some(verb) = words.next() else {
        return Err(LineFault::BadLine);
    };
    if verb != "begin" {
        return Ok(Line::Call(read_request(alloc, client, verb, words)?));
    }
    let Some(verb) = words.next() else {
        return Err(LineFault::BadLine);
    };
    Ok(Line::Begin(read_request(alloc, client, verb, words)?))
}

// take FROM TO
fn take_line(words: Cursor) -> Option<Line>
    ensures { result ≡ take_in words.entry }
{
    let (from, to) = link(words)?;
    Some(Line::Take(from, to))
}

// ignore FROM TO
fn ignore_line(words: Cursor) -> Option<Line>
    ensures { result ≡ ignore_in words.entry }
{
    let (from, to) = link(words)?;
    Some(Line::Ignore(from, to))
}

// fail SERVER
fn fail_line(words: Cursor) -> Option<Line>
    ensures { result ≡ fail_in words.entry }
{
    Some(Line::Fail(lone_server(words)?))
}

// join SERVER
fn join_line(words: Cursor) -> Option<Line>
    ensures { result ≡ join_in words.entry }
{
    Some(Line::Order(Order::Join(lone_server(words)?)))
}

// retire SERVER
fn retire_line(words: Cursor) -> Option<Line>
    ensures { result ≡ retire_in words.entry }
{
    Some(Line::Order(Order::Retire(lone_server(words)?)))
}

// retry CLIENT
fn retry_line(mut words: Cursor) -> Option<Line>
    ensures { result ≡ retry_in words.entry }
{
    let word = words.next()?;
    if !words.is_done() {
        return None;
    }
    Some(Line::Retry(client_process_in(word)?))
}

// settle, without further words
fn settle_line(words: Cursor) -> Option<Line>
    ensures { result ≡ settle_in words.entry }
{
    if words.is_done() {
        Some(Line::Settle)
    } else {
        None
    }
}

// FROM TO, without further words
fn link(mut words: Cursor) -> Option<(Process, Process)>
    ensures { result ≡ link_in words.entry }
{
    let from = words.next()?;
    let to = words.next()?;
    if !words.is_done() {
        return None;
    }
    Some((process_in(from)?, process_in(to)?))
}

// SERVER, without further words
fn lone_server(mut words: Cursor) -> Option<ServerId>
    ensures { result ≡ lone_server_in words.entry }
{
    let word = words.next()?;
    if !words.is_done() {
        return None;
    }
    server_in(word)
}
