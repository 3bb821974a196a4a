//! The logins of a text, line by line.

ghost use Rattle.std.specs.Prelude.{◌≡◌, Ok, IfErr, IfOk, OnOk};
ghost use Rattle.std.specs.Option.{option_map};
ghost use Rattle.zlogins.specs.Reading.{AddsLine, IsFaultOf, behind_digest, line_logins, lines_of};
ghost use Rattle.zlogins.specs.Reading.{login_on, logins_on};

use crate::fault::LoginsFault;
use crate::login::Login;
use crate::spelling::is_login;
use memchr::memchr;
use std::alloc::Global;

/// Returns the logins of a text, in order.
pub(crate) fn read(alloc: Global, text: &[u8]) -> Result<Vec<Login>, LoginsFault>
    ensures found { IfOk result (λ logins. logins_on 1 (lines_of text.now) ≡ Ok logins.items) }
    ensures fault { IfErr result (IsFaultOf (logins_on 1 (lines_of text.now))) }
{
    let mut logins = Vec::new(alloc);
    let mut rest = text;
    let mut number = 1;
    'lines: while let Some(end) = memchr(b'\n', rest) {
        add_line(alloc, &rest[..end], number, &mut logins)?;
        rest = &rest[end + 1..];
        number += 1;
    }
    add_line(alloc, rest, number, &mut logins)?;
    Ok(logins)
}

// Appends the login of a line. An empty line has none.
fn add_line(
    alloc: Global,
    line: &[u8],
    number: usize,
    logins: &mut Vec<Login>,
) -> Result<(), LoginsFault>
    ensures added { OnOk result (AddsLine number line.now logins.old.items logins.new.items) }
    ensures fault { IfErr result (IsFaultOf (line_logins number line.now)) }
{
    if line.is_empty() {
        return Ok(());
    }
    let login = login_on(alloc, line, number)?;
    logins.push(login)?;
    Ok(())
}

// Returns the login of a line that isn't empty.
fn login_on(alloc: Global, line: &[u8], number: usize) -> Result<Login, LoginsFault>
    ensures found { IfOk result (λ login. login_on number line.now ≡ Ok login) }
    ensures fault { IfErr result (IsFaultOf (login_on number line.now)) }
{
    let Some(text) = behind_digest(line) else {
        return Err(LoginsFault::NoDigest(number));
    };
    if !is_login(alloc, text)? {
        return Err(LoginsFault::NoHash(number));
    }
    Ok(Login::new(Vec::from_slice(alloc, text)?))
}

// Returns what follows the word `digest` and a space at the front of a line.
fn behind_digest(line: &[u8]) -> Option<&[u8]>
    ensures { option_map (λ text. text.now) result ≡ behind_digest line.now }
{
    match line {
        [b'd', b'i', b'g', b'e', b's', b't', b' ', text @ ..] => Some(text),
        _ => None,
    }
}
