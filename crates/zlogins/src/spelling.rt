//! How a login is spelled.

ghost use Rattle.std.specs.Prelude.{◌≡◌, ◌≤◌, IfOk, length};
ghost use Rattle.zlogins.specs.Logins.{colon_in, hash_of, is_login, login_of, user_of};

use base64::DecodeAllocError;
use base64::engine::general_purpose::STANDARD;
use sha1::Sha1;
use std::alloc::Global;
use zalloc::Memory;

// The bytes of a digest (FIPS 180-4).
const DIGEST: usize = 20;

/// Returns the login of a `user:password`.
#[tactic(auto, unfolding(crate::specs::Logins::login_of))]
pub(crate) fn login_of(alloc: Global, given: &[u8]) -> Result<Vec<u8>, Memory>
    ensures { IfOk result (λ login. login.items ≡ login_of given.now) }
{
    let mut hash = String::new(alloc);
    STANDARD.encode_string(&Sha1::digest(given), &mut hash)?;
    let mut login = Vec::from_slice(alloc, user_of(given))?;
    login.push(b':')?;
    login.extend_from_slice(hash.as_bytes())?;
    Ok(login)
}

/// Returns whether these bytes are spelled as a login: after the first colon there is the base64 of
/// a digest.
#[tactic(auto, unfolding(base64::specs::GeneralPurpose::decoded_of))]
pub(crate) fn is_login(alloc: Global, text: &[u8]) -> Result<bool, Memory>
    ensures { IfOk result (λ is. is ≡ is_login text.now) }
{
    match STANDARD.decode(alloc, hash_of(text)) {
        Ok(digest) => Ok(digest.len() == DIGEST),
        Err(DecodeAllocError::OutOfMemory) => Err(Memory),
        Err(_) => Ok(false),
    }
}

// Returns the bytes before the first colon.
fn user_of(text: &[u8]) -> &[u8]
    ensures { result.now ≡ user_of text.now }
{
    &text[..colon_in(text)]
}

// Returns the bytes after the first colon.
fn hash_of(text: &[u8]) -> &[u8]
    ensures { result.now ≡ hash_of text.now }
{
    let end = colon_in(text);
    if end == text.len() {
        return &text[end..];
    }
    &text[end + 1..]
}

// Returns the place of the first colon, or the number of bytes if there is none.
fn colon_in(text: &[u8]) -> usize
    ensures place { result ≡ colon_in text.now }
    ensures bound { result ≤ length text.now }
{
    let mut place = 0;
    'bytes: while place < text.len() {
        if text[place] == b':' {
            return place;
        }
        place += 1;
    }
    place
}
