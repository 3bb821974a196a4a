//! HMAC-SHA256 under a key of 32 bytes.
//!
//! # Why
//!
//! The toolchain's library has SHA-256 but no HMAC. The key is always the 32 bytes of the secret,
//! so a key longer than a block needs no case.

ghost use Rattle.std.specs.Prelude.{◌≡◌, ◌++◌};
ghost use Rattle.sha2.specs.Sha256.{sha256};
ghost use Rattle.zpasswords.specs.Hmac.{hmac_sha256 as hmac_of, padded, xored};

use sha2::{Digest, Sha256};

// What the key's block is xored with before the message (RFC 2104, section 2).
const INNER_PAD: u8 = 0x36;

// What the key's block is xored with before the inner digest.
const OUTER_PAD: u8 = 0x5c;

// Returns the key padded with zeros to a block, each byte xored with the pad.
fn keyed_block(key: &[u8; 32], pad: u8) -> [u8; 64]
    ensures { result ≡ xored pad (padded key.now) }
{
    let mut block = [pad; 64];
    'bytes: for i in 0..32 {
        block[i] = key[i] ^ pad;
    }
    block
}

// Returns the digest of the key's block, xored with the pad, followed by the message.
fn keyed_digest(key: &[u8; 32], pad: u8, message: &[u8]) -> [u8; 32]
    ensures { result ≡ sha256 (xored pad (padded key.now) ++ message.now) }
{
    let mut hasher = Sha256::new();
    hasher.update(keyed_block(key, pad));
    hasher.update(message);
    hasher.finalize()
}

/// Returns the HMAC-SHA256 of a message.
#[tactic(auto, unfolding(crate::specs::Hmac::hmac_sha256))]
pub fn hmac_sha256(key: &[u8; 32], message: &[u8]) -> [u8; 32]
    ensures { result ≡ hmac_of key.now message.now }
{
    let inner = keyed_digest(key, INNER_PAD, message);
    keyed_digest(key, OUTER_PAD, &inner)
}
