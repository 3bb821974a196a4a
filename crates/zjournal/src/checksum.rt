//! The checksum before each batch, and the block that holds both.
//!
//! # Why
//! A set commit byte whose block doesn't match its checksum can't come from a crash, so it is
//! damage. The file is left as it is: cutting it would lose acknowledged batches.

ghost use Rattle.std.specs.Prelude.{◌≡◌, ◌<◌, ◌^◌, ◌++◌, [], ◌∷◌, List, ℕ, length, map};
ghost use Rattle.std.specs.Prelude.{IfOk, IfSome, IfNone, IsTrue, ◌↔◌};
ghost use Rattle.zjournal.specs.Checksum.{IsSum, adler_after, digit, digits, stamped, sum_after_all};

use std::alloc::{AllocError, Global};

/// Returns the Adler-32 that continues from this sum over a text.
pub fn sum_after(sum: u32, text: &[u8]) -> u32
    ensures { result ≡ adler_after sum text.now }
{
    let mut a = sum % 65536;
    let mut b = sum / 65536;
    for byte in text {
        a = (a + u32::from(*byte)) % 65521;
        b = (b + a) % 65521;
    }
    b * 65536 + a
}

/// Returns whether both sums of a checksum are below 65521.
pub fn is_sum(sum: u32) -> bool
    ensures { IsTrue result ↔ IsSum sum }
{
    sum % 65536 < 65521 && sum / 65536 < 65521
}

// Returns the sum from which the Adler-32 of a text continues to this one.
fn sum_before(sum: u32, text: &[u8]) -> u32
    requires { IsSum sum }
    ensures is_sum { IsSum result }
    ensures sum { adler_after result text.now ≡ sum }
{
    let mut a = sum % 65536;
    let mut b = sum / 65536;
    let mut at = text.len();
    while at > 0 {
        at -= 1;
        b = (b + 65521 - a) % 65521;
        a = (a + 65521 - u32::from(text[at])) % 65521;
    }
    b * 65536 + a
}

/// Returns the sum from which a file's first checksum has to continue, so that the sum after these
/// texts is this one.
pub fn start_before(sum: u32, texts: &[Vec<u8>]) -> u32
    requires { IsSum sum }
    ensures is_sum { IsSum result }
    ensures sum { sum_after_all result (map (λ t. t.items) texts.now) ≡ sum }
{
    let mut sum = sum;
    let mut at = texts.len();
    while at > 0 {
        at -= 1;
        sum = sum_before(sum, &texts[at]);
    }
    sum
}

// Returns the hexadecimal digit of a number below 16.
fn digit_of(n: u32) -> u8
    requires { n < 16 }
    ensures { result ≡ digit n }
{
    if n < 10 { 48 + n as u8 } else { 87 + n as u8 }
}

/// Returns a checksum as eight hexadecimal digits.
pub fn digits_of(sum: u32) -> [u8; 8]
    ensures { result ≡ digits sum }
{
    [
        digit_of(sum / 268435456 % 16),
        digit_of(sum / 16777216 % 16),
        digit_of(sum / 1048576 % 16),
        digit_of(sum / 65536 % 16),
        digit_of(sum / 4096 % 16),
        digit_of(sum / 256 % 16),
        digit_of(sum / 16 % 16),
        digit_of(sum % 16),
    ]
}

// Returns the number of a hexadecimal digit, and 0 for any other byte.
fn number_of(byte: u8) -> u32
    ensures small { result < 16 }
    ensures number { (n : ℕ) → n < 16 → byte ≡ digit n → result ≡ n }
{
    match byte {
        48..=57 => u32::from(byte) - 48,
        97..=102 => u32::from(byte) - 87,
        _ => 0,
    }
}

/// Returns the checksum of which these are the eight digits.
pub fn sum_of(bytes: &[u8]) -> Option<u32>
    requires { length bytes.now ≡ 8 }
    ensures some { IfSome result (λ sum. bytes.now ≡ digits sum) }
    ensures none { IfNone result ((sum : ℕ) → sum < 2 ^ 32 → bytes.now ≡ digits sum → ⊥) }
{
    let sum = number_of(bytes[0]) * 268435456
        + number_of(bytes[1]) * 16777216
        + number_of(bytes[2]) * 1048576
        + number_of(bytes[3]) * 65536
        + number_of(bytes[4]) * 4096
        + number_of(bytes[5]) * 256
        + number_of(bytes[6]) * 16
        + number_of(bytes[7]);
    if bytes == digits_of(sum).as_slice() {
        Some(sum)
    } else {
        None
    }
}

/// Returns the text after the checksum in front of it, and that checksum, if it matches one that
/// continues from this sum.
pub fn checked(held: &[u8], sum: u32) -> Option<(&[u8], u32)>
    ensures some { IfSome result (λ found. (held.now ≡ stamped sum found.0.now)
        × (found.1 ≡ adler_after sum found.0.now)) }
    ensures none { IfNone result ((text : List ℕ) → held.now ≡ stamped sum text → ⊥) }
{
    if held.len() < 8 {
        return None;
    }
    let (written, text) = held.split_at(8);
    let sum = sum_after(sum, text);
    if written == digits_of(sum).as_slice() {
        Some((text, sum))
    } else {
        None
    }
}

/// Returns the block of a text with this checksum: that, the text, a byte 0, and the next, clear
/// commit byte.
pub fn block_of(alloc: Global, sum: u32, text: &[u8]) -> Result<Vec<u8>, AllocError>
    ensures { IfOk result (λ block. block.items ≡ (digits sum ++ text.now) ++ 0 ∷ 0 ∷ []) }
{
    let mut block = Vec::new(alloc);
    block.extend_from_slice(&digits_of(sum))?;
    block.extend_from_slice(text)?;
    block.extend_from_slice(&[0, 0])?;
    Ok(block)
}
