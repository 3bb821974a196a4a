//! Tests the bytes and the spaces of a line, many bytes at a time. Two overlapping loads cover a
//! short line.
//!
//! # Why
//!
//! One test of 4, 8 or 16 pairs of neighbours at once costs far less than a test of each byte.
//! Words are found by a scan of their own: they are too short for a search that has to be set up.

ghost use Rattle.std.specs.Prelude.{◌≡◌, ◌+◌, ◌-◌, ◌<◌, ◌≤◌, length, true};
ghost use Rattle.zscript_text.specs.support.Spaced.{is_spaced, IsOddAmong};

use std::simd::prelude::*;

/// Returns whether a line has only plain bytes and no empty word: no space at an end, and no two in
/// a row.
pub(crate) fn is_spaced(line: &[u8]) -> bool
    ensures { result ≡ is_spaced true line.now }
{
    let [first, ..] = line else {
        return false;
    };
    if !(0x21..=0x7e).contains(first) {
        return false;
    }
    let pairs = line.len() - 1;
    if line[pairs] == b' ' {
        return false;
    }
    // A byte after the first is odd if it isn't plain, or if it is a space after a space.
    let has_odd = if pairs >= 16 {
        has_odd_in_many(line, pairs)
    } else if pairs >= 8 {
        has_odd_in_lanes::<8>(line, 0) || has_odd_in_lanes::<8>(line, pairs - 8)
    } else if pairs >= 4 {
        has_odd_in_lanes::<4>(line, 0) || has_odd_in_lanes::<4>(line, pairs - 4)
    } else {
        has_odd_in_few(line, pairs)
    };
    !has_odd
}

// Returns whether any of 16 or more pairs of neighbours has an odd second byte. Pair 0 is the first
// and the second byte.
fn has_odd_in_many(line: &[u8], pairs: usize) -> bool
    requires many { 16 ≤ pairs }
    requires are { pairs + 1 ≡ length line.now }
    ensures { IsOddAmong line.now 0 pairs result }
{
    let mut at = 0;
    while pairs - at > 16 {
        if has_odd_in_lanes::<16>(line, at) {
            return true;
        }
        at += 16;
    }
    has_odd_in_lanes::<16>(line, pairs - 16)
}

// The same for the N pairs from `at` on, at once.
#[inline(always)]
fn has_odd_in_lanes<const N: usize>(line: &[u8], at: usize) -> bool
    requires some { (0 < N) × (N ≤ 64) }
    requires are { at + N < length line.now }
    ensures { IsOddAmong line.now at (at + N) result }
{
    let before = Simd::<u8, N>::from_slice(&line[at..]);
    let bytes = Simd::<u8, N>::from_slice(&line[at + 1..]);
    let space = Simd::<u8, N>::splat(b' ');
    let is_odd = bytes.simd_lt(space) | bytes.simd_gt(Simd::<u8, N>::splat(0x7e));
    let is_double = bytes.simd_eq(space) & before.simd_eq(space);
    (is_odd | is_double).to_bitmask() != 0
}

// The same for a few pairs, one by one.
fn has_odd_in_few(line: &[u8], pairs: usize) -> bool
    requires { pairs + 1 ≡ length line.now }
    ensures { IsOddAmong line.now 0 pairs result }
{
    for at in 0..pairs {
        let byte = line[at + 1];
        if !(0x20..=0x7e).contains(&byte) || byte == b' ' && line[at] == b' ' {
            return true;
        }
    }
    false
}
