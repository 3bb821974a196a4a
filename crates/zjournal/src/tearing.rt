//! Torn writes and cuts in memory.

ghost use Rattle.std.specs.Prelude.{◌≡◌, ◌⊎◌, ◌≤◌, ◌++◌, List, ℕ, length, take, IfOk, OnOk};
ghost use Rattle.zjournal.specs.Device.{Cut, Holds, Torn};

use std::alloc::{AllocError, Global};

/// Returns the next chance (a linear congruential generator).
pub(crate) fn next_chance(chance: u64) -> u64 {
    chance
        .wrapping_mul(6364136223846793005)
        .wrapping_add(1442695040888963407)
}

/// Returns what a power cut leaves of a write. Each byte of its range is the old one, the new one
/// or another; the length is the old one, the new one or between.
pub(crate) fn torn(
    alloc: Global,
    disk: &[u8],
    at: usize,
    bytes: &[u8],
    chance: u64,
) -> Result<Vec<u8>, AllocError>
    ensures { IfOk result (λ next. Torn at (length bytes.now) disk.now next.items) }
{
    if at > disk.len() {
        return disk.to_vec(alloc);
    }
    let mut next = disk[..at].to_vec(alloc)?;
    add_torn(&mut next, &disk[at..], bytes, chance)?;
    if bytes.len() < disk.len() - at {
        next.extend_from_slice(&disk[at + bytes.len()..])?;
    }
    Ok(next)
}

// Appends the torn range. It is as long as the write. Where the file ended in it, it may be
// shorter, but not shorter than what was there.
fn add_torn(next: &mut Vec<u8>, old: &[u8], bytes: &[u8], chance: u64) -> Result<(), AllocError>
    ensures { OnOk result ((range : List ℕ) × (next.new.items ≡ next.old.items ++ range)
        × (length range ≤ length bytes.now)
        × ((length old.now ≤ length range) ⊎ (length range ≡ length bytes.now))) }
{
    let mut chance = chance;
    for i in 0..bytes.len() {
        chance = next_chance(chance);
        if i >= old.len() && chance / 4294967296 % 16 == 0 {
            return Ok(());
        }
        let byte = match chance / 65536 % 4 {
            0 => (chance / 1048576 % 3) as u8,
            1 if i < old.len() => old[i],
            _ => bytes[i],
        };
        next.push(byte)?;
    }
    Ok(())
}

/// Returns what a power cut leaves of a cut: the length is the old one, the new one or between.
pub(crate) fn torn_cut(
    alloc: Global,
    disk: &[u8],
    len: usize,
    chance: u64,
) -> Result<Vec<u8>, AllocError>
    ensures { IfOk result (λ next. Cut len disk.now next.items) }
{
    if disk.len() <= len {
        return disk.to_vec(alloc);
    }
    let more = chance / 65536 % (disk.len() - len + 1) as u64;
    disk[..len + more as usize].to_vec(alloc)
}

/// Returns the content after a write.
pub(crate) fn written(
    alloc: Global,
    seen: &[u8],
    at: usize,
    bytes: &[u8],
) -> Result<Vec<u8>, AllocError>
    requires { at ≤ length seen.now }
    ensures holds { IfOk result (λ next. Holds seen.now at bytes.now next.items) }
    ensures torn { IfOk result (λ next. Torn at (length bytes.now) seen.now next.items) }
{
    let mut next = seen[..at].to_vec(alloc)?;
    next.extend_from_slice(bytes)?;
    if bytes.len() < seen.len() - at {
        next.extend_from_slice(&seen[at + bytes.len()..])?;
    }
    Ok(next)
}

/// Returns the content after a cut.
pub(crate) fn shortened(alloc: Global, seen: &[u8], len: usize) -> Result<Vec<u8>, AllocError>
    requires { len ≤ length seen.now }
    ensures front { IfOk result (λ next. next.items ≡ take len seen.now) }
    ensures cut { IfOk result (λ next. Cut len seen.now next.items) }
{
    seen[..len].to_vec(alloc)
}
