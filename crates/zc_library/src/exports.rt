//! The C exports.
//!
//! # Why
//!
//! C holds a service by a pointer to bytes, and each export casts it. The type itself contains
//! numbers of 128 bits, which an export's type may not reach, not even through a pointer.
//! `jellqupas_open` lends the new service again for its status, since a pair is more to prove by
//! hand.

ghost use Rattle.std.specs.Prelude.{◌≡◌, ℕ, ◌^◌, ◌<◌, List, length};
ghost use Rattle.std.specs.Mem.{type_size};
ghost use base.Fml.{Share};
ghost use base.Fraction.{full_share};
ghost use types.Logic.{sem};
ghost use denote.Array.{Array};
ghost use denote.Builtin.{u8};
ghost use denote.RawPtr.{lies_at, room_at};
ghost use Rattle.zc_library.specs.declared.service.Service.{Service};
ghost use Rattle.zc_library.specs.contracts.service.Service as service;
ghost use Rattle.zc_library.specs.Service.{OpensAs, HearsAs, Reports};

use crate::service::{Service, finish, hear, make, status, tell};
use std::alloc::Global;
use std::mem::size_of;

/// Returns the size of a service in bytes. C provides the memory.
#[unsafe(no_mangle)]
pub extern "C" fn jellqupas_size() -> usize
    ensures { result ≡ type_size service.the_row }
{
    size_of::<Service>()
}

/// Opens a service in the memory at `at`. Returns 0 where it is open, 2 where it is out of memory,
/// and 3 where there is no such number of servers.
#[unsafe(no_mangle)]
pub unsafe extern "C" fn jellqupas_open(alloc: Global, servers: u8, at: *mut u8) -> u32
    requires* { sem 𝓛 (room_at service.the_row at) }
    ensures* { ∃ₛ (λ (new : Service). sem 𝓛 (lies_at service.the_row full_share at new)
        ∗ ⌜ OpensAs servers new result ⌝) }
{
    let at = at as *mut Service;
    at.write(make(alloc, servers));
    status(&mut *at)
}

/// Executes one line, which is given without its LF.
///
/// Returns 0 where that is done: its answer is then pending. Returns 1 where an earlier answer is
/// still pending, and nothing was done. Returns 2 where memory ran out, now or before, and 3 where
/// there are no servers.
#[unsafe(no_mangle)]
pub unsafe extern "C" fn jellqupas_hear(at: *mut u8, from: *const u8, len: usize) -> u32
    ghost g: { Service × (Share × List ℕ) }
    requires* { sem 𝓛 (lies_at service.the_row full_share at g.0)
        ∗ (sem 𝓛 (lies_at (Array u8 len) g.1.0 from g.1.1) ∗ ⌜ len < 2 ^ 63 ⌝) }
    ensures* { ∃ₛ (λ (new : Service). sem 𝓛 (lies_at service.the_row full_share at new)
        ∗ (sem 𝓛 (lies_at (Array u8 len) g.1.0 from g.1.1)
        ∗ ⌜ HearsAs g.0 new g.1.1 result ⌝)) }
{
    hear(
        &mut *(at as *mut Service),
        std::slice::from_raw_parts(from, len),
    )
}

/// Returns the length of the pending answer in bytes. If the buffer has room for it, it is copied
/// there, and is no longer pending. Otherwise nothing is done.
#[unsafe(no_mangle)]
pub unsafe extern "C" fn jellqupas_tell(at: *mut u8, to: *mut u8, len: usize) -> usize
    ghost g: { Service × List ℕ }
    requires* { sem 𝓛 (lies_at service.the_row full_share at g.0)
        ∗ (sem 𝓛 (lies_at (Array u8 len) full_share to g.1) ∗ ⌜ len < 2 ^ 63 ⌝) }
    ensures* { ∃ₛ (λ (new : Service). ∃ₛ (λ (after : List ℕ).
        sem 𝓛 (lies_at service.the_row full_share at new)
        ∗ (sem 𝓛 (lies_at (Array u8 len) full_share to after)
        ∗ ⌜ Reports g.0 new g.1 after result ⌝))) }
{
    tell(
        &mut *(at as *mut Service),
        std::slice::from_raw_parts_mut(to, len),
    )
}

/// Closes a service. Its memory is C's to free.
#[unsafe(no_mangle)]
pub unsafe extern "C" fn jellqupas_close(at: *mut u8)
    ghost g: { Service }
    requires* { sem 𝓛 (lies_at service.the_row full_share at g) }
    ensures* { sem 𝓛 (room_at service.the_row at) }
{
    finish((at as *mut Service).read());
}
