//! The server numbers that were ever used, as an array of flags.

ghost use Rattle.std.specs.Prelude.{◌≡◌, ◌≤◌, length};
ghost use Rattle.zprotocol.specs.declared.limits.TheConstants.{MAX_SERVERS};
ghost use Rattle.zprotocol.specs.master.View.{is_among, with_number};
ghost use Rattle.zmaster.specs.support.Marks.{numbers_from};

use crate::limits::SERVERS;
use zprotocol::ServerId;

/// Returns whether the number is used.
pub(crate) fn is_used(used: &[bool; SERVERS], server: ServerId) -> bool
    ensures { result ≡ is_among server (numbers_from 1 used.now) }
{
    used[server.number() as usize - 1]
}

/// Marks the number as used.
pub(crate) fn mark_used(used: &mut [bool; SERVERS], server: ServerId)
    ensures { numbers_from 1 used.new ≡ with_number server (numbers_from 1 used.old) }
{
    used[server.number() as usize - 1] = true;
}

/// At most `MAX_SERVERS` numbers are used. The function does nothing.
pub(crate) fn keeps_few(used: &[bool; SERVERS])
    ensures { length (numbers_from 1 used.now) ≤ MAX_SERVERS }
{
    let _ = used.len();
}
