//! The number and the flags of a status.

ghost use Rattle.std.specs.Prelude.{◌≡◌};
ghost use Rattle.znode.specs.Turns.{flag, flags_of, number_of};

use crate::status::NodeStatus;

/// Returns the number of the server, 0 if it has none.
pub(crate) fn number_of(status: &NodeStatus) -> u8
    ensures { result ≡ number_of status.now }
{
    match status.own {
        Some(own) => own.number(),
        None => 0,
    }
}

/// Returns the flags of a status: 1 if the server is live, 2 if it has the state, 4 if it is gone.
pub(crate) fn flags_of(status: &NodeStatus) -> u8
    ensures { result ≡ flags_of status.now }
{
    let is_gone = status.own.is_some() && !status.is_live;
    flag(status.is_live, 1) + flag(status.has_state, 2) + flag(is_gone, 4)
}

// Returns the value of a flag.
fn flag(is_set: bool, value: u8) -> u8
    ensures { result ≡ flag is_set value }
{
    if is_set { value } else { 0 }
}
