//! A member of the chain.

ghost use Rattle.std.specs.Prelude.{◌≡◌};

use std::marker::Model;
use zprotocol::{Epoch, ServerId};

/// A member of the chain, with the epoch of its pair with its predecessor.
#[derive(Drop)]
pub(crate) struct Member {
    id: ServerId,
    epoch: Epoch,
}

impl Model for Member {
    ghost use Rattle.std.specs.Prelude.{ℕ};

    ghost Value = { ℕ × ℕ };

    ghost view = { λ member. (member.id, member.epoch) };
}

impl Member {
    pub(crate) fn new(id: ServerId, epoch: Epoch) -> Member
        ensures { result ≡ (id, epoch) }
    {
        Member { id, epoch }
    }

    pub(crate) fn id(&self) -> ServerId
        ensures { result ≡ self.now.0 }
    {
        self.id
    }

    pub(crate) fn epoch(&self) -> Epoch
        ensures { result ≡ self.now.1 }
    {
        self.epoch
    }
}

/// Fills the slots of the array that hold no member.
impl Default for Member {
    fn default() -> Member {
        Member {
            id: ServerId::first(),
            epoch: Epoch::opening(),
        }
    }
}
