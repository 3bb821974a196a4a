//! A neighbour in the chain.

ghost use Rattle.std.specs.Prelude.{◌≡◌};
ghost use Rattle.zprotocol.specs.server.Table.{is_neighbour};

use std::marker::Model;
use zprotocol::{Epoch, ServerId};

/// A neighbour in the chain, with the epoch of the pair.
#[derive(Drop)]
pub(crate) struct Neighbour {
    pub(crate) id: ServerId,
    pub(crate) epoch: Epoch,
}

impl Model for Neighbour {
    ghost use Rattle.std.specs.Prelude.{ℕ};

    ghost Value = { ℕ × ℕ };

    ghost view = { λ neighbour. (neighbour.id, neighbour.epoch) };
}

/// Returns whether the neighbour is this server, in this epoch.
pub(crate) fn is_neighbour(neighbour: &Option<Neighbour>, server: ServerId, epoch: Epoch) -> bool
    ensures { result ≡ is_neighbour neighbour.now server epoch }
{
    match neighbour {
        Some(neighbour) => {
            neighbour.id.number() == server.number() && neighbour.epoch.number() == epoch.number()
        }
        None => false,
    }
}
