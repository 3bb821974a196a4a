//! A session in its slot.

use zslots::{Linked, Links};
use ztree::{Session, SessionId};

/// A session, its id, and its links in its bucket.
#[derive(Drop)]
pub(crate) struct SessionRow {
    pub(crate) id: SessionId,
    pub(crate) session: Session,
    pub(crate) links: Links,
}

impl Linked<0> for SessionRow {
    ghost use Rattle.std.specs.Prelude.{refl};

    ghost links = { λ row. row.links };

    ghost with_links = { λ row to. record row { links = to } };

    ghost reads = { λ _ _. refl };

    ghost same = { λ _. refl };

    ghost twice = { λ _ _ _. refl };

    fn links(&self) -> Links {
        self.links
    }

    fn set_links(&mut self, to: Links) {
        self.links = to;
    }
}
