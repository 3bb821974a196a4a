//! What waits at a path.

ghost use Rattle.std.specs.Prelude.{◌≡◌};
ghost use Rattle.zwatches.specs.Watches.{kind_number as number_of};

use crate::kind::Kind;
use std::cmp::Ordering;

/// A kind and a connection: what a watch is beside its path.
#[derive(Clone, Copy, Debug)]
pub(crate) struct Slot {
    pub(crate) kind: Kind,
    pub(crate) connection: u32,
}

// Returns the rank of a kind in the order of slots.
fn kind_number(kind: Kind) -> u8
    ensures { result ≡ number_of kind }
{
    match kind {
        Kind::Data => 0,
        Kind::Missing => 1,
        Kind::Children => 2,
        Kind::EachData => 3,
        Kind::EachChildren => 4,
        Kind::Recursive => 5,
    }
}

impl PartialEq for Slot {
    ghost use Rattle.std.specs.Cmp.{eq_by_cmp_equiv, partial_equiv_from_equiv};
    ghost use Rattle.std.specs.Ordering.{eq_by_cmp};
    ghost use Rattle.zwatches.specs.support.Nested.{slot_cmp, slots_total};

    ghost eq = { eq_by_cmp slot_cmp };

    ghost laws = { partial_equiv_from_equiv (eq_by_cmp_equiv slots_total) };

    fn eq(&self, other: &Slot) -> bool {
        self.cmp(other).is_eq()
    }
}

impl Eq for Slot {
    ghost use Rattle.std.specs.Cmp.{eq_by_cmp_equiv};
    ghost use Rattle.zwatches.specs.support.Nested.{slots_total};

    ghost laws = { eq_by_cmp_equiv slots_total };
}

impl PartialOrd for Slot {
    ghost use Rattle.std.specs.Prelude.{Some, refl};
    ghost use Rattle.std.specs.Cmp.{po};
    ghost use Rattle.zwatches.specs.support.Nested.{slot_cmp, slots_total};

    ghost partial_cmp = { λ left right. Some (slot_cmp left right) };

    ghost laws = { po slots_total (λ left right. refl) };

    fn partial_cmp(&self, other: &Slot) -> Option<Ordering> {
        Some(self.cmp(other))
    }
}

// Slots are ordered by kind, and then by connection.
impl Ord for Slot {
    ghost use Rattle.std.specs.Prelude.{refl};
    ghost use Rattle.zwatches.specs.support.Nested.{slot_cmp, slots_total};

    ghost cmp = { slot_cmp };

    ghost total = { slots_total };

    ghost matches_partial_cmp = { λ left right. refl };

    ghost matches_eq = { λ left right. refl };

    fn cmp(&self, other: &Slot) -> Ordering {
        kind_number(self.kind)
            .cmp(&kind_number(other.kind))
            .then(self.connection.cmp(&other.connection))
    }
}
