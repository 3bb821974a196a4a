//! Bits that are set, and never cleared, by one atomic step on a shared word.
ghost use Rattle.std.specs.Prelude.{◌≡◌, ◌^◌, ◌≤◌, [], bit_or, vec_len, All, IfOk, IsTrue, ◌↔◌};
ghost use Rattle.zchannels.specs.declared.limits.TheConstants.{LAST_BIT};
ghost use Rattle.zchannels.specs.Raised.{known, NoneIsSet};

use crate::halt_rule::{Known, Seats, Sees, Sets, Stays};
use crate::looks::Look;
use atomic_table::{Seat, Table};
use std::alloc::Global;
use zalloc::Memory;

/// The right to set and to read the bits of one halt. It has one of the halt's parts, and is
/// zero-sized.
#[derive(Drop)]
pub struct HaltSeat {
    pub(crate) seat: Seat<(), Known>,
    ghost one: { seat.me.0.parts ≡ 1 },
}

/// Bits 0 to `LAST_BIT`, which threads set and read. No bit is ever cleared.
#[derive(Drop)]
pub struct Halt {
    pub(crate) table: Table<(), Known, u64, Stays, Global>,
    ghost one_word: { table.shared.table_id.words ≡ 1 },
}

// Returns a seat that knows of no bit.
fn fresh(seat: Seat<(), Known>) -> HaltSeat
    requires { seat.me ≡ (known 1 0, []) }
    ensures { result.seat ≡ seat }
{
    HaltSeat { seat }
}

impl Halt {
    ghost use Rattle.zchannels.specs.Raised.{Within};
    ghost use Rattle.zchannels.specs.HaltSeats.{all_parts, found_by, IsSeatOf, Knows, known_of};

    /// Returns a halt with no bit set, and `n` seats that know of no bit. They hold all its parts,
    /// so no other seat has set one (`no_bit_is_set`). The only error is out of memory.
    pub fn new(alloc: Global, n: usize) -> Result<(Halt, Vec<HaltSeat>), Memory>
        ensures count { IfOk result (λ r. vec_len r.1 ≡ n) }
        ensures parts { IfOk result (λ r. all_parts r.0 ≡ n) }
        ensures seats { IfOk result (λ r. All (λ h. IsSeatOf r.0 h × (known_of h ≡ 0)) r.1.items) }
    {
        let mut seats = Vec::with_capacity(alloc, n)?;
        let parts = n as u64;
        let (table, mut seat) = Table::<(), Known, u64, Stays, Global>::of_words(
            alloc,
            &[0],
            &parts,
        )?;
        for _ in 0..n {
            let one = table.shared.split_seat::<Seats>(&mut seat);
            seats.push_reserved(fresh(one));
        }
        Ok((Halt { table }, seats))
    }

    /// Sets bit `s`, and no other bit, by one atomic step.
    pub fn set(&self, seat: &mut HaltSeat, s: u32)
        requires own { IsSeatOf self.now seat.old }
        requires bit { s ≤ LAST_BIT }
        ensures own { IsSeatOf self.now seat.new }
        ensures set { Knows seat.new s }
        ensures only { known_of seat.new ≡ bit_or (known_of seat.old) (2 ^ s) }
        ensures kept { Within (known_of seat.old) (known_of seat.new) }
    {
        self.table
            .shared
            .fetch_or::<Sets>(&mut seat.seat, 0, 1 << s);
    }

    /// Returns all bits, as one load finds them. A bit that the seat has set or seen is found set
    /// from then on.
    pub fn look(&self, seat: &mut HaltSeat) -> Look
        requires own { IsSeatOf self.now seat.old }
        ensures own { IsSeatOf self.now seat.new }
        ensures seen { found_by result ≡ known_of seat.new }
        ensures kept { Within (known_of seat.old) (known_of seat.new) }
    {
        Look::of(self.table.shared.load::<Sees>(&mut seat.seat, 0))
    }

    /// Returns whether one load found bit `s` set. A bit that the seat has set or seen is found set
    /// from then on.
    pub fn is_set(&self, seat: &mut HaltSeat, s: u32) -> bool
        requires own { IsSeatOf self.now seat.old }
        requires bit { s ≤ LAST_BIT }
        ensures own { IsSeatOf self.now seat.new }
        ensures seen { IsTrue result ↔ Knows seat.new s }
        ensures kept { Within (known_of seat.old) (known_of seat.new) }
        ensures known { Knows seat.old s → IsTrue result }
    {
        self.look(seat).has(s)
    }
}

/// Where seats that know of no bit hold all parts of a halt, no bit is set. So a new halt has none
/// set: `Halt::new` hands out as many seats as it has parts, and each knows of none.
pub fn no_bit_is_set()
    ensures { NoneIsSet }
{}
