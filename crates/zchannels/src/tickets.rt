//! Numbers that threads draw, each once, by one atomic step on a shared word.
ghost use Rattle.std.specs.Prelude.{◌≡◌, ◌≢◌, ◌^◌, ◌<◌, ◌≤◌, ◌++◌, [], ◌∷◌};
ghost use Rattle.std.specs.Prelude.{length, vec_len, All, IfOk, IfNone, IfSome};
ghost use Rattle.zchannels.specs.Given.{hand};
ghost use Rattle.zchannels.specs.declared.limits.TheConstants.{MAX_PASSES};

use crate::hand::{Deals, Draws, Fair, Hand};
use crate::limits::MAX_PASSES;
use atomic_table::{Seat, Table};
use std::alloc::Global;
use zalloc::Memory;

/// The right to draw from one ticket word, and the count of what was drawn with it.
#[derive(Drop)]
pub struct Pass {
    pub(crate) seat: Seat<(), Hand>,
    count: u64,
    ghost one: { seat.me.0.parts ≡ 1 },
    ghost counted: { length seat.me.0.drawn ≡ count },
    ghost free: { seat.me.1 ≡ [] },
}

/// A word from which passes draw the numbers 0, 1, 2 and so on, each number once.
#[derive(Drop)]
pub struct Tickets {
    pub(crate) table: Table<(), Hand, u64, Fair, Global>,
    passes: usize,
    ghost one_word: { table.shared.table_id.words ≡ 1 },
    ghost no_slot: { table.shared.table_id.slots ≡ 0 },
    ghost key: { table.shared.key ≡ passes },
    ghost some: { 0 < passes },
    ghost few: { passes ≤ MAX_PASSES },
}

// Returns a pass that has drawn nothing.
fn fresh(seat: Seat<(), Hand>) -> Pass
    requires { seat.me ≡ (hand 1 [], []) }
    ensures { result.seat ≡ seat }
{
    Pass { seat, count: 0 }
}

impl Pass {
    ghost use Rattle.zchannels.specs.Passes.{tickets_of};

    /// Returns how many tickets it has drawn.
    pub fn count(&self) -> u64
        ensures { result ≡ length (tickets_of self.now) }
    {
        self.count
    }
}

impl Tickets {
    ghost use Rattle.zchannels.specs.Given.{EachOnce, times};
    ghost use Rattle.zchannels.specs.Passes.{IsPassOf, passes_of, tickets_of, tickets_of_all};

    /// Returns the word, at 0, and `n` passes that have drawn nothing. The only error is out of
    /// memory.
    pub fn new(alloc: Global, n: usize) -> Result<(Tickets, Vec<Pass>), Memory>
        requires some { 0 < n }
        requires few { n ≤ MAX_PASSES }
        ensures count { IfOk result (λ r. (vec_len r.1 ≡ n) × (passes_of r.0 ≡ n)) }
        ensures all { IfOk result (λ r. All (λ p. IsPassOf r.0 p × (tickets_of p ≡ [])) r.1.items) }
    {
        let mut passes = Vec::with_capacity(alloc, n)?;
        let about = n as u64;
        let (table, mut seat) = Table::<(), Hand, u64, Fair, Global>::of_words(
            alloc,
            &[0],
            &about,
        )?;
        for _ in 0..n {
            let one = table.shared.split_seat::<Deals>(&mut seat);
            passes.push_reserved(fresh(one));
        }
        Ok((Tickets { table, passes: n }, passes))
    }

    /// Draws the pass's next ticket. One atomic step reads it from the word and adds 1 to the word.
    pub fn draw(&self, pass: &mut Pass) -> u64
        requires own { IsPassOf self.now pass.old }
        requires room { length (tickets_of pass.old) < 2 ^ 32 }
        ensures own { IsPassOf self.now pass.new }
        ensures drawn { tickets_of pass.new ≡ tickets_of pass.old ++ result ∷ [] }
    {
        let found = self.table.shared.fetch_add::<Draws>(&mut pass.seat, 0, 1);
        pass.count += 1;
        found
    }

    /// Returns how many numbers were drawn: the passes drew all numbers below it, each once.
    /// Returns `None` unless all passes of the word are given.
    pub fn close(self, mut passes: Vec<Pass>) -> Option<u64>
        requires { All (λ p. IsPassOf self p) passes.items }
        ensures each { IfSome result (λ n.
            EachOnce n (λ x. times x (tickets_of_all passes.items))) }
        ensures all { IfSome result (λ _. length passes.items ≡ passes_of self) }
        ensures none { IfNone result (length passes.items ≢ passes_of self) }
    {
        let Tickets { table, passes: n } = self;
        if passes.len() != n {
            return None;
        }
        let Some(last) = passes.pop() else {
            return None;
        };
        let Pass {
            seat: mut all,
            count: _,
        } = last;
        while let Some(pass) = passes.pop() {
            let Pass { seat, count: _ } = pass;
            table.shared.join_seat::<Deals>(&mut all, seat);
        }
        let closed = table.close_with(all);
        let word = closed.word(0);
        closed.free();
        Some(word)
    }
}
