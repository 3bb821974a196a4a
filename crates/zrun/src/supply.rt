//! Channels and seats, given to one process after the other, the last one first.

ghost use Rattle.std.specs.Prelude.{◌≡◌, ◌<◌, ◌+◌, IfOk, OnOk, length, All};
ghost use Rattle.std.specs.Arc.{arc_value};
ghost use Rattle.zchannels.specs.HaltSeats.{IsSeatOf};
ghost use Rattle.zchannels.specs.Woven.{AreBlankIns, AreBlankOuts, AreWide};

use crate::opening::Ends;
use std::alloc::Global;
use std::sync::Arc;
use zalloc::Memory;
use zchannels::bells::Bells;
use zchannels::console::{Console, Inbox};
use zchannels::halts::{Halt, HaltSeat};
use zchannels::rings::{Rx, Tx};
use zchannels::{Mesh, weave};
use zthreads::Stamped;

/// A seat at the run's halt word, and the bells of the threads that look at it.
#[derive(Drop)]
pub(crate) struct HaltPost {
    pub(crate) halt: Arc<Halt, Global>,
    pub(crate) seat: HaltSeat,
    pub(crate) bells: Bells,
    ghost own: { IsSeatOf (arc_value halt) seat },
}

impl HaltPost {
    /// Ends the run. A thread that sees this receives nothing more.
    pub(crate) fn end(&mut self) {
        self.halt.set(&mut self.seat, 0);
        self.bells.ring_all();
    }
}

/// What processes are given: a channel from each to each, and a seat each. One more seat is for the
/// thread that ends the run.
#[derive(Drop)]
pub(crate) struct Supply {
    outs: Vec<Vec<Tx<Stamped>>>,
    ins: Vec<Vec<Rx<Stamped>>>,
    width: usize,
    halt: Arc<Halt, Global>,
    seats: Vec<HaltSeat>,
    bells: Bells,
    ghost blank_outs: { AreBlankOuts outs.items },
    ghost blank_ins: { AreBlankIns ins.items },
    ghost wide_outs: { AreWide width outs.items },
    ghost wide_ins: { AreWide width ins.items },
    ghost own: { All (λ seat. IsSeatOf (arc_value halt) seat) seats.items },
    ghost pairs: { length ins.items ≡ length outs.items },
    ghost enough: { length seats.items ≡ length outs.items + 1 },
}

impl Supply {
    ghost use Rattle.zrun.specs.Supplies.{HandsEnds, IsWovenFor, left};
    ghost use Rattle.zrun.specs.Openings.{AreFresh};

    /// Returns the supply for `count` processes, with these bells.
    pub(crate) fn new(alloc: Global, count: usize, bells: Bells) -> Result<Supply, Memory>
        requires { count < 100 }
        ensures left { IfOk result (λ supply. left supply ≡ count) }
        ensures woven { IfOk result (IsWovenFor count) }
    {
        let Mesh { outs, ins } = weave(alloc, count)?;
        let (halt, seats) = Halt::new(alloc, count + 1)?;
        let halt = Arc::new(alloc, halt)?;
        Ok(Supply {
            outs,
            ins,
            width: count,
            halt,
            seats,
            bells,
        })
    }

    /// Returns the channels and the seat of the next process.
    pub(crate) fn next(&mut self) -> Result<(Ends, HaltPost), Memory>
        requires { 0 < left self.old }
        ensures fresh { IfOk result (λ parts. AreFresh parts.0) }
        ensures left { OnOk result (left self.new + 1 ≡ left self.old) }
        ensures rings { IfOk result (λ parts. HandsEnds self.old self.new parts.0) }
    {
        let halt = Arc::try_clone(&self.halt)?;
        let bells = self.bells.copied()?;
        let others = self.bells.copied()?;
        let Some(outs) = self.outs.pop() else {
            unreachable!()
        };
        let Some(ins) = self.ins.pop() else {
            unreachable!()
        };
        let Some(seat) = self.seats.pop() else {
            unreachable!()
        };
        let ends = Ends {
            ins,
            outs,
            bells: others,
        };
        Ok((ends, HaltPost { halt, seat, bells }))
    }

    /// Returns the two ends of the console's channel.
    pub(crate) fn console(&self, alloc: Global) -> Result<(Console, Inbox), Memory> {
        Console::open(alloc, self.bells.copied()?)
    }

    /// Returns the seat of the thread that ends the run.
    pub(crate) fn into_last(self) -> HaltPost {
        let Supply {
            outs,
            ins,
            halt,
            mut seats,
            bells,
            ..
        } = self;
        drop(outs);
        drop(ins);
        let Some(seat) = seats.pop() else {
            unreachable!()
        };
        drop(seats);
        HaltPost { halt, seat, bells }
    }
}
