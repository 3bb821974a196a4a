//! A bit that one thread sets is seen by another, and no other bit is.

ghost use Rattle.zchannels.specs.HaltSeats.{IsSeatOf};

use std::test::Fail;
use std::thread;
use std::thread::join;
use zchannels::halts::{Halt, HaltSeat};

// Looks at bit 3 until it is set, a hundred million times at most; and at bit 2.
fn wait_for(halt: &Halt, mut seat: HaltSeat) -> (bool, bool)
    requires { IsSeatOf halt.now seat }
{
    for _ in 0..100_000_000u64 {
        if halt.is_set(&mut seat, 3) {
            return (true, halt.is_set(&mut seat, 2));
        }
        thread::yield_now();
    }
    (false, halt.is_set(&mut seat, 2))
}

#[test]
fn a_set_bit_is_seen(rt: HostRuntime) -> Result<(), Fail> {
    let (halt, mut seats) = Halt::new(rt.alloc(), 2)?;
    let mut one = seats.pop().ok_or("there are two seats")?;
    let other = seats.pop().ok_or("there are two seats")?;
    assert!(rt; !halt.is_set(&mut one, 3));
    let (_, seen) = join(&rt, || halt.set(&mut one, 3), || wait_for(&halt, other));
    assert!(rt; seen == (true, false));
    Ok(())
}
