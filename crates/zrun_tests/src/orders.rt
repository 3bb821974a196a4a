//! What the master says to orders: to each one thing, in the order of the orders.

ghost use Rattle.std.specs.Prelude.{◌<◌, ◌≤◌};

use crate::runs::start_plain;
use std::sync::Wait;
use std::test::Fail;
use std::thread;
use zaudit::audit;
use zrun::{Console, Order, OrderFault, OrderOutcome};
use ztesting::server;

// The ring has room for 64 outcomes, and the channel for 32 orders.
const MANY: u8 = 200;

// Returns the next outcome, for which it waits, but not for ever.
fn hear(console: &mut Console) -> Option<OrderOutcome> {
    for _ in 0..10_000_000u64 {
        let outcome = console.outcome();
        if outcome.is_some() {
            return outcome;
        }
        thread::yield_now();
    }
    None
}

// Returns whether the next outcome is that this order was refused for this.
fn refuses(console: &mut Console, order: Order, fault: OrderFault) -> bool {
    hear(console) == Some(OrderOutcome::Refused(order, fault))
}

// Gives five orders, all but one of which are refused. Returns whether they were handed on.
fn order_five<R: Wait>(rt: &R, console: &mut Console) -> bool {
    let mut given = console.join(rt, server(1)).is_ok();
    given &= console.retire(rt, server(1)).is_ok();
    given &= console.join(rt, server(2)).is_ok();
    given &= console.retire(rt, server(3)).is_ok();
    given & console.join(rt, server(2)).is_ok()
}

// Returns whether each of the five has its outcome, in order.
fn hear_five(console: &mut Console) -> bool {
    let mut right = refuses(console, Order::Join(server(1)), OrderFault::Used);
    right &= refuses(console, Order::Retire(server(1)), OrderFault::Last);
    right &= hear(console) == Some(OrderOutcome::Obeyed(Order::Join(server(2))));
    right &= refuses(console, Order::Retire(server(3)), OrderFault::NotMember);
    right & refuses(console, Order::Join(server(2)), OrderFault::Used)
}

#[test]
fn each_order_has_its_outcome(rt: HostRuntime) -> Result<(), Fail> {
    let alloc = rt.alloc();
    let (cluster, mut console, clients) = start_plain(rt, alloc, server(1), 1)?;
    let given = order_five(&rt, &mut console);
    let right = hear_five(&mut console);
    let is_over = console.outcome().is_none();
    let traces = cluster.join(&rt, alloc, console, clients)?;
    assert!(rt; given && right && is_over);
    assert!(rt; audit(alloc, &traces).is_ok());
    Ok(())
}

// A member of a chain of two leaves.
#[test]
fn an_order_to_leave_has_its_outcome(rt: HostRuntime) -> Result<(), Fail> {
    let alloc = rt.alloc();
    let (cluster, mut console, clients) = start_plain(rt, alloc, server(2), 1)?;
    let given = console.retire(&rt, server(1)).is_ok();
    let outcome = hear(&mut console);
    let traces = cluster.join(&rt, alloc, console, clients)?;
    assert!(rt; given && outcome == Some(OrderOutcome::Obeyed(Order::Retire(server(1)))));
    assert!(rt; audit(alloc, &traces).is_ok());
    Ok(())
}

// The server to which the order of that number goes.
fn target(number: u8) -> u8
    ensures { (0 < result) × (result ≤ 16) }
{
    1 + number % 16
}

// Gives many orders, for whose outcomes no one asks. Returns whether they were handed on.
fn order_many<R: Wait>(rt: &R, console: &mut Console) -> bool {
    let mut given = true;
    for number in 0..MANY {
        given &= console.retire(rt, server(target(number))).is_ok();
    }
    given
}

// Returns whether each of them has its outcome, in order: the first server is the last one that is
// left, and the others are no members.
fn hear_many(console: &mut Console) -> bool {
    let mut right = true;
    for number in 0..MANY {
        let target = target(number);
        let fault = if target == 1 {
            OrderFault::Last
        } else {
            OrderFault::NotMember
        };
        right &= refuses(console, Order::Retire(server(target)), fault);
    }
    right
}

#[test]
fn no_outcome_is_lost(rt: HostRuntime) -> Result<(), Fail> {
    let alloc = rt.alloc();
    let (cluster, mut console, clients) = start_plain(rt, alloc, server(1), 1)?;
    let given = order_many(&rt, &mut console);
    let right = hear_many(&mut console);
    let is_over = console.outcome().is_none();
    let traces = cluster.join(&rt, alloc, console, clients)?;
    assert!(rt; given && right && is_over);
    assert!(rt; audit(alloc, &traces).is_ok());
    Ok(())
}
