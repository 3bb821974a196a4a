//! Four threads draw tickets from one word.

ghost use Rattle.std.specs.Prelude.{IfOk, IfSome};
ghost use Rattle.zchannels.specs.Passes.{IsPassOf};
ghost use Rattle.zrun_tests.specs.Handed.{AreAllOf, AreOf};

use std::test::Fail;
use std::thread::{Threads, join};
use zalloc::Memory;
use zchannels::tickets::{Pass, Tickets};

const DRAWS: usize = 1_000;

// Draws a thousand.
fn draw_all(tickets: &Tickets, mut pass: Pass) -> Pass
    requires { IsPassOf tickets.now pass }
    ensures { IsPassOf tickets.now result }
{
    for _ in 0..DRAWS {
        if pass.count() < 1 << 32 {
            // Which ticket it is is no matter: the pass counts it.
            let _ = tickets.draw(&mut pass);
        }
    }
    pass
}

// Two threads draw, and two more.
fn draw_four<R: Threads + Sync>(
    rt: &R,
    tickets: &Tickets,
    one: (Pass, Pass),
    other: (Pass, Pass),
) -> ((Pass, Pass), (Pass, Pass))
    requires one { AreOf tickets.now one }
    requires other { AreOf tickets.now other }
    ensures one { AreOf tickets.now result.0 }
    ensures other { AreOf tickets.now result.1 }
{
    join(
        rt,
        || -> (Pass, Pass)
            requires { AreOf tickets.now one }
            ensures { AreOf tickets.entry.now result }
        { draw_two(rt, tickets, one) },
        || -> (Pass, Pass)
            requires { AreOf tickets.now other }
            ensures { AreOf tickets.entry.now result }
        { draw_two(rt, tickets, other) },
    )
}

// Two threads draw.
fn draw_two<R: Threads>(rt: &R, tickets: &Tickets, passes: (Pass, Pass)) -> (Pass, Pass)
    requires { AreOf tickets.now passes }
    ensures { AreOf tickets.now result }
{
    let (one, other) = passes;
    join(
        rt,
        || -> Pass
            requires { IsPassOf tickets.now one }
            ensures { IsPassOf tickets.entry.now result }
        { draw_all(tickets, one) },
        || -> Pass
            requires { IsPassOf tickets.now other }
            ensures { IsPassOf tickets.entry.now result }
        { draw_all(tickets, other) },
    )
}

// The last two passes of many.
fn last_two(tickets: &Tickets, passes: &mut Vec<Pass>) -> Option<(Pass, Pass)>
    requires { AreAllOf tickets.now passes.old.items }
    ensures two { IfSome result (AreOf tickets.now) }
    ensures others { AreAllOf tickets.now passes.new.items }
{
    // Only the clauses speak of them.
    let _ = tickets;
    let one = passes.pop()?;
    let other = passes.pop()?;
    Some((one, other))
}

// Two passes more.
fn push_two(
    tickets: &Tickets,
    mut passes: Vec<Pass>,
    two: (Pass, Pass),
) -> Result<Vec<Pass>, Memory>
    requires those { AreAllOf tickets.now passes.items }
    requires two { AreOf tickets.now two }
    ensures { IfOk result (λ all. AreAllOf tickets.now all.items) }
{
    let _ = tickets;
    passes.push(two.0)?;
    passes.push(two.1)?;
    Ok(passes)
}

#[test]
fn four_threads_draw_each_number_once(rt: HostRuntime) -> Result<(), Fail> {
    let (tickets, mut passes) = Tickets::new(rt.alloc(), 4)?;
    let one = last_two(&tickets, &mut passes).ok_or("there are four passes")?;
    let other = last_two(&tickets, &mut passes).ok_or("there are four passes")?;
    let (one, other) = draw_four(&rt, &tickets, one, other);
    let passes = push_two(&tickets, passes, one)?;
    let passes = push_two(&tickets, passes, other)?;
    assert!(rt; tickets.close(passes) == Some(4_000));
    Ok(())
}

#[test]
fn a_pass_that_is_not_back_is_missed(rt: HostRuntime) -> Result<(), Fail> {
    let (tickets, mut passes) = Tickets::new(rt.alloc(), 4)?;
    let two = last_two(&tickets, &mut passes).ok_or("there are four passes")?;
    drop(two);
    assert!(rt; tickets.close(passes).is_none());
    Ok(())
}
