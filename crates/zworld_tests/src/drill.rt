//! The drill of one base list.

use crate::asking::{creates, has_made, has_one_child, is_answered, lists, settles};
use crate::base::{Base, Move, client, process, server};
use crate::trouble::Trouble;
use std::alloc::Global;
use zcalls::{Kind, Lifetime};
use zprotocol::world::Event;
use zworld::World;

/// How many lists were run, and in how many of them the state lived and all was answered.
#[derive(Clone, Copy, Default)]
pub struct Counts {
    pub run: usize,
    pub answered: usize,
}

/// A loss of a server, which fails or is ordered to leave: before the event at that index, or at
/// the end.
type Loss = (usize, Move);

/// The last server that is lost: the base lists name four, so that this one is spare.
const LAST_LOST: u8 = 5;

/// Runs the list with each loss, and with each two of them. Two at one index come in both orders.
pub fn drilled(alloc: Global, base: &Base, counts: &mut Counts) -> Result<(), Trouble> {
    let losses = losses(alloc, base)?;
    for &first in &losses {
        note(drill(alloc, base, &[first])?, counts);
        for &second in &losses {
            if first.0 <= second.0 {
                note(drill(alloc, base, &[first, second])?, counts);
            }
        }
    }
    Ok(())
}

fn note(lives: bool, counts: &mut Counts) {
    counts.run = counts.run.saturating_add(1);
    if lives {
        counts.answered = counts.answered.saturating_add(1);
    }
}

// Returns each server at each index, the spare one included: it fails, or it is ordered to leave.
fn losses(alloc: Global, base: &Base) -> Result<Vec<Loss>, Trouble> {
    let mut all = Vec::new(alloc);
    for place in 0..=base.moves.len() {
        for number in 1..=LAST_LOST {
            all.push((place, Move::Fail(number)))?;
            all.push((place, Move::Retire(number)))?;
        }
    }
    Ok(all)
}

// Runs the list with losses, in a world of its own. Returns whether the state survived; then all
// was answered.
fn drill(alloc: Global, base: &Base, losses: &[Loss]) -> Result<bool, Trouble> {
    let mut world = World::new(alloc, server(base.last)?, 2)?;
    let lives = drill_in(&mut world, alloc, base, losses);
    drop(world);
    lives
}

// Makes the run in this world.
fn drill_in(
    world: &mut World,
    alloc: Global,
    base: &Base,
    losses: &[Loss],
) -> Result<bool, Trouble> {
    prepares(alloc, world)?;
    world.run(events(alloc, base, losses)?)?;
    settles(world)?;
    if !lives(base, losses) {
        return Ok(false);
    }
    is_well(alloc, world)?;
    Ok(true)
}

// Makes ten nodes beforehand, and the parent.
fn prepares(alloc: Global, world: &mut World) -> Result<(), Trouble> {
    for _ in 0..10 {
        world.step(creates(alloc, "/n-", Kind::sequential(Lifetime::Persistent))?)?;
        settles(world)?;
    }
    world.step(creates(alloc, "/q", Kind::named(Lifetime::Persistent))?)?;
    settles(world)
}

// Checks that all is answered, and that the parent has one child and can have another.
fn is_well(alloc: Global, world: &mut World) -> Result<(), Trouble> {
    if !is_answered(world.history()) {
        return Err(Trouble::NotAnswered);
    }
    world.step(lists(alloc)?)?;
    settles(world)?;
    if !has_one_child(world.history()) {
        return Err(Trouble::NotOneChild);
    }
    world.step(creates(alloc, "/q/n-", Kind::sequential(Lifetime::Persistent))?)?;
    settles(world)?;
    if has_made(world.history()) {
        Ok(())
    } else {
        Err(Trouble::NotAnswered)
    }
}

// Returns the base list with the losses inserted.
fn events(alloc: Global, base: &Base, losses: &[Loss]) -> Result<Vec<Event>, Trouble> {
    let mut events = Vec::new(alloc);
    match add_events(&mut events, alloc, base, losses) {
        Ok(()) => Ok(events),
        Err(trouble) => {
            drop(events);
            Err(trouble)
        }
    }
}

// Appends them to what is there.
fn add_events(
    events: &mut Vec<Event>,
    alloc: Global,
    base: &Base,
    losses: &[Loss],
) -> Result<(), Trouble> {
    for (place, &each) in base.moves.iter().enumerate() {
        lose_at(events, alloc, losses, place)?;
        events.push(event(alloc, each)?)?;
    }
    lose_at(events, alloc, losses, base.moves.len())
}

// Adds the losses at this index.
fn lose_at(
    events: &mut Vec<Event>,
    alloc: Global,
    losses: &[Loss],
    place: usize,
) -> Result<(), Trouble> {
    for &(at, loss) in losses {
        if at == place {
            events.push(event(alloc, loss)?)?;
        }
    }
    Ok(())
}

fn event(alloc: Global, each: Move) -> Result<Event, Trouble> {
    match each {
        Move::Begin => creates(alloc, "/q/n-", Kind::sequential(Lifetime::Persistent)),
        Move::Retry => Ok(Event::Retry(client()?)),
        Move::Take(from, to) => Ok(Event::Take(process(from)?, process(to)?)),
        Move::Fail(number) => Ok(Event::Fail(server(number)?)),
        Move::Join(number) => Ok(Event::join(server(number)?)),
        Move::Retire(number) => Ok(Event::retire(server(number)?)),
    }
}

// Returns whether a server of the initial chain surely survives: each of them has the state.
fn lives(base: &Base, losses: &[Loss]) -> bool {
    (1..=base.last).any(|number| !may_be_lost(base, losses, number))
}

fn may_be_lost(base: &Base, losses: &[Loss], number: u8) -> bool {
    losses.iter().any(|loss| is_loss(&loss.1, number))
        || base.moves.iter().any(|each| is_loss(each, number))
}

fn is_loss(each: &Move, number: u8) -> bool {
    match each {
        Move::Fail(server) | Move::Retire(server) => *server == number,
        _ => false,
    }
}
