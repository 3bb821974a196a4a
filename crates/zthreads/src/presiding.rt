//! The loop of the master's thread.
//!
//! # Why
//!
//! The thread has at most one order that it received and hasn't followed. So the orders in its
//! trace are those that it received, except at most the last one. It returns its end of the
//! console's channel, so that at the join both ends are in one thread.

ghost use Rattle.std.specs.Prelude.{◌≡◌, ◌≤◌, ◌++◌, [], length, List, map, None, Option};
ghost use Rattle.std.specs.Prelude.{option_to_list};
ghost use Rattle.zchannels.specs.HaltSeats.{IsSeatOf};
ghost use Rattle.zchannels.specs.Console.{IsSameInbox, said, taken_of};
ghost use Rattle.zchannels.specs.Outcomes.{AreSaid, order_of};
ghost use Rattle.zprotocol.specs.declared.master.order.Order.{Order};
ghost use Rattle.zchannels.specs.declared.outcome.OrderOutcome.{OrderOutcome};
ghost use Rattle.zthreads.specs.Endpoints.{SameEndpoint};
ghost use Rattle.zthreads.specs.Acts.{HasFollowed};
ghost use Rattle.zthreads.specs.Outcomes.{unfollowed, unsaid};
ghost use Rattle.zthreads.specs.Said.{spoken, WereSaid};
ghost use Rattle.zthreads.specs.Owned.{master_endpoint};

use crate::gate::Open;
use crate::idle::Idle;
use crate::master_thread::MasterThread;
use crate::owed::Owed;
use crate::rounds::go_round;
use std::sync::Wait;
use zchannels::console::Inbox;
use zchannels::halts::{Halt, HaltSeat};
use zprotocol::Order;

/// Goes over the links, round after round, and receives the console's orders, until bit 0 is set.
/// It sends what waits, and looks at the bit, once a round and before each message. A link without
/// a message costs one look. It follows the orders in sequence, each once, and returns the outcome
/// of each. Where memory was missing, it tries again before it receives another order.
pub fn preside<R: Wait>(
    rt: &R,
    mut chief: MasterThread,
    mut inbox: Inbox,
    halt: &Halt,
    mut seat: HaltSeat,
) -> (MasterThread, Inbox)
    requires own { IsSeatOf halt.now seat }
    ensures endpoint { SameEndpoint (master_endpoint chief) (master_endpoint result.0) }
    ensures inbox { IsSameInbox inbox result.1 }
    ensures orders { HasFollowed (master_endpoint chief) (taken_of inbox) None
        → (waiting : Option Order)
        × HasFollowed (master_endpoint result.0) (taken_of result.1) waiting }
    ensures outcomes { AreSaid inbox []
        → (unsaid : List Order) × (length unsaid ≤ 1) × AreSaid result.1 unsaid }
    ensures said { HasFollowed (master_endpoint chief) (taken_of inbox) None → AreSaid inbox []
        → WereSaid (master_endpoint chief) [] (said inbox)
        → WereSaid (master_endpoint result.0) [] (said result.1) }
{
    let mut idle = Idle::new();
    let mut owed = Owed::Nothing;
    for _ in rt.forever() {
        idle.begin_round(&chief.host);
        let Some(has_heard) = go_round(&mut chief.host, &mut Open, halt, &mut seat, None) else {
            return (chief, inbox);
        };
        inbox.flush();
        owed = next_order(rt, &mut inbox, owed);
        let has_owed = owed.is_some();
        owed = obey(&mut chief, owed);
        owed = say(&mut inbox, owed);
        let is_busy = has_heard | (has_owed & !owed.is_some());
        idle.end_round(rt, &chief.host, is_busy);
    }
    unreachable!()
}

// Receives an order, unless the last one isn't followed or its outcome isn't sent.
fn next_order<R: Wait>(rt: &R, inbox: &mut Inbox, owed: Owed) -> Owed
    ensures ends { IsSameInbox inbox.old inbox.new }
    ensures taken { (before : List Order)
        → taken_of inbox.old ≡ before ++ option_to_list (unfollowed owed)
        → taken_of inbox.new ≡ before ++ option_to_list (unfollowed result) }
    ensures said { AreSaid inbox.old (unsaid owed) → AreSaid inbox.new (unsaid result) }
    ensures words { spoken (said inbox.new) result ≡ spoken (said inbox.old) owed }
{
    match owed {
        Owed::Nothing => match inbox.take(rt) {
            Some(order) => Owed::Deed(order),
            None => Owed::Nothing,
        },
        _ => owed,
    }
}

// Follows the order that waits. Out of memory, it still waits.
fn obey(chief: &mut MasterThread, owed: Owed) -> Owed
    ensures same { SameEndpoint (master_endpoint chief.old) (master_endpoint chief.new) }
    ensures followed { (received : List Order)
        → HasFollowed (master_endpoint chief.old) received (unfollowed owed)
        → HasFollowed (master_endpoint chief.new) received (unfollowed result) }
    ensures unsaid { unsaid result ≡ unsaid owed }
    ensures said { (before : List OrderOutcome)
        → HasFollowed (master_endpoint chief.old) (map order_of before ++ unsaid owed) (unfollowed owed)
        → WereSaid (master_endpoint chief.old) [] (spoken before owed)
        → WereSaid (master_endpoint chief.new) [] (spoken before result) }
{
    let Owed::Deed(order) = owed else {
        return owed;
    };
    match chief.follow(&order) {
        Some(outcome) => Owed::Word(outcome),
        None => Owed::Deed(order),
    }
}

// Sends the outcome that waits. Out of memory, it still waits.
fn say(inbox: &mut Inbox, owed: Owed) -> Owed
    ensures ends { IsSameInbox inbox.old inbox.new }
    ensures taken { taken_of inbox.new ≡ taken_of inbox.old }
    ensures followed { unfollowed result ≡ unfollowed owed }
    ensures said { AreSaid inbox.old (unsaid owed) → AreSaid inbox.new (unsaid result) }
    ensures words { spoken (said inbox.new) result ≡ spoken (said inbox.old) owed }
{
    let Owed::Word(outcome) = owed else {
        return owed;
    };
    match inbox.say(outcome) {
        Ok(()) => Owed::Nothing,
        Err(outcome) => Owed::Word(outcome),
    }
}
