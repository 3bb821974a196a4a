//! Worked runs of settling and of resolved events.
//!
//! # Why
//!
//! Settling is a function to the events that it does, with the world after them. That this is the
//! run of those events is a law. A program learns the outcomes as it settles, and another law
//! covers that.

ghost use Rattle.std.specs.Prelude.{◌≡◌, true, false, [], ◌∷◌, Some, take};
ghost use Rattle.zprotocol.specs.declared.master.order_fault.OrderFault.TheVariants.{Lost};
ghost use Rattle.zprotocol.specs.declared.master.order.Order.TheVariants as order;
ghost use Rattle.zprotocol.specs.master.Table.{order_fault};
ghost use Rattle.zprotocol.specs.declared.world.event.Event.TheVariants.{Begin, Retry, Take, Ignore, Fail};
ghost use Rattle.zprotocol.specs.declared.world.history.CallEvent.TheVariants as saw;
ghost use Rattle.zprotocol.specs.declared.world.settled.Settled.TheVariants.{Quiet, Limit};
ghost use Rattle.zprotocol.specs.world.support.Counter.{counting_machine, create, exists};
ghost use Rattle.zprotocol.specs.declared.world.outcome.Outcome.TheVariants.{Acted, Stopped, Unheard};
ghost use Rattle.zprotocol.specs.world.Reading.{is_fitting};
ghost use Rattle.zprotocol.specs.world.Settle.{settling_end};
ghost use Rattle.zprotocol.specs.world.support.RunRows.{after, m, s1, s2, c1, began, reported};
ghost use Rattle.zprotocol.specs.world.support.SettleRows.{settled_after, read_after, two_begin, two_settle};
ghost use Rattle.zprotocol.specs.world.support.SettleRows.{StayThemselves, asked_again, lost_query};
ghost use Rattle.zprotocol.specs.world.support.SettleRows.{news_and_retry, new_head_reported};
ghost use Rattle.zprotocol.specs.world.support.SettleRows.{lost_request, lost_state, new_head, query_at_old_tail};
ghost use Rattle.zprotocol.specs.world.support.RunRows.{one_create, create_begun, create_taken, create_answered};
ghost use Rattle.zprotocol.specs.world.support.RunRows.{exists_begun, exists_taken};
ghost use Rattle.zprotocol.specs.world.support.SettleRows.{settled_history, settled_events, fits_after};

/// The order of the deliveries: channel by channel, one message from each that has one when the
/// pass reaches it, pass after pass.
pub fn settling_goes_link_by_link()
    ensures events { settled_events 3 two_begin [] ≡ two_settle }
    ensures quiet { settling_end (settled_after 3 two_begin 100 []) ≡ Quiet }
    ensures seen { settled_history 3 two_begin ≡
        began 0 1 ∷ began 1 1 ∷ reported 0 1 0 ∷ reported 1 1 1 ∷ [] }
{}

/// The limit ends settling as soon as that many events were done, even where nothing would have
/// been left.
pub fn settling_has_a_limit()
    ensures none { (settled_after 3 two_begin 0 []).events ≡ [] }
    ensures none_is_limit { settling_end (settled_after 3 [] 0 []) ≡ Limit }
    ensures some { (settled_after 3 two_begin 3 []).events ≡ take 3 two_settle }
    ensures exact { settling_end (settled_after 3 two_begin 12 []) ≡ Limit }
    ensures one_more { settling_end (settled_after 3 two_begin 13 []) ≡ Quiet }
{}

/// When no message is left, each outstanding call is sent once more, and that is an event too.
pub fn settling_retries_once()
    ensures retried { settled_events 1 lost_request [] ≡ asked_again }
    ensures counted { settling_end (settled_after 1 lost_request 3 []) ≡ Limit }
    ensures answered { settled_history 1 lost_request ≡ one_create }
{}

/// Where the state is lost, settling still ends `Quiet`, the call stays unanswered, and no server
/// can join.
pub fn settling_ends_where_the_state_is_lost()
    ensures quiet { settling_end (settled_after 1 lost_state 100 []) ≡ Quiet }
    ensures unanswered { settled_history 1 lost_state ≡ saw.Begin 1 1 exists ∷ [] }
    ensures refused { order_fault (settled_after 1 lost_state 100 []).world.master (order.Join 3)
        ≡ Some Lost }
{}

/// Resolved events: a delivery at which a server ran out of memory is its failure, and an unheard
/// query is lost. Everything else resolves to itself, and no server stops at a query.
pub fn events_are_read()
    ensures stopped { read_after 1 create_taken (Acted ∷ Stopped ∷ [])
        ≡ Begin 1 create ∷ Fail 1 ∷ [] }
    ensures unheard { read_after 1 exists_taken (Acted ∷ Unheard ∷ []) ≡ lost_query }
    ensures update_is_heard { StayThemselves 1 create_taken (Acted ∷ Unheard ∷ []) }
    ensures query_stops_nobody { StayThemselves 1 exists_taken (Acted ∷ Stopped ∷ []) }
    ensures nothing_to_stop_at { StayThemselves 1 (Take c1 s1 ∷ []) (Stopped ∷ []) }
    ensures client_does_not_stop { StayThemselves 1 create_answered
        (Stopped ∷ Acted ∷ Stopped ∷ []) }
    ensures new_head_goes_on { StayThemselves 2 new_head_reported (Acted ∷ Acted ∷ Stopped ∷ []) }
{}

/// Which outcomes fit: a server can stop at a message that makes it grow, unless it is a query.
/// Only a query can be unheard, at a tail, where it can be delivered.
pub fn outcomes_fit()
    ensures all_act { is_fitting counting_machine (after 1 []) (Take c1 s1) Acted ≡ true }
    ensures update_stops { fits_after 1 create_begun (Take c1 s1) Stopped ≡ true }
    ensures update_is_heard { fits_after 1 create_begun (Take c1 s1) Unheard ≡ false }
    ensures query_stops_nobody { fits_after 1 exists_begun (Take c1 s1) Stopped ≡ false }
    ensures query_is_unheard { fits_after 1 exists_begun (Take c1 s1) Unheard ≡ true }
    ensures nothing_to_stop_at { is_fitting counting_machine (after 1 []) (Take c1 s1) Stopped
        ≡ false }
    ensures retry_does_not_stop { fits_after 1 create_begun (Retry 1) Stopped ≡ false }
    ensures new_head_goes_on { fits_after 2 new_head (Take m s2) Stopped ≡ false }
    ensures query_elsewhere_is_heard { fits_after 1 query_at_old_tail (Take c1 s1) Unheard ≡ false }
{}

/// Settling where memory runs out: a server that stops doesn't receive its message, and an unheard
/// query is sent again.
pub fn settling_is_read()
    ensures stopped { settled_events 1 create_begun (Stopped ∷ []) ≡ Fail 1 ∷ news_and_retry }
    ensures unheard { settled_events 1 exists_begun (Unheard ∷ []) ≡ Ignore c1 s1 ∷ asked_again }
{}
