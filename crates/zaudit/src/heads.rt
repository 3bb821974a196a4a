//! The next events of all traces, in a heap with the earliest on top.

ghost use Rattle.std.specs.Prelude.{◌≡◌, ◌<◌, ◌+◌, ◌^◌, [], None, length, get_or, IfOk, IfNone, IfSome, OnOk};
ghost use Rattle.std.specs.BinaryHeap.{heap_items, IsHeap, KeepsHeap};
ghost use Rattle.zprotocol.specs.traces.support.Places.{place_count, IsLeast};
ghost use Rattle.zaudit.specs.support.Heads.{head_cmp, HoldsAll, PutsHead, TakesFirst, TakesNext};

use crate::places::{count_of, event_at, head_of};
use std::alloc::Global;
use std::cmp::Reverse;
use std::collections::BinaryHeap;
use zalloc::Memory;
use zprotocol::traces::{TraceEvent, Traces};

/// The next event of a trace: its timestamp, and the trace's index. A heap of them has the least on
/// top.
pub(crate) type Head = Reverse<(u64, usize)>;

/// Adds the next event of that trace, if it has one.
pub(crate) fn put_head(
    heads: &mut BinaryHeap<Head>,
    traces: &Traces,
    read: &[usize],
    place: usize,
) -> Result<(), Memory>
    requires place { place < place_count traces.now }
    requires read { length read.now ≡ place_count traces.now }
    ensures heap { OnOk result (KeepsHeap head_cmp (heap_items heads.old) (heap_items heads.new)) }
    ensures put { OnOk result (PutsHead traces.now read.now place heads.old heads.new) }
{
    if let Some(stamp) = head_of(traces, read, place) {
        heads.push(Reverse((stamp, place)))?;
    }
    Ok(())
}

/// Returns the next events of all traces.
pub(crate) fn heads_of(
    alloc: Global,
    traces: &Traces,
    read: &[usize],
) -> Result<BinaryHeap<Head>, Memory>
    requires { length read.now ≡ place_count traces.now }
    ensures heap { IfOk result (λ heads. IsHeap head_cmp (heap_items heads)) }
    ensures all { IfOk result (λ heads. HoldsAll traces.now read.now heads) }
{
    let mut heads = BinaryHeap::new(alloc);
    for place in 0..count_of(traces) {
        put_head(&mut heads, traces, read, place)?;
    }
    Ok(heads)
}

// Removes the earliest and returns its timestamp and index.
fn take_first(heads: &mut BinaryHeap<Head>) -> Option<(u64, usize)>
    requires { IsHeap head_cmp (heap_items heads.old) }
    ensures heap { IsHeap head_cmp (heap_items heads.new) }
    ensures first { IfSome result (λ first. TakesFirst first heads.old heads.new) }
    ensures none { IfNone result (heap_items heads.old ≡ []) }
{
    match heads.pop() {
        Some(Reverse(first)) => Some(first),
        None => None,
    }
}

/// Removes the trace whose next event is the earliest. Returns its index with that event.
pub(crate) fn next_event<'a>(
    heads: &mut BinaryHeap<Head>,
    traces: &'a Traces,
    read: &[usize],
) -> Option<(usize, &'a TraceEvent)>
    requires read { length read.now ≡ place_count traces.now }
    requires heap { IsHeap head_cmp (heap_items heads.old) }
    requires heads { HoldsAll traces.now read.now heads.old }
    ensures heap { IsHeap head_cmp (heap_items heads.new) }
    ensures next { IfSome result
        (λ next. TakesNext traces.now read.now next.0 next.1.now heads.old heads.new) }
    ensures small { IfSome result (λ next. get_or read.now next.0 0 + 1 < 2 ^ 64) }
    ensures none { IfNone result (IsLeast traces.now read.now (place_count traces.now) None) }
{
    let Some((_, place)) = take_first(heads) else {
        return None;
    };
    Some((place, event_at(traces, read, place)))
}
