//! Watches that a client re-registers after it reconnects.

ghost use Rattle.std.specs.Prelude.{◌≡◌, ◌++◌, length, take, drop, OnOk};
ghost use Rattle.zrequests.specs.Requests.{watched_in};
ghost use Rattle.zresponses.specs.effects.Wishes as table;
ghost use Rattle.zresponses.specs.effects.Wishes.{all_again, call_again, each_again};

use crate::effects::wish::Wish;
use crate::effects::wishes::{add_all_added, reports, waits};
use crate::numbers::long_of;
use zalloc::Memory;
use zcalls::{Call, Query, Refusal, Reply};
use zjute::{AddMode, SetWatches, SetWatches2};
use zpath::Path;
use zwatches::Kind;
use zwatches::changes::EventKind;

/// Adds the re-registered watches: data watches, those for a creation, and child watches.
pub(crate) fn add_all_again(
    set: &SetWatches,
    calls: &[Call],
    replies: &[Reply],
    list: &mut Vec<Wish>,
) -> Result<(), Memory>
    ensures { OnOk result
        (list.new.items ≡ list.old.items ++ all_again set.now calls.now replies.now) }
{
    let seen = &set.relative_zxid;
    let data_count = set.data_watches.as_slice().len();
    let missing_count = set.exist_watches.as_slice().len();
    let (of_data, calls) = split(calls, data_count);
    let (to_data, replies) = split(replies, data_count);
    let (of_missing, of_children) = split(calls, missing_count);
    let (to_missing, to_children) = split(replies, missing_count);
    wishes_again(Kind::Data, seen, of_data, to_data, list)?;
    wishes_again(Kind::Missing, seen, of_missing, to_missing, list)?;
    wishes_again(Kind::Children, seen, of_children, to_children, list)
}

/// Adds the re-registered watches of `SetWatches2`: those of its first three lists, then persistent
/// ones, then recursive ones.
#[tactic(auto, using(std::proofs::Common::append_assoc))]
pub(crate) fn add_each_again(
    set: &SetWatches2,
    calls: &[Call],
    replies: &[Reply],
    list: &mut Vec<Wish>,
) -> Result<(), Memory>
    ensures { OnOk result
        (list.new.items ≡ list.old.items ++ each_again set.now calls.now replies.now) }
{
    let (first, others) = split(calls, count_of(&set.watches));
    let (to_first, _) = split(replies, count_of(&set.watches));
    let (persistent, recursive) = split(others, set.persistent_watches.as_slice().len());
    add_all_again(&set.watches, first, to_first, list)?;
    add_all_added(AddMode::Persistent, persistent, list)?;
    add_all_added(AddMode::Recursive, recursive, list)
}

// Returns the number of paths in the first three lists.
fn count_of(set: &SetWatches) -> usize
    ensures { result ≡ length (watched_in set.now) }
{
    let of_data = set.data_watches.as_slice().len();
    let of_missing = set.exist_watches.as_slice().len();
    of_data + of_missing + set.child_watches.as_slice().len()
}

// Splits a list after the first `count` elements.
#[tactic(auto, using(std::proofs::lemmas::List::take_min, std::proofs::lemmas::List::drop_min))]
fn split<T>(items: &[T], count: usize) -> (&[T], &[T])
    ensures first { result.0.now ≡ take count items.now }
    ensures rest { result.1.now ≡ drop count items.now }
{
    items.split_at(count.min(items.len()))
}

// Adds the watches of one kind, from their calls and the replies to them.
fn wishes_again(
    kind: Kind,
    seen: &i64,
    calls: &[Call],
    replies: &[Reply],
    list: &mut Vec<Wish>,
) -> Result<(), Memory>
    ensures { OnOk result (list.new.items
        ≡ list.old.items ++ table.wishes_again kind seen.now calls.now replies.now) }
{
    for place in 0..calls.len().min(replies.len()) {
        add_again(kind, seen, &calls[place], &replies[place], list)?;
    }
    Ok(())
}

// Adds a watch, from its call and the reply to it.
fn add_again(
    kind: Kind,
    seen: &i64,
    call: &Call,
    reply: &Reply,
    list: &mut Vec<Wish>,
) -> Result<(), Memory>
    ensures { OnOk result
        (list.new.items ≡ list.old.items ++ call_again kind seen.now call.now reply.now) }
{
    match call {
        Call::Query(Query::Exists(path)) => wish_again(kind, seen, path, reply, list),
        _ => Ok(()),
    }
}

// Adds a watch of a node, from the node's stat.
fn wish_again(
    kind: Kind,
    seen: &i64,
    path: &Path,
    reply: &Reply,
    list: &mut Vec<Wish>,
) -> Result<(), Memory>
    ensures { OnOk result
        (list.new.items ≡ list.old.items ++ table.wish_again kind seen.now path.now reply.now) }
{
    match (kind, reply) {
        (Kind::Data, Reply::Exists(stat)) => {
            if *seen < long_of(stat.mzxid.number()) {
                reports(EventKind::NodeDataChanged, path, list)
            } else {
                waits(kind, path, list)
            }
        }
        (Kind::Children, Reply::Exists(stat)) => {
            if *seen < long_of(stat.pzxid.number()) {
                reports(EventKind::NodeChildrenChanged, path, list)
            } else {
                waits(kind, path, list)
            }
        }
        (Kind::Missing, Reply::Exists(_)) => reports(EventKind::NodeCreated, path, list),
        (Kind::Missing, Reply::Refused(Refusal::NoNode)) => waits(kind, path, list),
        (Kind::Data | Kind::Children, Reply::Refused(Refusal::NoNode)) => reports(
            EventKind::NodeDeleted,
            path,
            list,
        ),
        _ => Ok(()),
    }
}
