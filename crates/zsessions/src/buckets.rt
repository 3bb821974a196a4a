//! The buckets: each row is in the list of its deadline modulo 32.

ghost use Rattle.std.specs.Prelude.{◌≡◌, ◌<◌};
ghost use Rattle.std.specs.FinMap as finite;
ghost use Rattle.zslots.specs.SlotsView.{with_items};
ghost use Rattle.zslots.specs.Lists.{length_of};
ghost use Rattle.zsessions.specs.support.Rows.{bucket, bucket_number, session_at, filed_items, filed_buckets, unfiled_items, unfiled_buckets, with_deadline_at, moved_items, moved_buckets, CanMove};

use crate::limits::BUCKETS;
use crate::row::SessionRow;
use zslots::{Id, List, Slots};
use ztree::Session;

/// Puts a row that is in no bucket into the bucket of a deadline.
pub(crate) fn file(rows: &mut Slots<SessionRow>, buckets: &mut [List<0>; BUCKETS], due: u64, id: Id)
    requires { length_of (bucket buckets.old (bucket_number due)) < finite.len rows.old.items }
    ensures items { rows.new ≡ with_items rows.old
        (filed_items rows.old.items buckets.old due id) }
    ensures buckets { buckets.new ≡ filed_buckets buckets.old due id }
{
    // The bucket has fewer rows than the table, so it can grow.
    rows.keeps_countable();
    let at = place(due);
    let mut list = buckets[at];
    list.push_front(rows, id);
    buckets[at] = list;
}

/// Removes a row from the bucket of its deadline.
pub(crate) fn unfile(
    rows: &mut Slots<SessionRow>,
    buckets: &mut [List<0>; BUCKETS],
    due: u64,
    id: Id,
)
    requires { 0 < length_of (bucket buckets.old (bucket_number due)) }
    ensures items { rows.new ≡ with_items rows.old (unfiled_items rows.old.items id) }
    ensures buckets { buckets.new ≡ unfiled_buckets rows.old.items buckets.old due id }
{
    let at = place(due);
    let mut list = buckets[at];
    list.unlink(rows, id);
    buckets[at] = list;
}

/// Changes a row's deadline, and moves the row to the bucket of that deadline.
pub(crate) fn refile(
    rows: &mut Slots<SessionRow>,
    buckets: &mut [List<0>; BUCKETS],
    from: u64,
    to: u64,
    id: Id,
)
    requires { CanMove rows.old.items buckets.old from to id }
    ensures items { rows.new
        ≡ with_items rows.old (moved_items rows.old.items buckets.old from to id) }
    ensures buckets { buckets.new ≡ moved_buckets rows.old.items buckets.old from to id }
{
    unfile(rows, buckets, from, id);
    set_deadline(rows, id, to);
    file(rows, buckets, to, id);
}

// Writes a row's deadline without moving the row.
fn set_deadline(rows: &mut Slots<SessionRow>, id: Id, deadline: u64)
    ensures { rows.new ≡ with_items rows.old (with_deadline_at rows.old.items id deadline) }
{
    if let Some(row) = rows.get_mut(id) {
        row.session.deadline = deadline;
    }
}

/// Returns the session of a row, if the row exists.
pub(crate) fn session_of(rows: &Slots<SessionRow>, id: Id) -> Option<Session>
    ensures { result ≡ session_at rows.now.items id }
{
    match rows.get(id) {
        Some(row) => Some(row.session),
        None => None,
    }
}

/// Returns the index of the bucket of a deadline.
pub(crate) fn place(deadline: u64) -> usize
    ensures same { result ≡ bucket_number deadline }
    ensures within { result < BUCKETS }
{
    (deadline % BUCKETS as u64) as usize
}
