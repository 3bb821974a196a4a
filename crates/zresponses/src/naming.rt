//! What a client names in a request, as the tree has it.

ghost use Rattle.std.specs.Prelude.{◌≡◌, IfOk};
ghost use Rattle.zresponses.specs.Naming as table;
ghost use Rattle.zresponses.specs.Naming.{others, request_named, set_named};

use crate::clock::Clock;
use crate::own::is_own;
use std::alloc::Global;
use zalloc::Memory;
use zjute::{Asked, Bytes, Request, SetWatches, SetWatches2, Texts};

/// Returns a request with zxids of the tree, from one with zxids as clients are told them. Watches of
/// the service's own nodes are left out.
pub fn named(alloc: Global, clock: &Clock, request: Request) -> Result<Request, Memory>
    ensures { IfOk result (λ named. named ≡ request_named clock.now.base request) }
{
    let Request { xid, asked } = request;
    let asked = match asked {
        Asked::SetWatches(set) => Asked::SetWatches(again(alloc, clock, &set)?),
        Asked::SetWatches2(all) => Asked::SetWatches2(SetWatches2 {
            watches: again(alloc, clock, &all.watches)?,
            persistent_watches: all.persistent_watches,
            recursive_watches: all.recursive_watches,
        }),
        other => other,
    };
    Ok(Request { xid, asked })
}

// Returns re-registered watches of the tree, with a zxid of the tree.
fn again(alloc: Global, clock: &Clock, set: &SetWatches) -> Result<SetWatches, Memory>
    ensures { IfOk result (λ named. named ≡ set_named clock.now.base set.now) }
{
    Ok(SetWatches {
        relative_zxid: named_zxid(clock, set.relative_zxid),
        data_watches: others(alloc, &set.data_watches)?,
        exist_watches: others(alloc, &set.exist_watches)?,
        child_watches: others(alloc, &set.child_watches)?,
    })
}

// Returns the paths that aren't of the service's own.
fn others(alloc: Global, paths: &Texts) -> Result<Texts, Memory>
    ensures { IfOk result (λ texts. texts ≡ others paths.now) }
{
    let mut texts = Vec::new(alloc);
    for path in paths.as_slice() {
        if !is_own(path.as_slice()) {
            texts.push(Bytes::copied(alloc, path.as_slice())?)?;
        }
    }
    match Texts::new(texts) {
        Some(texts) => Ok(texts),
        // They are no more than the paths.
        None => unreachable!(),
    }
}

// Returns a zxid of the tree, from one as clients are told it.
fn named_zxid(clock: &Clock, zxid: i64) -> i64
    ensures { result ≡ table.named clock.now.base zxid }
{
    zxid.saturating_sub(clock.base.cast_signed())
}
