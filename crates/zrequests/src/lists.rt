//! Lists in requests: the parts of a multi, those of a multiRead, the paths of watches.
//!
//! # Why
//!
//! Which part of a multi is refused first depends on the tree, also where one has a bad path or ACL.
//! In the place of such a part comes one that the tree refuses. So the tree says which part it is,
//! and `zresponses` reports that part's own code.

ghost use Rattle.std.specs.Prelude.{◌≡◌, length, nat_lt, Ok, IfOk, IfErr, OnOk};
ghost use Rattle.zrequests.specs.Asking.{IsUnasked, each_in, each_behind};
ghost use Rattle.zrequests.specs.Requests.{never_done, parts_in, look_in, watch_in, watched_in, watches_in};
ghost use Rattle.zrequests.specs.Requests.{all_watched_in, all_watches_in};

use crate::fault::Unasked;
use crate::limits::MAX_PATHS;
use crate::nodes::part_of;
use crate::terms::Terms;
use crate::words::{path_in_bytes, path_of};
use std::alloc::Global;
use zalloc::Memory;
use zcalls::{Call, Delete, Expected, Part, Query, SessionId};
use zjute::{Bytes, Code, LookPart, SetWatches, SetWatches2};
use zpath::Path;

/// Reads the parts of a multi, from the left. In the place of one that is refused at once comes one
/// that is never done, and none after it.
pub(crate) fn parts_of(
    alloc: Global,
    terms: Terms,
    session: SessionId,
    parts: &[zjute::PartRequest],
) -> Result<Vec<Part>, Memory>
    ensures { IfOk result (λ read. read.items ≡ parts_in terms session parts.now) }
{
    let mut read = Vec::new(alloc);
    for part in parts {
        match part_of(alloc, terms, session, part) {
            Ok(part) => read.push(part)?,
            Err(Unasked::Refused(_)) => {
                read.push(never_done())?;
                return Ok(read);
            }
            Err(Unasked::Memory) => return Err(Memory),
        }
    }
    Ok(read)
}

// Returns a part that every tree refuses.
fn never_done() -> Part
    ensures { result ≡ never_done }
{
    Part::Delete(Delete {
        path: Path::root(),
        version: Expected::Any,
    })
}

/// Reads the parts of a multiRead, from the left.
pub(crate) fn looks_of(alloc: Global, looks: &[LookPart]) -> Result<Vec<Call>, Unasked>
    ensures found { IfOk result (λ calls. each_in look_in looks.now ≡ Ok calls.items) }
    ensures fault { IfErr result (IsUnasked (each_in look_in looks.now)) }
{
    let mut calls = Vec::new(alloc);
    for look in looks {
        calls.push(look_of(alloc, look)?)?;
    }
    Ok(calls)
}

// Reads a part of a multiRead.
fn look_of(alloc: Global, look: &LookPart) -> Result<Call, Unasked>
    ensures found { IfOk result (λ call. look_in look.now ≡ Ok call) }
    ensures fault { IfErr result (IsUnasked (look_in look.now)) }
{
    match look {
        LookPart::GetData(asked) => {
            let path = path_of(alloc, &asked.path)?;
            Ok(Call::Query(Query::GetData(path)))
        }
        LookPart::GetChildren(asked) => {
            let path = path_of(alloc, &asked.path)?;
            Ok(Call::Query(Query::GetChildren(path)))
        }
    }
}

/// Reads the paths of re-registered watches, from the left.
pub(crate) fn watches_of(alloc: Global, set: &SetWatches) -> Result<Vec<Call>, Unasked>
    ensures found { IfOk result (λ calls. watches_in set.now ≡ Ok calls.items) }
    ensures fault { IfErr result (IsUnasked (watches_in set.now)) }
{
    if has_many(set) {
        return Err(Unasked::Refused(Code::BadArguments));
    }
    all_watches(alloc, set)
}

// Returns whether there are too many paths.
fn has_many(set: &SetWatches) -> bool
    ensures { result ≡ nat_lt MAX_PATHS (length (watched_in set.now)) }
{
    let watched = set.data_watches.as_slice().len();
    let missing = set.exist_watches.as_slice().len();
    let parents = set.child_watches.as_slice().len();
    watched + missing + parents > MAX_PATHS
}

/// Reads the paths of re-registered watches, with persistent and recursive ones, from the left.
pub(crate) fn all_watches_of(alloc: Global, set: &SetWatches2) -> Result<Vec<Call>, Unasked>
    ensures found { IfOk result (λ calls. all_watches_in set.now ≡ Ok calls.items) }
    ensures fault { IfErr result (IsUnasked (all_watches_in set.now)) }
{
    if has_too_many(set) {
        return Err(Unasked::Refused(Code::BadArguments));
    }
    each_watch(alloc, set)
}

// Returns whether there are too many paths in all five lists.
fn has_too_many(set: &SetWatches2) -> bool
    ensures { result ≡ nat_lt MAX_PATHS (length (all_watched_in set.now)) }
{
    let watched = set.watches.data_watches.as_slice().len();
    let missing = set.watches.exist_watches.as_slice().len();
    let parents = set.watches.child_watches.as_slice().len();
    let persistent = set.persistent_watches.as_slice().len();
    let recursive = set.recursive_watches.as_slice().len();
    watched + missing + parents + persistent + recursive > MAX_PATHS
}

// Reads all paths of the five lists.
fn each_watch(alloc: Global, set: &SetWatches2) -> Result<Vec<Call>, Unasked>
    ensures found { IfOk result
        (λ calls. each_in watch_in (all_watched_in set.now) ≡ Ok calls.items) }
    ensures fault { IfErr result (IsUnasked (each_in watch_in (all_watched_in set.now))) }
{
    let mut calls = all_watches(alloc, &set.watches)?;
    add_watches(alloc, set.persistent_watches.as_slice(), &mut calls)?;
    add_watches(alloc, set.recursive_watches.as_slice(), &mut calls)?;
    Ok(calls)
}

// Reads all paths of the watches.
fn all_watches(alloc: Global, set: &SetWatches) -> Result<Vec<Call>, Unasked>
    ensures found { IfOk result
        (λ calls. each_in watch_in (watched_in set.now) ≡ Ok calls.items) }
    ensures fault { IfErr result (IsUnasked (each_in watch_in (watched_in set.now))) }
{
    let mut calls = Vec::new(alloc);
    add_watches(alloc, set.data_watches.as_slice(), &mut calls)?;
    add_watches(alloc, set.exist_watches.as_slice(), &mut calls)?;
    add_watches(alloc, set.child_watches.as_slice(), &mut calls)?;
    Ok(calls)
}

// Reads the paths of some watches, and adds their calls.
fn add_watches(alloc: Global, paths: &[Bytes], calls: &mut Vec<Call>) -> Result<(), Unasked>
    ensures found { OnOk result
        (each_behind calls.old.items watch_in paths.now ≡ Ok calls.new.items) }
    ensures fault { IfErr result (IsUnasked (each_behind calls.old.items watch_in paths.now)) }
{
    for path in paths {
        let path = path_in_bytes(alloc, path.as_slice())?;
        calls.push(Call::Query(Query::Exists(path)))?;
    }
    Ok(())
}
