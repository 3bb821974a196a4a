//! The index from paths to Ids.
//!
//! # Why
//! A `HashMap` from path to Id: a `BTreeMap` would compare a dozen paths or more at each lookup. A
//! hash map also knows how many entries fit, so a removed entry comes back without allocating. Row
//! and index share one path.
//!
//! The hash has no random seed, so a program runs the same twice. A client that chooses names can
//! make them collide; a lookup then compares at most as many paths as there are nodes.

ghost use Rattle.std.specs.Prelude.{◌≡◌, ◌+◌, ◌<◌, ◌≤◌, nat_eq, is_some, IfOk, IfSome, OnOk, IsOk};
ghost use Rattle.std.specs.Cmp.Lexicographic.{pointwise};
ghost use Rattle.std.specs.FinMap as finite;
ghost use Rattle.std.specs.List.{IsDistinct};
ghost use Rattle.std.specs.Map.{keys_of};

use std::alloc::Global;
use std::collections::HashMap;
use std::marker::Model;
use zalloc::Memory;
use zpath::Path;
use zslots::Id;

/// The Ids by path.
#[derive(Drop)]
pub struct Index {
    ids: HashMap<Path, Id>,
}

impl Model for Index {
    ghost use Rattle.znodes.specs.index.IndexView.{IndexView, coded_view};

    ghost Value = { IndexView };

    ghost coded = { coded_view };

    ghost use Rattle.znodes.specs.index.Fields.{view_of};

    ghost view = { view_of };
}

impl Index {
    /// Returns an empty index. Allocates nothing.
    pub fn new(alloc: Global) -> Index
        ensures { result.ids ≡ finite.empty }
    {
        Index {
            ids: HashMap::new(alloc),
        }
    }

    /// Returns the Id at a path, if there is one.
    pub fn get(&self, path: &Path) -> Option<Id>
        ensures { result ≡ finite.get self.now.ids path.now }
    {
        self.ids.get(path).copied()
    }

    /// Returns the number of paths.
    pub fn len(&self) -> usize
        ensures { result ≡ finite.len self.now.ids }
    {
        self.ids.len()
    }

    /// Reserves room, so that the next `more` inserts don't allocate.
    pub fn reserve(&mut self, more: usize) -> Result<(), Memory>
        ensures same { self.new.ids ≡ self.old.ids }
        ensures room { OnOk result (more ≤ self.new.room) }
        ensures grows { self.old.room ≤ self.new.room }
        // It fails only without room.
        ensures succeeds { more ≤ self.old.room → IsOk result }
    {
        self.ids.reserve(more)?;
        Ok(())
    }

    /// Sets the Id at a path, and replaces one that was there. Allocates nothing.
    pub fn insert(&mut self, path: Path, id: Id)
        requires room { 0 < self.old.room }
        ensures ids { self.new.ids ≡ finite.insert self.old.ids path id }
        ensures room { self.old.room ≤ self.new.room + 1 }
    {
        match self.ids.insert(path, id) {
            Ok(_) => {}
            Err(_) => unreachable!(),
        }
    }

    /// Removes the Id at a path, and returns the path that was its key. With that key `insert` can
    /// put it back without allocating.
    pub fn remove(&mut self, path: &Path) -> Option<Path>
        ensures key { IfSome result (λ key. key ≡ path.now) }
        ensures there { is_some result ≡ finite.contains_key self.old.ids path.now }
        ensures ids { self.new.ids ≡ finite.remove self.old.ids path.now }
        ensures room { self.old.room ≤ self.new.room }
    {
        let (key, _) = self.ids.remove_entry(path)?;
        Some(key)
    }

    /// Returns the paths in their order, or `Memory`.
    pub fn paths(&self, alloc: Global) -> Result<Vec<Path>, Memory>
        ensures { IfOk result (λ paths. paths.items ≡ finite.keys self.now.ids) }
    {
        let mut paths = keys_of_all(alloc, &self.ids)?;
        paths.sort_unstable();
        Ok(paths)
    }

    /// Returns a copy of the index, or `Memory`.
    pub fn copy(&self) -> Result<Index, Memory>
        ensures { IfOk result (λ copy. copy.ids ≡ self.now.ids) }
    {
        let ids = self.ids.clone()?;
        Ok(Index { ids })
    }
}

// Returns the paths in the order of the map, each once; or `Memory`.
fn keys_of_all(alloc: Global, ids: &HashMap<Path, Id>) -> Result<Vec<Path>, Memory>
    ensures all { IfOk result (λ paths. paths.items ≡ keys_of ids.now.entries) }
    ensures apart { IfOk result (λ paths. IsDistinct (pointwise (pointwise nat_eq)) paths.items) }
{
    let mut paths = Vec::with_capacity(alloc, ids.len())?;
    for (path, _) in ids {
        paths.push(path.clone()?)?;
    }
    Ok(paths)
}
