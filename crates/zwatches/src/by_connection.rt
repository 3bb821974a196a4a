//! The paths by connection.
//!
//! # Why
//!
//! The watches are sorted by path. To find those of a connection would take a look at each.

ghost use Rattle.std.specs.Prelude.{◌≡◌, ℕ, ◌||◌, ◌&&◌, not, OnOk, OnErr, IfSome, IfNone, false};
ghost use Rattle.std.specs.List.{list_any};
ghost use Rattle.std.specs.Ordering.{eq_by_cmp, nat_cmp};
ghost use Rattle.zpath.specs.Grammar.{path_cmp};
ghost use Rattle.zwatches.specs.Watches.{Path as Names};
ghost use Rattle.zwatches.specs.support.Nested.{has_path};

use std::alloc::Global;
use std::collections::{BTreeMap, BTreeSet};
use zalloc::Memory;
use zpath::Path;

// The paths at which each connection has a watch. Each is found by its connection.
#[derive(Drop)]
pub(crate) struct ByConnection {
    pub(crate) paths: BTreeMap<u32, BTreeSet<Path>>,
    alloc: Global,
}

impl ByConnection {
    // Returns no paths. Allocates nothing.
    pub(crate) fn new(alloc: Global) -> ByConnection
        ensures { (c : ℕ) (path : Names) → has_path result.paths.entries c path ≡ false }
    {
        ByConnection {
            paths: BTreeMap::new(alloc),
            alloc,
        }
    }

    // Adds a path of a connection. After `Memory` nothing has changed.
    pub(crate) fn add(&mut self, connection: u32, path: Path) -> Result<(), Memory>
        ensures ok { OnOk result ((c : ℕ) (q : Names) → has_path self.new.paths.entries c q
            ≡ ((eq_by_cmp nat_cmp c connection && eq_by_cmp path_cmp q path)
            || has_path self.old.paths.entries c q)) }
        ensures err { OnErr result ((c : ℕ) (q : Names) → has_path self.new.paths.entries c q
            ≡ has_path self.old.paths.entries c q) }
    {
        if let Some(paths) = self.paths.get_mut(&connection) {
            paths.insert(path)?;
            return Ok(());
        }
        let mut paths = BTreeSet::new(self.alloc);
        paths.insert(path)?;
        self.paths.insert(connection, paths)?;
        Ok(())
    }

    // Removes a path of a connection. Allocates nothing.
    pub(crate) fn remove(&mut self, connection: u32, path: &Path)
        ensures { (c : ℕ) (q : Names) → has_path self.new.paths.entries c q
            ≡ (not (eq_by_cmp nat_cmp c connection && eq_by_cmp path_cmp q path.now)
            && has_path self.old.paths.entries c q) }
    {
        if let Some(paths) = self.paths.get_mut(&connection) {
            paths.remove(path);
        }
    }

    // Removes the paths of a connection, and returns them. Allocates nothing.
    pub(crate) fn take(&mut self, connection: u32) -> Option<BTreeSet<Path>>
        ensures some { IfSome result (λ paths. (q : Names)
            → list_any (eq_by_cmp path_cmp q) paths.keys
            ≡ has_path self.old.paths.entries connection q) }
        ensures none { IfNone result ((q : Names)
            → has_path self.old.paths.entries connection q ≡ false) }
        ensures others { (c : ℕ) (q : Names) → has_path self.new.paths.entries c q
            ≡ (not (eq_by_cmp nat_cmp c connection)
            && has_path self.old.paths.entries c q) }
    {
        self.paths.remove(&connection)
    }
}
