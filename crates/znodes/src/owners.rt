//! The lists of the nodes that sessions own.
//!
//! # Why
//! A session has a list here from its open to its end. So a node that comes back finds its owner's
//! list without allocating. The nodes need to know nothing else of sessions.

ghost use Rattle.std.specs.Prelude.{◌≡◌, None, IsSome, IfOk, OnOk, OnErr};
ghost use Rattle.std.specs.FinMap.{empty, get, insert, remove};

use std::alloc::Global;
use std::collections::BTreeMap;
use std::marker::Model;
use zalloc::Memory;
use zslots::List;

// A list for each session that may own nodes.
#[derive(Drop)]
pub(crate) struct Owners {
    lists: BTreeMap<u64, List<1>>,
}

impl Model for Owners {
    ghost use Rattle.std.specs.FinMap as finite;
    ghost use Rattle.znodes.specs.support.OwnerLists.{OwnerLists, coded_owners};

    ghost Value = { OwnerLists };

    ghost coded = { coded_owners };

    ghost view = { λ s. finite.from_entries s.lists.entries };
}

impl Owners {
    ghost use Rattle.zslots.specs.Lists.{empty_list};
    ghost use Rattle.znodes.specs.support.OwnerLists.{list_of};

    // Returns an empty table of lists.
    pub(crate) fn new(alloc: Global) -> Owners
        ensures { result ≡ empty }
    {
        Owners {
            lists: BTreeMap::new(alloc),
        }
    }

    // Returns an owner's list, or `None` for owner 0.
    pub(crate) fn list(&self, owner: u64) -> Option<List<1>>
        ensures { result ≡ list_of self.now owner }
    {
        if owner == 0 {
            return None;
        }
        self.lists.get(&owner).copied()
    }

    // Writes an existing list, so it allocates nothing.
    pub(crate) fn set(&mut self, owner: u64, list: List<1>)
        requires { IsSome (get self.old owner) }
        ensures { self.new ≡ insert self.old owner list }
    {
        match self.lists.insert(owner, list) {
            Ok(_) => {}
            Err(_) => unreachable!(),
        }
    }

    // Adds an empty list for one more owner. After `Memory` nothing has changed.
    pub(crate) fn open(&mut self, owner: u64) -> Result<(), Memory>
        ensures ok { OnOk result (self.new ≡ insert self.old owner empty_list) }
        ensures err { OnErr result (self.new ≡ self.old) }
    {
        self.lists.insert(owner, List::new())?;
        Ok(())
    }

    // Removes an owner's list.
    pub(crate) fn close(&mut self, owner: u64)
        ensures { self.new ≡ remove self.old owner }
    {
        self.lists.remove(&owner);
    }

    // Returns a copy of the lists, or `Memory`.
    pub(crate) fn copy(&self) -> Result<Owners, Memory>
        ensures { IfOk result (λ copy. copy ≡ self.now) }
    {
        Ok(Owners {
            lists: self.lists.clone()?,
        })
    }
}
