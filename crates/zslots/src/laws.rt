//! Laws of the definitions. Each function's contract is a law; its body does nothing.

ghost use Rattle.zslots.specs.ListLaws.{IsOneList, BeginsWithFirst, RelinkUndoesUnlink, LeavesOtherParts, LeavesOtherLists};
ghost use Rattle.zslots.specs.SlotsLaws.{GivesEachIdOnce, LeavesRemovedIds};

use crate::linked::Linked;

/// Along any run of calls, no Id is given out twice.
pub fn ids_are_given_once<T>()
    ensures { GivesEachIdOnce T }
{}

/// Along any run of calls, the Id of a removed item never names an item again.
pub fn removed_ids_name_nothing<T>()
    ensures { LeavesRemovedIds T }
{}

/// The items' links spell at most one sequence of Ids for a `List`, and the list's first Id begins
/// it.
pub fn lists_are_one<const L: usize, T: Linked<L>>()
    ensures one { IsOneList L T.links }
    ensures first { BeginsWithFirst L T.links }
{}

/// `relink` undoes `unlink`: all items and the list are as they were.
pub fn relink_undoes_unlink<const L: usize, T: Linked<L>>()
    ensures { RelinkUndoesUnlink T.links T.with_links L }
{}

/// A list's calls change no part of an item but its links for that list.
pub fn other_parts_stay<const L: usize, T: Linked<L>, X>()
    ensures { LeavesOtherParts T.links T.with_links X }
{}

/// A list's calls change no other list that runs through other links.
pub fn other_lists_stay<const L: usize, const K: usize, T: Linked<L>>()
    ensures { LeavesOtherLists T.links T.with_links K }
{}
