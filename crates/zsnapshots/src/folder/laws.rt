//! Laws of the definitions. Each function's contract is a law; its body is empty.

ghost use Rattle.zsnapshots.specs.folder.Laws.{EntriesAreTheirs, EntriesComeBack, EntriesGoOn};
ghost use Rattle.zsnapshots.specs.folder.Laws.{EntriesAreDistinct, RecordsComeBack};
ghost use Rattle.zsnapshots.specs.folder.Laws.{KeptTreesCanStart, NothingIsLeft, NothingIsTheOpening};
ghost use Rattle.zsnapshots.specs.folder.Laws.{ChunksAreAll, ChunksJoin};
ghost use Rattle.zsnapshots.specs.folder.Laws.{SnapshotsKeepTheirs, TextsGoOn, TextsAreDistinct};
ghost use Rattle.zsnapshots.specs.folder.Laws.{TreesAreTheirCalls};

/// Entries are written as records, and read back from them. Records that are entries are the
/// records of these, and passwords. No text is that of two lists of entries.
pub fn entries_come_back()
    ensures entries { EntriesComeBack }
    ensures records { RecordsComeBack }
    ensures theirs { EntriesAreTheirs }
    ensures texts { EntriesAreDistinct }
{}

/// Entries lead to one tree, whether they are applied as one list or as two: the one that their
/// calls leave.
pub fn entries_lead_on()
    ensures on { EntriesGoOn }
    ensures tree { TreesAreTheirCalls }
{}

/// A text represents one tree.
pub fn texts_are_distinct()
    ensures { TextsAreDistinct }
{}

/// An empty text represents the initial tree, and a snapshot its own. With entries after it, a text
/// represents the tree to which they lead.
pub fn texts_go_on()
    ensures nothing { NothingIsTheOpening }
    ensures snapshot { SnapshotsKeepTheirs }
    ensures on { TextsGoOn }
{}

/// The chunks of a snapshot, joined in order, are its text.
pub fn chunks_join()
    ensures join { ChunksJoin }
    ensures all { ChunksAreAll }
    ensures end { NothingIsLeft }
{}

/// A service can begin with a tree that a text represents.
pub fn kept_trees_can_start()
    ensures { KeptTreesCanStart }
{}
