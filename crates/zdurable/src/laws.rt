//! What holds across all incarnations of a service. Each function's contract is a law.

ghost use Rattle.zdurable.specs.Laws.{CompactedPartsContinue, EachIncarnationIsAPart};
ghost use Rattle.zdurable.specs.Laws.{IncarnationsAreOneTree};
ghost use Rattle.zdurable.specs.Laws.{NewFilesKeepTheOpening, WhatIsKeptStandsInALog};

/// All calls of a front end form one log, whose replies are those of one plain tree. Its updates
/// are those that are durable, and those that are still to be committed.
pub fn what_is_kept_stands_in_a_log()
    ensures { WhatIsKeptStandsInALog }
{}

/// Across restarts and compactions, while the limits stay, all acknowledged calls are in one log,
/// in order, each once and with its reply. The replies of the log are those of one plain tree. The
/// last file holds the tree that its changes leave. An acknowledged change is never undone. What
/// was in flight at a crash acted once or not at all.
pub fn incarnations_are_one_tree()
    ensures { IncarnationsAreOneTree }
{}

/// With any limits at each restart, each incarnation's part of that log is the log of one plain
/// tree: the one that the part before left, within the limits of this incarnation.
pub fn each_incarnation_is_a_part()
    ensures { EachIncarnationIsAPart }
{}

/// A new file holds the initial tree of the profile: so both may begin there.
pub fn new_files_keep_the_opening()
    ensures { NewFilesKeepTheOpening }
{}

/// A process beside the service may compact all parts of the file but the last one: the file holds
/// the same tree, whatever the service appends meanwhile and later.
pub fn compacted_parts_continue()
    ensures { CompactedPartsContinue }
{}
