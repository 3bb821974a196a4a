//! Laws of the definitions: each function's contract is a law, and its body does nothing.

ghost use Rattle.zprotocol.specs.server.Machine.{cached_tree};
ghost use Rattle.zprotocol.specs.traces.Laws.{LawfulStampsRise, LawfulEventsAreInPlace, LawfulRunsReportTheRecords};
ghost use Rattle.zprotocol.specs.traces.Laws.{EachHasAMerge, MergeGoesByStamps, MergeIsOne};

/// Lawful traces are a run of the world. Along their merge by timestamps each event is allowed. The
/// run's history agrees with each client's record.
pub fn lawful_traces_are_a_run()
    ensures stamps { LawfulStampsRise cached_tree }
    ensures places { LawfulEventsAreInPlace cached_tree }
    ensures records { LawfulRunsReportTheRecords cached_tree }
{}

/// Every set of traces has exactly one merge. If the timestamps of each trace rise, they never fall
/// along the merge.
pub fn merge_is_one()
    ensures exists { EachHasAMerge }
    ensures one { MergeIsOne }
    ensures order { MergeGoesByStamps }
{}
