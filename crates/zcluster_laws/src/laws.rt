//! The laws. Each function's contract is a law over every run of a cluster; its body does nothing.

ghost use Rattle.zcluster_laws.specs.Laws.{EveryClusterFrontRuns, EveryClusterIsOneTree};

/// All answers to all connections of all heads are one plain tree's, in real time. Each run of a
/// cluster has one log of updates that explains them: for every number of servers and every first
/// tree, whatever channels lose, and whoever was head.
///
/// The calls of each answer that was sent are acknowledged, and have their places in the log. They
/// have the replies that the plain tree gives there, and the answer was made from that tree. The
/// front began with the tree after some entries of the log. An input that is handled after an
/// answer was sent has its calls after those of the answer. Later steps only make the log longer.
pub fn every_cluster_is_one_tree()
    ensures { EveryClusterIsOneTree }
{}

/// Each front makes a run as the laws of one front have it (`zfront_laws`), from the tree that its
/// server had when it became the head. So all these laws hold of it: each connection is answered,
/// and each watch is reported. All that was sent, of whatever head, is the reaction of a front in
/// such a run.
pub fn every_cluster_front_runs()
    ensures { EveryClusterFrontRuns }
{}
