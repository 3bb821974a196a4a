//! The promise of the heads. Each contract is a law over every list of events, and each body does
//! nothing.

ghost use Rattle.zheads.specs.Law.{AcknowledgedIsOneTree, AcknowledgedFromIsOneTree};

/// For every number of servers, each list of events has a log of updates that explains what callers
/// saw of all heads, whatever channels lose before each event. Each acknowledged update is the
/// entry of its place, with the plain tree's reply after the entries before it. Each acknowledged
/// query has the plain tree's reply after as many entries as its place says. What was acknowledged
/// before another call began has no later place, and an earlier one if that call is an update. Each
/// entry is an update that a head was called with. Later events only make the log longer.
pub fn acknowledged_is_one_tree()
    ensures { AcknowledgedIsOneTree }
{}

/// The same holds of a chain that begins with any tree, as that of a snapshot: all is the plain
/// tree that begins with it.
pub fn acknowledged_from_a_tree_is_one_tree()
    ensures { AcknowledgedFromIsOneTree }
{}
