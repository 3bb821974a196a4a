//! The counts of a tree.

ghost use Rattle.std.specs.Prelude.{◌≡◌, ◌≤◌, false, length, IfOk};
ghost use Rattle.ztree.specs.declared.limits.TheConstants.{MOST_DATA};
ghost use Rattle.zsnapshots.specs.export.Counts.{counts_of};
ghost use Rattle.zsnapshots.specs.export.support.Counting.{counted, HasRoom};

use zalloc::Memory;
use zops::Machine;
use ztree::Node;

/// The counts of a tree. The root counts as a node.
#[derive(Clone, Copy, Debug, PartialEq, Eq)]
pub struct TreeCounts {
    /// The nodes.
    pub nodes: u64,
    /// The bytes of their data.
    pub bytes: u64,
    /// The nodes that a session owns.
    pub ephemerals: u64,
    /// The nodes that gave a number to a sequential name beneath them.
    pub counters: u64,
    /// The sessions.
    pub sessions: u64,
    /// The zxid of the last change.
    pub changes: u64,
    /// The current tick.
    pub ticks: u64,
}

/// Counts the nodes, bytes and sessions of a machine's tree.
pub fn counts(machine: &Machine) -> Result<TreeCounts, Memory>
    requires whole { machine.now.is_broken ≡ false }
    ensures { IfOk result (λ c. c ≡ counts_of machine.now.state.service.plain) }
{
    let paths = machine.paths()?;
    let sessions = machine.session_ids()?;
    let mut counts = TreeCounts {
        nodes: paths.len() as u64,
        bytes: 0,
        ephemerals: 0,
        counters: 0,
        sessions: sessions.len() as u64,
        changes: machine.zxid().number(),
        ticks: machine.time(),
    };
    for path in paths {
        let Some(node) = machine.node(&path) else {
            unreachable!()
        };
        add(&mut counts, node);
    }
    Ok(counts)
}

// Counts one more node, but for the number of nodes.
fn add(counts: &mut TreeCounts, node: &Node)
    requires { HasRoom counts.old }
    ensures counted { counts.new ≡ counted node.now counts.old }
    ensures short { length node.now.bytes ≤ MOST_DATA }
{
    counts.bytes += node.bytes.as_slice().len() as u64;
    if node.owner != 0 {
        counts.ephemerals += 1;
    }
    if node.seq != 0 {
        counts.counters += 1;
    }
}
