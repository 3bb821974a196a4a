//! What is counted of the nodes.
//!
//! # Why
//! Each change keeps the counts, so to tell them costs nothing. The bytes of all data stay far
//! below 2^64: there are at most 2^32 rows, and each has less than 2^20 bytes. `add` looks at the
//! number of rows for this.

ghost use Rattle.std.specs.Prelude.{◌≡◌, ◌≤◌, length};
ghost use Rattle.ztree.specs.declared.limits.TheConstants.{MOST_DATA};

use ztree::{Data, Node};

/// The number of nodes that sessions own, and the bytes of the data of all nodes.
#[derive(Clone, Copy)]
pub(crate) struct Counts {
    pub(crate) owned: usize,
    pub(crate) bytes: u64,
}

impl Counts {
    ghost use Rattle.std.specs.Prelude.{◌≡◌, ◌+◌, ◌<◌, ◌≤◌, ◌^◌, length};
    ghost use Rattle.zslots.specs.declared.limits.TheConstants.{MAX_LENGTH};
    ghost use Rattle.ztree.specs.declared.limits.TheConstants.{MOST_DATA};
    ghost use Rattle.ztree.specs.Counts.{one_if_owned, size_of};
    ghost use Rattle.znodes.specs.support.Counting.{no_counts, counts_with, counts_without, counts_changed};

    // Returns the counts of no nodes.
    pub(crate) fn new() -> Counts
        ensures { result ≡ no_counts }
    {
        Counts { owned: 0, bytes: 0 }
    }

    // Counts one more node.
    pub(crate) fn put(&mut self, node: &Node)
        requires owned { self.old.owned < MAX_LENGTH }
        requires bytes { self.old.bytes + MOST_DATA < 2 ^ 64 }
        ensures counts { self.new ≡ counts_with self.old node.now }
        ensures small { size_of node.now ≤ MOST_DATA }
    {
        if node.owner != 0 {
            self.owned += 1;
        }
        self.bytes += size(&node.bytes);
    }

    // Counts one node less.
    pub(crate) fn cut(&mut self, node: &Node)
        requires owned { one_if_owned node.now ≤ self.old.owned }
        requires bytes { size_of node.now ≤ self.old.bytes }
        ensures { self.new ≡ counts_without self.old node.now }
    {
        if node.owner != 0 {
            self.owned -= 1;
        }
        self.bytes -= size(&node.bytes);
    }

    // Counts other data of a node.
    pub(crate) fn change(&mut self, before: &Data, after: &Data)
        requires counted { length before.now ≤ self.old.bytes }
        requires bytes { self.old.bytes + MOST_DATA < 2 ^ 64 }
        ensures counts { self.new ≡ counts_changed self.old before.now after.now }
        ensures small { length after.now ≤ MOST_DATA }
    {
        self.bytes -= size(before);
        self.bytes += size(after);
    }
}

// Returns the size of data.
fn size(bytes: &Data) -> u64
    ensures size { result ≡ length bytes.now }
    ensures small { result ≤ MOST_DATA }
{
    bytes.as_slice().len() as u64
}
