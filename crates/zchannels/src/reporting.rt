//! Whether what was received on each channel is a prefix of what was sent on it. The two ends of a
//! channel show this once they are in one thread again.

ghost use Rattle.std.specs.Prelude.{◌≡◌, ◌<◌, IsTrue, length};
ghost use Rattle.zchannels.specs.Woven.{AreWoven, in_rings, out_rings};
ghost use Rattle.zchannels.specs.Reported.{AreReported, in_lists, out_lists, ReportIt};

use crate::mesh::Mesh;
use crate::rings::{Rx, Tx, reported};

/// Returns whether every channel shows that what was received is a prefix of what was sent.
pub fn are_reported<M: Drop>(mesh: Mesh<M>) -> bool
    requires { AreWoven (length mesh.outs.items) mesh.outs.items mesh.ins.items }
    ensures { IsTrue result → AreReported (out_lists mesh.outs.items) (in_lists mesh.ins.items) }
{
    let Mesh { mut outs, mut ins } = mesh;
    let count = outs.len();
    for from in 0..count {
        for to in 0..count {
            if !is_reported(&mut outs, &mut ins, from, to) {
                return false;
            }
        }
    }
    true
}

// Returns whether the channel from one process to another shows that.
fn is_reported<M: Drop>(
    outs: &mut Vec<Vec<Tx<M>>>,
    ins: &mut Vec<Vec<Rx<M>>>,
    from: usize,
    to: usize,
) -> bool
    requires woven { AreWoven (length outs.old.items) outs.old.items ins.old.items }
    requires from { from < length outs.old.items }
    requires to { to < length outs.old.items }
    ensures outs { out_lists outs.new.items ≡ out_lists outs.old.items }
    ensures ins { in_lists ins.new.items ≡ in_lists ins.old.items }
    ensures out_rings { out_rings outs.new.items ≡ out_rings outs.old.items }
    ensures in_rings { in_rings ins.new.items ≡ in_rings ins.old.items }
    ensures reported { IsTrue result → ReportIt outs.old.items ins.old.items from to }
{
    reported(&mut outs[from][to], &mut ins[to][from]).is_some()
}
