//! The channels between all processes.

ghost use Rattle.std.specs.Prelude.{◌≡◌, IfOk, OnOk, length, replicate, All, []};
ghost use Rattle.zchannels.specs.Rings.{put_of};
ghost use Rattle.zchannels.specs.Woven.{AreBlankIns, AreBlankOuts, AreWide, AreWoven, HasRowMore, in_rings};

use crate::rings::{Rx, Tx, link};
use std::alloc::Global;
use zalloc::Memory;

/// The ends of all channels, by process and then by the index of the other process.
#[derive(Drop)]
pub struct Mesh<M: Drop> {
    /// The sending ends of each process.
    pub outs: Vec<Vec<Tx<M>>>,
    /// The receiving ends of each process.
    pub ins: Vec<Vec<Rx<M>>>,
}

/// Returns empty channels from each of `count` processes to each. The only error is out of memory.
pub fn weave<M: Drop>(alloc: Global, count: usize) -> Result<Mesh<M>, Memory>
    ensures woven { IfOk result (λ mesh. AreWoven count mesh.outs.items mesh.ins.items) }
    ensures blank { IfOk result (λ mesh. AreBlankOuts mesh.outs.items
        × AreBlankIns mesh.ins.items) }
    ensures wide { IfOk result (λ mesh. AreWide count mesh.outs.items
        × AreWide count mesh.ins.items) }
{
    let mut ins = columns(alloc, count)?;
    let mut outs = Vec::with_capacity(alloc, count)?;
    for _ in 0..count {
        let row = add_row(alloc, &mut ins)?;
        outs.push(row)?;
    }
    Ok(Mesh { outs, ins })
}

// Returns `count` processes without a receiving end yet.
fn columns<M: Drop>(alloc: Global, count: usize) -> Result<Vec<Vec<Rx<M>>>, Memory>
    ensures rings { IfOk result (λ columns. in_rings columns.items ≡ replicate count []) }
    ensures blank { IfOk result (λ columns. AreBlankIns columns.items) }
{
    let mut columns = Vec::with_capacity(alloc, count)?;
    for _ in 0..count {
        columns.push(Vec::with_capacity(alloc, count)?)?;
    }
    Ok(columns)
}

// Adds a process that sends to all; returns its sending ends.
fn add_row<M: Drop>(alloc: Global, ins: &mut Vec<Vec<Rx<M>>>) -> Result<Vec<Tx<M>>, Memory>
    ensures rings { IfOk result (λ row. HasRowMore ins.old.items ins.new.items row.items) }
    ensures length { IfOk result (λ row. length row.items ≡ length ins.old.items) }
    ensures outs { IfOk result (λ row. All (λ tx. put_of tx ≡ []) row.items) }
    ensures ins { AreBlankIns ins.old.items → OnOk result (AreBlankIns ins.new.items) }
{
    let mut row = Vec::with_capacity(alloc, ins.len())?;
    for to in 0..ins.len() {
        let (tx, rx) = link(alloc)?;
        row.push(tx)?;
        ins[to].push(rx)?;
    }
    Ok(row)
}
