//! The lines of a tree, written in order.

ghost use Rattle.std.specs.Prelude.{◌≡◌, false, IfErr, OnOk};
ghost use Rattle.base64.specs.GeneralPurpose.{IsBytes};
ghost use Rattle.zdevices.specs.Device.{Between, Failed, TookBeginning};
ghost use Rattle.zsnapshots.specs.declared.export.fault.ExportFault.TheVariants.{Write};
ghost use Rattle.zsnapshots.specs.Rows.{HasValidTtl};
ghost use Rattle.zsnapshots.specs.export.Export.{export_text};
ghost use Rattle.zsnapshots.specs.export.Laws.{HasLines, IsWithinLimits};
ghost use Rattle.zsnapshots.specs.export.support.Counting.{text_for};

use crate::export::fault::ExportFault;
use crate::export::line::write_lines;
use std::alloc::Global;
use zdevices::{Sink, write_all};
use zops::Machine;
use zpath::Path;
use ztree::{Node, Term};

/// Writes the lines of a machine's tree. Only one of them is in memory at a time. After a fault the
/// sink has taken a prefix of them.
pub fn write_export<K: Sink>(
    alloc: Global,
    machine: &Machine,
    sink: &mut K,
) -> Result<(), ExportFault>
    requires whole { machine.now.is_broken ≡ false }
    ensures took { OnOk result
        (K.took sink.old (export_text machine.now.state.service.plain) sink.new) }
    ensures sound { OnOk result (K.failed sink.old 0 sink.new) }
    ensures beginning { TookBeginning (Between K.took sink.old sink.new)
        (export_text machine.now.state.service.plain) }
    ensures failed { IfErr result (λ fault.
        fault ≡ Write → Failed (Between K.failed sink.old sink.new)) }
    // So the lines make the tree again, if it fits a script (`laws`).
    ensures has_lines { OnOk result (HasLines machine.now.state.service.plain) }
{
    machine.keeps_lawful();
    let paths = machine.paths()?;
    let mut text = String::new(alloc);
    for path in paths {
        let Some(node) = machine.node(&path) else {
            unreachable!()
        };
        match write_next(&path, node, &mut text, sink) {
            Ok(()) => {}
            Err(fault) => return Err(fault),
        }
    }
    Ok(())
}

// Writes the lines of one node.
fn write_next<K: Sink>(
    path: &Path,
    node: &Node,
    text: &mut String,
    sink: &mut K,
) -> Result<(), ExportFault>
    ensures took { OnOk result (K.took sink.old (text_for path.now node.now) sink.new) }
    ensures sound { OnOk result (K.failed sink.old 0 sink.new) }
    ensures beginning { TookBeginning (Between K.took sink.old sink.new)
        (text_for path.now node.now) }
    ensures failed { IfErr result (λ fault.
        fault ≡ Write → Failed (Between K.failed sink.old sink.new)) }
    ensures within { OnOk result (IsWithinLimits node.now) }
{
    keeps_limits(node);
    text.clear();
    write_lines(path, node, text)?;
    match write_all(sink, text.as_bytes()) {
        Ok(()) => Ok(()),
        Err(_) => Err(ExportFault::Write),
    }
}

// Shows that the node's data and its TTL are within their limits. It does nothing.
fn keeps_limits(node: &Node)
    ensures { IsWithinLimits node.now }
{
    keeps_bytes(node.bytes.as_slice());
    keeps_ttl(node.term);
}

// Shows that a TTL is within its limits. It does nothing.
fn keeps_ttl(term: Term)
    ensures { HasValidTtl term }
{
    if let Term::Timed(ttl) = term {
        let _ = ttl.ticks();
    }
}

// Shows that bytes are bytes. It does nothing.
fn keeps_bytes(bytes: &[u8])
    ensures { IsBytes bytes.now }
{
    let _ = bytes;
}
