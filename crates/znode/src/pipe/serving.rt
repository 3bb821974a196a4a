//! The loop over inputs.

ghost use Rattle.std.specs.Prelude.{◌≡◌, ◌<◌, true, false, length, IfOk, OnOk, OnErr, List, ℕ};
ghost use Rattle.zdevices.specs.Device.{Between};
ghost use Rattle.znode.specs.Node.{has_ended};
ghost use Rattle.znode.specs.Steps.{Takes};
ghost use Rattle.znode.specs.pipe.Inputs.{input_of};
ghost use Rattle.znode.specs.pipe.Serving.{ServesAll, ServesFront, ServesSome};
ghost use Rattle.znode.specs.support.Serving.{IsGoing, SendsFor, SendsPart};

use crate::fault::RunFault;
use crate::limits::BLOCK;
use crate::node::Node;
use crate::pipe::input::NodeInput;
use crate::pipe::reading::next_input;
use std::alloc::Global;
use zcodec::Fault;
use zdevices::{Sink, Source, write_all};

/// Takes all inputs of a source, until it ends or the node has ended, and returns whether the node
/// has. What the node answers goes to the sink. A node that has ended answers once more, as at a
/// turn. An input that is cut when the source ends is dropped.
pub fn serve_node<S: Source, K: Sink>(
    alloc: Global,
    node: &mut Node,
    source: &mut S,
    sink: &mut K,
) -> Result<bool, RunFault>
    ensures all { IfOk result (λ ended. ServesAll Takes has_ended ended
        (Between S.gave source.old source.new) (Between K.took sink.old sink.new)
        node.old node.new) }
    ensures ended { IfOk result (λ ended. ended ≡ false → S.has_ended source.new) }
    ensures some { OnErr result (ServesSome Takes (Between K.took sink.old sink.new) node.old) }
{
    let mut block = vec![in alloc; 0; BLOCK]?;
    let has_ended = serve_blocks(alloc, node, source, sink, &mut block)?;
    if !has_ended {
        return Ok(false);
    }
    take(alloc, node, &NodeInput::Turn, sink)?;
    Ok(true)
}

// Reads block by block, and takes the inputs that are whole.
fn serve_blocks<S: Source, K: Sink>(
    alloc: Global,
    node: &mut Node,
    source: &mut S,
    sink: &mut K,
    block: &mut [u8],
) -> Result<bool, RunFault>
    requires { 0 < length block.old }
    ensures all { OnOk result ((rest : List ℕ) × IsGoing Takes has_ended
        (Between S.gave source.old source.new) (Between K.took sink.old sink.new) rest
        node.old node.new) }
    ensures state { IfOk result (λ ended. ended ≡ has_ended node.new) }
    ensures ended { IfOk result (λ ended. ended ≡ false → S.has_ended source.new) }
    ensures some { OnErr result (ServesSome Takes (Between K.took sink.old sink.new) node.old) }
{
    let mut begun = Vec::new(alloc);
    loop {
        if node.has_ended() {
            return Ok(true);
        }
        let Ok(count) = source.read(block) else {
            return Err(RunFault::Read);
        };
        if count == 0 {
            return Ok(false);
        }
        begun.extend_from_slice(&block[..count])?;
        begun = take_all(alloc, node, &begun, sink)?;
    }
}

// Takes the whole inputs at the front of the bytes, and returns what follows them. It ends at one
// by which the node has ended.
fn take_all<K: Sink>(
    alloc: Global,
    node: &mut Node,
    bytes: &[u8],
    sink: &mut K,
) -> Result<Vec<u8>, RunFault>
    ensures front { IfOk result (λ rest. ServesFront Takes has_ended
        (Between K.took sink.old sink.new) bytes.now rest.items node.old node.new) }
    ensures some { OnErr result (ServesSome Takes (Between K.took sink.old sink.new) node.old) }
{
    let rest = take_whole(alloc, node, bytes, sink)?;
    Ok(Vec::from_slice(alloc, rest)?)
}

// The same, where the rest remains in the buffer.
fn take_whole<'a, K: Sink>(
    alloc: Global,
    node: &mut Node,
    bytes: &'a [u8],
    sink: &mut K,
) -> Result<&'a [u8], RunFault>
    ensures front { IfOk result (λ rest. ServesFront Takes has_ended
        (Between K.took sink.old sink.new) bytes.now rest.now node.old node.new) }
    ensures some { OnErr result (ServesSome Takes (Between K.took sink.old sink.new) node.old) }
{
    let mut rest = bytes;
    loop {
        if node.has_ended() {
            return Ok(rest);
        }
        match next_input(rest) {
            Ok((input, more)) => {
                take(alloc, node, &input, sink)?;
                rest = more;
            }
            Err(Fault::Short) => return Ok(rest),
            Err(_) => return Err(RunFault::NoInput),
        }
    }
}

// Takes one input, and sends the answer.
fn take<K: Sink>(
    alloc: Global,
    node: &mut Node,
    input: &NodeInput<'_>,
    sink: &mut K,
) -> Result<(), RunFault>
    ensures done { OnOk result (SendsFor Takes (input_of input.now)
        (Between K.took sink.old sink.new) node.old node.new) }
    ensures some { OnErr result (SendsPart Takes (input_of input.now)
        (Between K.took sink.old sink.new) node.old) }
{
    let mut out = Vec::new(alloc);
    node.take(input, &mut out)?;
    match write_all(sink, &out) {
        Ok(()) => Ok(()),
        Err(_) => Err(RunFault::Write),
    }
}
