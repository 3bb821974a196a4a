//! The loop over messages: inputs are taken, and their changes are committed and acknowledged.
//!
//! # Why
//! A record that is cut when the input ends is dropped: the host was killed while it wrote it, and
//! nothing of it was acknowledged.

ghost use Rattle.std.specs.Prelude.{◌≡◌, ◌<◌, ◌++◌, [], ◌∷◌, List, ℕ, length};
ghost use Rattle.std.specs.Prelude.{IfOk, OnErr, OnOk};
ghost use Rattle.zdevices.specs.Device.{Between, TookBeginning};
ghost use Rattle.zdaemon.specs.pipe.Messages.{message_of};
ghost use Rattle.zdaemon.specs.pipe.Messages.MessageView.{Keep};
ghost use Rattle.zdaemon.specs.pipe.Serving.{IsReporting, Sends, SendsSome, ServesAll, ServesFront};
ghost use Rattle.zdaemon.specs.pipe.Serving.{ServesSome, ReportsSome};

use crate::pipe::fault::ServeFault;
use crate::pipe::limits::BLOCK;
use crate::pipe::message::Message;
use crate::pipe::reading::next_message;
use crate::pipe::service::Service;
use crate::pipe::writing::{put_chunk, put_end};
use std::alloc::Global;
use zcodec::Fault;
use zdevices::{Sink, Source, write_all};

/// Reports that the service is open, and then takes all messages of a source, until it ends. At
/// each demand all inputs before it are committed. Only then do their chunks and an end go to the
/// sink. An input that is cut when the source ends is dropped.
pub fn serve_all<V: Service, S: Source, K: Sink>(
    alloc: Global,
    service: &mut V,
    source: &mut S,
    sink: &mut K,
) -> Result<(), ServeFault>
    requires { V.is_sound service.old }
    ensures all { OnOk result (ServesAll V.took V.kept V.reported V.has_reported (Keep ∷ [])
        (Between S.gave source.old source.new) (Between K.took sink.old sink.new)
        service.old service.new) }
    ensures ended { OnOk result (S.has_ended source.new) }
    ensures some { OnErr result (ServesSome V.took V.kept V.reported V.has_reported
        (Between K.took sink.old sink.new) service.old) }
{
    let mut block = vec![in alloc; 0; BLOCK]?;
    answer(alloc, service, sink)?;
    serve_blocks(alloc, service, source, sink, &mut block)?;
    Ok(())
}

// Reads block by block, and takes the messages that are whole.
fn serve_blocks<V: Service, S: Source, K: Sink>(
    alloc: Global,
    service: &mut V,
    source: &mut S,
    sink: &mut K,
    block: &mut [u8],
) -> Result<(), ServeFault>
    requires sound { V.is_sound service.old }
    requires room { 0 < length block.old }
    ensures all { OnOk result (ServesAll V.took V.kept V.reported V.has_reported []
        (Between S.gave source.old source.new) (Between K.took sink.old sink.new)
        service.old service.new) }
    ensures ended { OnOk result (S.has_ended source.new) }
    ensures some { OnErr result (ServesSome V.took V.kept V.reported V.has_reported
        (Between K.took sink.old sink.new) service.old) }
{
    let mut begun = Vec::new(alloc);
    loop {
        let Ok(count) = source.read(block) else {
            return Err(ServeFault::Read);
        };
        if count == 0 {
            return Ok(());
        }
        begun.extend_from_slice(&block[..count])?;
        begun = take_all(alloc, service, &begun, sink)?;
    }
}

// Takes the whole messages at the front of the bytes, and returns what follows them.
fn take_all<V: Service, K: Sink>(
    alloc: Global,
    service: &mut V,
    bytes: &[u8],
    sink: &mut K,
) -> Result<Vec<u8>, ServeFault>
    requires { V.is_sound service.old }
    ensures front { IfOk result (λ rest. ServesFront V.took V.kept V.reported V.has_reported
        (Between K.took sink.old sink.new) bytes.now rest.items service.old service.new) }
    ensures sound { OnOk result (V.is_sound service.new) }
    ensures some { OnErr result (ServesSome V.took V.kept V.reported V.has_reported
        (Between K.took sink.old sink.new) service.old) }
{
    let rest = take_whole(alloc, service, bytes, sink)?;
    Ok(Vec::from_slice(alloc, rest)?)
}

// The same, where the rest remains in the buffer.
fn take_whole<'a, V: Service, K: Sink>(
    alloc: Global,
    service: &mut V,
    bytes: &'a [u8],
    sink: &mut K,
) -> Result<&'a [u8], ServeFault>
    requires { V.is_sound service.old }
    ensures front { IfOk result (λ rest. ServesFront V.took V.kept V.reported V.has_reported
        (Between K.took sink.old sink.new) bytes.now rest.now service.old service.new) }
    ensures sound { OnOk result (V.is_sound service.new) }
    ensures some { OnErr result (ServesSome V.took V.kept V.reported V.has_reported
        (Between K.took sink.old sink.new) service.old) }
{
    let mut rest = bytes;
    loop {
        match next_message(rest) {
            Ok((message, more)) => {
                take(alloc, service, message, sink)?;
                rest = more;
            }
            Err(Fault::Short) => return Ok(rest),
            Err(_) => return Err(ServeFault::NoInput),
        }
    }
}

// Takes one message.
fn take<V: Service, K: Sink>(
    alloc: Global,
    service: &mut V,
    message: Message<'_>,
    sink: &mut K,
) -> Result<(), ServeFault>
    requires { V.is_sound service.old }
    ensures done { OnOk result (Sends V.took V.kept V.reported V.has_reported (message_of
        message.entry) (Between K.took sink.old sink.new) service.old service.new) }
    ensures sound { OnOk result (V.is_sound service.new) }
    ensures some { OnErr result (SendsSome V.kept V.reported (Between K.took sink.old sink.new)
        service.old) }
{
    match message {
        Message::Input(input) => service.take(input),
        Message::Keep => answer(alloc, service, sink),
    }
}

// Commits the changes of the inputs, and sends what is to be sent.
fn answer<V: Service, K: Sink>(
    alloc: Global,
    service: &mut V,
    sink: &mut K,
) -> Result<(), ServeFault>
    requires { V.is_sound service.old }
    ensures done { OnOk result (Sends V.took V.kept V.reported V.has_reported Keep
        (Between K.took sink.old sink.new) service.old service.new) }
    ensures sound { OnOk result (V.is_sound service.new) }
    ensures some { OnErr result (SendsSome V.kept V.reported (Between K.took sink.old sink.new)
        service.old) }
{
    service.keep()?;
    let mut out = Vec::new(alloc);
    report_chunks(service, &mut out, sink)?;
    put_end(&mut out)?;
    tell(&mut out, sink)
}

// Sends all chunks. What isn't written yet is left in `out`.
fn report_chunks<V: Service, K: Sink>(
    service: &mut V,
    out: &mut Vec<u8>,
    sink: &mut K,
) -> Result<(), ServeFault>
    requires sound { V.is_sound service.old }
    requires empty { out.old.items ≡ [] }
    ensures done { OnOk result (IsReporting V.reported (Between K.took sink.old sink.new)
        service.old service.new out.new.items × V.has_reported service.new) }
    ensures sound { OnOk result (V.is_sound service.new) }
    ensures some { OnErr result (ReportsSome V.reported (Between K.took sink.old sink.new)
        service.old) }
{
    while let Some(chunk) = service.next_chunk() {
        put_chunk(out, &chunk)?;
        if out.len() >= BLOCK {
            tell(out, sink)?;
        }
    }
    Ok(())
}

// Writes bytes, and leaves none.
fn tell<K: Sink>(out: &mut Vec<u8>, sink: &mut K) -> Result<(), ServeFault>
    ensures done { OnOk result (K.took sink.old out.old.items sink.new) }
    ensures none { OnOk result (out.new.items ≡ []) }
    ensures some { TookBeginning (Between K.took sink.old sink.new) out.old.items }
{
    if write_all(sink, out).is_err() {
        return Err(ServeFault::Write);
    }
    out.clear();
    Ok(())
}
