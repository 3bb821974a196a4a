//! Frames, written at the end of a stream.

ghost use Rattle.std.specs.Prelude.{◌≡◌, ◌++◌, ◌<◌, ◌≤◌, length, OnOk, OnErr, IfErr};
ghost use Rattle.zcodec.specs.Choices.{sized};
ghost use Rattle.zwire.specs.declared.fault.WriteError.TheVariants.{TooLong};
ghost use Rattle.zwire.specs.declared.limits.TheConstants.{MAX_FRAME};
ghost use Rattle.zwire.specs.Frames.{frame_of, contents, frame};

use crate::fault::WriteError;
use crate::field_writing::put_process;
use crate::limits::MAX_FRAME;
use crate::message_writing::put_message;
use std::alloc::{AllocError, Global};
use zcodec::put_sized;
use zprotocol::{Message, Process};

/// Appends the frame of a message. On an error the bytes are unchanged.
///
/// For a snapshot this is the frame alone: the caller writes the state after it.
#[tactic(auto, unfolding(crate::specs::Frames::frame))]
pub fn write_frame<T>(
    alloc: Global,
    out: &mut Vec<u8>,
    sender: Process,
    receiver: Process,
    message: &Message<T>,
) -> Result<(), WriteError>
    ensures ok { OnOk result (out.new.items
        ≡ out.old.items ++ frame.spell (frame_of sender receiver message.now)) }
    // So `read_frame` reads it again.
    ensures fits { OnOk result (frame.Fits (frame_of sender receiver message.now)) }
    ensures long { IfErr result (λ error. error ≡ TooLong
        → MAX_FRAME < length (contents.spell (frame_of sender receiver message.now))) }
    ensures err { OnErr result (out.new.items ≡ out.old.items) }
{
    let mut text = Vec::new(alloc);
    put_contents(alloc, &mut text, sender, receiver, message)?;
    put_framed(out, &text)
}

/// Appends bytes as a frame, after their length. On an error the old bytes are unchanged.
pub fn put_framed(out: &mut Vec<u8>, text: &[u8]) -> Result<(), WriteError>
    ensures ok { OnOk result
        (out.new.items ≡ out.old.items ++ (sized MAX_FRAME).spell text.now) }
    ensures short { OnOk result (length text.now ≤ MAX_FRAME) }
    ensures long { IfErr result (λ error. error ≡ TooLong → MAX_FRAME < length text.now) }
    ensures err { OnErr result (out.new.items ≡ out.old.items) }
{
    if text.len() > MAX_FRAME as usize {
        return Err(WriteError::TooLong);
    }
    put_sized(out, text)?;
    Ok(())
}

// Writes what follows the length.
#[tactic(auto, unfolding(crate::specs::Frames::contents))]
fn put_contents<T>(
    alloc: Global,
    out: &mut Vec<u8>,
    sender: Process,
    receiver: Process,
    message: &Message<T>,
) -> Result<(), AllocError>
    ensures text { OnOk result (out.new.items
        ≡ out.old.items ++ contents.spell (frame_of sender receiver message.now)) }
    ensures fits { OnOk result (contents.Fits (frame_of sender receiver message.now)) }
{
    put_process(out, sender)?;
    put_process(out, receiver)?;
    put_message(alloc, out, message)
}
