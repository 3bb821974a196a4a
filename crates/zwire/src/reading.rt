//! Frames, read from the front of a stream.

ghost use Rattle.std.specs.Prelude.{◌≡◌, ◌++◌, List, ℕ, Ok, IfOk, IfErr};
ghost use Rattle.zcodec.specs.Readers.{Gives, ended, whole};
ghost use Rattle.zwire.specs.declared.fault.FrameFault.TheVariants.{Memory as OfMemory};
ghost use Rattle.zwire.specs.declared.frame.Frame.{Frame};
ghost use Rattle.zwire.specs.Frames.{contents, frame, IsFaultOf, IsCut};

use crate::fault::FrameFault;
use crate::field_reading::process_in;
use crate::frame::Frame;
use crate::limits::MAX_FRAME;
use crate::message_reading::message_of;
use std::alloc::Global;
use zcodec::{ReadError, end};

/// Reads the first frame of the bytes, with what follows it.
///
/// For a snapshot this is the frame alone: the state follows it.
pub fn read_frame(alloc: Global, bytes: &[u8]) -> Result<(Frame, &[u8]), FrameFault>
    // What is read is spelled so.
    ensures found { IfOk result (λ x.
        frame.Fits x.0 × (bytes.now ≡ frame.spell x.0 ++ x.1.now)) }
    // What is spelled so is read, unless memory runs out.
    ensures only { (f : Frame) (rest : List ℕ) → frame.Fits f → bytes.now ≡ frame.spell f ++ rest
        → IfOk result (λ x. (x.0 ≡ f) × (x.1.now ≡ rest))
        × IfErr result (λ fault. fault ≡ OfMemory) }
    // Which fault it is.
    ensures fault { IfErr result (IsFaultOf contents bytes.now) }
{
    frame_in(alloc, bytes)
}

// The same, by the definition of reading alone.
#[tactic(auto, unfolding(crate::specs::Frames::frame))]
fn frame_in(alloc: Global, bytes: &[u8]) -> Result<(Frame, &[u8]), FrameFault>
    ensures read { IfOk result (λ x. frame.read bytes.now ≡ Ok (x.0, x.1.now)) }
    ensures fault { IfErr result (IsFaultOf contents bytes.now) }
{
    let (text, rest) = cut_frame(bytes)?;
    match read_contents(alloc, text) {
        Ok(frame) => Ok((frame, rest)),
        Err(ReadError::Fault(fault)) => Err(FrameFault::Contents(fault)),
        Err(ReadError::Memory) => Err(FrameFault::Memory),
    }
}

/// Cuts off the first frame: returns the bytes after its length, and what follows them.
#[tactic(auto, unfolding(zcodec::specs::Forms::number_at))]
pub fn cut_frame(bytes: &[u8]) -> Result<(&[u8], &[u8]), FrameFault>
    ensures { IsCut (λ x. (x.0.now, x.1.now)) result bytes.now }
{
    let Some((front, rest)) = bytes.split_first_chunk::<4>() else {
        return Err(FrameFault::Cut);
    };
    let len = u32::from_be_bytes(*front);
    if len > MAX_FRAME {
        return Err(FrameFault::TooLong);
    }
    match rest.split_at_checked(len as usize) {
        Some(parts) => Ok(parts),
        None => Err(FrameFault::Cut),
    }
}

/// Reads the message that all of the bytes are: a frame without its length.
pub fn read_contents(alloc: Global, bytes: &[u8]) -> Result<Frame, ReadError>
    ensures { Gives (λ it. it) result (whole contents bytes.now) }
{
    let (frame, rest) = contents_of(alloc, bytes)?;
    whole_of(frame, rest)
}

/// Returns a value, if nothing follows it.
pub fn whole_of<T: Drop>(value: T, rest: &[u8]) -> Result<T, ReadError>
    ensures { Gives (λ x. x) result (ended value rest.now) }
{
    match end(rest) {
        Ok(()) => Ok(value),
        Err(fault) => {
            drop(value);
            Err(ReadError::Fault(fault))
        }
    }
}

// Reads the sender, the receiver and the message, and what follows them.
#[tactic(auto, unfolding(crate::specs::Frames::contents))]
fn contents_of(alloc: Global, bytes: &[u8]) -> Result<(Frame, &[u8]), ReadError>
    ensures { Gives (λ x. (x.0, x.1.now)) result (contents.read bytes.now) }
{
    let (sender, rest) = match process_in(bytes) {
        Ok(read) => read,
        Err(fault) => return Err(ReadError::Fault(fault)),
    };
    let (receiver, rest) = match process_in(rest) {
        Ok(read) => read,
        Err(fault) => return Err(ReadError::Fault(fault)),
    };
    match message_of(alloc, rest) {
        Ok((message, rest)) => {
            let frame = Frame {
                sender,
                receiver,
                message,
            };
            Ok((frame, rest))
        }
        Err(error) => Err(error),
    }
}
