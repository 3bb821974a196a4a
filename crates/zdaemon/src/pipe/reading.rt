//! Messages, read from the front of bytes.

ghost use Rattle.std.specs.Prelude.{◌≡◌, ◌++◌, List, ℕ, Ok, IfOk};
ghost use Rattle.zcodec.specs.Readers.{Reads};
ghost use Rattle.zdaemon.specs.pipe.Messages.{MessageView, message_of, message, message_at, came};

use crate::pipe::limits::MAX_CAME;
use crate::pipe::message::Message;
use zcodec::{Fault, sized_at, u8_at, u32_at};
use zconnections::buffers::Input;

/// Reads the first message of the bytes, with what follows it.
///
/// `Fault::Short` means that more bytes are needed. Any other fault is final: no message begins so.
pub fn next_message(bytes: &[u8]) -> Result<(Message<'_>, &[u8]), Fault>
    // What is read is spelled so, and fits.
    ensures found { IfOk result (λ x. message.Fits (message_of x.0)
        × (bytes.now ≡ message.spell (message_of x.0) ++ x.1.now)) }
    // What is spelled so is read.
    ensures only { (it : MessageView) (rest : List ℕ) → message.Fits it
        → bytes.now ≡ message.spell it ++ rest
        → Reads {Y = MessageView × List ℕ} (λ x. (message_of x.0, x.1.now)) result
        (Ok (it, rest)) }
    // Which fault it is.
    ensures exact { Reads (λ x. (message_of x.0, x.1.now)) result (message.read bytes.now) }
{
    read(bytes)
}

// The same, by the definition of reading alone.
#[tactic(auto, unfolding(crate::specs::pipe::Messages::message))]
fn read(bytes: &[u8]) -> Result<(Message<'_>, &[u8]), Fault>
    ensures { Reads (λ x. (message_of x.0, x.1.now)) result (message.read bytes.now) }
{
    let (tag, rest) = u8_at(bytes)?;
    read_behind(tag, rest)
}

// Reads what follows the tag of a message.
#[tactic(auto, unfolding(crate::specs::pipe::Messages::message_at))]
fn read_behind(tag: u8, bytes: &[u8]) -> Result<(Message<'_>, &[u8]), Fault>
    ensures { Reads (λ x. (message_of x.0, x.1.now)) result (message_at tag bytes.now) }
{
    match tag {
        0 => {
            let (connection, rest) = u32_at(bytes)?;
            Ok((Message::Input(Input::Opened(connection)), rest))
        }
        1 => {
            let (connection, bytes, rest) = came_at(bytes)?;
            Ok((Message::Input(Input::Came(connection, bytes)), rest))
        }
        2 => {
            let (connection, rest) = u32_at(bytes)?;
            Ok((Message::Input(Input::Ended(connection)), rest))
        }
        3 => Ok((Message::Input(Input::Tick), bytes)),
        4 => Ok((Message::Keep, bytes)),
        _ => Err(Fault::Invalid),
    }
}

// Reads a connection and bytes of it.
#[tactic(auto, unfolding(crate::specs::pipe::Messages::came))]
fn came_at(bytes: &[u8]) -> Result<(u32, &[u8], &[u8]), Fault>
    ensures { Reads (λ x. ((x.0, x.1.now), x.2.now)) result (came.read bytes.now) }
{
    let (connection, rest) = u32_at(bytes)?;
    let (bytes, rest) = sized_at(MAX_CAME, rest)?;
    Ok((connection, bytes, rest))
}
