//! Plays a script of lines: bytes from a source become answers at a sink.
//!
//! `play` is the whole. Over any `Source` and any `Sink` it writes the text of the bytes that it
//! reads (`text_of`, specs/Script.antt). It returns a `PlayFault` where it stopped earlier
//! (`IsCutBy`, specs/Outcome.antt). The devices are those of `zdevices`, and are exported here too.
//!
//! ```text
//! let mut source = SliceSource::new(b"1 create /a p aGk=\n1 get /a\n", 4096);
//! let mut sink = WriterSink::new(rt.stdout());
//! play(rt.alloc(), &mut source, &mut sink, ServerId::first())?;
//! ```
//!
//! `answer_line` plays one line on a `World` of the caller's, which `script_world` makes. What a
//! line does and its answer are defined in specs/Line.antt.
//!
//! # Why
//!
//! An answer is a function of the history that its line added, so the text says no more than
//! clients observe. Each event of a line, a call's invocation among them, takes the next outcome.
//! So the text also covers servers that run out of memory.
#![tactic(auto)]

mod fault;
pub mod laws;
pub mod limits;
mod line;
mod player;
mod rows;
mod script;
mod texts;

pub use fault::PlayFault;
pub use line::{answer_line, answer_line_strictly, script_world};
pub use script::play;
pub use zdevices::{
    DeviceFault, ReaderSource, Sink, SliceSource, Source, VecSink, WriterSink, write_all,
};
pub use zprotocol::ServerId;
