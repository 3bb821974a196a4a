//! Sources and sinks of bytes, described by what they promise of each read and each write.
//!
//! This crate begins the wing "text and script", of programs that play a script of lines.
//! `zscript_text` parses lines and writes replies, `zscript` plays a script, and `zcommand` is the
//! program over it. Read `zscript` next.
//!
//! A `Source` and a `Sink` are described by relations between their states (specs/Device.antt).
//! `SliceSource` and `VecSink` are devices over memory. `ReaderSource` and `WriterSink` are over
//! any reader and writer of std.
#![tactic(auto)]

mod device;
mod memory;
mod stream;
mod writing;

pub use device::{DeviceFault, Sink, Source};
pub use memory::{SliceSource, VecSink};
pub use stream::{ReaderSource, WriterSink};
pub use writing::write_all;
