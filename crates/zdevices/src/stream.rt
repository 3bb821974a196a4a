//! Devices over the readers and writers of std, such as a program's own input and output.
//!
//! The bytes that a reader has left, or that a writer holds, are std's `remaining` and `contents`
//! where these are known, as for a slice or a vector. For a terminal, a file or a pipe they aren't
//! known, and the relations then hold for all bytes. An interrupted read is a failure.
//!
//! # Why
//!
//! A `WriterSink` runs the same code over a vector and over standard output. For a vector its bytes
//! are known, so code that wrote other bytes would not be proved.

ghost use Rattle.std.specs.Prelude.{◌≡◌, ◌<◌, IsTrue, false, ◌^◌, ◌-◌};
ghost use Rattle.std.specs.Io.KnownBytes.{Consumes, Appends, IsAtEnd};
ghost use Rattle.zdevices.specs.Device.{Raises};
ghost use Rattle.zdevices.specs.support.DeviceLaws.{never_raises, raises_both, consumes_nothing, consumes_both, appends_nothing, appends_both};

use crate::device::{DeviceFault, Sink, Source};
use std::io::{Read, Write};
use std::marker::Model;

/// A source over any reader. After `u64::MAX` reads it fails, so that no reader can hold a player
/// forever.
#[derive(Drop)]
pub struct ReaderSource<R> {
    reader: R,
    budget: u64,
    has_failed: bool,
    reported_end: bool,
}

impl<R> Model for ReaderSource<R> {
    ghost use Rattle.zdevices.specs.DeviceViews.{ReaderSourceView};

    ghost Value = { ReaderSourceView R };

    ghost use Rattle.zdevices.specs.support.Seen.{reader_seen};

    ghost view = { reader_seen };
}

impl<R: Read> ReaderSource<R> {
    /// Returns a source over this reader.
    pub fn new(reader: R) -> ReaderSource<R>
        ensures reader { result.reader ≡ reader }
        ensures budget { result.budget ≡ 2 ^ 64 - 1 }
        ensures sound { result.has_failed ≡ false }
        ensures unreported { result.reported_end ≡ false }
    {
        ReaderSource {
            reader,
            budget: u64::MAX,
            has_failed: false,
            reported_end: false,
        }
    }
}

impl<R: Read> Source for ReaderSource<R> {
    ghost gave = { λ s bytes t. Consumes (R.remaining s.reader) (R.remaining t.reader) bytes };

    ghost failed = { λ s count t. Raises s.has_failed count t.has_failed };

    ghost has_ended = { λ s. IsTrue s.reported_end × IsAtEnd (R.remaining s.reader) };

    ghost reads_left = { λ s. s.budget };

    ghost reported = { λ _ _ _ _. Unit {0} };

    fn read(&mut self, buffer: &mut [u8]) -> Result<usize, DeviceFault> {
        if self.budget > 0
            && let Ok(count) = self.reader.read(buffer)
        {
            self.budget -= 1;
            self.reported_end = count == 0;
            return Ok(count);
        }
        self.has_failed = true;
        Err(DeviceFault)
    }

    ghost gave_nothing = { λ s. consumes_nothing (R.remaining s.reader) };

    ghost gave_both = { λ s t u. consumes_both R.remaining s.reader t.reader u.reader };

    ghost failed_never = { λ s. never_raises s.has_failed };

    ghost failed_both = { λ s t u. raises_both s.has_failed t.has_failed u.has_failed };
}

/// A sink over any writer. A write that takes no byte is a failure.
#[derive(Drop)]
pub struct WriterSink<W> {
    writer: W,
    has_failed: bool,
}

impl<W> Model for WriterSink<W> {
    ghost use Rattle.zdevices.specs.DeviceViews.{WriterSinkView};

    ghost Value = { WriterSinkView W };

    ghost view = { λ s. record { writer = s.writer; has_failed = s.has_failed } };
}

impl<W: Write> WriterSink<W> {
    /// Returns a sink over this writer.
    pub fn new(writer: W) -> WriterSink<W>
        ensures writer { result.writer ≡ writer }
        ensures sound { result.has_failed ≡ false }
    {
        WriterSink {
            writer,
            has_failed: false,
        }
    }
}

impl<W: Write> Sink for WriterSink<W> {
    ghost took = { λ s bytes t. Appends (W.contents s.writer) (W.contents t.writer) bytes };

    ghost failed = { λ s count t. Raises s.has_failed count t.has_failed };

    ghost reported = { λ _ _ _ _. Unit {0} };

    fn write(&mut self, bytes: &[u8]) -> Result<usize, DeviceFault> {
        if let Ok(count) = self.writer.write(bytes)
            && count > 0
        {
            return Ok(count);
        }
        self.has_failed = true;
        Err(DeviceFault)
    }

    ghost took_nothing = { λ s. appends_nothing (W.contents s.writer) };

    ghost took_both = { λ s t u. appends_both W.contents s.writer t.writer u.writer };

    ghost failed_never = { λ s. never_raises s.has_failed };

    ghost failed_both = { λ s t u. raises_both s.has_failed t.has_failed u.has_failed };
}
