//! Devices over memory, for tests and for callers that hold their script.
//!
//! Both are exact: what was given is what is no longer left, and what was taken is what is held.

ghost use Rattle.std.specs.Prelude.{◌≡◌, ◌<◌, ◌+◌, List, [], ◌++◌, length, refl, IsTrue, true, false, Some, None};
ghost use Rattle.zdevices.specs.Device.{Raises};
ghost use Rattle.zdevices.specs.DeviceViews.{is_due, after_call, IsSliceRead, IsVecWrite};
ghost use Rattle.zdevices.specs.support.DeviceLaws.{never_raises, raises_both, left_after_both, held_after_both};
ghost use Rattle.std.proofs.Common.{sym};
ghost use Rattle.std.proofs.lemmas.List.{append-nil};

use crate::device::{DeviceFault, Sink, Source};
use std::alloc::Global;
use std::marker::Model;

// Fails once, after this many calls.
#[derive(Clone, Copy)]
struct Failure {
    calls_left: Option<u64>,
}

impl Failure {
    // Counts one call down; returns whether this is the one that fails.
    fn comes(&mut self) -> bool
        ensures due { result ≡ is_due self.old.calls_left }
        ensures counted { self.new.calls_left ≡ after_call self.old.calls_left }
    {
        match self.calls_left {
            None => false,
            Some(0) => {
                self.calls_left = None;
                true
            }
            Some(count) => {
                self.calls_left = Some(count - 1);
                false
            }
        }
    }
}

/// A source that gives the bytes of a slice.
#[derive(Drop)]
pub struct SliceSource<'a> {
    left: &'a [u8],
    at_most: usize,
    failure: Failure,
    has_failed: bool,
    reported_end: bool,
}

impl<'a> Model for SliceSource<'a> {
    ghost use Rattle.std.specs.Prelude.{◌<◌};
    ghost use Rattle.zdevices.specs.DeviceViews.{SliceSourceView};

    ghost Value = { SliceSourceView };

    ghost use Rattle.zdevices.specs.support.Seen.{source_seen};

    ghost view = { source_seen };

    ghost invariant = { λ s. 0 < s.at_most };
}

impl<'a> SliceSource<'a> {
    /// Returns a source of these bytes, at most `at_most` of them at a read.
    pub fn new(left: &'a [u8], at_most: usize) -> SliceSource<'a>
        requires { 0 < at_most }
        ensures left { result.left ≡ left.entry.now }
        ensures at_most { result.at_most ≡ at_most }
        ensures failure { result.fails_after ≡ None }
        ensures sound { result.has_failed ≡ false }
        ensures unreported { result.reported_end ≡ false }
    {
        SliceSource {
            left,
            at_most,
            failure: Failure { calls_left: None },
            has_failed: false,
            reported_end: false,
        }
    }

    /// Returns the same source, except that the read after this many reads fails.
    pub fn failing_after(self, reads: u64) -> SliceSource<'a>
        ensures { result ≡ record self.entry { fails_after = Some reads } }
    {
        SliceSource {
            left: self.left,
            at_most: self.at_most,
            failure: Failure {
                calls_left: Some(reads),
            },
            has_failed: self.has_failed,
            reported_end: self.reported_end,
        }
    }
}

impl Source for SliceSource<'_> {
    ghost gave = { λ s bytes t. s.left ≡ bytes ++ t.left };

    ghost failed = { λ s count t. Raises s.has_failed count t.has_failed };

    ghost has_ended = { λ s. IsTrue s.reported_end × (s.left ≡ []) };

    ghost reads_left = { λ s. length s.left };

    ghost reported = { λ s room answer t. IsSliceRead s room answer t };

    fn read(&mut self, buffer: &mut [u8]) -> Result<usize, DeviceFault> {
        if self.failure.comes() {
            self.has_failed = true;
            return Err(DeviceFault);
        }
        let count = self.left.len().min(buffer.len()).min(self.at_most);
        let (front, rest) = self.left.split_at(count);
        buffer[..count].copy_from_slice(front);
        self.left = rest;
        self.reported_end = count == 0;
        Ok(count)
    }

    ghost gave_nothing = { λ s. refl };

    ghost gave_both = { λ s t u. left_after_both s.left t.left u.left };

    ghost failed_never = { λ s. never_raises s.has_failed };

    ghost failed_both = { λ s t u. raises_both s.has_failed t.has_failed u.has_failed };
}

/// A sink that appends to a vector, and fails where memory runs out.
#[derive(Drop)]
pub struct VecSink {
    bytes: Vec<u8>,
    at_most: usize,
    failure: Failure,
    has_failed: bool,
}

impl Model for VecSink {
    ghost use Rattle.std.specs.Prelude.{◌<◌};
    ghost use Rattle.zdevices.specs.DeviceViews.{VecSinkView};

    ghost Value = { VecSinkView };

    ghost use Rattle.zdevices.specs.support.Seen.{sink_seen};

    ghost view = { sink_seen };

    ghost invariant = { λ s. 0 < s.at_most };
}

impl VecSink {
    /// Returns an empty sink, which takes at most `at_most` bytes at a write.
    pub fn new(alloc: Global, at_most: usize) -> VecSink
        requires { 0 < at_most }
        ensures held { result.held ≡ [] }
        ensures at_most { result.at_most ≡ at_most }
        ensures failure { result.fails_after ≡ None }
        ensures sound { result.has_failed ≡ false }
    {
        VecSink {
            bytes: Vec::new(alloc),
            at_most,
            failure: Failure { calls_left: None },
            has_failed: false,
        }
    }

    /// Returns the same sink, except that the write after this many writes fails.
    pub fn failing_after(mut self, writes: u64) -> VecSink
        ensures { result ≡ record self { fails_after = Some writes } }
    {
        self.failure.calls_left = Some(writes);
        self
    }

    /// Returns the bytes that it holds.
    pub fn bytes(&self) -> &[u8]
        ensures { result.now ≡ self.now.held }
    {
        &self.bytes
    }
}

impl Sink for VecSink {
    ghost took = { λ s bytes t. t.held ≡ s.held ++ bytes };

    ghost failed = { λ s count t. Raises s.has_failed count t.has_failed };

    ghost reported = { λ s len answer t. IsVecWrite s len answer t };

    fn write(&mut self, bytes: &[u8]) -> Result<usize, DeviceFault> {
        let count = bytes.len().min(self.at_most);
        if self.failure.comes() || self.bytes.extend_from_slice(&bytes[..count]).is_err() {
            self.has_failed = true;
            return Err(DeviceFault);
        }
        Ok(count)
    }

    ghost took_nothing = { λ s. sym (append-nil s.held) };

    ghost took_both = { λ s t u. held_after_both s.held t.held u.held };

    ghost failed_never = { λ s. never_raises s.has_failed };

    ghost failed_both = { λ s t u. raises_both s.has_failed t.has_failed u.has_failed };
}
