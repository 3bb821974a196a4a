//! The stream of one connection.

use crate::buffers::phase::Phase;
use std::marker::Model;

/// The stream of one connection.
#[derive(Drop)]
pub struct Stream {
    /// The phase of the connection.
    pub phase: Phase,
    /// The bytes that form no whole frame yet.
    pub bytes: Vec<u8>,
}

impl Model for Stream {
    ghost use Rattle.zconnections.specs.buffers.Streams.{StreamView};
    ghost use Rattle.zconnections.specs.buffers.support.Codes.{coded_stream};

    ghost Value = { StreamView };

    ghost coded = { coded_stream };

    ghost view = { λ s. record { phase = s.phase; bytes = s.bytes.items } };
}
