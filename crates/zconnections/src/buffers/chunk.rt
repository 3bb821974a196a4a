//! A chunk to be sent.

use std::marker::Model;

/// A chunk: bytes to be sent on a connection.
#[derive(Drop)]
pub struct Chunk {
    /// The connection's number.
    pub connection: u32,
    /// The bytes.
    pub bytes: Vec<u8>,
    /// Whether the connection is closed after these bytes.
    pub is_last: bool,
}

impl Model for Chunk {
    ghost use Rattle.zconnections.specs.buffers.Outbox.{ChunkView};
    ghost use Rattle.zconnections.specs.buffers.support.Codes.{coded_chunk};

    ghost Value = { ChunkView };

    ghost coded = { coded_chunk };

    ghost view = { λ p. record {
      connection = p.connection;
      bytes = p.bytes.items;
      is_last = p.is_last;
    } };
}
