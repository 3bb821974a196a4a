//! Worked examples of the definitions. The functions do nothing.

ghost use Rattle.std.specs.Prelude.{◌≡◌, ℕ, [], ◌∷◌, None, Some};
ghost use Rattle.zconnections.specs.declared.buffers.phase.Phase.TheVariants.{Closing, Silent, Speaking};
ghost use Rattle.zconnections.specs.declared.buffers.chunk.Chunk.{Chunk};
ghost use Rattle.zconnections.specs.buffers.Outbox.{first_of, without};
ghost use Rattle.zconnections.specs.buffers.Streams.{bytes_of, closed, held_of, opened, phase_of};
ghost use Rattle.zconnections.specs.buffers.Streams.{with_bytes, with_phase};
ghost use Rattle.zconnections.specs.buffers.support.Samples.{silent, streams, streams_with};

/// Connection 3 has session 7, and two bytes arrived on it. Nothing was read on connection 5.
pub fn streams_are_read()
    ensures speaking { phase_of streams 3 ≡ Some (Speaking 7) }
    ensures silent { phase_of streams 5 ≡ Some Silent }
    ensures absent { phase_of streams 4 ≡ None }
    ensures bytes { bytes_of streams 3 ≡ 1 ∷ 2 ∷ [] }
    ensures none { bytes_of streams 5 ≡ [] }
    ensures no_stream { bytes_of streams 4 ≡ [] }
    ensures held { held_of streams ≡ 2 }
{}

/// One stream is changed, and the others remain. A connection without a stream gets none.
pub fn streams_are_changed()
    ensures opened { opened ≡ silent }
    ensures phase { with_phase streams 3 Closing ≡ streams_with Closing (1 ∷ 2 ∷ []) }
    ensures bytes { with_bytes streams 3 (2 ∷ []) ≡ streams_with (Speaking 7) (2 ∷ []) }
    ensures closed { closed streams 3 ≡ streams_with Closing [] }
    ensures no_phase { with_phase streams 4 Closing ≡ streams }
    ensures no_bytes { with_bytes streams 4 (2 ∷ []) ≡ streams }
    ensures not_closed { closed streams 4 ≡ streams }
{}

/// Chunks for connections 3 and 5 are to be sent.
pub fn chunks_in_order()
    ensures first { (p q : Chunk) → first_of (p ∷ q ∷ []) ≡ Some p }
    ensures none { first_of [] ≡ None }
    ensures without { (p q : Chunk) → p.connection ≡ 3 → q.connection ≡ 5
        → without (p ∷ q ∷ p ∷ []) 3 ≡ q ∷ [] }
{}
