//! Answers, written at the end of bytes. Each function says too that what it writes fits.

ghost use Rattle.std.specs.Prelude.{◌≡◌, ◌++◌, OnOk};
ghost use Rattle.zdaemon.specs.pipe.Outputs.{OutputView, output};
ghost use Rattle.zdaemon.specs.pipe.Outputs.OutputView.{Chunk as OfChunk, End};

use crate::pipe::limits::MAX_PIECE;
use zalloc::Memory;
use zcodec::{put_flag, put_sized, put_u8, put_u32};
use zconnections::buffers::Chunk;

/// Writes a chunk. One of more than `MAX_PIECE` bytes takes no memory.
#[tactic(auto, unfolding(crate::specs::pipe::Outputs::output, crate::specs::pipe::Outputs::chunk))]
pub fn put_chunk(out: &mut Vec<u8>, chunk: &Chunk) -> Result<(), Memory>
    ensures text { OnOk result (out.new.items ≡ out.old.items ++ output.spell (OfChunk chunk.now)) }
    ensures fits { OnOk result (output.Fits (OfChunk chunk.now)) }
{
    if chunk.bytes.len() > MAX_PIECE as usize {
        return Err(Memory);
    }
    put_u8(out, 0)?;
    put_u32(out, chunk.connection)?;
    put_flag(out, chunk.is_last)?;
    put_sized(out, &chunk.bytes)?;
    Ok(())
}

/// Writes the end of an answer.
#[tactic(auto, unfolding(crate::specs::pipe::Outputs::output))]
pub fn put_end(out: &mut Vec<u8>) -> Result<(), Memory>
    ensures text { OnOk result (out.new.items ≡ out.old.items ++ output.spell End) }
    ensures fits { OnOk result (output.Fits End) }
{
    put_u8(out, 1)?;
    Ok(())
}
