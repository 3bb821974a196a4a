//! Sending answers.

ghost use Rattle.std.specs.Prelude.{◌≡◌, OnOk};
ghost use Rattle.zresponses.specs.effects.Replying.{replied};

use crate::Answer;
use crate::effects::frames::{answer_frame, ends_connection};
use std::alloc::Global;
use zalloc::Memory;
use zconnections::Tables;

/// Sends the answer to the request with this xid, under this zxid. A client whose identity is refused gets that
/// answer, and its connection is closed.
pub fn reply(
    alloc: Global,
    tables: &mut Tables,
    zxid: i64,
    connection: u32,
    xid: i32,
    answer: Answer,
) -> Result<(), Memory>
    ensures { OnOk result (tables.new ≡ replied zxid connection xid answer tables.old) }
{
    let is_last = ends_connection(answer.code);
    let frame = answer_frame(alloc, zxid, xid, answer)?;
    tables.send(connection, frame)?;
    if is_last {
        tables.close(connection)
    } else {
        Ok(())
    }
}
