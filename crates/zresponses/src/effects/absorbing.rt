//! The effect of replies to calls.

ghost use Rattle.std.specs.Prelude.{◌≡◌, OnOk};
ghost use Rattle.zresponses.specs.effects.Replying.{absorbed, absorbed_all};

use std::alloc::Global;
use zalloc::Memory;
use zcalls::{Call, Reply};
use zconnections::Tables;
use zwatches::changes::events_of;

/// Sends the events of a call, and notes an ephemeral node that it made.
pub fn absorb(alloc: Global, tables: &mut Tables, call: &Call, reply: &Reply) -> Result<(), Memory>
    ensures { OnOk result (tables.new ≡ absorbed call.now reply.now tables.old) }
{
    let Call::Update(update) = call else {
        return Ok(());
    };
    tables.note(update, reply);
    let events = events_of(alloc, update, reply)?;
    tables.report_all(events.as_slice())
}

/// The same for calls in order, each with its reply.
pub(crate) fn absorb_all(
    alloc: Global,
    tables: &mut Tables,
    calls: &[Call],
    replies: &[Reply],
) -> Result<(), Memory>
    ensures { OnOk result (tables.new ≡ absorbed_all calls.now replies.now tables.old) }
{
    for place in 0..calls.len().min(replies.len()) {
        absorb(alloc, tables, &calls[place], &replies[place])?;
    }
    Ok(())
}
