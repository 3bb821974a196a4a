//! Events as frames.

ghost use Rattle.std.specs.Prelude.{◌≡◌, ◌≤◌, length, IfOk};
ghost use Rattle.zpath.specs.Grammar.{text_of};
ghost use Rattle.zpath.specs.declared.limits.TheConstants.{MAX_TEXT_LEN};
ghost use Rattle.zconnections.specs.Reporting as table;

use std::alloc::Global;
use zalloc::Memory;
use zjute::{Bytes, KeeperState, WatcherEvent, WriteError, write_event};
use zpath::Path;
use zwatches::changes::Event;

// Returns an event as a frame.
pub(crate) fn event_frame(alloc: Global, event: &Event) -> Result<Vec<u8>, Memory>
    ensures { IfOk result (λ bytes. bytes.items ≡ table.event_frame event.now) }
{
    let reported = event_reported(alloc, event)?;
    match write_event(alloc, -1, &reported) {
        Ok(bytes) => Ok(bytes),
        Err(WriteError::Memory) => Err(Memory),
        // The text of a path is short.
        Err(WriteError::TooLong) => unreachable!(),
    }
}

// Returns an event as a client receives it.
fn event_reported(alloc: Global, event: &Event) -> Result<WatcherEvent, Memory>
    ensures reported { IfOk result (λ reported. reported ≡ table.event_reported event.now) }
    ensures short { IfOk result (λ reported. length reported.path ≤ MAX_TEXT_LEN) }
{
    Ok(WatcherEvent {
        kind: event.kind,
        state: KeeperState::SyncConnected,
        path: path_reported(alloc, &event.path)?,
    })
}

// Returns the text of a path.
fn path_reported(alloc: Global, path: &Path) -> Result<Bytes, Memory>
    ensures reported { IfOk result (λ reported. reported ≡ text_of path.now) }
    ensures short { IfOk result (λ reported. length reported ≤ MAX_TEXT_LEN) }
{
    // The text of a path is short.
    path.keeps_its_form();
    let text = path.to_string(alloc)?;
    let reported = Bytes::copied(alloc, text.as_bytes())?;
    Ok(reported)
}
