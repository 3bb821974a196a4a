//! Setting a watch.

ghost use Rattle.std.specs.Prelude.{◌≡◌, true, false, IsOk, OnOk, OnErr, IfErr};
ghost use Rattle.std.specs.FinSet.{contains, insert, len};
ghost use Rattle.std.specs.Prelude.{◌+◌, ◌<◌, ◌^◌};
ghost use Rattle.zwatches.specs.Watches.{watch, is_full, IsSetFault};
ghost use Rattle.zwatches.specs.support.Nested.{AreFound};

use crate::by_connection::ByConnection;
use crate::counted::Counted;
use crate::fault::WatchFault;
use crate::kind::Kind;
use crate::limits::WatchLimits;
use crate::removal::tidy;
use crate::slot::Slot;
use zalloc::Memory;
use zpath::Path;

// Sets a watch, unless it is already set, or there are as many as a limit allows.
pub(crate) fn set_in(
    watches: &mut Counted,
    paths: &mut ByConnection,
    limits: WatchLimits,
    path: &Path,
    kind: Kind,
    connection: u32,
) -> Result<(), WatchFault>
    requires found { AreFound paths.old.paths.entries watches.old }
    ensures found { AreFound paths.new.paths.entries watches.new }
    ensures ok { OnOk result
        (watches.new ≡ insert watches.old (watch path.now kind connection)) }
    ensures err { OnErr result (watches.new ≡ watches.old) }
    ensures room { OnOk result
        (is_full limits watches.old (watch path.now kind connection) ≡ false) }
    ensures fault { IfErr result
        (IsSetFault (is_full limits watches.old (watch path.now kind connection))) }
    ensures again { contains watches.old (watch path.now kind connection) ≡ true → IsOk result }
{
    let slot = Slot { kind, connection };
    if watches.contains(path.names(), slot) {
        return Ok(());
    }
    if watches.count() >= limits.most || watches.share(connection) >= limits.each {
        return Err(WatchFault::Full);
    }
    let copy = path.clone()?;
    put(watches, paths, path, copy, slot)?;
    Ok(())
}

// Adds a watch that isn't there, and its path under its connection.
fn put(
    watches: &mut Counted,
    paths: &mut ByConnection,
    path: &Path,
    copy: Path,
    slot: Slot,
) -> Result<(), Memory>
    requires copied { copy ≡ path.now }
    requires absent { contains watches.old (watch path.now slot.kind slot.connection) ≡ false }
    requires room { len watches.old + 1 < 2 ^ 64 }
    requires found { AreFound paths.old.paths.entries watches.old }
    ensures found { AreFound paths.new.paths.entries watches.new }
    ensures ok { OnOk result
        (watches.new ≡ insert watches.old (watch path.now slot.kind slot.connection)) }
    ensures err { OnErr result (watches.new ≡ watches.old) }
{
    paths.add(slot.connection, copy)?;
    if watches.insert(path.names(), slot).is_err() {
        tidy(watches, paths, path, slot.connection);
        return Err(Memory);
    }
    Ok(())
}
