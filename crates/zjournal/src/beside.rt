//! The steps that write a new file beside the old one, and replace the old one with it.

ghost use Rattle.std.specs.Prelude.{◌≡◌, ◌<◌, ◌≤◌, ◌++◌, [], ◌∷◌, List, ℕ, length};
ghost use Rattle.std.specs.Prelude.{OnOk, IsErrOf};
ghost use Rattle.zjournal.specs.Blocks.{blocks};
ghost use Rattle.zjournal.specs.Device.{LeavesOnly, Only};
ghost use Rattle.zjournal.specs.Journal.{head};
ghost use Rattle.zjournal.specs.Untouched.{IsTaking, IsUntouched};

use crate::head::head_block;
use crate::{Device, DeviceError};

// Begins a new, empty file.
fn begin<D: Device>(device: &mut D) -> Result<(), DeviceError>
    requires durable { Only (D.seen device.old) (D.may_leave device.old) }
    ensures begun { OnOk result (D.beside device.new ≡ []) }
    ensures untouched { IsUntouched D.seen D.may_leave D.moment D.left_since
        device.old device.new }
    ensures failed { IsErrOf result DeviceError.Failed
        → D.faults device.old < D.faults device.new }
    ensures faults { D.faults device.old ≤ D.faults device.new }
{
    device.begin_beside()
}

// Appends bytes to the new file.
fn add<D: Device>(device: &mut D, bytes: &[u8]) -> Result<(), DeviceError>
    requires durable { Only (D.seen device.old) (D.may_leave device.old) }
    ensures added { OnOk result (D.beside device.new ≡ D.beside device.old ++ bytes.now) }
    ensures untouched { IsUntouched D.seen D.may_leave D.moment D.left_since
        device.old device.new }
    ensures failed { IsErrOf result DeviceError.Failed
        → D.faults device.old < D.faults device.new }
    ensures faults { D.faults device.old ≤ D.faults device.new }
{
    device.add_beside(bytes)
}

/// Appends a set commit byte and a block to the new file. The clear commit byte after the block
/// comes later.
pub fn add_open_block<D: Device>(device: &mut D, block: &[u8]) -> Result<(), DeviceError>
    requires some { 0 < length block.now }
    requires durable { Only (D.seen device.old) (D.may_leave device.old) }
    ensures added { (held : List ℕ) → block.now ≡ held ++ 0 ∷ 0 ∷ []
        → OnOk result (D.beside device.new ≡ D.beside device.old ++ 1 ∷ (held ++ 0 ∷ [])) }
    ensures untouched { IsUntouched D.seen D.may_leave D.moment D.left_since
        device.old device.new }
    ensures failed { IsErrOf result DeviceError.Failed
        → D.faults device.old < D.faults device.new }
    ensures faults { D.faults device.old ≤ D.faults device.new }
{
    add(device, &[1])?;
    add(device, &block[..block.len() - 1])?;
    Ok(())
}

/// Begins a new file, and writes its head. The first checksum of the file continues from `start`.
pub fn begin_file<D: Device>(device: &mut D, start: u32, servers: u8) -> Result<(), DeviceError>
    requires durable { Only (D.seen device.old) (D.may_leave device.old) }
    ensures begun { OnOk result (D.beside device.new ≡ blocks (head start servers ∷ [])) }
    ensures untouched { IsUntouched D.seen D.may_leave D.moment D.left_since
        device.old device.new }
    ensures failed { IsErrOf result DeviceError.Failed
        → D.faults device.old < D.faults device.new }
    ensures faults { D.faults device.old ≤ D.faults device.new }
{
    begin(device)?;
    add_open_block(device, &head_block(start, servers))?;
    Ok(())
}

/// Appends a clear commit byte to the new file, and replaces the old file with it.
pub fn close_and_take<D: Device>(device: &mut D) -> Result<(), DeviceError>
    requires durable { Only (D.seen device.old) (D.may_leave device.old) }
    ensures taken { OnOk result (D.seen device.new ≡ D.beside device.old ++ 0 ∷ []) }
    ensures durable { OnOk result (Only (D.seen device.new) (D.may_leave device.new)) }
    ensures any_moment { LeavesOnly D.moment D.left_since device.old device.new
        (IsTaking (D.seen device.old) (D.beside device.old)) }
    ensures failed { IsErrOf result DeviceError.Failed
        → D.faults device.old < D.faults device.new }
    ensures faults { D.faults device.old ≤ D.faults device.new }
{
    add(device, &[0])?;
    device.take_place()?;
    Ok(())
}
