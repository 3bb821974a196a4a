//! The steps that change a file. Each is durable before the next one begins.
//!
//! # Why
//! A checksum alone would need the premise that no torn block has its own checksum by chance. So a
//! commit byte decides whether a block counts. It takes a second sync: with one for both, the disk
//! could make the commit byte durable first.

ghost use Rattle.std.specs.Prelude.{◌≡◌, ◌<◌, ◌≤◌, ◌^◌, ◌+◌, ◌++◌, [], ◌∷◌, length};
ghost use Rattle.std.specs.Prelude.{take, drop, OnOk, IsErrOf};
ghost use Rattle.zjournal.specs.Device.{Cut, Holds, LeavesOnly, Only, Torn};
ghost use Rattle.zjournal.specs.CommitBytes.{IsAdding, IsClosing, IsOpening};

use crate::{Device, DeviceError};

// Cuts the file, and makes the cut durable.
fn cut_synced<D: Device>(device: &mut D, len: usize) -> Result<(), DeviceError>
    requires within { len ≤ length (D.seen device.old) }
    requires durable { Only (D.seen device.old) (D.may_leave device.old) }
    ensures cut { OnOk result (D.seen device.new ≡ take len (D.seen device.old)) }
    ensures durable { OnOk result (Only (D.seen device.new) (D.may_leave device.new)) }
    ensures any_moment { LeavesOnly D.moment D.left_since device.old device.new
        (Cut len (D.seen device.old)) }
    ensures failed { IsErrOf result DeviceError.Failed
        → D.faults device.old < D.faults device.new }
    ensures faults { D.faults device.old ≤ D.faults device.new }
{
    device.cut(len)?;
    device.sync()?; // now the cut is on the disk
    Ok(())
}

/// Writes bytes, and makes them durable.
pub fn write_synced<D: Device>(device: &mut D, at: usize, bytes: &[u8]) -> Result<(), DeviceError>
    requires within { at ≤ length (D.seen device.old) }
    requires durable { Only (D.seen device.old) (D.may_leave device.old) }
    ensures written { OnOk result (Holds (D.seen device.old) at bytes.now (D.seen device.new)) }
    ensures durable { OnOk result (Only (D.seen device.new) (D.may_leave device.new)) }
    ensures any_moment { LeavesOnly D.moment D.left_since device.old device.new
        (Torn at (length bytes.now) (D.seen device.old)) }
    ensures failed { IsErrOf result DeviceError.Failed
        → D.faults device.old < D.faults device.new }
    ensures faults { D.faults device.old ≤ D.faults device.new }
{
    device.write_at(at, bytes)?;
    device.sync()?; // now the bytes are on the disk
    Ok(())
}

/// Cuts the file, and writes a clear commit byte after what remains.
pub fn close<D: Device>(device: &mut D, end: usize) -> Result<(), DeviceError>
    requires within { end ≤ length (D.seen device.old) }
    requires durable { Only (D.seen device.old) (D.may_leave device.old) }
    ensures closed { OnOk result (D.seen device.new ≡ take end (D.seen device.old) ++ 0 ∷ []) }
    ensures durable { OnOk result (Only (D.seen device.new) (D.may_leave device.new)) }
    ensures any_moment { LeavesOnly D.moment D.left_since device.old device.new
        (IsClosing (D.seen device.old) end) }
    ensures failed { IsErrOf result DeviceError.Failed
        → D.faults device.old < D.faults device.new }
    ensures faults { D.faults device.old ≤ D.faults device.new }
{
    // The cut must be durable first: old bytes after a commit byte that tears to 1 would count.
    cut_synced(device, end)?;
    write_synced(device, end, &[0])?;
    Ok(())
}

/// Closes a file that has these bytes, unless a clear commit byte ends it there already: then
/// nothing is written.
pub fn close_if_open<D: Device>(device: &mut D, bytes: &[u8], end: usize) -> Result<(), DeviceError>
    requires within { end ≤ length (D.seen device.old) }
    requires bytes { bytes.now ≡ D.seen device.old }
    requires durable { Only (D.seen device.old) (D.may_leave device.old) }
    ensures closed { OnOk result (D.seen device.new ≡ take end (D.seen device.old) ++ 0 ∷ []) }
    ensures durable { OnOk result (Only (D.seen device.new) (D.may_leave device.new)) }
    ensures any_moment { LeavesOnly D.moment D.left_since device.old device.new
        (IsClosing (D.seen device.old) end) }
    ensures failed { IsErrOf result DeviceError.Failed
        → D.faults device.old < D.faults device.new }
{
    if &bytes[end..] == [0].as_slice() {
        return Ok(());
    }
    close(device, end)
}

/// Sets the commit byte at this index: from then on the block after it counts.
pub fn set_commit_byte<D: Device>(device: &mut D, commit_byte: usize) -> Result<(), DeviceError>
    requires within { commit_byte < length (D.seen device.old) }
    requires durable { Only (D.seen device.old) (D.may_leave device.old) }
    ensures open { OnOk result (D.seen device.new
        ≡ take commit_byte (D.seen device.old) ++ 1 ∷ drop (commit_byte + 1) (D.seen device.old)) }
    ensures durable { OnOk result (Only (D.seen device.new) (D.may_leave device.new)) }
    ensures any_moment { LeavesOnly D.moment D.left_since device.old device.new
        (IsOpening (take commit_byte (D.seen device.old)) (drop (commit_byte + 1) (D.seen device.old))) }
    ensures failed { IsErrOf result DeviceError.Failed
        → D.faults device.old < D.faults device.new }
    ensures faults { D.faults device.old ≤ D.faults device.new }
{
    write_synced(device, commit_byte, &[1])?;
    Ok(())
}

/// Writes a block after the clear commit byte at the end of the file, and sets that byte.
pub fn add_block<D: Device>(
    device: &mut D,
    commit_byte: usize,
    block: &[u8],
) -> Result<(), DeviceError>
    requires closed { drop commit_byte (D.seen device.old) ≡ 0 ∷ [] }
    requires small { commit_byte < 2 ^ 60 }
    requires durable { Only (D.seen device.old) (D.may_leave device.old) }
    ensures added { OnOk result (D.seen device.new
        ≡ take commit_byte (D.seen device.old) ++ 1 ∷ block.now) }
    ensures durable { OnOk result (Only (D.seen device.new) (D.may_leave device.new)) }
    ensures any_moment { LeavesOnly D.moment D.left_since device.old device.new
        (IsAdding (take commit_byte (D.seen device.old)) block.now) }
    ensures failed { IsErrOf result DeviceError.Failed
        → D.faults device.old < D.faults device.new }
    ensures faults { D.faults device.old ≤ D.faults device.new }
{
    write_synced(device, commit_byte + 1, block)?;
    set_commit_byte(device, commit_byte)?;
    Ok(())
}
