//! A file as a journal sees it: what a read returns, and what a crash may leave.

ghost use Rattle.std.specs.Prelude.{◌≡◌, ◌≤◌, ◌++◌, [], ◌∷◌, Bool, List, ℕ, length, take, IfOk, OnOk};
ghost use Rattle.zjournal.specs.declared.device.DeviceError.TheVariants.{Memory};
ghost use Rattle.zjournal.specs.Device.{Only, Follows, Torn, Cut, Holds, Elapses, HasCause};
ghost use Rattle.zjournal.specs.Device.{IsEither};

use std::alloc::{AllocError, AllocFailed, Global};
use thiserror::Error;

/// Why a device call failed.
#[derive(Clone, Copy, Debug, PartialEq, Eq, Error)]
pub enum DeviceError {
    /// Out of memory.
    #[error("out of memory")]
    Memory,
    /// The disk failed. What was in flight may be done, in part or whole.
    #[error("the disk failed")]
    Failed,
}

impl From<AllocError> for DeviceError {
    ghost from_gives = { λ _ e. e ≡ Memory };

    fn from(_: AllocError) -> Self {
        DeviceError::Memory
    }
}

impl<T: Drop> From<AllocFailed<T>> for DeviceError {
    ghost from_gives = { λ _ e. e ≡ Memory };

    fn from(_: AllocFailed<T>) -> Self {
        DeviceError::Memory
    }
}

/// One file on a disk, which may have parts, and a new one beside it that may replace it.
pub trait Device {
    /// The bytes that a read returns.
    ghost seen: { Self → List ℕ };

    /// What a crash at this moment may leave.
    ghost may_leave: { Self → List ℕ → Type 0 };

    /// The moment, as a number that never decreases.
    ghost moment: { Self → ℕ };

    /// What a crash at that moment or a later one might have left, in a call or between two.
    ghost left_since: { Self → ℕ → List ℕ → Type 0 };

    /// How often the disk has failed.
    ghost faults: { Self → ℕ };

    /// The content so far of the new file beside this one; nothing if none was begun.
    ghost beside: { Self → List ℕ };

    /// Whether a sync waits for the disk. No call changes it.
    ghost asks_disk: { Self → Bool };

    /// Reads all bytes of the file.
    fn read(&mut self, alloc: Global) -> Result<Vec<u8>, DeviceError>
        ensures bytes { IfOk result (λ bytes. bytes.items ≡ seen self.old) }
        ensures seen { seen self.new ≡ seen self.old }
        ensures crash { (c : List ℕ) → may_leave self.new c → may_leave self.old c }
        ensures time { Elapses (moment self.old) (moment self.new)
            (left_since self.old) (left_since self.new) (may_leave self.new) }
        ensures cause { HasCause (faults self.old) (faults self.new) result }
        ensures same { asks_disk self.new ≡ asks_disk self.old };

    /// Writes bytes at this offset, over what is there and on past the end.
    fn write_at(&mut self, at: usize, bytes: &[u8]) -> Result<(), DeviceError>
        requires { at ≤ length (seen self.old) }
        ensures written { OnOk result (Holds (seen self.old) at bytes.now (seen self.new)) }
        ensures crash { Follows (Torn at (length bytes.now))
            (may_leave self.old) (may_leave self.new) }
        ensures time { Elapses (moment self.old) (moment self.new)
            (left_since self.old) (left_since self.new) (may_leave self.new) }
        ensures cause { HasCause (faults self.old) (faults self.new) result }
        ensures same { asks_disk self.new ≡ asks_disk self.old };

    /// Cuts the file to a length.
    fn cut(&mut self, len: usize) -> Result<(), DeviceError>
        requires { len ≤ length (seen self.old) }
        ensures cut { OnOk result (seen self.new ≡ take len (seen self.old)) }
        ensures crash { Follows (Cut len) (may_leave self.old) (may_leave self.new) }
        ensures time { Elapses (moment self.old) (moment self.new)
            (left_since self.old) (left_since self.new) (may_leave self.new) }
        ensures cause { HasCause (faults self.old) (faults self.new) result }
        ensures same { asks_disk self.new ≡ asks_disk self.old };

    /// Makes the file durable: from then on a crash leaves what a read returns.
    fn sync(&mut self) -> Result<(), DeviceError>
        ensures durable { OnOk result (Only (seen self.old) (may_leave self.new)) }
        ensures seen { seen self.new ≡ seen self.old }
        ensures crash { (c : List ℕ) → may_leave self.new c → may_leave self.old c }
        ensures time { Elapses (moment self.old) (moment self.new)
            (left_since self.old) (left_since self.new) (may_leave self.new) }
        ensures cause { HasCause (faults self.old) (faults self.new) result }
        ensures same { asks_disk self.new ≡ asks_disk self.old };

    /// Begins a new, empty file beside this one. It replaces an unfinished one. If it isn't begun,
    /// this file is as it was.
    fn begin_beside(&mut self) -> Result<(), DeviceError>
        ensures begun { OnOk result (beside self.new ≡ []) }
        ensures seen { seen self.new ≡ seen self.old }
        ensures crash { (c : List ℕ) → may_leave self.new c → may_leave self.old c }
        ensures time { Elapses (moment self.old) (moment self.new)
            (left_since self.old) (left_since self.new) (may_leave self.new) }
        ensures cause { HasCause (faults self.old) (faults self.new) result }
        ensures same { asks_disk self.new ≡ asks_disk self.old };

    /// Appends bytes to the new file. If they aren't written, this file is as it was.
    fn add_beside(&mut self, bytes: &[u8]) -> Result<(), DeviceError>
        ensures added { OnOk result (beside self.new ≡ beside self.old ++ bytes.now) }
        ensures seen { seen self.new ≡ seen self.old }
        ensures crash { (c : List ℕ) → may_leave self.new c → may_leave self.old c }
        ensures time { Elapses (moment self.old) (moment self.new)
            (left_since self.old) (left_since self.new) (may_leave self.new) }
        ensures cause { HasCause (faults self.old) (faults self.new) result }
        ensures same { asks_disk self.new ≡ asks_disk self.old };

    /// Replaces this file with the new one, in three steps. The new file is synced; it takes the
    /// name; the name is made durable.
    fn take_place(&mut self) -> Result<(), DeviceError>
        ensures taken { OnOk result (seen self.new ≡ beside self.old) }
        ensures durable { OnOk result (Only (beside self.old) (may_leave self.new)) }
        ensures crash { (c : List ℕ) → may_leave self.new c
            → IsEither (may_leave self.old) (beside self.old) c }
        ensures time { Elapses (moment self.old) (moment self.new)
            (left_since self.old) (left_since self.new) (may_leave self.new) }
        ensures cause { HasCause (faults self.old) (faults self.new) result }
        ensures same { asks_disk self.new ≡ asks_disk self.old };

    /// Begins a new part of the file. What it holds is unchanged, and from now on it grows there. If
    /// the part isn't begun, it grows where it did.
    fn split(&mut self) -> Result<(), DeviceError>
        requires ends { (front : List ℕ) × (seen self.old ≡ front ++ 0 ∷ []) }
        requires durable { Only (seen self.old) (may_leave self.old) }
        ensures seen { seen self.new ≡ seen self.old }
        ensures crash { (c : List ℕ) → may_leave self.new c → may_leave self.old c }
        ensures time { Elapses (moment self.old) (moment self.new)
            (left_since self.old) (left_since self.new) (may_leave self.new) }
        ensures cause { HasCause (faults self.old) (faults self.new) result }
        ensures same { asks_disk self.new ≡ asks_disk self.old };

    /// This moment is one of those since an earlier one.
    ghost counts_now: { (file : Self) (t : ℕ) (c : List ℕ)
        → t ≤ moment file → may_leave file c → left_since file t c };

    /// There is no later moment than this one.
    ghost only_now: { (file : Self) (c : List ℕ)
        → left_since file (moment file) c → may_leave file c };
}
