//! The numbers in requests on watches.

ghost use Rattle.std.specs.Prelude.{◌≡◌};
ghost use Rattle.zjute.specs.WatchNumbers as numbers;

use crate::watch_type::{AddMode, WatchType};

impl WatchType {
    /// Returns the type with this number, if there is one.
    pub fn of(number: i32) -> Option<WatchType>
        ensures { result ≡ numbers.type_of number }
    {
        match number {
            1 => Some(WatchType::Children),
            2 => Some(WatchType::Data),
            3 => Some(WatchType::Any),
            _ => None,
        }
    }
}

impl AddMode {
    /// Returns the mode with this number, if there is one.
    pub fn of(number: i32) -> Option<AddMode>
        ensures { result ≡ numbers.mode_of number }
    {
        match number {
            0 => Some(AddMode::Persistent),
            1 => Some(AddMode::Recursive),
            _ => None,
        }
    }
}
