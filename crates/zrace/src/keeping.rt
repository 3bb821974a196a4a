//! Appending one value.

ghost use Rattle.zrace.specs.Cached.{IsKeptBehind};

/// Appends one value. Returns false out of memory: the value is then dropped.
pub(crate) fn keep<X: Drop>(all: &mut Vec<X>, one: X) -> bool
    ensures { IsKeptBehind all.old.items all.new.items one }
{
    match all.push(one) {
        Ok(()) => true,
        Err(refused) => {
            drop(refused);
            false
        }
    }
}
