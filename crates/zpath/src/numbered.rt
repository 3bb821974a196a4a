//! Appending a counter's digits to the last name of a path.

ghost use Rattle.std.specs.Prelude.{◌≡◌, ◌≤◌, ◌+◌, ◌++◌, ◌∷◌, [], ℕ};
ghost use Rattle.arrayvec.specs.ArrayString.{array_string_len};
ghost use Rattle.zpath.specs.Grammar.{IsPath};
ghost use Rattle.zpath.specs.Numbered.{digits, numbered_fault};
ghost use Rattle.zpath.specs.declared.limits.TheConstants.{COUNTER_DIGITS};

use crate::fault::PathFault;
use crate::limits::{COUNTER_DIGITS, MAX_NAME_LEN, MAX_TEXT_LEN};
use crate::name::Name;
use crate::scan;
use arrayvec::ArrayString;

/// Appends the last `width` decimal digits of a number, padded with leading zeros.
pub(crate) fn push_digits(text: &mut ArrayString<COUNTER_DIGITS>, width: usize, number: u64)
    requires { array_string_len text.old + width ≤ COUNTER_DIGITS }
    ensures { text.new.bytes ≡ text.old.bytes ++ digits width number }
{
    if width == 0 {
        return;
    }
    push_digits(text, width - 1, number / 10);
    text.push(char::from(b'0' + (number % 10) as u8));
}

/// Returns why a counter's digits can't be appended to this path, if there is a reason.
#[tactic(auto, unfolding(crate::specs::Numbered::numbered_fault))]
pub(crate) fn numbered_fault(front: &[Name], last: &Name) -> Option<PathFault>
    requires { IsPath (front.now ++ last.now ∷ []) }
    ensures { (counter : ℕ) → result ≡ numbered_fault (front.now ++ last.now ∷ []) counter }
{
    if last.as_str().len() + COUNTER_DIGITS > MAX_NAME_LEN {
        Some(PathFault::NameTooLong)
    } else if scan::child_len(front, last) + COUNTER_DIGITS > MAX_TEXT_LEN {
        Some(PathFault::PathTooLong)
    } else {
        None
    }
}
