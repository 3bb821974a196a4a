//! The fast path from a text to its names: one pass over the bytes finds the names' lengths, then
//! the names are cut out. Most texts take it. Any other text goes through the tests in `scan`.
//!
//! # Why
//! The tests in `scan` take one pass for each fault, which only a text with a fault needs. Both
//! paths satisfy one contract.

ghost use Rattle.std.specs.Prelude.{◌≡◌, ◌∷◌, [], ◌+◌, ◌-◌, ◌≤◌, length, take, drop, true, None, IfOk, IfSome};
ghost use Rattle.std.specs.Bool.{OnTrue};
ghost use Rattle.std.specs.List.{AllByRecursion};
ghost use Rattle.std.specs.Str.{IsAscii};
ghost use Rattle.zpath.specs.Grammar.{IsName};
ghost use Rattle.zpath.specs.Faults.{parts_of, names_of, fault_of};
ghost use Rattle.zpath.specs.support.Lists.{items_of};
ghost use Rattle.zpath.specs.support.Plain.{has_plain_names, lens_of, cut_by, FitInto};
ghost use Rattle.zpath.specs.declared.limits.TheConstants.{MAX_DEPTH};

use crate::limits::{MAX_DEPTH, MAX_NAME_LEN};
use crate::list::NameList;
use crate::name::Name;
use arrayvec::ArrayVec;
use std::alloc::Global;
use zalloc::Memory;

// Whether every name is plain: not empty, not too long, without a bad byte and without a leading
// dot. There may be at most `MAX_DEPTH` names. Pushes their lengths onto `lens`.
fn has_plain_names(rest: &str, lens: &mut ArrayVec<u8, MAX_DEPTH>) -> bool
    requires { lens.old.items ≡ [] }
    ensures plain { OnTrue result (has_plain_names (MAX_DEPTH - 1) true rest.now ≡ true) }
    ensures lens { OnTrue result (lens.new.items ≡ lens_of 0 rest.now) }
{
    let mut len: u8 = 0;
    for &byte in rest.as_bytes() {
        if byte == b'/' {
            if len == 0 || lens.len() == MAX_DEPTH - 1 {
                return false;
            }
            lens.push(len);
            len = 0;
        } else {
            if !(0x21..=0x7e).contains(&byte) || len == 0 && byte == b'.' || len == 255 {
                return false;
            }
            len += 1;
        }
    }
    if len == 0 {
        return false;
    }
    lens.push(len);
    true
}

/// Returns what follows the first slash, if all the names are plain. Pushes their lengths onto
/// `lens`.
pub(crate) fn plain_rest<'a>(text: &'a str, lens: &mut ArrayVec<u8, MAX_DEPTH>) -> Option<&'a str>
    requires { lens.old.items ≡ [] }
    ensures text { IfSome result (λ rest. text.now ≡ 47 ∷ rest.now) }
    ensures names { IfSome result (λ rest. names_of text.now ≡ parts_of rest.now) }
    ensures fault { IfSome result (λ rest. fault_of text.now ≡ None) }
    ensures lens { IfSome result (λ rest. lens.new.items ≡ lens_of 0 rest.now) }
{
    let rest = text.strip_prefix('/')?;
    // The first name may be the reserved one; `scan` decides.
    if text.len() > MAX_NAME_LEN || rest.starts_with("zookeeper") || !has_plain_names(rest, lens) {
        return None;
    }
    Some(rest)
}

// Returns the name of `len` bytes at `begin`.
fn name_at(alloc: Global, text: &str, begin: usize, len: u8) -> Result<Name, Memory>
    requires ascii { IsAscii text.now }
    requires within { begin + len ≤ length text.now }
    requires name { IsName (take len (drop begin text.now)) }
    ensures { IfOk result (λ name. name ≡ take len (drop begin text.now)) }
{
    Name::from_text(alloc, &text[begin..begin + len as usize])
}

/// Returns the names with these lengths; one byte separates two names.
pub(crate) fn names_by(alloc: Global, text: &str, lens: &[u8]) -> Result<NameList, Memory>
    requires ascii { IsAscii text.now }
    requires fit { FitInto text.now lens.now }
    requires names { AllByRecursion IsName (cut_by lens.now text.now) }
    ensures { IfOk result (λ list. items_of list ≡ cut_by lens.now text.now) }
{
    match lens {
        [len] => Ok(NameList::One([name_at(alloc, text, 0, *len)?])),
        [len, next] => {
            let first = name_at(alloc, text, 0, *len)?;
            let second = name_at(alloc, text, *len as usize + 1, *next)?;
            Ok(NameList::Two([first, second]))
        }
        _ => Ok(NameList::Many(many_by(alloc, text, lens)?)),
    }
}

fn many_by(alloc: Global, text: &str, lens: &[u8]) -> Result<Vec<Name>, Memory>
    requires ascii { IsAscii text.now }
    requires fit { FitInto text.now lens.now }
    requires names { AllByRecursion IsName (cut_by lens.now text.now) }
    ensures { IfOk result (λ names. names.items ≡ cut_by lens.now text.now) }
{
    let mut names = Vec::with_capacity(alloc, lens.len())?;
    let mut begin = 0;
    for &len in lens {
        names.push(name_at(alloc, text, begin, len)?)?;
        begin += len as usize + 1;
    }
    Ok(names)
}
