//! The tests of any text, each one pass over the whole text, and the split at its slashes.
//!
//! `rest` is the text after its first slash.

ghost use Rattle.std.specs.Prelude.{◌≡◌, ◌∷◌, [], ◌++◌, ◌<◌, ◌≤◌, ◌+◌, ◌-◌, true, false, Some, None, IfOk, IfErr, OnOk, length};
ghost use Rattle.std.specs.Bool.{OnTrue, OnFalse};
ghost use Rattle.std.specs.List.{AllByRecursion, list_any, sum_by};
ghost use Rattle.zpath.specs.Grammar.{IsName, IsPath, is_empty, is_dots, has_bad_byte, is_long, is_reserved, text_of};
ghost use Rattle.zpath.specs.Faults.{parts_of, names_of, fault_of, child_fault};
ghost use Rattle.zpath.specs.support.Lists.{items_of};
ghost use Rattle.zpath.specs.declared.limits.TheConstants.{MAX_TEXT_LEN};

use crate::fault::PathFault;
use crate::limits::{MAX_DEPTH, MAX_NAME_LEN, MAX_TEXT_LEN};
use crate::list::NameList;
use crate::name::Name;
use std::alloc::Global;
use zalloc::Memory;

fn is_dots(name: &str) -> bool
    ensures { result ≡ is_dots name.now }
{
    name == "." || name == ".."
}

fn has_bad_byte(name: &str) -> bool
    ensures { result ≡ has_bad_byte name.now }
{
    name.bytes()
        .any(|byte| !(0x21..=0x7e).contains(&byte) || byte == b'/')
}

fn has_empty_name(rest: &str) -> bool
    ensures { result ≡ list_any is_empty (parts_of rest.now) }
{
    rest.split('/').any(|name| name.is_empty())
}

fn has_dot_name(rest: &str) -> bool
    ensures { result ≡ list_any is_dots (parts_of rest.now) }
{
    rest.split('/').any(|name| is_dots(name))
}

fn has_bad_name(rest: &str) -> bool
    ensures { result ≡ list_any has_bad_byte (parts_of rest.now) }
{
    rest.split('/').any(|name| has_bad_byte(name))
}

fn has_long_name(rest: &str) -> bool
    ensures { result ≡ list_any is_long (parts_of rest.now) }
{
    rest.split('/').any(|name| name.len() > MAX_NAME_LEN)
}

fn count_names(rest: &str) -> usize
    ensures { result ≡ length (parts_of rest.now) }
{
    rest.split('/').count()
}

fn is_reserved(rest: &str) -> bool
    ensures { result ≡ is_reserved (parts_of rest.now) }
{
    match rest.split_once('/') {
        Some((first, _)) => first == "zookeeper",
        None => rest == "zookeeper",
    }
}

// Returns the first fault of a text that continues after its first slash.
#[tactic(auto, unfolding(crate::specs::Faults::fault_of))]
fn names_fault(text: &str, rest: &str) -> Option<PathFault>
    requires text { text.now ≡ 47 ∷ rest.now }
    requires below_root { names_of text.now ≡ parts_of rest.now }
    ensures { result ≡ fault_of text.now }
{
    if has_empty_name(rest) {
        Some(PathFault::EmptyName)
    } else if has_dot_name(rest) {
        Some(PathFault::DotName)
    } else if has_bad_name(rest) {
        Some(PathFault::BadByte)
    } else if has_long_name(rest) {
        Some(PathFault::NameTooLong)
    } else if text.len() > MAX_TEXT_LEN {
        Some(PathFault::PathTooLong)
    } else if count_names(rest) > MAX_DEPTH {
        Some(PathFault::TooDeep)
    } else if is_reserved(rest) {
        Some(PathFault::Reserved)
    } else {
        None
    }
}

/// Returns what follows the first slash, or the text's first fault.
#[tactic(auto, unfolding(crate::specs::Faults::fault_of))]
pub(crate) fn faultless_rest(text: &str) -> Result<&str, PathFault>
    ensures ok { IfOk result (λ rest. (fault_of text.now ≡ None) × (text.now ≡ 47 ∷ rest.now)) }
    ensures err { IfErr result (λ fault. fault_of text.now ≡ Some fault) }
{
    if text.is_empty() {
        return Err(PathFault::Empty);
    }
    let Some(rest) = text.strip_prefix('/') else {
        return Err(PathFault::NotAbsolute);
    };
    if rest.is_empty() {
        return Ok(rest);
    }
    match names_fault(text, rest) {
        Some(fault) => Err(fault),
        None => Ok(rest),
    }
}

/// Returns the names after the first slash.
pub(crate) fn names_after(alloc: Global, rest: &str) -> Result<NameList, Memory>
    requires { AllByRecursion IsName (names_of (47 ∷ rest.now)) }
    ensures { IfOk result (λ list. items_of list ≡ names_of (47 ∷ rest.now)) }
{
    let mut names = Vec::new(alloc);
    if rest.is_empty() {
        return Ok(NameList::Many(names));
    }
    let mut left = rest;
    while let Some((name, more)) = left.split_once('/') {
        push_name(alloc, &mut names, name)?;
        left = more;
    }
    push_name(alloc, &mut names, left)?;
    Ok(NameList::Many(names))
}

fn push_name(alloc: Global, names: &mut Vec<Name>, text: &str) -> Result<(), Memory>
    requires { IsName text.now }
    ensures { OnOk result (names.new.items ≡ names.old.items ++ text.now ∷ []) }
{
    names.push(Name::from_text(alloc, text)?)?;
    Ok(())
}

// Returns the length of the names in bytes, each with its slash.
fn text_len(names: &[Name]) -> usize
    requires { sum_by (λ name. length name + 1) names.now ≤ MAX_TEXT_LEN }
    ensures { result ≡ sum_by (λ name. length name + 1) names.now }
{
    names.iter().map(|name| name.as_str().len() + 1).sum()
}

/// Returns the length in bytes of the path's text with one more name.
pub(crate) fn child_len(path: &[Name], name: &Name) -> usize
    requires { IsPath path.now }
    ensures { result ≡ length (text_of (path.now ++ name.now ∷ [])) }
{
    text_len(path) + name.as_str().len() + 1
}

// Only a child of the root can be reserved.
fn is_reserved_child(path: &[Name], name: &Name) -> bool
    requires { IsPath path.now }
    ensures { result ≡ is_reserved (path.now ++ name.now ∷ []) }
{
    path.is_empty() && name.as_str() == "zookeeper"
}

/// Returns why the path can't be extended by this name, if there is a reason.
#[tactic(auto, using(crate::proofs::Family::child_depth), unfolding(crate::specs::Faults::child_fault))]
pub(crate) fn child_fault(path: &[Name], name: &Name) -> Option<PathFault>
    requires { IsPath path.now }
    ensures { result ≡ child_fault path.now name.now }
{
    if child_len(path, name) > MAX_TEXT_LEN {
        Some(PathFault::PathTooLong)
    } else if path.len() + 1 > MAX_DEPTH {
        Some(PathFault::TooDeep)
    } else if is_reserved_child(path, name) {
        Some(PathFault::Reserved)
    } else {
        None
    }
}
