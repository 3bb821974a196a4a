//! The shape of parts: words taken from the left, as many as each verb needs.

ghost use Rattle.std.specs.Prelude.{◌≡◌, Ok, Some, None, IfOk, IfErr, IfSome, IfNone};
ghost use Rattle.zscript_text.specs.Shape.{check_shape, change_shape, part_shape, lone_shape, parts_shape};
ghost use Rattle.zscript_text.specs.Request.{IsUnread, read_of};
ghost use Rattle.zcalls.specs.declared.limits.TheConstants.{MAX_PARTS};

use crate::cursor::Cursor;
use crate::part_words::{ChangeWords, PartWords, Word};
use crate::request::LineFault;
use crate::words::{kind_in, version_in};
use std::alloc::Global;
use zcalls::MAX_PARTS;

/// Returns the parts in all these words, with `;` between them.
pub(crate) fn all_parts<'a>(
    alloc: Global,
    mut words: Cursor<'a>,
) -> Result<Vec<PartWords<'a>>, LineFault>
    ensures found { IfOk result (λ all.
        read_of (parts_shape MAX_PARTS words.entry) ≡ Ok all.items) }
    ensures fault { IfErr result (IsUnread (read_of (parts_shape MAX_PARTS words.entry))) }
{
    let mut parts = Vec::new(alloc);
    let mut room = MAX_PARTS;
    while room > 0 {
        let Some(verb) = words.next() else {
            return Err(LineFault::BadLine);
        };
        let Some(part) = next_part(verb, &mut words) else {
            return Err(LineFault::BadLine);
        };
        parts.push(part)?;
        let Some(word) = words.next() else {
            return Ok(parts);
        };
        if word != ";" {
            return Err(LineFault::BadLine);
        }
        room -= 1;
    }
    Err(LineFault::BadLine)
}

/// Returns the change that a verb and all the words after it spell.
pub(crate) fn lone_change<'a>(verb: &str, mut words: Cursor<'a>) -> Option<ChangeWords<'a>>
    ensures { result ≡ lone_shape (change_shape verb.now words.entry) }
{
    let change = next_change(verb, &mut words)?;
    if words.is_done() { Some(change) } else { None }
}

// Returns the part that begins with a verb; the words after it remain.
fn next_part<'a>(verb: &str, words: &mut Cursor<'a>) -> Option<PartWords<'a>>
    ensures part { IfSome result (λ part. part_shape verb.now words.old ≡ Some (part, words.new)) }
    ensures none { IfNone result (part_shape verb.now words.old ≡ None) }
{
    if verb == "check" {
        return next_check(words);
    }
    let change = next_change(verb, words)?;
    Some(PartWords::Change(change))
}

// Returns the change that begins with a verb; the words after it remain.
fn next_change<'a>(verb: &str, words: &mut Cursor<'a>) -> Option<ChangeWords<'a>>
    ensures part { IfSome result (λ part.
        change_shape verb.now words.old ≡ Some (part, words.new)) }
    ensures none { IfNone result (change_shape verb.now words.old ≡ None) }
{
    match verb {
        // PATH KIND DATA
        "create" => {
            let path = words.next()?;
            let kind = words.next()?;
            let bytes = words.next()?;
            let kind = kind_in(kind)?;
            Some(ChangeWords::Create(Word { text: path }, kind, Word { text: bytes }))
        }
        // PATH VERSION
        "delete" => {
            let path = words.next()?;
            let version = version_in(words.next()?)?;
            Some(ChangeWords::Delete(Word { text: path }, version))
        }
        // PATH VERSION DATA
        "set" => {
            let path = words.next()?;
            let version = words.next()?;
            let bytes = words.next()?;
            let version = version_in(version)?;
            Some(ChangeWords::SetData(Word { text: path }, version, Word { text: bytes }))
        }
        _ => None,
    }
}

// PATH VERSION
fn next_check<'a>(words: &mut Cursor<'a>) -> Option<PartWords<'a>>
    ensures part { IfSome result (λ part. check_shape words.old ≡ Some (part, words.new)) }
    ensures none { IfNone result (check_shape words.old ≡ None) }
{
    let path = words.next()?;
    let version = version_in(words.next()?)?;
    Some(PartWords::Check(Word { text: path }, version))
}
