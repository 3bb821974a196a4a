//! Paths, names and data as bytes.

ghost use Rattle.std.specs.Prelude.{◌≡◌, ◌<◌, ◌≤◌, length, Some, IfOk, IfSome, IfNone};
ghost use Rattle.zpath.specs.Grammar.{text_of};
ghost use Rattle.zjute.specs.declared.limits.TheConstants.{MAX_FRAME};

use std::alloc::Global;
use zalloc::Memory;
use zcalls::{Data, Names};
use zjute::{Bytes, Texts};
use zpath::Path;

/// Returns a copy of a few bytes.
pub(crate) fn bytes_of(alloc: Global, bytes: &[u8]) -> Result<Bytes, Memory>
    requires { length bytes.now ≤ MAX_FRAME }
    ensures { IfOk result (λ reported. reported ≡ bytes.now) }
{
    match Bytes::new(Vec::from_slice(alloc, bytes)?) {
        Some(reported) => Ok(reported),
        None => unreachable!(),
    }
}

/// Returns the text of a path.
pub fn path_reported(alloc: Global, path: &Path) -> Result<Bytes, Memory>
    ensures { IfOk result (λ reported. reported ≡ text_of path.now) }
{
    // The text of a path is short.
    path.keeps_its_form();
    let text = path.to_string(alloc)?;
    bytes_of(alloc, text.as_bytes())
}

/// Returns data.
pub(crate) fn data_reported(alloc: Global, bytes: &Data) -> Result<Option<Bytes>, Memory>
    ensures { IfOk result (λ reported. reported ≡ Some bytes.now) }
{
    Ok(Some(bytes_of(alloc, bytes.as_slice())?))
}

/// Returns names; `None` if there are more than a frame can hold.
pub(crate) fn names_reported(alloc: Global, names: &Names) -> Result<Option<Texts>, Memory>
    ensures some { IfOk result (λ reported. IfSome reported (λ texts. texts ≡ names.now)) }
    ensures few { IfOk result (λ reported. IfSome reported (λ _. length names.now ≤ MAX_FRAME)) }
    ensures none { IfOk result (λ reported. IfNone reported (MAX_FRAME < length names.now)) }
{
    let names = names.as_slice();
    if names.len() > zjute::MAX_FRAME as usize {
        return Ok(None);
    }
    let mut texts = Vec::new(alloc);
    for name in names {
        texts.push(bytes_of(alloc, name.as_str().as_bytes())?)?;
    }
    Ok(Texts::new(texts))
}
