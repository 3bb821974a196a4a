//! Reading the paths and the data of parts whose shape has been tested, from the left.

ghost use Rattle.std.specs.Prelude.{◌≡◌, Ok, IfOk, IfErr};
ghost use Rattle.zscript_text.specs.Request.{IsUnread, path_in, data_in, change_in, part_in, parts_in};

use crate::part_words::{ChangeWords, PartWords};
use crate::request::LineFault;
use base64::DecodeAllocError;
use base64::engine::general_purpose::STANDARD;
use std::alloc::Global;
use zcalls::{Change, Check, Create, Data, Delete, Part, SetData};
use zpath::{Path, PathFault};
use ztree::DataFault;

/// Reads the parts of a multi.
pub(crate) fn read_parts(alloc: Global, words: &[PartWords]) -> Result<Vec<Part>, LineFault>
    ensures found { IfOk result (λ parts. parts_in words.now ≡ Ok parts.items) }
    ensures fault { IfErr result (IsUnread (parts_in words.now)) }
{
    let mut parts = Vec::new(alloc);
    for part in words {
        parts.push(read_part(alloc, part)?)?;
    }
    Ok(parts)
}

// Reads a part of a multi.
fn read_part(alloc: Global, words: &PartWords) -> Result<Part, LineFault>
    ensures found { IfOk result (λ part. part_in words.now ≡ Ok part) }
    ensures fault { IfErr result (IsUnread (part_in words.now)) }
{
    match words {
        PartWords::Change(change) => Ok(Part::from(read_change(alloc, change)?)),
        PartWords::Check(path, version) => {
            let path = read_path(alloc, path.text)?;
            Ok(Part::Check(Check {
                path,
                version: *version,
            }))
        }
    }
}

/// Reads a change.
pub(crate) fn read_change(alloc: Global, words: &ChangeWords) -> Result<Change, LineFault>
    ensures found { IfOk result (λ change. change_in words.now ≡ Ok change) }
    ensures fault { IfErr result (IsUnread (change_in words.now)) }
{
    match words {
        ChangeWords::Create(path, kind, bytes) => {
            let path = read_path(alloc, path.text)?;
            let bytes = read_data(alloc, bytes.text)?;
            Ok(Change::Create(Create {
                path,
                kind: *kind,
                bytes,
            }))
        }
        ChangeWords::Delete(path, version) => {
            let path = read_path(alloc, path.text)?;
            Ok(Change::Delete(Delete {
                path,
                version: *version,
            }))
        }
        ChangeWords::SetData(path, version, bytes) => {
            let path = read_path(alloc, path.text)?;
            let bytes = read_data(alloc, bytes.text)?;
            Ok(Change::SetData(SetData {
                path,
                bytes,
                version: *version,
            }))
        }
    }
}

/// Reads a path.
pub(crate) fn read_path(alloc: Global, word: &str) -> Result<Path, LineFault>
    ensures found { IfOk result (λ path. path_in word.now ≡ Ok path) }
    ensures fault { IfErr result (IsUnread (path_in word.now)) }
{
    match Path::parse(alloc, word) {
        Ok(path) => Ok(path),
        Err(PathFault::Memory) => Err(LineFault::Memory),
        Err(fault) => Err(LineFault::BadPath(fault)),
    }
}

// Reads data: `-` for no bytes, else strict base64 of 1 to 65,536 bytes.
fn read_data(alloc: Global, word: &str) -> Result<Data, LineFault>
    ensures found { IfOk result (λ bytes. data_in word.now ≡ Ok bytes) }
    ensures fault { IfErr result (IsUnread (data_in word.now)) }
{
    if word == "-" {
        return Ok(Data::empty());
    }
    let bytes = match STANDARD.decode(alloc, word.as_bytes()) {
        Ok(bytes) => bytes,
        Err(DecodeAllocError::OutOfMemory) => return Err(LineFault::Memory),
        Err(_) => return Err(LineFault::BadData),
    };
    if bytes.is_empty() {
        return Err(LineFault::BadData);
    }
    match Data::new(alloc, bytes) {
        Ok(bytes) => Ok(bytes),
        Err(DataFault::TooLong) => Err(LineFault::BadData),
        Err(DataFault::Memory) => Err(LineFault::Memory),
    }
}
