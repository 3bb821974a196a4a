//! The results of a multi's parts, written.

ghost use Rattle.std.specs.Prelude.{◌≡◌, ◌++◌, OnOk};
ghost use Rattle.std.specs.List.{flat_map};
ghost use Rattle.zjute.specs.Codes.{code_number};
ghost use Rattle.zjute.specs.Parts.{header_fields};
ghost use Rattle.zjute.specs.Replies.{result_number, result_code, result_body, result_text};
ghost use Rattle.zjute.specs.Replies.{results_text};

use crate::code::Code;
use crate::field_writing::{put_buffer, put_int, put_stat, put_text};
use crate::list_writing::put_texts;
use crate::reply::{PartResult, Results};
use std::alloc::AllocError;
use zcodec::put_flag;

/// Writes a `MultiResponse`: each result after its header, and the last header.
pub(crate) fn put_results(out: &mut Vec<u8>, results: &Results) -> Result<(), AllocError>
    ensures { OnOk result (out.new.items ≡ out.old.items ++ results_text results.now) }
{
    put_each_result(out, results.as_slice())?;
    put_header(out, &-1, true, &-1)
}

// Appends the results in order.
fn put_each_result(out: &mut Vec<u8>, results: &[PartResult]) -> Result<(), AllocError>
    ensures { OnOk result (out.new.items ≡ out.old.items ++ flat_map result_text results.now) }
{
    for it in results {
        put_result(out, it)?;
    }
    Ok(())
}

// Writes a result after its header.
fn put_result(out: &mut Vec<u8>, it: &PartResult) -> Result<(), AllocError>
    ensures { OnOk result (out.new.items ≡ out.old.items ++ result_text it.now) }
{
    put_header(out, &kind_of(it), false, &code_of(it).number())?;
    put_result_body(out, it)
}

// Writes a `MultiHeader`.
fn put_header(out: &mut Vec<u8>, kind: &i32, is_end: bool, code: &i32) -> Result<(), AllocError>
    ensures { OnOk result (out.new.items
        ≡ out.old.items ++ header_fields.spell (kind.now, (is_end, code.now))) }
{
    put_int(out, kind)?;
    put_flag(out, is_end)?;
    put_int(out, code)
}

// Returns the number of a result's kind.
fn kind_of(it: &PartResult) -> i32
    ensures { result ≡ result_number it.now }
{
    match it {
        PartResult::Error(_) => -1,
        PartResult::Create(_) => 1,
        PartResult::Delete => 2,
        PartResult::GetData(_, _) => 4,
        PartResult::SetData(_) => 5,
        PartResult::GetChildren(_) => 8,
        PartResult::Check => 13,
        PartResult::Create2(_, _) => 15,
        PartResult::CreateTtl(_, _) => 21,
    }
}

// Returns the code of a result.
fn code_of(it: &PartResult) -> Code
    ensures { result ≡ result_code it.now }
{
    match it {
        PartResult::Error(code) => *code,
        _ => Code::Ok,
    }
}

// Writes the record after the header.
fn put_result_body(out: &mut Vec<u8>, it: &PartResult) -> Result<(), AllocError>
    ensures { OnOk result (out.new.items ≡ out.old.items ++ result_body it.now) }
{
    match it {
        PartResult::Error(code) => put_int(out, &code.number()),
        PartResult::Create(path) => put_text(out, path),
        PartResult::Delete | PartResult::Check => Ok(()),
        PartResult::GetData(bytes, stat) => {
            put_buffer(out, bytes)?;
            put_stat(out, stat)
        }
        PartResult::SetData(stat) => put_stat(out, stat),
        PartResult::GetChildren(names) => put_texts(out, names),
        PartResult::Create2(path, stat) | PartResult::CreateTtl(path, stat) => {
            put_text(out, path)?;
            put_stat(out, stat)
        }
    }
}
