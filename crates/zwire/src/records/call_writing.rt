//! Calls that change the tree, written at the end of bytes. Each function says too that what it
//! writes fits.

ghost use Rattle.std.specs.Prelude.{◌≡◌, ◌++◌, OnOk};
ghost use Rattle.std.specs.List.{AllByRecursion, flat_map};
ghost use Rattle.zwire.specs.records.Calls.{create as create_form, delete as delete_form, set_data, set_acl};
ghost use Rattle.zwire.specs.records.Calls.{check as check_form, part as part_form, parts as parts_form};
ghost use Rattle.zwire.specs.records.Calls.{update as update_form};

use crate::records::field_writing::{put_content, put_kind, put_path, put_version};
use std::alloc::{AllocError, Global};
use zcalls::{Check, Create, Delete, Multi, Part, SetAcl, SetData, Update};
use zcodec::{put_u8, put_u32, put_u64};

// Writes a create.
#[tactic(auto, unfolding(crate::specs::records::Calls::create))]
fn put_create(alloc: Global, out: &mut Vec<u8>, create: &Create) -> Result<(), AllocError>
    ensures text { OnOk result (out.new.items ≡ out.old.items ++ create_form.spell create.now) }
    ensures fits { OnOk result (create_form.Fits create.now) }
{
    put_path(alloc, out, &create.path)?;
    put_kind(out, create.kind)?;
    put_content(out, &create.bytes)
}

// Writes a delete.
#[tactic(auto, unfolding(crate::specs::records::Calls::delete))]
fn put_delete(alloc: Global, out: &mut Vec<u8>, delete: &Delete) -> Result<(), AllocError>
    ensures text { OnOk result (out.new.items ≡ out.old.items ++ delete_form.spell delete.now) }
    ensures fits { OnOk result (delete_form.Fits delete.now) }
{
    put_path(alloc, out, &delete.path)?;
    put_version(out, delete.version)
}

// Writes a set.
#[tactic(auto, unfolding(crate::specs::records::Calls::set_data))]
fn put_set_data(alloc: Global, out: &mut Vec<u8>, set: &SetData) -> Result<(), AllocError>
    ensures text { OnOk result (out.new.items ≡ out.old.items ++ set_data.spell set.now) }
    ensures fits { OnOk result (set_data.Fits set.now) }
{
    put_path(alloc, out, &set.path)?;
    put_version(out, set.version)?;
    put_content(out, &set.bytes)
}

// Writes a write of an access control list.
#[tactic(auto, unfolding(crate::specs::records::Calls::set_acl))]
fn put_set_acl(alloc: Global, out: &mut Vec<u8>, set: &SetAcl) -> Result<(), AllocError>
    ensures text { OnOk result (out.new.items ≡ out.old.items ++ set_acl.spell set.now) }
    ensures fits { OnOk result (set_acl.Fits set.now) }
{
    put_path(alloc, out, &set.path)?;
    put_version(out, set.version)
}

// Writes a check.
#[tactic(auto, unfolding(crate::specs::records::Calls::check))]
fn put_check(alloc: Global, out: &mut Vec<u8>, check: &Check) -> Result<(), AllocError>
    ensures text { OnOk result (out.new.items ≡ out.old.items ++ check_form.spell check.now) }
    ensures fits { OnOk result (check_form.Fits check.now) }
{
    put_path(alloc, out, &check.path)?;
    put_version(out, check.version)
}

// Writes a part of a multi.
#[tactic(auto, unfolding(crate::specs::records::Calls::part))]
fn put_part(alloc: Global, out: &mut Vec<u8>, part: &Part) -> Result<(), AllocError>
    ensures text { OnOk result (out.new.items ≡ out.old.items ++ part_form.spell part.now) }
    ensures fits { OnOk result (part_form.Fits part.now) }
{
    match part {
        Part::Create(create) => {
            put_u8(out, 0)?;
            put_create(alloc, out, create)
        }
        Part::Delete(delete) => {
            put_u8(out, 1)?;
            put_delete(alloc, out, delete)
        }
        Part::SetData(set) => {
            put_u8(out, 2)?;
            put_set_data(alloc, out, set)
        }
        Part::Check(check) => {
            put_u8(out, 3)?;
            put_check(alloc, out, check)
        }
    }
}

// Writes the parts of a multi.
#[tactic(auto, unfolding(crate::specs::records::Calls::parts))]
fn put_multi(alloc: Global, out: &mut Vec<u8>, multi: &Multi) -> Result<(), AllocError>
    ensures text { OnOk result (out.new.items ≡ out.old.items ++ parts_form.spell multi.now) }
    ensures fits { OnOk result (parts_form.Fits multi.now) }
{
    let parts = multi.as_slice();
    put_u32(out, parts.len() as u32)?;
    put_each_part(alloc, out, parts)
}

// Writes the parts, in order.
fn put_each_part(alloc: Global, out: &mut Vec<u8>, parts: &[Part]) -> Result<(), AllocError>
    ensures text { OnOk result
        (out.new.items ≡ out.old.items ++ flat_map part_form.spell parts.now) }
    ensures fits { OnOk result (AllByRecursion part_form.Fits parts.now) }
{
    for part in parts {
        put_part(alloc, out, part)?;
    }
    Ok(())
}

/// Writes a change.
#[tactic(auto, unfolding(crate::specs::records::Calls::update))]
pub fn put_update(alloc: Global, out: &mut Vec<u8>, update: &Update) -> Result<(), AllocError>
    ensures text { OnOk result (out.new.items ≡ out.old.items ++ update_form.spell update.now) }
    ensures fits { OnOk result (update_form.Fits update.now) }
{
    match update {
        Update::Create(create) => {
            put_u8(out, 0)?;
            put_create(alloc, out, create)
        }
        Update::Delete(delete) => {
            put_u8(out, 1)?;
            put_delete(alloc, out, delete)
        }
        Update::SetData(set) => {
            put_u8(out, 2)?;
            put_set_data(alloc, out, set)
        }
        Update::Multi(multi) => {
            put_u8(out, 3)?;
            put_multi(alloc, out, multi)
        }
        Update::Open(ticks) => {
            put_u8(out, 4)?;
            put_u64(out, *ticks)
        }
        Update::Ping(session) => {
            put_u8(out, 5)?;
            put_u64(out, session.number())
        }
        Update::Close(session) => {
            put_u8(out, 6)?;
            put_u64(out, session.number())
        }
        Update::Tick => put_u8(out, 7),
        Update::SetAcl(set) => {
            put_u8(out, 8)?;
            put_set_acl(alloc, out, set)
        }
    }
}
