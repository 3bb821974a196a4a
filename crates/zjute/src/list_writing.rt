//! Writers of vectors.

ghost use Rattle.std.specs.Prelude.{◌≡◌, ◌++◌, OnOk};
ghost use Rattle.std.specs.List.{flat_map};
ghost use Rattle.zjute.specs.Jute.{text, texts as texts_form};
ghost use Rattle.zjute.specs.Requests.{acl as acl_form, acls as acls_form};

use crate::acl::{Acl, Acls};
use crate::bytes::{Bytes, Texts};
use crate::field_writing::{put_buffer, put_int, put_text};
use std::alloc::AllocError;
use zcodec::put_u32;

/// Writes a `vector<ustring>`.
#[tactic(auto, unfolding(crate::specs::Jute::texts))]
pub(crate) fn put_texts(out: &mut Vec<u8>, texts: &Texts) -> Result<(), AllocError>
    ensures { OnOk result (out.new.items ≡ out.old.items ++ texts_form.spell texts.now) }
{
    let texts = texts.as_slice();
    put_u32(out, texts.len() as u32)?;
    put_each_text(out, texts)
}

// Appends the texts in order.
fn put_each_text(out: &mut Vec<u8>, texts: &[Bytes]) -> Result<(), AllocError>
    ensures { OnOk result (out.new.items ≡ out.old.items ++ flat_map text.spell texts.now) }
{
    for it in texts {
        put_text(out, it)?;
    }
    Ok(())
}

/// Writes a `vector<ACL>`.
#[tactic(auto, unfolding(crate::specs::Requests::acls))]
pub(crate) fn put_acls(out: &mut Vec<u8>, acls: &Acls) -> Result<(), AllocError>
    ensures { OnOk result (out.new.items ≡ out.old.items ++ acls_form.spell acls.now) }
{
    let acls = acls.as_slice();
    put_u32(out, acls.len() as u32)?;
    put_each_acl(out, acls)
}

// Appends the entries in order.
fn put_each_acl(out: &mut Vec<u8>, acls: &[Acl]) -> Result<(), AllocError>
    ensures { OnOk result (out.new.items ≡ out.old.items ++ flat_map acl_form.spell acls.now) }
{
    for it in acls {
        put_acl(out, it)?;
    }
    Ok(())
}

// Writes an `ACL`.
#[tactic(auto, unfolding(crate::specs::Requests::acl))]
fn put_acl(out: &mut Vec<u8>, acl: &Acl) -> Result<(), AllocError>
    ensures { OnOk result (out.new.items ≡ out.old.items ++ acl_form.spell acl.now) }
{
    put_int(out, &acl.perms)?;
    put_buffer(out, &acl.scheme)?;
    put_buffer(out, &acl.id)?;
    Ok(())
}
