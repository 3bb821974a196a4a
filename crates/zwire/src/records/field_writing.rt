//! Fields of calls, written at the end of bytes. Each function says too that what it writes fits.

ghost use Rattle.std.specs.Prelude.{◌≡◌, ◌++◌, OnOk};
ghost use Rattle.zwire.specs.records.Fields.{content as content_form, path as path_form};
ghost use Rattle.zwire.specs.records.Fields.{version as version_form, node_kind};

use std::alloc::{AllocError, Global};
use zcalls::{Data, Expected, Kind, Lifetime};
use zcodec::{put_sized, put_u8, put_u64};
use zpath::Path;

/// Writes a node's data.
#[tactic(auto, unfolding(crate::specs::records::Fields::content))]
pub fn put_content(out: &mut Vec<u8>, content: &Data) -> Result<(), AllocError>
    ensures text { OnOk result (out.new.items ≡ out.old.items ++ content_form.spell content.now) }
    ensures fits { OnOk result (content_form.Fits content.now) }
{
    put_sized(out, content.as_slice())
}

/// Writes a path.
#[tactic(auto, unfolding(crate::specs::records::Fields::path))]
pub fn put_path(alloc: Global, out: &mut Vec<u8>, path: &Path) -> Result<(), AllocError>
    ensures text { OnOk result (out.new.items ≡ out.old.items ++ path_form.spell path.now) }
    ensures fits { OnOk result (path_form.Fits path.now) }
{
    // So its text is short.
    path.keeps_its_form();
    let text = path.to_string(alloc)?;
    put_sized(out, text.as_bytes())
}

/// Writes the version that a node must have.
#[tactic(auto, unfolding(crate::specs::records::Fields::version))]
pub(crate) fn put_version(out: &mut Vec<u8>, version: Expected) -> Result<(), AllocError>
    ensures text { OnOk result (out.new.items ≡ out.old.items ++ version_form.spell version) }
    ensures fits { OnOk result (version_form.Fits version) }
{
    match version {
        Expected::Any => put_u8(out, 0),
        Expected::Exactly(number) => {
            put_u8(out, 1)?;
            put_u64(out, number)
        }
    }
}

/// Writes the kind of a node.
pub(crate) fn put_kind(out: &mut Vec<u8>, kind: Kind) -> Result<(), AllocError>
    ensures text { OnOk result (out.new.items ≡ out.old.items ++ node_kind.spell kind) }
    ensures fits { OnOk result (node_kind.Fits kind) }
{
    put_lifetime(out, kind.lifetime, kind.is_sequential)
}

// Writes the kind that a lifetime and a flag make.
#[tactic(auto, unfolding(crate::specs::records::Fields::node_kind, crate::specs::records::Fields::ttl))]
fn put_lifetime(
    out: &mut Vec<u8>,
    lifetime: Lifetime,
    is_sequential: bool,
) -> Result<(), AllocError>
    ensures text { OnOk result (out.new.items ≡ out.old.items
        ++ node_kind.spell (record { lifetime = lifetime; is_sequential = is_sequential })) }
    ensures fits { OnOk result
        (node_kind.Fits (record { lifetime = lifetime; is_sequential = is_sequential })) }
{
    match lifetime {
        Lifetime::Persistent => put_u8(out, if is_sequential { 1 } else { 0 }),
        Lifetime::WithTtl(ttl) => {
            put_u8(out, if is_sequential { 3 } else { 2 })?;
            put_u64(out, ttl.ticks())
        }
        Lifetime::Ephemeral(session) => {
            put_u8(out, if is_sequential { 5 } else { 4 })?;
            put_u64(out, session.number())
        }
        Lifetime::Container => put_u8(out, if is_sequential { 7 } else { 6 }),
    }
}
