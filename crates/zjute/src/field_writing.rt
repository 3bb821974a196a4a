//! Writers of fields: each appends one to a vector.

ghost use Rattle.std.specs.Prelude.{◌≡◌, ◌++◌, OnOk};
ghost use Rattle.zjute.specs.Jute.{int, long, buffer, text as text_form};
ghost use Rattle.zjute.specs.Stats.{stat as stat_form, times, times_of, versions, versions_of};
ghost use Rattle.zjute.specs.Stats.{sizes, sizes_of};

use crate::bytes::Bytes;
use crate::stat::StatRecord;
use std::alloc::AllocError;
use zcodec::{NULL, put_u32};

/// Writes an `int`.
#[tactic(auto, unfolding(crate::specs::Jute::int))]
pub(crate) fn put_int(out: &mut Vec<u8>, value: &i32) -> Result<(), AllocError>
    ensures { OnOk result (out.new.items ≡ out.old.items ++ int.spell value.now) }
{
    out.extend_from_slice(&value.to_be_bytes())
}

/// Writes a `long`.
#[tactic(auto, unfolding(crate::specs::Jute::long))]
pub(crate) fn put_long(out: &mut Vec<u8>, value: &i64) -> Result<(), AllocError>
    ensures { OnOk result (out.new.items ≡ out.old.items ++ long.spell value.now) }
{
    out.extend_from_slice(&value.to_be_bytes())
}

/// Writes a `ustring` that isn't null.
#[tactic(auto, unfolding(crate::specs::Jute::text))]
pub(crate) fn put_text(out: &mut Vec<u8>, text: &Bytes) -> Result<(), AllocError>
    ensures { OnOk result (out.new.items ≡ out.old.items ++ text_form.spell text.now) }
{
    let bytes = text.as_slice();
    put_u32(out, bytes.len() as u32)?;
    out.extend_from_slice(bytes)
}

/// Writes a `buffer` or a `ustring`, which may be null.
#[tactic(auto, unfolding(crate::specs::Jute::buffer, crate::specs::Jute::text))]
pub(crate) fn put_buffer(out: &mut Vec<u8>, bytes: &Option<Bytes>) -> Result<(), AllocError>
    ensures { OnOk result (out.new.items ≡ out.old.items ++ buffer.spell bytes.now) }
{
    match bytes {
        Some(bytes) => put_text(out, bytes),
        None => put_u32(out, NULL),
    }
}

/// Writes a `Stat`.
#[tactic(auto, unfolding(crate::specs::Stats::stat))]
pub(crate) fn put_stat(out: &mut Vec<u8>, stat: &StatRecord) -> Result<(), AllocError>
    ensures { OnOk result (out.new.items ≡ out.old.items ++ stat_form.spell stat.now) }
{
    put_times(out, stat)?;
    put_versions(out, stat)?;
    put_sizes(out, stat)
}

// Writes its first four fields.
fn put_times(out: &mut Vec<u8>, stat: &StatRecord) -> Result<(), AllocError>
    ensures { OnOk result (out.new.items ≡ out.old.items ++ times.spell (times_of stat.now)) }
{
    put_long(out, &stat.czxid)?;
    put_long(out, &stat.mzxid)?;
    put_long(out, &stat.ctime)?;
    put_long(out, &stat.mtime)
}

// Writes its three versions.
fn put_versions(out: &mut Vec<u8>, stat: &StatRecord) -> Result<(), AllocError>
    ensures { OnOk result (out.new.items
        ≡ out.old.items ++ versions.spell (versions_of stat.now)) }
{
    put_int(out, &stat.version)?;
    put_int(out, &stat.cversion)?;
    put_int(out, &stat.aversion)
}

// Writes its last four fields.
fn put_sizes(out: &mut Vec<u8>, stat: &StatRecord) -> Result<(), AllocError>
    ensures { OnOk result (out.new.items ≡ out.old.items ++ sizes.spell (sizes_of stat.now)) }
{
    put_long(out, &stat.ephemeral_owner)?;
    put_int(out, &stat.data_length)?;
    put_int(out, &stat.num_children)?;
    put_long(out, &stat.pzxid)
}
