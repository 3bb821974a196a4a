//! Bytes for which memory runs out when they are to be shared become no data.

use crate::values::two_bytes;
use std::alloc::Global;
use zalloc::Memory;
use ztesting::Ended;

/// Makes data of two bytes.
pub(crate) fn data_is_made(alloc: Global) -> Ended {
    match has_its_bytes(alloc) {
        Ok(is_so) => Ended::done(is_so),
        Err(Memory) => Ended::refused(has_its_bytes(alloc) == Ok(true)),
    }
}

fn has_its_bytes(alloc: Global) -> Result<bool, Memory> {
    let data = two_bytes(alloc)?;
    let is_so = data.as_slice() == b"hi".as_slice();
    drop(data);
    Ok(is_so)
}
