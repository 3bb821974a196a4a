//! The calls, all on one node.

use std::alloc::Global;
use zrun::{Call, Data, Expected, Fault, Path, Patience};

/// How long to wait for a reply.
pub const PATIENCE: Patience = Patience {
    turns: 100_000,
    retries: 1_000,
};

/// Returns a create of the node.
pub fn create(alloc: Global) -> Result<Call, Fault> {
    Ok(Call::create(Path::parse(alloc, "/a")?, Data::empty()))
}

/// Returns a set of the node, to empty data.
pub fn set(alloc: Global) -> Result<Call, Fault> {
    Ok(Call::set(Path::parse(alloc, "/a")?, Data::empty(), Expected::Any))
}

/// Returns a read of the node.
pub fn get(alloc: Global) -> Result<Call, Fault> {
    Ok(Call::get(Path::parse(alloc, "/a")?))
}
