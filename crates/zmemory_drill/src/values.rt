//! Paths and updates.

use std::alloc::Global;
use zalloc::Memory;
use zcalls::{Create, Data, DataFault, Kind, Lifetime, Multi, Part, Ttl, Update};
use zpath::Path;

/// Returns the path of this text, or that memory ran out.
pub(crate) fn path(alloc: Global, text: &str) -> Result<Path, Memory> {
    match Path::parse(alloc, text) {
        Ok(path) => Ok(path),
        Err(_) => Err(Memory),
    }
}

/// Returns an update that makes a node with two bytes.
pub(crate) fn create(alloc: Global, text: &str) -> Result<Update, Memory> {
    create_of(alloc, text, Kind::named(Lifetime::Persistent))
}

/// Returns an update that makes a node with two bytes, whose name ends in its parent's counter.
pub(crate) fn create_sequential(alloc: Global, text: &str) -> Result<Update, Memory> {
    create_of(alloc, text, Kind::sequential(Lifetime::Persistent))
}

/// Returns an update that makes a node with two bytes, whose TTL is one tick.
pub(crate) fn create_timed(alloc: Global, text: &str) -> Result<Update, Memory> {
    match Ttl::new(1) {
        Some(ttl) => create_of(alloc, text, Kind::named(Lifetime::WithTtl(ttl))),
        None => Err(Memory),
    }
}

fn create_of(alloc: Global, text: &str, kind: Kind) -> Result<Update, Memory> {
    match creation(alloc, text, kind) {
        Ok(create) => Ok(Update::Create(create)),
        Err(memory) => Err(memory),
    }
}

fn creation(alloc: Global, text: &str, kind: Kind) -> Result<Create, Memory> {
    let Ok(path) = path(alloc, text) else {
        return Err(Memory);
    };
    let Ok(bytes) = two_bytes(alloc) else {
        drop(path);
        return Err(Memory);
    };
    Ok(Create { path, kind, bytes })
}

/// Returns data of two bytes.
pub(crate) fn two_bytes(alloc: Global) -> Result<Data, Memory> {
    let Ok(bytes) = "hi".as_bytes().to_vec(alloc) else {
        return Err(Memory);
    };
    match Data::new(alloc, bytes) {
        Ok(data) => Ok(data),
        Err(DataFault::Memory | DataFault::TooLong) => Err(Memory),
    }
}

/// Returns a multi that makes a node.
pub(crate) fn multi(alloc: Global, text: &str) -> Result<Update, Memory> {
    let Ok(create) = creation(alloc, text, Kind::named(Lifetime::Persistent)) else {
        return Err(Memory);
    };
    let Ok(parts) = one_part(alloc, Part::Create(create)) else {
        return Err(Memory);
    };
    match Multi::new(parts) {
        Ok(multi) => Ok(Update::Multi(multi)),
        Err(back) => {
            drop(back);
            Err(Memory)
        }
    }
}

fn one_part(alloc: Global, part: Part) -> Result<Vec<Part>, Memory> {
    let mut parts = Vec::new(alloc);
    match parts.push(part) {
        Ok(()) => Ok(parts),
        Err(refused) => {
            drop(refused);
            drop(parts);
            Err(Memory)
        }
    }
}
