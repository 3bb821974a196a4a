//! The data of a znode.
//!
//! # Why
//! Copies share the bytes by a counter of owners, which is an allocation. So `Data::new` can fail
//! with `Memory`.

ghost use Rattle.std.specs.Prelude.{◌≡◌, [], ◌<◌, ◌≤◌, length, Err, IfErr, IfOk, OnOk};
ghost use Rattle.ztree.specs.declared.limits.TheConstants.{MAX_DATA, MOST_DATA};
ghost use Rattle.ztree.specs.declared.node_data.DataFault.TheVariants.{TooLong};

use crate::limits::{MAX_DATA, MOST_DATA};
use std::alloc::{AllocError, Global};
use std::marker::Model;
use std::sync::Arc;
use thiserror::Error;

/// A znode's data: at most 1,048,487 bytes, read and written as a whole.
// All copies share the bytes. Empty data takes no allocation.
#[derive(Debug, Drop)]
pub struct Data {
    bytes: Option<Arc<Vec<u8>>>,
}

impl Model for Data {
    ghost use Rattle.std.specs.Prelude.{ℕ, List, length, ◌≤◌};
    ghost use Rattle.ztree.specs.declared.limits.TheConstants.{MOST_DATA};
    ghost use Rattle.ztree.specs.support.Shared.{shared_bytes};

    ghost Value = { List ℕ };

    ghost view = { λ d. shared_bytes d.bytes };

    ghost invariant = { λ d. length (shared_bytes d.bytes) ≤ MOST_DATA };
}

/// Why bytes can't be a znode's data.
#[derive(Clone, Copy, Debug, PartialEq, Eq, Error)]
pub enum DataFault {
    /// There are more bytes than the limit.
    #[error("too long")]
    TooLong,
    /// Out of memory: the allocation that shares the bytes was refused.
    #[error("memory")]
    Memory,
}

impl Data {
    /// Makes data of the profile from the bytes. Fails, and drops them, if there are more than
    /// 65,536 or memory runs out.
    pub fn new(alloc: Global, bytes: Vec<u8>) -> Result<Data, DataFault>
        ensures taken { IfOk result (λ d. d ≡ bytes.items) }
        ensures fits { OnOk result (length bytes.items ≤ MAX_DATA) }
        ensures only { IfErr result (λ fault. fault ≡ TooLong → MAX_DATA < length bytes.items) }
        ensures too_long { MAX_DATA < length bytes.items → result ≡ Err TooLong }
    {
        Data::within(alloc, bytes, MAX_DATA)
    }

    /// Makes data from the bytes, within a limit. Fails, and drops them, if there are more or memory
    /// runs out.
    pub fn within(alloc: Global, bytes: Vec<u8>, most: usize) -> Result<Data, DataFault>
        requires { most ≤ MOST_DATA }
        ensures taken { IfOk result (λ d. d ≡ bytes.items) }
        ensures fits { OnOk result (length bytes.items ≤ most) }
        ensures only { IfErr result (λ fault. fault ≡ TooLong → most < length bytes.items) }
        ensures too_long { most < length bytes.items → result ≡ Err TooLong }
    {
        if bytes.len() > most {
            drop(bytes);
            return Err(DataFault::TooLong);
        }
        if bytes.is_empty() {
            drop(bytes);
            return Ok(Data { bytes: None });
        }
        match Arc::new(alloc, bytes) {
            Ok(bytes) => Ok(Data { bytes: Some(bytes) }),
            Err(refused) => {
                drop(refused);
                Err(DataFault::Memory)
            }
        }
    }

    /// Returns empty data. Allocates nothing.
    pub fn empty() -> Data
        ensures { result ≡ [] }
    {
        Data { bytes: None }
    }

    /// Returns the bytes.
    pub fn as_slice(&self) -> &[u8]
        ensures bytes { result.now ≡ self.now }
        ensures short { length self.now ≤ MOST_DATA }
    {
        match &self.bytes {
            Some(bytes) => bytes.as_slice(),
            None => &[],
        }
    }
}

impl Clone for Data {
    ghost is_clone = { λ d copy. copy ≡ d };

    /// Returns a copy that shares the bytes.
    fn clone(&self) -> Result<Self, AllocError> {
        let bytes = match &self.bytes {
            Some(bytes) => Some(Arc::try_clone(bytes)?),
            None => None,
        };
        Ok(Data { bytes })
    }
}
