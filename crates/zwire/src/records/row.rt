//! A row of a snapshot.

ghost use Rattle.std.specs.Prelude.{◌≡◌, ◌<◌, ◌≤◌, length, IfNone, IfSome, OnSome};
ghost use Rattle.zwire.specs.declared.records.limits.TheConstants.{MAX_ROW_BYTES};

use crate::records::limits::MAX_ROW_BYTES;
use std::marker::Model;

/// The bytes of a row of a snapshot: at most `MAX_ROW_BYTES` of them.
#[derive(Debug, Drop)]
pub struct Row {
    bytes: Vec<u8>,
}

impl Model for Row {
    ghost use Rattle.std.specs.Prelude.{ℕ, List, length, ◌≤◌};
    ghost use Rattle.zwire.specs.declared.records.limits.TheConstants.{MAX_ROW_BYTES};

    ghost Value = { List ℕ };

    ghost view = { λ r. r.bytes.items };

    ghost invariant = { λ r. length r.bytes.items ≤ MAX_ROW_BYTES };
}

impl Row {
    /// Returns the row with these bytes, or `None` if there are more than `MAX_ROW_BYTES`.
    pub fn new(bytes: Vec<u8>) -> Option<Row>
        ensures taken { IfSome result (λ r. r ≡ bytes.items) }
        ensures fits { OnSome result (length bytes.items ≤ MAX_ROW_BYTES) }
        ensures too_long { IfNone result (MAX_ROW_BYTES < length bytes.items) }
    {
        if bytes.len() > MAX_ROW_BYTES as usize {
            drop(bytes);
            return None;
        }
        Some(Row { bytes })
    }

    /// Returns its bytes.
    pub fn as_slice(&self) -> &[u8]
        ensures bytes { result.now ≡ self.now }
        ensures short { length self.now ≤ MAX_ROW_BYTES }
    {
        self.bytes.as_slice()
    }
}
