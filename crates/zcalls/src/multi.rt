//! The parts of a multi.

use crate::call::Part;
use crate::limits::{MAX_PARTS, MOST_PARTS};
use std::marker::Model;

/// The parts of a multi, in order: 1 to 1,024 of them.
#[derive(Drop)]
pub struct Multi {
    parts: Vec<Part>,
}

impl Model for Multi {
    ghost use Rattle.std.specs.Prelude.{ℕ, List, ◌≤◌, ◌<◌, length};
    ghost use Rattle.zcalls.specs.declared.call.Part.{Part};
    ghost use Rattle.zcalls.specs.declared.limits.TheConstants.{MOST_PARTS};

    ghost Value = { List Part };

    ghost view = { λ m. m.parts.items };

    ghost invariant = { λ m. (0 < length m.parts.items) × (length m.parts.items ≤ MOST_PARTS) };
}

impl Multi {
    ghost use Rattle.std.specs.Prelude.{◌≡◌, ◌≤◌, ◌<◌, IfOk, OnOk, IfErr, ◌⊎◌, length};
    ghost use Rattle.zcalls.specs.declared.limits.TheConstants.{MAX_PARTS, MOST_PARTS};

    /// Makes a multi of the profile from its parts. Returns them unchanged as the error if there
    /// are none or more than 64.
    pub fn new(parts: Vec<Part>) -> Result<Multi, Vec<Part>>
        ensures multi { IfOk result (λ multi. multi ≡ parts.items) }
        ensures fits { OnOk result (length parts.items ≤ MAX_PARTS) }
        ensures back { IfErr result (λ back. back ≡ parts) }
        ensures limits { IfErr result
            (λ _. (length parts.items ≡ 0) ⊎ (MAX_PARTS < length parts.items)) }
    {
        Multi::within(parts, MAX_PARTS)
    }

    /// Makes a multi from its parts, within a limit. Returns them unchanged as the error if there
    /// are none or more.
    pub fn within(parts: Vec<Part>, most: usize) -> Result<Multi, Vec<Part>>
        requires { most ≤ MOST_PARTS }
        ensures multi { IfOk result (λ multi. multi ≡ parts.items) }
        ensures fits { OnOk result (length parts.items ≤ most) }
        ensures back { IfErr result (λ back. back ≡ parts) }
        ensures limits { IfErr result
            (λ _. (length parts.items ≡ 0) ⊎ (most < length parts.items)) }
    {
        if parts.is_empty() || parts.len() > most {
            Err(parts)
        } else {
            Ok(Multi { parts })
        }
    }

    /// Returns the parts in order.
    pub fn as_slice(&self) -> &[Part]
        ensures parts { result.now ≡ self.now }
        ensures some { 0 < length self.now }
        ensures few { length self.now ≤ MOST_PARTS }
    {
        &self.parts
    }

    /// Returns the parts, and consumes the multi.
    pub fn into_parts(self) -> Vec<Part>
        ensures parts { result.items ≡ self }
        ensures few { length self ≤ MOST_PARTS }
    {
        self.parts
    }
}
