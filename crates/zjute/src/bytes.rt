//! Byte strings, and lists of them.

ghost use Rattle.std.specs.Prelude.{◌≡◌, ◌<◌, ◌≤◌, length, IfSome, IfNone, IfOk};

use crate::limits::MAX_FRAME;
use std::alloc::{AllocError, Global};
use std::marker::Model;

/// The bytes of a `buffer` or of a `ustring` (zookeeper.jute): at most 1,048,575. Contracts see the
/// list of bytes.
#[derive(Drop)]
pub struct Bytes {
    items: Vec<u8>,
}

impl Model for Bytes {
    ghost use Rattle.std.specs.Prelude.{ℕ, List, length, ◌≤◌};
    ghost use Rattle.zjute.specs.declared.limits.TheConstants.{MAX_FRAME};

    ghost Value = { List ℕ };

    ghost view = { λ bytes. bytes.items.items };

    ghost invariant = { λ bytes. length bytes.items.items ≤ MAX_FRAME };
}

impl Bytes {
    /// Wraps the bytes. Returns `None`, and drops them, if there are more than 1,048,575.
    pub fn new(items: Vec<u8>) -> Option<Bytes>
        ensures some { IfSome result (λ bytes. bytes ≡ items.items) }
        ensures none { IfNone result (MAX_FRAME < length items.items) }
    {
        if items.len() > MAX_FRAME as usize {
            return None;
        }
        Some(Bytes { items })
    }

    /// Copies the bytes, of which there are at most 1,048,575.
    pub fn copied(alloc: Global, bytes: &[u8]) -> Result<Bytes, AllocError>
        requires { length bytes.now ≤ MAX_FRAME }
        ensures { IfOk result (λ copy. copy ≡ bytes.now) }
    {
        let items = Vec::from_slice(alloc, bytes)?;
        Ok(Bytes { items })
    }

    /// Returns the bytes.
    pub fn as_slice(&self) -> &[u8]
        ensures bytes { result.now ≡ self.now }
        ensures short { length self.now ≤ MAX_FRAME }
    {
        &self.items
    }

    /// Returns the bytes, and consumes the wrapper.
    pub fn into_vec(self) -> Vec<u8>
        ensures bytes { result.items ≡ self }
        ensures short { length self ≤ MAX_FRAME }
    {
        self.items
    }
}

/// A `vector<ustring>` (zookeeper.jute) of at most 1,048,575 texts: the names of children, or the
/// paths of watches.
#[derive(Drop)]
pub struct Texts {
    texts: Vec<Bytes>,
}

impl Model for Texts {
    ghost use Rattle.std.specs.Prelude.{ℕ, List, length, ◌≤◌};
    ghost use Rattle.zjute.specs.declared.limits.TheConstants.{MAX_FRAME};

    ghost Value = { List (List ℕ) };

    ghost view = { λ texts. texts.texts.items };

    ghost invariant = { λ texts. length texts.texts.items ≤ MAX_FRAME };
}

impl Texts {
    /// Wraps the texts. Returns `None`, and drops them, if there are more than 1,048,575.
    pub fn new(texts: Vec<Bytes>) -> Option<Texts>
        ensures some { IfSome result (λ list. list ≡ texts.items) }
        ensures none { IfNone result (MAX_FRAME < length texts.items) }
    {
        if texts.len() > MAX_FRAME as usize {
            return None;
        }
        Some(Texts { texts })
    }

    /// Wraps the texts, of which there are at most 1,048,575.
    pub(crate) fn within(texts: Vec<Bytes>) -> Texts
        requires { length texts.items ≤ MAX_FRAME }
        ensures { result ≡ texts.items }
    {
        Texts { texts }
    }

    /// Returns the texts in order.
    pub fn as_slice(&self) -> &[Bytes]
        ensures texts { result.now ≡ self.now }
        ensures few { length self.now ≤ MAX_FRAME }
    {
        &self.texts
    }
}
