//! Access control lists.

ghost use Rattle.std.specs.Prelude.{◌≡◌, ◌<◌, ◌≤◌, length, IfSome, IfNone};

use crate::bytes::Bytes;
use crate::limits::MAX_FRAME;
use std::marker::Model;

/// An entry of an access control list (`ACL` and `Id` of zookeeper.jute).
#[derive(Drop)]
pub struct Acl {
    /// The permissions, one bit each; 31 is all of them (`ZooDefs.Perms`).
    pub perms: i32,
    /// The scheme of the id, such as `world`; `None` is a null string.
    pub scheme: Option<Bytes>,
    /// The id in that scheme, such as `anyone`; `None` is a null string.
    pub id: Option<Bytes>,
}

/// A `vector<ACL>` (zookeeper.jute) of at most 1,048,575 entries.
#[derive(Drop)]
pub struct Acls {
    acls: Vec<Acl>,
}

impl Model for Acls {
    ghost use Rattle.std.specs.Prelude.{List, length, ◌≤◌};
    ghost use Rattle.zjute.specs.declared.acl.Acl.{Acl};
    ghost use Rattle.zjute.specs.declared.limits.TheConstants.{MAX_FRAME};

    ghost Value = { List Acl };

    ghost view = { λ acls. acls.acls.items };

    ghost invariant = { λ acls. length acls.acls.items ≤ MAX_FRAME };
}

impl Acls {
    /// Wraps the entries. Returns `None`, and drops them, if there are more than 1,048,575.
    pub fn new(acls: Vec<Acl>) -> Option<Acls>
        ensures some { IfSome result (λ list. list ≡ acls.items) }
        ensures none { IfNone result (MAX_FRAME < length acls.items) }
    {
        if acls.len() > MAX_FRAME as usize {
            return None;
        }
        Some(Acls { acls })
    }

    /// Wraps the entries, of which there are at most 1,048,575.
    pub(crate) fn within(acls: Vec<Acl>) -> Acls
        requires { length acls.items ≤ MAX_FRAME }
        ensures { result ≡ acls.items }
    {
        Acls { acls }
    }

    /// Returns the entries in order.
    pub fn as_slice(&self) -> &[Acl]
        ensures acls { result.now ≡ self.now }
        ensures few { length self.now ≤ MAX_FRAME }
    {
        &self.acls
    }
}
