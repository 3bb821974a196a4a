//! The nodes of the initial chain.

ghost use Rattle.std.specs.Prelude.{◌≡◌, ◌<◌, ◌≤◌, ◌⊎◌, IfNone, IfSome, length};
ghost use Rattle.zprotocol.specs.declared.limits.TheConstants.{MAX_SERVERS};

use crate::limits::SERVERS;
use crate::node_name::NodeName;
use std::marker::Model;

/// The nodes of the initial chain, from server 1 on: 1 to `MAX_SERVERS` names.
#[derive(Drop)]
pub struct NodeNames {
    names: Vec<NodeName>,
}

impl Model for NodeNames {
    ghost use Rattle.std.specs.Prelude.{ℕ, List, ◌<◌, ◌≤◌, length};
    ghost use Rattle.zprotocol.specs.declared.limits.TheConstants.{MAX_SERVERS};

    ghost Value = { List (List ℕ) };

    ghost view = { λ names. names.names.items };

    ghost invariant = { λ names.
        (0 < length names.names.items) × (length names.names.items ≤ MAX_SERVERS) };
}

impl NodeNames {
    /// Returns these names, or `None` if there are none, or more than `MAX_SERVERS`.
    pub fn new(names: Vec<NodeName>) -> Option<NodeNames>
        ensures same { IfSome result (λ nodes. nodes ≡ names.items) }
        ensures some { IfSome result (λ _. 0 < length names.items) }
        ensures few { IfSome result (λ _. length names.items ≤ MAX_SERVERS) }
        ensures none { IfNone result
            ((length names.items ≡ 0) ⊎ (MAX_SERVERS < length names.items)) }
    {
        if names.is_empty() || names.len() > SERVERS {
            None
        } else {
            Some(NodeNames { names })
        }
    }

    /// Returns the names, from that of server 1 on.
    pub fn as_slice(&self) -> &[NodeName]
        ensures names { result.now ≡ self.now }
        ensures some { 0 < length self.now }
        ensures few { length self.now ≤ MAX_SERVERS }
    {
        &self.names
    }

    /// Returns the names, from that of server 1 on.
    pub(crate) fn into_names(self) -> Vec<NodeName>
        ensures names { result.items ≡ self }
        ensures some { 0 < length self }
        ensures few { length self ≤ MAX_SERVERS }
    {
        self.names
    }
}
