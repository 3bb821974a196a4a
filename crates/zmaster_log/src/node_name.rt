//! The name of a node.

ghost use Rattle.std.specs.Prelude.{◌≡◌, true, false, IfNone, IfSome};
ghost use Rattle.zmaster_log.specs.Nodes.{IsNodeName, is_name_byte, has_bad_byte, is_node_name};

use crate::limits::MAX_NODE_NAME;
use std::marker::Model;

/// The name of a node: 1 to `MAX_NODE_NAME` bytes, each a lower-case letter, a digit or a hyphen.
#[derive(Drop)]
pub struct NodeName {
    bytes: Vec<u8>,
}

impl Model for NodeName {
    ghost use Rattle.std.specs.Prelude.{ℕ, List};
    ghost use Rattle.zmaster_log.specs.Nodes.{IsNodeName};

    ghost Value = { List ℕ };

    ghost view = { λ name. name.bytes.items };

    ghost invariant = { λ name. IsNodeName name.bytes.items };
}

impl NodeName {
    /// Returns the name with these bytes, or `None` if they aren't a node's name.
    pub fn new(bytes: Vec<u8>) -> Option<NodeName>
        ensures name { IfSome result (λ name. name ≡ bytes.items) }
        ensures found { IfSome result (λ _. is_node_name bytes.items ≡ true) }
        ensures none { IfNone result (is_node_name bytes.items ≡ false) }
    {
        if is_node_name(&bytes) {
            Some(NodeName { bytes })
        } else {
            None
        }
    }

    /// Returns its bytes.
    pub fn as_bytes(&self) -> &[u8]
        ensures bytes { result.now ≡ self.now }
        ensures name { IsNodeName self.now }
    {
        &self.bytes
    }
}

/// Returns whether the bytes are a node's name.
pub fn is_node_name(bytes: &[u8]) -> bool
    ensures { result ≡ is_node_name bytes.now }
{
    !bytes.is_empty() && bytes.len() <= MAX_NODE_NAME && !has_bad_byte(bytes)
}

// Returns whether some byte isn't allowed in a node's name.
fn has_bad_byte(bytes: &[u8]) -> bool
    ensures { result ≡ has_bad_byte bytes.now }
{
    let Some((first, rest)) = bytes.split_first() else {
        return false;
    };
    if !is_name_byte(*first) {
        return true;
    }
    has_bad_byte(rest)
}

// Returns whether the byte is a lower-case letter, a digit or a hyphen.
fn is_name_byte(byte: u8) -> bool
    ensures { result ≡ is_name_byte byte }
{
    (97 <= byte && byte <= 122) || (48 <= byte && byte <= 57) || byte == 45
}
