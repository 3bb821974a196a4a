//! The lists in replies.

ghost use Rattle.std.specs.Prelude.{◌≡◌};

use crate::reply::PartReply;
use std::marker::Model;
use zpath::Name;

/// The replies to the parts of a multi, in order.
#[derive(Drop)]
pub struct Replies {
    replies: Vec<PartReply>,
}

impl Model for Replies {
    ghost use Rattle.std.specs.Prelude.{List};
    ghost use Rattle.zcalls.specs.declared.reply.PartReply.{PartReply};

    ghost Value = { List PartReply };

    ghost view = { λ replies. replies.replies.items };
}

impl Replies {
    /// Wraps the replies.
    pub fn new(replies: Vec<PartReply>) -> Replies
        ensures { result ≡ replies.items }
    {
        Replies { replies }
    }

    /// Returns the replies in order.
    pub fn as_slice(&self) -> &[PartReply]
        ensures { result.now ≡ self.now }
    {
        &self.replies
    }
}

/// The names of a node's children.
#[derive(Drop)]
pub struct Names {
    names: Vec<Name>,
}

impl Model for Names {
    ghost use Rattle.std.specs.Prelude.{ℕ, List};

    ghost Value = { List (List ℕ) };

    ghost view = { λ names. names.names.items };
}

impl Names {
    /// Wraps the names.
    pub fn new(names: Vec<Name>) -> Names
        ensures { result ≡ names.items }
    {
        Names { names }
    }

    /// Returns the names, as they were given. A reply lists them in byte order.
    pub fn as_slice(&self) -> &[Name]
        ensures { result.now ≡ self.now }
    {
        &self.names
    }
}
