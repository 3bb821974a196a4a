//! One connection, as the guard sees it.

use std::marker::Model;

/// What a connection may do.
#[derive(Clone, Copy, Debug, PartialEq, Eq)]
pub enum Standing {
    /// Its connect request isn't whole yet.
    Silent,
    /// Its connect request has passed. It has to give a login.
    Stranger,
    /// It has given a login: all passes.
    Admitted,
    /// It is refused: nothing passes.
    Refused,
}

/// A connection: its standing, and bytes. They are those of a frame that isn't whole yet, or the
/// answer to be sent before its close.
#[derive(Drop)]
pub(crate) struct Visitor {
    pub(crate) standing: Standing,
    pub(crate) bytes: Vec<u8>,
}

impl Model for Visitor {
    ghost use Rattle.zguard.specs.Guarding.{VisitorView};
    ghost use Rattle.zguard.specs.support.Codes.{coded_visitor};

    ghost Value = { VisitorView };

    ghost coded = { coded_visitor };

    ghost view = { λ v. record { standing = v.standing; bytes = v.bytes.items } };
}
