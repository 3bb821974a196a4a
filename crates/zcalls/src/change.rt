//! A change of one node, and its result.
//!
//! # Why
//! An update and a part of a multi are made of the same changes. So a change is parsed once, and no
//! reply has to be invented for a case that can't occur.

use crate::call::{Create, Delete, Part, SetData, Update};
use crate::reply::{PartReply, Reply};
use zpath::Path;
use ztree::Stat;

/// A change of one node. It is an update by itself, or a part of a multi.
#[derive(Drop)]
pub enum Change {
    /// Creates a node.
    Create(Create),
    /// Deletes a node.
    Delete(Delete),
    /// Writes a node's data.
    SetData(SetData),
}

/// The result of a change of one node.
#[derive(Drop)]
pub enum ChangeReply {
    /// The node at this path was created.
    Created(Path),
    /// The node was deleted.
    Deleted,
    /// The data was written; this is the node's new stat.
    Set(Stat),
}

impl From<Change> for Update {
    ghost use Rattle.std.specs.Prelude.{◌≡◌};
    ghost use Rattle.zcalls.specs.Change.{update_of};

    ghost from_gives = { λ change update. update ≡ update_of change };

    fn from(change: Change) -> Update {
        match change {
            Change::Create(wanted) => Update::Create(wanted),
            Change::Delete(wanted) => Update::Delete(wanted),
            Change::SetData(wanted) => Update::SetData(wanted),
        }
    }
}

impl From<Change> for Part {
    ghost use Rattle.std.specs.Prelude.{◌≡◌};
    ghost use Rattle.zcalls.specs.Change.{part_of};

    ghost from_gives = { λ change part. part ≡ part_of change };

    fn from(change: Change) -> Part {
        match change {
            Change::Create(wanted) => Part::Create(wanted),
            Change::Delete(wanted) => Part::Delete(wanted),
            Change::SetData(wanted) => Part::SetData(wanted),
        }
    }
}

impl From<ChangeReply> for Reply {
    ghost use Rattle.std.specs.Prelude.{◌≡◌};
    ghost use Rattle.zcalls.specs.Change.{reply_of};

    ghost from_gives = { λ did reply. reply ≡ reply_of did };

    fn from(did: ChangeReply) -> Reply {
        match did {
            ChangeReply::Created(path) => Reply::Created(path),
            ChangeReply::Deleted => Reply::Deleted,
            ChangeReply::Set(stat) => Reply::Set(stat),
        }
    }
}

impl From<ChangeReply> for PartReply {
    ghost use Rattle.std.specs.Prelude.{◌≡◌};
    ghost use Rattle.zcalls.specs.Change.{part_reply_of};

    ghost from_gives = { λ did reply. reply ≡ part_reply_of did };

    fn from(did: ChangeReply) -> PartReply {
        match did {
            ChangeReply::Created(path) => PartReply::Created(path),
            ChangeReply::Deleted => PartReply::Deleted,
            ChangeReply::Set(stat) => PartReply::Set(stat),
        }
    }
}
