//! The parts of a multi, and those of a multiRead.

ghost use Rattle.std.specs.Prelude.{◌≡◌};

use crate::request::{AtVersion, CreateRequest, CreateTtl, Look, SetDataRequest};
use std::marker::Model;

/// A part of a multi, after its `MultiHeader` (zookeeper.jute). Each kind has the number of the
/// same request outside a multi.
#[derive(Drop)]
pub enum PartRequest {
    /// 1: create a node.
    Create(CreateRequest),
    /// 2: delete a node.
    Delete(AtVersion),
    /// 5: write the data of a node.
    SetData(SetDataRequest),
    /// 13: check the version of a node.
    Check(AtVersion),
    /// 15: create a node, and return its stat too.
    Create2(CreateRequest),
    /// 19: create a container node.
    CreateContainer(CreateRequest),
    /// 21: create a node with a TTL.
    CreateTtl(CreateTtl),
}

/// The parts of a multi, in order.
#[derive(Drop)]
pub struct Parts {
    parts: Vec<PartRequest>,
}

impl Model for Parts {
    ghost use Rattle.std.specs.Prelude.{List};
    ghost use Rattle.zjute.specs.declared.part.PartRequest.{PartRequest};

    ghost Value = { List PartRequest };

    ghost view = { λ parts. parts.parts.items };
}

impl Parts {
    /// Wraps the parts.
    pub fn new(parts: Vec<PartRequest>) -> Parts
        ensures { result ≡ parts.items }
    {
        Parts { parts }
    }

    /// Returns the parts in order.
    pub fn as_slice(&self) -> &[PartRequest]
        ensures { result.now ≡ self.now }
    {
        &self.parts
    }

    /// Returns the parts, and consumes the list.
    pub fn into_parts(self) -> Vec<PartRequest>
        ensures { result.items ≡ self }
    {
        self.parts
    }
}

/// A part of a multiRead, after its `MultiHeader` (zookeeper.jute).
#[derive(Drop)]
pub enum LookPart {
    /// 4: get the data of a node.
    GetData(Look),
    /// 8: get the names of a node's children.
    GetChildren(Look),
}

/// The parts of a multiRead, in order.
#[derive(Drop)]
pub struct Looks {
    looks: Vec<LookPart>,
}

impl Model for Looks {
    ghost use Rattle.std.specs.Prelude.{List};
    ghost use Rattle.zjute.specs.declared.part.LookPart.{LookPart};

    ghost Value = { List LookPart };

    ghost view = { λ looks. looks.looks.items };
}

impl Looks {
    /// Wraps the parts.
    pub fn new(looks: Vec<LookPart>) -> Looks
        ensures { result ≡ looks.items }
    {
        Looks { looks }
    }

    /// Returns the parts in order.
    pub fn as_slice(&self) -> &[LookPart]
        ensures { result.now ≡ self.now }
    {
        &self.looks
    }
}
