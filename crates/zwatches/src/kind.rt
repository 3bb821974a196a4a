//! Kinds of watches.
//!
//! # Why
//!
//! ZooKeeper has two tables of watches, of data and of children, and a watch there has a mode. This
//! table has a kind for each. An exists watch at a path without a node waits for its creation only.
//! A check for deleted nodes must skip it, or it would get NodeDeleted for a node that never
//! existed.
//!
//! A persistent watch is two watches, as in ZooKeeper: one of data and one of children.
//! `removeWatches` may remove one of them.

/// What a watch waits for. The first three kinds fire once; the others stay.
#[derive(Clone, Copy, Debug, PartialEq, Eq)]
pub enum Kind {
    /// The data or the deletion of a node: set by `getData`, and by an `exists` that found the
    /// node.
    Data,
    /// The creation of a node: set by `exists` at a path without a node.
    Missing,
    /// The children or the deletion of a node: set by `getChildren`.
    Children,
    /// The creation, the data and the deletion of a node, each time: set by `addWatch`.
    EachData,
    /// The children and the deletion of a node, each time: set by `addWatch`.
    EachChildren,
    /// The creation, the data and the deletion of a node and of each node below it, each time: set
    /// by a recursive `addWatch`.
    Recursive,
}
