//! The service's own nodes: every client can read them, and none can write them.
//!
//! # Why
//!
//! The tree has no node below `/zookeeper`, so its calls refuse these paths. The nodes never change.
//! So a read of one needs no call, and a watch of one never fires and isn't stored.

ghost use Rattle.std.specs.Prelude.{◌≡◌, option_copied, IfOk};
ghost use Rattle.zresponses.specs.Own as table;
ghost use Rattle.zresponses.specs.Own.{own_stat, own_names, own_perms, own_path, read_answer, read_path};

use crate::answer::Answer;
use crate::answers::acls_for_all;
use crate::texts::bytes_of;
use std::alloc::Global;
use zalloc::Memory;
use zjute::{Asked, Body, Bytes, Code, StatRecord, Texts};
use zrequests::ALL_PERMISSIONS;

/// A node of the service's own.
#[derive(Clone, Copy, Debug, PartialEq, Eq)]
pub enum OwnNode {
    /// `/zookeeper`.
    Service,
    /// `/zookeeper/config`.
    Config,
    /// `/zookeeper/quota`.
    Quota,
}

/// Returns the answer to a request that makes no call: what it reads of the service's own nodes, or
/// else this code.
pub fn refused_answer(alloc: Global, code: Code, asked: &Asked) -> Result<Answer, Memory>
    ensures { IfOk result (λ answer. answer ≡ table.refused_answer code asked.now) }
{
    let Some(text) = own_path(asked) else {
        return Ok(Answer::failed(code));
    };
    match node_at(text) {
        Some(node) => read(alloc, node, asked),
        None => Ok(Answer::failed(Code::NoNode)),
    }
}

/// Returns whether a path is of the service's own.
pub(crate) fn is_own(text: &[u8]) -> bool
    ensures { result ≡ table.is_own text.now }
{
    text == b"/zookeeper".as_slice() || text.starts_with(b"/zookeeper/")
}

// Returns the node at a path, if it is of the service's own.
fn node_at(text: &[u8]) -> Option<OwnNode>
    ensures { result ≡ table.node_at text.now }
{
    if text == b"/zookeeper".as_slice() {
        Some(OwnNode::Service)
    } else if text == b"/zookeeper/config".as_slice() {
        Some(OwnNode::Config)
    } else if text == b"/zookeeper/quota".as_slice() {
        Some(OwnNode::Quota)
    } else {
        None
    }
}

// Returns the path that a request reads, if it is of the service's own.
fn own_path(asked: &Asked) -> Option<&[u8]>
    ensures { option_copied result ≡ own_path (read_path asked.now) }
{
    match read_path(asked) {
        Some(text) if is_own(text) => Some(text),
        _ => None,
    }
}

// Returns the path that a request reads, if it reads one.
fn read_path(asked: &Asked) -> Option<&[u8]>
    ensures { option_copied result ≡ read_path asked.now }
{
    match asked {
        Asked::Exists(look)
        | Asked::GetData(look)
        | Asked::GetChildren(look)
        | Asked::GetChildren2(look) => text_in(&look.path),
        Asked::GetAcl(path) => text_in(path),
        _ => None,
    }
}

// Returns the bytes of a text, unless it is null.
fn text_in(text: &Option<Bytes>) -> Option<&[u8]>
    ensures { option_copied result ≡ text.now }
{
    match text {
        Some(bytes) => Some(bytes.as_slice()),
        None => None,
    }
}

// Returns the answer to a read of a node.
fn read(alloc: Global, node: OwnNode, asked: &Asked) -> Result<Answer, Memory>
    ensures { IfOk result (λ answer. answer ≡ read_answer node asked.now) }
{
    let stat = stat_of(node);
    let body = match asked {
        Asked::GetData(_) => Body::DataStat(Some(bytes_of(alloc, &[])?), stat),
        Asked::GetChildren(_) => Body::Names(names_of(alloc, node)?),
        Asked::GetChildren2(_) => Body::NamesStat(names_of(alloc, node)?, stat),
        Asked::GetAcl(_) => Body::AclsStat(acls_for_all(alloc, perms_of(node))?, stat),
        _ => Body::Stat(stat),
    };
    Ok(Answer::done(body))
}

// Returns the stat of a node.
fn stat_of(node: OwnNode) -> StatRecord
    ensures { result ≡ own_stat node }
{
    let (cversion, aversion, num_children) = match node {
        OwnNode::Service => (-2, 0, 2),
        OwnNode::Config => (0, -1, 0),
        OwnNode::Quota => (0, 0, 0),
    };
    StatRecord {
        czxid: 0,
        mzxid: 0,
        ctime: 0,
        mtime: 0,
        version: 0,
        cversion,
        aversion,
        ephemeral_owner: 0,
        data_length: 0,
        num_children,
        pzxid: 0,
    }
}

// Returns the names of a node's children.
fn names_of(alloc: Global, node: OwnNode) -> Result<Texts, Memory>
    ensures { IfOk result (λ names. names ≡ own_names node) }
{
    let mut names = Vec::new(alloc);
    if let OwnNode::Service = node {
        names.push(bytes_of(alloc, b"config")?)?;
        names.push(bytes_of(alloc, b"quota")?)?;
    }
    match Texts::new(names) {
        Some(names) => Ok(names),
        None => unreachable!(),
    }
}

// Returns what anyone may do with a node, by its ACL.
fn perms_of(node: OwnNode) -> i32
    ensures { result ≡ own_perms node }
{
    match node {
        OwnNode::Config => 1,
        OwnNode::Service | OwnNode::Quota => ALL_PERMISSIONS,
    }
}
