//! Copies of calls and replies. A copy fails only for out of memory.

ghost use Rattle.std.specs.Prelude.{◌≡◌, IfOk};

use crate::call::{Call, Check, Create, Delete, Part, Query, SetAcl, SetData, Update};
use crate::limits::MOST_PARTS;
use crate::listed::{Names, Replies};
use crate::multi::Multi;
use crate::reply::{PartReply, Reply};
use std::alloc::Global;
use zalloc::Memory;
use zpath::Name;

impl Create {
    /// Returns a copy of the create.
    pub fn copied(&self) -> Result<Create, Memory>
        ensures { IfOk result (λ copy. copy ≡ self.now) }
    {
        Ok(Create {
            path: self.path.clone()?,
            kind: self.kind,
            bytes: self.bytes.clone()?,
        })
    }
}

impl Delete {
    /// Returns a copy of the delete.
    pub fn copied(&self) -> Result<Delete, Memory>
        ensures { IfOk result (λ copy. copy ≡ self.now) }
    {
        Ok(Delete {
            path: self.path.clone()?,
            version: self.version,
        })
    }
}

impl SetData {
    /// Returns a copy of the set.
    pub fn copied(&self) -> Result<SetData, Memory>
        ensures { IfOk result (λ copy. copy ≡ self.now) }
    {
        Ok(SetData {
            path: self.path.clone()?,
            bytes: self.bytes.clone()?,
            version: self.version,
        })
    }
}

impl SetAcl {
    /// Returns a copy of the write.
    pub fn copied(&self) -> Result<SetAcl, Memory>
        ensures { IfOk result (λ copy. copy ≡ self.now) }
    {
        Ok(SetAcl {
            path: self.path.clone()?,
            version: self.version,
        })
    }
}

impl Check {
    /// Returns a copy of the check.
    pub fn copied(&self) -> Result<Check, Memory>
        ensures { IfOk result (λ copy. copy ≡ self.now) }
    {
        Ok(Check {
            path: self.path.clone()?,
            version: self.version,
        })
    }
}

impl Part {
    /// Returns a copy of the part.
    pub fn copied(&self, alloc: Global) -> Result<Part, Memory>
        ensures { IfOk result (λ copy. copy ≡ self.now) }
    {
        match self {
            Part::Create(wanted) => Ok(Part::Create(wanted.copied()?)),
            Part::Delete(wanted) => Ok(Part::Delete(wanted.copied()?)),
            Part::SetData(wanted) => Ok(Part::SetData(wanted.copied()?)),
            Part::Check(wanted) => Ok(Part::Check(wanted.copied()?)),
        }
    }
}

impl Multi {
    /// Returns a copy of the parts.
    pub fn copied(&self, alloc: Global) -> Result<Multi, Memory>
        ensures { IfOk result (λ copy. copy ≡ self.now) }
    {
        let parts = copied_parts(alloc, self.as_slice())?;
        match Multi::within(parts, MOST_PARTS) {
            Ok(multi) => Ok(multi),
            Err(_) => unreachable!(),
        }
    }
}

fn copied_parts(alloc: Global, parts: &[Part]) -> Result<Vec<Part>, Memory>
    ensures { IfOk result (λ copy. copy.items ≡ parts.now) }
{
    let mut copy = Vec::new(alloc);
    for part in parts {
        copy.push(part.copied(alloc)?)?;
    }
    Ok(copy)
}

impl Update {
    /// Returns a copy of the update.
    pub fn copied(&self, alloc: Global) -> Result<Update, Memory>
        ensures { IfOk result (λ copy. copy ≡ self.now) }
    {
        match self {
            Update::Create(wanted) => Ok(Update::Create(wanted.copied()?)),
            Update::Delete(wanted) => Ok(Update::Delete(wanted.copied()?)),
            Update::SetData(wanted) => Ok(Update::SetData(wanted.copied()?)),
            Update::SetAcl(wanted) => Ok(Update::SetAcl(wanted.copied()?)),
            Update::Multi(multi) => Ok(Update::Multi(multi.copied(alloc)?)),
            Update::Open(timeout) => Ok(Update::Open(*timeout)),
            Update::Ping(session) => Ok(Update::Ping(*session)),
            Update::Close(session) => Ok(Update::Close(*session)),
            Update::Tick => Ok(Update::Tick),
        }
    }
}

impl Query {
    /// Returns a copy of the query.
    pub fn copied(&self) -> Result<Query, Memory>
        ensures { IfOk result (λ copy. copy ≡ self.now) }
    {
        match self {
            Query::GetData(path) => Ok(Query::GetData(path.clone()?)),
            Query::Exists(path) => Ok(Query::Exists(path.clone()?)),
            Query::GetChildren(path) => Ok(Query::GetChildren(path.clone()?)),
        }
    }
}

impl Call {
    /// Returns a copy of the call.
    pub fn copied(&self, alloc: Global) -> Result<Call, Memory>
        ensures { IfOk result (λ copy. copy ≡ self.now) }
    {
        match self {
            Call::Update(update) => Ok(Call::Update(update.copied(alloc)?)),
            Call::Query(query) => Ok(Call::Query(query.copied()?)),
        }
    }
}

impl PartReply {
    /// Returns a copy of the reply.
    pub fn copied(&self, alloc: Global) -> Result<PartReply, Memory>
        ensures { IfOk result (λ copy. copy ≡ self.now) }
    {
        match self {
            PartReply::Created(path) => Ok(PartReply::Created(path.clone()?)),
            PartReply::Deleted => Ok(PartReply::Deleted),
            PartReply::Set(stat) => Ok(PartReply::Set(*stat)),
            PartReply::Checked => Ok(PartReply::Checked),
        }
    }
}

impl Replies {
    /// Returns a copy of the replies.
    pub fn copied(&self, alloc: Global) -> Result<Replies, Memory>
        ensures { IfOk result (λ copy. copy ≡ self.now) }
    {
        let replies = copied_replies(alloc, self.as_slice())?;
        Ok(Replies::new(replies))
    }
}

fn copied_replies(alloc: Global, replies: &[PartReply]) -> Result<Vec<PartReply>, Memory>
    ensures { IfOk result (λ copy. copy.items ≡ replies.now) }
{
    let mut copy = Vec::new(alloc);
    for reply in replies {
        copy.push(reply.copied(alloc)?)?;
    }
    Ok(copy)
}

impl Names {
    /// Returns a copy of the names.
    pub fn copied(&self, alloc: Global) -> Result<Names, Memory>
        ensures { IfOk result (λ copy. copy ≡ self.now) }
    {
        let names = copied_names(alloc, self.as_slice())?;
        Ok(Names::new(names))
    }
}

fn copied_names(alloc: Global, names: &[Name]) -> Result<Vec<Name>, Memory>
    ensures { IfOk result (λ copy. copy.items ≡ names.now) }
{
    let mut copy = Vec::new(alloc);
    for name in names {
        copy.push(name.clone()?)?;
    }
    Ok(copy)
}

impl Reply {
    /// Returns a copy of the reply.
    pub fn copied(&self, alloc: Global) -> Result<Reply, Memory>
        ensures { IfOk result (λ copy. copy ≡ self.now) }
    {
        match self {
            Reply::Created(path) => Ok(Reply::Created(path.clone()?)),
            Reply::Deleted => Ok(Reply::Deleted),
            Reply::Set(stat) => Ok(Reply::Set(*stat)),
            Reply::Multi(replies) => Ok(Reply::Multi(replies.copied(alloc)?)),
            Reply::Opened(session, timeout) => Ok(Reply::Opened(*session, *timeout)),
            Reply::Pinged => Ok(Reply::Pinged),
            Reply::Closed => Ok(Reply::Closed),
            Reply::Ticked(tick, ended, removed) => Ok(Reply::Ticked(*tick, *ended, *removed)),
            Reply::Data(bytes, stat) => Ok(Reply::Data(bytes.clone()?, *stat)),
            Reply::Exists(stat) => Ok(Reply::Exists(*stat)),
            Reply::Children(names) => Ok(Reply::Children(names.copied(alloc)?)),
            Reply::Refused(refusal) => Ok(Reply::Refused(*refusal)),
            Reply::MultiRefused(part, refusal) => Ok(Reply::MultiRefused(*part, *refusal)),
        }
    }
}
