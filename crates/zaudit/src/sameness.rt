//! Whether two things that callers saw are equal: calls, replies and their parts.

ghost use Rattle.std.specs.Prelude.{◌≡◌, true, false};

use zcalls::{
    Call, Check, Create, Delete, Multi, Names, Part, PartReply, Query, Replies, Reply, SetAcl,
    SetData, Update,
};
use zpath::{Name, Path};
use zprotocol::world::CallEvent;
use ztree::Data;

fn is_same_path(a: &Path, b: &Path) -> bool
    ensures yes { result ≡ true → a.now ≡ b.now }
    ensures no { result ≡ false → a.now ≡ b.now → ⊥ }
{
    a == b
}

fn is_same_name(a: &Name, b: &Name) -> bool
    ensures yes { result ≡ true → a.now ≡ b.now }
    ensures no { result ≡ false → a.now ≡ b.now → ⊥ }
{
    a == b
}

fn is_same_data(a: &Data, b: &Data) -> bool
    ensures yes { result ≡ true → a.now ≡ b.now }
    ensures no { result ≡ false → a.now ≡ b.now → ⊥ }
{
    a.as_slice() == b.as_slice()
}

fn is_same_create(a: &Create, b: &Create) -> bool
    ensures yes { result ≡ true → a.now ≡ b.now }
    ensures no { result ≡ false → a.now ≡ b.now → ⊥ }
{
    is_same_path(&a.path, &b.path) && a.kind == b.kind && is_same_data(&a.bytes, &b.bytes)
}

fn is_same_delete(a: &Delete, b: &Delete) -> bool
    ensures yes { result ≡ true → a.now ≡ b.now }
    ensures no { result ≡ false → a.now ≡ b.now → ⊥ }
{
    is_same_path(&a.path, &b.path) && a.version == b.version
}

fn is_same_set(a: &SetData, b: &SetData) -> bool
    ensures yes { result ≡ true → a.now ≡ b.now }
    ensures no { result ≡ false → a.now ≡ b.now → ⊥ }
{
    is_same_path(&a.path, &b.path) && is_same_data(&a.bytes, &b.bytes) && a.version == b.version
}

fn is_same_set_acl(a: &SetAcl, b: &SetAcl) -> bool
    ensures yes { result ≡ true → a.now ≡ b.now }
    ensures no { result ≡ false → a.now ≡ b.now → ⊥ }
{
    is_same_path(&a.path, &b.path) && a.version == b.version
}

fn is_same_check(a: &Check, b: &Check) -> bool
    ensures yes { result ≡ true → a.now ≡ b.now }
    ensures no { result ≡ false → a.now ≡ b.now → ⊥ }
{
    is_same_path(&a.path, &b.path) && a.version == b.version
}

fn is_same_part(a: &Part, b: &Part) -> bool
    ensures yes { result ≡ true → a.now ≡ b.now }
    ensures no { result ≡ false → a.now ≡ b.now → ⊥ }
{
    match (a, b) {
        (Part::Create(a), Part::Create(b)) => is_same_create(a, b),
        (Part::Delete(a), Part::Delete(b)) => is_same_delete(a, b),
        (Part::SetData(a), Part::SetData(b)) => is_same_set(a, b),
        (Part::Check(a), Part::Check(b)) => is_same_check(a, b),
        _ => false,
    }
}

fn are_same_parts(a: &[Part], b: &[Part]) -> bool
    ensures yes { result ≡ true → a.now ≡ b.now }
    ensures no { result ≡ false → a.now ≡ b.now → ⊥ }
{
    if a.len() != b.len() {
        return false;
    }
    for at in 0..a.len() {
        if !is_same_part(&a[at], &b[at]) {
            return false;
        }
    }
    true
}

fn is_same_update(a: &Update, b: &Update) -> bool
    ensures yes { result ≡ true → a.now ≡ b.now }
    ensures no { result ≡ false → a.now ≡ b.now → ⊥ }
{
    match (a, b) {
        (Update::Create(a), Update::Create(b)) => is_same_create(a, b),
        (Update::Delete(a), Update::Delete(b)) => is_same_delete(a, b),
        (Update::SetData(a), Update::SetData(b)) => is_same_set(a, b),
        (Update::SetAcl(a), Update::SetAcl(b)) => is_same_set_acl(a, b),
        (Update::Multi(a), Update::Multi(b)) => are_same_parts(a.as_slice(), b.as_slice()),
        (Update::Open(a), Update::Open(b)) => a == b,
        (Update::Ping(a), Update::Ping(b)) => a == b,
        (Update::Close(a), Update::Close(b)) => a == b,
        (Update::Tick, Update::Tick) => true,
        _ => false,
    }
}

fn is_same_query(a: &Query, b: &Query) -> bool
    ensures yes { result ≡ true → a.now ≡ b.now }
    ensures no { result ≡ false → a.now ≡ b.now → ⊥ }
{
    match (a, b) {
        (Query::GetData(a), Query::GetData(b)) => is_same_path(a, b),
        (Query::Exists(a), Query::Exists(b)) => is_same_path(a, b),
        (Query::GetChildren(a), Query::GetChildren(b)) => is_same_path(a, b),
        _ => false,
    }
}

fn is_same_call(a: &Call, b: &Call) -> bool
    ensures yes { result ≡ true → a.now ≡ b.now }
    ensures no { result ≡ false → a.now ≡ b.now → ⊥ }
{
    match (a, b) {
        (Call::Update(a), Call::Update(b)) => is_same_update(a, b),
        (Call::Query(a), Call::Query(b)) => is_same_query(a, b),
        _ => false,
    }
}

fn is_same_part_reply(a: &PartReply, b: &PartReply) -> bool
    ensures yes { result ≡ true → a.now ≡ b.now }
    ensures no { result ≡ false → a.now ≡ b.now → ⊥ }
{
    match (a, b) {
        (PartReply::Created(a), PartReply::Created(b)) => is_same_path(a, b),
        (PartReply::Deleted, PartReply::Deleted) => true,
        (PartReply::Set(a), PartReply::Set(b)) => a == b,
        (PartReply::Checked, PartReply::Checked) => true,
        _ => false,
    }
}

fn are_same_replies(a: &[PartReply], b: &[PartReply]) -> bool
    ensures yes { result ≡ true → a.now ≡ b.now }
    ensures no { result ≡ false → a.now ≡ b.now → ⊥ }
{
    if a.len() != b.len() {
        return false;
    }
    for at in 0..a.len() {
        if !is_same_part_reply(&a[at], &b[at]) {
            return false;
        }
    }
    true
}

fn are_same_names(a: &[Name], b: &[Name]) -> bool
    ensures yes { result ≡ true → a.now ≡ b.now }
    ensures no { result ≡ false → a.now ≡ b.now → ⊥ }
{
    a == b
}

fn is_same_reply(a: &Reply, b: &Reply) -> bool
    ensures yes { result ≡ true → a.now ≡ b.now }
    ensures no { result ≡ false → a.now ≡ b.now → ⊥ }
{
    match (a, b) {
        (Reply::Created(a), Reply::Created(b)) => is_same_path(a, b),
        (Reply::Deleted, Reply::Deleted) => true,
        (Reply::Set(a), Reply::Set(b)) => a == b,
        (Reply::Multi(a), Reply::Multi(b)) => are_same_replies(a.as_slice(), b.as_slice()),
        (Reply::Opened(a, s), Reply::Opened(b, t)) => a == b && s == t,
        (Reply::Pinged, Reply::Pinged) => true,
        (Reply::Closed, Reply::Closed) => true,
        (Reply::Ticked(a, s, x), Reply::Ticked(b, t, y)) => a == b && s == t && x == y,
        (Reply::Data(a, s), Reply::Data(b, t)) => is_same_data(a, b) && s == t,
        (Reply::Exists(a), Reply::Exists(b)) => a == b,
        (Reply::Children(a), Reply::Children(b)) => are_same_names(a.as_slice(), b.as_slice()),
        (Reply::Refused(a), Reply::Refused(b)) => a == b,
        (Reply::MultiRefused(a, r), Reply::MultiRefused(b, s)) => a == b && r == s,
        _ => false,
    }
}

/// Returns whether two events of a history are equal.
pub(crate) fn is_same_event(a: &CallEvent, b: &CallEvent) -> bool
    ensures yes { result ≡ true → a.now ≡ b.now }
    ensures no { result ≡ false → a.now ≡ b.now → ⊥ }
{
    match (a, b) {
        (CallEvent::Begin(c, m, a), CallEvent::Begin(d, n, b)) => {
            c == d && m == n && is_same_call(a, b)
        }
        (CallEvent::Answer(c, m, a), CallEvent::Answer(d, n, b)) => {
            c == d && m == n && is_same_reply(a, b)
        }
        _ => false,
    }
}
