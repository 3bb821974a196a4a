//! Each kind of record is written, and read again.

ghost use Rattle.std.specs.Prelude.{◌≡◌};

use std::alloc::Global;
use std::test::Fail;
use zcalls::{
    Check, Create, Data, Delete, Expected, Kind, Lifetime, Multi, Part, SessionId, SetAcl, SetData,
    Ttl, Update,
};
use zpasswords::Password;
use zpath::Path;
use zprotocol::ServerId;
use ztree::MOST_DATA;
use zwire::records::{MAX_ROW_BYTES, Record, Row, next_record, read_records, write_records};

// A create of a node with this many bytes.
fn create(alloc: Global, path: &str, kind: Kind, len: usize) -> Option<Create> {
    let path = Path::parse(alloc, path).ok()?;
    let bytes = vec![in alloc; 7u8; len].ok()?;
    let bytes = Data::within(alloc, bytes, MOST_DATA).ok()?;
    Some(Create { path, kind, bytes })
}

// A multi of a part of each kind.
fn multi(alloc: Global) -> Option<Multi> {
    let mut parts = Vec::new(alloc);
    let made = create(alloc, "/a", Kind::named(Lifetime::Persistent), 0)?;
    parts.push(Part::Create(made)).ok()?;
    let path = Path::parse(alloc, "/a").ok()?;
    let version = Expected::Any;
    parts.push(Part::Check(Check { path, version })).ok()?;
    let path = Path::parse(alloc, "/a").ok()?;
    let version = Expected::Exactly(0);
    parts.push(Part::Delete(Delete { path, version })).ok()?;
    let path = Path::parse(alloc, "/b").ok()?;
    let bytes = Data::empty();
    let version = Expected::Exactly(u64::MAX);
    parts
        .push(Part::SetData(SetData {
            path,
            bytes,
            version,
        }))
        .ok()?;
    Multi::new(parts).ok()
}

// A write of an access control list.
fn set_acl(alloc: Global) -> Option<SetAcl> {
    let path = Path::parse(alloc, "/a").ok()?;
    let version = Expected::Exactly(3);
    Some(SetAcl { path, version })
}

// A create of each kind of node.
fn kinds(alloc: Global, records: &mut Vec<Record>) -> Option<()> {
    let ttl = Ttl::new(1 << 20)?;
    let session = SessionId::new(u64::MAX);
    let kinds = [
        Kind::named(Lifetime::Persistent),
        Kind::sequential(Lifetime::Persistent),
        Kind::named(Lifetime::WithTtl(ttl)),
        Kind::sequential(Lifetime::WithTtl(ttl)),
        Kind::named(Lifetime::Ephemeral(session)),
        Kind::sequential(Lifetime::Ephemeral(session)),
        Kind::named(Lifetime::Container),
        Kind::sequential(Lifetime::Container),
    ];
    for kind in kinds {
        let made = create(alloc, "/a", kind, 2)?;
        records.push(Record::Update(Update::Create(made))).ok()?;
    }
    Some(())
}

// Records of the other kinds, the greatest data among them.
fn others(alloc: Global, records: &mut Vec<Record>) -> Option<()> {
    let largest = create(alloc, "/", Kind::named(Lifetime::Persistent), MOST_DATA)?;
    records.push(Record::Update(Update::Create(largest))).ok()?;
    let updates = [
        Update::Multi(multi(alloc)?),
        Update::SetAcl(set_acl(alloc)?),
        Update::Open(u64::MAX),
        Update::Ping(SessionId::new(0)),
        Update::Close(SessionId::new(1)),
        Update::Tick,
    ];
    for update in updates {
        records.push(Record::Update(update)).ok()?;
    }
    records
        .push(Record::Password(Password::new([255; 16])))
        .ok()?;
    let server = ServerId::new(16)?;
    records.push(Record::Fail(server)).ok()?;
    records.push(Record::Join(server)).ok()?;
    records.push(Record::Retire(server)).ok()?;
    let bytes = vec![in alloc; 255u8; MAX_ROW_BYTES as usize].ok()?;
    records.push(Record::Row(Row::new(bytes)?)).ok()
}

#[test]
fn each_is_read_again(rt: HostRuntime) -> Result<(), Fail> {
    let alloc = rt.alloc();
    let mut records = Vec::new(alloc);
    kinds(alloc, &mut records).ok_or("creates")?;
    others(alloc, &mut records).ok_or("records")?;
    let mut text = Vec::new(alloc);
    write_records(alloc, &records, &mut text)?;
    let read = read_records(alloc, &text)?;
    assert_eq!(rt; read.len(), records.len());
    let mut again = Vec::new(alloc);
    write_records(alloc, &read, &mut again)?;
    assert!(rt; again == text);
    Ok(())
}

#[test]
fn lines_are_base64(rt: HostRuntime) -> Result<(), Fail> {
    let alloc = rt.alloc();
    let records = vec![in alloc; Record::Update(Update::Tick)]?;
    let mut text = Vec::new(alloc);
    write_records(alloc, &records, &mut text)?;
    write_records(alloc, &records, &mut text)?;
    assert!(rt; text.as_slice() == b"AQc=\nAQc=\n".as_slice());
    let (_, rest) = next_record(alloc, &text)?.ok_or("a record")?;
    assert!(rt; rest == b"AQc=\n".as_slice());
    Ok(())
}
