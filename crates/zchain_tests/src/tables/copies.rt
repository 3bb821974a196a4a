//! Copies equal what they were copied from.

use std::alloc::Global;
use std::process::Abort;
use zcalls::{
    Check, Create, Data, Delete, Entry, Expected, Kind, Lifetime, Multi, Names, Part, PartReply,
    Query, Replies, Reply, SetData, SharedEntry, Update,
};
use zpath::{Name, Path};
use ztesting::{call_number, client};

#[test]
fn copies_calls(rt: HostRuntime) {
    assert!(rt; copies_an_update(&rt, rt.alloc()));
    assert!(rt; copies_a_query(&rt, rt.alloc()));
    assert!(rt; copies_a_multi(&rt, rt.alloc()));
    assert!(rt; copies_a_delete(&rt, rt.alloc()));
    assert!(rt; copies_a_set(&rt, rt.alloc()));
    assert!(rt; shares_an_entry(&rt, rt.alloc()));
}

#[test]
fn copies_replies(rt: HostRuntime) {
    assert!(rt; copies_parts(&rt, rt.alloc()));
    assert!(rt; copies_names(&rt, rt.alloc()));
}

fn path(rt: &impl Abort, alloc: Global, text: &str) -> Path {
    Path::parse(alloc, text).expect(rt, "the text spells a path")
}

fn copies_an_update(rt: &impl Abort, alloc: Global) -> bool {
    let update = Update::Create(Create {
        path: path(rt, alloc, "/a/b"),
        kind: Kind::sequential(Lifetime::Persistent),
        bytes: Data::empty(),
    });
    let copy = update.copied(alloc).expect(rt, "there is memory");
    drop(update);
    let is_so = matches!(&copy, Update::Create(wanted)
        if wanted.path.names().len() == 2 && wanted.kind == Kind::sequential(Lifetime::Persistent));
    drop(copy);
    is_so
}

// Two owners of an entry show the same, and the one is left when the other goes.
fn shares_an_entry(rt: &impl Abort, alloc: Global) -> bool {
    let entry = Entry {
        client: client(3),
        number: call_number(7),
        update: Update::Open(9),
    };
    let first = SharedEntry::new(alloc, entry).expect(rt, "there is memory");
    let second = first.clone().expect(rt, "there is memory");
    drop(first);
    let shown = second.entry();
    shown.client == client(3)
        && shown.number.number() == 7
        && matches!(&shown.update, Update::Open(ticks) if *ticks == 9)
}

fn copies_a_query(rt: &impl Abort, alloc: Global) -> bool {
    let query = Query::GetChildren(path(rt, alloc, "/a"));
    let copy = query.copied().expect(rt, "there is memory");
    drop(query);
    let is_so = matches!(&copy, Query::GetChildren(path) if path.names().len() == 1);
    drop(copy);
    is_so
}

fn copies_a_multi(rt: &impl Abort, alloc: Global) -> bool {
    match Multi::new(checks(rt, alloc, &["/a", "/b"])) {
        Ok(multi) => {
            let copy = multi.copied(alloc).expect(rt, "there is memory");
            copy.as_slice().len() == 2
        }
        Err(_) => false,
    }
}

fn checks(rt: &impl Abort, alloc: Global, texts: &[&str]) -> Vec<Part> {
    let mut parts = Vec::new(alloc);
    for text in texts {
        let check = Check {
            path: path(rt, alloc, text),
            version: Expected::Any,
        };
        parts.push(Part::Check(check)).expect(rt, "there is memory");
    }
    parts
}

fn copies_a_delete(rt: &impl Abort, alloc: Global) -> bool {
    let delete = Part::Delete(Delete {
        path: Path::root(),
        version: Expected::Exactly(7),
    });
    let copy = delete.copied(alloc).expect(rt, "there is memory");
    drop(delete);
    let is_so = matches!(&copy, Part::Delete(wanted) if wanted.version == Expected::Exactly(7));
    drop(copy);
    is_so
}

fn copies_a_set(rt: &impl Abort, alloc: Global) -> bool {
    let set = Part::SetData(SetData {
        path: Path::root(),
        bytes: Data::empty(),
        version: Expected::Any,
    });
    let copy = set.copied(alloc).expect(rt, "there is memory");
    drop(set);
    let is_so = matches!(&copy, Part::SetData(wanted) if wanted.version == Expected::Any);
    drop(copy);
    is_so
}

fn copies_parts(rt: &impl Abort, alloc: Global) -> bool {
    let mut replies = Vec::new(alloc);
    replies
        .push(PartReply::Deleted)
        .expect(rt, "there is memory");
    let multi = Reply::Multi(Replies::new(replies));
    let copy = multi.copied(alloc).expect(rt, "there is memory");
    drop(multi);
    let is_so = matches!(&copy, Reply::Multi(replies) if replies.as_slice().len() == 1);
    drop(copy);
    is_so
}

fn copies_names(rt: &impl Abort, alloc: Global) -> bool {
    let path = path(rt, alloc, "/a/b/c");
    let children = Reply::Children(names(rt, alloc, path.names()));
    drop(path);
    let copy = children.copied(alloc).expect(rt, "there is memory");
    drop(children);
    let is_so = matches!(&copy, Reply::Children(names) if names.as_slice().len() == 3);
    drop(copy);
    is_so
}

fn names(rt: &impl Abort, alloc: Global, names: &[Name]) -> Names {
    Names::new(Vec::from_clones(alloc, names).expect(rt, "there is memory"))
}
