//! Traces from a table, and what an audit of them says.

use crate::audit_stories::{Deed, Seen, Step};
use std::alloc::Global;
use std::test::Fail;
use zaudit::{AuditFault, audit};
use zcalls::{Call, CallNumber, ClientId, Create, Kind, Lifetime, Query, Reply, Update};
use zpath::Path;
use zprotocol::traces::{Act, ClientTrace, Stamp, Trace, TraceEvent, Traces};
use zprotocol::world::{CallEvent, Outcome};
use zprotocol::{Order, Process};
use ztesting::{call_number, client, server};
use ztree::{Data, Stat, Zxid};

fn process(number: u8) -> Process {
    match number {
        0 => Process::Master,
        1 => Process::Server(server(1)),
        2 => Process::Client(client(0)),
        _ => Process::Server(server(2)),
    }
}

fn creates(alloc: Global) -> Result<Call, Fail> {
    Ok(Call::Update(Update::Create(Create {
        path: Path::parse(alloc, "/a")?,
        kind: Kind::named(Lifetime::Persistent),
        bytes: Data::empty(),
    })))
}

fn gets(alloc: Global) -> Result<Call, Fail> {
    Ok(Call::Query(Query::GetData(Path::parse(alloc, "/a")?)))
}

fn act(alloc: Global, deed: Deed) -> Result<Act, Fail> {
    match deed {
        Deed::Takes(from) => Ok(Act::Took(process(from), Outcome::Acted)),
        Deed::Creates => Ok(Act::Began(creates(alloc)?)),
        Deed::Gets => Ok(Act::Began(gets(alloc)?)),
        Deed::Retries => Ok(Act::Retried),
        Deed::Joins(_) => Ok(Act::Ordered(Order::Join(server(1)))),
        Deed::Retires => Ok(Act::Ordered(Order::Retire(server(1)))),
        Deed::Leaves => Ok(Act::Left),
        Deed::Halts => Ok(Act::Halted),
    }
}

// The trace of the process of that number.
fn trace(alloc: Global, steps: &[Step], number: u8, cut: Option<u8>) -> Result<Trace, Fail> {
    let mut events = Vec::new(alloc);
    for &(whose, stamp, deed) in steps {
        if whose == number {
            let stamp = Stamp::new(stamp).ok_or("there is such a stamp")?;
            events.push(TraceEvent {
                stamp,
                act: act(alloc, deed)?,
            })?;
        }
    }
    Ok(Trace {
        events,
        is_cut: cut == Some(number),
    })
}

// The stat of a node without data and children.
fn stat(made: u64) -> Stat {
    Stat {
        czxid: Zxid::new(made),
        mzxid: Zxid::new(made),
        pzxid: Zxid::new(made),
        ctime: 0,
        mtime: 0,
        version: 0,
        cversion: 0,
        aversion: 0,
        owner: 0,
        length: 0,
        children: 0,
    }
}

fn event(alloc: Global, seen: Seen) -> Result<CallEvent, Fail> {
    let (c, first, second) = (client(0), call_number(1), call_number(2));
    match seen {
        Seen::Create => Ok(CallEvent::Begin(c, first, creates(alloc)?)),
        Seen::Created => Ok(CallEvent::Answer(c, first, Reply::Created(Path::parse(alloc, "/a")?))),
        Seen::Get => Ok(CallEvent::Begin(c, second, gets(alloc)?)),
        Seen::Reported(made) => Ok(CallEvent::Answer(
            c,
            second,
            Reply::Data(Data::empty(), stat(made)),
        )),
    }
}

fn record(alloc: Global, seen: &[Seen]) -> Result<Vec<CallEvent>, Fail> {
    let mut events = Vec::new(alloc);
    for &each in seen {
        events.push(event(alloc, each)?)?;
    }
    Ok(events)
}

/// The traces of one server and one client; that of the process of the number `cut` is marked as
/// cut.
pub fn traces(
    alloc: Global,
    steps: &[Step],
    seen: &[Seen],
    cut: Option<u8>,
) -> Result<Traces, Fail> {
    let mut servers = Vec::new(alloc);
    servers.push(trace(alloc, steps, 1, cut)?)?;
    let mut clients = Vec::new(alloc);
    clients.push(ClientTrace {
        trace: trace(alloc, steps, 2, cut)?,
        record: record(alloc, seen)?,
    })?;
    let master = trace(alloc, steps, 0, cut)?;
    Ok(Traces {
        last: server(1),
        master,
        servers,
        clients,
    })
}

// Whether it is the client's call of that number.
fn is_call(of: ClientId, number: CallNumber, wanted: u64) -> bool {
    of.number() == 0 && number.number() == wanted
}

// Whether it is the path of the one node.
fn is_the_node(path: &Path) -> bool {
    path.names().len() == 1 && path.names()[0].as_str() == "a"
}

// Whether an event of the history is just what was seen.
fn is_reported(event: &CallEvent, seen: Seen) -> bool {
    match (event, seen) {
        (CallEvent::Begin(of, number, Call::Update(Update::Create(create))), Seen::Create) => {
            is_call(*of, *number, 1)
                && is_the_node(&create.path)
                && create.kind == Kind::named(Lifetime::Persistent)
                && create.bytes.as_slice().is_empty()
        }
        (CallEvent::Answer(of, number, Reply::Created(path)), Seen::Created) => {
            is_call(*of, *number, 1) && is_the_node(path)
        }
        (CallEvent::Begin(of, number, Call::Query(Query::GetData(path))), Seen::Get) => {
            is_call(*of, *number, 2) && is_the_node(path)
        }
        (CallEvent::Answer(of, number, Reply::Data(bytes, reported)), Seen::Reported(made)) => {
            is_call(*of, *number, 2) && bytes.as_slice().is_empty() && *reported == stat(made)
        }
        _ => false,
    }
}

// Whether the history is just what was seen.
fn is_history(history: &[CallEvent], seen: &[Seen]) -> bool {
    history.len() == seen.len()
        && history
            .iter()
            .zip(seen)
            .all(|(event, &each)| is_reported(event, each))
}

/// What the audit says, in a word: that the history is just what was seen, or its fault.
pub fn verdict(alloc: Global, traces: &Traces, seen: &[Seen]) -> &'static str {
    match audit(alloc, traces) {
        Ok(history) => if is_history(&history, seen) {
            "ok"
        } else {
            "another history"
        },
        Err(AuditFault::Cut) => "cut",
        Err(AuditFault::Disorder) => "disorder",
        Err(AuditFault::Mismatch) => "mismatch",
        Err(AuditFault::Memory) => "memory",
    }
}
