//! A run to which a client isn't put back.

use std::test::Fail;
use zaudit::{AuditFault, audit};
use zrun::{Cluster, open_gates};
use ztesting::{client, server};

#[test]
fn a_missing_client_is_reported(rt: HostRuntime) -> Result<(), Fail> {
    let alloc = rt.alloc();
    let gates = open_gates(alloc)?;
    let (cluster, console, mut clients) = Cluster::start(rt, alloc, server(1), 2, gates)?;
    let is_gone = clients.take(client(1)).is_some();
    let traces = cluster.join(&rt, alloc, console, clients)?;
    assert!(rt; is_gone && traces.clients.len() == 2);
    assert!(rt; !traces.clients[0].trace.is_cut && traces.clients[1].trace.is_cut);
    assert!(rt; audit(alloc, &traces).err() == Some(AuditFault::Cut));
    Ok(())
}
