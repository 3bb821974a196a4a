//! What was sent is received in the same order.

use crate::tables::posts::{Outbox, next_config, next_server, server};
use std::alloc::Global;
use std::process::Abort;
use zprotocol::{Epoch, Message, Out, Process};

#[test]
fn takes_in_the_order_of_puts(rt: HostRuntime) {
    let mut out = two_posts(&rt, rt.alloc());
    assert!(rt; next_config(&mut out) == Some((1, 2)));
    assert!(rt; next_server(&mut out) == Some(2));
    drop(out);
}

// Returns a configuration, in reserved room, and after it a message to server 2.
fn two_posts(rt: &impl Abort, alloc: Global) -> Outbox {
    let server = server(rt, 2);
    let epoch = Epoch::new(1).expect(rt, "there is such an epoch");
    let mut out: Outbox = Out::new(alloc);
    out.reserve(1).expect(rt, "there is memory");
    out.put_reserved(Process::Master, Message::Config(epoch, None, Some(server)));
    let put = out.put(Process::Server(server), Message::Gone);
    let is_put = put.is_ok();
    drop(put);
    assert!(rt; is_put);
    out
}
