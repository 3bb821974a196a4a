//! A server that is ordered to leave.

use crate::play::first;
use crate::shown::puts;
use std::process::Abort;
use zprotocol::{Epoch, Message, Out, Process, ServerId};
use zserver::{Server, Snapshot, Stopped};

#[test]
fn takes_nothing_more_once_it_was_ordered_to_leave(rt: HostRuntime) {
    let mut middle = first(&rt, rt.alloc(), ServerId::new(1), ServerId::new(3));
    let mut out = Out::new(rt.alloc());
    assert!(rt;
        ends(&rt, &mut middle, Process::Master, Message::Retire, &mut out) == Some(Stopped::Retired)
    );
    let later = becomes_tail(&rt);
    assert!(rt; ends(&rt, &mut middle, Process::Master, later, &mut out) == Some(Stopped::Retired));
    drop(out);
    drop(middle);
}

#[test]
fn is_ordered_to_leave_by_the_master_alone(rt: HostRuntime) {
    let mut middle = first(&rt, rt.alloc(), ServerId::new(1), ServerId::new(3));
    let mut out = Out::new(rt.alloc());
    for number in [1, 2, 3] {
        let server = ServerId::new(number).expect(&rt, "there is such a server");
        assert!(rt;
            ends(
                &rt,
                &mut middle,
                Process::Server(server),
                Message::Retire,
                &mut out
            )
            .is_none()
        );
    }
    drop(out);
    drop(middle);
}

// Returns why the server stopped at a message, if it has; it sends nothing.
fn ends(
    rt: &impl Abort,
    server: &mut Server,
    from: Process,
    message: Message<Snapshot>,
    out: &mut Out<Snapshot>,
) -> Option<Stopped> {
    let stopped = server.take(from, message, out).err();
    puts(rt, out, &[]);
    stopped
}

fn becomes_tail(rt: &impl Abort) -> Message<Snapshot> {
    Message::BecomeTail(Epoch::new(9).expect(rt, "there is such an epoch"))
}
