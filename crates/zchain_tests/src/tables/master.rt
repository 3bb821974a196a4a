//! The master repairs a chain, lets servers join it and orders them to leave, or says why not.

use crate::tables::posts::{Outbox, next_config, next_server, server};
use Act::{Gone, Join, Retire};
use std::alloc::Global;
use std::process::Abort;
use zmaster::{JoinFault, MAX_POSTS, Master, RetireFault};
use zprotocol::{Epoch, Message, Out, Process};

// The server that receives a message, and the epoch and the tail that a client receives.
type Posts = (Option<u8>, Option<(u64, u8)>);

// How many servers there are, what happens to them, and why the last of it is refused.
const REFUSED: [(u8, [Act; 3], JoinFault); 5] = [
    (2, [Join(3), Join(4), Join(3)], JoinFault::Used),
    (2, [Gone(1), Join(3), Join(4)], JoinFault::Joining),
    (1, [Gone(2), Gone(1), Join(2)], JoinFault::Used),
    (1, [Gone(2), Gone(1), Join(3)], JoinFault::NoChain),
    (1, [Join(2), Gone(1), Join(3)], JoinFault::Lost),
];

// How many servers there are, what happens to them, and which of them isn't ordered to leave then,
// and why.
const STAYS: [(u8, [Act; 2], u8, RetireFault); 5] = [
    (3, [Gone(4), Gone(2)], 2, RetireFault::NotMember),
    (2, [Gone(4), Join(3)], 1, RetireFault::Joining),
    (1, [Gone(4), Gone(3)], 1, RetireFault::Last),
    (3, [Gone(4), Retire(1)], 2, RetireFault::Retiring),
    (3, [Retire(1), Gone(1)], 1, RetireFault::NotMember),
];

#[test]
fn mends_a_chain(rt: HostRuntime) {
    for (gone, reported, tail) in [(1, 2, 3), (2, 3, 3), (3, 2, 2)] {
        let posts = posts_of_repair(&rt, rt.alloc(), gone);
        assert!(rt; posts == (Some(reported), Some((1, tail))));
    }
}

#[test]
fn lets_a_server_join(rt: HostRuntime) {
    let posts = posts_of_join(&rt, rt.alloc());
    assert!(rt; posts == (Some(3), Some((2, 3))));
}

#[test]
fn refuses_by_the_first_fault(rt: HostRuntime) {
    for (servers, acts, fault) in &REFUSED {
        let refused = last_fault(&rt, rt.alloc(), *servers, acts);
        assert!(rt; refused == Some(*fault));
    }
}

#[test]
fn orders_a_member_to_leave(rt: HostRuntime) {
    let reported = posts_of_retirement(&rt, rt.alloc());
    assert!(rt; reported == Some(2));
}

#[test]
fn lets_members_stay_by_the_first_fault(rt: HostRuntime) {
    for (servers, acts, member, fault) in &STAYS {
        let stays = leaves_after(&rt, rt.alloc(), *servers, acts, *member);
        assert!(rt; stays == Some(*fault));
    }
}

#[test]
fn refuses_to_join_while_a_member_leaves(rt: HostRuntime) {
    let acts = [Gone(5), Retire(1), Join(4)];
    let refused = last_fault(&rt, rt.alloc(), 3, &acts);
    assert!(rt; refused == Some(JoinFault::Retiring));
}

// What happens to a chain: a server fails, is to join, or is ordered to leave.
#[derive(Clone, Copy)]
enum Act {
    Gone(u8),
    Join(u8),
    Retire(u8),
}

// Returns why the last of these acts was refused, on a chain of this many servers.
fn last_fault(rt: &impl Abort, alloc: Global, servers: u8, acts: &[Act]) -> Option<JoinFault> {
    let mut master = Master::new(server(rt, servers), 1);
    let mut out: Outbox = Out::new(alloc);
    let mut fault = None;
    for act in acts {
        fault = act_on(rt, &mut master, *act, &mut out);
    }
    drop(out);
    fault
}

fn act_on(rt: &impl Abort, master: &mut Master, act: Act, out: &mut Outbox) -> Option<JoinFault> {
    out.reserve(MAX_POSTS).expect(rt, "there is memory");
    match act {
        Gone(number) => {
            master.take(Process::Server(server(rt, number)), Message::Gone, out);
            None
        }
        Join(number) => master.join(server(rt, number), out).err(),
        Retire(number) => {
            master
                .retire(server(rt, number), out)
                .expect(rt, "it may leave");
            None
        }
    }
}

// Returns why this member isn't ordered to leave after these acts, on a chain of this many servers.
fn leaves_after(
    rt: &impl Abort,
    alloc: Global,
    servers: u8,
    acts: &[Act],
    member: u8,
) -> Option<RetireFault> {
    let mut master = Master::new(server(rt, servers), 1);
    let mut out: Outbox = Out::new(alloc);
    for act in acts {
        let _ = act_on(rt, &mut master, *act, &mut out);
    }
    out.reserve(MAX_POSTS).expect(rt, "there is memory");
    let fault = master.retire(server(rt, member), &mut out).err();
    drop(out);
    fault
}

// Returns whom the master notifies where the second of three servers is ordered to leave.
fn posts_of_retirement(rt: &impl Abort, alloc: Global) -> Option<u8> {
    let mut master = Master::new(server(rt, 3), 1);
    let mut out: Outbox = Out::new(alloc);
    act_on(rt, &mut master, Retire(2), &mut out);
    let reported = next_server(&mut out);
    drop(out);
    reported
}

// Returns what the master sends where this one of three servers fails.
fn posts_of_repair(rt: &impl Abort, alloc: Global, gone: u8) -> Posts {
    let mut master = Master::new(server(rt, 3), 1);
    let mut out: Outbox = Out::new(alloc);
    act_on(rt, &mut master, Gone(gone), &mut out);
    let posts = (next_server(&mut out), next_config(&mut out));
    drop(out);
    posts
}

// Returns what it sends where a third server joins.
fn posts_of_join(rt: &impl Abort, alloc: Global) -> Posts {
    let mut master = Master::new(server(rt, 2), 1);
    let mut out: Outbox = Out::new(alloc);
    act_on(rt, &mut master, Join(3), &mut out);
    let reported = next_server(&mut out);
    has_joined(rt, &mut master, 3, &mut out);
    let tail = next_config(&mut out);
    drop(out);
    (reported, tail)
}

// The master learns that a server has joined in epoch 1.
fn has_joined(rt: &impl Abort, master: &mut Master, number: u8, out: &mut Outbox) {
    let epoch = Epoch::new(1).expect(rt, "there is such an epoch");
    out.reserve(MAX_POSTS).expect(rt, "there is memory");
    master.take(
        Process::Server(server(rt, number)),
        Message::Joined(epoch),
        out,
    );
}
