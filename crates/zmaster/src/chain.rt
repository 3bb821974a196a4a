//! The chain of servers: the position of a member, and how the chain is repaired.

ghost use Rattle.std.specs.Prelude.{◌≡◌, ◌<◌, ◌≤◌, ◌==◌, length, map};
ghost use Rattle.std.specs.List.{last_or, position};
ghost use Rattle.zprotocol.specs.master.Table.{before};
ghost use Rattle.zprotocol.specs.Posts.{PutsInRoom};
ghost use Rattle.zmaster.specs.support.Mending.{joins, with_state, who_stays, mended_at};
ghost use Rattle.zmaster.specs.support.Mending.{chain_fault};

use crate::limits::SERVERS;
use crate::member::Member;
use arrayvec::ArrayVec;
use zprotocol::{Epoch, Message, OrderFault, Out, Process, ServerId};

/// The members, from the head down.
pub(crate) type Members = ArrayVec<Member, SERVERS>;

/// Returns the position of the server in the chain.
pub(crate) fn position_of(members: &[Member], server: ServerId) -> Option<usize>
    ensures { result ≡ position (λ member. member.0 == server) members.now }
{
    members
        .iter()
        .position(|member| member.id().number() == server.number())
}

/// Returns the predecessor of the server, where their pair has this epoch. The head has none.
pub(crate) fn member_before(members: &[Member], server: ServerId, epoch: Epoch) -> Option<ServerId>
    ensures { result ≡ before server epoch members.now }
{
    let (first, rest) = members.split_first()?;
    let next = rest.first()?;
    if next.id().number() == server.number() && next.epoch().number() == epoch.number() {
        return Some(first.id());
    }
    member_before(rest, server, epoch)
}

/// Returns whether this server is the one that is joining.
pub(crate) fn is_the_joining(joining: &Option<ServerId>, server: ServerId) -> bool
    ensures { result ≡ joins joining.now server }
{
    match joining {
        Some(joining) => joining.number() == server.number(),
        None => false,
    }
}

/// Returns the server, unless it is the one that is gone.
pub(crate) fn who_stays(who: Option<ServerId>, gone: ServerId) -> Option<ServerId>
    ensures { result ≡ who_stays who gone }
{
    match who {
        Some(one) if one.number() == gone.number() => None,
        _ => who,
    }
}

/// Returns why no server can join this chain: another one is joining, or no member can hand over
/// the state.
pub(crate) fn chain_fault(members: &[Member], joining: &Option<ServerId>) -> Option<OrderFault>
    ensures { result ≡ chain_fault joining.now members.now }
{
    match members {
        [] => Some(OrderFault::NoChain),
        [only] if is_the_joining(joining, only.id()) => Some(OrderFault::Lost),
        [_] => None,
        _ if joining.is_some() => Some(OrderFault::Joining),
        _ => None,
    }
}

/// Returns the last member that isn't joining, or else `found`.
pub(crate) fn last_with_state(
    members: &[Member],
    joining: &Option<ServerId>,
    found: Option<ServerId>,
) -> Option<ServerId>
    ensures { result ≡ last_or found (with_state joining.now members.now) }
{
    let Some((first, rest)) = members.split_first() else {
        return found;
    };
    if is_the_joining(joining, first.id()) {
        return last_with_state(rest, joining, found);
    }
    last_with_state(rest, joining, Some(first.id()))
}

/// Returns the last member, or else `found`.
pub(crate) fn last_member(members: &[Member], found: Option<ServerId>) -> Option<ServerId>
    ensures { result ≡ last_or found (map (λ member. member.0) members.now) }
{
    let Some((first, rest)) = members.split_first() else {
        return found;
    };
    last_member(rest, Some(first.id()))
}

/// Repairs the chain after the member at this position has gone, and informs its neighbours.
pub(crate) fn mend<T: Drop>(members: &mut Members, at: usize, epoch: Epoch, out: &mut Out<T>)
    requires within { at ≤ length members.old.items }
    requires room { 0 < out.old.room }
    ensures chain { members.new.items ≡ (mended_at {T = T} epoch at members.old.items).0 }
    ensures puts { PutsInRoom out.old out.new (mended_at epoch at members.old.items).1 }
{
    if at == 0 {
        if let Some(head) = members.first() {
            out.put_reserved(Process::Server(head.id()), Message::BecomeHead(epoch));
        }
        return;
    }
    let before = members[at - 1].id();
    if at == members.len() {
        out.put_reserved(Process::Server(before), Message::BecomeTail(epoch));
        return;
    }
    out.put_reserved(
        Process::Server(members[at].id()),
        Message::NewPred(epoch, before),
    );
    let next = members[at].id();
    members[at] = Member::new(next, epoch);
}
