//! Which message a process receives next.
//!
//! # Why
//!
//! No client sends to another, so a client looks only at the channels from the master and the
//! servers. With 31 clients these are 17 rings instead of 49.

ghost use Rattle.std.specs.Prelude.{◌≡◌, ◌+◌, ◌<◌, None};
ghost use Rattle.zthreads.specs.Endpoints.{HasTaken, SameEndpoint, SameRest};
ghost use Rattle.zthreads.specs.Hosts.{DidIdle, host_endpoint};

use crate::host::Host;
use crate::{Endpoint, Stamped};
use zprotocol::{MAX_SERVERS, Process};

// How many links are from the master and the servers. They come first.
const SENDERS: usize = MAX_SERVERS as usize + 1;

// Returns the message that counts as still in its ring, or else the next message of a link.
pub(crate) fn front_of(
    endpoint: &mut Endpoint,
    front: &mut Option<(Process, Stamped)>,
    link: usize,
) -> Option<(Process, Stamped)>
    ensures taken { HasTaken endpoint.old endpoint.new front.old result }
    ensures front { front.new ≡ None }
    ensures same { SameRest endpoint.old endpoint.new }
{
    if front.is_some() {
        return front.take();
    }
    if link >= endpoint.links() {
        return None;
    }
    endpoint.take(link)
}

// Returns the link that a client receives from next: the first one with a message after the one
// that it received from last. If no link has a message, it is that last one. A link without a
// message costs one look.
pub(crate) fn next_link(host: &mut Host, last: usize) -> usize
    ensures idle { DidIdle host.old host.new }
    ensures same { SameEndpoint (host_endpoint host.old) (host_endpoint host.new) }
{
    if host.has_front() {
        return last;
    }
    let links = host.links().min(SENDERS);
    let mut link = last;
    for _ in 0..links {
        link = behind(link, links);
        if has_message(host, link) {
            return link;
        }
    }
    last
}

// Returns the link after this one, in a round of n links.
fn behind(link: usize, links: usize) -> usize
    ensures one { 0 < links → result < links }
    ensures next { link + 1 < links → result ≡ link + 1 }
{
    if links > 0 && link < links - 1 {
        link + 1
    } else {
        0
    }
}

// Returns whether that link exists and has a message.
fn has_message(host: &mut Host, link: usize) -> bool
    ensures idle { DidIdle host.old host.new }
    ensures same { SameEndpoint (host_endpoint host.old) (host_endpoint host.new) }
{
    if link >= host.links() {
        return false;
    }
    !host.is_empty(link)
}
