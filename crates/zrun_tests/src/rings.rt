//! A ring that is full.

ghost use Rattle.std.specs.Prelude.{◌≡◌, IfSome};
ghost use Rattle.zchannels.specs.Rings.{ring_of_rx, ring_of_tx};

use std::test::Fail;
use std::thread;
use std::thread::join;
use zchannels::rings::{Rx, Tx, link, reported};
use zprotocol::Message;
use ztesting::{epoch, log_number};

const MESSAGES: u64 = 1_000;

// Puts all, before any is taken.
fn put_all(mut tx: Tx<Message<()>>) -> Option<Tx<Message<()>>>
    ensures { IfSome result (λ full. ring_of_tx full ≡ ring_of_tx tx) }
{
    for number in 1..=MESSAGES {
        let message = Message::Ack(epoch(0), log_number(number));
        if let Err(refused) = tx.put(message) {
            drop(refused);
            return None;
        }
    }
    tx.flush();
    Some(tx)
}

// Flushes until nothing waits, a hundred million times at most.
fn flush_all(mut tx: Tx<Message<()>>) -> Tx<Message<()>>
    ensures { ring_of_tx result ≡ ring_of_tx tx }
{
    for _ in 0..100_000_000u64 {
        tx.flush();
        if !tx.has_waiting() {
            return tx;
        }
        thread::yield_now();
    }
    tx
}

// Whether it is the message of that number.
fn is_ack(message: &Message<()>, wanted: u64) -> bool {
    match message {
        Message::Ack(_, number) => number.number() == wanted,
        _ => false,
    }
}

// Takes until all came, and counts those that came in order.
fn take_all(mut rx: Rx<Message<()>>) -> (Rx<Message<()>>, u64)
    ensures { ring_of_rx result.0 ≡ ring_of_rx rx }
{
    let mut in_order = 0;
    for _ in 0..100_000_000u64 {
        if in_order == MESSAGES {
            break;
        }
        match rx.take() {
            Some(message) => {
                if !is_ack(&message, in_order + 1) {
                    break;
                }
                in_order += 1;
            }
            None => thread::yield_now(),
        }
    }
    (rx, in_order)
}

#[test]
fn a_full_ring_keeps_the_order(rt: HostRuntime) -> Result<(), Fail> {
    let (tx, rx) = link(rt.alloc())?;
    let tx = put_all(tx).ok_or("there is memory for all")?;
    assert!(rt; tx.has_waiting());
    let (mut tx, (mut rx, in_order)) = join(
        &rt,
        || -> Tx<Message<()>>
            ensures { ring_of_tx result ≡ ring_of_tx tx }
        { flush_all(tx) },
        || -> (Rx<Message<()>>, u64)
            ensures { ring_of_rx result.0 ≡ ring_of_rx rx }
        { take_all(rx) },
    );
    assert!(rt; in_order == MESSAGES);
    assert!(rt; reported(&mut tx, &mut rx) == Some(0));
    Ok(())
}
