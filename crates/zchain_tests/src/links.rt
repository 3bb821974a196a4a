//! What is sent on a channel is received from it.

use std::test::Fail;
use zcalls::{CallNumber, Update};
use zprotocol::{Epoch, Message, PROCESSES, Process, ServerId};
use zworld::links::Links;

#[test]
fn takes_what_was_put(rt: HostRuntime) -> Result<(), Fail> {
    let server = Process::Server(ServerId::new(2).ok_or("there is such a server")?);
    let mut links: Links<()> = Links::new(rt.alloc())?;
    for number in [1, 2] {
        let number = CallNumber::new(number).ok_or("there is such a number")?;
        links.put(
            &Process::Master,
            &server,
            Message::Submit(number, Update::Tick),
        )?;
    }
    assert!(rt; links.next_turn(0, 0).sender == 0);
    for wanted in [1, 2] {
        let front = links.next(&Process::Master, &server);
        assert!(rt;
            matches!(&front, Some(Message::Submit(number, _)) if number.number() == wanted)
        );
    }
    assert!(rt; links.next_turn(0, 0).sender == PROCESSES);
    Ok(())
}

#[test]
fn takes_a_notice_last(rt: HostRuntime) -> Result<(), Fail> {
    let id = ServerId::new(2).ok_or("there is such a server")?;
    let server = Process::Server(id);
    let mut links: Links<()> = Links::new(rt.alloc())?;
    let epoch = Epoch::opening();
    links.put(&server, &Process::Master, Message::Have(epoch, None))?;
    links.put(&server, &Process::Master, Message::Joined(epoch))?;
    links.put_notice(id);
    let front = links.next(&server, &Process::Master);
    assert!(rt; matches!(&front, Some(Message::Have(_, None))));
    let front = links.next(&server, &Process::Master);
    assert!(rt; matches!(&front, Some(Message::Joined(_))));
    // The notice alone is left, and the process that delivers finds it.
    let turn = links.next_turn(0, 0);
    assert!(rt; turn.sender == 2 && turn.receiver == 0);
    let shown = links.front(&server, &Process::Master);
    assert!(rt; matches!(shown, Some(Message::Gone)));
    let front = links.next(&server, &Process::Master);
    assert!(rt; matches!(&front, Some(Message::Gone)));
    assert!(rt; links.next_turn(0, 0).sender == PROCESSES);
    Ok(())
}
