//! Queues in order, the first one last, searched by the positions of their senders and receivers.

ghost use Rattle.std.specs.Prelude.{◌≡◌, ◌≤◌, ◌<◌, true, [], IfErr, IfOk};
ghost use Rattle.zprotocol.specs.declared.limits.TheConstants.{PROCESSES};
ghost use Rattle.zworld.specs.links.Places.{sent_of, holds, At, Between, Reaches};
ghost use Rattle.zworld.specs.links.support.Order.{AreSorted, IsCountFrom, IsFound, IsGap};

use crate::links::queue::Queue;
use crate::links::turn::Turn;
use zprotocol::PROCESSES;

/// Returns how many queues are between these positions or come after a queue between them.
pub(crate) fn count_from<T: Drop>(queues: &[Queue<T>], from: usize, to: usize) -> usize
    requires { AreSorted queues.now }
    ensures { IsCountFrom queues.now from to result }
{
    let mut count = queues.len();
    while count > 0 {
        if !queues[count - 1].is_before(from, to) {
            return count;
        }
        count -= 1;
    }
    0
}

/// Returns the first channel, from these positions on, on which this was sent.
pub(crate) fn next_turn<T: Drop>(queues: &[Queue<T>], from: usize, to: usize) -> Turn
    requires { AreSorted queues.now }
    ensures few { (result.sender ≤ PROCESSES) × (result.receiver < PROCESSES) }
    ensures ahead { from < PROCESSES → Reaches from to result.sender result.receiver }
    ensures empty { Between from to result (λ p q. sent_of queues.now p q ≡ []) }
    ensures held { At result (λ p q. holds (sent_of queues.now p q) ≡ true) }
{
    let more = count_from(queues, from, to);
    if more == 0 {
        return Turn {
            sender: PROCESSES,
            receiver: 0,
        };
    }
    queues[more - 1].turn()
}

/// Returns the index of the queue between these positions, or the index where it is to be inserted.
pub(crate) fn find<T: Drop>(queues: &[Queue<T>], from: usize, to: usize) -> Result<usize, usize>
    requires { AreSorted queues.now }
    ensures found { IfOk result (IsFound queues.now from to) }
    ensures gap { IfErr result (IsGap queues.now from to) }
{
    let count = count_from(queues, from, to);
    if count == 0 {
        return Err(count);
    }
    if !queues[count - 1].is_between(from, to) {
        return Err(count);
    }
    Ok(count - 1)
}
