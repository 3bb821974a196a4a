//! Gates that look for a message, and hold their server until all that are looked for have come.

ghost use Rattle.std.specs.Prelude.{◌≡◌, IfOk, length};
ghost use Rattle.zprotocol.specs.declared.limits.TheConstants.{MAX_SERVERS};

use std::alloc::Global;
use std::sync::Arc;
use std::sync::atomic::AtomicUsize;
use std::sync::atomic::Ordering::SeqCst;
use std::test::Fail;
use std::thread;
use zprotocol::{MAX_SERVERS, Message, Process};
use zserver::Snapshot;
use zthreads::Gate;

/// What a gate looks for.
#[derive(Clone, Copy, PartialEq, Eq)]
pub enum Sought {
    Nothing,
    SecondSubmit,
    Update,
    Query,
    Snapshot,
}

/// How many messages that were looked for have come, and how many gates saw all of them there.
#[derive(Drop)]
pub struct Meeting {
    wanted: usize,
    came: AtomicUsize,
    met: AtomicUsize,
}

/// A gate.
#[derive(Drop)]
pub struct Watch {
    sought: Sought,
    submits: u8,
    meeting: Arc<Meeting, Global>,
}

impl Meeting {
    /// Where this many messages are looked for.
    pub fn new(alloc: Global, wanted: usize) -> Result<Arc<Meeting, Global>, Fail> {
        let meeting = Meeting {
            wanted,
            came: AtomicUsize::new(0),
            met: AtomicUsize::new(0),
        };
        Ok(Arc::new(alloc, meeting)?)
    }

    /// Whether all have come.
    pub fn is_full(&self) -> bool {
        self.came.load(SeqCst) >= self.wanted
    }

    /// Counts one more as come.
    pub fn come(&self) {
        self.came.fetch_add(1, SeqCst);
    }

    /// How many gates saw all of them there.
    pub fn met(&self) -> usize {
        self.met.load(SeqCst)
    }

    // Waits for all, a hundred million times at most.
    fn hold(&self) {
        self.come();
        for _ in 0..100_000_000u64 {
            if self.is_full() {
                self.met.fetch_add(1, SeqCst);
                return;
            }
            thread::yield_now();
        }
    }
}

impl Watch {
    // Whether it is what the gate looks for. It is once.
    fn finds(&mut self, message: &Message<Snapshot>) -> bool {
        if let Message::Submit(_, _) = message {
            self.submits = self.submits.saturating_add(1);
        }
        let found = match message {
            Message::Submit(_, _) => self.sought == Sought::SecondSubmit && self.submits == 2,
            Message::Update(_, _, _) => self.sought == Sought::Update,
            Message::Query(_, _) => self.sought == Sought::Query,
            Message::Snapshot(_, _) => self.sought == Sought::Snapshot,
            _ => false,
        };
        if found {
            self.sought = Sought::Nothing;
        }
        found
    }
}

impl Gate for Watch {
    fn pass(&mut self, _from: &Process, message: &Message<Snapshot>) {
        if self.finds(message) {
            self.meeting.hold();
        }
    }
}

/// The gates of sixteen servers: the first three look for these.
pub fn gates(
    alloc: Global,
    meeting: &Arc<Meeting, Global>,
    sought: [Sought; 3],
) -> Result<Vec<Watch>, Fail>
    ensures { IfOk result (λ gates. length gates.items ≡ MAX_SERVERS) }
{
    let mut gates = Vec::with_capacity(alloc, MAX_SERVERS as usize)?;
    for place in 0..MAX_SERVERS as usize {
        gates.push(Watch {
            sought: if place < 3 {
                sought[place]
            } else {
                Sought::Nothing
            },
            submits: 0,
            meeting: Arc::try_clone(meeting)?,
        })?;
    }
    Ok(gates)
}
