//! A thread that makes a client's ticks.
//!
//! # Why
//!
//! A ticker has no clock: it sleeps for a period between two ticks, and a sleep may end early. So
//! its thread needs no more than the others, and the program chooses what a tick is in time.

ghost use Rattle.std.specs.Prelude.{◌≡◌, ◌+◌, ◌≤◌, IfErr, IfOk, OnErr, OnOk};
ghost use Rattle.zrun.specs.Clients.{SameClient};
ghost use Rattle.zrun.specs.Ticks.{call_count, CountsTicks};

use crate::asking::TURNS;
use crate::client::Client;
use crate::faults::{StartFault, Unanswered};
use crate::promises::KeepsTicking;
use crate::ticks::Ticks;
use std::alloc::Global;
use std::snapshot::Snapshot;
use std::sync::atomic::AtomicU64;
use std::sync::atomic::Ordering::SeqCst;
use std::sync::{Arc, Wait};
use std::thread;
use std::thread::{PromisedHandle, SpawnError, Threads};
use std::time::Duration;
use zcalls::Call;

// The values of the word at which a ticker's thread sleeps.
const GOES: u64 = 0;

const STOPPED: u64 = 1;

// A tick without a reply is sent again after this time.
const AGAIN_MILLIS: u64 = 1;

/// A thread that owns a client, and invokes a tick after each period. Sessions expire by such
/// ticks. A ticker that is dropped stops too, and its client is lost.
pub struct Ticker {
    pub(crate) thread: PromisedHandle<(Client, Ticks), KeepsTicking>,
    pub(crate) word: Arc<AtomicU64, Global>,
}

impl Ticker {
    ghost use Rattle.zrun.specs.Tickers.{ticking_client};

    /// Starts the thread. The first tick is invoked after the first period. At an error the client
    /// is returned.
    ///
    /// A tick without a reply is sent again, and no other is invoked meanwhile. So late ticks
    /// aren't made up for. A tick may be early, where the system wakes a thread for no reason.
    pub fn start<R: Threads + Wait + Copy + Send + 'static>(
        rt: R,
        alloc: Global,
        client: Client,
        period: Duration,
    ) -> Result<Ticker, (StartFault, Client)>
        ensures given { IfOk result (λ ticker. ticking_client ticker ≡ client) }
        ensures back { IfErr result (λ refused. SameClient client refused.1) }
    {
        let Ok(word) = Arc::new(alloc, AtomicU64::new(GOES)) else {
            return Err((StartFault::Memory, client));
        };
        let Ok(seen) = Arc::try_clone(&word) else {
            drop(word);
            return Err((StartFault::Memory, client));
        };
        let promise = KeepsTicking(Snapshot::of(&client));
        match thread::spawn_with(
            &rt,
            promise,
            move || -> (Client, Ticks)
                ensures { SameClient client result.0 × CountsTicks client result.0 result.1 }
            { keep_ticking(client, &rt, &seen, period) },
        ) {
            Ok(thread) => Ok(Ticker { thread, word }),
            Err(refused) => {
                // The closure runs here: stopped, it invokes no tick, and returns its client.
                word.store(STOPPED, SeqCst);
                drop(word);
                let SpawnError { value: thread } = refused;
                let (client, _) = thread();
                Err((StartFault::Thread, client))
            }
        }
    }

    /// Stops the thread, and returns its client, and the results of its calls. It waits for no
    /// reply: if the last fault is `NoAnswer`, the client may still have a tick outstanding.
    pub fn stop<R: Threads>(self, rt: &R) -> (Client, Ticks)
        ensures same { SameClient (ticking_client self) result.0 }
        ensures counted { CountsTicks (ticking_client self) result.0 result.1 }
    {
        let Ticker { thread, word } = self;
        word.store(STOPPED, SeqCst);
        word.wake_one();
        drop(word);
        thread.join(rt)
    }
}

impl Drop for Ticker {
    fn drop(self) {
        let Ticker { thread, word } = self;
        word.store(STOPPED, SeqCst);
        word.wake_one();
        drop(word);
        drop(thread);
    }
}

// Invokes a tick after each period, until it is stopped.
fn keep_ticking<R: Wait>(
    mut client: Client,
    rt: &R,
    word: &AtomicU64,
    period: Duration,
) -> (Client, Ticks)
    ensures same { SameClient client result.0 }
    ensures counted { CountsTicks client result.0 result.1 }
{
    let mut ticks = Ticks {
        answered: 0,
        last_fault: None,
    };
    for _ in rt.forever() {
        word.park_timeout(rt, GOES as u32, period);
        if word.load(SeqCst) == STOPPED {
            return (client, ticks);
        }
        match tick(rt, &mut client, word) {
            Ok(()) => ticks.answered = ticks.answered.saturating_add(1),
            Err(fault) => ticks.last_fault = Some(fault),
        }
    }
    unreachable!()
}

// Sends a tick until it has its reply, or the ticker is stopped.
fn tick<R: Wait>(rt: &R, client: &mut Client, word: &AtomicU64) -> Result<(), Unanswered>
    ensures same { SameClient client.old client.new }
    ensures answered { OnOk result (call_count client.new ≡ call_count client.old + 1) }
    ensures unanswered { OnErr result (call_count client.old ≤ call_count client.new) }
{
    // The number of the call isn't needed here.
    let _ = client.begin(Call::tick())?;
    let soon = Duration::from_millis(AGAIN_MILLIS);
    for _ in rt.forever() {
        if let Ok(reply) = client.wait(TURNS) {
            drop(reply);
            return Ok(());
        }
        if word.load(SeqCst) == STOPPED {
            return Err(Unanswered::NoAnswer);
        }
        word.park_timeout(rt, GOES as u32, soon);
        client.send_again();
    }
    unreachable!()
}
