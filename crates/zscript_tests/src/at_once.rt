//! A line is played as soon as its LF is read: the source checks what the sink took whenever it is
//! asked for more.

ghost use Rattle.std.specs.Prelude.{◌≡◌, IsTrue, [], length};

use std::cell::Cell;
use zscript::{DeviceFault, ServerId, Sink, SliceSource, Source, play};

const SCRIPT: &str = "1 ls /\n1 ls /\n1 ls /\n";

const LINE: usize = "1 ls /\n".len();

const ANSWER: usize = "ok 0\n".len();

// Gives a line at each read, and checks whether all lines before it were answered.
#[derive(Drop)]
struct Watching<'a> {
    source: SliceSource<'a>,
    taken: &'a Cell<usize>,
    owed: usize,
    is_late: bool,
}

impl Source for Watching<'_> {
    ghost gave = { λ _ _ _. Unit {0} };

    ghost failed = { λ _ _ _. Unit {0} };

    ghost has_ended = { λ s. IsTrue s.source.reported_end × (s.source.left ≡ []) };

    ghost reads_left = { λ s. length s.source.left };

    ghost reported = { λ _ _ _ _. Unit {0} };

    fn read(&mut self, buffer: &mut [u8]) -> Result<usize, DeviceFault> {
        self.is_late = self.is_late || self.taken.get() != self.owed;
        self.owed = self.owed.wrapping_add(ANSWER);
        self.source.read(buffer)
    }

    ghost gave_nothing = { λ _. tt };

    ghost gave_both = { λ _ _ _ _ _ _ _. tt };

    ghost failed_never = { λ _. tt };

    ghost failed_both = { λ _ _ _ _ _ _ _. tt };
}

// Counts the bytes that it takes.
#[derive(Drop)]
struct Counting<'a> {
    taken: &'a Cell<usize>,
}

impl Sink for Counting<'_> {
    ghost took = { λ _ _ _. Unit {0} };

    ghost failed = { λ _ _ _. Unit {0} };

    ghost reported = { λ _ _ _ _. Unit {0} };

    fn write(&mut self, bytes: &[u8]) -> Result<usize, DeviceFault> {
        self.taken.set(self.taken.get().wrapping_add(bytes.len()));
        Ok(bytes.len())
    }

    ghost took_nothing = { λ _. tt };

    ghost took_both = { λ _ _ _ _ _ _ _. tt };

    ghost failed_never = { λ _. tt };

    ghost failed_both = { λ _ _ _ _ _ _ _. tt };
}

#[test]
fn answers_before_it_reads_more(rt: HostRuntime) {
    let taken = Cell::new(0);
    let mut source = Watching {
        source: SliceSource::new(SCRIPT.as_bytes(), LINE),
        taken: &taken,
        owed: 0,
        is_late: false,
    };
    let mut sink = Counting { taken: &taken };
    let result = play(rt.alloc(), &mut source, &mut sink, ServerId::first());
    assert!(rt; result == Ok(()) && !source.is_late && taken.get() == 3 * ANSWER);
}
