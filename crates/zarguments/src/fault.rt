//! Why a program's words are no command.

ghost use Rattle.std.specs.Prelude.{◌≡◌};

use std::alloc::AllocError;
use std::io::ErrorKind;
use std::{fmt, io};
use thiserror::Error;

/// Why words were not understood.
#[derive(Clone, Copy, Debug, PartialEq, Eq, Error)]
pub enum WordsFault {
    /// Memory ran out.
    Memory,
    /// They are no command of this program, or one of them isn't text.
    BadWords,
}

impl WordsFault {
    ghost use Rattle.zarguments.specs.Words.{words_fault_text, words_fault_status};

    /// Returns the text that a program prints.
    pub fn text(self) -> &'static str
        ensures { result.now ≡ words_fault_text self }
    {
        match self {
            WordsFault::Memory => "zk: memory",
            WordsFault::BadWords => "zk: bad words",
        }
    }

    /// Returns the exit status that a program ends with: 1 for `Memory`, 2 for `BadWords`.
    pub fn status(self) -> u8
        ensures { result ≡ words_fault_status self }
    {
        match self {
            WordsFault::Memory => 1,
            WordsFault::BadWords => 2,
        }
    }
}

// By hand: the `Display` that `thiserror` derives has no `output`, so no clause could say what it
// writes.
impl fmt::Display for WordsFault {
    ghost use Rattle.std.specs.Prelude.{Some};
    ghost use Rattle.zarguments.specs.Words.{words_fault_text};

    ghost output = { λ fault. Some (words_fault_text fault) };

    fn fmt<W: fmt::Write>(&self, f: &mut fmt::Formatter<W>) -> fmt::Result {
        f.write_str(self.text())
    }
}

impl From<AllocError> for WordsFault {
    ghost use Rattle.zarguments.specs.declared.fault.WordsFault.TheVariants.{Memory};

    ghost from_gives = { λ _ fault. fault ≡ Memory };

    fn from(_error: AllocError) -> WordsFault {
        WordsFault::Memory
    }
}

// Converts the reason why the words could not be read: out of memory, or one of them is not text.
impl From<io::Error> for WordsFault {
    ghost use Rattle.std_io.specs.IoError.{error_kind};
    ghost use Rattle.zarguments.specs.Words.{fault_of_kind};

    ghost from_gives = { λ error fault. fault ≡ fault_of_kind (error_kind error) };

    fn from(error: io::Error) -> WordsFault {
        match error.kind() {
            ErrorKind::OutOfMemory => WordsFault::Memory,
            _ => WordsFault::BadWords,
        }
    }
}
