//! What ends a server before its host does.

ghost use Rattle.std.specs.Prelude.{◌≡◌};

use crate::pipe::ServeFault;
use std::fmt;
use thiserror::Error;
use zarguments::WordsFault;
use zdurable::{DurableFault, LimitFault, OpenFault};
use zguard::LoginsFault;
use zjournal::OpenError;
use zjournal::file::FileFault;

/// What ended a server before its host did.
#[derive(Clone, Copy, Debug, PartialEq, Eq, Error)]
pub enum HostedFault {
    /// Its words aren't understood, or there is no memory for them.
    Words(WordsFault),
    /// The host's text of logins is none.
    Logins(LoginsFault),
    /// The folder isn't opened.
    Folder(FileFault),
    /// The service isn't opened.
    Service(OpenFault),
    /// It ended while it served.
    Serve(ServeFault),
    /// There is no journal in the folder, and none is to be made.
    Missing,
    /// The folder is a script's: its file is its script.
    Script,
}

impl HostedFault {
    ghost use Rattle.zdaemon.specs.Faults.{hosted_fault_status, is_of_memory};

    /// Returns the exit status that a program ends with. 1: memory ran out, or the input or the
    /// output failed. 2: its words, or the logins. 3: a folder that isn't opened, has no journal,
    /// is a script's, or doesn't fit within the limits. 4: a disk that failed, or a journal that is
    /// full.
    pub fn status(self) -> u8
        ensures { result ≡ hosted_fault_status self }
    {
        match self {
            HostedFault::Words(fault) => fault.status(),
            HostedFault::Logins(LoginsFault::Memory) => 1,
            HostedFault::Logins(_) => 2,
            HostedFault::Folder(FileFault::Memory) => 1,
            HostedFault::Folder(FileFault::Io) => 4,
            HostedFault::Folder(_) => 3,
            HostedFault::Service(OpenFault::Memory) => 1,
            HostedFault::Service(OpenFault::Journal(OpenError::Memory)) => 1,
            HostedFault::Service(OpenFault::Journal(OpenError::Failed)) => 4,
            HostedFault::Service(OpenFault::Renewal(DurableFault::Memory)) => 1,
            HostedFault::Service(OpenFault::Renewal(_)) => 4,
            HostedFault::Service(_) => 3,
            HostedFault::Serve(ServeFault::Disk | ServeFault::Full | ServeFault::Ended) => 4,
            HostedFault::Serve(_) => 1,
            HostedFault::Missing | HostedFault::Script => 3,
        }
    }

    fn is_memory(self) -> bool
        ensures { result ≡ is_of_memory self }
    {
        match self {
            HostedFault::Logins(LoginsFault::Memory)
            | HostedFault::Folder(FileFault::Memory)
            | HostedFault::Service(OpenFault::Memory)
            | HostedFault::Service(OpenFault::Journal(OpenError::Memory))
            | HostedFault::Service(OpenFault::Renewal(DurableFault::Memory)) => true,
            _ => false,
        }
    }
}

impl fmt::Display for HostedFault {
    ghost use Rattle.zdaemon.specs.Faults.{line_of};

    ghost output = { line_of };

    fn fmt<W: fmt::Write>(&self, f: &mut fmt::Formatter<W>) -> fmt::Result {
        if self.is_memory() {
            return f.write_str("zk: memory");
        }
        match self {
            HostedFault::Words(fault) => f.write_str(fault.text()),
            HostedFault::Logins(fault) => write!(f, "zk: --auth: {fault}"),
            HostedFault::Folder(fault) => write!(f, "zk: data: {fault}"),
            HostedFault::Service(OpenFault::Limits(fault)) => {
                f.write_str("zk: data: ")?;
                write_limit(fault, f)
            }
            HostedFault::Service(fault) => write!(f, "zk: data: {fault}"),
            HostedFault::Serve(fault) => write!(f, "zk: {fault}"),
            HostedFault::Missing => f.write_str("zk: data: there is no journal"),
            HostedFault::Script => {
                f.write_str("zk: data: a script's folder, and no server's: its file is its script")
            }
        }
    }
}

// Writes which word a tree needs more of, and how much.
fn write_limit<W: fmt::Write>(fault: &LimitFault, f: &mut fmt::Formatter<W>) -> fmt::Result {
    match fault {
        LimitFault::Nodes(count) => write!(f, "it needs --nodes {count} or more"),
        LimitFault::Sessions(count) => write!(f, "it needs --sessions {count} or more"),
        LimitFault::Timeout(ticks) => write!(f, "it needs --max-session {ticks} or more"),
        LimitFault::NotLimits | LimitFault::Memory => write!(f, "{fault}"),
    }
}

impl From<WordsFault> for HostedFault {
    ghost use Rattle.zdaemon.specs.declared.fault.HostedFault.TheVariants as fault;

    ghost from_gives = { λ cause e. e ≡ fault.Words cause };

    fn from(fault: WordsFault) -> HostedFault {
        HostedFault::Words(fault)
    }
}

impl From<LoginsFault> for HostedFault {
    ghost use Rattle.zdaemon.specs.declared.fault.HostedFault.TheVariants as fault;

    ghost from_gives = { λ cause e. e ≡ fault.Logins cause };

    fn from(fault: LoginsFault) -> HostedFault {
        HostedFault::Logins(fault)
    }
}

impl From<FileFault> for HostedFault {
    ghost use Rattle.zdaemon.specs.declared.fault.HostedFault.TheVariants as fault;

    ghost from_gives = { λ cause e. e ≡ fault.Folder cause };

    fn from(fault: FileFault) -> HostedFault {
        HostedFault::Folder(fault)
    }
}

impl From<ServeFault> for HostedFault {
    ghost use Rattle.zdaemon.specs.declared.fault.HostedFault.TheVariants as fault;

    ghost from_gives = { λ cause e. e ≡ fault.Serve cause };

    fn from(fault: ServeFault) -> HostedFault {
        HostedFault::Serve(fault)
    }
}
