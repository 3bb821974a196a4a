//! Laws of servers. Each function's contract is a law.

ghost use Rattle.zdaemon.specs.Bases.{LaterStartsTellMore};
ghost use Rattle.zdaemon.specs.Strangers.{NoStrangerInFolder, NoStrangerInMemory};

use std::fs::{File, Files};
use zguard_laws::laws::no_stranger_makes_a_call;

/// A server in memory tells greater zxids than any that started earlier. So a client of an earlier
/// one isn't ahead of its tree: it is told that its session has expired.
pub fn later_starts_tell_more()
    ensures { LaterStartsTellMore }
{}

/// A server in memory with logins: bytes of a connection make calls only if by then it has given a
/// login, or they open a session. Whatever its host said before.
pub fn no_stranger_makes_a_call_in_memory()
    ensures { NoStrangerInMemory }
{
    no_stranger_makes_a_call();
}

/// The same of a server with logins and a folder.
pub fn no_stranger_makes_a_call_in_a_folder<R: Files<File = File> + Copy>()
    ensures { NoStrangerInFolder R }
{
    no_stranger_makes_a_call();
}
