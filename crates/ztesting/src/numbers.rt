//! Numbers of processes, calls and entries from literals, for tests. The caller has to prove that
//! there is such a number.

ghost use Rattle.std.specs.Prelude.{◌≡◌, ◌<◌, ◌≤◌};
ghost use Rattle.zcalls.specs.declared.limits.TheConstants.{MAX_CALL_NUMBER};
ghost use Rattle.ztree.specs.declared.limits.TheConstants.{MAX_CLIENTS};
ghost use Rattle.zprotocol.specs.declared.limits.TheConstants.{MAX_EPOCH, MAX_LOG_NUMBER, MAX_SERVERS};

use zprotocol::{CallNumber, ClientId, Epoch, LogNumber, ServerId};

/// Returns the server of this number.
pub fn server(number: u8) -> ServerId
    requires { (0 < number) × (number ≤ MAX_SERVERS) }
    ensures { result ≡ number }
{
    match ServerId::new(number) {
        Some(server) => server,
        None => unreachable!(),
    }
}

/// Returns the client of this number.
pub fn client(number: u8) -> ClientId
    requires { number < MAX_CLIENTS }
    ensures { result ≡ number }
{
    match ClientId::new(number) {
        Some(client) => client,
        None => unreachable!(),
    }
}

/// Returns the epoch of this number.
pub fn epoch(number: u64) -> Epoch
    requires { number ≤ MAX_EPOCH }
    ensures { result ≡ number }
{
    match Epoch::new(number) {
        Some(epoch) => epoch,
        None => unreachable!(),
    }
}

/// Returns the log number of an entry.
pub fn log_number(number: u64) -> LogNumber
    requires { number ≤ MAX_LOG_NUMBER }
    ensures { result ≡ number }
{
    match LogNumber::new(number) {
        Some(number) => number,
        None => unreachable!(),
    }
}

/// Returns the number of a client's call.
pub fn call_number(number: u64) -> CallNumber
    requires { number ≤ MAX_CALL_NUMBER }
    ensures { result ≡ number }
{
    match CallNumber::new(number) {
        Some(number) => number,
        None => unreachable!(),
    }
}
