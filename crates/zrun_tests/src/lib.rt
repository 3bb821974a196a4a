//! Tests of the service in threads.
//!
//! They start clusters whose servers join late, leave or are halted. They fill rings, use up a
//! client's steps, pass on stamps, give orders to the master, and run a ticker. One client is not
//! put back. The audit reads the traces of a joined cluster, as they are and with one thing wrong.
#![tactic(auto)]

#[cfg(test)]
mod apart;
#[cfg(test)]
mod audit_stories;
#[cfg(test)]
mod audits;
#[cfg(test)]
mod bells;
#[cfg(test)]
mod calls;
#[cfg(test)]
mod filled;
#[cfg(test)]
mod gates;
#[cfg(test)]
mod halt_bits;
#[cfg(test)]
mod halts;
#[cfg(test)]
mod joins;
#[cfg(test)]
mod known;
#[cfg(test)]
mod leavings;
#[cfg(test)]
mod meetings;
#[cfg(test)]
mod missing;
#[cfg(test)]
mod orders;
#[cfg(test)]
mod retries;
#[cfg(test)]
mod rings;
#[cfg(test)]
mod runs;
#[cfg(test)]
mod stamps;
#[cfg(test)]
mod tickers;
#[cfg(test)]
mod tickets;
#[cfg(test)]
mod traces;
#[cfg(test)]
mod turns;
#[cfg(test)]
mod wrong_traces;
