//! Tests of races in threads.
#![tactic(auto)]

#[cfg(test)]
mod halts;
#[cfg(test)]
mod nodes;
