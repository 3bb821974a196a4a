//! Tests of what no clause says of a script: that calls succeed, and what the definitions come to
//! on worked scripts. Also that the alphabet of base64 is the RFC's (RFC 4648). There is no code
//! here.
#![tactic(auto)]

#[cfg(test)]
mod at_once;
#[cfg(test)]
mod chain_rows;
#[cfg(test)]
mod chunks;
#[cfg(test)]
mod faults;
#[cfg(test)]
mod full;
#[cfg(test)]
mod limits;
#[cfg(test)]
mod lines;
#[cfg(test)]
mod playing;
#[cfg(test)]
mod rows;
#[cfg(test)]
mod session_rows;
#[cfg(test)]
mod timed_rows;
#[cfg(test)]
mod words;
