//! Tests of a log: each record is written and read again, and lines that aren't records are
//! reported.

#[cfg(test)]
mod faults;
#[cfg(test)]
mod lines;
