//! The list of what a process sends, a client's core, the master, and the copies of calls and
//! replies.

mod client;
mod copies;
mod lists;
mod master;
mod posts;
