//! The machine, and the values of its calls. Worked calls are answered as they should be: rows of
//! lines, each with the line of its answer.

mod calls;
mod limits;
mod multis;
mod play;
mod refusals;
mod retries;
mod sessions;
mod timed;
