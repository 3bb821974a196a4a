//! Worked examples of the definitions, as clauses. The functions do nothing.

mod answers;
mod own;
mod results;
mod stats;
