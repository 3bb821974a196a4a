//! Worked examples of the definitions, as clauses. The functions do nothing.

mod calls;
mod codes;
mod words;
