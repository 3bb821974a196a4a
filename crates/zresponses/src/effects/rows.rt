//! Worked examples of the definitions, as clauses. The functions do nothing.

mod answers;
mod frames;
mod greetings;
mod places;
mod watches;
