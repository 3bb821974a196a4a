//! Worked examples of the definitions. Each clause is one; the bodies do nothing.

mod answers;
mod lines;
