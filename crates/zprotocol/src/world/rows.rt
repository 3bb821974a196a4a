//! Worked examples: each function's contract has some, and its body does nothing.

mod beginnings;
mod joins;
mod orders;
mod repairs;
mod retirements;
mod runs;
mod scenarios;
mod settling;
mod steps;
