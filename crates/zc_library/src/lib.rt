//! The service behind C exports, for programs in other languages. `include/jellqupas.h` declares
//! the exports.
//!
//! A service is in memory that C owns, and that C frees once the service is closed. C opens it,
//! passes it lines, and reads their answers. A line is executed as `IsLineDone` says, and its
//! answer is read once, whole.
//!
//! # Why
//!
//! The memory is the caller's, so no contract has to grant a right to free it. Each export calls
//! one safe function (`service`) and states its contract again: only the lending of memory is
//! proved by hand. No export both executes a line and reads its answer, since the answer might not
//! fit: in the header, `jellqupas_call` does both.
#![tactic(auto)]

mod exports;
pub mod laws;
mod service;
mod status;
