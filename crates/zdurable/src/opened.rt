//! The result of an opening.

use crate::DurableFront;
use zjournal::Device;

/// A service that was opened, and what was found in its file.
#[derive(Drop)]
pub struct Opened<D: Device> {
    /// The service.
    pub kept: DurableFront<D>,
    /// Whether passwords of sessions are among the records of the file. They have no effect: a
    /// client that has one opens a new session.
    pub had_passwords: bool,
}
