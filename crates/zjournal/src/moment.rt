//! What a file in memory holds at a moment.

/// A file at a moment: what a power cut leaves of it, and what a read returns. A power cut may
/// leave the latter, too.
#[derive(Drop)]
pub struct Moment {
    /// What a power cut leaves.
    pub disk: Vec<u8>,
    /// What a read returns.
    pub seen: Vec<u8>,
}
