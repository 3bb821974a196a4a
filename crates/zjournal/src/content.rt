//! What a file holds.

/// What a file holds.
#[derive(Drop)]
pub struct Content {
    /// The text of all batches.
    pub text: Vec<u8>,
    /// Where the last block that counts ends. If the file is being made: where its head will end.
    pub end: usize,
    /// How many bytes the file has.
    pub size: usize,
}
