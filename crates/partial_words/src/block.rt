//! A run of words.

/// A run of words that lie side by side.
#[derive(Clone, Copy, Debug, PartialEq, Eq)]
pub struct Block {
    /// The number of its first word.
    pub at: u64,
    /// How many words it has.
    pub size: u64,
}
