//! The memory of a replay: its words, and what has happened to them.

use crate::wanted::Wanted;
use partial_model::Applied;
use partial_words::{PlainWords, Sizes, Trace};

/// The words that the ports of a replay share, and what has happened to them so far.
#[derive(Debug, Drop)]
pub struct Memory {
    /// The sizes of the memory.
    pub sizes: Sizes,
    /// The words, by their number.
    pub words: PlainWords,
    /// The history so far: the applied updates in order.
    pub history: Vec<Applied>,
    /// The atomic steps so far, in order.
    pub trace: Trace,
    /// Scratch room for the search for the places of scans.
    pub places: Wanted,
}
