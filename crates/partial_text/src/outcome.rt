//! The outcome of a replay.

use partial_model::{Applied, Called, Opening};
use partial_words::Event;

/// The outcome of a replay.
#[derive(Debug, Drop)]
pub struct Outcome {
    /// The initial values of the components, and the stamp of component 0 at opening.
    pub opening: Opening,
    /// The history: the updates that were applied, in the order of their exchanges.
    pub history: Vec<Applied>,
    /// The calls that were begun, by port and then by number.
    pub calls: Vec<Called>,
    /// The words at the end.
    pub words: Vec<u64>,
    /// Each atomic step that was made, in order.
    pub trace: Vec<Event>,
    /// How many atomic steps were made.
    pub steps: u64,
}
