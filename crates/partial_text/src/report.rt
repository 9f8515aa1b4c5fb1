//! The report of a run, in which each port makes its calls in a thread of its own.

use partial_model::Answer;

/// The report of a run.
#[derive(Debug, Drop)]
pub struct RunReport {
    /// The answers of the calls, by port and then in the order of its calls.
    pub answers: Vec<Vec<Answer>>,
    /// The values of the components at the end.
    pub values: Vec<u64>,
}
