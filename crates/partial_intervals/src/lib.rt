//! A finite set of numbers below 4,294,967,295, kept as closed intervals in rising order that neither
//! overlap nor touch. It takes room for the intervals once, when it is made.
#![tactic(auto)]

pub mod intervals;
pub mod law;

pub use intervals::Intervals;
