//! The embedded scan as a pure machine. It collects the component words of its positions until two collects
//! are equal or one position shows its third record; then it loads the values, or takes that record's view.
//! The machine says which atomic step is due and takes its answer. It can also make all its loads through
//! [`Loads`].
#![tactic(auto)]

pub mod embedded;
pub mod law;
pub mod loads;
pub mod rows;

pub use embedded::Embedded;
pub use loads::Loads;
pub use rows::Rows;
