//! The state machine of one port: which atomic step is due, and how a call goes on with the answer
//! to that step. The machine is pure. Its caller serves the steps, on a list of words or on shared
//! memory.
#![tactic(auto)]

pub mod law;
pub mod machine;
pub mod stage;

pub use machine::{Core, exchanged};
pub use stage::{Change, Reply, Stage};
