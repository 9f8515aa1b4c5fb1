//! The lawful state of a memory with the ports that work on it, and the law of steps. The crate re-exports
//! the machine of a port.
#![tactic(auto)]

pub mod law;

pub use partial_machine::{Change, Core, Reply, Stage};
