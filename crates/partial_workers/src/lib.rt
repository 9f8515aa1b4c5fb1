//! Workers: each port of a memory makes its calls in a thread of its own. Then the threads are joined and
//! the memory is closed.
#![tactic(auto)]

mod error;
mod gate;
mod makable;
mod worker;
mod workers;

pub use error::RunError;
pub use gate::{Gate, NoGate};
pub use makable::are_makable;
pub use workers::{Ran, calls_by_port, run_on};
