//! The commands of the program: a reader supplies a plan, and a writer takes the text of the result.
#![tactic(auto)]

mod command;
mod fault;
mod law;
mod next;
mod workers;

pub use command::{Verb, Verdict, execute};
pub use fault::Fault;
pub use law::plans_have_one_answer;
pub use next::execute_next;
pub use partial_text::RunReport;
pub use partial_workers::{Gate, NoGate, RunError};
pub use workers::run_workers;
