//! A single opening of a memory for threads. Its ports update, read and scan its components from any threads. The
//! components lie in the words of one table, which change by single atomic steps.
#![tactic(auto)]

mod answers;
mod closed;
mod error;
pub mod law;
mod lines;
mod memory;
mod port;
mod read;
mod rule;
mod scan;
mod update;

pub use answers::{Updated, UpdatedIf};
pub use closed::Closed;
pub use error::{CloseError, OpenError};
pub use law::{
    calls_note_once, closed_memories_continue, closed_with_all_ports, late_refusals_are_past_end,
    led_calls_claim_once, opened_ports_are_all, refusals_at_once_fit,
};
pub use memory::Memory;
pub use partial_lines::Scanned;
pub use partial_words::Link;
pub use port::Port;
pub use rule::About;
