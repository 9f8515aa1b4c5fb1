//! The long-lived memory. Its words lie in arenas, one for each epoch, that are used again and again; its
//! ports go from epoch to epoch. Each call is wait-free: a port that finds another one at a change of epoch looks a
//! bounded number of times whether that one has made it, and then makes the change itself.
#![tactic(auto)]

mod answers;
mod arena;
mod attempt;
mod calls;
mod change;
mod change_plays;
mod claim;
mod clear;
mod closed;
mod double_collect;
mod ended;
mod enter;
mod error;
mod fill;
mod find;
pub mod law;
mod lines;
mod long_lived;
mod machine_plays;
mod meet;
mod offsets;
mod open_error;
mod options;
mod plays;
mod port;
mod read;
mod rule;
mod scan;
mod scan_by_change;
mod seal;
mod shape;
mod stamped;
mod stand;
mod unchanged;
mod update;
mod update_if;

pub use answers::{Updated, UpdatedIf};
pub use error::Refused;
pub use law::{
    arenas_begin_lines, closed_with_all_ports, most_steps_in_numbers, opened_ports_are_all,
};
pub use long_lived::{LongLived, Unclosed};
pub use open_error::OpenError;
pub use options::Options;
pub use partial_lines::Scanned;
pub use port::Port;
pub use rule::About;
