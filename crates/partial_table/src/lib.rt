//! A table of words that threads share, whose seats count their steps. Each of its steps is one of a table of
//! `atomic_table`, under a rule that may not depend on what is counted, and adds one to what its seat has counted. The table
//! inside is private: whoever uses this crate and not `atomic_table` makes no step that isn't counted.
#![tactic(auto)]

mod badge;
mod counted;
mod seat;
mod steps;
mod table;

pub use atomic_table::{Closed, Join, Play, Split, TableRule};
pub use badge::Badge;
pub use seat::Seat;
pub use table::Table;
