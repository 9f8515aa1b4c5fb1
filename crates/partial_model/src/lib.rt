//! The plain data of a partial snapshot object: the history, the calls with their answers and notes, and
//! the look-ups in a history. The definitions in `specs/` say when a history and a list of calls are a
//! legal outcome. `check_outcome` decides it without memory, and a `Checker` with an index of the history.
#![tactic(auto)]

pub mod call;
mod checker;
pub mod history;
pub mod law;
pub mod sequence;

pub use call::{Answer, Call, Called, Finish, Note, Refused};
pub use checker::{Checker, check_outcome};
pub use history::{Applied, Opening, stamp_at, value_at};
pub use law::{
    entries_are_noted, equal_collects_stand_together, last_entries_decide, legal_notes_are_shown,
    rising_never_falls, stamps_never_return,
};
pub use sequence::Sequence;
