//! The active set of a partial snapshot object, as pure machines: a join, a leave, and a getSet, which
//! finds the announcements in the slots. A machine says which atomic step is due and takes its answer. A
//! getSet can also make its step on plain words, or make all its steps through [`Steps`].
#![tactic(auto)]

pub mod found;
pub mod get_set;
mod index_set;
pub mod join;
pub mod law;
pub mod leave;
pub mod steps;

pub use found::Found;
pub use get_set::GetSet;
pub use join::Join;
pub use leave::Leave;
pub use steps::Steps;
