//! The replay of a plan: it makes the plan's calls step by step, in the order of its turns, and returns the
//! outcome. The crate re-exports the texts of plans and outcomes.
#![tactic(auto)]

mod law;
mod memory;
mod note;
mod port;
mod replaying;
mod run;
mod wanted;

pub use law::{answered_scans_make_their_steps, one_port_is_alone, plans_have_one_outcome};
pub use partial_text::{
    Cause, Device, Outcome, OutcomeError, Plan, PlanError, Replayed, in_one_list, write_outcome,
    write_replayed,
};
pub use partial_words::{Event, PlainWords, Trace};
pub use replaying::{ReplayError, replay, replay_apart};
pub use wanted::Wanted;
