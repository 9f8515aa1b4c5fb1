//! The texts of plans, outcomes and reports: each is read or written exactly.
#![tactic(auto)]

mod calls;
mod device;
mod fault;
mod fields;
mod gathered;
mod law;
mod lines;
mod number;
mod outcome;
mod outcome_text;
mod pieces;
mod plan;
mod reading;
mod replayed;
mod report;
mod report_text;
mod turns;
mod writing;

pub use device::Device;
pub use fault::{Cause, OutcomeError, PlanError};
pub use law::{plans_have_few_calls, texts_determine_plans};
pub use outcome::Outcome;
pub use plan::Plan;
pub use replayed::{Replayed, in_one_list};
pub use report::RunReport;
pub use writing::{write_outcome, write_replayed, write_report, write_reports, write_text};
