//! A pipeline of stages over a long-lived memory, which never wears out. Each stage works in a thread of its own, and a
//! monitor scans the progress of all of them.
#![tactic(auto)]

mod error;
pub mod law;
mod monitor;
mod report;
mod run;
mod stage;
mod work;

pub use error::PipelineError;
pub use law::{counts_never_fall, counts_stay_ordered};
pub use partial_long_lived::Options;
pub use report::PipelineReport;
pub use run::{Pipeline, run_pipeline};
pub use stage::StageEnd;
pub use work::{NoWatch, NoWork, Watch, Work};
