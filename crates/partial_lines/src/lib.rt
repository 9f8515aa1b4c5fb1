//! The calls of a port in straight lines, generic over whoever makes the steps of the port's machine. Their
//! contracts speak of that machine alone. Whoever makes the steps may break a call off: its machine stays where it is,
//! and the caller learns it.
#![tactic(auto)]

mod embedded;
mod exchange;
mod get_set;
mod makes;
mod update;
mod whole_read;
mod whole_scan;

pub use embedded::ScanLoads;
pub use exchange::Exchanged;
pub use get_set::SetSteps;
pub use makes::Makes;
pub use update::{PutBegun, begin_put, put, put_found};
pub use whole_read::read;
pub use whole_scan::{Scanned, announce, scan, scan_claimed};
