//! The memories of threads for callers from C: handles, and functions that return numbers.
#![tactic(auto)]

mod answers;
mod calls;
mod codes;
mod exports;
mod handle;
mod held;
mod memories;
mod opening_calls;
mod opening_exports;
mod opening_memories;
mod parts;

pub use answers::{ArenaSizes, PortState, ReadAnswer, RoomSizes, ScanAnswer, UpdateAnswer};
pub use handle::Handle;
pub use held::{ClosingMemory, Held, OpenMemory, OpeningMemory, OpeningPort, OwnedPort};
pub use parts::Parts;
