//! The seat of a port in a call.

use crate::rule::PortSeat;
use crate::shape::Shape;

/// The seat of a port, with where the port stands, or from where it enters an epoch.
#[derive(Drop)]
pub struct Stand {
    /// The seat of the port.
    pub seat: PortSeat,
    /// The sizes of the memory.
    pub shape: Shape,
    /// The epoch in which it stands.
    pub epoch: u64,
    /// The first word of the arena of that epoch.
    pub base: u64,
    /// The number of the port.
    pub number: u32,
    /// The arena of the epoch.
    pub arena: u32,
    /// How many components of the arena it has passed in changes of epoch: each of them is sealed.
    pub passed: u32,
}
