//! Hooks that workers call before and after each call.

/// Hooks around each call of a worker. A worker calls both in its own thread, with the port's number and
/// the call's number in its port, both counted from 0. A gate may count, record or wait. A run relies on
/// one thing: that these functions return.
pub trait Gate: Sync {
    /// Runs before the call is made.
    fn before(&self, port: u32, number: u32);

    /// Runs when the call has its answer.
    fn after(&self, port: u32, number: u32);
}

/// A gate that does nothing.
#[derive(Clone, Copy, Debug)]
pub struct NoGate;

impl Gate for NoGate {
    fn before(&self, _port: u32, _number: u32) {}

    fn after(&self, _port: u32, _number: u32) {}
}
