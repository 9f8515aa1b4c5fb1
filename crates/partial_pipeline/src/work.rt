//! What the caller of a pipeline supplies.

/// What a stage does with an item.
pub trait Work: Sync {
    /// Works on an item. A stage calls this once for each item, in its own thread and before its count
    /// includes the item. Stages are counted from 0, items from 1. A pipeline relies on one thing: that
    /// this returns.
    fn work(&self, stage: u32, item: u64);
}

/// Work that does nothing.
#[derive(Clone, Copy, Debug)]
pub struct NoWork;

impl Work for NoWork {
    fn work(&self, _stage: u32, _item: u64) {}
}

/// What is done with the monitor's scans.
pub trait Watch {
    /// Receives the count of each stage, in order, from each scan that the monitor makes while the stages
    /// work. It runs in the caller's thread, and the monitor goes on when it returns.
    fn see(&mut self, counts: &[u64]);
}

/// A watch that does nothing.
#[derive(Clone, Copy, Debug)]
pub struct NoWatch;

impl Watch for NoWatch {
    fn see(&mut self, _counts: &[u64]) {}
}
