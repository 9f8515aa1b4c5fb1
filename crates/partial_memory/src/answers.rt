//! What the calls of a memory return. A stamp is the word number of a record, unique in one opening.

/// How an update ended.
#[derive(Clone, Copy, Debug, PartialEq, Eq)]
pub enum Updated {
    /// It took effect: its entry is in the history, and its record has this stamp.
    Applied { stamp: u64 },
    /// Another update to the same component, with this stamp, took effect during the call and overwrote it.
    Lost { by: u64 },
}

/// How a conditional update ended.
#[derive(Clone, Copy, Debug, PartialEq, Eq)]
pub enum UpdatedIf {
    /// It took effect: the component had the expected stamp, and the new record has this one.
    Applied { stamp: u64 },
    /// It had no effect: the component had this stamp, which is not the expected one.
    Changed { by: u64 },
}
