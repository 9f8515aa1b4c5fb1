//! The stages of a call, and the replies that end it.

use partial_model::Refused;

/// What an update sets.
#[derive(Clone, Copy, Debug, PartialEq, Eq)]
pub struct Change {
    pub component: u32,
    /// The stamp that the component must have, or None if any stamp will do.
    pub expected: Option<u64>,
    pub value: u64,
}

/// How a call ended. A stamp is the reference of a record.
#[derive(Clone, Copy, Debug, PartialEq, Eq)]
pub enum Reply {
    /// The update was applied, and its record has this stamp.
    Applied {
        stamp: u64,
    },
    /// The update was overwritten by the one with this stamp.
    Lost {
        by: u64,
    },
    /// The scan made this many collects. It borrowed the view of the record with this stamp, or no
    /// view. The machine holds its values.
    Scanned {
        collects: u32,
        borrowed: Option<u64>,
    },
    /// The component's value and stamp.
    Read {
        value: u64,
        stamp: u64,
    },
    /// The call was refused. The port is marked.
    Refused(Refused),
    /// The component had this stamp instead of the expected one.
    Changed {
        by: u64,
    },
}

/// The step that is due. `old` is the component's record as the update loaded it. `at` is the
/// reference of the block that the port writes.
#[derive(Clone, Copy, Debug, PartialEq, Eq)]
pub enum Stage {
    /// No call is begun.
    Idle,
    /// A read is begun: load the component word.
    ReadBegun {
        component: u32,
    },
    /// Load the value of the record.
    LoadingValue {
        stamp: u64,
    },
    /// An update is begun: load the component word.
    UpdateBegun {
        change: Change,
    },
    /// A getSet collects the indices that scans announce.
    GettingSet {
        change: Change,
        old: u64,
    },
    /// An embedded scan of those indices makes the view.
    Viewing {
        change: Change,
        old: u64,
    },
    /// Claim words for the record from the pool, or store its first word where the port has spare words for it.
    ClaimingRecord {
        change: Change,
        old: u64,
    },
    /// Store word `k` of the record.
    StoringRecord {
        change: Change,
        old: u64,
        at: u64,
        k: u64,
    },
    /// Exchange the component word.
    Exchanging {
        change: Change,
        old: u64,
        at: u64,
    },
    /// A scan is begun: claim the words of its announcement from the pool.
    ScanBegun,
    /// Store word `k` of the announcement.
    StoringAnnouncement {
        at: u64,
        k: u64,
    },
    /// The announcement joins the active set.
    Joining,
    /// An embedded scan of the positions makes the values.
    Scanning,
    /// The announcement leaves the active set.
    Leaving,
    /// The call is finished, and its reply is not taken yet.
    Finished {
        reply: Reply,
    },
}
