//! The calls of a port, their answers, and the notes that place them in the history.

ghost use Rattle.std.specs.Prelude.{◌≡◌, IfOk};
ghost use Rattle.partial_model.specs.Refusals.{refused_code};

use crate::sequence::Sequence;
use std::alloc::{AllocError, Global};

/// A call of a port.
#[derive(Debug, Drop)]
pub enum Call {
    /// Set one component.
    Update {
        component: u32,
        value: u64,
    },
    /// Return the values that several components had together at one moment. A component may be named more
    /// than once.
    Scan {
        components: Sequence<u32>,
    },
    /// Return the value and the stamp of one component.
    Read {
        component: u32,
    },
    /// Set one component if its stamp is the expected one.
    UpdateIf {
        component: u32,
        expected: u64,
        value: u64,
    },
}

impl Call {
    /// Copies the call. Only the copy of a scan takes memory.
    ///
    /// # Errors
    /// [`AllocError`] when an allocation was refused.
    pub fn copy(&self, alloc: Global) -> Result<Call, AllocError>
        ensures { IfOk result (λ copy. copy ≡ self.now) }
    {
        Ok(match self {
            Call::Update { component, value } => Call::Update {
                component: *component,
                value: *value,
            },
            Call::Scan { components } => Call::Scan {
                components: Sequence::from(Vec::from_slice(alloc, components.as_slice())?),
            },
            Call::Read { component } => Call::Read {
                component: *component,
            },
            Call::UpdateIf {
                component,
                expected,
                value,
            } => Call::UpdateIf {
                component: *component,
                expected: *expected,
                value: *value,
            },
        })
    }
}

/// Why a call was refused. A refused call applies nothing.
#[derive(Clone, Copy, Debug, PartialEq, Eq)]
pub enum Refused {
    /// An index isn't below the number of components.
    Component,
    /// A slot claim of this call, or of an earlier one of this port, went past the last slot.
    SlotsSpent,
    /// A pool claim of this call, or of an earlier one of this port, went past the end of the pool.
    PoolSpent,
}

impl Refused {
    /// The number of the refusal: 7 for `Component`, 8 for `SlotsSpent`, 9 for `PoolSpent`.
    pub fn code(&self) -> u8
        ensures { result ≡ refused_code self.now }
    {
        match self {
            Refused::Component => 7,
            Refused::SlotsSpent => 8,
            Refused::PoolSpent => 9,
        }
    }
}

/// The answer of a finished call.
#[derive(Debug, Drop)]
pub enum Answer {
    /// The update took effect, and its record has this stamp.
    Applied {
        stamp: u64,
    },
    /// Another update, with this stamp, took effect during the call and overwrote the update before anyone
    /// could see it.
    Lost {
        by: u64,
    },
    /// The values that stood together, in the order of the call's positions; the number of collects; and
    /// the stamp of the update whose view the scan took, if it was helped.
    Scanned {
        values: Sequence<u64>,
        collects: u32,
        borrowed: Option<u64>,
    },
    /// The component's value and stamp.
    Read {
        value: u64,
        stamp: u64,
    },
    /// The call was refused.
    Refused {
        cause: Refused,
    },
    /// The component had this stamp, which is not the expected one.
    Changed {
        by: u64,
    },
}

/// The place of a finished call in the history: its linearization point. Places are counted from 0.
#[derive(Clone, Copy, Debug, PartialEq, Eq)]
pub enum Note {
    /// The update is the entry at this place.
    Wrote(usize),
    /// The update was overwritten by the entry at this place, and counts as made just before it.
    Lost(usize),
    /// The call saw this many entries: its answer is that after this prefix of the history.
    Saw(usize),
}

/// How a call ended.
#[derive(Debug, Drop)]
pub struct Finish {
    /// The length of the history when the call ended.
    pub ended: usize,
    /// What it answered.
    pub answer: Answer,
    /// The place of the call. `None` when it was refused.
    pub note: Option<Note>,
}

/// A call that a port has begun.
#[derive(Debug, Drop)]
pub struct Called {
    /// The port that made it.
    pub port: u32,
    /// The number of the call among those of its port, counted from 0.
    pub number: u32,
    /// What was asked for.
    pub call: Call,
    /// The length of the history when the call began.
    pub began: usize,
    /// How many atomic steps the call has made.
    pub steps: u64,
    /// How it ended. `None` when it is unfinished.
    pub finish: Option<Finish>,
}
