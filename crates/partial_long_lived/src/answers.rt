//! What the calls of a long-lived memory return. A stamp is public: the number of its epoch times 2^23, and the word
//! number of a record there. No two updates have the same one.

use crate::arena::STAMPS;
use partial_lines::Exchanged;

/// How an update ended.
#[derive(Clone, Copy, Debug, PartialEq, Eq)]
pub enum Updated {
    /// It took effect: its entry is in the history, and has this stamp.
    Applied { stamp: u64 },
    /// Another update to the same component, with this stamp, took effect during the call and overwrote it.
    Lost { by: u64 },
}

/// How a conditional update ended.
#[derive(Clone, Copy, Debug, PartialEq, Eq)]
pub enum UpdatedIf {
    /// It took effect: the component had the expected stamp, and its entry in the history has this one.
    Applied { stamp: u64 },
    /// It had no effect: the component had this stamp, which is not the expected one.
    Changed { by: u64 },
}

impl Updated {
    ghost use Rattle.std.specs.Prelude.{◌≡◌, ◌<◌};
    ghost use Rattle.partial_long_lived.specs.Inner.Updates.{public_update, stamp_from};

    /// Says how an update ended in that epoch.
    pub(crate) fn of(epoch: u64, exchanged: Exchanged) -> Updated
        requires { stamp_from epoch exchanged < 18446744073709551616 }
        ensures { result ≡ public_update epoch exchanged }
    {
        match exchanged {
            Exchanged::Applied { stamp } => Updated::Applied {
                stamp: epoch * STAMPS + stamp,
            },
            Exchanged::Overtaken { by } => Updated::Lost {
                by: epoch * STAMPS + by,
            },
        }
    }
}
