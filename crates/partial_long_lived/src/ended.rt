//! How an update ended, as a function returns it in registers.

use crate::error::Refused;
use partial_lines::Exchanged;

/// How an update ended, or why it was refused. It is a tag and at most one word, so a function returns it in registers. (A
/// result that has a tag within, or a word beside a cause, is returned through memory.)
#[derive(Clone, Copy)]
pub enum Ended {
    /// The update took effect, and its record has this stamp.
    Applied { stamp: u64 },
    /// It had no effect: the component had this stamp in place of the one that the update wanted to replace.
    Overtaken { by: u64 },
    /// It was refused as [`Refused::Component`].
    NoComponent,
    /// It was refused as [`Refused::Overtaken`].
    TooLate,
    /// It was refused as [`Refused::EpochsSpent`].
    EpochsSpent,
}

impl Ended {
    ghost use Rattle.std.specs.Prelude.{◌≡◌};
    ghost use Rattle.partial_long_lived.specs.Inner.Updates.{ended_as};

    /// The end of an update that ended so.
    #[inline(always)]
    pub fn of(ended: Result<Exchanged, Refused>) -> Ended
        ensures { ended_as result ≡ ended }
    {
        match ended {
            Ok(Exchanged::Applied { stamp }) => Ended::Applied { stamp },
            Ok(Exchanged::Overtaken { by }) => Ended::Overtaken { by },
            Err(Refused::Component) => Ended::NoComponent,
            Err(Refused::Overtaken) => Ended::TooLate,
            Err(Refused::EpochsSpent) => Ended::EpochsSpent,
        }
    }

    /// How the update ended.
    #[inline(always)]
    pub fn result(self) -> Result<Exchanged, Refused>
        ensures { result ≡ ended_as self }
    {
        match self {
            Ended::Applied { stamp } => Ok(Exchanged::Applied { stamp }),
            Ended::Overtaken { by } => Ok(Exchanged::Overtaken { by }),
            Ended::NoComponent => Err(Refused::Component),
            Ended::TooLate => Err(Refused::Overtaken),
            Ended::EpochsSpent => Err(Refused::EpochsSpent),
        }
    }
}
