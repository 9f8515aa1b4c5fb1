//! Why a call of a long-lived memory is refused.

ghost use Rattle.std.specs.Prelude.{◌≡◌};

use thiserror::Error;

/// Why a call is refused. A refused call applies nothing.
#[derive(Clone, Copy, Debug, PartialEq, Eq, Error)]
pub enum Refused {
    /// An index isn't below the number of components.
    #[error("component out of range")]
    Component,
    /// The update has entered a later epoch as often as it may, and took effect in none.
    #[error("overtaken by changes of epoch")]
    Overtaken,
    /// The current epoch is the last one that a word can name.
    #[error("epochs used up")]
    EpochsSpent,
}

impl Refused {
    ghost use Rattle.partial_long_lived.specs.Refusals.{refusal_code};

    /// The number of the refusal: 7 for `Component`, 25 for `Overtaken`, 27 for `EpochsSpent`.
    pub fn code(&self) -> u8
        ensures { result ≡ refusal_code self.now }
    {
        match self {
            Refused::Component => 7,
            Refused::Overtaken => 25,
            Refused::EpochsSpent => 27,
        }
    }
}
