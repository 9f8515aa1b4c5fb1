//! Why no picture was drawn or written.

ghost use Rattle.std.specs.Prelude.{◌≡◌};

use partial_replay::{OutcomeError, PlanError, ReplayError};
use std::alloc::AllocError;
use thiserror::Error;

/// Why a replay has no picture.
#[derive(Clone, Copy, Debug, PartialEq, Eq, Error)]
pub enum PictureError {
    /// An allocation was refused.
    #[error("out of memory")]
    OutOfMemory,
    /// The window has so many steps, and a picture has at most 2,000.
    #[error("{steps} steps, of which at most 2000 are drawn: give --window A B")]
    TooMany { steps: usize },
    /// The window doesn't go from a step of the replay to the same or a later one. The replay has so many
    /// steps.
    #[error("window out of range of {steps} steps")]
    Window { steps: usize },
}

impl PictureError {
    ghost use Rattle.partial_picture.specs.Refusal.{picture_code_of};

    /// The number of the refusal: 6 for `OutOfMemory`, 15 for `TooMany`, 16 for `Window`.
    pub fn code(&self) -> u8
        ensures { result ≡ picture_code_of self.now }
    {
        match self {
            PictureError::OutOfMemory => 6,
            PictureError::TooMany { .. } => 15,
            PictureError::Window { .. } => 16,
        }
    }
}

impl From<AllocError> for PictureError {
    ghost use Rattle.std.specs.Prelude.{◌≡◌};
    ghost use Rattle.partial_picture.specs.declared.fault.PictureError.TheVariants.{OutOfMemory};

    ghost from_gives = { λ _ e. e ≡ OutOfMemory };

    fn from(_error: AllocError) -> PictureError {
        PictureError::OutOfMemory
    }
}

/// Why a picture wasn't written.
#[derive(Clone, Copy, Debug, PartialEq, Eq, Error)]
pub enum Fault {
    /// The plan couldn't be read. Nothing was written.
    #[error("{0}")]
    Plan(PlanError),
    /// The plan couldn't be replayed. Nothing was written.
    #[error("{0}")]
    Replay(ReplayError),
    /// The replay has no picture. Nothing was written.
    #[error("{0}")]
    Picture(PictureError),
    /// The picture wasn't written whole.
    #[error("{0}")]
    Text(OutcomeError),
}

impl Fault {
    ghost use Rattle.partial_picture.specs.Refusal.{draw_code};

    /// The number of the refusal: 1 to 4 for a size, 5 for the number of ports, 6 for memory, 10 for a line
    /// of the plan, 11 for the reader, 12 for the writer, 15 for too many steps, 16 for the window.
    pub fn code(&self) -> u8
        ensures { result ≡ draw_code self.now }
    {
        match self {
            Fault::Plan(error) => error.code(),
            Fault::Replay(error) => error.code(),
            Fault::Picture(error) => error.code(),
            Fault::Text(error) => error.code(),
        }
    }
}

impl From<PlanError> for Fault {
    ghost use Rattle.std.specs.Prelude.{◌≡◌};
    ghost use Rattle.partial_picture.specs.declared.fault.Fault.TheVariants.{Plan};

    ghost from_gives = { λ cause e. e ≡ Plan cause };

    fn from(error: PlanError) -> Fault {
        Fault::Plan(error)
    }
}

impl From<ReplayError> for Fault {
    ghost use Rattle.std.specs.Prelude.{◌≡◌};
    ghost use Rattle.partial_picture.specs.declared.fault.Fault.TheVariants.{Replay};

    ghost from_gives = { λ cause e. e ≡ Replay cause };

    fn from(error: ReplayError) -> Fault {
        Fault::Replay(error)
    }
}

impl From<PictureError> for Fault {
    ghost use Rattle.std.specs.Prelude.{◌≡◌};
    ghost use Rattle.partial_picture.specs.declared.fault.Fault.TheVariants.{Picture};

    ghost from_gives = { λ cause e. e ≡ Picture cause };

    fn from(error: PictureError) -> Fault {
        Fault::Picture(error)
    }
}

impl From<AllocError> for Fault {
    ghost use Rattle.std.specs.Prelude.{◌≡◌};
    ghost use Rattle.partial_picture.specs.declared.fault.Fault.TheVariants.{Picture};
    ghost use Rattle.partial_picture.specs.declared.fault.PictureError.TheVariants.{OutOfMemory};

    ghost from_gives = { λ _ e. e ≡ Picture OutOfMemory };

    fn from(_error: AllocError) -> Fault {
        Fault::Picture(PictureError::OutOfMemory)
    }
}

impl From<OutcomeError> for Fault {
    ghost use Rattle.std.specs.Prelude.{◌≡◌};
    ghost use Rattle.partial_picture.specs.declared.fault.Fault.TheVariants.{Text};

    ghost from_gives = { λ cause e. e ≡ Text cause };

    fn from(error: OutcomeError) -> Fault {
        Fault::Text(error)
    }
}
