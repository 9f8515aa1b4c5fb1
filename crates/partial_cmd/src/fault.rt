//! Why a command was refused.

ghost use Rattle.std.specs.Prelude.{◌≡◌};

use partial_replay::{Cause, OutcomeError, PlanError, ReplayError};
use partial_workers::RunError;
use std::alloc::AllocError;
use thiserror::Error;

/// Why a command was refused.
#[derive(Clone, Copy, Debug, PartialEq, Eq, Error)]
pub enum Fault {
    /// The plan couldn't be read. Nothing was written.
    #[error("{0}")]
    Plan(PlanError),
    /// The plan couldn't be replayed. Nothing was written.
    #[error("{0}")]
    Replay(ReplayError),
    /// An allocation was refused in the check of the outcome. Nothing was written.
    #[error("out of memory")]
    Check,
    /// The second plan has fewer components than the first one. Nothing was run.
    #[error("fewer components than before")]
    TooSmall,
    /// The plan couldn't be run. No thread is left running, and nothing was written.
    #[error("{0}")]
    Run(RunError),
    /// The outcome or the report wasn't written whole.
    #[error("{0}")]
    Outcome(OutcomeError),
}

impl Fault {
    ghost use Rattle.partial_cmd.specs.Execution.{fault_code, fault_line};

    /// The number of the refusal: 1 to 4 for a size, 5 for the number of ports, 6 for memory, 10 for a line
    /// of the plan, 11 for the reader, 12 for the writer, 13 for fewer components in a second plan.
    pub fn code(&self) -> u8
        ensures { result ≡ fault_code self.now }
    {
        match self {
            Fault::Plan(error) => error.code(),
            Fault::Replay(error) => error.code(),
            Fault::Check => 6,
            Fault::TooSmall => 13,
            Fault::Run(error) => error.code(),
            Fault::Outcome(error) => error.code(),
        }
    }

    /// The faulty line of the plan, counted from 1, and its cause. `None` when the fault isn't that of a
    /// line.
    pub fn at(&self) -> Option<(u32, Cause)>
        ensures { result ≡ fault_line self.now }
    {
        match self {
            Fault::Plan(error) => error.at(),
            _ => None,
        }
    }
}

impl From<PlanError> for Fault {
    ghost use Rattle.std.specs.Prelude.{◌≡◌};
    ghost use Rattle.partial_cmd.specs.declared.fault.Fault.TheVariants.{Plan};

    ghost from_gives = { λ cause e. e ≡ Plan cause };

    fn from(error: PlanError) -> Fault {
        Fault::Plan(error)
    }
}

impl From<ReplayError> for Fault {
    ghost use Rattle.std.specs.Prelude.{◌≡◌};
    ghost use Rattle.partial_cmd.specs.declared.fault.Fault.TheVariants.{Replay};

    ghost from_gives = { λ cause e. e ≡ Replay cause };

    fn from(error: ReplayError) -> Fault {
        Fault::Replay(error)
    }
}

impl From<AllocError> for Fault {
    ghost use Rattle.std.specs.Prelude.{◌≡◌};
    ghost use Rattle.partial_cmd.specs.declared.fault.Fault.TheVariants.{Check};

    ghost from_gives = { λ _ e. e ≡ Check };

    fn from(_error: AllocError) -> Fault {
        Fault::Check
    }
}

impl From<RunError> for Fault {
    ghost use Rattle.std.specs.Prelude.{◌≡◌};
    ghost use Rattle.partial_cmd.specs.declared.fault.Fault.TheVariants.{Run};

    ghost from_gives = { λ cause e. e ≡ Run cause };

    fn from(error: RunError) -> Fault {
        Fault::Run(error)
    }
}

impl From<OutcomeError> for Fault {
    ghost use Rattle.std.specs.Prelude.{◌≡◌};
    ghost use Rattle.partial_cmd.specs.declared.fault.Fault.TheVariants.{Outcome};

    ghost from_gives = { λ cause e. e ≡ Outcome cause };

    fn from(error: OutcomeError) -> Fault {
        Fault::Outcome(error)
    }
}
