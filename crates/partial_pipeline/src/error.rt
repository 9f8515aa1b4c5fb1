//! Why a pipeline didn't run.

ghost use Rattle.std.specs.Prelude.{◌≡◌};

use partial_long_lived::OpenError;
use std::alloc::AllocError;
use thiserror::Error;

/// Why a pipeline didn't run, or why nothing is known of its run. Nothing is left of it, and none of its
/// threads goes on.
#[derive(Clone, Copy, Debug, PartialEq, Eq, Error)]
pub enum PipelineError {
    /// There are not 1 to 63 stages: each has a port, and so has the monitor. Nothing was made.
    #[error("stages out of range")]
    Stages,
    /// The options ask for more than 65,536 list words. Nothing was made.
    #[error("list words out of range")]
    Lists,
    /// An arena of the memory would have more than 4,194,304 pool words: the initial records, those of the options, and
    /// room for the greatest record of each port. Nothing was made.
    #[error("pool words out of range")]
    Pool,
    /// An allocation was refused, or a thread couldn't be started.
    #[error("out of memory")]
    OutOfMemory,
}

impl PipelineError {
    ghost use Rattle.partial_pipeline.specs.Pipeline.{error_code};

    /// The number of the refusal: 5 for `Stages`, 3 for `Lists`, 4 for `Pool`, 6 for `OutOfMemory`.
    pub fn code(&self) -> u8
        ensures { result ≡ error_code self.now }
    {
        match self {
            PipelineError::Stages => 5,
            PipelineError::Lists => 3,
            PipelineError::Pool => 4,
            PipelineError::OutOfMemory => 6,
        }
    }
}

impl From<AllocError> for PipelineError {
    ghost use Rattle.partial_pipeline.specs.declared.error.PipelineError.TheVariants.{OutOfMemory};

    ghost from_gives = { λ _ e. e ≡ OutOfMemory };

    fn from(_error: AllocError) -> PipelineError {
        PipelineError::OutOfMemory
    }
}

// A pipeline of so many stages has one port more than components, so either is out of range only where the stages are.
impl From<OpenError> for PipelineError {
    ghost use Rattle.partial_pipeline.specs.Pipeline.{error_of};

    ghost from_gives = { λ refused e. e ≡ error_of refused };

    fn from(error: OpenError) -> PipelineError {
        match error {
            OpenError::Ports | OpenError::Components => PipelineError::Stages,
            OpenError::Lists => PipelineError::Lists,
            OpenError::Pool => PipelineError::Pool,
            OpenError::OutOfMemory => PipelineError::OutOfMemory,
        }
    }
}
