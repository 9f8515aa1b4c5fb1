//! Why a run of workers failed.

ghost use Rattle.std.specs.Prelude.{◌≡◌};

use partial_memory::{CloseError, OpenError};
use std::alloc::AllocError;
use thiserror::Error;

/// Why a run failed. Nothing is left of it, and none of its threads goes on.
#[derive(Clone, Copy, Debug, PartialEq, Eq, Error)]
pub enum RunError {
    /// An allocation was refused, or a worker couldn't be started.
    #[error("out of memory")]
    OutOfMemory,
}

impl RunError {
    /// The number of the refusal: 6.
    pub fn code(&self) -> u8
        ensures { result ≡ 6 }
    {
        match self {
            RunError::OutOfMemory => 6,
        }
    }
}

impl From<AllocError> for RunError {
    fn from(_error: AllocError) -> RunError {
        RunError::OutOfMemory
    }
}

// A run has 1 to 64 ports and as many components as its memory, so only an allocation can be refused.
impl From<OpenError> for RunError {
    fn from(_error: OpenError) -> RunError {
        RunError::OutOfMemory
    }
}

impl From<CloseError> for RunError {
    fn from(_error: CloseError) -> RunError {
        RunError::OutOfMemory
    }
}
