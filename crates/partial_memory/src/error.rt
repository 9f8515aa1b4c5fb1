//! Why a memory was not opened or closed.

ghost use Rattle.std.specs.Prelude.{◌≡◌};

use std::alloc::AllocError;
use thiserror::Error;

/// Why a memory was not opened. Nothing is left of the attempt.
#[derive(Clone, Copy, Debug, PartialEq, Eq, Error)]
pub enum OpenError {
    /// There are not 1 to 64 ports.
    #[error("ports out of range")]
    Ports,
    /// The closed memory has more components than the new sizes.
    #[error("fewer components than before")]
    TooSmall,
    /// An allocation was refused.
    #[error("out of memory")]
    OutOfMemory,
}

impl OpenError {
    ghost use Rattle.partial_memory.specs.Ports.{open_code};

    /// The number of the refusal: 5 for `Ports`, 13 for `TooSmall`, 6 for `OutOfMemory`.
    pub fn code(&self) -> u8
        ensures { result ≡ open_code self.now }
    {
        match self {
            OpenError::Ports => 5,
            OpenError::TooSmall => 13,
            OpenError::OutOfMemory => 6,
        }
    }
}

impl From<AllocError> for OpenError {
    ghost use Rattle.partial_memory.specs.declared.error.OpenError.TheVariants.{OutOfMemory};

    ghost from_gives = { λ _ e. e ≡ OutOfMemory };

    fn from(_error: AllocError) -> OpenError {
        OpenError::OutOfMemory
    }
}

/// Why a memory was not closed. Its contents are lost, and nothing is returned.
#[derive(Clone, Copy, Debug, PartialEq, Eq, Error)]
pub enum CloseError {
    /// An allocation was refused.
    #[error("out of memory")]
    OutOfMemory,
}

impl CloseError {
    /// The number of the refusal: 6.
    pub fn code(&self) -> u8
        ensures { result ≡ 6 }
    {
        match self {
            CloseError::OutOfMemory => 6,
        }
    }
}

impl From<AllocError> for CloseError {
    fn from(_error: AllocError) -> CloseError {
        CloseError::OutOfMemory
    }
}
