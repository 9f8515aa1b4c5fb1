//! Why a long-lived memory was not opened.

ghost use Rattle.std.specs.Prelude.{◌≡◌};

use std::alloc::AllocError;
use thiserror::Error;

/// Why a memory was not opened. Nothing is left of the attempt.
#[derive(Clone, Copy, Debug, PartialEq, Eq, Error)]
pub enum OpenError {
    /// There are not 1 to 255 ports.
    #[error("ports out of range: 1 to 255, with any number of components")]
    Ports,
    /// There are not 1 to 65,536 initial values.
    #[error("components out of range: 1 to 65536, with any number of ports")]
    Components,
    /// There are more than 65,536 list words.
    #[error("list words out of range: at most 65536")]
    Lists,
    /// An arena would have more than 4,194,304 pool words: the initial records, those of the options, and room for the
    /// greatest record of each port.
    #[error("pool words out of range: fewer leave room for these components and ports")]
    Pool,
    /// An allocation was refused.
    #[error("out of memory")]
    OutOfMemory,
}

impl OpenError {
    ghost use Rattle.partial_long_lived.specs.Options.{open_code};

    /// The number of the refusal: 5 for `Ports`, 1 for `Components`, 3 for `Lists`, 4 for `Pool`, 6 for `OutOfMemory`.
    pub fn code(&self) -> u8
        ensures { result ≡ open_code self.now }
    {
        match self {
            OpenError::Ports => 5,
            OpenError::Components => 1,
            OpenError::Lists => 3,
            OpenError::Pool => 4,
            OpenError::OutOfMemory => 6,
        }
    }
}

impl From<AllocError> for OpenError {
    ghost use Rattle.partial_long_lived.specs.declared.open_error.OpenError.TheVariants.{OutOfMemory};

    ghost from_gives = { λ _ e. e ≡ OutOfMemory };

    fn from(_error: AllocError) -> OpenError {
        OpenError::OutOfMemory
    }
}
