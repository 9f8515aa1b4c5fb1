//! Why a plan or an outcome was refused.

ghost use Rattle.std.specs.Prelude.{◌≡◌};

use partial_words::SizeError;
use std::alloc::{AllocError, AllocFailed};
use thiserror::Error;

/// What is wrong with a line of a plan text.
#[derive(Clone, Copy, Debug, PartialEq, Eq, Error)]
pub enum Cause {
    /// The text is longer than 4,194,304 bytes. The line is 0.
    #[error("size")]
    Size,
    /// The line is missing, or no newline ends it.
    #[error("end")]
    End,
    /// The first field of the line or of a call is a word that can't stand there.
    #[error("word")]
    Word,
    /// The line or a call has too few or too many fields.
    #[error("count")]
    Count,
    /// A field isn't the number or the entry that it should be, or it is too large.
    #[error("number")]
    Number,
    /// The port of an entry isn't in the plan, or its count is 0.
    #[error("range")]
    Range,
    /// Something follows the last line.
    #[error("extra")]
    Extra,
}

/// Why a plan wasn't read. Nothing is left of it, nor of what the reader had supplied.
#[derive(Clone, Copy, Debug, PartialEq, Eq, Error)]
pub enum PlanError {
    /// A size is out of its range.
    #[error("{0}")]
    Size(SizeError),
    /// There are not 1 to 64 ports.
    #[error("ports out of range")]
    Ports,
    /// An allocation was refused.
    #[error("out of memory")]
    OutOfMemory,
    /// This line, counted from 1, is wrong for this cause.
    #[error("line {line}: {cause}")]
    Line { line: u32, cause: Cause },
    /// The reader failed.
    #[error("read fault")]
    Read,
}

impl PlanError {
    ghost use Rattle.partial_text.specs.Fault.{plan_code, line_of};

    /// The number of the refusal: 1 to 4 for a size, 5 for `Ports`, 6 for `OutOfMemory`, 10 for `Line`, 11 for
    /// `Read`.
    pub fn code(&self) -> u8
        ensures { result ≡ plan_code self.now }
    {
        match self {
            PlanError::Size(error) => error.code(),
            PlanError::Ports => 5,
            PlanError::OutOfMemory => 6,
            PlanError::Line { .. } => 10,
            PlanError::Read => 11,
        }
    }

    /// The faulty line, counted from 1, and its cause. `None` when the fault isn't that of a line.
    pub fn at(&self) -> Option<(u32, Cause)>
        ensures { result ≡ line_of self.now }
    {
        match self {
            PlanError::Line { line, cause } => Some((*line, *cause)),
            _ => None,
        }
    }
}

impl From<AllocError> for PlanError {
    ghost use Rattle.std.specs.Prelude.{◌≡◌};
    ghost use Rattle.partial_text.specs.declared.fault.PlanError.TheVariants.{OutOfMemory};

    ghost from_gives = { λ _ e. e ≡ OutOfMemory };

    fn from(_error: AllocError) -> PlanError {
        PlanError::OutOfMemory
    }
}

impl<T: Drop> From<AllocFailed<T>> for PlanError {
    ghost use Rattle.std.specs.Prelude.{◌≡◌};
    ghost use Rattle.partial_text.specs.declared.fault.PlanError.TheVariants.{OutOfMemory};

    ghost from_gives = { λ _ e. e ≡ OutOfMemory };

    fn from(_error: AllocFailed<T>) -> PlanError {
        PlanError::OutOfMemory
    }
}

/// Why an outcome wasn't written whole.
#[derive(Clone, Copy, Debug, PartialEq, Eq, Error)]
pub enum OutcomeError {
    /// An allocation was refused. Nothing was written.
    #[error("out of memory")]
    OutOfMemory,
    /// The writer failed or took 0 bytes. A part of the text from its front was written.
    #[error("write fault")]
    Write,
}

impl OutcomeError {
    ghost use Rattle.partial_text.specs.Fault.{outcome_code_of};

    /// The number of the refusal: 6 for `OutOfMemory`, 12 for `Write`.
    pub fn code(&self) -> u8
        ensures { result ≡ outcome_code_of self.now }
    {
        match self {
            OutcomeError::OutOfMemory => 6,
            OutcomeError::Write => 12,
        }
    }
}

impl From<AllocError> for OutcomeError {
    ghost use Rattle.std.specs.Prelude.{◌≡◌};
    ghost use Rattle.partial_text.specs.declared.fault.OutcomeError.TheVariants.{OutOfMemory};

    ghost from_gives = { λ _ e. e ≡ OutOfMemory };

    fn from(_error: AllocError) -> OutcomeError {
        OutcomeError::OutOfMemory
    }
}
