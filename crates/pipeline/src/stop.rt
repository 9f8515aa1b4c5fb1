//! Why the program ends before its pipeline has worked on all items.

use clap::Error;
use clap::error::ErrorKind;
use partial_pipeline::PipelineError;
use std::alloc::AllocError;
use std::{fmt, io};

/// Why the program ends before its pipeline has worked on all items.
#[derive(Debug, Drop)]
pub enum Stop {
    /// The program doesn't take these arguments, or they ask for help.
    Words(Error),
    /// The option doesn't take this value.
    Value {
        /// The option's name, without its dashes.
        option: &'static str,
        /// The values that it takes.
        takes: &'static str,
    },
    /// The arguments aren't text.
    NotText,
    /// The pipeline didn't run.
    Refused(PipelineError),
    /// The memory's epochs were used up before all items were counted. The last line was written.
    EpochsSpent,
    /// A line couldn't be written.
    Write,
}

impl Stop {
    /// The exit status.
    pub fn status(&self) -> u8 {
        match self {
            Stop::Words(error) => error.exit_code() as u8,
            Stop::Value { .. } | Stop::NotText => 2,
            Stop::Refused(_) | Stop::EpochsSpent | Stop::Write => 1,
        }
    }
}

impl fmt::Display for Stop {
    fn fmt<W: fmt::Write>(&self, f: &mut fmt::Formatter<W>) -> fmt::Result {
        match self {
            Stop::Words(error) => write!(f, "{error}"),
            Stop::Value { option, takes } => write!(f, "--{option} takes {takes}"),
            Stop::NotText => write!(f, "the words are not text"),
            Stop::Refused(error) => write!(f, "refused {}: {error}", error.code()),
            Stop::EpochsSpent => write!(f, "epochs used up"),
            Stop::Write => write!(f, "not written"),
        }
    }
}

impl From<PipelineError> for Stop {
    fn from(error: PipelineError) -> Stop {
        Stop::Refused(error)
    }
}

impl From<AllocError> for Stop {
    fn from(_error: AllocError) -> Stop {
        Stop::Refused(PipelineError::OutOfMemory)
    }
}

// Only arguments that aren't text can't be read.
impl From<io::Error> for Stop {
    fn from(error: io::Error) -> Stop {
        match error.kind() {
            io::ErrorKind::OutOfMemory => Stop::Refused(PipelineError::OutOfMemory),
            _ => Stop::NotText,
        }
    }
}

impl From<Error> for Stop {
    fn from(error: Error) -> Stop {
        match error.kind() {
            ErrorKind::OutOfMemory => Stop::Refused(PipelineError::OutOfMemory),
            _ => Stop::Words(error),
        }
    }
}
