//! Why the program ends with nothing drawn.

use clap::Error;
use clap::error::ErrorKind;
use partial_picture::{Fault, PictureError};
use partial_replay::PlanError;
use std::alloc::AllocError;
use std::{fmt, io};

/// Why the program ends with nothing drawn.
#[derive(Debug, Drop)]
pub enum Stop {
    /// The program doesn't take these arguments, or they ask for help.
    Words(Error),
    /// The two values of `--window` aren't numbers of steps.
    Window,
    /// The arguments aren't text.
    NotText,
    /// The request was refused.
    Refused(Fault),
    /// The request was refused for a line of the plan, whose text has a carriage return.
    RefusedReturn(Fault),
}

impl Stop {
    /// The exit status.
    pub fn status(&self) -> u8 {
        match self {
            Stop::Words(error) => error.exit_code() as u8,
            Stop::Window | Stop::NotText => 2,
            Stop::Refused(_) | Stop::RefusedReturn(_) => 1,
        }
    }

    /// A refusal of a plan whose text has a carriage return or not. No plan has one, so a refusal for a line says that.
    pub fn of_plan(fault: Fault, has_return: bool) -> Stop {
        match fault {
            Fault::Plan(PlanError::Line { .. }) if has_return => Stop::RefusedReturn(fault),
            _ => Stop::Refused(fault),
        }
    }
}

impl fmt::Display for Stop {
    fn fmt<W: fmt::Write>(&self, f: &mut fmt::Formatter<W>) -> fmt::Result {
        match self {
            Stop::Words(error) => write!(f, "{error}"),
            Stop::Window => write!(f, "--window takes the numbers of two steps"),
            Stop::NotText => write!(f, "the words are not text"),
            Stop::Refused(fault) => write!(f, "refused {}: {fault}", fault.code()),
            Stop::RefusedReturn(fault) => write!(
                f,
                "refused {}: {fault} (a carriage return ends no line)",
                fault.code()
            ),
        }
    }
}

impl From<Fault> for Stop {
    fn from(fault: Fault) -> Stop {
        Stop::Refused(fault)
    }
}

impl From<AllocError> for Stop {
    fn from(_error: AllocError) -> Stop {
        Stop::Refused(Fault::Picture(PictureError::OutOfMemory))
    }
}

// Only arguments that aren't text can't be read.
impl From<io::Error> for Stop {
    fn from(error: io::Error) -> Stop {
        match error.kind() {
            io::ErrorKind::OutOfMemory => Stop::Refused(Fault::Picture(PictureError::OutOfMemory)),
            _ => Stop::NotText,
        }
    }
}

impl From<Error> for Stop {
    fn from(error: Error) -> Stop {
        match error.kind() {
            ErrorKind::OutOfMemory => Stop::Refused(Fault::Picture(PictureError::OutOfMemory)),
            _ => Stop::Words(error),
        }
    }
}
