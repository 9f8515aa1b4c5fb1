//! Why the program ends with nothing done.

use clap::Error;
use clap::error::ErrorKind;
use partial_cmd::Fault;
use partial_replay::PlanError;
use std::alloc::{AllocError, Global};
use std::{fmt, io};

/// Why the program ends with nothing done.
#[derive(Debug, Drop)]
pub enum Stop {
    /// The program doesn't take these arguments, or they ask for help.
    Words(Error),
    /// Both plans would come from standard input.
    BothInput,
    /// The arguments aren't text.
    NotText,
    /// The request was refused.
    Refused(Fault),
    /// The request was refused for a fault of the plan with this name.
    RefusedPlan(String, Fault),
}

impl Stop {
    /// The exit status.
    pub fn status(&self) -> u8 {
        match self {
            Stop::Words(error) => error.exit_code() as u8,
            Stop::BothInput | Stop::NotText => 2,
            Stop::Refused(_) | Stop::RefusedPlan(..) => 1,
        }
    }

    /// A refusal of two plans, that names the one at fault when it is a fault of a plan.
    pub fn of_plan(alloc: Global, name: &str, fault: Fault) -> Stop {
        let names = match fault {
            Fault::Plan(PlanError::OutOfMemory) => false,
            Fault::Plan(_) | Fault::TooSmall => true,
            _ => false,
        };
        match format!(in alloc; "{name}") {
            Ok(name) if names => Stop::RefusedPlan(name, fault),
            _ => Stop::Refused(fault),
        }
    }
}

impl fmt::Display for Stop {
    fn fmt<W: fmt::Write>(&self, f: &mut fmt::Formatter<W>) -> fmt::Result {
        match self {
            Stop::Words(error) => write!(f, "{error}"),
            Stop::BothInput => write!(f, "one of two plans alone can be standard input"),
            Stop::NotText => write!(f, "the words are not text"),
            Stop::Refused(fault) => write!(f, "refused {}: {fault}", fault.code()),
            Stop::RefusedPlan(name, fault) => {
                write!(f, "refused {}: {name}: {fault}", fault.code())
            }
        }
    }
}

impl From<Fault> for Stop {
    fn from(fault: Fault) -> Stop {
        Stop::Refused(fault)
    }
}

impl From<AllocError> for Stop {
    fn from(_error: AllocError) -> Stop {
        Stop::Refused(Fault::Plan(PlanError::OutOfMemory))
    }
}

// Only arguments that aren't text can't be read.
impl From<io::Error> for Stop {
    fn from(error: io::Error) -> Stop {
        match error.kind() {
            io::ErrorKind::OutOfMemory => Stop::Refused(Fault::Plan(PlanError::OutOfMemory)),
            _ => Stop::NotText,
        }
    }
}

impl From<Error> for Stop {
    fn from(error: Error) -> Stop {
        match error.kind() {
            ErrorKind::OutOfMemory => Stop::Refused(Fault::Plan(PlanError::OutOfMemory)),
            _ => Stop::Words(error),
        }
    }
}
