//! The calls of a port of a single opening, made on what a handle holds. Each returns 0 when it was answered
//! and otherwise the number of the refusal. A refused call leaves the caller's answers as they were.

ghost use Rattle.std.specs.Prelude.{◌≡◌};
ghost use Rattle.partial_door.specs.OpeningCalls.{AtOpeningPort, OpeningReadEnds, OpeningScanEnds, OpeningStateEnds, OpeningUpdateEnds, OpeningUpdateIfEnds};

use crate::answers::{PortState, ReadAnswer, ScanAnswer, UpdateAnswer, port_state, scan_answer};
use crate::codes::{FINE, Misuse, opening_code_of};
use crate::held::Held;
use partial_memory::{Updated, UpdatedIf};

impl Held {
    /// Sets a component.
    ///
    /// Returns 17 when this isn't a port of an opening, 7 when `component` isn't below the number of components, and 9
    /// when the port is marked for the pool or this call marks it.
    pub fn update_opening(&mut self, component: u32, value: u64, answer: &mut UpdateAnswer) -> u32
        ensures { AtOpeningPort (answer.new ≡ answer.old) (OpeningUpdateEnds component value answer.old answer.new)
            self.old result self.new }
    {
        match self {
            Held::OpeningPort(own) => match own.memory.update(&mut own.port, component, value) {
                Ok(Updated::Applied { stamp }) => {
                    *answer = UpdateAnswer { stamp, applied: 1 };
                    FINE
                }
                Ok(Updated::Lost { by }) => {
                    *answer = UpdateAnswer {
                        stamp: by,
                        applied: 0,
                    };
                    FINE
                }
                Err(cause) => opening_code_of(cause),
            },
            _ => Misuse::HoldsNone.code(),
        }
    }

    /// Sets a component if it has the expected stamp.
    ///
    /// Returns numbers as [`Held::update_opening`].
    pub fn update_if_opening(
        &mut self,
        component: u32,
        expected: u64,
        value: u64,
        answer: &mut UpdateAnswer,
    ) -> u32
        ensures { AtOpeningPort (answer.new ≡ answer.old)
            (OpeningUpdateIfEnds component expected value answer.old answer.new) self.old result self.new }
    {
        match self {
            Held::OpeningPort(own) => {
                match own
                    .memory
                    .update_if(&mut own.port, component, expected, value)
                {
                    Ok(UpdatedIf::Applied { stamp }) => {
                        *answer = UpdateAnswer { stamp, applied: 1 };
                        FINE
                    }
                    Ok(UpdatedIf::Changed { by }) => {
                        *answer = UpdateAnswer {
                            stamp: by,
                            applied: 0,
                        };
                        FINE
                    }
                    Err(cause) => opening_code_of(cause),
                }
            }
            _ => Misuse::HoldsNone.code(),
        }
    }

    /// Reads a component.
    ///
    /// Returns 17 when this isn't a port of an opening, and 7 when `component` isn't below the number of components.
    pub fn read_opening(&mut self, component: u32, answer: &mut ReadAnswer) -> u32
        ensures { AtOpeningPort (answer.new ≡ answer.old) (OpeningReadEnds component answer.old answer.new)
            self.old result self.new }
    {
        match self {
            Held::OpeningPort(own) => match own.memory.read(&mut own.port, component) {
                Ok((value, stamp)) => {
                    *answer = ReadAnswer { value, stamp };
                    FINE
                }
                Err(cause) => opening_code_of(cause),
            },
            _ => Misuse::HoldsNone.code(),
        }
    }

    /// Scans the components `which` into `into`.
    ///
    /// Returns 17 when this isn't a port of an opening, 19 when the two lengths differ or exceed the number of
    /// components, 7 when an index isn't below that number, and 9 or 8 when the port is marked for the pool
    /// or the slots, or this call marks it.
    pub fn scan_opening(&mut self, which: &[u32], into: &mut [u64], answer: &mut ScanAnswer) -> u32
        ensures { AtOpeningPort ((into.new ≡ into.old) × (answer.new ≡ answer.old))
            (OpeningScanEnds which.now into.old into.new answer.old answer.new) self.old result self.new }
    {
        match self {
            Held::OpeningPort(own) => {
                if which.len() != into.len() {
                    return Misuse::Length.code();
                }
                if which.len() > own.components as usize {
                    return Misuse::Length.code();
                }
                match own.memory.scan(&mut own.port, which, into) {
                    Ok(scanned) => {
                        *answer = scan_answer(scanned);
                        FINE
                    }
                    Err(cause) => opening_code_of(cause),
                }
            }
            _ => Misuse::HoldsNone.code(),
        }
    }

    /// Reports the number and the marks of a port.
    ///
    /// Returns 17 when this isn't a port of an opening.
    pub fn state_opening(&self, answer: &mut PortState) -> u32
        ensures { AtOpeningPort (answer.new ≡ answer.old) (OpeningStateEnds answer.new) self.now result self.now }
    {
        match self {
            Held::OpeningPort(own) => {
                *answer = port_state(&own.port);
                FINE
            }
            _ => Misuse::HoldsNone.code(),
        }
    }
}
