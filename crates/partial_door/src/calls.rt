//! The calls of a port of a long-lived memory, made on what a handle holds. Each returns 0 when it was
//! answered and otherwise the number of the refusal. A refused call leaves the caller's answers as they were.

ghost use Rattle.std.specs.Prelude.{◌≡◌};
ghost use Rattle.partial_door.specs.Calls.{AtPort, NumberEnds, ReadEnds, ScanEnds, ScanStampedEnds, UnchangedEnds, UpdateEnds, UpdateIfEnds};
ghost use Rattle.partial_door.specs.Memories.{ArePortsApart, MeetsAt};

use crate::answers::{
    ReadAnswer, ScanAnswer, UpdateAnswer, scan_answer, update_answer, update_if_answer,
};
use crate::codes::{FINE, Misuse, TWO_MEMORIES, code_of};
use crate::held::Held;

impl Held {
    /// Sets a component.
    ///
    /// Returns 17 when this isn't a port of a long-lived memory, 7 when `component` isn't below the number of
    /// components, 25 when the port entered a later epoch 16 times during the call, and 27 when the epoch has to
    /// be changed and is the last one.
    pub fn update(&mut self, component: u32, value: u64, answer: &mut UpdateAnswer) -> u32
        ensures { AtPort (answer.new ≡ answer.old) (UpdateEnds component value answer.old answer.new)
            self.old result self.new }
    {
        match self {
            Held::Port(own) => match own.memory.update(&mut own.port, component, value) {
                Ok(updated) => {
                    *answer = update_answer(updated);
                    FINE
                }
                Err(cause) => code_of(cause),
            },
            _ => Misuse::HoldsNone.code(),
        }
    }

    /// Sets a component that has the expected stamp.
    ///
    /// Returns what [`Held::update`] returns.
    pub fn update_if(
        &mut self,
        component: u32,
        expected: u64,
        value: u64,
        answer: &mut UpdateAnswer,
    ) -> u32
        ensures { AtPort (answer.new ≡ answer.old)
            (UpdateIfEnds component expected value answer.old answer.new) self.old result self.new }
    {
        match self {
            Held::Port(own) => {
                match own
                    .memory
                    .update_if(&mut own.port, component, expected, value)
                {
                    Ok(updated) => {
                        *answer = update_if_answer(updated);
                        FINE
                    }
                    Err(cause) => code_of(cause),
                }
            }
            _ => Misuse::HoldsNone.code(),
        }
    }

    /// Reads a component.
    ///
    /// Returns 17 when this isn't a port of a long-lived memory, and 7 when `component` isn't below the number
    /// of components.
    pub fn read(&mut self, component: u32, answer: &mut ReadAnswer) -> u32
        ensures { AtPort (answer.new ≡ answer.old) (ReadEnds component answer.old answer.new)
            self.old result self.new }
    {
        match self {
            Held::Port(own) => match own.memory.read(&mut own.port, component) {
                Ok((value, stamp)) => {
                    *answer = ReadAnswer { value, stamp };
                    FINE
                }
                Err(cause) => code_of(cause),
            },
            _ => Misuse::HoldsNone.code(),
        }
    }

    /// Scans the components `which` into `into`.
    ///
    /// Returns 17 when this isn't a port of a long-lived memory, 19 when the two lengths differ or exceed the
    /// number of components, 7 when an index isn't below that number, and 27 when the epoch has to be changed and
    /// is the last one.
    pub fn scan(&mut self, which: &[u32], into: &mut [u64], answer: &mut ScanAnswer) -> u32
        ensures { AtPort ((into.new ≡ into.old) × (answer.new ≡ answer.old))
            (ScanEnds which.now into.old into.new answer.old answer.new) self.old result self.new }
    {
        match self {
            Held::Port(own) => {
                if which.len() != into.len() {
                    return Misuse::Length.code();
                }
                if which.len() > own.components {
                    return Misuse::Length.code();
                }
                match own.memory.scan(&mut own.port, which, into) {
                    Ok(scanned) => {
                        *answer = scan_answer(scanned);
                        FINE
                    }
                    Err(cause) => code_of(cause),
                }
            }
            _ => Misuse::HoldsNone.code(),
        }
    }

    /// Scans the components `which` into `into`, and their stamps into `stamps`, unless the scan took the view of an
    /// update, which `answer` says: then `stamps` stays.
    ///
    /// Returns 17 when this isn't a port of a long-lived memory, 19 when two of the three lengths differ or they
    /// exceed the number of components, 7 when an index isn't below that number, and 27 when the epoch has to be
    /// changed and is the last one.
    pub fn scan_stamped(
        &mut self,
        which: &[u32],
        into: &mut [u64],
        stamps: &mut [u64],
        answer: &mut ScanAnswer,
    ) -> u32
        ensures { AtPort ((into.new ≡ into.old) × (stamps.new ≡ stamps.old) × (answer.new ≡ answer.old))
            (ScanStampedEnds which.now into.old into.new stamps.old stamps.new answer.old answer.new)
            self.old result self.new }
    {
        match self {
            Held::Port(own) => {
                if which.len() != into.len() {
                    return Misuse::Length.code();
                }
                if stamps.len() != which.len() {
                    return Misuse::Length.code();
                }
                if which.len() > own.components {
                    return Misuse::Length.code();
                }
                match own.memory.scan_stamped(&mut own.port, which, into, stamps) {
                    Ok(stamped) => {
                        *answer = scan_answer(stamped);
                        FINE
                    }
                    Err(cause) => code_of(cause),
                }
            }
            _ => Misuse::HoldsNone.code(),
        }
    }

    /// Says whether each of these components still has this stamp: 1 or 0.
    ///
    /// Returns 17 when this isn't a port of a long-lived memory, and 19 when the two lengths differ.
    pub fn unchanged(&mut self, which: &[u32], stamps: &[u64], answer: &mut u32) -> u32
        ensures { AtPort (answer.new ≡ answer.old)
            (UnchangedEnds which.now stamps.now answer.old answer.new) self.old result self.new }
    {
        match self {
            Held::Port(own) => {
                if stamps.len() != which.len() {
                    return Misuse::Length.code();
                }
                if own.memory.unchanged(&mut own.port, which, stamps) {
                    *answer = 1;
                } else {
                    *answer = 0;
                }
                FINE
            }
            _ => Misuse::HoldsNone.code(),
        }
    }

    /// Has two ports of a long-lived memory meet.
    ///
    /// Returns 17 when one of the two isn't a port of one, and 20 when they are of two memories. Both are as they
    /// were then.
    pub fn meet(&mut self, other: &mut Held) -> u32
        requires { ArePortsApart self.old other.old }
        ensures { MeetsAt self.old other.old result self.new other.new }
    {
        let Held::Port(first) = self else {
            return Misuse::HoldsNone.code();
        };
        let Held::Port(second) = other else {
            return Misuse::HoldsNone.code();
        };
        if second.number != first.number {
            return TWO_MEMORIES;
        }
        first.memory.meet(&mut first.port, &mut second.port);
        FINE
    }

    /// Reports the number of a port.
    ///
    /// Returns 17 when this isn't a port of a long-lived memory.
    pub fn number(&self, answer: &mut u32) -> u32
        ensures { AtPort (answer.new ≡ answer.old) (NumberEnds answer.new) self.now result self.now }
    {
        match self {
            Held::Port(own) => {
                *answer = own.port.number();
                FINE
            }
            _ => Misuse::HoldsNone.code(),
        }
    }
}
