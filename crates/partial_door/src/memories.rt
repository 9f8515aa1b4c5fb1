//! The calls on the handle of a long-lived memory. A refused call returns the number of the refusal.

ghost use Rattle.std.specs.Prelude.{◌≡◌, ◌∷◌, length, IfOk, IfErr};
ghost use Rattle.partial_long_lived.specs.Closing.{ClosesLawfully};
ghost use Rattle.partial_door.specs.Belonging.{AreOf};
ghost use Rattle.partial_door.specs.declared.held.Held.TheVariants as held;
ghost use Rattle.partial_door.specs.Inner.Memories.{IsOpenOf, IsUnclosed, IsUnready};
ghost use Rattle.partial_door.specs.Memories.{AreHeldApart, ClosesAt, GivesPort, HoldsNew, IsReadyToClose, IsSameClosing};
ghost use Rattle.partial_door.specs.Memories.{MayNotBeNew, MayNotClose, MayNotGive, MayNotTake, KeepsPorts, TakesPort, options_of};

use crate::answers::ArenaSizes;
use crate::codes::{HOLDS_NONE, IN_USE, LENGTH, NONE_FREE, OUT_OF_MEMORY, SHARED, TWO_MEMORIES};
use crate::held::{ClosingMemory, Held, OpenMemory, OwnedPort};
use crate::opening_memories::{boxed, nothing};
use partial_long_lived::{LongLived, Options, Port, Unclosed};
use std::alloc::Global;
use std::mem;
use std::sync::Arc;

// Boxes an opened memory with so many components and so many ports, all of which it holds.
fn with_ports(
    alloc: Global,
    number: u64,
    components: usize,
    count: u32,
    opened: (LongLived, Vec<Port>),
) -> Result<Box<Held>, u32>
    requires size { components ≡ opened.0.about.sizes.m }
    requires values { components ≡ length opened.0.about.opening.values }
    requires of { AreOf opened.0 opened.1.items }
    ensures ok { IfOk result (λ b. IsOpenOf number count opened.0 opened.1.items b.value) }
    ensures err { IfErr result (λ code. code ≡ 6) }
{
    let (memory, ports) = opened;
    let Ok(memory) = Arc::new(alloc, memory) else {
        return Err(OUT_OF_MEMORY);
    };
    let open = OpenMemory {
        number,
        components,
        count,
        memory,
        ports,
    };
    boxed(alloc, Held::Memory(open))
}

/// The options with these sizes of an arena.
pub fn options_for(arena: &ArenaSizes) -> Options
    ensures { result ≡ options_of arena.now }
{
    Options {
        lists: arena.lists,
        pool: match arena.pool {
            0 => None,
            words => Some(words),
        },
        announce: None,
    }
}

/// Opens a long-lived memory that holds all its ports.
///
/// # Errors
/// 5 when there are not 1 to 255 ports, 1 when there are not 1 to 65,536 values, 3 or 4 when a size of an arena
/// is out of its range, and 6 when an allocation was refused. Nothing is left of the attempt.
pub fn open(
    alloc: Global,
    number: u64,
    initial: &[u64],
    ports: u32,
    options: Options,
) -> Result<Box<Held>, u32>
    ensures ok { IfOk result (λ b. HoldsNew number initial.now ports options b.value) }
    ensures err { IfErr result (λ code. MayNotBeNew initial.now ports options code) }
{
    match LongLived::open(alloc, initial, ports, options) {
        Ok(opened) => with_ports(alloc, number, initial.len(), ports, opened),
        Err(fault) => Err(u32::from(fault.code())),
    }
}

impl Held {
    // The port of a long-lived memory that this is.
    fn into_port(self) -> OwnedPort
        requires { (own : OwnedPort) × (self ≡ held.Port own) }
        ensures { self ≡ held.Port result }
    {
        match self {
            Held::Port(own) => own,
            _ => unreachable!(),
        }
    }

    /// Takes out the last port that the long-lived memory holds.
    ///
    /// # Errors
    /// 17 when this isn't an open long-lived memory, 21 when it holds no port, and 6 when an allocation was
    /// refused. The memory is as it was.
    pub fn take_port(&mut self, alloc: Global) -> Result<Box<Held>, u32>
        ensures ok { IfOk result (λ b. TakesPort self.old b.value self.new) }
        ensures err { IfErr result (λ code. (self.new ≡ self.old) × MayNotTake self.old code) }
    {
        let Held::Memory(open) = self else {
            return Err(HOLDS_NONE);
        };
        if open.ports.is_empty() {
            return Err(NONE_FREE);
        }
        let Ok(mut taken) = boxed(alloc, nothing(alloc)) else {
            return Err(OUT_OF_MEMORY);
        };
        let Ok(memory) = Arc::try_clone(&open.memory) else {
            return Err(OUT_OF_MEMORY);
        };
        let Some(port) = open.ports.pop() else {
            unreachable!()
        };
        let own = OwnedPort {
            number: open.number,
            components: open.components,
            memory,
            port,
        };
        drop(Box::replace(&mut taken, Held::Port(own)));
        Ok(taken)
    }

    /// Returns a port to its long-lived memory.
    ///
    /// # Errors
    /// 17 when this isn't an open long-lived memory or `given` isn't a port of one, 20 when the port is of
    /// another memory, and 6 when an allocation was refused. The memory is as it was, and `given` comes back
    /// with the number.
    pub fn give_port(&mut self, given: Box<Held>) -> Result<(), (u32, Box<Held>)>
        requires { AreHeldApart self.old given.value }
        ensures ok { IfOk result (λ _. GivesPort self.old given.value self.new) }
        ensures err { IfErr result (λ e. (e.1.value ≡ given.value) × KeepsPorts self.old self.new ×
            MayNotGive self.old given.value e.0) }
    {
        let Held::Memory(open) = self else {
            return Err((HOLDS_NONE, given));
        };
        let Held::Port(own) = &*given else {
            return Err((HOLDS_NONE, given));
        };
        if own.number != open.number {
            return Err((TWO_MEMORIES, given));
        }
        if open.ports.reserve(1).is_err() {
            return Err((OUT_OF_MEMORY, given));
        }
        let own = Box::into_inner(given).into_port();
        open.ports.push_reserved(own.port);
        Ok(())
    }
}

// Why a memory wasn't taken apart, and the memory.
#[derive(Drop)]
enum Unready {
    Away(OpenMemory),
    Shared(OpenMemory),
}

impl OpenMemory {
    // Takes the memory apart when it holds all its ports and no other reference of it is in use.
    fn alone(self) -> Result<ClosingMemory, Unready>
        ensures ok { IfOk result (λ c. IsReadyToClose (held.Memory self) c × (c.components ≡ self.components)) }
        ensures err { IfErr result (IsUnready self) }
    {
        let all = self.count as usize;
        if self.ports.is_empty() || self.ports.len() != all {
            return Err(Unready::Away(self));
        }
        let OpenMemory {
            number,
            components,
            count,
            memory,
            mut ports,
        } = self;
        let memory = match Arc::try_unwrap(memory) {
            Ok(memory) => memory,
            Err(memory) => {
                return Err(Unready::Shared(OpenMemory {
                    number,
                    components,
                    count,
                    memory,
                    ports,
                }));
            }
        };
        let Some(port) = ports.pop() else {
            unreachable!()
        };
        Ok(ClosingMemory {
            components,
            memory,
            port,
            rest: ports,
        })
    }
}

impl ClosingMemory {
    // Closes the memory, and puts its values into `into`, which has room for just as many.
    fn close(self, alloc: Global, into: &mut [u64]) -> Result<(), ClosingMemory>
        requires { length into.old ≡ self.components }
        ensures ok { IfOk result (λ _. ClosesLawfully self.memory (self.port ∷ self.rest.items) into.new) }
        ensures err { IfErr result (λ kept. IsSameClosing self kept × (into.new ≡ into.old)) }
    {
        let ClosingMemory {
            components,
            memory,
            port,
            rest,
        } = self;
        match memory.close(alloc, port, rest) {
            Ok(values) => {
                into.copy_from_slice(&values);
                Ok(())
            }
            Err(Unclosed { memory, port, rest }) => Err(ClosingMemory {
                components,
                memory,
                port,
                rest,
            }),
        }
    }
}

// Takes a long-lived memory apart that is to be closed into room for so many values.
fn ready(held: Held, room: usize) -> Result<ClosingMemory, (u32, Held)>
    ensures ok { IfOk result (λ c. IsReadyToClose held c × (c.components ≡ room)) }
    ensures err { IfErr result (λ e. (e.1 ≡ held) × MayNotClose held room e.0) }
{
    match held {
        Held::Memory(open) => {
            if open.components != room {
                return Err((LENGTH, Held::Memory(open)));
            }
            match open.alone() {
                Ok(closing) => Ok(closing),
                Err(Unready::Away(open)) => Err((IN_USE, Held::Memory(open))),
                Err(Unready::Shared(open)) => Err((SHARED, Held::Memory(open))),
            }
        }
        Held::Closing(closing) => {
            if closing.components != room {
                return Err((LENGTH, Held::Closing(closing)));
            }
            Ok(closing)
        }
        other => Err((HOLDS_NONE, other)),
    }
}

// Closes what is held when it is a long-lived memory with all its ports, and puts its values into `into`. Returns what is
// held then, and the number of the refusal if it was refused.
fn closed(found: Held, alloc: Global, into: &mut [u64]) -> (Held, Result<(), u32>)
    ensures ok { IfOk result.1 (λ _. ClosesAt found into.new) }
    ensures unchanged { IfErr result.1 (λ _. into.new ≡ into.old) }
    ensures err { IfErr result.1 (IsUnclosed found result.0 (length into.old)) }
{
    let closing = match ready(found, into.len()) {
        Ok(closing) => closing,
        Err((code, held)) => return (held, Err(code)),
    };
    match closing.close(alloc, into) {
        Ok(()) => (nothing(alloc), Ok(())),
        Err(kept) => (Held::Closing(kept), Err(OUT_OF_MEMORY)),
    }
}

impl Held {
    /// Closes a long-lived memory to which all ports were returned, and puts its values into `into`. What is
    /// left then holds nothing.
    ///
    /// # Errors
    /// 17 when this isn't a long-lived memory, 19 when `into` isn't as long as it has components, 22 when not
    /// all ports were returned, and 24 when all were and another handle still references the memory: this is as it
    /// was. 6 when an allocation was refused: this is the memory with all its ports, and closes later.
    pub fn close(&mut self, alloc: Global, into: &mut [u64]) -> Result<(), u32>
        ensures ok { IfOk result (λ _. ClosesAt self.old into.new) }
        ensures unchanged { IfErr result (λ _. into.new ≡ into.old) }
        ensures err { IfErr result (IsUnclosed self.old self.new (length into.old)) }
    {
        let (left, answer) = closed(mem::replace(self, nothing(alloc)), alloc, into);
        drop(mem::replace(self, left));
        answer
    }
}
