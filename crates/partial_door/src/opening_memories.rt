//! The calls on the handle of a single opening. A refused call returns the number of the refusal.

ghost use Rattle.std.specs.Prelude.{◌≡◌, length, IfOk, IfErr};
ghost use Rattle.partial_words.specs.Layout.{IsLayout};
ghost use Rattle.partial_words.specs.declared.sizes.SizeError.{SizeError as SizeErrorType};
ghost use Rattle.partial_words.specs.SizeFault.{IsFirstFault, size_code};
ghost use Rattle.partial_door.specs.declared.held.Held.TheVariants as held;
ghost use Rattle.partial_door.specs.Inner.Openings.{IsOpeningKept, IsOpeningHeld, IsUnclosedOpening};
ghost use Rattle.partial_door.specs.Belonging.{AreOfOpening};
ghost use Rattle.partial_door.specs.OpeningMemories.{AreOpeningsApart, ClosesOpening, CopiesValues, GivesOpeningPort, GoesOnWith, HoldsOpened, HoldsReopened, IsClosedOpening};
ghost use Rattle.partial_door.specs.OpeningMemories.{MayNotGiveOpening, MayNotGoOn, MayNotOpenWith, MayNotReopenWith, MayNotTakeOpening, MeetsOpening, KeepsOpeningPorts, TakesOpeningPort, layout_of};

use crate::answers::RoomSizes;
use crate::codes::{
    FINE, HOLDS_NONE, IN_USE, LENGTH, NONE_FREE, OUT_OF_MEMORY, SHARED, TWO_MEMORIES,
};
use crate::held::{Held, OpeningMemory, OpeningPort};
use partial_memory::{Closed, Memory, Port};
use partial_words::Sizes;
use std::alloc::Global;
use std::mem;
use std::sync::Arc;

// Checks the sizes. Returns the number of the first one that is out of its range.
fn sizes_of(components: usize, room: &RoomSizes) -> Result<Sizes, u32>
    ensures ok { IfOk result (λ s. (s ≡ layout_of components room.now) × IsLayout s) }
    ensures err { IfErr result (λ code. (e : SizeErrorType) × (code ≡ size_code e) ×
        IsFirstFault (layout_of components room.now) e) }
{
    if components > 65_536 {
        return Err(1);
    }
    match Sizes::new(components as u32, room.slots, room.lists, room.pool) {
        Ok(sizes) => Ok(sizes),
        Err(fault) => Err(u32::from(fault.code())),
    }
}

// Boxes what a handle is to hold. The number is that of a refused allocation.
pub(crate) fn boxed(alloc: Global, held: Held) -> Result<Box<Held>, u32>
    ensures ok { IfOk result (λ b. b.value ≡ held) }
    ensures err { IfErr result (λ code. code ≡ 6) }
{
    match Box::new(alloc, held) {
        Ok(held) => Ok(held),
        Err(failed) => {
            drop(failed);
            Err(OUT_OF_MEMORY)
        }
    }
}

// Boxes an opened memory with so many components and so many ports, all of which it holds.
fn with_ports(
    alloc: Global,
    opening: u64,
    components: u32,
    count: u32,
    opened: (Memory, Vec<Port>),
) -> Result<Box<Held>, u32>
    requires size { components ≡ opened.0.about.sizes.m }
    requires of { AreOfOpening opened.0 opened.1.items }
    ensures ok { IfOk result (λ b. IsOpeningHeld opening count opened.0 opened.1.items b.value) }
    ensures err { IfErr result (λ code. code ≡ 6) }
{
    let (memory, ports) = opened;
    let Ok(memory) = Arc::new(alloc, memory) else {
        return Err(OUT_OF_MEMORY);
    };
    let open = OpeningMemory {
        opening,
        components,
        count,
        memory,
        ports,
    };
    boxed(alloc, Held::OpeningMemory(open))
}

/// Opens a memory that holds all its ports.
///
/// # Errors
/// 1 to 4 for the first size out of its range, 5 when there are not 1 to 64 ports, and 6 when an allocation
/// was refused. Nothing is left of the attempt.
pub fn open_opening(
    alloc: Global,
    opening: u64,
    initial: &[u64],
    room: &RoomSizes,
    ports: u32,
) -> Result<Box<Held>, u32>
    ensures ok { IfOk result (λ b.
        HoldsOpened opening (layout_of (length initial.now) room.now) initial.now ports b.value) }
    ensures err { IfErr result (λ code. MayNotOpenWith (layout_of (length initial.now) room.now) ports code) }
{
    let sizes = sizes_of(initial.len(), room)?;
    match Memory::open(alloc, sizes, initial, ports) {
        Ok(opened) => with_ports(alloc, opening, sizes.m(), ports, opened),
        Err(fault) => Err(u32::from(fault.code())),
    }
}

// Opens a memory that goes on with the values of this closed one.
fn reopen_closed(
    alloc: Global,
    opening: u64,
    closed: &Closed,
    components: u32,
    room: &RoomSizes,
    ports: u32,
) -> Result<Box<Held>, u32>
    ensures ok { IfOk result (λ b.
        GoesOnWith opening closed.now.values.items (layout_of components room.now) ports b.value) }
    ensures err { IfErr result (λ code.
        MayNotGoOn (length closed.now.values.items) (layout_of components room.now) ports code) }
{
    let sizes = sizes_of(components as usize, room)?;
    match Memory::reopen(alloc, closed, sizes, ports) {
        Ok(opened) => with_ports(alloc, opening, sizes.m(), ports, opened),
        Err(fault) => Err(u32::from(fault.code())),
    }
}

impl Held {
    /// Opens a memory that goes on with the values of a closed one, and holds all its ports. The closed
    /// memory stays.
    ///
    /// # Errors
    /// 17 when this isn't a closed memory, 1 to 4 for the first size out of its range, 5 when there are not
    /// 1 to 64 ports, 13 when the closed memory has more components, and 6 when an allocation was refused.
    /// Nothing is left of the attempt.
    pub fn reopen(
        &self,
        alloc: Global,
        opening: u64,
        components: u32,
        room: &RoomSizes,
        ports: u32,
    ) -> Result<Box<Held>, u32>
        ensures ok { IfOk result (λ b. HoldsReopened opening self.now (layout_of components room.now) ports b.value) }
        ensures err { IfErr result (λ code. MayNotReopenWith self.now (layout_of components room.now) ports code) }
    {
        match self {
            Held::Closed(closed) => reopen_closed(alloc, opening, closed, components, room, ports),
            _ => Err(HOLDS_NONE),
        }
    }
}

/// Makes a closed memory of no component. It stands in a box until something else is put there.
pub fn nothing(alloc: Global) -> Held {
    Held::Closed(Closed {
        values: Vec::new(alloc),
        chains: Vec::new(alloc),
    })
}

impl Held {
    // The port that this is.
    fn into_opening_port(self) -> OpeningPort
        requires { (own : OpeningPort) × (self ≡ held.OpeningPort own) }
        ensures { self ≡ held.OpeningPort result }
    {
        match self {
            Held::OpeningPort(own) => own,
            _ => unreachable!(),
        }
    }

    /// Takes out the last port that the memory holds.
    ///
    /// # Errors
    /// 17 when this isn't an open memory, 21 when it holds no port, and 6 when an allocation was refused.
    /// The memory is as it was.
    pub fn take_opening_port(&mut self, alloc: Global) -> Result<Box<Held>, u32>
        ensures ok { IfOk result (λ b. TakesOpeningPort self.old b.value self.new) }
        ensures err { IfErr result (λ code. (self.new ≡ self.old) × MayNotTakeOpening self.old code) }
    {
        let Held::OpeningMemory(open) = self else {
            return Err(HOLDS_NONE);
        };
        if open.ports.is_empty() {
            return Err(NONE_FREE);
        }
        let Ok(mut taken) = boxed(alloc, nothing(alloc)) else {
            return Err(OUT_OF_MEMORY);
        };
        let Ok(memory) = Arc::try_clone(&open.memory) else {
            return Err(OUT_OF_MEMORY);
        };
        let Some(port) = open.ports.pop() else {
            unreachable!()
        };
        let own = OpeningPort {
            opening: open.opening,
            components: open.components,
            memory,
            port,
        };
        drop(Box::replace(&mut taken, Held::OpeningPort(own)));
        Ok(taken)
    }

    /// Returns a port to its memory.
    ///
    /// # Errors
    /// 17 when this isn't an open memory or `given` isn't a port, 20 when the port is of another memory,
    /// and 6 when an allocation was refused. The memory is as it was, and `given` comes back with the
    /// number.
    pub fn give_opening_port(&mut self, given: Box<Held>) -> Result<(), (u32, Box<Held>)>
        requires { AreOpeningsApart self.old given.value }
        ensures ok { IfOk result (λ _. GivesOpeningPort self.old given.value self.new) }
        ensures err { IfErr result (λ e. (e.1.value ≡ given.value) × KeepsOpeningPorts self.old self.new ×
            MayNotGiveOpening self.old given.value e.0) }
    {
        let Held::OpeningMemory(open) = self else {
            return Err((HOLDS_NONE, given));
        };
        let Held::OpeningPort(own) = &*given else {
            return Err((HOLDS_NONE, given));
        };
        if own.opening != open.opening {
            return Err((TWO_MEMORIES, given));
        }
        if open.ports.reserve(1).is_err() {
            return Err((OUT_OF_MEMORY, given));
        }
        let own = Box::into_inner(given).into_opening_port();
        open.ports.push_reserved(own.port);
        Ok(())
    }
}

// Why a memory wasn't closed, and what is left of it.
#[derive(Drop)]
enum Kept {
    Away(OpeningMemory),
    Shared(OpeningMemory),
    Lost,
}

impl OpeningMemory {
    /// Closes the memory when it holds all its ports and no other reference of it is in use.
    fn close(self, alloc: Global) -> Result<Closed, Kept>
        ensures ok { IfOk result (λ c. IsClosedOpening self c) }
        ensures err { IfErr result (λ k. IsOpeningKept self k) }
    {
        let all = self.count as usize;
        if self.ports.is_empty() || self.ports.len() != all {
            return Err(Kept::Away(self));
        }
        let OpeningMemory {
            opening,
            components,
            count,
            memory,
            mut ports,
        } = self;
        let memory = match Arc::try_unwrap(memory) {
            Ok(memory) => memory,
            Err(memory) => {
                return Err(Kept::Shared(OpeningMemory {
                    opening,
                    components,
                    count,
                    memory,
                    ports,
                }));
            }
        };
        let Some(last) = ports.pop() else {
            unreachable!()
        };
        match memory.close(alloc, last, ports) {
            Ok(closed) => Ok(closed),
            Err(_) => Err(Kept::Lost),
        }
    }
}

/// Why a memory wasn't closed.
#[derive(Clone, Copy)]
pub enum Unclosed {
    /// The memory is as it was. This is the number of the refusal: 17, 22 or 24.
    Kept(u32),
    /// An allocation was refused, and the contents are lost.
    Lost,
}

// Closes what is held when it is a memory with all its ports. Returns what is held then, and why it isn't closed if so.
fn closed(found: Held, alloc: Global) -> (Held, Result<(), Unclosed>)
    ensures ok { IfOk result.1 (λ _. ClosesOpening found result.0) }
    ensures err { IfErr result.1 (IsUnclosedOpening found result.0) }
{
    let Held::OpeningMemory(open) = found else {
        return (found, Err(Unclosed::Kept(HOLDS_NONE)));
    };
    match open.close(alloc) {
        Ok(closed) => (Held::Closed(closed), Ok(())),
        Err(Kept::Away(open)) => (Held::OpeningMemory(open), Err(Unclosed::Kept(IN_USE))),
        Err(Kept::Shared(open)) => (Held::OpeningMemory(open), Err(Unclosed::Kept(SHARED))),
        Err(Kept::Lost) => (nothing(alloc), Err(Unclosed::Lost)),
    }
}

impl Held {
    /// Closes a memory to which all ports were returned.
    ///
    /// # Errors
    /// [`Unclosed::Kept`] with 17 when this isn't an open memory, with 22 when not all ports were returned,
    /// and with 24 when all were and another handle still references the memory. [`Unclosed::Lost`] when an
    /// allocation was refused.
    pub fn close_opening(&mut self, alloc: Global) -> Result<(), Unclosed>
        ensures ok { IfOk result (λ _. ClosesOpening self.old self.new) }
        ensures err { IfErr result (IsUnclosedOpening self.old self.new) }
    {
        let (left, answer) = closed(mem::replace(self, nothing(alloc)), alloc);
        drop(mem::replace(self, left));
        answer
    }

    /// Merges what two ports have observed.
    ///
    /// Returns 17 when one of the two isn't a port, and 20 when they are of two memories. Both are as they
    /// were then.
    pub fn meet_opening(&mut self, other: &mut Held) -> u32
        requires { AreOpeningsApart self.old other.old }
        ensures { MeetsOpening self.old other.old result self.new other.new }
    {
        let Held::OpeningPort(first) = self else {
            return HOLDS_NONE;
        };
        let Held::OpeningPort(second) = other else {
            return HOLDS_NONE;
        };
        if second.opening != first.opening {
            return TWO_MEMORIES;
        }
        first.memory.meet(&mut first.port, &mut second.port);
        FINE
    }

    /// Copies the values of a closed memory.
    ///
    /// Returns 17 when this isn't a closed memory, and 19 when `into` isn't as long as it has components.
    /// `into` is as it was then.
    pub fn copy_values(&self, into: &mut [u64]) -> u32
        ensures { CopiesValues self.now into.old result into.new }
    {
        let Held::Closed(closed) = self else {
            return HOLDS_NONE;
        };
        if closed.values.len() != into.len() {
            return LENGTH;
        }
        into.copy_from_slice(&closed.values);
        FINE
    }
}
