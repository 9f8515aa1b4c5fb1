//! What a handle holds: an open memory with the ports that were returned to it, one port, or a closed
//! memory. Memories are of two kinds: single openings, and long-lived ones.

ghost use Rattle.std.specs.Prelude.{◌≡◌, length};
ghost use Rattle.std.specs.Arc.{arc_value};
ghost use Rattle.partial_memory.specs.Ports.{IsOf as IsOfOpening};
ghost use Rattle.partial_long_lived.specs.Ports.{IsOf};
ghost use Rattle.partial_door.specs.Belonging.{AreOfOpening, AreOfOpening-prop, AreOf, AreOf-prop};

use partial_long_lived::{LongLived, Port};
use partial_memory::{Closed, Memory as Opening, Port as PortOfOpening};
use std::alloc::Global;
use std::sync::Arc;

/// A single opening, with those of its ports that nobody has taken.
#[derive(Drop)]
pub struct OpeningMemory {
    /// The number of the opening, which keeps ports of two memories apart.
    pub opening: u64,
    /// How many components the memory has.
    pub components: u32,
    /// How many ports the memory was opened with.
    pub count: u32,
    /// A reference of the memory.
    pub memory: Arc<Opening, Global>,
    /// The ports that the memory holds.
    pub ports: Vec<PortOfOpening>,
    ghost size: { components ≡ (arc_value memory).about.sizes.m },
    ghost of: { AreOfOpening (arc_value memory) ports.items } by { AreOfOpening-prop (arc_value memory) ports.items },
}

/// A port of a single opening with its own reference of that, so that it can be used alone.
#[derive(Drop)]
pub struct OpeningPort {
    /// The number of the opening, which keeps ports of two memories apart.
    pub opening: u64,
    /// How many components the memory has.
    pub components: u32,
    /// The port's reference of the memory.
    pub memory: Arc<Opening, Global>,
    /// The port.
    pub port: PortOfOpening,
    ghost size: { components ≡ (arc_value memory).about.sizes.m },
    ghost of: { IsOfOpening (arc_value memory) port },
}

/// A long-lived memory, with those of its ports that nobody has taken.
#[derive(Drop)]
pub struct OpenMemory {
    /// The number of the memory, which keeps ports of two memories apart.
    pub number: u64,
    /// How many components the memory has.
    pub components: usize,
    /// How many ports the memory was opened with.
    pub count: u32,
    /// A reference of the memory.
    pub memory: Arc<LongLived, Global>,
    /// The ports that the memory holds.
    pub ports: Vec<Port>,
    ghost size: { components ≡ (arc_value memory).about.sizes.m },
    ghost values: { components ≡ length (arc_value memory).about.opening.values },
    ghost of: { AreOf (arc_value memory) ports.items } by { AreOf-prop (arc_value memory) ports.items },
}

/// A port of a long-lived memory with its own reference of that, so that it can be used alone.
#[derive(Drop)]
pub struct OwnedPort {
    /// The number of the memory, which keeps ports of two memories apart.
    pub number: u64,
    /// How many components the memory has.
    pub components: usize,
    /// The port's reference of the memory.
    pub memory: Arc<LongLived, Global>,
    /// The port.
    pub port: Port,
    ghost size: { components ≡ (arc_value memory).about.sizes.m },
    ghost of: { IsOf (arc_value memory) port },
}

/// A long-lived memory that nobody shares anymore, with all its ports: it was to be closed.
#[derive(Drop)]
pub struct ClosingMemory {
    /// How many components the memory has.
    pub components: usize,
    /// The memory.
    pub memory: LongLived,
    /// The port that it held last.
    pub port: Port,
    /// The other ports.
    pub rest: Vec<Port>,
    ghost values: { components ≡ length memory.about.opening.values },
    ghost of: { IsOf memory port },
    ghost others: { AreOf memory rest.items } by { AreOf-prop memory rest.items },
}

/// What a handle holds.
#[derive(Drop)]
pub enum Held {
    /// An open single opening.
    OpeningMemory(OpeningMemory),
    /// A port of a single opening.
    OpeningPort(OpeningPort),
    /// A closed opening.
    Closed(Closed),
    /// A long-lived memory.
    Memory(OpenMemory),
    /// A port of a long-lived memory.
    Port(OwnedPort),
    /// A long-lived memory whose close was refused for want of memory.
    Closing(ClosingMemory),
}
