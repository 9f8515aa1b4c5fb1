//! The rule of the table, and what its steps show a port.

use partial_model::Opening;
use partial_table::{Join, Play, Seat, Split, Table, TableRule};
use partial_words::Sizes;
use std::marker::{Brand, Model, PhantomData};

/// What a memory was opened with.
#[derive(Drop)]
pub struct About {
    /// The number of components, slots, list words and pool words.
    pub sizes: Sizes,
    /// The initial values, and the stamp of component 0.
    pub opening: Opening,
    /// How many ports it has: 1 to 64.
    pub ports: u32,
}

/// The ports whose seat it is, mostly one. It is ghost state: no value of it is ever made.
#[derive(Drop)]
pub struct View {
    none: (),
}

impl Model for View {
    ghost use Rattle.std.specs.Prelude.{List, []};
    ghost use Rattle.partial_memory.specs.Rule.{SeatedPort};

    ghost Value = { List SeatedPort };

    ghost view = { λ _. [] };
}

/// The rule of the table: the words and the ports of all seats are a lawful state.
pub struct Lawful;

impl TableRule<(), View, About> for Lawful {
    ghost use Rattle.partial_memory.specs.Rule.{IsRuleKept, newcomers};

    ghost holds = { λ about s. IsRuleKept about s };

    ghost first = { λ about. newcomers about 0 about.ports };
}

/// The words of a memory, shared by its threads.
pub type Words = Table<View, About, Lawful>;

/// A seat of the table. Whoever holds it may make steps for its ports.
pub type PortSeat = Seat<View>;

/// The machine whose step is made. Each call picks its own.
pub trait Moment {
    ghost use Rattle.partial_machine.specs.Machine.{CoreState};

    ghost core: { CoreState };
}

impl Moment for Brand {
    ghost use Rattle.partial_machine.specs.Machine.{fresh};

    ghost core = { fresh (record { m = 1; slots = 1; lists = 0; pool = 3 }) 0 };
}

/// A step of the machine `G`. It is answered with the number that the word had.
pub struct MachineStep<G> {
    moment: PhantomData<G>,
}

impl<G: Moment> Play<(), View> for MachineStep<G> {
    ghost use Rattle.partial_memory.specs.Rule.{makes};

    ghost then = { λ _. makes G.core };
}

/// A further step of the call of the seat's port.
pub struct GoesOn;

impl Play<(), View> for GoesOn {
    ghost use Rattle.partial_memory.specs.Rule.{goes_on};

    ghost then = { λ _. goes_on };
}

/// A further step that is a store. It is answered with 0.
pub struct PutsOn;

impl Play<(), View> for PutsOn {
    ghost use Rattle.partial_memory.specs.Rule.{goes_on};

    ghost then = { λ _ me _. goes_on me 0 };
}

/// A load by which all ports of the seat observe the whole history.
pub struct Looks;

impl Play<(), View> for Looks {
    ghost use Rattle.partial_memory.specs.Rule.{looks};

    ghost then = { λ _. looks };
}

/// Gives the first port of a seat a seat of its own.
pub struct Deals;

impl Split<View> for Deals {
    ghost use Rattle.partial_table.specs.Seats.{first_port, further_ports};

    ghost left = { further_ports };

    ghost right = { first_port };
}

/// Gathers the ports of two seats in the first one.
pub struct Gathers;

impl Join<View> for Gathers {
    ghost use Rattle.std.specs.Prelude.{[], ◌++◌};

    ghost both = { λ v w. v ++ w };

    ghost spent = { [] };
}
