//! The rule of the table, and the ports of its seats.

use partial_model::Opening;
use partial_table::{Join, Seat, Split, Table, TableRule};
use partial_words::Sizes;
use std::marker::Model;

/// What a long-lived memory was opened with.
#[derive(Drop)]
pub struct About {
    /// The sizes of an arena: the number of components, slots, list words and pool words.
    pub sizes: Sizes,
    /// The initial values, and the stamp of component 0.
    pub opening: Opening,
    /// How many ports it has: 1 to 255.
    pub ports: u32,
    /// How many arenas it has: twice as many.
    pub arenas: u32,
    /// Pool limit: a claim that ends past this word of the arena is the port's last in the epoch.
    pub limit: u64,
    /// Whether scans announce themselves, so that updates help them.
    pub announces: bool,
}

/// The ports whose seat it is, mostly one. It is ghost state: no value of it is ever made.
#[derive(Drop)]
pub struct View {
    none: (),
}

impl Model for View {
    ghost use Rattle.std.specs.Prelude.{List, []};
    ghost use Rattle.partial_long_lived.specs.Rule.{SeatedPort};

    ghost Value = { List SeatedPort };

    ghost view = { λ _. [] };
}

/// The rule of the table: the words and the ports of all seats are those of a lawful memory over all epochs.
pub struct Lawful;

impl TableRule<(), View, About> for Lawful {
    ghost use Rattle.partial_long_lived.specs.Rule.{IsRuleKept, newcomers};

    ghost holds = { λ about s. IsRuleKept about s };

    ghost first = { λ about. newcomers about 0 about.ports };
}

/// The words of a memory, shared by its threads.
pub type Words = Table<View, About, Lawful>;

/// A seat of the table. Whoever holds it may make steps for its ports.
pub type PortSeat = Seat<View>;

/// Gives the first port of a seat a seat of its own.
pub struct Deals;

impl Split<View> for Deals {
    ghost use Rattle.partial_table.specs.Seats.{first_port, further_ports};

    ghost left = { further_ports };

    ghost right = { first_port };
}

/// Gathers the ports of two seats in the first one.
pub struct Gathers;

impl Join<View> for Gathers {
    ghost use Rattle.std.specs.Prelude.{[], ◌++◌};

    ghost both = { λ v w. v ++ w };

    ghost spent = { [] };
}
