//! A port: what one caller holds of a memory.

ghost use Rattle.std.specs.Prelude.{◌≡◌, [], ◌∷◌};
ghost use Rattle.partial_long_lived.specs.Rule.{SeatedPort};
ghost use Rattle.partial_long_lived.specs.Inner.Steps.{IsSeatKnown};
ghost use Rattle.partial_long_lived.specs.Ports.{Knows, port_view};

use crate::rule::PortSeat;
use crate::stand::Stand;
use partial_core::Core;
use std::marker::Model;

/// A caller's token of a memory. One caller at a time uses it. To contracts it is what the caller reasons about: its
/// memory, its number, the history that it has observed, and the notes of its calls.
#[derive(Drop)]
pub struct Port {
    pub(crate) stand: Stand,
    pub(crate) core: Core,
    // Whether the port has claimed past the limit in its epoch, or its machine has met a seal there.
    pub(crate) spent: bool,
    // Where a scan keeps the words of its first collect: room for one of each component.
    pub(crate) collected: Vec<u64>,
    // Keeps ports that lie side by side on separate cache lines.
    pub(crate) apart: [u64; 16],
}

impl Model for Port {
    ghost use Rattle.partial_long_lived.specs.Inner.Held.{port_at};
    ghost use Rattle.partial_long_lived.specs.Ports.{PortView, port_view};
    ghost use Rattle.std.specs.Prelude.{◌≡◌};
    ghost use Rattle.std.specs.Vec.{vec_len};
    ghost use Rattle.partial_long_lived.specs.Resting.{IsResting};

    ghost Value = { PortView };

    ghost view = { λ p. port_view p.stand.seat.table_id p.stand.seat.steps (port_at p.stand) };

    ghost invariant = { λ p. IsResting p.stand p.core p.spent × (vec_len p.collected ≡ p.stand.shape.sizes.m) };
}

impl Port {
    /// The number of the port: ports are numbered from 0 in the order in which `open` returns them. The clause `knows`
    /// holds whatever calls the port has made: its notes are legal in the history that it has observed, and its entries
    /// there are those of its notes.
    pub fn number(&self) -> u32
        ensures value { result ≡ self.now.number }
        ensures knows { Knows self.now.memory.about self.now.number self.now.seen self.now.notes }
    {
        self.stand.number
    }

    // Takes the seat of a port that makes no further call.
    pub(crate) fn into_seat(self) -> PortSeat
        ensures table { result.table_id ≡ self.memory.table }
        ensures one { (x : SeatedPort) × (result.me ≡ (x ∷ [], [])) × (port_view self.memory.table result.steps x ≡ self) ×
            IsSeatKnown x }
    {
        let Port {
            stand,
            core: _,
            spent: _,
            collected: _,
            apart: _,
        } = self;
        let Stand { seat, .. } = stand;
        seat
    }
}
