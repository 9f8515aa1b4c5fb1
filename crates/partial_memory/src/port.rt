//! A port: what one caller holds of a memory.

ghost use Rattle.std.specs.Prelude.{◌≡◌, [], ◌∷◌};
ghost use Rattle.partial_memory.specs.Rule.{IsBadgeOfOne, SeatedPort, one_in};
ghost use Rattle.partial_memory.specs.Ports.{Knows, port_view};

use crate::rule::{PortSeat, View};
use partial_core::Core;
use partial_table::Badge;
use std::marker::Model;
use std::mem;

/// A caller's token of a memory. One caller at a time uses it. To contracts it is what the caller reasons
/// about: its memory, its number, the history that it has observed, the notes of its calls, its marks, the
/// number of its atomic steps, and the answers to the steps of its last call.
#[derive(Drop)]
pub struct Port {
    pub(crate) badge: Badge<View>,
    pub(crate) core: Core,
    pub(crate) number: u32,
    // Keeps ports that lie side by side on separate cache lines.
    pub(crate) apart: [u64; 16],
}

impl Model for Port {
    ghost use Rattle.partial_memory.specs.Rule.{one_in};
    ghost use Rattle.partial_memory.specs.Ports.{PortView, port_view, IsResting};

    ghost Value = { PortView };

    ghost view = { λ p. port_view p.badge.table_id p.badge.steps (one_in p.badge.views) };

    ghost invariant = { λ p. IsResting p.badge.views p.core p.number };
}

impl Port {
    /// The number of the port: ports are numbered from 0 in the order in which `open` returns them. The
    /// clause `knows` holds whatever calls the port has made: its notes are legal in the history that it
    /// has observed, and its entries there are those of its notes.
    pub fn number(&self) -> u32
        ensures value { result ≡ self.now.number }
        ensures knows { Knows self.now }
    {
        self.number
    }

    /// Whether a pool claim of this port went past the end of the pool. If so, its updates and scans are
    /// refused.
    pub fn pool_spent(&self) -> bool
        ensures { result ≡ self.now.pool_spent }
    {
        self.core.pool_spent()
    }

    /// Whether a slot claim of this port went past the last slot. If so, its scans are refused.
    pub fn slots_spent(&self) -> bool
        ensures { result ≡ self.now.slots_spent }
    {
        self.core.slots_spent()
    }

    // Takes the seat of a port that makes no further call.
    pub(crate) fn into_seat(self) -> PortSeat
        ensures table { result.table_id ≡ self.memory.table }
        ensures one { (x : SeatedPort) × (result.me ≡ (x ∷ [], [])) × (port_view self.memory.table result.steps x ≡ self) }
    {
        let Port {
            badge,
            core: _,
            number: _,
            apart: _,
        } = self;
        badge.into_seat()
    }
}

/// Takes the seat out of its badge, which is blank until the seat is put back.
#[inline(always)]
pub fn take_seat(badge: &mut Badge<View>) -> PortSeat
    requires { IsBadgeOfOne badge.old.views }
    ensures table { result.table_id ≡ badge.old.table_id }
    ensures one { result.me ≡ (one_in badge.old.views ∷ [], []) }
    ensures steps { result.steps ≡ badge.old.steps }
{
    mem::replace(badge, Badge::blank()).into_seat()
}
