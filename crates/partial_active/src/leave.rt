//! The leave of an active set: one store.

ghost use Rattle.std.specs.Prelude.{◌≡◌, ◌<◌, false, IsSome};

use partial_words::{Sizes, Step};
use std::marker::Model;

/// A leave under way. It marks a slot as vacated.
#[derive(Debug, Drop)]
pub struct Leave {
    sizes: Sizes,
    slot: u32,
    left: bool,
}

impl Model for Leave {
    ghost use Rattle.std.specs.Prelude.{◌<◌};
    ghost use Rattle.partial_active.specs.Leave.{LeaveState};

    ghost Value = { LeaveState };

    ghost view = { λ s. record { sizes = s.sizes; slot = s.slot; left = s.left } };

    ghost invariant = { λ s. s.slot < s.sizes.slots };
}

impl Leave {
    ghost use Rattle.partial_active.specs.Leave.{step_of_leave, advance_leave};

    /// Makes a leave of the slot.
    #[inline(always)]
    pub fn new(sizes: Sizes, slot: u32) -> Leave
        requires { slot < sizes.slots }
        ensures { result ≡ record { sizes = sizes; slot = slot; left = false } }
    {
        Leave {
            sizes,
            slot,
            left: false,
        }
    }

    /// The step that is due. `None` when the leave is finished.
    #[inline(always)]
    pub fn step(&self) -> Option<Step>
        ensures { result ≡ step_of_leave self.now }
    {
        if self.left {
            None
        } else {
            Some(Step::Store(self.sizes.slot_word(self.slot), 1))
        }
    }

    /// Takes the answer of the step that was due, which has no meaning.
    #[inline(always)]
    pub fn answer(&mut self, _x: u64)
        requires { IsSome (step_of_leave self.old) }
        ensures { self.new ≡ advance_leave self.old }
    {
        self.left = true;
    }
}
