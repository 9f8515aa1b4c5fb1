//! The join of an active set: one claim of a slot (fetch-and-add), and one store.

ghost use Rattle.std.specs.Prelude.{◌≡◌, ◌<◌, IsSome};

use partial_words::{Sizes, Step};
use std::marker::Model;

/// The stage of a join.
#[derive(Clone, Copy, Debug, PartialEq, Eq)]
pub enum JoinStage {
    /// The claim of a slot is due.
    Claiming,
    /// The store of its announcement in this slot is due.
    Storing(u32),
    /// Its announcement stands in this slot.
    Joined(u32),
    /// The claim went past the last slot.
    Spent,
}

/// A join under way. It claims a slot that was never used, and stores the reference of an announcement
/// there.
#[derive(Debug, Drop)]
pub struct Join {
    sizes: Sizes,
    announcement: u64,
    stage: JoinStage,
}

impl Model for Join {
    ghost use Rattle.std.specs.Prelude.{IsTrue};
    ghost use Rattle.partial_active.specs.Join.{JoinState, fits_join};

    ghost Value = { JoinState };

    ghost view = { λ j. record { sizes = j.sizes; announcement = j.announcement; stage = j.stage } };

    ghost invariant = { λ j. IsTrue (fits_join j.sizes j.stage) };
}

impl Join {
    ghost use Rattle.partial_active.specs.Join.{step_of_join, advance_join, slot_joined, is_spent, join_left};

    /// Makes a join with the announcement at this reference, which is stored whole.
    #[inline(always)]
    pub fn new(sizes: Sizes, announcement: u64) -> Join
        ensures { result ≡ record { sizes = sizes; announcement = announcement; stage = JoinStage.Claiming } }
    {
        Join {
            sizes,
            announcement,
            stage: JoinStage::Claiming,
        }
    }

    /// The step that is due. `None` when the join is finished.
    #[inline(always)]
    pub fn step(&self) -> Option<Step>
        ensures { result ≡ step_of_join self.now }
    {
        match self.stage {
            JoinStage::Claiming => Some(Step::Add(self.sizes.slot_counter(), 1)),
            JoinStage::Storing(slot) => {
                Some(Step::Store(self.sizes.slot_word(slot), self.announcement))
            }
            JoinStage::Joined(_) => None,
            JoinStage::Spent => None,
        }
    }

    /// Takes the answer of the step that was due.
    #[inline(always)]
    pub fn answer(&mut self, x: u64)
        requires { IsSome (step_of_join self.old) }
        ensures state { self.new ≡ advance_join self.old x }
        ensures left { join_left self.new.stage < join_left self.old.stage }
    {
        match self.stage {
            JoinStage::Claiming => {
                self.stage = if x < u64::from(self.sizes.slots()) {
                    JoinStage::Storing(x as u32)
                } else {
                    JoinStage::Spent
                };
            }
            JoinStage::Storing(slot) => self.stage = JoinStage::Joined(slot),
            JoinStage::Joined(_) => {}
            JoinStage::Spent => {}
        }
    }

    /// The slot of a finished join. `None` before that, and when the claim was refused.
    #[inline(always)]
    pub fn joined(&self) -> Option<u32>
        ensures { result ≡ slot_joined self.now.stage }
    {
        match self.stage {
            JoinStage::Joined(slot) => Some(slot),
            _ => None,
        }
    }

    /// Whether the claim went past the last slot.
    #[inline(always)]
    pub fn spent(&self) -> bool
        ensures { result ≡ is_spent self.now.stage }
    {
        self.stage == JoinStage::Spent
    }
}
