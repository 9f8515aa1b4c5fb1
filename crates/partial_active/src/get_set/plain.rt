//! The loads of slots of a getSet on plain words.

ghost use Rattle.std.specs.Prelude.{ℕ, ◌≡◌, IsSome, MatchOption, Some, slice_index};
ghost use Rattle.partial_words.specs.declared.step.Step.TheVariants.{Load};
ghost use Rattle.partial_active.specs.declared.get_set.Stage.TheVariants.{Slot};
ghost use Rattle.partial_active.specs.GetSet.{advance_set, set_step_due};
ghost use Rattle.partial_active.specs.GetSetAnswers.{SetGoesTogether, SetMayPerform};

use super::{GetSet, Stage};
use crate::found::Found;
use partial_words::PlainWords;

impl GetSet {
    /// Makes the step that is due when it is the load of a slot, and takes its answer with the buffers of this getSet.
    /// Returns the word and the answer then. These loads are nearly all steps of a long getSet.
    #[inline(always)]
    pub fn load_slot(&mut self, found: &mut Found, words: &PlainWords) -> Option<(u32, u64)>
        requires together { SetGoesTogether (self.old, found.old) }
        requires may { SetMayPerform (self.old, found.old) words.now }
        ensures some { (slot : ℕ) → self.old.stage ≡ Slot slot → IsSome result }
        ensures made { MatchOption result ((self.new ≡ self.old) × (found.new ≡ found.old))
            (λ made. (set_step_due self.old ≡ Some (Load made.0)) × (made.1 ≡ slice_index words.now made.0) ×
            ((self.new, found.new) ≡ advance_set (self.old, found.old) made.1)) }
    {
        let Stage::Slot { slot } = self.stage else {
            return None;
        };
        let word = self.sizes.slot_word(slot);
        let answer = words.word(word as usize);
        self.after_slot(found, slot, answer);
        Some((word, answer))
    }
}
