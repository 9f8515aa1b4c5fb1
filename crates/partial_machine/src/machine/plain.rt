//! The state machine of a port on plain words.

ghost use Rattle.std.specs.Prelude.{ℕ, ◌≡◌, ◌<◌, IsSome, MatchOption, None, Some, slice_index};
ghost use Rattle.partial_words.specs.Step.{answer_of, words_after};
ghost use Rattle.partial_words.specs.declared.step.Step.TheVariants.{Load};
ghost use Rattle.partial_active.specs.declared.get_set.Stage.TheVariants.{Slot};
ghost use Rattle.partial_machine.specs.declared.stage.Change.{Change};
ghost use Rattle.partial_machine.specs.declared.stage.Stage.TheVariants.{GettingSet};
ghost use Rattle.partial_machine.specs.Bounds.{steps_left};
ghost use Rattle.partial_machine.specs.Machine.{advance, reply_of, step_of};
ghost use Rattle.partial_machine.specs.Possible.{MayPerform};

use super::{Core, behind_set};
use crate::stage::Stage;
use partial_embedded::Embedded;
use partial_words::{PlainWords, Step};

impl Core {
    /// Makes the step that is due on plain words, as [`PlainWords::perform`] does, and takes its answer.
    /// Returns both. The result is that of [`Core::step`] and [`Core::answer`].
    pub fn perform(&mut self, words: &mut PlainWords) -> (Step, u64)
        requires { MayPerform self.old words.old }
        ensures due { step_of self.old ≡ Some result.0 }
        ensures answer { result.1 ≡ answer_of words.old result.0 }
        ensures words { words.new ≡ words_after words.old result.0 }
        ensures state { self.new ≡ advance self.old result.1 }
        ensures falls { steps_left self.new < steps_left self.old }
    {
        let step = self.step().unwrap();
        let answer = words.perform(step);
        self.answer(answer);
        (step, answer)
    }

    /// Makes the step that is due when it is the load of a slot by a getSet, as [`Core::perform`] would, and returns the
    /// word and the answer then. An update may have to load every slot, so that these loads have lines of their own, in
    /// which each costs a driver over plain words little more than the load.
    #[inline(always)]
    pub fn load_slot(&mut self, words: &PlainWords) -> Option<(u32, u64)>
        requires { MayPerform self.old words.now }
        ensures some { (change : Change) (old slot : ℕ) → self.old.stage ≡ GettingSet change old →
            self.old.get_set.stage ≡ Slot slot → IsSome result }
        ensures due { MatchOption result (self.new ≡ self.old) (λ made. step_of self.old ≡ Some (Load made.0)) }
        ensures answer { MatchOption result (self.new ≡ self.old) (λ made. made.1 ≡ slice_index words.now made.0) }
        ensures state { MatchOption result (self.new ≡ self.old) (λ made. self.new ≡ advance self.old made.1) }
        ensures reply { MatchOption result (self.new ≡ self.old) (λ _. reply_of self.new ≡ None) }
        ensures falls { MatchOption result (self.new ≡ self.old) (λ _. steps_left self.new < steps_left self.old) }
    {
        let Stage::GettingSet { change, old } = self.stage else {
            return None;
        };
        let made = self.get_set.load_slot(&mut self.found, words)?;
        if self.get_set.step().is_none() {
            self.embedded = Embedded::new(self.sizes, true);
            self.stage = behind_set(&self.found, change, old);
        }
        Some(made)
    }
}
