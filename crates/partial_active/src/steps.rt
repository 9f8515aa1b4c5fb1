//! What a getSet needs of the words on which it works.

ghost use Rattle.std.specs.Prelude.{◌≡◌, Some, IfOk, IfErr};
ghost use Rattle.partial_active.specs.GetSet.{SetPair, advance_set, set_step_due};
ghost use Rattle.partial_active.specs.GetSetAnswers.{IsPossibleInSet};

use partial_words::Step;

/// The steps of one getSet. Other ports may make steps between them. To contracts it is the getSet with its
/// buffers, as its answers so far have left them.
pub trait Steps {
    /// What is said of a call that is broken off: [`Infallible`](std::convert::Infallible) where none ever is.
    type Break: Drop;

    /// The call that makes the steps is under way.
    ghost goes: { Self → Type 0 };

    /// The getSet and its buffers, after all answers so far.
    ghost set: { Self → SetPair };

    /// From the first to the second only further steps of that getSet were made.
    ghost follows: { Self → Self → Type 0 };

    /// Makes the step that is due, and returns its answer.
    ///
    /// # Errors
    /// [`Steps::Break`] when the call is not to go on: no step was made, and the getSet stays where it is.
    fn make(&mut self, step: Step) -> Result<u64, Self::Break>
        requires goes { goes self.old }
        requires due { set_step_due (set self.old).0 ≡ Some step }
        ensures goes { goes self.new }
        ensures possible { IfOk result (λ answer. IsPossibleInSet (set self.old) answer) }
        ensures set { IfOk result (λ answer. set self.new ≡ advance_set (set self.old) answer) }
        ensures stays { IfErr result (λ _. set self.new ≡ set self.old) }
        ensures follows { follows self.old self.new };

    /// Without a step it stays the same.
    ghost follows_itself: { (x : Self) → follows x x };

    /// Further steps of further steps are further steps.
    ghost follows_on: { (x y z : Self) → follows x y → follows y z → follows x z };
}
