//! Whoever makes the steps of a call.

ghost use Rattle.std.specs.Prelude.{◌≡◌, ◌<◌, ◌≤◌, Some, IfErr, IfOk};
ghost use Rattle.partial_words.specs.declared.step.Step.TheVariants.{Load, Store};
ghost use Rattle.partial_machine.specs.Machine.{CoreState, advance, step_of};
ghost use Rattle.partial_machine.specs.Possible.{IsPossible};
ghost use Rattle.partial_machine.specs.Sound.{IsSound};
ghost use Rattle.partial_lines.specs.Lines.{IsQuiet, StoresNoView};

use partial_words::Step;

/// The steps of one call of a port, which steps of other ports may come between. To contracts it is the machine
/// of the call, as the answers of its steps have led it.
pub trait Makes {
    /// What is said of a call that is broken off: [`Infallible`](std::convert::Infallible) where none ever is.
    type Break: Drop;

    /// The call is under way.
    ghost goes: { Self → Type 0 };

    /// The machine of the call, with all answers so far.
    ghost machine: { Self → CoreState };

    /// From the first, the call has reached the second by further steps.
    ghost leads: { Self → Self → Type 0 };

    /// Makes the step that is due, which exchanges no component word, and returns its answer.
    ///
    /// # Errors
    /// [`Makes::Break`] when the call is not to go on: no step was made, and the machine stays where it is.
    fn make(&mut self, step: Step) -> Result<u64, Self::Break>
        requires goes { goes self.old }
        requires due { step_of (machine self.old) ≡ Some step }
        requires quiet { IsQuiet (machine self.old).stage }
        ensures goes { goes self.new }
        ensures possible { IfOk result (λ answer. IsPossible (machine self.old) answer) }
        ensures machine { IfOk result (λ answer. machine self.new ≡ advance (machine self.old) answer) }
        ensures stays { IfErr result (λ _. machine self.new ≡ machine self.old) }
        ensures leads { leads self.old self.new };

    /// Makes the load of a component's word, which is due, and returns its answer. It takes the number as a `u64`, as
    /// [`Makes::load`] does, so a caller that has one need not cut it to the `u32` of a [`Step`].
    ///
    /// # Errors
    /// As those of [`Makes::make`].
    fn load_component(&mut self, component: u64) -> Result<u64, Self::Break>
        requires goes { goes self.old }
        requires due { step_of (machine self.old) ≡ Some (Load component) }
        requires component { component < (machine self.old).sizes.m }
        ensures goes { goes self.new }
        ensures possible { IfOk result (λ answer. IsPossible (machine self.old) answer) }
        ensures machine { IfOk result (λ answer. machine self.new ≡ advance (machine self.old) answer) }
        ensures stays { IfErr result (λ _. machine self.new ≡ machine self.old) }
        ensures leads { leads self.old self.new };

    /// Makes a load that is due of a word that is no component's, and returns its answer.
    ///
    /// # Errors
    /// As those of [`Makes::make`].
    fn load(&mut self, word: u64) -> Result<u64, Self::Break>
        requires goes { goes self.old }
        requires due { step_of (machine self.old) ≡ Some (Load word) }
        requires behind { (machine self.old).sizes.m ≤ word }
        ensures goes { goes self.new }
        ensures possible { IfOk result (λ answer. IsPossible (machine self.old) answer) }
        ensures machine { IfOk result (λ answer. machine self.new ≡ advance (machine self.old) answer) }
        ensures stays { IfErr result (λ _. machine self.new ≡ machine self.old) }
        ensures leads { leads self.old self.new };

    /// Makes the store of 0 that is due in the view word of a record without a view, and returns its answer. Whoever makes
    /// the steps may load the word first: if it is 0 already, that load is the step.
    ///
    /// # Errors
    /// As those of [`Makes::make`].
    #[inline(always)]
    fn store_zero(&mut self, word: u32) -> Result<u64, Self::Break>
        requires goes { goes self.old }
        requires due { step_of (machine self.old) ≡ Some (Store word 0) }
        requires unviewed { StoresNoView (machine self.old) }
        ensures goes { goes self.new }
        ensures possible { IfOk result (λ answer. IsPossible (machine self.old) answer) }
        ensures machine { IfOk result (λ answer. machine self.new ≡ advance (machine self.old) answer) }
        ensures stays { IfErr result (λ _. machine self.new ≡ machine self.old) }
        ensures leads { leads self.old self.new }
    {
        self.make(Step::Store(word, 0))
    }

    /// The machine of a call under way is sound.
    ghost sound: { (x : Self) → goes x → IsSound (machine x) };

    /// By no step a call stays where it is.
    ghost leads_itself: { (x : Self) → leads x x };

    /// Steps follow on steps.
    ghost leads_on: { (x y z : Self) → leads x y → leads y z → leads x z };
}
