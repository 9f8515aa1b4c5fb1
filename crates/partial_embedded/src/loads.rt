//! What an embedded scan needs of the words that it loads.

ghost use Rattle.std.specs.Prelude.{◌≡◌, ◌<◌, ◌≤◌, ℕ, List, Some, IfOk, IfErr};
ghost use Rattle.partial_words.specs.declared.step.Step.TheVariants.{Load};
ghost use Rattle.partial_embedded.specs.Embedded.{ViewPair, IsPossibleInView, advance_view, view_step_due};

/// The loads of one embedded scan. Other ports may make steps between them. To contracts it is the scan
/// with its buffers and its positions, as its answers so far have left them.
pub trait Loads {
    /// What is said of a call that is broken off: [`Infallible`](std::convert::Infallible) where none ever is.
    type Break: Drop;

    /// The call that makes the loads is under way.
    ghost goes: { Self → Type 0 };

    /// The embedded scan and its buffers, after all answers so far.
    ghost scan: { Self → ViewPair };

    /// The positions of the embedded scan.
    ghost positions: { Self → List ℕ };

    /// From the first to the second only further loads of that scan were made.
    ghost follows: { Self → Self → Type 0 };

    /// Loads the component word that is due, and returns its value.
    ///
    /// # Errors
    /// [`Loads::Break`] when the call is not to go on: nothing was loaded, and the scan stays where it is.
    fn load_component(&mut self, word: u64) -> Result<u64, Self::Break>
        requires goes { goes self.old }
        requires due { view_step_due (positions self.old) (scan self.old) ≡ Some (Load word) }
        requires component { word < (scan self.old).0.sizes.m }
        ensures goes { goes self.new }
        ensures possible { IfOk result (λ answer. IsPossibleInView (scan self.old) answer) }
        ensures scan { IfOk result (λ answer.
            scan self.new ≡ advance_view (positions self.old) (scan self.old) answer) }
        ensures stays { IfErr result (λ _. scan self.new ≡ scan self.old) }
        ensures positions { positions self.new ≡ positions self.old }
        ensures follows { follows self.old self.new };

    /// Loads the word that is due, which is no component word, and returns its value.
    ///
    /// # Errors
    /// As those of [`Loads::load_component`].
    fn load(&mut self, word: u64) -> Result<u64, Self::Break>
        requires goes { goes self.old }
        requires due { view_step_due (positions self.old) (scan self.old) ≡ Some (Load word) }
        requires behind { (scan self.old).0.sizes.m ≤ word }
        ensures goes { goes self.new }
        ensures possible { IfOk result (λ answer. IsPossibleInView (scan self.old) answer) }
        ensures scan { IfOk result (λ answer.
            scan self.new ≡ advance_view (positions self.old) (scan self.old) answer) }
        ensures stays { IfErr result (λ _. scan self.new ≡ scan self.old) }
        ensures positions { positions self.new ≡ positions self.old }
        ensures follows { follows self.old self.new };

    /// Without a load it stays the same.
    ghost follows_itself: { (x : Self) → follows x x };

    /// Further loads of further loads are further loads.
    ghost follows_on: { (x y z : Self) → follows x y → follows y z → follows x z };
}
