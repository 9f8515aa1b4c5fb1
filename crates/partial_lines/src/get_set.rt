//! The getSet of an update. Its steps are steps of the call.

ghost use Rattle.std.specs.Prelude.{◌≡◌};
ghost use Rattle.std.proofs.Common.{refl, ◌∙◌};
ghost use Rattle.partial_machine.specs.Machine.{getting};
ghost use Rattle.partial_lines.specs.Lines.{HasReachedSet, GetsOn, gets_itself, gets_further};

use crate::makes::Makes;
use partial_active::Steps;
use partial_words::Step;

/// The steps of a getSet, to which a call has come.
#[derive(Drop)]
pub struct SetSteps<'a, M> {
    /// Whoever makes the steps of the call.
    pub lines: &'a mut M,
}

impl<'a, M: Makes> Steps for SetSteps<'a, M> {
    type Break = M::Break;

    ghost goes = { λ l. M.goes l.lines.now × HasReachedSet (M.machine l.lines.now) };

    ghost set = { λ l. getting (M.machine l.lines.now) };

    ghost follows = { λ l k. ((k.lines.ghost_name ≡ l.lines.ghost_name) × M.leads l.lines.now k.lines.now) ×
        GetsOn (M.machine l.lines.now) (M.machine k.lines.now) };

    #[inline(always)]
    fn make(&mut self, step: Step) -> Result<u64, M::Break> {
        self.lines.make(step)
    }

    ghost follows_itself = { λ l. ((refl, M.leads_itself l.lines.now), gets_itself (M.machine l.lines.now)) };

    ghost follows_on = { λ l k j f g. (
      (g.0.0 ∙ f.0.0, M.leads_on l.lines.now k.lines.now j.lines.now f.0.1 g.0.1),
      gets_further (M.machine l.lines.now) (M.machine k.lines.now) (M.machine j.lines.now) f.1 g.1,
    ) };
}
