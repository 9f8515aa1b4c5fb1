//! A whole getSet, made in loops over its buffers. The caller supplies the steps.

ghost use Rattle.std.specs.Prelude.{◌≡◌, ◌<◌, IfOk, IfSome, OnOk, Some, None};
ghost use Rattle.partial_active.specs.Found.{AreFoundFor};
ghost use Rattle.partial_active.specs.IndexSet.{AreIndices};
ghost use Rattle.partial_active.specs.GetSet.{set_left, set_step_due};
ghost use Rattle.partial_active.specs.Making.{IsAt};

use super::{GetSet, Stage};
use crate::found::Found;
use crate::steps::Steps;
use partial_words::Step;

// A stretch of stages of a getSet.
#[derive(Clone, Copy)]
enum Stretch {
    // The load of the list head.
    Head,
    // The loads of the list.
    List,
    // The load of the slot counter.
    Counter,
    // The loads of the slots and of the announcements in them.
    Slots,
}

impl GetSet {
    /// Makes the getSet to its end, with its buffers, and returns it. It makes each step through `steps`,
    /// which are at this getSet.
    ///
    /// # Errors
    /// [`Steps::Break`] when `steps` break it off: they are at the getSet after the last step that was made.
    #[inline(always)]
    pub fn make<S: Steps>(mut self, found: &mut Found, steps: &mut S) -> Result<GetSet, S::Break>
        requires { IsAt S.goes S.set steps.old (self, found.old) }
        ensures goes { S.goes steps.new }
        ensures follows { S.follows steps.old steps.new }
        ensures at { IfOk result (λ made. IsAt S.goes S.set steps.new (made, found.new)) }
        ensures done { IfOk result (λ made. set_step_due made ≡ None) }
        ensures sizes { IfOk result (λ made. made.sizes ≡ self.sizes) }
        ensures found { AreFoundFor self.sizes found.new }
        ensures indices { AreIndices self.sizes.m found.new.indices }
    {
        self.make_stretch(Stretch::Head, found, steps)?;
        self.make_stretch(Stretch::List, found, steps)?;
        self.make_stretch(Stretch::Counter, found, steps)?;
        self.make_stretch(Stretch::Slots, found, steps)?;
        while let Some(step) = self.step() {
            self.make_step(step, found, steps)?;
        }
        Ok(self)
    }

    // Makes the steps of a stretch while they are due. In a sequence of stretches the compiler knows the
    // stage of each step. The last loop of `make` makes the steps that they leave.
    #[inline(always)]
    fn make_stretch<S: Steps>(
        &mut self,
        stretch: Stretch,
        found: &mut Found,
        steps: &mut S,
    ) -> Result<(), S::Break>
        requires { IsAt S.goes S.set steps.old (self.old, found.old) }
        ensures at { IsAt S.goes S.set steps.new (self.new, found.new) }
        ensures follows { S.follows steps.old steps.new }
        ensures sizes { self.new.sizes ≡ self.old.sizes }
    {
        while let Some(step) = self.step_in(stretch) {
            self.make_step(step, found, steps)?;
        }
        Ok(())
    }

    // Makes the step that is due, and takes its answer. Without an answer the getSet stays where it is.
    #[inline(always)]
    fn make_step<S: Steps>(
        &mut self,
        step: Step,
        found: &mut Found,
        steps: &mut S,
    ) -> Result<(), S::Break>
        requires at { IsAt S.goes S.set steps.old (self.old, found.old) }
        requires due { set_step_due self.old ≡ Some step }
        ensures at { IsAt S.goes S.set steps.new (self.new, found.new) }
        ensures follows { S.follows steps.old steps.new }
        ensures sizes { self.new.sizes ≡ self.old.sizes }
        ensures left { OnOk result (set_left self.new < set_left self.old) }
    {
        let answer = steps.make(step)?;
        self.answer(found, answer);
        Ok(())
    }

    // The step that is due, if it belongs to this stretch.
    #[inline(always)]
    fn step_in(&self, stretch: Stretch) -> Option<Step>
        ensures { IfSome result (λ step. set_step_due self.now ≡ Some step) }
    {
        let is_there = match stretch {
            Stretch::Head => matches!(self.stage, Stage::Head),
            Stretch::List => matches!(
                self.stage,
                Stage::ListLen { .. } | Stage::ListLow { .. } | Stage::ListHigh { .. }
            ),
            Stretch::Counter => matches!(self.stage, Stage::Counter),
            Stretch::Slots => matches!(
                self.stage,
                Stage::Slot { .. } | Stage::Len { .. } | Stage::Index { .. }
            ),
        };
        if is_there { self.step() } else { None }
    }
}
