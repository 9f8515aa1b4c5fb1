//! The atomic steps of a call that is written as straight-line code. Its machine is ghost state: it is
//! where the kept answers of the seat's port lead.

ghost use Rattle.std.specs.Prelude.{◌≡◌, ◌<◌, Some};
ghost use Rattle.partial_words.specs.Layout.{component_word};
ghost use Rattle.partial_words.specs.declared.step.Step.TheVariants.{Load};
ghost use Rattle.partial_machine.specs.declared.stage.Stage.TheVariants.{ReadBegun, UpdateBegun};
ghost use Rattle.partial_machine.specs.Lines.{scan_asked};
ghost use Rattle.partial_machine.specs.Machine.{advance, at_stage, step_of};
ghost use Rattle.partial_machine.specs.Possible.{IsPossible};
ghost use Rattle.partial_memory.specs.Rule.{IsOne, one_of};
ghost use Rattle.partial_memory.specs.Inner.Steps.{Begins, CallMade, HasCounted, IsAtRest};
ghost use Rattle.std.proofs.Common.{refl, ◌∙◌};
ghost use Rattle.partial_memory.specs.Inner.Lines.{IsGoing, ComesTo, CountsOn, leads_itself, leads_on, machine_of};

use crate::rule::{GoesOn, MachineStep, Moment, PortSeat, PutsOn, Words};
use partial_core::{Change, Core};
use partial_lines::Makes;
use partial_words::{Step, announcement_size};
use std::convert::Infallible;

/// The steps of the call of a seat's port, made on the shared words. No call is broken off.
#[derive(Drop)]
pub struct SeatLines<'a> {
    /// The words that all threads share.
    pub words: &'a Words,
    /// The seat of the port.
    pub seat: PortSeat,
}

impl<'a> Makes for SeatLines<'a> {
    type Break = Infallible;

    ghost goes = { λ l. IsGoing l.words.now.table_id l.words.now.key l.seat.table_id l.seat.me };

    ghost machine = { λ l. machine_of l.seat.me };

    ghost leads = { λ l k. (k.words ≡ l.words) × ComesTo (one_of l.seat.me.0) (one_of k.seat.me.0) ×
        CountsOn l.seat.steps (one_of l.seat.me.0) k.seat.steps (one_of k.seat.me.0) };

    #[inline(always)]
    fn make(&mut self, step: Step) -> Result<u64, Infallible> {
        Ok(make(self.words, &mut self.seat, step))
    }

    #[inline(always)]
    fn load_component(&mut self, component: u64) -> Result<u64, Infallible> {
        Ok(make_load(self.words, &mut self.seat, component))
    }

    #[inline(always)]
    fn load(&mut self, word: u64) -> Result<u64, Infallible> {
        Ok(make_load(self.words, &mut self.seat, word))
    }

    ghost sound = { λ l w. let m = w.under.3 in m.made.sound };

    ghost leads_itself = { λ l. (refl, leads_itself (one_of l.seat.me.0), λ n counted. counted) };

    ghost leads_on = { λ l k j f g. (
      g.0 ∙ f.0,
      leads_on (one_of l.seat.me.0) (one_of k.seat.me.0) (one_of j.seat.me.0) f.1 g.1,
      λ n counted. g.2 n (f.2 n counted),
    ) };
}

// Makes the first step of a call that begins with the load of its component's word, and returns the answer. `G` is the
// machine that begins the call.
#[inline(always)]
fn begin_load<G: Moment>(words: &Words, seat: &mut PortSeat, core: &Core, component: u32) -> u64
    requires one { IsOne seat.old.me }
    requires rest { IsAtRest words.now.table_id words.now.key seat.old.table_id (one_of seat.old.me.0) core.now }
    requires component { component < core.now.sizes.m }
    requires due { step_of G.core ≡ Some (Load (component_word core.now.sizes component)) }
    requires begins { Begins G.core (one_of seat.old.me.0) }
    ensures going { IsGoing words.now.table_id words.now.key seat.new.table_id seat.new.me }
    ensures made { CallMade G.core (one_of seat.old.me.0) (machine_of seat.new.me) (one_of seat.new.me.0) }
    ensures counted { HasCounted seat.old.steps (one_of seat.new.me.0) seat.new.steps }
    ensures machine { machine_of seat.new.me ≡ advance G.core result }
    ensures possible { IsPossible G.core result }
{
    let word = core.sizes().component_word(component);
    words.load::<MachineStep<G>>(seat, word as usize)
}

/// Makes the first step of a read, the load of its component's word, and returns the answer. `G` is the machine that
/// begins the read.
#[inline(always)]
pub fn begin_read<G: Moment>(words: &Words, seat: &mut PortSeat, core: &Core, component: u32) -> u64
    requires one { IsOne seat.old.me }
    requires rest { IsAtRest words.now.table_id words.now.key seat.old.table_id (one_of seat.old.me.0) core.now }
    requires moment { G.core ≡ at_stage core.now (ReadBegun component) }
    requires begins { Begins G.core (one_of seat.old.me.0) }
    ensures going { IsGoing words.now.table_id words.now.key seat.new.table_id seat.new.me }
    ensures made { CallMade G.core (one_of seat.old.me.0) (machine_of seat.new.me) (one_of seat.new.me.0) }
    ensures counted { HasCounted seat.old.steps (one_of seat.new.me.0) seat.new.steps }
    ensures machine { machine_of seat.new.me ≡ advance G.core result }
    ensures possible { IsPossible G.core result }
{
    begin_load::<G>(words, seat, core, component)
}

/// Makes the first step of an update, the load of its component's word, and returns the answer. `G` is the machine that
/// begins the update.
#[inline(always)]
pub fn begin_update<G: Moment>(
    words: &Words,
    seat: &mut PortSeat,
    core: &Core,
    change: Change,
) -> u64
    requires one { IsOne seat.old.me }
    requires rest { IsAtRest words.now.table_id words.now.key seat.old.table_id (one_of seat.old.me.0) core.now }
    requires moment { G.core ≡ at_stage core.now (UpdateBegun change) }
    requires begins { Begins G.core (one_of seat.old.me.0) }
    ensures going { IsGoing words.now.table_id words.now.key seat.new.table_id seat.new.me }
    ensures made { CallMade G.core (one_of seat.old.me.0) (machine_of seat.new.me) (one_of seat.new.me.0) }
    ensures counted { HasCounted seat.old.steps (one_of seat.new.me.0) seat.new.steps }
    ensures machine { machine_of seat.new.me ≡ advance G.core result }
    ensures possible { IsPossible G.core result }
{
    begin_load::<G>(words, seat, core, change.component)
}

/// Makes the first step of a scan of these positions, the claim of its announcement, and returns the
/// answer. `G` is the machine that begins the scan.
#[inline(always)]
pub fn begin_scan<G: Moment>(words: &Words, seat: &mut PortSeat, core: &Core, which: &[u32]) -> u64
    requires one { IsOne seat.old.me }
    requires rest { IsAtRest words.now.table_id words.now.key seat.old.table_id (one_of seat.old.me.0) core.now }
    requires moment { G.core ≡ scan_asked core.now which.now }
    requires begins { Begins G.core (one_of seat.old.me.0) }
    ensures going { IsGoing words.now.table_id words.now.key seat.new.table_id seat.new.me }
    ensures made { CallMade G.core (one_of seat.old.me.0) (machine_of seat.new.me) (one_of seat.new.me.0) }
    ensures counted { HasCounted seat.old.steps (one_of seat.new.me.0) seat.new.steps }
    ensures machine { machine_of seat.new.me ≡ advance G.core result }
    ensures possible { IsPossible G.core result }
{
    let word = core.sizes().pool_counter();
    let size = announcement_size(which.len() as u64);
    words.fetch_add::<MachineStep<G>>(seat, word as usize, size)
}

/// Makes the step that is due in the call of the seat's port, and returns its answer.
#[inline(always)]
pub fn make(words: &Words, seat: &mut PortSeat, step: Step) -> u64
    requires going { IsGoing words.now.table_id words.now.key seat.old.table_id seat.old.me }
    requires due { step_of (machine_of seat.old.me) ≡ Some step }
    ensures going { IsGoing words.now.table_id words.now.key seat.new.table_id seat.new.me }
    ensures leads { ComesTo (one_of seat.old.me.0) (one_of seat.new.me.0) }
    ensures counted { CountsOn seat.old.steps (one_of seat.old.me.0) seat.new.steps (one_of seat.new.me.0) }
    ensures machine { machine_of seat.new.me ≡ advance (machine_of seat.old.me) result }
    ensures possible { IsPossible (machine_of seat.old.me) result }
{
    match step {
        Step::Load(word) => make_load(words, seat, u64::from(word)),
        Step::Store(word, value) => {
            words.store::<PutsOn>(seat, word as usize, value);
            0
        }
        Step::Exchange(word, old, new) => {
            words.compare_exchange::<GoesOn>(seat, word as usize, old, new)
        }
        Step::Add(word, by) => words.fetch_add::<GoesOn>(seat, word as usize, by),
    }
}

/// Makes a load that is due, and returns its answer. It takes the word as a `u64`, so a caller that has one
/// need not cut it to the `u32` of a [`Step`].
#[inline(always)]
pub fn make_load(words: &Words, seat: &mut PortSeat, word: u64) -> u64
    requires going { IsGoing words.now.table_id words.now.key seat.old.table_id seat.old.me }
    requires due { step_of (machine_of seat.old.me) ≡ Some (Load word) }
    ensures going { IsGoing words.now.table_id words.now.key seat.new.table_id seat.new.me }
    ensures leads { ComesTo (one_of seat.old.me.0) (one_of seat.new.me.0) }
    ensures counted { CountsOn seat.old.steps (one_of seat.old.me.0) seat.new.steps (one_of seat.new.me.0) }
    ensures machine { machine_of seat.new.me ≡ advance (machine_of seat.old.me) result }
    ensures possible { IsPossible (machine_of seat.old.me) result }
{
    words.load::<GoesOn>(seat, word as usize)
}
