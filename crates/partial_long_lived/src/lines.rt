//! The steps of a call of a port's machine, made in the arena where the port stands.

ghost use Rattle.std.specs.Prelude.{◌≡◌, ◌+◌, IfSome, Some, nat_lt};
ghost use Rattle.std.proofs.Common.{refl, ◌∙◌};
ghost use Rattle.partial_words.specs.declared.step.Step.TheVariants.{Load, Store};
ghost use Rattle.partial_machine.specs.Machine.{advance, step_of};
ghost use Rattle.partial_machine.specs.Possible.{IsPossible};
ghost use Rattle.partial_lines.specs.Lines.{IsQuiet, StoresNoView};
ghost use Rattle.partial_long_lived.specs.Inner.Under.{IsGoing, ComesTo, leads_itself, leads_on, machine_at};

use crate::arena::SEAL;
use crate::machine_plays::{AddOn, ExchangeOn, LoadOn, LoadZero, StoreOn};
use crate::rule::Words;
use crate::shape::Shape;
use crate::stand::Stand;
use partial_lines::Makes;
use partial_words::Step;
use std::convert::Infallible;
use std::marker::PhantomData;

/// The steps of the call of a port, made in its arena. No call is broken off. `C` is the kind of call: the code that makes
/// a call's steps is one of its own for each kind, and a compiler puts code in line that is called once.
#[derive(Drop)]
pub struct ArenaLines<'a, C> {
    /// The words that all threads share.
    pub words: &'a Words,
    /// The seat of the port.
    pub stand: &'a mut Stand,
    /// The kind of call.
    pub kind: PhantomData<C>,
}

/// The kind of a scan of a port that is not spent.
pub struct Scan;

/// The kind of a scan after a change of epoch.
pub struct LateScan;

/// The kind of an update's first attempt.
pub struct First;

/// The kind of a further attempt of an update, and of a conditional one.
pub struct Further;

impl<'a, C> Makes for ArenaLines<'a, C> {
    type Break = Infallible;

    ghost goes = { λ l. IsGoing l.words.now.table_id l.words.now.key l.stand.now };

    ghost machine = { λ l. machine_at l.stand.now };

    ghost leads = { λ l k. ((k.words ≡ l.words) × (k.stand.ghost_name ≡ l.stand.ghost_name)) ×
        ComesTo l.stand.now k.stand.now };

    #[inline(always)]
    fn make(&mut self, step: Step) -> Result<u64, Infallible> {
        Ok(make(self.words, self.stand, step))
    }

    #[inline(always)]
    fn load_component(&mut self, component: u64) -> Result<u64, Infallible> {
        Ok(make_load(self.words, self.stand, component, Some(true)))
    }

    #[inline(always)]
    fn load(&mut self, word: u64) -> Result<u64, Infallible> {
        Ok(make_load(self.words, self.stand, word, Some(false)))
    }

    #[inline(always)]
    fn store_zero(&mut self, word: u32) -> Result<u64, Infallible> {
        make_zero(self.words, self.stand, word);
        Ok(0)
    }

    ghost sound = { λ l w. let m = w.under.3 in m.made.sound };

    ghost leads_itself = { λ l. ((refl, refl), leads_itself l.stand.now) };

    ghost leads_on = { λ l k j f g. (
      (g.0.0 ∙ f.0.0, g.0.1 ∙ f.0.1),
      leads_on l.stand.now k.stand.now j.stand.now f.1 g.1,
    ) };
}

/// Makes the step that is due in the call of the port, and returns its answer.
#[inline(always)]
pub fn make(words: &Words, stand: &mut Stand, step: Step) -> u64
    requires going { IsGoing words.now.table_id words.now.key stand.old }
    requires due { step_of (machine_at stand.old) ≡ Some step }
    requires quiet { IsQuiet (machine_at stand.old).stage }
    ensures going { IsGoing words.now.table_id words.now.key stand.new }
    ensures leads { ComesTo stand.old stand.new }
    ensures machine { machine_at stand.new ≡ advance (machine_at stand.old) result }
    ensures possible { IsPossible (machine_at stand.old) result }
{
    match step {
        Step::Load(word) => make_load(words, stand, u64::from(word), None),
        Step::Store(word, value) => {
            make_store(words, stand, word, value);
            0
        }
        Step::Exchange(word, old, new) => {
            let at = stand.base + u64::from(word);
            words.compare_exchange::<ExchangeOn>(&mut stand.seat, at as usize, old, new)
        }
        Step::Add(word, by) => {
            let at = stand.base + u64::from(word);
            words.fetch_add::<AddOn>(&mut stand.seat, at as usize, by)
        }
    }
}

// Makes a store that is due.
#[inline(always)]
fn make_store(words: &Words, stand: &mut Stand, word: u32, value: u64)
    requires going { IsGoing words.now.table_id words.now.key stand.old }
    requires due { step_of (machine_at stand.old) ≡ Some (Store word value) }
    ensures going { IsGoing words.now.table_id words.now.key stand.new }
    ensures leads { ComesTo stand.old stand.new }
    ensures machine { machine_at stand.new ≡ advance (machine_at stand.old) 0 }
    ensures possible { IsPossible (machine_at stand.old) 0 }
    ensures steps { stand.new.seat.steps ≡ stand.old.seat.steps + 1 }
{
    let at = stand.base + u64::from(word);
    words.store::<StoreOn>(&mut stand.seat, at as usize, value);
}

// Makes the store of 0 that is due in the view word of a record without a view. Where the word is 0 already, as in a pool
// that no epoch has used, its load is that step, and nothing is stored.
#[inline(always)]
fn make_zero(words: &Words, stand: &mut Stand, word: u32)
    requires going { IsGoing words.now.table_id words.now.key stand.old }
    requires due { step_of (machine_at stand.old) ≡ Some (Store word 0) }
    requires unviewed { StoresNoView (machine_at stand.old) }
    ensures going { IsGoing words.now.table_id words.now.key stand.new }
    ensures leads { ComesTo stand.old stand.new }
    ensures machine { machine_at stand.new ≡ advance (machine_at stand.old) 0 }
    ensures possible { IsPossible (machine_at stand.old) 0 }
{
    let at = stand.base + u64::from(word);
    let found = words.load::<LoadZero>(&mut stand.seat, at as usize);
    if found == 0 {
        return;
    }
    make_store(words, stand, word, 0);
}

/// Makes a load that is due, and returns its answer: a component word without its seals. `component` says whether it is one,
/// where the caller knows that.
#[inline(always)]
pub fn make_load(words: &Words, stand: &mut Stand, word: u64, component: Option<bool>) -> u64
    requires going { IsGoing words.now.table_id words.now.key stand.old }
    requires due { step_of (machine_at stand.old) ≡ Some (Load word) }
    requires component { IfSome component (λ known. known ≡ nat_lt word stand.old.shape.sizes.m) }
    ensures going { IsGoing words.now.table_id words.now.key stand.new }
    ensures leads { ComesTo stand.old stand.new }
    ensures machine { machine_at stand.new ≡ advance (machine_at stand.old) result }
    ensures possible { IsPossible (machine_at stand.old) result }
{
    let at = stand.base + word;
    let found = words.load::<LoadOn>(&mut stand.seat, at as usize);
    if is_component(&stand.shape, word, component) {
        found % SEAL
    } else {
        found
    }
}

// Whether a word of an arena is a component's. It is asked for after the load, when the caller doesn't know it: a
// number that is found in memory before needs a register meanwhile.
#[inline(always)]
fn is_component(shape: &Shape, word: u64, known: Option<bool>) -> bool
    requires { IfSome known (λ known. known ≡ nat_lt word shape.now.sizes.m) }
    ensures { result ≡ nat_lt word shape.now.sizes.m }
{
    match known {
        Some(known) => known,
        None => word < u64::from(shape.sizes.m()),
    }
}
