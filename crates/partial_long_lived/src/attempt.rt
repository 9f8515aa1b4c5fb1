//! One attempt of an update, in one epoch.

ghost use Rattle.std.specs.Prelude.{◌≡◌, ◌≢◌, ◌+◌, ◌^◌, ◌<◌, ◌≤◌, IfSome, IfNone, None, Some, false};
ghost use Rattle.partial_machine.specs.Bounds.{most_of_update};
ghost use Rattle.partial_machine.specs.declared.stage.Stage.TheVariants.{Idle, UpdateBegun, Exchanging};
ghost use Rattle.partial_machine.specs.Lines.{set_begun};
ghost use Rattle.partial_machine.specs.Machine.{at_stage};
ghost use Rattle.partial_machine.specs.Sound.{IsSound};
ghost use Rattle.partial_lines.specs.Lines.{IsViewDue, set_made, written_in};
ghost use Rattle.partial_lines.specs.Replies.{RestsLike};
ghost use Rattle.partial_long_lived.specs.Inner.Held.{IsHeld, port_at};
ghost use Rattle.partial_long_lived.specs.Inner.Calls.{IsIdle, StaysAt};
ghost use Rattle.partial_long_lived.specs.Inner.Machine.{SeatBegins};
ghost use Rattle.partial_long_lived.specs.Inner.Under.{IsGoing, ComesTo, MayBegin, claimed_end, machine_at};
ghost use Rattle.partial_long_lived.specs.Inner.Updates.{UpdateAttempted, ExchangeDue, ExpectsOne, FoundSealed, IsOwnMachine, MayCall, NotesNothing, asked_change, exchanged_in};

use crate::arena::SEAL;
use crate::lines::{ArenaLines, Further};
use crate::machine_plays::{Begin, ExchangeComponent, Moment};
use crate::plays::When;
use crate::rule::Words;
use crate::stand::Stand;
use partial_core::{Change, Core};
use partial_lines::{Exchanged, PutBegun, begin_put, put_found};
use partial_words::Block;
use std::marker::{Brand, PhantomData};

/// How an attempt of an update ended.
#[derive(Clone, Copy)]
pub enum Attempted {
    /// The update took effect, and its record has this stamp.
    Applied { stamp: u64 },
    /// It had no effect: the component had this stamp in place of the one that the update wanted to replace.
    Overtaken { by: u64 },
    /// The component is sealed: nothing was applied.
    Sealed,
}

impl Attempted {
    ghost use Rattle.std.specs.Prelude.{◌≡◌, Some};
    ghost use Rattle.partial_long_lived.specs.Inner.Updates.{exchanged_in};

    // The end of an attempt that ended the update so.
    #[inline(always)]
    fn ended(exchanged: Exchanged) -> Attempted
        ensures { exchanged_in result ≡ Some exchanged }
    {
        match exchanged {
            Exchanged::Applied { stamp } => Attempted::Applied { stamp },
            Exchanged::Overtaken { by } => Attempted::Overtaken { by },
        }
    }

    /// How the update ended, unless the component is sealed.
    #[inline(always)]
    pub fn exchanged(self) -> Option<Exchanged>
        ensures { result ≡ exchanged_in self }
    {
        match self {
            Attempted::Applied { stamp } => Some(Exchanged::Applied { stamp }),
            Attempted::Overtaken { by } => Some(Exchanged::Overtaken { by }),
            Attempted::Sealed => None,
        }
    }
}

/// Makes an update of a port that is not spent, in the port's epoch. Returns how it ended, with stamps of the epoch's own,
/// and says whether the port is spent then; or finds the component sealed. Then nothing was applied, and the port is spent.
/// `F` says whether the first step of the update is the first one of its call.
///
/// Never inlined.
#[inline(never)]
pub fn attempt<F: When>(
    words: &Words,
    stand: &mut Stand,
    core: &mut Core,
    component: u32,
    value: u64,
    spent: &mut bool,
    expected: Option<u64>,
) -> Attempted
    requires held { IsHeld words.now.table_id words.now.key stand.old }
    requires idle { IsIdle stand.old }
    requires may { MayCall (port_at stand.old) core.old }
    requires inside { component < words.now.key.sizes.m }
    requires expects { ExpectsOne (port_at stand.old) (asked_change component expected value) }
    ensures held { IsHeld words.now.table_id words.now.key stand.new }
    ensures attempted { IfSome (exchanged_in result) (λ r.
        UpdateAttempted F.first (asked_change component expected value) r stand.old stand.new) }
    ensures sealed { IfNone (exchanged_in result) (NotesNothing F.first stand.old stand.new) }
    ensures met { IfNone (exchanged_in result) (FoundSealed stand.old stand.new) }
    ensures rests { IsOwnMachine (port_at stand.new) core.new }
    ensures spare { IfSome (exchanged_in result) (λ _. spent.new ≡ false → MayCall (port_at stand.new) core.new) }
    ensures over { IfSome (exchanged_in result) (λ _. spent.new ≡ (port_at stand.new).port.over) }
    ensures steps { stand.new.seat.steps ≤ stand.old.seat.steps + most_of_update words.now.key.sizes }
{
    attempt_as::<Further, F>(words, stand, core, component, value, spent, expected)
}

/// The same, in line, as a call of the kind `C`.
#[inline(always)]
pub fn attempt_as<C, F: When>(
    words: &Words,
    stand: &mut Stand,
    core: &mut Core,
    component: u32,
    value: u64,
    spent: &mut bool,
    expected: Option<u64>,
) -> Attempted
    requires held { IsHeld words.now.table_id words.now.key stand.old }
    requires idle { IsIdle stand.old }
    requires may { MayCall (port_at stand.old) core.old }
    requires inside { component < words.now.key.sizes.m }
    requires expects { ExpectsOne (port_at stand.old) (asked_change component expected value) }
    ensures held { IsHeld words.now.table_id words.now.key stand.new }
    ensures attempted { IfSome (exchanged_in result) (λ r.
        UpdateAttempted F.first (asked_change component expected value) r stand.old stand.new) }
    ensures sealed { IfNone (exchanged_in result) (NotesNothing F.first stand.old stand.new) }
    ensures met { IfNone (exchanged_in result) (FoundSealed stand.old stand.new) }
    ensures rests { IsOwnMachine (port_at stand.new) core.new }
    ensures spare { IfSome (exchanged_in result) (λ _. spent.new ≡ false → MayCall (port_at stand.new) core.new) }
    ensures over { IfSome (exchanged_in result) (λ _. spent.new ≡ (port_at stand.new).port.over) }
    ensures steps { stand.new.seat.steps ≤ stand.old.seat.steps + most_of_update words.now.key.sizes }
{
    let change = Change {
        component,
        expected,
        value,
    };
    let old = begin::<F, Brand>(words, stand, core, change);
    if old >= SEAL {
        return Attempted::Sealed;
    }
    if let Some(expected) = change.expected {
        if expected != old {
            *spent = false;
            return Attempted::Overtaken { by: old };
        }
    }
    let written = write::<C>(words, stand, core, change, old);
    let found = exchange(words, stand, change, old, written.at);
    if found >= SEAL && found % SEAL == old {
        return Attempted::Sealed;
    }
    *spent = written.end > stand.shape.limit;
    Attempted::ended(Exchanged::of(old, written.at, found % SEAL))
}

// Makes the first step of an update in the port's epoch, the load of its component word, and returns the word. `G` is the
// machine that begins the update, unless the component is sealed. `F` says whether the step is the first one of the call.
#[inline(always)]
fn begin<F: When, G: Moment>(words: &Words, stand: &mut Stand, core: &Core, change: Change) -> u64
    requires held { IsHeld words.now.table_id words.now.key stand.old }
    requires begins { MayBegin G.core (port_at stand.old) }
    requires moment { G.core ≡ at_stage core.now (UpdateBegun change) }
    requires inside { change.component < words.now.key.sizes.m }
    ensures held { IsHeld words.now.table_id words.now.key stand.new }
    ensures kept { StaysAt stand.old stand.new }
    ensures begun { SeatBegins F.first G.core change.component (port_at stand.old) result (port_at stand.new) }
    ensures steps { stand.new.seat.steps ≤ stand.old.seat.steps + 1 }
{
    let word = stand.base + u64::from(change.component);
    words.load::<Begin<F, G>>(&mut stand.seat, word as usize)
}

// A record that an update has written, whose exchange is due: its reference, and the word after those that the port has
// claimed for its records.
#[derive(Clone, Copy)]
struct Written {
    at: u64,
    end: u64,
}

// Makes an update that has loaded `old` as its component's record up to the exchange of the component, which is due then.
#[inline(always)]
fn write<C>(words: &Words, stand: &mut Stand, core: &mut Core, change: Change, old: u64) -> Written
    requires going { IsGoing words.now.table_id words.now.key stand.old }
    requires idle { core.old.stage ≡ Idle }
    requires sound { IsSound core.old }
    requires machine { machine_at stand.old ≡ set_made (set_begun core.old) change old }
    ensures going { IsGoing words.now.table_id words.now.key stand.new }
    ensures leads { ComesTo stand.old stand.new }
    ensures due { (machine_at stand.new).stage ≡ Exchanging change old result.at }
    ensures end { result.end ≡ claimed_end (machine_at stand.new) }
    ensures rests { RestsLike (machine_at stand.new) core.new }
{
    match begin_write::<C>(words, stand, core, change, old) {
        PutBegun::Written { at } => Written {
            at,
            end: claimed_end(core),
        },
        PutBegun::Found => {
            let written = write_found::<C>(
                words,
                stand,
                core,
                change.component,
                change.expected,
                change.value,
                old,
            );
            Written {
                at: written.unwrap(),
                end: claimed_end(core),
            }
        }
        PutBegun::Refused => unreachable!(),
    }
}

// Makes it up to its embedded scan, where one is due. The claim of its record is not refused: the port is not spent.
#[inline(always)]
fn begin_write<C>(
    words: &Words,
    stand: &mut Stand,
    core: &mut Core,
    change: Change,
    old: u64,
) -> PutBegun
    requires going { IsGoing words.now.table_id words.now.key stand.old }
    requires idle { core.old.stage ≡ Idle }
    requires sound { IsSound core.old }
    requires machine { machine_at stand.old ≡ set_made (set_begun core.old) change old }
    ensures going { IsGoing words.now.table_id words.now.key stand.new }
    ensures leads { ComesTo stand.old stand.new }
    ensures due { IfSome (written_in result) (λ written.
        IfSome written (λ at. (machine_at stand.new).stage ≡ Exchanging change old at)) }
    ensures fits { written_in result ≢ Some None }
    ensures rests { IfSome (written_in result) (λ _. RestsLike (machine_at stand.new) core.new) }
    ensures found { IfNone (written_in result) (IsViewDue (machine_at stand.new) core.new change old) }
{
    let mut lines = ArenaLines::<C> {
        words,
        stand,
        kind: PhantomData,
    };
    let Ok(begun) = begin_put(&mut lines, core, change, old);
    begun
}

// Makes it from its embedded scan on, and returns the reference of its record: the claim is not refused. It isn't put in line,
// and takes the change in parts, so that an update that finds no announced index stores none of what this one wants in memory.
#[inline(never)]
fn write_found<C>(
    words: &Words,
    stand: &mut Stand,
    core: &mut Core,
    component: u32,
    expected: Option<u64>,
    value: u64,
    old: u64,
) -> Option<u64>
    requires going { IsGoing words.now.table_id words.now.key stand.old }
    requires due { IsViewDue (machine_at stand.old) core.old (asked_change component expected value) old }
    ensures going { IsGoing words.now.table_id words.now.key stand.new }
    ensures leads { ComesTo stand.old stand.new }
    ensures due { IfSome result (λ at. (machine_at stand.new).stage ≡ Exchanging (asked_change component expected value) old at) }
    ensures fits { result ≢ None }
    ensures rests { RestsLike (machine_at stand.new) core.new }
{
    let change = Change {
        component,
        expected,
        value,
    };
    let mut lines = ArenaLines::<C> {
        words,
        stand,
        kind: PhantomData,
    };
    let Ok(written) = put_found(&mut lines, core, change, old);
    written
}

// The word after those that a port has claimed for its records.
#[inline(always)]
fn claimed_end(core: &Core) -> u64
    requires { claimed_end core.now < 2 ^ 64 }
    ensures { result ≡ claimed_end core.now }
{
    let Block { at, size } = core.spare();
    at + size
}

// Exchanges the component of an update whose record lies at `at`, and returns the word that was found.
#[inline(always)]
fn exchange(words: &Words, stand: &mut Stand, change: Change, old: u64, at: u64) -> u64
    requires going { IsGoing words.now.table_id words.now.key stand.old }
    requires due { (machine_at stand.old).stage ≡ Exchanging change old at }
    requires inside { change.component < words.now.key.sizes.m }
    ensures held { IsHeld words.now.table_id words.now.key stand.new }
    ensures kept { StaysAt stand.old stand.new }
    ensures exchanged { ExchangeDue stand.old change old at result stand.new }
    ensures steps { stand.new.seat.steps ≤ stand.old.seat.steps + 1 }
{
    let word = stand.base + u64::from(change.component);
    words.compare_exchange::<ExchangeComponent>(&mut stand.seat, word as usize, old, at)
}
