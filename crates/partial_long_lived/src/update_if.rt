//! Conditional updates.

ghost use Rattle.std.specs.Prelude.{◌≡◌, ◌+◌, ◌*◌, ◌<◌, ◌≤◌, IfSome, IfNone, IfOk, IfErr, true, false};
ghost use Rattle.partial_machine.specs.Bounds.{most_of_update};
ghost use Rattle.partial_long_lived.specs.Bounds.{round_if_steps};
ghost use Rattle.partial_long_lived.specs.declared.update_if.Compared.TheVariants.{Sealed};
ghost use Rattle.partial_long_lived.specs.Inner.Held.{IsHeld, port_at};
ghost use Rattle.partial_long_lived.specs.Inner.Calls.{IsIdle, StaysAt};
ghost use Rattle.partial_long_lived.specs.Inner.Conditional.{EndedIf, HasCompared, HasLooked, HasUpdatedIf, outcome_of};
ghost use Rattle.partial_long_lived.specs.Inner.Loads.{SeatSees};
ghost use Rattle.partial_long_lived.specs.Inner.Loads.Wish.{Expects};
ghost use Rattle.partial_long_lived.specs.Inner.Rests.{RestsAt};
ghost use Rattle.partial_long_lived.specs.Inner.Updates.{CameBy, FoundSealed, IsLate, IsOwnMachine, MayCall, NotesNothing, word_from};

use crate::answers::UpdatedIf;
use crate::arena::{SEAL, STAMPS, public_stamp, see};
use crate::attempt::attempt;
use crate::error::Refused;
use crate::plays::{AtFirst, Later, Wishes};
use crate::rule::Words;
use crate::stand::Stand;
use crate::update::{MOST_CHANGES, renew};
use partial_core::Core;
use partial_lines::Exchanged;
use std::marker::Brand;

/// A conditional update: the value for a component, and the public stamp that the component has to have.
#[derive(Clone, Copy)]
pub struct Asked {
    pub component: u32,
    pub expected: u64,
    pub value: u64,
}

/// What the comparison of a component's stamp with the expected one has found.
pub enum Compared {
    /// The component is sealed, and may have been so before the call.
    Sealed,
    /// It has the expected stamp. Its record lies at this word of the arena.
    Same { at: u64 },
    /// It has this public stamp in place of the expected one.
    Other { stamp: u64 },
}

/// Makes a conditional update of a port, in as many epochs as it takes. `spent` says whether the port is spent in its
/// epoch, before and afterwards. Returns how the update ended. An update that finds another stamp needs no claim, so a
/// spent port ends it in its epoch.
///
/// # Errors
/// [`Refused::Overtaken`] when the port has entered a later epoch 16 times; [`Refused::EpochsSpent`]
/// when the epoch has to be changed and is the last one. Nothing was applied.
pub fn update_if(
    words: &Words,
    stand: &mut Stand,
    core: &mut Core,
    asked: Asked,
    spent: &mut bool,
) -> Result<UpdatedIf, Refused>
    requires held { IsHeld words.now.table_id words.now.key stand.old }
    requires rests { RestsAt stand.old core.old spent.old }
    requires inside { asked.component < words.now.key.sizes.m }
    ensures held { IsHeld words.now.table_id words.now.key stand.new }
    ensures rests { RestsAt stand.new core.new spent.new }
    ensures updated { IfOk result (λ r. HasUpdatedIf asked r stand.old stand.new) }
    ensures refused { IfErr result (λ cause. IsLate 16 15 stand.old cause stand.new × CameBy true stand.old stand.new) }
    ensures steps { stand.new.seat.steps ≤ stand.old.seat.steps + 16 * round_if_steps words.now.key }
{
    let mut first = true;
    for _ in 0..MOST_CHANGES {
        if let Some((updated, used)) = round(words, stand, core, asked, first, *spent) {
            *spent = used;
            return Ok(updated);
        }
        if let Err(cause) = renew::<Later>(words, stand, core) {
            *spent = true;
            return Err(cause);
        }
        first = false;
        *spent = false;
    }
    Err(Refused::Overtaken)
}

// Makes a conditional update in the port's epoch. Returns how it ended, and whether the port is spent then; or `None` when
// the component is sealed, or when a spent port finds the expected stamp. Then nothing was applied. `first` says that the
// first step is the first one of the call; else the epoch was the current one during the call.
fn round(
    words: &Words,
    stand: &mut Stand,
    core: &mut Core,
    asked: Asked,
    first: bool,
    spent: bool,
) -> Option<(UpdatedIf, bool)>
    requires held { IsHeld words.now.table_id words.now.key stand.old }
    requires idle { IsIdle stand.old }
    requires own { IsOwnMachine (port_at stand.old) core.old }
    requires may { spent ≡ false → MayCall (port_at stand.old) core.old }
    requires inside { asked.component < words.now.key.sizes.m }
    requires fresh { first ≡ false → (port_at stand.old).began.epoch ≤ stand.old.epoch }
    ensures held { IsHeld words.now.table_id words.now.key stand.new }
    ensures ended { IfSome result (λ r. EndedIf first asked r.0 stand.old stand.new) }
    ensures none { IfNone result (NotesNothing first stand.old stand.new) }
    ensures met { IfNone result (spent ≡ false → FoundSealed stand.old stand.new) }
    ensures own { IsOwnMachine (port_at stand.new) core.new }
    ensures spare { IfSome result (λ r. r.1 ≡ false → MayCall (port_at stand.new) core.new) }
    ensures steps { stand.new.seat.steps ≤ stand.old.seat.steps + (3 + most_of_update words.now.key.sizes) }
{
    let at = match compare(words, stand, asked, first) {
        Compared::Sealed => return None,
        Compared::Other { stamp } => {
            return Some((UpdatedIf::Changed { by: stamp }, spent));
        }
        Compared::Same { at } => at,
    };
    if spent {
        return None;
    }
    let mut used = false;
    let attempted = attempt::<Later>(
        words,
        stand,
        core,
        asked.component,
        asked.value,
        &mut used,
        Some(at),
    );
    let Some(exchanged) = attempted.exchanged() else {
        return None;
    };
    let updated = public_outcome(words, stand, asked.component, exchanged);
    Some((updated, used))
}

// Compares the public stamp of a component with the expected one.
fn compare(words: &Words, stand: &mut Stand, asked: Asked, first: bool) -> Compared
    requires held { IsHeld words.now.table_id words.now.key stand.old }
    requires idle { IsIdle stand.old }
    requires inside { asked.component < words.now.key.sizes.m }
    requires fresh { first ≡ false → (port_at stand.old).began.epoch ≤ stand.old.epoch }
    ensures held { IsHeld words.now.table_id words.now.key stand.new }
    ensures looked { HasLooked first stand.old stand.new }
    ensures found { HasCompared asked stand.old result stand.new }
    ensures met { result ≡ Sealed → FoundSealed stand.old stand.new }
    ensures steps { stand.new.seat.steps ≤ stand.old.seat.steps + 2 }
{
    let found = see_asked::<Brand>(words, stand, asked, first);
    if first && found >= SEAL {
        return Compared::Sealed;
    }
    let at = found % SEAL;
    let base = stand.base;
    let own = stand.shape.own;
    let stamp = public_stamp(words, stand, base, own, asked.component, at);
    if stamp == asked.expected {
        Compared::Same { at }
    } else {
        Compared::Other { stamp }
    }
}

// Loads the component's word with the wish `G` to compare its stamp. `first` says that the load is the first step of the
// call.
#[inline(always)]
fn see_asked<G: Wishes>(words: &Words, stand: &mut Stand, asked: Asked, first: bool) -> u64
    requires held { IsHeld words.now.table_id words.now.key stand.old }
    requires idle { IsIdle stand.old }
    requires inside { asked.component < words.now.key.sizes.m }
    requires wish { G.wish ≡ Expects asked.expected asked.value }
    ensures held { IsHeld words.now.table_id words.now.key stand.new }
    ensures kept { StaysAt stand.old stand.new }
    ensures sees { SeatSees first (Expects asked.expected asked.value) asked.component
        (port_at stand.old) result (port_at stand.new) }
    ensures steps { stand.new.seat.steps ≤ stand.old.seat.steps + 1 }
{
    let base = stand.base;
    if first {
        see::<AtFirst, G>(words, stand, base, asked.component)
    } else {
        see::<Later, G>(words, stand, base, asked.component)
    }
}

// How a conditional update ended in the port's epoch, with public stamps.
fn public_outcome(
    words: &Words,
    stand: &mut Stand,
    component: u32,
    exchanged: Exchanged,
) -> UpdatedIf
    requires held { IsHeld words.now.table_id words.now.key stand.old }
    requires idle { IsIdle stand.old }
    requires inside { component < words.now.key.sizes.m }
    requires small { word_from exchanged < 8388608 }
    ensures held { IsHeld words.now.table_id words.now.key stand.new }
    ensures kept { StaysAt stand.old stand.new }
    ensures same { port_at stand.new ≡ port_at stand.old }
    ensures public { result ≡ outcome_of (port_at stand.old) component exchanged }
    ensures steps { stand.new.seat.steps ≤ stand.old.seat.steps + 1 }
{
    match exchanged {
        Exchanged::Applied { stamp } => UpdatedIf::Applied {
            stamp: stand.epoch * STAMPS + stamp,
        },
        Exchanged::Overtaken { by } => UpdatedIf::Changed {
            by: public_stamp(words, stand, stand.base, stand.shape.own, component, by),
        },
    }
}
