//! Scans by a change of epoch, in a memory whose scans don't announce themselves: the values with which an epoch begins
//! that opened during the call stood together as it opened.

ghost use Rattle.std.specs.Prelude.{ℕ, ◌≡◌, ◌+◌, ◌*◌, ◌<◌, ◌≤◌, true, false, length, slice_index, None, IfErr, IfOk};
ghost use Rattle.partial_words.specs.Layout.{initial_record};
ghost use Rattle.partial_long_lived.specs.Bounds.{double_collect_steps, most_of_change, most_of_scan_by_change, tries};
ghost use Rattle.partial_long_lived.specs.Inner.Held.{IsHeld, port_at};
ghost use Rattle.partial_long_lived.specs.Inner.Calls.{EpochSettled, HasCome, IsIdle};
ghost use Rattle.partial_long_lived.specs.Inner.DoubleCollect.{AreInside, HasStayed};
ghost use Rattle.partial_long_lived.specs.Inner.Rests.{NotScanned, RestsAt};
ghost use Rattle.partial_long_lived.specs.Inner.Scans.{EnteredYoung};
ghost use Rattle.partial_long_lived.specs.Inner.Stamped.{MadeNamed, ScannedNamed};

use crate::change::change;
use crate::double_collect::{double_collect, load_noting, load_values};
use crate::enter::settle;
use crate::error::Refused;
use crate::plays::{AtFirst, Later, Together};
use crate::rule::Words;
use crate::stand::Stand;
use partial_core::Core;
use partial_lines::Scanned;
use std::marker::Brand;

// How many double collects a scan tries at most before it changes the epoch.
const MOST_TRIES: usize = 64;

/// Scans these positions after a double collect that failed. The port enters the current epoch if its own has ended, and
/// tries further double collects, which all in all take fewer steps than a change of epoch. Then it changes the epoch:
/// `into` has the values as an epoch began that opened during the call. `kept` has the words of the components that the
/// values are of.
///
/// # Errors
/// As those of [`change`]: nothing is noted, and `into` is unchanged.
#[cold]
#[inline(never)]
pub fn scan_by_change(
    words: &Words,
    stand: &mut Stand,
    core: &mut Core,
    spent: &mut bool,
    which: &[u32],
    kept: &mut [u64],
    into: &mut [u64],
) -> Result<Scanned, Refused>
    requires held { IsHeld words.now.table_id words.now.key stand.old }
    requires rests { RestsAt stand.old core.old spent.old }
    requires inside { AreInside words.now.key.sizes which.now }
    requires some { 0 < length which.now }
    requires room { length which.now ≤ length kept.old }
    requires lengths { length into.old ≡ length which.now }
    ensures held { IsHeld words.now.table_id words.now.key stand.new }
    ensures rests { RestsAt stand.new core.new spent.new }
    ensures scanned { IfOk result (λ q. ScannedNamed stand.old stand.new which.now into.new q.collects q.borrowed kept.new) }
    ensures unhelped { IfOk result (λ q. q.borrowed ≡ None) }
    ensures refused { IfErr result (NotScanned stand.old stand.new) }
    ensures unchanged { IfErr result (λ _. into.new ≡ into.old) }
    ensures steps { stand.new.seat.steps ≤ stand.old.seat.steps + most_of_scan_by_change words.now.key (length which.now) }
{
    settle_resting(words, stand, core, spent);
    if collects_after_all(words, stand, which, kept, into) {
        return Ok(Scanned {
            collects: 2,
            borrowed: None,
        });
    }
    scan_next(words, stand, core, spent, which, kept, into)
}

// Enters the current epoch if the port's epoch has ended, as the first steps of a call. The port's machine is a new one
// then.
fn settle_resting(words: &Words, stand: &mut Stand, core: &mut Core, spent: &mut bool)
    requires held { IsHeld words.now.table_id words.now.key stand.old }
    requires rests { RestsAt stand.old core.old spent.old }
    ensures held { IsHeld words.now.table_id words.now.key stand.new }
    ensures settled { EpochSettled true stand.old stand.new }
    ensures rests { RestsAt stand.new core.new spent.new }
    ensures steps { stand.new.seat.steps ≤ stand.old.seat.steps + 4 }
{
    let epoch = stand.epoch;
    settle::<AtFirst>(words, stand);
    if stand.epoch != epoch {
        core.clear_marks();
        *spent = false;
    }
}

// Changes the epoch, and scans these positions as an epoch began that opened during the call. The port stands in that
// epoch, and isn't spent there.
fn scan_next(
    words: &Words,
    stand: &mut Stand,
    core: &mut Core,
    spent: &mut bool,
    which: &[u32],
    kept: &mut [u64],
    into: &mut [u64],
) -> Result<Scanned, Refused>
    requires held { IsHeld words.now.table_id words.now.key stand.old }
    requires rests { RestsAt stand.old core.old spent.old }
    requires inside { AreInside words.now.key.sizes which.now }
    requires some { 0 < length which.now }
    requires room { length which.now ≤ length kept.old }
    requires lengths { length into.old ≡ length which.now }
    ensures held { IsHeld words.now.table_id words.now.key stand.new }
    ensures rests { RestsAt stand.new core.new spent.new }
    ensures scanned { IfOk result (λ q. ScannedNamed stand.old stand.new which.now into.new q.collects q.borrowed kept.new) }
    ensures unhelped { IfOk result (λ q. q.borrowed ≡ None) }
    ensures refused { IfErr result (NotScanned stand.old stand.new) }
    ensures unchanged { IfErr result (λ _. into.new ≡ into.old) }
    ensures steps { stand.new.seat.steps ≤ stand.old.seat.steps + (4 + most_of_change words.now.key + length which.now) }
{
    enter_resting(words, stand, core, spent)?;
    keep_initial(stand, which, kept);
    let base = stand.base;
    note_initial::<Brand>(words, stand, base, which, kept, into);
    Ok(Scanned {
        collects: 2,
        borrowed: None,
    })
}

// Tries double collects, and says whether one of them has made the scan.
fn collects_after_all(
    words: &Words,
    stand: &mut Stand,
    which: &[u32],
    kept: &mut [u64],
    into: &mut [u64],
) -> bool
    requires held { IsHeld words.now.table_id words.now.key stand.old }
    requires idle { IsIdle stand.old }
    requires inside { AreInside words.now.key.sizes which.now }
    requires some { 0 < length which.now }
    requires room { length which.now ≤ length kept.old }
    requires lengths { length into.old ≡ length which.now }
    ensures held { IsHeld words.now.table_id words.now.key stand.new }
    ensures stayed { HasStayed stand.old stand.new }
    ensures scanned { result ≡ true → ScannedNamed stand.old stand.new which.now into.new 2 None kept.new }
    ensures notes { result ≡ false → (port_at stand.new).notes ≡ (port_at stand.old).notes }
    ensures unchanged { result ≡ false → into.new ≡ into.old }
    ensures room { length kept.new ≡ length kept.old }
    ensures steps { stand.new.seat.steps ≤ stand.old.seat.steps
        + tries words.now.key.sizes.m (length which.now) * double_collect_steps (length which.now) }
{
    let tries = MOST_TRIES.min(stand.shape.sizes.m() as usize / which.len());
    for _ in 0..tries {
        if double_collect(words, stand, which, kept, into) {
            return true;
        }
    }
    false
}

// Enters an epoch that has opened during the call. The port's machine is a new one there.
fn enter_resting(
    words: &Words,
    stand: &mut Stand,
    core: &mut Core,
    spent: &mut bool,
) -> Result<(), Refused>
    requires held { IsHeld words.now.table_id words.now.key stand.old }
    requires rests { RestsAt stand.old core.old spent.old }
    ensures held { IsHeld words.now.table_id words.now.key stand.new }
    ensures rests { RestsAt stand.new core.new spent.new }
    ensures entered { IfOk result (λ _. EnteredYoung stand.old stand.new) }
    ensures refused { IfErr result (NotScanned stand.old stand.new) }
    ensures steps { stand.new.seat.steps ≤ stand.old.seat.steps + (4 + most_of_change words.now.key) }
{
    let epoch = stand.epoch;
    let entered = enter_next(words, stand);
    if stand.epoch != epoch {
        core.clear_marks();
        *spent = false;
    }
    entered
}

// Enters an epoch that has opened during the call, whose first step this is.
fn enter_next(words: &Words, stand: &mut Stand) -> Result<(), Refused>
    requires held { IsHeld words.now.table_id words.now.key stand.old }
    requires idle { IsIdle stand.old }
    ensures held { IsHeld words.now.table_id words.now.key stand.new }
    ensures come { HasCome stand.old stand.new }
    ensures entered { IfOk result (λ _. EnteredYoung stand.old stand.new) }
    ensures refused { IfErr result (NotScanned stand.old stand.new) }
    ensures steps { stand.new.seat.steps ≤ stand.old.seat.steps + (4 + most_of_change words.now.key) }
{
    settle::<AtFirst>(words, stand);
    change::<Later>(words, stand)
}

// Keeps for these positions the words with which their components begin in each epoch.
fn keep_initial(stand: &Stand, which: &[u32], kept: &mut [u64])
    requires inside { AreInside stand.now.shape.sizes which.now }
    requires room { length which.now ≤ length kept.old }
    ensures kept { (k : ℕ) → k < length which.now →
        slice_index kept.new k ≡ initial_record stand.now.shape.sizes (slice_index which.now k) }
    ensures room { length kept.new ≡ length kept.old }
{
    for k in 0..which.len() {
        kept[k] = u64::from(stand.shape.sizes.initial_record(which[k]));
    }
}

// Notes the scan of these positions as the port's epoch began, and puts their values into `into`. `kept` has the words of
// the components then. `G` is what it notes: these components, before all entries of the epoch.
#[inline(always)]
fn note_initial<G: Together>(
    words: &Words,
    stand: &mut Stand,
    base: u64,
    which: &[u32],
    kept: &[u64],
    into: &mut [u64],
)
    requires held { IsHeld words.now.table_id words.now.key stand.old }
    requires base { base ≡ stand.old.base }
    requires entered { (s : Stand) × EnteredYoung s stand.old }
    requires inside { AreInside words.now.key.sizes which.now }
    requires some { 0 < length which.now }
    requires room { length which.now ≤ length kept.now }
    requires lengths { length into.old ≡ length which.now }
    requires which { G.which ≡ which.now }
    requires entries { G.entries ≡ 0 }
    requires kept { (k : ℕ) → k < length which.now →
        slice_index kept.now k ≡ initial_record words.now.key.sizes (slice_index which.now k) }
    ensures held { IsHeld words.now.table_id words.now.key stand.new }
    ensures come { HasCome stand.old stand.new }
    ensures scanned { MadeNamed stand.old stand.new which.now into.new 2 None kept.now }
    ensures steps { stand.new.seat.steps ≤ stand.old.seat.steps + length which.now }
{
    let last = which.len() - 1;
    load_values(words, stand, base, which, kept, into);
    into[last] = load_noting::<G>(words, stand, base, kept[last]);
}
