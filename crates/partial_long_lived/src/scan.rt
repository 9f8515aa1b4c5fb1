//! Scans.

ghost use Rattle.std.specs.Prelude.{◌≡◌, ◌+◌, ◌-◌, ◌<◌, ◌≤◌, ◌||◌, nat_lt, true, false, length, map, slice_index, IfErr, IfOk, IfSome, Ok, Some};
ghost use Rattle.std.specs.Option.{option_map};
ghost use Rattle.partial_machine.specs.declared.stage.Stage.TheVariants.{Idle};
ghost use Rattle.partial_machine.specs.Lines.{scan_asked};
ghost use Rattle.partial_words.specs.Layout.{slot_counter};
ghost use Rattle.partial_words.specs.declared.step.Step.TheVariants.{Add};
ghost use Rattle.partial_machine.specs.Machine.{advance, begin_joining, reply_of, step_of};
ghost use Rattle.partial_lines.specs.Lines.{IsQuiet};
ghost use Rattle.partial_machine.specs.Sound.{AreComponentIndices, IsSound};
ghost use Rattle.partial_lines.specs.Replies.{RestsLike, scan_reply};
ghost use Rattle.partial_epochs.specs.History.{public_stamp};
ghost use Rattle.partial_epochs.specs.Layout.{slot_limit};
ghost use Rattle.partial_long_lived.specs.Rule.{plan_of};
ghost use Rattle.partial_long_lived.specs.Bounds.{most_further, most_of_change, most_of_scan};
ghost use Rattle.partial_long_lived.specs.Inner.Held.{IsHeld, port_at};
ghost use Rattle.partial_long_lived.specs.Inner.Calls.{EpochSettled, IsIdle};
ghost use Rattle.partial_long_lived.specs.Inner.DoubleCollect.{AreInside};
ghost use Rattle.partial_long_lived.specs.Inner.Rests.{NotScanned, RestsAt};
ghost use Rattle.partial_long_lived.specs.Inner.Scans.{HasNotedScan, RestsUnmarked, ScanBegun};
ghost use Rattle.partial_long_lived.specs.Inner.Stamped.{MadeNamed, ScannedNamed};
ghost use Rattle.partial_long_lived.specs.Inner.Under.{IsGoing, ComesTo, MayBegin, machine_at};

use crate::arena::STAMPS;
use crate::change::change;
use crate::enter::{enter, look};
use crate::error::Refused;
use crate::lines::{ArenaLines, LateScan, Scan};
use crate::machine_plays::{AddOn, BeginScan, Moment};
use crate::plays::AtFirst;
use crate::rule::Words;
use crate::scan_by_change::scan_by_change;
use crate::shape::Shape;
use crate::stand::Stand;
use partial_core::Core;
use partial_lines::Scanned;
use partial_words::announcement_size;
use std::marker::{Brand, PhantomData};

// Enters the current epoch if the port's epoch has ended, as the first steps of a call. The port's machine is a new
// one then.
fn settle_first(words: &Words, stand: &mut Stand, core: &mut Core)
    requires held { IsHeld words.now.table_id words.now.key stand.old }
    requires idle { IsIdle stand.old }
    requires rests { RestsUnmarked (port_at stand.old) core.old }
    requires spare { (port_at stand.old).port.over ≡ false }
    ensures held { IsHeld words.now.table_id words.now.key stand.new }
    ensures settled { EpochSettled true stand.old stand.new }
    ensures rests { RestsUnmarked (port_at stand.new) core.new }
    ensures spare { (port_at stand.new).port.over ≡ false }
    ensures steps { stand.new.seat.steps ≤ stand.old.seat.steps + 4 }
{
    if !look::<AtFirst>(words, stand) {
        enter(words, stand);
        core.clear_marks();
    }
}

/// Makes a scan whose double collect has failed: one that is announced; or one by a change of epoch, in a memory whose scans
/// don't announce themselves. `kept` is where such a scan keeps words.
///
/// # Errors
/// As those of [`change`]: the port stands where it stood, spent, and `into` is unchanged.
pub fn scan_further(
    words: &Words,
    stand: &mut Stand,
    core: &mut Core,
    spent: &mut bool,
    which: &[u32],
    kept: &mut [u64],
    into: &mut [u64],
) -> Result<Scanned, Refused>
    requires held { IsHeld words.now.table_id words.now.key stand.old }
    requires rests { RestsAt stand.old core.old spent.old }
    requires asked { AreComponentIndices core.old.sizes which.now }
    requires inside { AreInside words.now.key.sizes which.now }
    requires some { 0 < length which.now }
    requires room { length which.now ≤ length kept.old }
    requires lengths { length into.old ≡ length which.now }
    ensures held { IsHeld words.now.table_id words.now.key stand.new }
    ensures rests { RestsAt stand.new core.new spent.new }
    ensures scanned { IfOk result (λ q. HasNotedScan stand.old stand.new which.now into.new q.collects q.borrowed) }
    ensures refused { IfErr result (NotScanned stand.old stand.new) }
    ensures unchanged { IfErr result (λ _. into.new ≡ into.old) }
    ensures steps { stand.new.seat.steps ≤ stand.old.seat.steps + most_further words.now.key (length which.now) }
{
    if stand.shape.announces {
        scan_announced(words, stand, core, spent, which, into)
    } else {
        scan_by_change(words, stand, core, spent, which, kept, into)
    }
}

/// Makes a scan that is announced. Unless it took a view, `core` has the words that it collected last. A port that is spent
/// in its epoch changes the epoch first.
///
/// # Errors
/// As those of [`change`]: the port stands where it stood, spent, and `into` is unchanged.
pub fn scan_announced(
    words: &Words,
    stand: &mut Stand,
    core: &mut Core,
    spent: &mut bool,
    which: &[u32],
    into: &mut [u64],
) -> Result<Scanned, Refused>
    requires held { IsHeld words.now.table_id words.now.key stand.old }
    requires rests { RestsAt stand.old core.old spent.old }
    requires announces { words.now.key.announces ≡ true }
    requires asked { AreComponentIndices core.old.sizes which.now }
    requires some { 0 < length which.now }
    requires lengths { length into.old ≡ length which.now }
    ensures held { IsHeld words.now.table_id words.now.key stand.new }
    ensures rests { RestsAt stand.new core.new spent.new }
    ensures scanned { IfOk result (λ q. ScannedNamed stand.old stand.new which.now into.new
        q.collects q.borrowed core.new.rows.last) }
    ensures refused { IfErr result (NotScanned stand.old stand.new) }
    ensures unchanged { IfErr result (λ _. into.new ≡ into.old) }
    ensures steps { stand.new.seat.steps ≤ stand.old.seat.steps + (most_of_change words.now.key + most_of_scan words.now.key.sizes (length which.now)) }
{
    if *spent {
        return scan_spent(words, stand, core, spent, which, into);
    }
    Ok(scan(words, stand, core, spent, which, into))
}

// The same for a port that is spent in its epoch. It isn't put in line, so that a scan in the port's epoch pays nothing for
// it.
#[cold]
#[inline(never)]
fn scan_spent(
    words: &Words,
    stand: &mut Stand,
    core: &mut Core,
    spent: &mut bool,
    which: &[u32],
    into: &mut [u64],
) -> Result<Scanned, Refused>
    requires held { IsHeld words.now.table_id words.now.key stand.old }
    requires rests { RestsAt stand.old core.old spent.old }
    requires over { spent.old ≡ true }
    requires announces { words.now.key.announces ≡ true }
    requires asked { AreComponentIndices core.old.sizes which.now }
    requires some { 0 < length which.now }
    requires lengths { length into.old ≡ length which.now }
    ensures held { IsHeld words.now.table_id words.now.key stand.new }
    ensures rests { RestsAt stand.new core.new spent.new }
    ensures scanned { IfOk result (λ q. ScannedNamed stand.old stand.new which.now into.new
        q.collects q.borrowed core.new.rows.last) }
    ensures refused { IfErr result (NotScanned stand.old stand.new) }
    ensures unchanged { IfErr result (λ _. into.new ≡ into.old) }
    ensures steps { stand.new.seat.steps ≤ stand.old.seat.steps + (most_of_change words.now.key + most_of_scan words.now.key.sizes (length which.now)) }
{
    change::<AtFirst>(words, stand)?;
    core.clear_marks();
    Ok(make_scan::<LateScan>(words, stand, core, spent, which, into))
}

/// The public stamp of a record of that epoch whose view a scan has taken.
pub fn public_borrowed(epoch: u64, borrowed: Option<u64>) -> Option<u64>
    requires fits { IfSome borrowed (λ at. public_stamp epoch at < 18446744073709551616) }
    ensures { result ≡ option_map (public_stamp epoch) borrowed }
{
    match borrowed {
        Some(at) => Some(epoch * STAMPS + at),
        None => None,
    }
}

// Scans these components at once, and puts their values into `into`. The port is not spent in its epoch. `spent` says
// whether it is then. Returns how the scan was made.
fn scan(
    words: &Words,
    stand: &mut Stand,
    core: &mut Core,
    spent: &mut bool,
    which: &[u32],
    into: &mut [u64],
) -> Scanned
    requires held { IsHeld words.now.table_id words.now.key stand.old }
    requires idle { IsIdle stand.old }
    requires rests { RestsUnmarked (port_at stand.old) core.old }
    requires spare { (port_at stand.old).port.over ≡ false }
    requires announces { words.now.key.announces ≡ true }
    requires asked { AreComponentIndices core.old.sizes which.now }
    requires some { 0 < length which.now }
    requires lengths { length into.old ≡ length which.now }
    ensures held { IsHeld words.now.table_id words.now.key stand.new }
    ensures scanned { ScannedNamed stand.old stand.new which.now into.new
        result.collects result.borrowed core.new.rows.last }
    ensures rests { RestsUnmarked (port_at stand.new) core.new }
    ensures spent { (port_at stand.new).port.over ≡ spent.new }
    ensures steps { stand.new.seat.steps ≤ stand.old.seat.steps + (4 + most_of_scan words.now.key.sizes (length which.now)) }
{
    settle_first(words, stand, core);
    make_scan::<Scan>(words, stand, core, spent, which, into)
}

// Makes the scan where the port stands, in an epoch that was the current one during the call. `C` is the kind of call.
#[inline(always)]
fn make_scan<C>(
    words: &Words,
    stand: &mut Stand,
    core: &mut Core,
    spent: &mut bool,
    which: &[u32],
    into: &mut [u64],
) -> Scanned
    requires held { IsHeld words.now.table_id words.now.key stand.old }
    requires idle { IsIdle stand.old }
    requires rests { RestsUnmarked (port_at stand.old) core.old }
    requires spare { (port_at stand.old).port.over ≡ false }
    requires announces { words.now.key.announces ≡ true }
    requires asked { AreComponentIndices core.old.sizes which.now }
    requires some { 0 < length which.now }
    requires lengths { length into.old ≡ length which.now }
    requires fresh { (port_at stand.old).began.epoch ≤ stand.old.epoch }
    ensures held { IsHeld words.now.table_id words.now.key stand.new }
    ensures scanned { MadeNamed stand.old stand.new which.now into.new
        result.collects result.borrowed core.new.rows.last }
    ensures rests { RestsUnmarked (port_at stand.new) core.new }
    ensures spent { (port_at stand.new).port.over ≡ spent.new }
    ensures steps { stand.new.seat.steps ≤ stand.old.seat.steps + most_of_scan words.now.key.sizes (length which.now) }
{
    let at = begin_scan::<Brand>(words, stand, core, which);
    announce::<C>(words, stand, core, which, at);
    let slot = claim_slot(words, stand);
    let size = announcement_size(which.len() as u64);
    *spent = at + size > stand.shape.limit || is_last_slot(&stand.shape, slot);
    finish::<C>(words, stand, core, which, at, slot, into)
}

// Stores the announcement of a scan after its first step, the claim of that, which was answered with `at`.
#[inline(always)]
fn announce<C>(words: &Words, stand: &mut Stand, core: &Core, which: &[u32], at: u64)
    requires going { IsGoing words.now.table_id words.now.key stand.old }
    requires sizes { core.now.sizes ≡ words.now.key.sizes }
    requires machine { machine_at stand.old ≡ advance (scan_asked core.now which.now) at }
    ensures going { IsGoing words.now.table_id words.now.key stand.new }
    ensures leads { ComesTo stand.old stand.new }
    ensures machine { machine_at stand.new ≡ begin_joining (scan_asked core.now which.now) at }
{
    let size = announcement_size(which.len() as u64);
    let mut lines = ArenaLines::<C> {
        words,
        stand,
        kind: PhantomData,
    };
    let Ok(()) = partial_lines::announce(&mut lines, which, at, size) else {
        unreachable!()
    };
}

// Claims a slot, which is due in the call of the port, and returns its number.
#[inline(always)]
fn claim_slot(words: &Words, stand: &mut Stand) -> u64
    requires going { IsGoing words.now.table_id words.now.key stand.old }
    requires due { step_of (machine_at stand.old) ≡ Some (Add (slot_counter words.now.key.sizes) 1) }
    requires quiet { IsQuiet (machine_at stand.old).stage }
    ensures going { IsGoing words.now.table_id words.now.key stand.new }
    ensures leads { ComesTo stand.old stand.new }
    ensures machine { machine_at stand.new ≡ advance (machine_at stand.old) result }
    ensures over { (port_at stand.new).port.over ≡
        ((port_at stand.old).port.over || nat_lt (slot_limit (plan_of words.now.key)) (result + 1)) }
{
    let word = stand.base + u64::from(stand.shape.sizes.slot_counter());
    words.fetch_add::<AddOn>(&mut stand.seat, word as usize, 1)
}

// Whether the claim of this slot is its port's last one in the epoch: there is one slot more for each port.
#[inline(always)]
fn is_last_slot(shape: &Shape, slot: u64) -> bool
    ensures { result ≡ nat_lt (shape.now.sizes.slots - shape.now.ports) (slot + 1) }
{
    u64::from(shape.sizes.slots() - shape.ports) <= slot
}

// Ends a scan after the claim of its slot, with its announcement at `at`.
#[inline(always)]
fn finish<C>(
    words: &Words,
    stand: &mut Stand,
    core: &mut Core,
    which: &[u32],
    at: u64,
    slot: u64,
    into: &mut [u64],
) -> Scanned
    requires going { IsGoing words.now.table_id words.now.key stand.old }
    requires idle { core.old.stage ≡ Idle }
    requires sound { IsSound core.old }
    requires machine { machine_at stand.old ≡ advance (begin_joining (scan_asked core.old which.now) at) slot }
    requires lengths { length into.old ≡ length which.now }
    ensures going { IsGoing words.now.table_id words.now.key stand.new }
    ensures leads { ComesTo stand.old stand.new }
    ensures replies { reply_of (machine_at stand.new) ≡ Some (scan_reply (Ok result)) }
    ensures asked { (machine_at stand.new).asked ≡ which.now }
    ensures rows { core.new.rows ≡ (machine_at stand.new).rows }
    ensures rests { RestsLike (machine_at stand.new) core.new }
    ensures copied { into.new ≡ map (slice_index core.new.rows.values) which.now }
{
    let mut lines = ArenaLines::<C> {
        words,
        stand,
        kind: PhantomData,
    };
    let Ok(Ok(scanned)) = partial_lines::scan_claimed(&mut lines, core, which, at, slot, into)
    else {
        unreachable!()
    };
    scanned
}

// Makes the first step of the machine `G`, which scans these positions: the claim of its announcement.
#[inline(always)]
fn begin_scan<G: Moment>(words: &Words, stand: &mut Stand, core: &Core, which: &[u32]) -> u64
    requires held { IsHeld words.now.table_id words.now.key stand.old }
    requires moment { G.core ≡ scan_asked core.now which.now }
    requires begins { MayBegin G.core (port_at stand.old) }
    ensures going { IsGoing words.now.table_id words.now.key stand.new }
    ensures begun { ScanBegun G.core (length which.now) stand.old result stand.new }
    ensures steps { stand.new.seat.steps ≤ stand.old.seat.steps + 1 }
{
    let word = stand.base + u64::from(stand.shape.sizes.pool_counter());
    let size = announcement_size(which.len() as u64);
    words.fetch_add::<BeginScan<G>>(&mut stand.seat, word as usize, size)
}
