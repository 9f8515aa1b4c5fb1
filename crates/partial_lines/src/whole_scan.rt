//! A scan in straight lines, after its first step. Its embedded scan is made by its own machine, in loops.

ghost use Rattle.std.specs.Prelude.{ℕ, ◌≡◌, ◌<◌, ◌+◌, ◌^◌, length, map, slice_index, false, Ok, Some, IfSome, IfNone, IfOk, IfErr, OnOk};
ghost use Rattle.partial_words.specs.Announcement.{announcement_size};
ghost use Rattle.partial_machine.specs.declared.stage.Stage.TheVariants.{Idle, StoringAnnouncement, Scanning};
ghost use Rattle.partial_machine.specs.Machine.{advance, at_stage, begin_joining, reply_of};
ghost use Rattle.partial_machine.specs.Lines.{scan_joined, not_joined, scan_asked, scan_begun};
ghost use Rattle.partial_machine.specs.Possible.{IsPossible};
ghost use Rattle.partial_machine.specs.Sound.{IsSound};
ghost use Rattle.partial_lines.specs.Lines.{announcing_scan};
ghost use Rattle.partial_lines.specs.Replies.{RestsLike, scan_reply};

use crate::embedded::scan_asked;
use crate::makes::Makes;
use partial_core::Core;
use partial_model::Refused;
use partial_words::{Sizes, Step, announcement_block_word, announcement_size};

/// How a scan was made.
#[derive(Clone, Copy, Debug, PartialEq, Eq)]
pub struct Scanned {
    /// How many collects it made: 0 for a scan of no position, otherwise 2 to r + 2 for r positions.
    pub collects: u32,
    /// The stamp of the update whose view the scan took, if it was helped.
    pub borrowed: Option<u64>,
}

/// Makes a scan of these positions after its first step, the claim of its announcement, which was answered
/// with `at`. `into` has the values then. They are copied before the port leaves the active set: code after a
/// sequentially consistent store waits for the store.
///
/// # Errors
/// [`Refused::PoolSpent`] when the announcement lies past the end of the pool, and [`Refused::SlotsSpent`] when
/// no slot is left for it: the port is marked, and `into` is unchanged. The outer one is [`Makes::Break`], when
/// `lines` break the call off: `into` is unchanged, or has the values.
#[inline(always)]
pub fn scan<M: Makes>(
    lines: &mut M,
    core: &mut Core,
    which: &[u32],
    at: u64,
    into: &mut [u64],
) -> Result<Result<Scanned, Refused>, M::Break>
    requires goes { M.goes lines.old }
    requires idle { core.old.stage ≡ Idle }
    requires sound { IsSound core.old }
    requires possible { IsPossible (scan_asked core.old which.now) at }
    requires machine { M.machine lines.old ≡ advance (scan_asked core.old which.now) at }
    requires lengths { length into.old ≡ length which.now }
    ensures goes { M.goes lines.new }
    ensures leads { M.leads lines.old lines.new }
    ensures replies { IfOk result (λ made. reply_of (M.machine lines.new) ≡ Some (scan_reply made)) }
    ensures asked { OnOk result ((M.machine lines.new).asked ≡ which.now) }
    ensures rows { OnOk result (core.new.rows ≡ (M.machine lines.new).rows) }
    ensures rests { OnOk result (RestsLike (M.machine lines.new) core.new) }
    ensures copied { IfOk result (λ made. IfOk made (λ _.
        into.new ≡ map (slice_index core.new.rows.values) which.now)) }
    ensures unchanged { IfOk result (λ made. IfErr made (λ _. into.new ≡ into.old)) }
{
    let sizes = core.sizes();
    let size = announcement_size(which.len() as u64);
    if at + size > u64::from(sizes.pool_end()) {
        core.mark_pool();
        return Ok(Err(Refused::PoolSpent));
    }
    announce(lines, which, at, size)?;
    let found = lines.make(Step::Add(sizes.slot_counter(), 1))?;
    scan_claimed(lines, core, which, at, found, into)
}

/// Makes a scan of these positions after the claim of its slot, which was answered with `found`. Its announcement is
/// stored at `at`.
///
/// # Errors
/// As those of [`scan`], but that the pool has had room.
#[inline(always)]
pub fn scan_claimed<M: Makes>(
    lines: &mut M,
    core: &mut Core,
    which: &[u32],
    at: u64,
    found: u64,
    into: &mut [u64],
) -> Result<Result<Scanned, Refused>, M::Break>
    requires goes { M.goes lines.old }
    requires idle { core.old.stage ≡ Idle }
    requires sound { IsSound core.old }
    requires machine { M.machine lines.old ≡ advance (begin_joining (scan_asked core.old which.now) at) found }
    requires lengths { length into.old ≡ length which.now }
    ensures goes { M.goes lines.new }
    ensures leads { M.leads lines.old lines.new }
    ensures replies { IfOk result (λ made. reply_of (M.machine lines.new) ≡ Some (scan_reply made)) }
    ensures asked { OnOk result ((M.machine lines.new).asked ≡ which.now) }
    ensures rows { OnOk result (core.new.rows ≡ (M.machine lines.new).rows) }
    ensures rests { OnOk result (RestsLike (M.machine lines.new) core.new) }
    ensures copied { IfOk result (λ made. IfOk made (λ _.
        into.new ≡ map (slice_index core.new.rows.values) which.now)) }
    ensures unchanged { IfOk result (λ made. IfErr made (λ _. into.new ≡ into.old)) }
{
    let Some(slot) = join(lines, core, which, at, found)? else {
        core.mark_slots();
        return Ok(Err(Refused::SlotsSpent));
    };
    Ok(Ok(scan_joined(lines, core, which, slot, into)?))
}

// Makes the embedded scan of a port that is in the active set at this slot, copies its values, and leaves.
#[inline(always)]
fn scan_joined<M: Makes>(
    lines: &mut M,
    core: &mut Core,
    which: &[u32],
    slot: u32,
    into: &mut [u64],
) -> Result<Scanned, M::Break>
    requires goes { M.goes lines.old }
    requires idle { core.old.stage ≡ Idle }
    requires sound { IsSound core.old }
    requires slot { slot < core.old.sizes.slots }
    requires machine { (at : ℕ) × (M.machine lines.old ≡
        at_stage (scan_begun (scan_joined (scan_asked core.old which.now) at slot) false) Scanning) }
    requires lengths { length into.old ≡ length which.now }
    ensures goes { M.goes lines.new }
    ensures leads { M.leads lines.old lines.new }
    ensures replies { IfOk result (λ made. reply_of (M.machine lines.new) ≡ Some (scan_reply (Ok made))) }
    ensures asked { OnOk result ((M.machine lines.new).asked ≡ which.now) }
    ensures rows { OnOk result (core.new.rows ≡ (M.machine lines.new).rows) }
    ensures rests { OnOk result (RestsLike (M.machine lines.new) core.new) }
    ensures copied { OnOk result (into.new ≡ map (slice_index core.new.rows.values) which.now) }
{
    let embedded = scan_asked(lines, core, which)?;
    core.copy_values(which, into);
    lines.make(Step::Store(core.sizes().slot_word(slot), 1))?;
    Ok(Scanned {
        collects: embedded.collects(),
        borrowed: embedded.borrowed(),
    })
}

/// Stores the announcement of these positions, of `size` words, in the block that begins at word `at`. Then the claim of a
/// slot is due. It is broken off as [`scan`] is.
#[inline(always)]
pub fn announce<M: Makes>(lines: &mut M, which: &[u32], at: u64, size: u64) -> Result<(), M::Break>
    requires goes { M.goes lines.old }
    requires asked { (M.machine lines.old).asked ≡ which.now }
    requires stage { (M.machine lines.old).stage ≡ StoringAnnouncement at 0 }
    requires size { size ≡ announcement_size (length which.now) }
    requires fits { at + size < 2 ^ 32 }
    ensures goes { M.goes lines.new }
    ensures leads { M.leads lines.old lines.new }
    ensures machine { OnOk result (M.machine lines.new ≡ begin_joining (M.machine lines.old) at) }
{
    for k in 0..size {
        store_index(lines, which, at, k)?;
    }
    Ok(())
}

// Stores word `k` of the announcement of these positions, whose block begins at word `at`.
#[inline(always)]
fn store_index<M: Makes>(lines: &mut M, which: &[u32], at: u64, k: u64) -> Result<(), M::Break>
    requires goes { M.goes lines.old }
    requires asked { (M.machine lines.old).asked ≡ which.now }
    requires stage { (M.machine lines.old).stage ≡ StoringAnnouncement at k }
    requires more { k < announcement_size (length which.now) }
    requires fits { at + k < 2 ^ 32 }
    ensures goes { M.goes lines.new }
    ensures leads { M.leads lines.old lines.new }
    ensures machine { OnOk result (M.machine lines.new ≡ announcing_scan (M.machine lines.old) at (k + 1)) }
{
    let word = announcement_block_word(which, k as usize);
    lines.make(Step::Store((at + k) as u32, word))?;
    Ok(())
}

// Joins the active set with the announcement at word `at`, after the claim of a slot, which was answered with `found`.
// Returns the slot, or `None` when no slot is left.
#[inline(always)]
fn join<M: Makes>(
    lines: &mut M,
    core: &Core,
    which: &[u32],
    at: u64,
    found: u64,
) -> Result<Option<u32>, M::Break>
    requires goes { M.goes lines.old }
    requires machine { M.machine lines.old ≡ advance (begin_joining (scan_asked core.now which.now) at) found }
    ensures goes { M.goes lines.new }
    ensures leads { M.leads lines.old lines.new }
    ensures slot { IfOk result (λ joined. IfSome joined (λ slot. slot < core.now.sizes.slots)) }
    ensures joined { IfOk result (λ joined. IfSome joined (λ slot.
        M.machine lines.new ≡ at_stage (scan_begun (scan_joined (scan_asked core.now which.now) at slot) false) Scanning)) }
    ensures spent { IfOk result (λ joined. IfNone joined (
        M.machine lines.new ≡ not_joined (scan_asked core.now which.now) at)) }
{
    let sizes = core.sizes();
    if found >= u64::from(sizes.slots()) {
        return Ok(None);
    }
    let slot = found as u32;
    lines.make(Step::Store(sizes.slot_word(slot), at))?;
    Ok(Some(slot))
}
