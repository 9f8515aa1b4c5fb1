//! Scans by a double collect: two equal collects of the components, and no announcement.

ghost use Rattle.std.specs.Prelude.{ℕ, ◌≡◌, ◌+◌, ◌-◌, ◌*◌, ◌<◌, ◌≤◌, true, false, length, slice_index, IfSome, None};
ghost use Rattle.partial_words.specs.Layout.{total};
ghost use Rattle.partial_words.specs.Record.{value_word};
ghost use Rattle.partial_epochs.specs.Layout.{unsealed};
ghost use Rattle.partial_epochs.specs.Ports.Entering.{Stands};
ghost use Rattle.partial_long_lived.specs.Ports.{seen_in};
ghost use Rattle.partial_long_lived.specs.Inner.Held.{IsHeld, port_at};
ghost use Rattle.partial_long_lived.specs.Inner.Calls.{IsIdle, StaysAt};
ghost use Rattle.partial_long_lived.specs.Inner.DoubleCollect.{AreCollected, AreInside, HadValue, HadValues, HasBegunCollect, HasGlanced, HasStayed, MayNoteScan, NotesScan};
ghost use Rattle.partial_long_lived.specs.Inner.Scans.{HasNotedScan};
ghost use Rattle.partial_long_lived.specs.Inner.Stamped.{MadeNamed, ScannedNamed};
ghost use Rattle.partial_long_lived.specs.Inner.Loads.{SeatSees};
ghost use Rattle.partial_long_lived.specs.Inner.Loads.Wish.{Glances};

use crate::arena::{SEAL, recall, see};
use crate::enter::look;
use crate::plays::{AtFirst, Later, NoteScan, ToGlance, Together};
use crate::rule::Words;
use crate::stand::Stand;
use partial_words::value_word;
use std::marker::Brand;

// How many positions a loop takes at once: a compiler unrolls the loop over these.
const AT_ONCE: usize = 4;

/// Tries to scan these positions by a double collect, and says whether it has. `into` has their values then, and `kept`
/// the words that both collects have found.
///
/// There is no scan when the two collects differ, or when the first component is sealed and the port's epoch has ended.
/// Then nothing is noted, and `into` is unchanged.
#[inline(always)]
pub fn double_collect(
    words: &Words,
    stand: &mut Stand,
    which: &[u32],
    kept: &mut [u64],
    into: &mut [u64],
) -> bool
    requires held { IsHeld words.now.table_id words.now.key stand.old }
    requires idle { IsIdle stand.old }
    requires inside { AreInside words.now.key.sizes which.now }
    requires some { 0 < length which.now }
    requires room { length which.now ≤ length kept.old }
    requires lengths { length into.old ≡ length which.now }
    ensures held { IsHeld words.now.table_id words.now.key stand.new }
    ensures stayed { HasStayed stand.old stand.new }
    ensures scanned { result ≡ true → ScannedNamed stand.old stand.new which.now into.new 2 None kept.new }
    ensures notes { result ≡ false → (port_at stand.new).notes ≡ (port_at stand.old).notes }
    ensures unchanged { result ≡ false → into.new ≡ into.old }
    ensures room { length kept.new ≡ length kept.old }
    ensures steps { stand.new.seat.steps ≤ stand.old.seat.steps + (3 * length which.now + 1) }
{
    let base = stand.base;
    let Some(found) = begin(words, stand, base, which[0]) else {
        return false;
    };
    kept[0] = found;
    collect(words, stand, base, which, kept);
    confirm::<Brand>(words, stand, base, which, kept, into)
}

/// The same where nobody asks for the words. For four positions it is made with arrays: a compiler unrolls these loops, and
/// keeps words and positions in registers.
#[inline(always)]
pub fn scan_at_once(
    words: &Words,
    stand: &mut Stand,
    which: &[u32],
    kept: &mut [u64],
    into: &mut [u64],
) -> bool
    requires held { IsHeld words.now.table_id words.now.key stand.old }
    requires idle { IsIdle stand.old }
    requires inside { AreInside words.now.key.sizes which.now }
    requires some { 0 < length which.now }
    requires room { length which.now ≤ length kept.old }
    requires lengths { length into.old ≡ length which.now }
    ensures held { IsHeld words.now.table_id words.now.key stand.new }
    ensures stayed { HasStayed stand.old stand.new }
    ensures scanned { result ≡ true → HasNotedScan stand.old stand.new which.now into.new 2 None }
    ensures notes { result ≡ false → (port_at stand.new).notes ≡ (port_at stand.old).notes }
    ensures unchanged { result ≡ false → into.new ≡ into.old }
    ensures steps { stand.new.seat.steps ≤ stand.old.seat.steps + (3 * length which.now + 1) }
{
    match <[u32; 4]>::try_from(which) {
        Ok(four) => double_collect(words, stand, &four, &mut [0; 4], into),
        Err(_) => double_collect(words, stand, which, kept, into),
    }
}

// Makes the first step of the scan, the load of its first component word, and returns the word; or `None` when the
// component is sealed and the port's epoch has ended. Otherwise the epoch was the current one during the call. `base`, here
// and below, is where the port's arena begins: it is taken from the port once for all loads of a scan, since after an
// atomic load a compiler takes it from there anew.
#[inline(always)]
fn begin(words: &Words, stand: &mut Stand, base: u64, component: u32) -> Option<u64>
    requires held { IsHeld words.now.table_id words.now.key stand.old }
    requires base { base ≡ stand.old.base }
    requires idle { IsIdle stand.old }
    requires inside { component < words.now.key.sizes.m }
    ensures held { IsHeld words.now.table_id words.now.key stand.new }
    ensures stayed { HasStayed stand.old stand.new }
    ensures base { stand.new.base ≡ stand.old.base }
    ensures begun { IfSome result (λ found. HasBegunCollect stand.old stand.new component found) }
    ensures notes { (port_at stand.new).notes ≡ (port_at stand.old).notes }
    ensures steps { stand.new.seat.steps ≤ stand.old.seat.steps + 2 }
{
    let found = see::<AtFirst, ToGlance>(words, stand, base, component);
    if found < SEAL {
        return Some(found);
    }
    if look::<Later>(words, stand) {
        Some(found)
    } else {
        None
    }
}

// Collects the words of all positions but the first one, which is kept already.
#[inline(always)]
fn collect(words: &Words, stand: &mut Stand, base: u64, which: &[u32], kept: &mut [u64])
    requires held { IsHeld words.now.table_id words.now.key stand.old }
    requires base { base ≡ stand.old.base }
    requires idle { IsIdle stand.old }
    requires inside { AreInside words.now.key.sizes which.now }
    requires some { 0 < length which.now }
    requires room { length which.now ≤ length kept.old }
    requires first { AreCollected (port_at stand.old) 0 (length (port_at stand.old).port.part.seen)
        which.now kept.old 1 }
    ensures held { IsHeld words.now.table_id words.now.key stand.new }
    ensures glanced { HasGlanced stand.old stand.new }
    ensures collected { AreCollected (port_at stand.new) 0 (length (port_at stand.new).port.part.seen)
        which.now kept.new (length which.now) }
    ensures room { length kept.new ≡ length kept.old }
    ensures steps { stand.new.seat.steps ≤ stand.old.seat.steps + (length which.now - 1) }
{
    let mut k = 1;
    while which.len() - k >= AT_ONCE {
        collect_some(words, stand, base, which, kept, k, AT_ONCE);
        k += AT_ONCE;
    }
    collect_some(words, stand, base, which, kept, k, which.len() - k);
}

// Collects the words of so many positions from `from` on.
#[inline(always)]
fn collect_some(
    words: &Words,
    stand: &mut Stand,
    base: u64,
    which: &[u32],
    kept: &mut [u64],
    from: usize,
    many: usize,
)
    requires held { IsHeld words.now.table_id words.now.key stand.old }
    requires base { base ≡ stand.old.base }
    requires idle { IsIdle stand.old }
    requires inside { AreInside words.now.key.sizes which.now }
    requires within { from + many ≤ length which.now }
    requires room { length which.now ≤ length kept.old }
    requires before { AreCollected (port_at stand.old) 0 (length (port_at stand.old).port.part.seen)
        which.now kept.old from }
    ensures held { IsHeld words.now.table_id words.now.key stand.new }
    ensures glanced { HasGlanced stand.old stand.new }
    ensures collected { AreCollected (port_at stand.new) 0 (length (port_at stand.new).port.part.seen)
        which.now kept.new (from + many) }
    ensures room { length kept.new ≡ length kept.old }
    ensures steps { stand.new.seat.steps ≤ stand.old.seat.steps + many }
{
    for k in 0..many {
        kept[from + k] = see::<Later, ToGlance>(words, stand, base, which[from + k]);
    }
}

// Notes the scan when a second collect finds the words that are kept, and puts the values of their records into `into`.
// `G` is what it notes: these components, after all that the port has seen as the second collect begins.
#[inline(always)]
fn confirm<G: Together>(
    words: &Words,
    stand: &mut Stand,
    base: u64,
    which: &[u32],
    kept: &[u64],
    into: &mut [u64],
) -> bool
    requires held { IsHeld words.now.table_id words.now.key stand.old }
    requires base { base ≡ stand.old.base }
    requires idle { IsIdle stand.old }
    requires inside { AreInside words.now.key.sizes which.now }
    requires some { 0 < length which.now }
    requires room { length which.now ≤ length kept.now }
    requires lengths { length into.old ≡ length which.now }
    requires which { G.which ≡ which.now }
    requires entries { G.entries ≡ length (port_at stand.old).port.part.seen }
    requires collected { AreCollected (port_at stand.old) 0 (length (port_at stand.old).port.part.seen)
        which.now kept.now (length which.now) }
    requires time { (port_at stand.old).began.length ≤ length (seen_in (port_at stand.old).port) }
    ensures held { IsHeld words.now.table_id words.now.key stand.new }
    ensures stayed { HasStayed stand.old stand.new }
    ensures scanned { result ≡ true → MadeNamed stand.old stand.new which.now into.new 2 None kept.now }
    ensures notes { result ≡ false → (port_at stand.new).notes ≡ (port_at stand.old).notes }
    ensures unchanged { result ≡ false → into.new ≡ into.old }
    ensures steps { stand.new.seat.steps ≤ stand.old.seat.steps + 2 * length which.now }
{
    if !collects_again(words, stand, base, which, kept) {
        return false;
    }
    let last = which.len() - 1;
    load_values(words, stand, base, which, kept, into);
    into[last] = load_noting::<G>(words, stand, base, kept[last]);
    true
}

// Collects the words of the positions again, and says whether they are the kept ones. It may end at one that isn't.
#[inline(always)]
fn collects_again(words: &Words, stand: &mut Stand, base: u64, which: &[u32], kept: &[u64]) -> bool
    requires held { IsHeld words.now.table_id words.now.key stand.old }
    requires base { base ≡ stand.old.base }
    requires idle { IsIdle stand.old }
    requires inside { AreInside words.now.key.sizes which.now }
    requires room { length which.now ≤ length kept.now }
    ensures held { IsHeld words.now.table_id words.now.key stand.new }
    ensures glanced { HasGlanced stand.old stand.new }
    ensures collected { result ≡ true → AreCollected (port_at stand.new) (length (port_at stand.old).port.part.seen)
        (length (port_at stand.new).port.part.seen) which.now kept.now (length which.now) }
    ensures steps { stand.new.seat.steps ≤ stand.old.seat.steps + length which.now }
{
    let mut k = 0;
    while which.len() - k >= AT_ONCE {
        if !collects_some_again(words, stand, base, which, kept, k, AT_ONCE) {
            return false;
        }
        k += AT_ONCE;
    }
    collects_some_again(words, stand, base, which, kept, k, which.len() - k)
}

// Collects the words of so many positions from `from` on again, up to the first one that isn't the kept one, and says
// whether there is none.
#[inline(always)]
fn collects_some_again(
    words: &Words,
    stand: &mut Stand,
    base: u64,
    which: &[u32],
    kept: &[u64],
    from: usize,
    many: usize,
) -> bool
    requires held { IsHeld words.now.table_id words.now.key stand.old }
    requires base { base ≡ stand.old.base }
    requires idle { IsIdle stand.old }
    requires inside { AreInside words.now.key.sizes which.now }
    requires within { from + many ≤ length which.now }
    requires room { length which.now ≤ length kept.now }
    ensures held { IsHeld words.now.table_id words.now.key stand.new }
    ensures glanced { HasGlanced stand.old stand.new }
    ensures collected { result ≡ true → (low : ℕ) → low ≤ length (port_at stand.old).port.part.seen →
        AreCollected (port_at stand.old) low (length (port_at stand.old).port.part.seen) which.now kept.now from →
        AreCollected (port_at stand.new) low (length (port_at stand.new).port.part.seen)
        which.now kept.now (from + many) }
    ensures steps { stand.new.seat.steps ≤ stand.old.seat.steps + many }
{
    for k in 0..many {
        if see::<Later, ToGlance>(words, stand, base, which[from + k]) != kept[from + k] {
            return false;
        }
    }
    true
}

/// Loads the values of the records that the kept words name, of all positions but the last one.
#[inline(always)]
pub fn load_values(
    words: &Words,
    stand: &mut Stand,
    base: u64,
    which: &[u32],
    kept: &[u64],
    into: &mut [u64],
)
    requires held { IsHeld words.now.table_id words.now.key stand.old }
    requires base { base ≡ stand.old.base }
    requires stands { (port_at stand.old).port.control.entering ≡ Stands }
    requires inside { AreInside words.now.key.sizes which.now }
    requires some { 0 < length which.now }
    requires room { length which.now ≤ length kept.now }
    requires lengths { length into.old ≡ length which.now }
    requires within { (k : ℕ) → k < length which.now →
        value_word (unsealed (slice_index kept.now k)) < total words.now.key.sizes }
    ensures held { IsHeld words.now.table_id words.now.key stand.new }
    ensures kept { StaysAt stand.old stand.new }
    ensures same { port_at stand.new ≡ port_at stand.old }
    ensures values { HadValues (port_at stand.old) which.now kept.now into.new (length which.now - 1) }
    ensures lengths { length into.new ≡ length into.old }
    ensures steps { stand.new.seat.steps ≤ stand.old.seat.steps + (length which.now - 1) }
{
    let last = which.len() - 1;
    let mut k = 0;
    while last - k >= AT_ONCE {
        load_some(words, stand, base, which, kept, into, k, AT_ONCE);
        k += AT_ONCE;
    }
    load_some(words, stand, base, which, kept, into, k, last - k);
}

// Loads the values of so many positions from `from` on.
#[inline(always)]
fn load_some(
    words: &Words,
    stand: &mut Stand,
    base: u64,
    which: &[u32],
    kept: &[u64],
    into: &mut [u64],
    from: usize,
    many: usize,
)
    requires held { IsHeld words.now.table_id words.now.key stand.old }
    requires base { base ≡ stand.old.base }
    requires stands { (port_at stand.old).port.control.entering ≡ Stands }
    requires inside { AreInside words.now.key.sizes which.now }
    requires some { from + many ≤ length which.now }
    requires room { length which.now ≤ length kept.now }
    requires lengths { length into.old ≡ length which.now }
    requires within { (k : ℕ) → k < length which.now →
        value_word (unsealed (slice_index kept.now k)) < total words.now.key.sizes }
    requires before { HadValues (port_at stand.old) which.now kept.now into.old from }
    ensures held { IsHeld words.now.table_id words.now.key stand.new }
    ensures kept { StaysAt stand.old stand.new }
    ensures same { port_at stand.new ≡ port_at stand.old }
    ensures values { HadValues (port_at stand.old) which.now kept.now into.new (from + many) }
    ensures lengths { length into.new ≡ length into.old }
    ensures steps { stand.new.seat.steps ≤ stand.old.seat.steps + many }
{
    for k in 0..many {
        into[from + k] = load_kept(words, stand, base, kept[from + k]);
    }
}

// Loads the value of the record that this component word names.
#[inline(always)]
fn load_kept(words: &Words, stand: &mut Stand, base: u64, word: u64) -> u64
    requires held { IsHeld words.now.table_id words.now.key stand.old }
    requires base { base ≡ stand.old.base }
    requires stands { (port_at stand.old).port.control.entering ≡ Stands }
    requires within { value_word (unsealed word) < total words.now.key.sizes }
    ensures held { IsHeld words.now.table_id words.now.key stand.new }
    ensures kept { StaysAt stand.old stand.new }
    ensures same { port_at stand.new ≡ port_at stand.old }
    ensures value { (j : ℕ) → j < words.now.key.sizes.m → HadValue (port_at stand.old) j word result }
    ensures steps { stand.new.seat.steps ≤ stand.old.seat.steps + 1 }
{
    let at = base + value_word(word % SEAL);
    recall(words, stand, at)
}

/// Loads the value of the record that this component word names, and by this load the port notes the scan `G`.
#[inline(always)]
pub fn load_noting<G: Together>(words: &Words, stand: &mut Stand, base: u64, word: u64) -> u64
    requires held { IsHeld words.now.table_id words.now.key stand.old }
    requires base { base ≡ stand.old.base }
    requires stands { (port_at stand.old).port.control.entering ≡ Stands }
    requires within { value_word (unsealed word) < total words.now.key.sizes }
    requires may { MayNoteScan G.which G.entries (port_at stand.old) }
    ensures held { IsHeld words.now.table_id words.now.key stand.new }
    ensures kept { StaysAt stand.old stand.new }
    ensures value { (j : ℕ) → j < words.now.key.sizes.m → HadValue (port_at stand.old) j word result }
    ensures noted { (i : ℕ) × NotesScan G.which G.entries i (port_at stand.old) result (port_at stand.new) }
    ensures steps { stand.new.seat.steps ≤ stand.old.seat.steps + 1 }
{
    let at = base + value_word(word % SEAL);
    words.load::<NoteScan<G>>(&mut stand.seat, at as usize)
}
