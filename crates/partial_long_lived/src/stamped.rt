//! Scans that return stamps.

ghost use Rattle.std.specs.Prelude.{ℕ, ◌≡◌, ◌+◌, ◌<◌, ◌≤◌, true, length, slice_index, is_some, IfErr, IfOk};
ghost use Rattle.partial_machine.specs.Sound.{AreComponentIndices};
ghost use Rattle.partial_epochs.specs.History.{stamp_limit};
ghost use Rattle.partial_epochs.specs.Layout.{unsealed};
ghost use Rattle.partial_epochs.specs.Ports.Entering.{Stands};
ghost use Rattle.partial_long_lived.specs.Bounds.{most_of_scans};
ghost use Rattle.partial_long_lived.specs.Inner.Held.{IsHeld, port_at};
ghost use Rattle.partial_long_lived.specs.Inner.Calls.{StaysAt};
ghost use Rattle.partial_long_lived.specs.Inner.DoubleCollect.{AreInside};
ghost use Rattle.partial_long_lived.specs.Inner.Rests.{NotScanned, RestsAt};
ghost use Rattle.partial_long_lived.specs.Inner.Stamped.{ArePublic, ScannedStamped};

use crate::arena::{SEAL, public_stamp};
use crate::double_collect::double_collect;
use crate::error::Refused;
use crate::rule::Words;
use crate::scan::scan_announced;
use crate::scan_by_change::scan_by_change;
use crate::stand::Stand;
use partial_core::Core;
use partial_lines::Scanned;

/// Makes a whole scan, by a double collect, or otherwise by one that is announced or by a change of epoch, and loads the
/// public stamps of its components into `stamps`, unless it took a view: then `stamps` is unchanged. `spent` says whether
/// the port is spent in its epoch, before and afterwards. Returns how the scan was made. `kept` is where a scan keeps words.
///
/// # Errors
/// As those of [`scan_announced`]: the port stands where it stood, spent, and `into` and `stamps` are unchanged.
pub fn scan_stamped(
    words: &Words,
    stand: &mut Stand,
    core: &mut Core,
    spent: &mut bool,
    which: &[u32],
    kept: &mut [u64],
    into: &mut [u64],
    stamps: &mut [u64],
) -> Result<Scanned, Refused>
    requires held { IsHeld words.now.table_id words.now.key stand.old }
    requires rests { RestsAt stand.old core.old spent.old }
    requires asked { AreComponentIndices core.old.sizes which.now }
    requires some { 0 < length which.now }
    requires room { length which.now ≤ length kept.old }
    requires values { length into.old ≡ length which.now }
    requires stamps { length stamps.old ≡ length which.now }
    ensures held { IsHeld words.now.table_id words.now.key stand.new }
    ensures rests { RestsAt stand.new core.new spent.new }
    ensures scanned { IfOk result (λ q. ScannedStamped stand.old stand.new which.now into.new
        q.collects q.borrowed stamps.new) }
    ensures helped { IfOk result (λ q. is_some q.borrowed ≡ true → stamps.new ≡ stamps.old) }
    ensures refused { IfErr result (NotScanned stand.old stand.new) }
    ensures unchanged { IfErr result (λ _. (into.new ≡ into.old) × (stamps.new ≡ stamps.old)) }
    ensures steps { stand.new.seat.steps ≤ stand.old.seat.steps + (length which.now + most_of_scans words.now.key (length which.now)) }
{
    if double_collect(words, stand, which, kept, into) {
        load_stamps(words, stand, which, kept, stamps);
        return Ok(Scanned {
            collects: 2,
            borrowed: None,
        });
    }
    if stand.shape.announces {
        let scanned = scan_announced(words, stand, core, spent, which, into)?;
        if scanned.borrowed.is_none() {
            load_stamps(words, stand, which, core.last_loaded(), stamps);
        }
        return Ok(scanned);
    }
    let scanned = scan_by_change(words, stand, core, spent, which, kept, into)?;
    load_stamps(words, stand, which, kept, stamps);
    Ok(scanned)
}

// Loads the public stamps of the records that these component words name.
fn load_stamps(words: &Words, stand: &mut Stand, which: &[u32], kept: &[u64], stamps: &mut [u64])
    requires held { IsHeld words.now.table_id words.now.key stand.old }
    requires stands { (port_at stand.old).port.control.entering ≡ Stands }
    requires inside { AreInside words.now.key.sizes which.now }
    requires room { length which.now ≤ length kept.now }
    requires lengths { length stamps.old ≡ length which.now }
    requires small { (k : ℕ) → k < length which.now → unsealed (slice_index kept.now k) < stamp_limit }
    ensures held { IsHeld words.now.table_id words.now.key stand.new }
    ensures kept { StaysAt stand.old stand.new }
    ensures same { port_at stand.new ≡ port_at stand.old }
    ensures stamps { ArePublic (port_at stand.old) which.now kept.now stamps.new (length which.now) }
    ensures lengths { length stamps.new ≡ length stamps.old }
    ensures steps { stand.new.seat.steps ≤ stand.old.seat.steps + length which.now }
{
    let base = stand.base;
    let own = stand.shape.own;
    for k in 0..which.len() {
        stamps[k] = public_stamp(words, stand, base, own, which[k], kept[k] % SEAL);
    }
}
