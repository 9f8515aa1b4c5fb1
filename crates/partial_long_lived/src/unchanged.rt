//! Whether components still have the stamps that they had.

ghost use Rattle.std.specs.Prelude.{◌≡◌, ◌+◌, ◌*◌, ◌<◌, ◌≤◌, true, false, length};
ghost use Rattle.partial_long_lived.specs.Inner.Held.{IsHeld, port_at};
ghost use Rattle.partial_long_lived.specs.Inner.Calls.{EpochSettled, IsIdle};
ghost use Rattle.partial_long_lived.specs.Inner.DoubleCollect.{HasGlanced};
ghost use Rattle.partial_long_lived.specs.Inner.Unchanged.{HadAnother, HadStamps, HasStamp};

use crate::arena::{SEAL, public_stamp, see};
use crate::enter::settle;
use crate::plays::{AtFirst, Later, ToGlance};
use crate::rule::Words;
use crate::stand::Stand;

/// Says whether each of these components has this public stamp. The port enters the current epoch first.
pub fn unchanged(words: &Words, stand: &mut Stand, which: &[u32], stamps: &[u64]) -> bool
    requires held { IsHeld words.now.table_id words.now.key stand.old }
    requires idle { IsIdle stand.old }
    requires lengths { length stamps.now ≡ length which.now }
    ensures held { IsHeld words.now.table_id words.now.key stand.new }
    ensures settled { EpochSettled true stand.old stand.new }
    ensures had { result ≡ true → HadStamps (port_at stand.new) which.now stamps.now (length which.now) }
    ensures another { result ≡ false → HadAnother (port_at stand.new) which.now stamps.now }
    ensures steps { stand.new.seat.steps ≤ stand.old.seat.steps + (4 + 2 * length which.now) }
{
    settle::<AtFirst>(words, stand);
    for k in 0..which.len() {
        if which[k] >= stand.shape.sizes.m() {
            return false;
        }
        if stamp_now(words, stand, which[k]) != stamps[k] {
            return false;
        }
    }
    true
}

// Loads the public stamp of a component, in an epoch that was the current one during the call.
fn stamp_now(words: &Words, stand: &mut Stand, component: u32) -> u64
    requires held { IsHeld words.now.table_id words.now.key stand.old }
    requires idle { IsIdle stand.old }
    requires inside { component < words.now.key.sizes.m }
    requires fresh { (port_at stand.old).began.epoch ≤ stand.old.epoch }
    ensures held { IsHeld words.now.table_id words.now.key stand.new }
    ensures glanced { HasGlanced stand.old stand.new }
    ensures stamp { HasStamp (port_at stand.new) component result }
    ensures steps { stand.new.seat.steps ≤ stand.old.seat.steps + 2 }
{
    let base = stand.base;
    let own = stand.shape.own;
    let found = see::<Later, ToGlance>(words, stand, base, component);
    public_stamp(words, stand, base, own, component, found % SEAL)
}
