//! What the next epoch begins with: the last value and the last stamp of a component.

ghost use Rattle.std.specs.Prelude.{◌≡◌, ◌+◌, ◌<◌, ◌≤◌, Some};
ghost use Rattle.partial_epochs.specs.Ports.Entering.{Stands};
ghost use Rattle.partial_long_lived.specs.Inner.Held.{IsHeld, port_at};
ghost use Rattle.partial_long_lived.specs.Inner.Calls.{HasLoadedRecord};
ghost use Rattle.partial_long_lived.specs.Inner.Changing.{HasControl, FoundStamp, FoundValue, HasFound, HasPassed, Stays};

use crate::arena::{SEAL, load_value, public_stamp, see};
use crate::plays::{Later, ToFind};
use crate::rule::Words;
use crate::stand::Stand;

/// The last value of a component, which is sealed.
pub fn find_value(words: &Words, stand: &mut Stand, component: u32) -> u64
    requires held { IsHeld words.now.table_id words.now.key stand.old }
    requires stands { (port_at stand.old).port.control.entering ≡ Stands }
    requires inside { component < words.now.key.sizes.m }
    requires sealed { words.now.key.sizes.m ≤ (port_at stand.old).port.passed }
    ensures held { IsHeld words.now.table_id words.now.key stand.new }
    ensures stays { Stays stand.old stand.new }
    ensures passed { HasPassed stand.old stand.new }
    ensures control { HasControl stand.old stand.new }
    ensures found { FoundValue stand.new component result }
    ensures steps { stand.new.seat.steps ≤ stand.old.seat.steps + 2 }
{
    let at = find(words, stand, component);
    let base = stand.base;
    load_value(words, stand, base, component, at)
}

/// The last public stamp of a component, which is sealed.
pub fn find_stamp(words: &Words, stand: &mut Stand, component: u32) -> u64
    requires held { IsHeld words.now.table_id words.now.key stand.old }
    requires stands { (port_at stand.old).port.control.entering ≡ Stands }
    requires inside { component < words.now.key.sizes.m }
    requires sealed { words.now.key.sizes.m ≤ (port_at stand.old).port.passed }
    ensures held { IsHeld words.now.table_id words.now.key stand.new }
    ensures stays { Stays stand.old stand.new }
    ensures passed { HasPassed stand.old stand.new }
    ensures control { HasControl stand.old stand.new }
    ensures found { FoundStamp stand.new component result }
    ensures steps { stand.new.seat.steps ≤ stand.old.seat.steps + 2 }
{
    let at = find(words, stand, component);
    let base = stand.base;
    let own = stand.shape.own;
    public_stamp(words, stand, base, own, component, at)
}

// Loads the word of a component, which is sealed: the reference of its last record.
fn find(words: &Words, stand: &mut Stand, component: u32) -> u64
    requires held { IsHeld words.now.table_id words.now.key stand.old }
    requires stands { (port_at stand.old).port.control.entering ≡ Stands }
    requires inside { component < words.now.key.sizes.m }
    requires sealed { words.now.key.sizes.m ≤ (port_at stand.old).port.passed }
    ensures held { IsHeld words.now.table_id words.now.key stand.new }
    ensures stays { Stays stand.old stand.new }
    ensures passed { HasPassed stand.old stand.new }
    ensures control { HasControl stand.old stand.new }
    ensures found { HasFound stand.new component }
    ensures loaded { HasLoadedRecord stand.new component result }
    ensures steps { stand.new.seat.steps ≤ stand.old.seat.steps + 1 }
{
    let base = stand.base;
    see::<Later, ToFind>(words, stand, base, component) % SEAL
}
