//! Reads.

ghost use Rattle.std.specs.Prelude.{◌≡◌, ◌+◌, ◌<◌, ◌≤◌, IfSome, IfNone};
ghost use Rattle.partial_epochs.specs.Notes.{public_of};
ghost use Rattle.partial_epochs.specs.Ports.Entering.{Stands};
ghost use Rattle.partial_long_lived.specs.Rule.{plan_of};
ghost use Rattle.partial_long_lived.specs.Inner.Held.{IsHeld, port_at};
ghost use Rattle.partial_long_lived.specs.Inner.Calls.{HasCome, HasLoadedRecord, HasNotedRead, HasValue, IsIdle, StaysAt};
ghost use Rattle.partial_long_lived.specs.Inner.Late.{HasFoundSeal};
ghost use Rattle.partial_long_lived.specs.Inner.Rests.{RestsAt};

use crate::arena::{SEAL, load_value, public_stamp, see};
use crate::enter::settle;
use crate::plays::{AtFirst, Later, ToRead};
use crate::rule::Words;
use crate::stand::Stand;
use partial_core::Core;

/// Reads component `component` where the port stands: its value and its public stamp. Returns `None` when the component is
/// sealed there: then the port has noted nothing.
#[inline(always)]
pub fn read_here(words: &Words, stand: &mut Stand, component: u32) -> Option<(u64, u64)>
    requires held { IsHeld words.now.table_id words.now.key stand.old }
    requires idle { IsIdle stand.old }
    requires inside { component < words.now.key.sizes.m }
    ensures held { IsHeld words.now.table_id words.now.key stand.new }
    ensures kept { StaysAt stand.old stand.new }
    ensures come { HasCome stand.old stand.new }
    ensures read { IfSome result (λ r. HasNotedRead stand.old stand.new component r.0 r.1) }
    ensures sealed { IfNone result (HasFoundSeal component stand.old stand.new) }
    ensures steps { IfSome result (λ _. stand.new.seat.steps ≤ stand.old.seat.steps + 3) }
    ensures few { IfNone result (stand.new.seat.steps ≤ stand.old.seat.steps + 1) }
{
    let base = stand.base;
    let found = see::<AtFirst, ToRead>(words, stand, base, component);
    let own = stand.shape.own;
    // The word of an initial record has no seal, and is found by one comparison.
    if found < own {
        return Some(load_record(words, stand, base, own, component, found));
    }
    if found >= SEAL {
        return None;
    }
    Some(load_record(words, stand, base, own, component, found))
}

// Loads the value of the record at `at`, which the port has loaded as that of component `component`, and returns it with
// the public stamp. `base` is where the port's arena begins, and `own` the word of an arena where the records of an epoch's
// own do.
#[inline(always)]
fn load_record(
    words: &Words,
    stand: &mut Stand,
    base: u64,
    own: u64,
    component: u32,
    at: u64,
) -> (u64, u64)
    requires held { IsHeld words.now.table_id words.now.key stand.old }
    requires base { base ≡ stand.old.base }
    requires own { own ≡ stand.old.shape.own }
    requires stands { (port_at stand.old).port.control.entering ≡ Stands }
    requires inside { component < words.now.key.sizes.m }
    requires loaded { HasLoadedRecord stand.old component at }
    requires small { at < 8388608 }
    ensures held { IsHeld words.now.table_id words.now.key stand.new }
    ensures kept { StaysAt stand.old stand.new }
    ensures same { port_at stand.new ≡ port_at stand.old }
    ensures value { HasValue stand.old component result.0 }
    ensures stamp { result.1 ≡ public_of (plan_of words.now.key) (port_at stand.old).port.before component at }
    ensures steps { stand.new.seat.steps ≤ stand.old.seat.steps + 2 }
{
    let value = load_value(words, stand, base, component, at);
    let stamp = public_stamp(words, stand, base, own, component, at);
    (value, stamp)
}

/// Reads component `component`, which the first load of the read has found sealed, in an epoch that was the current one
/// during the read: its value and its public stamp. When the port enters a later epoch, its machine is unspent again.
///
/// It isn't put in line, so that a read that finds no seal pays nothing for it.
#[cold]
#[inline(never)]
pub fn read_late(
    words: &Words,
    component: u32,
    stand: &mut Stand,
    core: &mut Core,
    spent: &mut bool,
) -> (u64, u64)
    requires held { IsHeld words.now.table_id words.now.key stand.old }
    requires rests { RestsAt stand.old core.old spent.old }
    requires inside { component < words.now.key.sizes.m }
    ensures held { IsHeld words.now.table_id words.now.key stand.new }
    ensures rests { RestsAt stand.new core.new spent.new }
    ensures read { (s : Stand) → IsHeld words.now.table_id words.now.key s → IsIdle s → StaysAt s stand.old →
        HasFoundSeal component s stand.old → HasNotedRead s stand.new component result.0 result.1 }
    ensures steps { stand.new.seat.steps ≤ stand.old.seat.steps + 7 }
{
    let epoch = stand.epoch;
    settle::<Later>(words, stand);
    let base = stand.base;
    let at = see::<Later, ToRead>(words, stand, base, component) % SEAL;
    let own = stand.shape.own;
    let (value, stamp) = load_record(words, stand, base, own, component, at);
    if stand.epoch != epoch {
        core.clear_marks();
        *spent = false;
    }
    (value, stamp)
}
