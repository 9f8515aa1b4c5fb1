//! Loads in the arena where a port stands.

ghost use Rattle.std.specs.Prelude.{◌≡◌, ◌+◌, ◌<◌, ◌≤◌};
ghost use Rattle.partial_epochs.specs.Layout.{whole};
ghost use Rattle.partial_epochs.specs.Notes.{public_of};
ghost use Rattle.partial_epochs.specs.Ports.Entering.{Stands};
ghost use Rattle.partial_long_lived.specs.Rule.{plan_of};
ghost use Rattle.partial_long_lived.specs.Inner.Held.{IsHeld, port_at};
ghost use Rattle.partial_long_lived.specs.Inner.Calls.{HasLoadedRecord, HasValue, StaysAt};
ghost use Rattle.partial_long_lived.specs.Inner.Loads.{IsFinding, Recalls, SeatSees};

use crate::plays::{Recall, See, When, Wishes};
use crate::rule::Words;
use crate::stand::Stand;
use partial_words::value_word;

/// What a seal adds to a component word, which refers to a record below it.
pub const SEAL: u64 = 1 << 56;

/// Each word of an arena is below this number. A public stamp is an epoch times it, and the reference of a record.
pub const STAMPS: u64 = 1 << 23;

/// Loads the word of component `component` with the wish `G`. `base` is where the port's arena begins: a caller who makes
/// several loads takes it from the port once, since after an atomic load a compiler takes it from there anew.
#[inline(always)]
pub fn see<F: When, G: Wishes>(words: &Words, stand: &mut Stand, base: u64, component: u32) -> u64
    requires held { IsHeld words.now.table_id words.now.key stand.old }
    requires base { base ≡ stand.old.base }
    requires stands { (port_at stand.old).port.control.entering ≡ Stands }
    requires inside { component < words.now.key.sizes.m }
    requires passed { IsFinding G.wish → component < (port_at stand.old).port.passed }
    ensures held { IsHeld words.now.table_id words.now.key stand.new }
    ensures kept { StaysAt stand.old stand.new }
    ensures sees { SeatSees F.first G.wish component (port_at stand.old) result (port_at stand.new) }
    ensures steps { stand.new.seat.steps ≤ stand.old.seat.steps + 1 }
{
    let word = base + u64::from(component);
    words.load::<See<F, G>>(&mut stand.seat, word as usize)
}

/// Loads a word that is final for the port.
#[inline(always)]
pub fn recall(words: &Words, stand: &mut Stand, word: u64) -> u64
    requires held { IsHeld words.now.table_id words.now.key stand.old }
    requires stands { (port_at stand.old).port.control.entering ≡ Stands }
    requires within { word < whole (plan_of words.now.key) }
    ensures held { IsHeld words.now.table_id words.now.key stand.new }
    ensures kept { StaysAt stand.old stand.new }
    ensures recalls { Recalls word (port_at stand.old) result (port_at stand.new) }
    ensures steps { stand.new.seat.steps ≤ stand.old.seat.steps + 1 }
{
    words.load::<Recall>(&mut stand.seat, word as usize)
}

/// Loads the value of the record at `at`, which the port has loaded as that of component `component`. `base` is where the
/// port's arena begins.
#[inline(always)]
pub fn load_value(words: &Words, stand: &mut Stand, base: u64, component: u32, at: u64) -> u64
    requires held { IsHeld words.now.table_id words.now.key stand.old }
    requires base { base ≡ stand.old.base }
    requires stands { (port_at stand.old).port.control.entering ≡ Stands }
    requires inside { component < words.now.key.sizes.m }
    requires loaded { HasLoadedRecord stand.old component at }
    ensures held { IsHeld words.now.table_id words.now.key stand.new }
    ensures kept { StaysAt stand.old stand.new }
    ensures same { port_at stand.new ≡ port_at stand.old }
    ensures value { HasValue stand.old component result }
    ensures steps { stand.new.seat.steps ≤ stand.old.seat.steps + 1 }
{
    let word = base + value_word(at);
    recall(words, stand, word)
}

/// The public stamp of the record of component `component` at `at`: a record of the epoch's own, or the carried stamp.
/// `base` is where the port's arena begins, and `own` the word of an arena where the records of an epoch's own do.
#[inline(always)]
pub fn public_stamp(
    words: &Words,
    stand: &mut Stand,
    base: u64,
    own: u64,
    component: u32,
    at: u64,
) -> u64
    requires held { IsHeld words.now.table_id words.now.key stand.old }
    requires base { base ≡ stand.old.base }
    requires own { own ≡ stand.old.shape.own }
    requires stands { (port_at stand.old).port.control.entering ≡ Stands }
    requires inside { component < words.now.key.sizes.m }
    requires small { at < 8388608 }
    ensures held { IsHeld words.now.table_id words.now.key stand.new }
    ensures kept { StaysAt stand.old stand.new }
    ensures same { port_at stand.new ≡ port_at stand.old }
    ensures stamp { result ≡ public_of (plan_of words.now.key) (port_at stand.old).port.before component at }
    ensures steps { stand.new.seat.steps ≤ stand.old.seat.steps + 1 }
{
    if at < own {
        let carried = base + stand.shape.carried + u64::from(component);
        recall(words, stand, carried)
    } else {
        stand.epoch * STAMPS + at
    }
}
