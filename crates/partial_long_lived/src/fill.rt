//! How the owner of an arena sets its words to those with which the next epoch begins.

ghost use Rattle.std.specs.Prelude.{◌≡◌, ◌+◌, ◌<◌, ◌≤◌, []};
ghost use Rattle.partial_epochs.specs.Layout.{base};
ghost use Rattle.partial_long_lived.specs.Bounds.{fill_steps};
ghost use Rattle.partial_words.specs.Layout.{first_free, list_base};
ghost use Rattle.partial_words.specs.Chain.{opening_word};
ghost use Rattle.partial_long_lived.specs.Rule.{plan_of};
ghost use Rattle.partial_long_lived.specs.Inner.Held.{IsHeld, port_at};
ghost use Rattle.partial_long_lived.specs.Inner.Changing.{FoundValue, HasPassed, IsRight, Stays, HasSetWords, after_values};

use crate::change_plays::{
    FindClear, FindSetValue, FindSetWord, SetLists, SetValue, SetWord, Wanted,
};
use crate::find::{find_stamp, find_value};
use crate::rule::Words;
use crate::stand::Stand;
use partial_words::{Sizes, value_word};
use std::marker::Brand;

/// Sets all words of the arena, which begins at `first`: a caller takes that from the shape once, since after an atomic
/// store a compiler takes it from there anew.
pub fn fill(words: &Words, stand: &mut Stand, arena: u32, first: u64)
    requires held { IsHeld words.now.table_id words.now.key stand.old }
    requires works { HasSetWords stand.old arena words.now.key.ports 0 }
    requires inside { arena < words.now.key.arenas }
    requires first { first ≡ base (plan_of words.now.key) arena }
    requires sealed { words.now.key.sizes.m ≤ (port_at stand.old).port.passed }
    ensures held { IsHeld words.now.table_id words.now.key stand.new }
    ensures stays { Stays stand.old stand.new }
    ensures works { HasSetWords stand.new arena words.now.key.ports
        (first_free words.now.key.sizes + words.now.key.sizes.m) }
    ensures steps { stand.new.seat.steps ≤ stand.old.seat.steps + fill_steps words.now.key }
{
    fill_slots(words, stand, arena, first);
    fill_front(words, stand, arena, first);
    for component in 0..stand.shape.sizes.m() {
        fill_record(words, stand, arena, first, component);
    }
    for component in 0..stand.shape.sizes.m() {
        fill_stamp(words, stand, arena, first, component);
    }
}

// Sets the slots to 0, from the last one down, but for those that weren't claimed in the epoch that the arena held.
fn fill_slots(words: &Words, stand: &mut Stand, arena: u32, first: u64)
    requires held { IsHeld words.now.table_id words.now.key stand.old }
    requires works { HasSetWords stand.old arena words.now.key.ports 0 }
    requires inside { arena < words.now.key.arenas }
    requires first { first ≡ base (plan_of words.now.key) arena }
    requires sealed { words.now.key.sizes.m ≤ (port_at stand.old).port.passed }
    ensures held { IsHeld words.now.table_id words.now.key stand.new }
    ensures stays { Stays stand.old stand.new }
    ensures passed { HasPassed stand.old stand.new }
    ensures works { HasSetWords stand.new arena words.now.key.ports words.now.key.sizes.slots }
    ensures steps { stand.new.seat.steps ≤ stand.old.seat.steps + (1 + words.now.key.sizes.slots) }
{
    let clear = find_clear(words, stand, arena, first);
    for number in clear..stand.shape.sizes.slots() {
        set_word(words, stand, arena, first, number, 0);
    }
}

// Loads the slot counter of the arena. Returns how many of its slots are 0, and count as set then.
fn find_clear(words: &Words, stand: &mut Stand, arena: u32, first: u64) -> u32
    requires held { IsHeld words.now.table_id words.now.key stand.old }
    requires works { HasSetWords stand.old arena words.now.key.ports 0 }
    requires inside { arena < words.now.key.arenas }
    requires first { first ≡ base (plan_of words.now.key) arena }
    requires sealed { words.now.key.sizes.m ≤ (port_at stand.old).port.passed }
    ensures held { IsHeld words.now.table_id words.now.key stand.new }
    ensures stays { Stays stand.old stand.new }
    ensures passed { HasPassed stand.old stand.new }
    ensures works { HasSetWords stand.new arena words.now.key.ports result }
    ensures most { result ≤ words.now.key.sizes.slots }
    ensures steps { stand.new.seat.steps ≤ stand.old.seat.steps + 1 }
{
    let slots = stand.shape.sizes.slots();
    let at = first + u64::from(stand.shape.sizes.slot_counter());
    let claimed = words.load::<FindClear>(&mut stand.seat, at as usize);
    if claimed < u64::from(slots) {
        slots - claimed as u32
    } else {
        0
    }
}

// Sets the words before the slots, from the last one down: counters and components. An opening asks nothing of list
// words, and the first word of an initial record is 0 in any arena.
fn fill_front(words: &Words, stand: &mut Stand, arena: u32, first: u64)
    requires held { IsHeld words.now.table_id words.now.key stand.old }
    requires works { HasSetWords stand.old arena words.now.key.ports words.now.key.sizes.slots }
    requires inside { arena < words.now.key.arenas }
    requires first { first ≡ base (plan_of words.now.key) arena }
    requires sealed { words.now.key.sizes.m ≤ (port_at stand.old).port.passed }
    ensures held { IsHeld words.now.table_id words.now.key stand.new }
    ensures stays { Stays stand.old stand.new }
    ensures passed { HasPassed stand.old stand.new }
    ensures works { HasSetWords stand.new arena words.now.key.ports (after_values words.now.key.sizes 0) }
    ensures steps { stand.new.seat.steps + words.now.key.sizes.slots ≤ stand.old.seat.steps + list_base words.now.key.sizes }
{
    let sizes = stand.shape.sizes;
    let last = sizes.list_base() - 1;
    for number in sizes.slots()..last {
        let value = front_word(&sizes, last - number);
        set_word(words, stand, arena, first, number, value);
    }
    set_lists(words, stand, arena, first, last, front_word(&sizes, 0));
}

// The word before the list words with which each epoch begins.
fn front_word(sizes: &Sizes, word: u32) -> u64
    requires { word < list_base sizes.now }
    ensures { result ≡ opening_word sizes.now [] word }
{
    if word < sizes.m() {
        u64::from(sizes.initial_record(word))
    } else if word == sizes.pool_counter() {
        u64::from(sizes.first_free())
    } else if word == sizes.list_counter() {
        u64::from(sizes.list_base())
    } else {
        0
    }
}

// Sets the value in the initial record of a component. The other words of that record are 0 in any arena.
fn fill_record(words: &Words, stand: &mut Stand, arena: u32, first: u64, component: u32)
    requires held { IsHeld words.now.table_id words.now.key stand.old }
    requires works { HasSetWords stand.old arena words.now.key.ports (after_values words.now.key.sizes component) }
    requires inside { arena < words.now.key.arenas }
    requires first { first ≡ base (plan_of words.now.key) arena }
    requires within { component < words.now.key.sizes.m }
    requires sealed { words.now.key.sizes.m ≤ (port_at stand.old).port.passed }
    ensures held { IsHeld words.now.table_id words.now.key stand.new }
    ensures stays { Stays stand.old stand.new }
    ensures passed { HasPassed stand.old stand.new }
    ensures works { HasSetWords stand.new arena words.now.key.ports
        (after_values words.now.key.sizes (component + 1)) }
    ensures steps { stand.new.seat.steps ≤ stand.old.seat.steps + 4 }
{
    let value = find_value(words, stand, component);
    set_value::<Brand>(words, stand, arena, first, component, value);
}

// Sets that value, unless the arena has it already, from an epoch that it held before. `G` is the value.
#[inline(always)]
fn set_value<G: Wanted>(
    words: &Words,
    stand: &mut Stand,
    arena: u32,
    first: u64,
    component: u32,
    value: u64,
)
    requires held { IsHeld words.now.table_id words.now.key stand.old }
    requires works { HasSetWords stand.old arena words.now.key.ports (after_values words.now.key.sizes component) }
    requires inside { arena < words.now.key.arenas }
    requires first { first ≡ base (plan_of words.now.key) arena }
    requires within { component < words.now.key.sizes.m }
    requires sealed { words.now.key.sizes.m ≤ (port_at stand.old).port.passed }
    requires wanted { G.value ≡ value }
    requires found { FoundValue stand.old component value }
    ensures held { IsHeld words.now.table_id words.now.key stand.new }
    ensures stays { Stays stand.old stand.new }
    ensures passed { HasPassed stand.old stand.new }
    ensures works { HasSetWords stand.new arena words.now.key.ports
        (after_values words.now.key.sizes (component + 1)) }
    ensures steps { stand.new.seat.steps ≤ stand.old.seat.steps + 2 }
{
    let record = u64::from(stand.shape.sizes.initial_record(component));
    let at = stand
        .shape
        .set_word(first, arena, value_word(record) as u32) as usize;
    if words.load::<FindSetValue<G>>(&mut stand.seat, at) != value {
        words.store::<SetValue>(&mut stand.seat, at, value);
    }
}

// Sets the stamp that a component carries into the next epoch.
fn fill_stamp(words: &Words, stand: &mut Stand, arena: u32, first: u64, component: u32)
    requires held { IsHeld words.now.table_id words.now.key stand.old }
    requires works { HasSetWords stand.old arena words.now.key.ports (first_free words.now.key.sizes + component) }
    requires inside { arena < words.now.key.arenas }
    requires first { first ≡ base (plan_of words.now.key) arena }
    requires within { component < words.now.key.sizes.m }
    requires sealed { words.now.key.sizes.m ≤ (port_at stand.old).port.passed }
    ensures held { IsHeld words.now.table_id words.now.key stand.new }
    ensures stays { Stays stand.old stand.new }
    ensures passed { HasPassed stand.old stand.new }
    ensures works { HasSetWords stand.new arena words.now.key.ports (first_free words.now.key.sizes + component + 1) }
    ensures steps { stand.new.seat.steps ≤ stand.old.seat.steps + 4 }
{
    let stamp = find_stamp(words, stand, component);
    let word = stand.shape.sizes.first_free() + component;
    set_stamp::<Brand>(words, stand, arena, first, word, stamp);
}

// Sets the word of that stamp, unless it has the stamp already. `G` is the stamp.
#[inline(always)]
fn set_stamp<G: Wanted>(
    words: &Words,
    stand: &mut Stand,
    arena: u32,
    first: u64,
    number: u32,
    stamp: u64,
)
    requires held { IsHeld words.now.table_id words.now.key stand.old }
    requires works { HasSetWords stand.old arena words.now.key.ports number }
    requires inside { arena < words.now.key.arenas }
    requires first { first ≡ base (plan_of words.now.key) arena }
    requires sealed { words.now.key.sizes.m ≤ (port_at stand.old).port.passed }
    requires wanted { G.value ≡ stamp }
    requires right { IsRight (port_at stand.old) stamp number }
    ensures held { IsHeld words.now.table_id words.now.key stand.new }
    ensures stays { Stays stand.old stand.new }
    ensures passed { HasPassed stand.old stand.new }
    ensures works { HasSetWords stand.new arena words.now.key.ports (number + 1) }
    ensures steps { stand.new.seat.steps ≤ stand.old.seat.steps + 2 }
{
    let at = stand.shape.set_word(first, arena, number) as usize;
    if words.load::<FindSetWord<G>>(&mut stand.seat, at) != stamp {
        words.store::<SetWord>(&mut stand.seat, at, stamp);
    }
}

// Sets the next word of the arena, which is the one with that number in the order in which they are set.
#[inline(always)]
fn set_word(words: &Words, stand: &mut Stand, arena: u32, first: u64, number: u32, value: u64)
    requires held { IsHeld words.now.table_id words.now.key stand.old }
    requires works { HasSetWords stand.old arena words.now.key.ports number }
    requires inside { arena < words.now.key.arenas }
    requires first { first ≡ base (plan_of words.now.key) arena }
    requires sealed { words.now.key.sizes.m ≤ (port_at stand.old).port.passed }
    requires right { IsRight (port_at stand.old) value number }
    ensures held { IsHeld words.now.table_id words.now.key stand.new }
    ensures stays { Stays stand.old stand.new }
    ensures passed { HasPassed stand.old stand.new }
    ensures works { HasSetWords stand.new arena words.now.key.ports (number + 1) }
    ensures steps { stand.new.seat.steps ≤ stand.old.seat.steps + 1 }
{
    let at = stand.shape.set_word(first, arena, number) as usize;
    words.store::<SetWord>(&mut stand.seat, at, value);
}

// Sets the last of the words before the list words. Those before the first value count as set then.
fn set_lists(words: &Words, stand: &mut Stand, arena: u32, first: u64, number: u32, value: u64)
    requires held { IsHeld words.now.table_id words.now.key stand.old }
    requires works { HasSetWords stand.old arena words.now.key.ports number }
    requires inside { arena < words.now.key.arenas }
    requires first { first ≡ base (plan_of words.now.key) arena }
    requires sealed { words.now.key.sizes.m ≤ (port_at stand.old).port.passed }
    requires last { number + 1 ≡ list_base words.now.key.sizes }
    requires right { value ≡ opening_word words.now.key.sizes [] 0 }
    ensures held { IsHeld words.now.table_id words.now.key stand.new }
    ensures stays { Stays stand.old stand.new }
    ensures passed { HasPassed stand.old stand.new }
    ensures works { HasSetWords stand.new arena words.now.key.ports (after_values words.now.key.sizes 0) }
    ensures steps { stand.new.seat.steps ≤ stand.old.seat.steps + 1 }
{
    let at = stand.shape.set_word(first, arena, number) as usize;
    words.store::<SetLists>(&mut stand.seat, at, value);
}
