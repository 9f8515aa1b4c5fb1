//! The last values of a memory that is closed.

ghost use Rattle.std.specs.Prelude.{◌≡◌, ◌≤◌, ◌<◌, ◌^◌, [], length};
ghost use Rattle.std.specs.Vec.{vec_capacity};
ghost use Rattle.std.specs.Slots.{slots_len, slots_items, IsFull};
ghost use Rattle.partial_long_lived.specs.Shape.{bare, shape_plan};
ghost use Rattle.partial_long_lived.specs.Inner.Last.{HaveLast, ReadsLast};

use crate::shape::Shape;
use partial_words::value_word;
use std::alloc::Global;

/// One and the greatest number of an arena.
const ARENAS: u64 = 1 << 16;

/// What one seal adds to a component word: the reference of the record stands below.
const SEAL: u64 = 1 << 56;

/// The words of a table that threads no longer share.
pub type ClosedWords = partial_table::Closed<(), Global>;

/// Puts the values of all components into `values`, which is empty and has room for them.
pub fn last_values(words: &ClosedWords, shape: &Shape, values: &mut Vec<u64>)
    requires full { IsFull words.now.words × (slots_len words.now.words < 2 ^ 63) }
    requires count { slots_len words.now.words ≡ length (slots_items words.now.words) }
    requires last { HaveLast (shape_plan shape.now bare) (slots_items words.now.words) }
    requires room { (values.old.items ≡ []) × (shape.now.sizes.m ≤ vec_capacity values.old) }
    ensures { ReadsLast (shape_plan shape.now bare) (slots_items words.now.words) values.new.items }
{
    let arena = (words.word(0) % ARENAS) as u32;
    let base = shape.base(arena);
    for j in 0..shape.sizes.m() {
        let record = words.word((base + u64::from(j)) as usize) % SEAL;
        let value = words.word((base + value_word(record)) as usize);
        values.push_reserved(value);
    }
}
