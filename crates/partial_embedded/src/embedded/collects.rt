//! The answers of the loads of component words.

ghost use Rattle.std.specs.Prelude.{◌≡◌, ◌≢◌, ◌+◌, ◌<◌, ◌≤◌, ◌==◌, ◌||◌, ℕ, List, length};
ghost use Rattle.partial_embedded.specs.Embedded.{RowsState, after_load, buffers, go_on};

use super::{Embedded, Stage};

impl Embedded {
    // Takes the answer of the load of a position's component word.
    #[inline(always)]
    pub(super) fn after_load(
        &mut self,
        last: &mut [u64],
        changed: &mut [bool],
        positions: usize,
        position: usize,
        x: u64,
    )
        requires position { position < positions }
        requires few { positions ≤ self.old.sizes.m }
        requires last { position < length last.old }
        requires changed { position < length changed.old }
        requires collects { self.old.collects ≤ positions + 2 }
        ensures { (values : List ℕ) → (self.new, buffers last.new changed.new values) ≡
            after_load positions (self.old, buffers last.old changed.old values) position x }
    {
        if self.collects == 1 {
            self.after_first_load(last, changed, positions, position, x);
        } else {
            self.after_later_load(last, changed, positions, position, x);
        }
    }

    // Takes such an answer in the first collect, which has none before it to differ from.
    #[inline(always)]
    pub(super) fn after_first_load(
        &mut self,
        last: &mut [u64],
        changed: &mut [bool],
        positions: usize,
        position: usize,
        x: u64,
    )
        requires first { self.old.collects ≡ 1 }
        requires position { position < positions }
        requires few { positions ≤ self.old.sizes.m }
        requires last { position < length last.old }
        requires changed { position < length changed.old }
        ensures { (values : List ℕ) → (self.new, buffers last.new changed.new values) ≡
            after_load positions (self.old, buffers last.old changed.old values) position x }
    {
        last[position] = x;
        changed[position] = false;
        self.go_on(positions, position, true);
    }

    // Takes such an answer in a later collect.
    #[inline(always)]
    pub(super) fn after_later_load(
        &mut self,
        last: &mut [u64],
        changed: &mut [bool],
        positions: usize,
        position: usize,
        x: u64,
    )
        requires later { self.old.collects ≢ 1 }
        requires position { position < positions }
        requires few { positions ≤ self.old.sizes.m }
        requires last { position < length last.old }
        requires changed { position < length changed.old }
        requires collects { self.old.collects ≤ positions + 2 }
        ensures { (values : List ℕ) → (self.new, buffers last.new changed.new values) ≡
            after_load positions (self.old, buffers last.old changed.old values) position x }
    {
        if last[position] == x {
            self.go_on(positions, position, self.moved);
        } else if changed[position] {
            self.borrowed = Some(x);
            self.stage = Stage::View { stamp: x };
        } else {
            last[position] = x;
            changed[position] = true;
            self.moved = true;
            self.go_on(positions, position, true);
        }
    }

    // Goes on to the next position. After the last one the collect is whole, and another one is made if
    // `again` says so.
    #[inline(always)]
    fn go_on(&mut self, positions: usize, position: usize, again: bool)
        requires again { again ≡ (self.old.collects == 1) || self.old.moved }
        requires position { position < positions }
        requires few { positions ≤ self.old.sizes.m }
        requires collects { self.old.collects ≤ positions + 2 }
        ensures { (rows : RowsState) → (self.new, rows) ≡ go_on positions (self.old, rows) position }
    {
        if position + 1 < positions {
            self.stage = Stage::Collect {
                position: position + 1,
            };
        } else if again {
            self.collects += 1;
            self.moved = false;
            self.stage = Stage::Collect { position: 0 };
        } else {
            self.stage = Stage::Value { position: 0 };
        }
    }
}
