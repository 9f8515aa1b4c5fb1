//! The steps of a table. Each is one step of the table inside.

ghost use Rattle.std.specs.Prelude.{◌≡◌, ◌+◌, ◌%◌, ◌^◌, ◌<◌, ◌==◌, []};
ghost use mathlib.Core.Option.{none};
ghost use prog.Atomic.{either};
ghost use Rattle.atomic_table.specs.Table.{Allows, Joins, Splits, step};

use crate::counted::{Counts, CountsJoin, CountsSplit};
use crate::seat::Seat;
use crate::table::Table;
use atomic_table::{Join, Play, Split, TableRule};

impl<V, K, P: TableRule<(), V, K>> Table<V, K, P> {
    /// A load.
    #[inline(always)]
    pub fn load<M: Play<(), V>>(&self, seat: &mut Seat<V>, word: usize) -> u64
        requires { (seat.old.table_id ≡ self.now.table_id) × (word < self.now.table_id.words) ×
            Allows (P.holds self.now.key) self.now.table_id.slots seat.old.id seat.old.me word (λ n. n)
            (M.then (step self.now.table_id.slots word 0 0 none) seat.old.me) }
        ensures { (seat.new.table_id ≡ seat.old.table_id) × (seat.new.id ≡ seat.old.id) ×
            M.then (step self.now.table_id.slots word 0 0 none) seat.old.me result seat.new.me ×
            (seat.new.steps ≡ seat.old.steps + 1) }
    {
        self.inner.shared.load::<Counts<M>>(&mut seat.inner, word)
    }

    /// A store.
    #[inline(always)]
    pub fn store<M: Play<(), V>>(&self, seat: &mut Seat<V>, word: usize, new: u64)
        requires { (seat.old.table_id ≡ self.now.table_id) × (word < self.now.table_id.words) ×
            Allows (P.holds self.now.key) self.now.table_id.slots seat.old.id seat.old.me word (λ _. new)
            (λ _. M.then (step self.now.table_id.slots word new 0 none) seat.old.me new) }
        ensures { (seat.new.table_id ≡ seat.old.table_id) × (seat.new.id ≡ seat.old.id) ×
            M.then (step self.now.table_id.slots word new 0 none) seat.old.me new seat.new.me ×
            (seat.new.steps ≡ seat.old.steps + 1) }
    {
        self.inner
            .shared
            .store::<Counts<M>>(&mut seat.inner, word, new);
    }

    /// An addition, which wraps. Returns the word as it was.
    #[inline(always)]
    pub fn fetch_add<M: Play<(), V>>(&self, seat: &mut Seat<V>, word: usize, k: u64) -> u64
        requires { (seat.old.table_id ≡ self.now.table_id) × (word < self.now.table_id.words) ×
            Allows (P.holds self.now.key) self.now.table_id.slots seat.old.id seat.old.me word (λ n. (n + k) % 2 ^ 64)
            (M.then (step self.now.table_id.slots word k 0 none) seat.old.me) }
        ensures { (seat.new.table_id ≡ seat.old.table_id) × (seat.new.id ≡ seat.old.id) ×
            M.then (step self.now.table_id.slots word k 0 none) seat.old.me result seat.new.me ×
            (seat.new.steps ≡ seat.old.steps + 1) }
    {
        self.inner
            .shared
            .fetch_add::<Counts<M>>(&mut seat.inner, word, k)
    }

    /// Returns the word as it was, which has become `new` if it was `old`.
    #[inline(always)]
    pub fn compare_exchange<M: Play<(), V>>(
        &self,
        seat: &mut Seat<V>,
        word: usize,
        old: u64,
        new: u64,
    ) -> u64
        requires { (seat.old.table_id ≡ self.now.table_id) × (word < self.now.table_id.words) ×
            Allows (P.holds self.now.key) self.now.table_id.slots seat.old.id seat.old.me word (λ n. either (n == old) new n)
            (M.then (step self.now.table_id.slots word old new none) seat.old.me) }
        ensures { (seat.new.table_id ≡ seat.old.table_id) × (seat.new.id ≡ seat.old.id) ×
            M.then (step self.now.table_id.slots word old new none) seat.old.me result seat.new.me ×
            (seat.new.steps ≡ seat.old.steps + 1) }
    {
        self.inner
            .shared
            .compare_exchange::<Counts<M>>(&mut seat.inner, word, old, new)
    }

    /// Cuts the view of a seat in two, by a load. The steps of the seat are counted for the new one from then on.
    #[inline(always)]
    pub fn split_seat<M: Split<V>>(&self, seat: &mut Seat<V>) -> Seat<V>
        requires { (seat.old.table_id ≡ self.now.table_id) × (0 < self.now.table_id.words) ×
            Splits (P.holds self.now.key) seat.old.id seat.old.me.0 (M.left seat.old.me.0) (M.right seat.old.me.0) }
        ensures { (seat.new.table_id ≡ seat.old.table_id) × (seat.new.id ≡ seat.old.id) ×
            (seat.new.me ≡ (M.left seat.old.me.0, seat.old.me.1)) × (result.table_id ≡ seat.old.table_id) ×
            (result.me ≡ (M.right seat.old.me.0, [])) × (seat.new.steps ≡ 0) × (result.steps ≡ seat.old.steps + 1) }
    {
        Seat {
            inner: self
                .inner
                .shared
                .split_seat::<CountsSplit<M>>(&mut seat.inner),
        }
    }

    /// Joins two seats to one, by a load.
    #[inline(always)]
    pub fn join_seat<M: Join<V>>(&self, seat: &mut Seat<V>, other: Seat<V>)
        requires { (seat.old.table_id ≡ self.now.table_id) × (other.table_id ≡ self.now.table_id) × (other.me.1 ≡ []) ×
            (0 < self.now.table_id.words) ×
            Joins (P.holds self.now.key) seat.old.id seat.old.me.0 other.id other.me.0
            (M.both seat.old.me.0 other.me.0) M.spent }
        ensures { (seat.new.table_id ≡ seat.old.table_id) × (seat.new.id ≡ seat.old.id) ×
            (seat.new.me ≡ (M.both seat.old.me.0 other.me.0, seat.old.me.1)) ×
            (seat.new.steps ≡ seat.old.steps + other.steps + 1) }
    {
        let Seat { inner: other } = other;
        self.inner
            .shared
            .join_seat::<CountsJoin<M>>(&mut seat.inner, other);
    }
}
