//! The table with its memory.

ghost use Rattle.std.specs.Prelude.{◌≡◌, [], length, IfOk};
ghost use Rattle.std.specs.Slots.{slots_len, slots_items, IsFull};
ghost use Rattle.atomic_table.specs.Table.{Final, Seen, opening};

use crate::counted::{Counted, Counting};
use crate::seat::Seat;
use atomic_table::{Closed, TableRule};
use std::alloc::{AllocError, Global};
use std::marker::Model;

/// Words that threads share. To contracts it is which table it is, and what was said of it when it was made.
#[derive(Drop)]
pub struct Table<V, K, P: TableRule<(), V, K>> {
    pub(crate) inner: atomic_table::Table<(), Counted<V>, K, Counting<P>, Global>,
}

impl<V, K, P: TableRule<(), V, K>> Model for Table<V, K, P> {
    ghost use Rattle.partial_table.specs.Views.{TableView, table_view};

    ghost Value = { TableView K };

    ghost view = { λ t. table_view t.inner.shared.table_id t.inner.shared.key };
}

impl<V, K, P: TableRule<(), V, K>> Table<V, K, P> {
    /// A table with these words, and its first seat.
    ///
    /// # Errors
    /// When an allocation was refused.
    pub fn of_words(
        alloc: Global,
        words: &[u64],
        about: &K,
    ) -> Result<(Table<V, K, P>, Seat<V>), AllocError>
        requires { P.holds about.now (opening words.now [] (P.first about.now)) }
        ensures { IfOk result (λ t. (t.0.table_id.words ≡ length words.now) × (t.0.table_id.slots ≡ 0) ×
            (t.1.table_id ≡ t.0.table_id) × (t.1.id ≡ 0) × (t.1.me ≡ (P.first about.now, [])) ×
            (t.0.key ≡ about.now) × (t.1.steps ≡ 0)) }
    {
        let (table, seat) = atomic_table::Table::of_words(alloc, words, about)?;
        Ok((Table { inner: table }, Seat { inner: seat }))
    }

    /// Closes the table. Its last state has the seat's view.
    pub fn close_with(self, seat: Seat<V>) -> Closed<(), Global>
        requires { seat.table_id ≡ self.table_id }
        ensures counts { (slots_len result.words ≡ self.table_id.words) × (slots_len result.slots ≡ self.table_id.slots) }
        ensures values { IsFull result.words × IsFull result.slots ×
            Final (Seen (P.holds self.key) seat.id seat.me.0) (slots_items result.words) (slots_items result.slots) }
    {
        let Table { inner: table } = self;
        let Seat { inner: seat } = seat;
        table.close_with(seat)
    }
}
