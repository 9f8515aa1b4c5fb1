//! A seat of the table.

use crate::counted::Counted;
use std::marker::Model;

/// A seat of a table, which has no slot. It takes no bytes. To contracts it is the table, the seat's number, its view, and
/// how many steps it has made.
#[derive(Drop)]
pub struct Seat<V> {
    pub(crate) inner: atomic_table::Seat<(), Counted<V>>,
}

impl<V> Model for Seat<V> {
    ghost use Rattle.partial_table.specs.Views.{SeatView, seat_view};

    ghost Value = { SeatView V };

    ghost view = { λ s. seat_view s.inner.table_id s.inner.id s.inner.me };
}
