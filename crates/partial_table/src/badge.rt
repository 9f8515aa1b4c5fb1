//! A badge of the table.

ghost use Rattle.std.specs.Prelude.{◌≡◌, [], ◌∷◌};

use crate::counted::Counted;
use crate::seat::Seat;
use std::marker::Model;

/// A seat that can be taken out of its place, where a blank badge stands in for it. It takes no bytes. To contracts it is the
/// table, the view of its seat, if there is one, and how many steps that has made.
#[derive(Drop)]
pub struct Badge<V> {
    inner: atomic_table::Badge<Counted<V>>,
}

impl<V> Model for Badge<V> {
    ghost use Rattle.partial_table.specs.Views.{BadgeView, badge_view};

    ghost Value = { BadgeView V };

    ghost view = { λ b. badge_view b.inner.table_id b.inner.views };
}

impl<V> Badge<V> {
    /// A badge without a seat.
    #[inline(always)]
    pub fn blank() -> Badge<V>
        ensures { result.views ≡ [] }
    {
        Badge {
            inner: atomic_table::Badge::blank(),
        }
    }

    /// The seat of the badge.
    #[inline(always)]
    pub fn into_seat(self) -> Seat<V>
        requires { (v : V) × (self.views ≡ v ∷ []) }
        ensures { (result.table_id ≡ self.table_id) × (self.views ≡ result.me.0 ∷ []) × (result.me.1 ≡ []) ×
            (result.steps ≡ self.steps) }
    {
        let Badge { inner } = self;
        Seat {
            inner: inner.into_seat(),
        }
    }
}

impl<V> Seat<V> {
    /// The badge of the seat.
    #[inline(always)]
    pub fn into_badge(self) -> Badge<V>
        requires { self.me.1 ≡ [] }
        ensures { (result.table_id ≡ self.table_id) × (result.views ≡ self.me.0 ∷ []) × (result.steps ≡ self.steps) }
    {
        let Seat { inner } = self;
        Badge {
            inner: inner.into_badge(),
        }
    }
}
