//! What a seat knows beside its view: how many steps it has made.

use atomic_table::{Join, Play, Split, TableRule};
use std::marker::PhantomData;

/// A view, and how many steps were counted for it. It is ghost state: no value of it is ever made.
pub struct Counted<V> {
    pub view: V,
    pub steps: u64,
}

/// The rule `P`, whatever is counted.
pub struct Counting<P> {
    rule: PhantomData<P>,
}

impl<V, K, P: TableRule<(), V, K>> TableRule<(), Counted<V>, K> for Counting<P> {
    ghost use Rattle.partial_table.specs.Counting.{counted, uncounted};

    ghost holds = { λ about s. P.holds about (uncounted s) };

    ghost first = { λ about. counted (P.first about) 0 };
}

/// A step that says what `M` does, and is counted.
pub struct Counts<M> {
    play: PhantomData<M>,
}

impl<V, M: Play<(), V>> Play<(), Counted<V>> for Counts<M> {
    ghost use Rattle.partial_table.specs.Counting.{counts};

    ghost then = { λ s. counts (M.then s) };
}

/// The split `M` of a view. What was counted, and the load that it takes, is counted for the new seat.
pub struct CountsSplit<M> {
    split: PhantomData<M>,
}

impl<V, M: Split<V>> Split<Counted<V>> for CountsSplit<M> {
    ghost use Rattle.std.specs.Prelude.{◌+◌};
    ghost use Rattle.partial_table.specs.Counting.{counted};

    ghost left = { λ c. counted (M.left c.view) 0 };

    ghost right = { λ c. counted (M.right c.view) (c.steps + 1) };
}

/// The join `M` of two views. What was counted for both, and the load that it takes, is counted for the seat that is left.
pub struct CountsJoin<M> {
    join: PhantomData<M>,
}

impl<V, M: Join<V>> Join<Counted<V>> for CountsJoin<M> {
    ghost use Rattle.std.specs.Prelude.{◌+◌};
    ghost use Rattle.partial_table.specs.Counting.{counted};

    ghost both = { λ c d. counted (M.both c.view d.view) (c.steps + d.steps + 1) };

    ghost spent = { counted M.spent 0 };
}
