//! What the atomic steps of calls show their ports.

use crate::rule::View;
use partial_table::Play;
use std::marker::{Brand, PhantomData};

/// Whether a step is the first one of its call.
pub trait When {
    ghost use Rattle.std.specs.Prelude.{Bool};

    ghost first: { Bool };
}

/// The first step of a call.
pub struct AtFirst;

impl When for AtFirst {
    ghost use Rattle.std.specs.Prelude.{true};

    ghost first = { true };
}

/// A further step of a call.
pub struct Later;

impl When for Later {
    ghost use Rattle.std.specs.Prelude.{false};

    ghost first = { false };
}

/// A load of the current word.
pub struct Look<F> {
    when: PhantomData<F>,
}

impl<F: When> Play<(), View> for Look<F> {
    ghost use Rattle.partial_long_lived.specs.Inner.Steps.{tells};
    ghost use Rattle.partial_long_lived.specs.Inner.Moves.{SeatLooks};

    ghost then = { λ _. tells (SeatLooks F.first) };
}

/// The store of the entering word.
pub struct StoreEnteringWord;

impl Play<(), View> for StoreEnteringWord {
    ghost use Rattle.partial_long_lived.specs.Inner.Steps.{tells};
    ghost use Rattle.partial_long_lived.specs.Inner.Moves.{StoresEnteringWord};

    ghost then = { λ _. tells StoresEnteringWord };
}

/// The load of the current site into which a port enters.
pub struct LoadCurrent;

impl Play<(), View> for LoadCurrent {
    ghost use Rattle.partial_long_lived.specs.Inner.Steps.{tells};
    ghost use Rattle.partial_long_lived.specs.Inner.Moves.{LoadsCurrent};

    ghost then = { λ _. tells LoadsCurrent };
}

/// The exchange of the entering word, whose operand is the word of the site that was loaded.
pub struct Arrive;

impl Play<(), View> for Arrive {
    ghost use Rattle.partial_long_lived.specs.Inner.Steps.{tells};
    ghost use Rattle.partial_epochs.specs.Layout.{unpacked};
    ghost use Rattle.partial_long_lived.specs.Inner.Moves.{SeatArrives};

    ghost then = { λ s. tells (SeatArrives (unpacked s.second)) };
}

/// What a call wants of the component words that it loads.
pub trait Wishes {
    ghost use Rattle.partial_long_lived.specs.Inner.Loads.{Wish};

    ghost wish: { Wish };
}

/// A read wants the value.
pub struct ToRead;

impl Wishes for ToRead {
    ghost use Rattle.partial_long_lived.specs.Inner.Loads.Wish.{Reads};

    ghost wish = { Reads };
}

/// A double collect compares the word with another load of it.
pub struct ToGlance;

impl Wishes for ToGlance {
    ghost use Rattle.partial_long_lived.specs.Inner.Loads.Wish.{Glances};

    ghost wish = { Glances };
}

/// A change of epoch finds what the next epoch begins with, of a component that is sealed.
pub struct ToFind;

impl Wishes for ToFind {
    ghost use Rattle.partial_long_lived.specs.Inner.Loads.Wish.{Finds};

    ghost wish = { Finds };
}

/// A conditional update picks its own.
impl Wishes for Brand {
    ghost use Rattle.partial_long_lived.specs.Inner.Loads.Wish.{Glances};

    ghost wish = { Glances };
}

/// The load of a component word with the wish `G`. Unless it is the first step of a call, the port's epoch was the current
/// one during the call.
pub struct See<F, G> {
    when: PhantomData<F>,
    wish: PhantomData<G>,
}

impl<F: When, G: Wishes> Play<(), View> for See<F, G> {
    ghost use Rattle.partial_long_lived.specs.Inner.Loads.{sees};

    ghost then = { λ s. sees F.first G.wish s.word };
}

/// What a double collect has found: its components, and how many entries of the port's epoch the port had seen between
/// the two collects. Each scan picks its own.
pub trait Together {
    ghost use Rattle.std.specs.Prelude.{List, ℕ};

    ghost which: { List ℕ };

    ghost entries: { ℕ };
}

impl Together for Brand {
    ghost use Rattle.std.specs.Prelude.{[]};

    ghost which = { [] };

    ghost entries = { 0 };
}

/// The load of the last value of the double collect `G`, by which the port notes the scan.
pub struct NoteScan<G> {
    together: PhantomData<G>,
}

impl<G: Together> Play<(), View> for NoteScan<G> {
    ghost use Rattle.partial_long_lived.specs.Inner.DoubleCollect.{notes_scan};

    ghost then = { λ s. notes_scan G.which G.entries s.word };
}

/// The load of a value that the port has seen, or of a carried stamp.
pub struct Recall;

impl Play<(), View> for Recall {
    ghost use Rattle.partial_long_lived.specs.Inner.Steps.{tells};
    ghost use Rattle.partial_long_lived.specs.Inner.Loads.{Recalls};

    ghost then = { λ s. tells (Recalls s.word) };
}

/// The step of a seat of two ports by which the first one sees all of its epoch.
pub struct Observe;

impl Play<(), View> for Observe {
    ghost use Rattle.partial_long_lived.specs.Inner.Meeting.{observes};

    ghost then = { λ _ me. observes me };
}
