//! What the atomic steps of a change of epoch show their ports.

use crate::rule::View;
use partial_table::Play;
use std::marker::{Brand, PhantomData};

/// The load of the word of the next component.
pub struct Pass;

impl Play<(), View> for Pass {
    ghost use Rattle.partial_long_lived.specs.Inner.Steps.{tells};
    ghost use Rattle.partial_long_lived.specs.Inner.Moves.{PassesSealed};

    ghost then = { λ _. tells PassesSealed };
}

/// The addition that seals it.
pub struct Seal;

impl Play<(), View> for Seal {
    ghost use Rattle.partial_long_lived.specs.Inner.Steps.{tells};
    ghost use Rattle.partial_long_lived.specs.Inner.Moves.{Seals};

    ghost then = { λ _. tells Seals };
}

/// The look by which a port begins a search for a free arena.
pub struct BeginSearch;

impl Play<(), View> for BeginSearch {
    ghost use Rattle.partial_long_lived.specs.Inner.Steps.{tells};
    ghost use Rattle.partial_long_lived.specs.Inner.Moves.{BeginsSearch};

    ghost then = { λ _. tells BeginsSearch };
}

/// The look by which it begins another pass over the arenas.
pub struct BeginPass;

impl Play<(), View> for BeginPass {
    ghost use Rattle.partial_long_lived.specs.Inner.Steps.{tells};
    ghost use Rattle.partial_long_lived.specs.Inner.Moves.{BeginsPass};

    ghost then = { λ _. tells BeginsPass };
}

/// The exchange of the owner word of an arena.
pub struct Take;

impl Play<(), View> for Take {
    ghost use Rattle.partial_long_lived.specs.Inner.Steps.{tells};
    ghost use Rattle.partial_long_lived.specs.Inner.Changing.{TakesBy};

    ghost then = { λ s. tells (TakesBy s.word) };
}

/// The store that gives the arena back.
pub struct Give;

impl Play<(), View> for Give {
    ghost use Rattle.partial_long_lived.specs.Inner.Steps.{tells};
    ghost use Rattle.partial_long_lived.specs.Inner.Changing.{GivesBack};

    ghost then = { λ _. tells GivesBack };
}

/// The load of the word of the next port, with which the owner of an arena isn't done yet.
pub struct LoadPort;

impl Play<(), View> for LoadPort {
    ghost use Rattle.partial_long_lived.specs.Inner.Steps.{tells};
    ghost use Rattle.partial_long_lived.specs.Inner.Moves.{LoadsPort};
    ghost use Rattle.partial_long_lived.specs.Inner.Changing.{OfOwned};

    ghost then = { λ _. tells (OfOwned LoadsPort) };
}

/// The exchange of the entering word of that port.
pub struct Put;

impl Play<(), View> for Put {
    ghost use Rattle.partial_long_lived.specs.Inner.Steps.{tells};
    ghost use Rattle.partial_long_lived.specs.Inner.Changing.{PutsBy};

    ghost then = { λ s. tells (PutsBy s.first) };
}

/// The load of the slot counter of the owned arena.
pub struct FindClear;

impl Play<(), View> for FindClear {
    ghost use Rattle.partial_long_lived.specs.Inner.Steps.{tells};
    ghost use Rattle.partial_long_lived.specs.Inner.Moves.{FindsClear};
    ghost use Rattle.partial_long_lived.specs.Inner.Changing.{OfOwned};

    ghost then = { λ _. tells (OfOwned FindsClear) };
}

/// The store of the next word of the owned arena.
pub struct SetWord;

impl Play<(), View> for SetWord {
    ghost use Rattle.partial_long_lived.specs.Inner.Steps.{tells};
    ghost use Rattle.partial_long_lived.specs.Inner.Changing.{SetsNext};

    ghost then = { λ _. tells SetsNext };
}

/// The store of the last word before the list words.
pub struct SetLists;

impl Play<(), View> for SetLists {
    ghost use Rattle.partial_long_lived.specs.Inner.Steps.{tells};
    ghost use Rattle.partial_long_lived.specs.Inner.Changing.{SetsLists};

    ghost then = { λ _. tells SetsLists };
}

/// The store of the value of the next initial record.
pub struct SetValue;

impl Play<(), View> for SetValue {
    ghost use Rattle.partial_long_lived.specs.Inner.Steps.{tells};
    ghost use Rattle.partial_long_lived.specs.Inner.Changing.{SetsValue};

    ghost then = { λ _. tells SetsValue };
}

/// The number to which the next word of the owned arena is to be set. Each load before a store picks its own.
pub trait Wanted {
    ghost use Rattle.std.specs.Prelude.{ℕ};

    ghost value: { ℕ };
}

impl Wanted for Brand {
    ghost value = { 0 };
}

/// The load of the next word of the owned arena. If it finds `G`, the load sets the word.
pub struct FindSetWord<G> {
    wanted: PhantomData<G>,
}

impl<G: Wanted> Play<(), View> for FindSetWord<G> {
    ghost use Rattle.partial_long_lived.specs.Inner.Steps.{tells};
    ghost use Rattle.partial_long_lived.specs.Inner.Changing.{FindsSet, SetsNext};

    ghost then = { λ _. tells (FindsSet G.value SetsNext) };
}

/// The load of the value of the next initial record. If it finds `G`, the load sets the value.
pub struct FindSetValue<G> {
    wanted: PhantomData<G>,
}

impl<G: Wanted> Play<(), View> for FindSetValue<G> {
    ghost use Rattle.partial_long_lived.specs.Inner.Steps.{tells};
    ghost use Rattle.partial_long_lived.specs.Inner.Changing.{FindsSet, SetsValue};

    ghost then = { λ _. tells (FindsSet G.value SetsValue) };
}

/// The exchange of the current word.
pub struct Publish;

impl Play<(), View> for Publish {
    ghost use Rattle.partial_long_lived.specs.Inner.Steps.{tells};
    ghost use Rattle.partial_long_lived.specs.Inner.Moves.{SeatPublishes};
    ghost use Rattle.partial_long_lived.specs.Inner.Changing.{OfOwned};

    ghost then = { λ _. tells (OfOwned SeatPublishes) };
}
