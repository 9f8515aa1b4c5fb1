//! What the atomic steps of a port's machine show its port.

use crate::plays::When;
use crate::rule::View;
use partial_table::Play;
use std::marker::{Brand, PhantomData};

/// A further load of the call of the seat's port.
pub struct LoadOn;

impl Play<(), View> for LoadOn {
    ghost use Rattle.partial_words.specs.declared.step.Step.TheVariants.{Load};
    ghost use Rattle.partial_long_lived.specs.Inner.Machine.{goes_on, word_at};

    ghost then = { λ s me. goes_on (Load (word_at me s.word)) me };
}

/// A further store.
pub struct StoreOn;

impl Play<(), View> for StoreOn {
    ghost use Rattle.partial_words.specs.declared.step.Step.TheVariants.{Store};
    ghost use Rattle.partial_long_lived.specs.Inner.Machine.{goes_on, word_at};

    ghost then = { λ s me. goes_on (Store (word_at me s.word) s.first) me };
}

/// A load of a word of which the store of 0 is due. If the word is 0, the load is that step.
pub struct LoadZero;

impl Play<(), View> for LoadZero {
    ghost use Rattle.partial_long_lived.specs.Inner.Machine.{finds_zero, word_at};

    ghost then = { λ s me. finds_zero (word_at me s.word) me };
}

/// A further exchange, of another word than a component's.
pub struct ExchangeOn;

impl Play<(), View> for ExchangeOn {
    ghost use Rattle.partial_words.specs.declared.step.Step.TheVariants.{Exchange};
    ghost use Rattle.partial_long_lived.specs.Inner.Machine.{goes_on, word_at};

    ghost then = { λ s me. goes_on (Exchange (word_at me s.word) s.first s.second) me };
}

/// A further claim.
pub struct AddOn;

impl Play<(), View> for AddOn {
    ghost use Rattle.partial_words.specs.declared.step.Step.TheVariants.{Add};
    ghost use Rattle.partial_long_lived.specs.Inner.Machine.{goes_on, word_at};

    ghost then = { λ s me. goes_on (Add (word_at me s.word) s.first) me };
}

/// The machine with which a call begins. Each call picks its own.
pub trait Moment {
    ghost use Rattle.partial_machine.specs.Machine.{CoreState};

    ghost core: { CoreState };
}

impl Moment for Brand {
    ghost use Rattle.partial_machine.specs.Machine.{fresh};

    ghost core = { fresh (record { m = 1; slots = 1; lists = 0; pool = 3 }) 0 };
}

/// The load by which the machine `G` of an update begins.
pub struct Begin<F, G> {
    when: PhantomData<F>,
    moment: PhantomData<G>,
}

impl<F: When, G: Moment> Play<(), View> for Begin<F, G> {
    ghost use Rattle.partial_long_lived.specs.Inner.Machine.{begins};

    ghost then = { λ s. begins F.first G.core s.word };
}

/// The first step of the machine `G` of a scan, the claim of its announcement.
pub struct BeginScan<G> {
    moment: PhantomData<G>,
}

impl<G: Moment> Play<(), View> for BeginScan<G> {
    ghost use Rattle.std.specs.Prelude.{false};
    ghost use Rattle.partial_words.specs.declared.step.Step.TheVariants.{Add};
    ghost use Rattle.partial_long_lived.specs.Inner.Machine.{makes, word_at};

    ghost then = { λ s me. makes false G.core (Add (word_at me s.word) s.first) me };
}

/// The exchange of the component of the call of the seat's port, which wants to replace the record `old`.
pub struct ExchangeComponent;

impl Play<(), View> for ExchangeComponent {
    ghost use Rattle.partial_words.specs.declared.step.Step.TheVariants.{Exchange};
    ghost use Rattle.partial_long_lived.specs.Inner.Machine.{exchanges, word_at};

    ghost then = { λ s me. exchanges s.first (Exchange (word_at me s.word) s.first s.second) me };
}
