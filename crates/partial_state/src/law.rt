//! The laws of the kinds of step: each says what a step of its kind keeps. The functions have no code:
//! their contracts hold of the definitions by which lawful words are stated.

ghost use Rattle.partial_state.specs.Effects.{OpeningIsLawful, ClaimsAreKept, RefusalsAreKept, StoresAreKept, DuesAreKept, DropsAreKept, SparesAreKept, TakesAreKept, WinsAreKept, SlotClaimsAreKept, JoinsAreKept, LeavesAreKept, PublishingsAreKept, LoadsAreTrue};

/// Words at opening, with at most `most_ports` ports that hold nothing, are lawful.
pub fn opening_is_lawful()
    ensures { OpeningIsLawful }
{}

/// A claim of a block within its region: the port holds a block of which nothing is stored, apart from
/// every other block.
pub fn claims_are_kept()
    ensures { ClaimsAreKept }
{}

/// A block of the pool that a port writes becomes its spare words.
pub fn spares_are_kept()
    ensures { SparesAreKept }
{}

/// A port takes a block from the beginning of its spare words, without a step: it claimed them earlier.
pub fn takes_are_kept()
    ensures { TakesAreKept }
{}

/// A claim past the end of the pool, of the slots or of the list words: the port is marked, and the counter is past the
/// end by at most one greatest claim for each marked port.
pub fn refusals_are_kept()
    ensures { RefusalsAreKept }
{}

/// A store of the next word of a port's own block, which no other port reads yet.
pub fn stores_are_kept()
    ensures { StoresAreKept }
{}

/// The exchange of a component word is due: the record stands whole, and its view would be fresh and
/// covering.
pub fn dues_are_kept()
    ensures { DuesAreKept }
{}

/// A port gives up its own block: its exchange failed, or the call is refused.
pub fn drops_are_kept()
    ensures { DropsAreKept }
{}

/// A won exchange of a component word: the record is published, and the history gains its entry.
pub fn wins_are_kept()
    ensures { WinsAreKept }
{}

/// A claim of a slot, which is EMPTY.
pub fn slot_claims_are_kept()
    ensures { SlotClaimsAreKept }
{}

/// A join: the announcement that the port has written is published in its slot.
pub fn joins_are_kept()
    ensures { JoinsAreKept }
{}

/// A leave: the slot is VACATED, and stays so forever.
pub fn leaves_are_kept()
    ensures { LeavesAreKept }
{}

/// An exchange of the list head: when it is won, the list that the port has written is published, and
/// otherwise it is given up.
pub fn publishings_are_kept()
    ensures { PublishingsAreKept }
{}

/// What a load returns is true from then on, for each word but those of blocks that aren't published.
pub fn loads_are_true()
    ensures { LoadsAreTrue }
{}
