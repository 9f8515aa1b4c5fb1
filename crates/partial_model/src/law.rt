//! Laws about histories. The functions have no code: their contracts hold of the definitions.

ghost use Rattle.partial_model.specs.Entries.{EntriesAreNoted, LastEntriesDecide, RisingNeverFalls};
ghost use Rattle.partial_model.specs.Notes.{LegalNotesAreShown};
ghost use Rattle.partial_model.specs.Stamps.{StampsNeverReturn, EqualCollectsStandTogether};

/// The last entry of a history sets the value and the stamp of its component, and changes no other
/// component. Before the first entry a component has the value and the stamp of opening.
pub fn last_entries_decide()
    ensures { LastEntriesDecide }
{}

/// A stamp never returns: a component that has one stamp at two lengths of a history has that stamp, and
/// the value that came with it, at each length between them.
pub fn stamps_never_return()
    ensures { StampsNeverReturn }
{}

/// When two collects find the same stamp at each component (a double collect), these stamps stood together
/// at each length of the history between the end of the first collect and the start of the second.
pub fn equal_collects_stand_together()
    ensures { EqualCollectsStandTogether }
{}

/// Notes that are legal in a history show no more entries than it has.
pub fn legal_notes_are_shown()
    ensures { LegalNotesAreShown }
{}

/// When a port's notes are legal in a history and its entries there are those that they claim, its
/// entries are the updates that the notes say were applied, in order.
pub fn entries_are_noted()
    ensures { EntriesAreNoted }
{}

/// When each entry for a component leaves its value or raises it, the value never falls.
pub fn rising_never_falls()
    ensures { RisingNeverFalls }
{}
