//! Laws about the ports of a memory: what a call notes, what holds of a memory that is closed with all its
//! ports, and how one goes on that opens with the values of a closed one. The functions have no code: their
//! contracts hold of the definitions by which those of the calls are stated.

ghost use Rattle.partial_memory.specs.AllPorts.{ClosedWithAllPorts, OpenedPortsAreAll};
ghost use Rattle.partial_memory.specs.Led.{LateRefusalsArePastEnd, LedCallsClaimOnce, RefusalsAtOnceFit};
ghost use Rattle.partial_memory.specs.Noting.{CallsNoteOnce};
ghost use Rattle.partial_memory.specs.Reopening.{ClosedMemoriesContinue};

/// The ports with which a memory opens are all of its ports, in the order of their numbers.
pub fn opened_ports_are_all()
    ensures { OpenedPortsAreAll }
{}

/// When a memory is closed with all its ports, in any order, there is one history of distinct stamps. In it
/// each port's notes are legal and its entries are the updates that its notes say were applied; each
/// entry is in the notes of exactly one port; and the values and the chains are those after it.
pub fn closed_with_all_ports()
    ensures { ClosedWithAllPorts }
{}

/// An answered call is noted once, with its answer; a refused one, a scan of no position and a meeting
/// note nothing. The port's memory and its number stay.
pub fn calls_note_once()
    ensures { CallsNoteOnce }
{}

/// However a call ends, it has made at most one claim of pool words and one of a slot.
pub fn led_calls_claim_once()
    ensures { LedCallsClaimOnce }
{}

/// A call that is refused after some steps made its claim in the memory of its port, and the answer put that
/// past the end there: of no more pool words than the greatest record has, or of a slot.
pub fn late_refusals_are_past_end()
    ensures { LateRefusalsArePastEnd }
{}

/// A call is refused at once for a cause for which it may be refused: a component that isn't there, or a mark
/// that its port has.
pub fn refusals_at_once_fit()
    ensures { RefusalsAtOnceFit }
{}

/// A memory that opens with the values of a closed one, and zeros after them, goes on where its history
/// ended: after each history of its own a component has the value that it has after both histories, one
/// after the other, over the first opening, in which an added component is 0.
pub fn closed_memories_continue()
    ensures { ClosedMemoriesContinue }
{}
