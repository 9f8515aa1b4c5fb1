//! Laws about the state of a memory. The functions have no code: their contracts hold of the definitions
//! by which the machine's own contracts are stated.

ghost use Rattle.partial_core.specs.Lawful.{OpensLawful};
ghost use Rattle.partial_core.specs.Steps.{StepsStayLawful};
ghost use Rattle.partial_core.specs.Ports.{LawfulPortsFit, LawfulRecordsAreWithin, LooksStayLawful, LawfulCallsAreBounded, LawfulMachinesAreReady};
ghost use Rattle.partial_core.specs.Calls.{FirstStepsMakeCalls, FurtherStepsMakeCalls, MadeCallsMakeTheirSteps, CallsBeginBetween, PortsComeBetween};
ghost use Rattle.partial_core.specs.Orderly.{LawfulIsOrderly, StepsAreOrderly};
ghost use Rattle.partial_core.specs.ActiveSet.{LawfulRunsAreOrderly, UpdatesFind, UpdatesFindInOrder, UpdatesKeepLists};

/// A memory opens in a lawful state, with the empty history and no call made.
pub fn memory_opens_lawful()
    ensures { OpensLawful }
{}

/// The law of steps: from a lawful state the due step of any port, answered by the plain meaning of that
/// step on the words, leads to a lawful state. The answer is a possible one. The history gains one entry
/// exactly when the step wins the exchange of a component word. When the step ends a call that isn't
/// refused, the port notes the call with its answer and its place, which lies within the call.
pub fn steps_stay_lawful()
    ensures { StepsStayLawful }
{}

/// In a lawful state each port's notes are legal in the history, its entries there are those of its notes,
/// each once and in their order, and each entry is by one of the ports.
pub fn lawful_ports_fit()
    ensures { LawfulPortsFit }
{}

/// In a lawful state the words agree with the history, and each record lies within them.
pub fn lawful_records_are_within()
    ensures { LawfulRecordsAreWithin }
{}

/// In a lawful state the machine of each port is sound, and has a step due unless it is at rest.
pub fn lawful_machines_are_ready()
    ensures { LawfulMachinesAreReady }
{}

/// A look by a port, the load of a component word, leads to a lawful state in which the port has observed
/// the whole history.
pub fn looks_stay_lawful()
    ensures { LooksStayLawful }
{}

/// In a lawful state the steps that a port's call has made, and the most that are left of it, are together
/// no more than such a call may make.
pub fn lawful_calls_are_bounded()
    ensures { LawfulCallsAreBounded }
{}

/// The first step of a call makes it a call that has made steps: the answers that it keeps lead from its
/// begin to where it is, and what it notes lies after all that its port had observed before.
pub fn first_steps_make_calls()
    ensures { FirstStepsMakeCalls }
{}

/// Each further step of a call goes on with it.
pub fn further_steps_make_calls()
    ensures { FurtherStepsMakeCalls }
{}

/// By its kept answers a call has made no more steps than it may: a read 2, and a scan those of its
/// positions and collects.
pub fn made_calls_make_their_steps()
    ensures { MadeCallsMakeTheirSteps }
{}

/// A call that isn't refused at once is the next one of a port between calls. A scan of no position leaves
/// the port between calls.
pub fn calls_begin_between()
    ensures { CallsBeginBetween }
{}

/// A port is between calls when it is made, and when a call has ended and its reply was taken.
pub fn ports_come_between()
    ensures { PortsComeBetween }
{}

/// The words of a lawful state are orderly, as the active set requires of the words that answer a getSet.
pub fn lawful_words_are_orderly()
    ensures { LawfulIsOrderly }
{}

/// Each step of a port is an orderly event: it keeps the words orderly, takes a slot only from EMPTY to a
/// whole announcement and from that to VACATED, and changes no block that the words publish.
pub fn steps_are_orderly()
    ensures { StepsAreOrderly }
{}

/// A run of steps and looks of any ports from a lawful state is an orderly run, and ends in a lawful state:
/// a block that a slot or the list head has referred to at any moment so far never changes.
pub fn lawful_runs_are_orderly()
    ensures { LawfulRunsAreOrderly }
{}

/// What the getSet of an update finds, in every run from a lawful state: every index of each announcement
/// that stood in a slot from its first step to its last, and no index but those of announcements that stood
/// in a slot at some moment of it, each once, in the order of the slots and then of the positions.
pub fn updates_find_the_active_set()
    ensures finds { UpdatesFind }
    ensures order { UpdatesFindInOrder }
{}

/// What that getSet does with the lists of vacated slots, at each stage: it reads the list at the list head
/// and loads no slot of it, and it publishes whole lists only, of the slots of the list that it read and of
/// those that it found vacated.
pub fn updates_keep_lists()
    ensures { UpdatesKeepLists }
{}
