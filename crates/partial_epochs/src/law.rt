//! Laws about a memory whose arenas are used again and again. The functions have no code: their contracts hold of the
//! definitions by which the memory's own contracts are to be stated.

ghost use Rattle.partial_epochs.specs.History.{EpochsContinue};
ghost use Rattle.partial_epochs.specs.MachineSteps.{UnsealedIsPresent, MachineStepsStayLawful, ClaimsHaveRoom, MachinesAreNeverSpent, MachinesAreNeverRefused};
ghost use Rattle.partial_epochs.specs.Sealing.{SealsStayLawful, SealedPassesStayLawful};
ghost use Rattle.partial_epochs.specs.Entering.{LooksAreTrue, EnteringWordsStayLawful, EntriesLoad, ArrivalsStayLawful};
ghost use Rattle.partial_epochs.specs.Owning.{TakesStayLawful, GivesStayLawful, OwnersLook, OwnersLookAway, OthersAreElsewhere, EnteringWordsAreLoaded, PutsStayLawful};
ghost use Rattle.partial_epochs.specs.Publishing.{ClearSlotsCountAsSet, SetsStayLawful, PublishesStayLawful};
ghost use Rattle.partial_epochs.specs.Opening.{OpensOverLawful, EpochsOpenLawful};
ghost use Rattle.partial_epochs.specs.Notes.{EpochsFitOneHistory, NotesStayLawful, SightsStayLawful, GlancesStayLawful, AsidesStayLawful, ArrivalsKeepNotes, PublishesKeepNotes, PublicStampsAreUnique};
ghost use Rattle.partial_epochs.specs.Time.{OpeningsKeepTime, EnteringWordsKeepTime, EntriesKeepTime, ArrivalsKeepTime, LooksKeepTime, LoadedEnteringWordsKeepTime, PutsKeepTime, PublishesKeepTime, AsidesKeepTime, StepsKeepSites};
ghost use Rattle.partial_epochs.specs.EveryStep.{EveryStepStaysLawful, MemoriesOpenLawful};
ghost use Rattle.partial_epochs.specs.FreeArenas.{EveryStepCounts, FewComeFree, MeetingsKeepTally, OpeningsKeepTally, OwnedArenasAreInUse, OwnSitesAreInUse, SomeArenaIsFree};
ghost use Rattle.partial_epochs.specs.Reads.{ReadsAnswerOverEpochs, LastWordsAreFinal, ComponentsNameRecords, SeenRecordsStay};
ghost use Rattle.partial_epochs.specs.Collects.{CollectsStandTogether, EpochsAreHistories};

/// A memory as it opens is lawful, with nothing applied, whatever stands in the arenas that hold no epoch.
pub fn epochs_open_lawful()
    ensures { EpochsOpenLawful }
{}

/// An unsealed component word of the arena where a port stands shows that the port's epoch is the current one.
pub fn unsealed_is_present()
    ensures { UnsealedIsPresent }
{}

/// The due step of a port's machine, made in the arena where the port stands, keeps the memory lawful. This rests on
/// the law of steps of one memory, unchanged. An exchange that meets a seal over the very record that it expects
/// changes no word, and nothing is said of it to the machine.
pub fn machine_steps_stay_lawful()
    ensures { MachineStepsStayLawful }
{}

/// The next claim of a port that has made no claim past the limit ends within the pool, so it is never refused.
pub fn claims_have_room()
    ensures { ClaimsHaveRoom }
{}

/// In an arena with a slot for each port, no machine of a port is spent, neither for the pool nor for the slots, so no
/// call is refused at once for either.
pub fn machines_are_never_spent()
    ensures { MachinesAreNeverSpent }
{}

/// In such an arena no step of a machine ends its call with a refusal: each announcement finds a slot, since one is left
/// for each port after the slot limit, and a claim past that is its port's last.
pub fn machines_are_never_refused()
    ensures { MachinesAreNeverRefused }
{}

/// A fetch-and-add that seals the next component of the port's epoch keeps the memory lawful.
pub fn seals_stay_lawful()
    ensures { SealsStayLawful }
{}

/// So does a load that finds the next component sealed already.
pub fn sealed_passes_stay_lawful()
    ensures { SealedPassesStayLawful }
{}

/// A load of the current word shows a port whether its epoch is the current one. If it is not, that epoch has ended for
/// ever, and the port knows so from then on.
pub fn looks_are_true()
    ensures { LooksAreTrue }
{}

/// The first step of entering keeps the memory lawful: a port that knows that its epoch has ended stores its site with
/// the entering bit.
pub fn entering_words_stay_lawful()
    ensures { EnteringWordsStayLawful }
{}

/// The second step of entering loads the current site, and keeps the memory lawful.
pub fn entries_load()
    ensures { EntriesLoad }
{}

/// The third step of entering exchanges the entering word. The port then stands in the site that it loaded, or in a
/// later one that another port has put there, and the memory is lawful.
pub fn arrivals_stay_lawful()
    ensures { ArrivalsStayLawful }
{}

/// A port takes an arena in which it does not stand, by an exchange of the arena's owner word that is won. The memory
/// stays lawful.
pub fn takes_stay_lawful()
    ensures { TakesStayLawful }
{}

/// An owner may give its arena back at any time. The memory stays lawful.
pub fn gives_stay_lawful()
    ensures { GivesStayLawful }
{}

/// An owner that loads its own site as the current one keeps the memory lawful: its arena is not the current one.
pub fn owners_look()
    ensures { OwnersLook }
{}

/// An owner that loads another current site knows from then on that its epoch has ended. The memory stays lawful.
pub fn owners_look_away()
    ensures { OwnersLookAway }
{}

/// An owner that has looked, and finds the next port in another arena than its own, is done with that port. The memory
/// stays lawful: that port will not enter the owner's arena either.
pub fn others_are_elsewhere()
    ensures { OthersAreElsewhere }
{}

/// An owner that loads a port's word with the entering bit may hold that word. The memory stays lawful.
pub fn entering_words_are_loaded()
    ensures { EnteringWordsAreLoaded }
{}

/// An owner that holds the entering word of a port, and has since seen that its own epoch is the current one, may put
/// that port where it stands itself. When its exchange of that word is won, the memory stays lawful.
pub fn puts_stay_lawful()
    ensures { PutsStayLawful }
{}

/// An owner that is done with all other ports, and has found each component of its epoch sealed, sets the next word of
/// its arena. The memory stays lawful if it stores the next epoch's word, or if its epoch has ended; but in a slot it
/// stores 0 in any case.
pub fn sets_stay_lawful()
    ensures { SetsStayLawful }
{}

/// Such an owner loads the slot counter of its arena before it sets the slots from there on: they are 0, and count as
/// set. The memory stays lawful.
pub fn clear_slots_count_as_set()
    ensures { ClearSlotsCountAsSet }
{}

/// The exchange of the current word, by an owner that has set its whole arena, opens the next epoch when it is won, and
/// changes nothing when it is lost. Either way the memory is lawful.
pub fn publishes_stay_lawful()
    ensures { PublishesStayLawful }
{}

/// An arena that was used before opens lawful again once the words below the first free one are set, whatever stands
/// after them.
pub fn opens_over()
    ensures { OpensOverLawful }
{}

/// In the one history each epoch goes on with the values and the stamps that the epochs before it have left.
pub fn epochs_continue()
    ensures { EpochsContinue }
{}

/// What a read answers that saw some entries of its epoch is true of the one history, at the place after them.
pub fn reads_answer_over_epochs()
    ensures { ReadsAnswerOverEpochs }
{}

/// The histories of all epochs of a lawful memory, one after the other and with public stamps, are one history over the
/// first opening. Each port's notes are legal in it, and its entries there are those of its notes, each once and in
/// their order.
pub fn epochs_fit_one_history()
    ensures { EpochsFitOneHistory }
{}

/// No two entries of the one history have one public stamp, whatever their epochs, and each public stamp fits a word.
pub fn public_stamps_are_unique()
    ensures { PublicStampsAreUnique }
{}

/// The words of the arena where a port stands name the last record of each component, with the value and the public
/// stamp that it has in the one history. No step of a machine applies anything to a component that is sealed, so what
/// a port reads after its last seal is final.
pub fn last_words_are_final()
    ensures { LastWordsAreFinal }
{}

/// The component word of the arena where a port stands, with its seals taken off, names the record that the component
/// has after the history of the port's epoch.
pub fn components_name_records()
    ensures { ComponentsNameRecords }
{}

/// What a port that stands has seen of its epoch stays in the words of its arena, whatever other ports do: the record
/// of each component at each length of the history that it has seen, with its value, and the carried stamp.
pub fn seen_records_stay()
    ensures { SeenRecordsStay }
{}

/// The history of the epoch where a port stands is a history over what the epochs before have left: its stamps are
/// distinct, and none is an initial one.
pub fn epochs_are_histories()
    ensures { EpochsAreHistories }
{}

/// What two collects of a scan found that have equal stamps stood together, with its values, at each moment between the
/// last load of the first collect and the first load of the second.
pub fn collects_stand_together()
    ensures { CollectsStandTogether }
{}

/// Each step of a port's machine keeps the memory lawful with its notes. What the port notes of its epoch it notes over
/// all epochs with public stamps, if its earlier notes show no more than it had seen as the call began. A call that has
/// no entry in the history may go unnoted, as a scan does that is made again in a later epoch.
pub fn notes_stay_lawful()
    ensures { NotesStayLawful }
{}

/// A port that has looked at its epoch may note an answer that is true there, at a place after all that its notes show,
/// and keeps the memory lawful. So reads, and conditional updates that find another stamp, need no step of a machine.
pub fn sights_stay_lawful()
    ensures { SightsStayLawful }
{}

/// A port that stands may see the whole history of its epoch and note nothing, and keeps the memory lawful.
pub fn glances_stay_lawful()
    ensures { GlancesStayLawful }
{}

/// A step that changes neither histories nor what its port has seen, its site or its notes keeps the memory lawful with
/// all notes, where it keeps its lawful state of all epochs.
pub fn asides_stay_lawful()
    ensures { AsidesStayLawful }
{}

/// A port that enters a later epoch keeps the memory lawful with all notes.
pub fn arrivals_keep_notes()
    ensures { ArrivalsKeepNotes }
{}

/// The exchange that opens the next epoch keeps the memory lawful with all notes. In the one history nothing changes.
pub fn publishes_keep_notes()
    ensures { PublishesKeepNotes }
{}

/// A memory as it opens keeps time: each port's last entering is of the first epoch.
pub fn openings_keep_time()
    ensures { OpeningsKeepTime }
{}

/// The first step of entering keeps time: from then on the port enters no older epoch than the one that is the current
/// one at that step. No other port may put it yet.
pub fn entering_words_keep_time()
    ensures { EnteringWordsKeepTime }
{}

/// The second step of entering, the load of the current site, keeps time.
pub fn entries_keep_time()
    ensures { EntriesKeepTime }
{}

/// The third step of entering keeps time: the port enters an epoch that is no older than the one that was the current
/// one as it stored its entering word, whether it loaded that site itself or another port put it there.
pub fn arrivals_keep_time()
    ensures { ArrivalsKeepTime }
{}

/// An owner that loads its own site as the current one keeps time: it may put a port there whose entering word it holds.
pub fn looks_keep_time()
    ensures { LooksKeepTime }
{}

/// An owner that loads an entering word keeps time: it may not put that port before it has looked again.
pub fn loaded_entering_words_keep_time()
    ensures { LoadedEnteringWordsKeepTime }
{}

/// An owner that puts an entering port where it stands itself keeps time.
pub fn puts_keep_time()
    ensures { PutsKeepTime }
{}

/// The exchange that opens the next epoch keeps time.
pub fn publishes_keep_time()
    ensures { PublishesKeepTime }
{}

/// A step that changes no port's word and site, and by which no port becomes one that may put another, keeps time.
pub fn asides_keep_time()
    ensures { AsidesKeepTime }
{}

/// A step made in an arena, the store of a word that an owner sets, and a step on an owner word change no port's word.
pub fn steps_keep_sites()
    ensures { StepsKeepSites }
{}

/// A memory as it opens is lawful, and nobody has noted anything.
pub fn memories_open_lawful()
    ensures { MemoriesOpenLawful }
{}

/// The one law of the long-lived memory: from a lawful memory, whatever step a port makes next, the memory is lawful
/// again, all other ports and their notes are as they were, and a memory that kept time keeps it.
pub fn every_step_stays_lawful()
    ensures { EveryStepStaysLawful }
{}

/// The bound on how often arenas come free in one current epoch is at most n * (2 * n + 3) for n ports.
pub fn few_come_free()
    ensures { FewComeFree }
{}

/// For a port that owns no arena, each arena whose owner word is not 0 is in use.
pub fn owned_arenas_are_in_use()
    ensures { OwnedArenasAreInUse }
{}

/// The arena where a port stands is in use.
pub fn own_sites_are_in_use()
    ensures { OwnSitesAreInUse }
{}

/// With two arenas for each port, some arena is neither named by a port's word nor owned by another port.
pub fn some_arena_is_free()
    ensures { SomeArenaIsFree }
{}

/// A memory as it opens keeps its tally: no port owns an arena, and all counts are 0.
pub fn openings_keep_tally()
    ensures { OpeningsKeepTally }
{}

/// Every step of every port keeps the tally. While the current epoch stays, each arena that may come free lowers the
/// bound on how often arenas may come free from then on, and no step raises it. An arena that is in use stays in use,
/// unless the tally counts that one may have come free.
pub fn every_step_counts()
    ensures { EveryStepCounts }
{}

/// A port that has met another one in the arena that it owns may say so in the tally.
pub fn meetings_keep_tally()
    ensures { MeetingsKeepTally }
{}
