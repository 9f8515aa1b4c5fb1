//! Laws about whole calls. The functions have no code: each contract is a theorem about the
//! definitions that the machine's own contracts use.

ghost use Rattle.partial_machine.specs.Behind.{AnswersLeadOn, DueIsUnreplied, DueWordsAreThere, CallsBegin, RestsAreSound, CallsAreRefusedAtOnce};
ghost use Rattle.partial_machine.specs.Claims.{CallsClaimOnce};
ghost use Rattle.partial_machine.specs.Components.{CallsLoadTheirComponents, CallsMakeEmbeddedScans, EmbeddedScansEndWell};
ghost use Rattle.partial_machine.specs.Steps.{StaysSound, MakesFewSteps, ReadsInTwo, ScansMakeTheirSteps};

/// For all possible answers, a machine stays sound, and each answer leaves it fewer steps to make.
pub fn machines_stay_sound()
    ensures { StaysSound }
{}

/// For all possible answers, a call makes no more steps than a bound. A read makes at most 2. An
/// update of a memory with m components, S slots and L list words makes at most
/// `S (m + 3) + L + 6 + E(m) + 2 m + 7`. A scan of r positions makes at most `E(r) + r + 5`. Here
/// `E(r) = r (r + 2) + 2 m + 2`.
pub fn calls_make_few_steps()
    ensures { MakesFewSteps }
{}

/// For all possible answers, a read makes 2 steps.
pub fn reads_make_two_steps()
    ensures { ReadsInTwo }
{}

/// A scan of r positions with c collects makes `r (c + 2) + 5` steps if it borrows no view. It
/// makes at most `r (c + 1) + 2 n + 7` steps if it borrows a view of n pairs.
pub fn scans_make_their_steps()
    ensures { ScansMakeTheirSteps }
{}

/// A sound machine stays sound after each possible answer. Afterwards it has a reply exactly when
/// it rests; otherwise a step is due. Its call is refused only when a claim of pool words or of a
/// slot went past the end of its region, and that claim marks the port. Old marks stay, and no
/// other mark is set.
pub fn answers_lead_on()
    ensures { AnswersLeadOn }
{}

/// When a call is not refused at once, the machine begins it and is otherwise unchanged. Only a
/// scan of no position is finished by that alone.
pub fn calls_begin()
    ensures { CallsBegin }
{}

/// When a call is refused at once, the cause is one for which it may be refused: a component that
/// does not exist, or a mark that the port has.
pub fn calls_are_refused_at_once()
    ensures { CallsAreRefusedAtOnce }
{}

/// The word of the step that is due is one of the memory's words, whatever the answers were.
pub fn due_words_are_there()
    ensures { DueWordsAreThere }
{}

/// A machine with a step due has no reply.
pub fn due_is_unreplied()
    ensures { DueIsUnreplied }
{}

/// A machine that has made no call is sound, and so is a machine whose reply was taken.
pub fn rests_are_sound()
    ensures { RestsAreSound }
{}

/// A call makes at most one claim of pool words and at most one claim of a slot.
pub fn calls_claim_once()
    ensures { CallsClaimOnce }
{}

/// The embedded scan of a call is a run of the machine of embedded scans. In a scan it covers the
/// scan's own positions. In an update it covers the indices that its getSet found, and the update
/// shares a view that it borrows.
pub fn calls_make_embedded_scans()
    ensures { CallsMakeEmbeddedScans }
{}

/// The embedded scan of a call ends with two equal collects or with a third record at one position.
/// It makes at most two collects more than it has positions.
pub fn embedded_scans_end_well()
    ensures { EmbeddedScansEndWell }
{}

/// A scan loads only the component words of its positions. An update loads only its own component
/// word and those that its getSet found. A read loads only its own.
pub fn calls_load_their_components()
    ensures { CallsLoadTheirComponents }
{}
