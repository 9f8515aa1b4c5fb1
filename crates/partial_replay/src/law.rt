//! Laws about whole replays. The functions have no code: their contracts hold of the definitions by which
//! the contract of `replay` is stated.

ghost use Rattle.partial_replay.specs.Alone.{OnePortIsAlone};
ghost use Rattle.partial_replay.specs.OneOutcome.{PlansHaveOneOutcome};
ghost use Rattle.partial_replay.specs.ScanSteps.{AnsweredScansMakeTheirSteps};

/// In the replay of a plan with one port no update is lost, each scan and read answers the whole history so
/// far, and a conditional update is applied exactly when its component has the expected stamp. Refused and
/// unfinished calls aside.
pub fn one_port_is_alone()
    ensures { OnePortIsAlone }
{}

/// In the replay of a plan an answered scan of r positions, r at least 1, that made c collects has made `r
/// (c + 2) + 5` steps, or, when it took a view of which it loaded n pairs, at most `r (c + 1) + 2 n + 7`.
/// The pairs are those of its own events in the trace: as many as it has steps, after those of the earlier
/// calls of its port.
pub fn answered_scans_make_their_steps()
    ensures { AnsweredScansMakeTheirSteps }
{}

/// Two outcomes of one plan are equal: one opening, one history, the same calls with their begins, steps,
/// ends, answers and notes, the same words at the end and the same trace. So whatever is read off an
/// outcome, its text and its verdict included, is a function of the plan.
pub fn plans_have_one_outcome()
    ensures { PlansHaveOneOutcome }
{}
