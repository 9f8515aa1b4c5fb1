//! The check without memory and the checker, of outcomes that are lawful and of ones with one thing turned.

use super::rows::rows;
use crate::replays::replayed;
use partial_model::{Answer, Applied, Called, Checker, Note, Sequence, check_outcome};
use partial_replay::Outcome;
use std::alloc::{AllocError, Global};
use std::mem;
use std::process::Abort;
use std::test::Fail;

/// What the check without memory answers, and what the checker does.
fn verdicts(alloc: Global, outcome: &Outcome) -> Result<(bool, bool), AllocError> {
    let checker = Checker::new(alloc, &outcome.opening, &outcome.history)?;
    let plain = check_outcome(&outcome.opening, &outcome.history, &outcome.calls);
    Ok((plain, checker.check(&outcome.calls)))
}

/// The scan's answer with its first value turned. None where there is no value.
fn turned_scan(
    alloc: Global,
    values: &[u64],
    collects: u32,
    borrowed: Option<u64>,
) -> Result<Option<Answer>, AllocError> {
    let mut values = Vec::from_slice(alloc, values)?;
    if values.is_empty() {
        return Ok(None);
    }
    values[0] ^= 1;
    Ok(Some(Answer::Scanned {
        values: Sequence::from(values),
        collects,
        borrowed,
    }))
}

/// The answer with its first number turned. None where it has no number that has to be as it is.
fn turned(alloc: Global, answer: &Answer) -> Result<Option<Answer>, AllocError> {
    let other = match answer {
        Answer::Applied { stamp } => Answer::Applied { stamp: *stamp ^ 1 },
        Answer::Lost { by } => Answer::Lost { by: *by ^ 1 },
        Answer::Changed { by } => Answer::Changed { by: *by ^ 1 },
        Answer::Read { value, stamp } => Answer::Read {
            value: *value ^ 1,
            stamp: *stamp,
        },
        Answer::Scanned {
            values,
            collects,
            borrowed,
        } => return turned_scan(alloc, values.as_slice(), *collects, *borrowed),
        Answer::Refused { .. } => return Ok(None),
    };
    Ok(Some(other))
}

/// The call's answer, where it is finished.
fn answer_of(calls: &[Called], index: usize) -> Option<&Answer> {
    match &calls.get(index)?.finish {
        None => None,
        Some(finish) => Some(&finish.answer),
    }
}

/// Exchanges the call's answer with the other one.
fn swap_answer(calls: &mut [Called], index: usize, other: &mut Answer) {
    if let Some(called) = calls.get_mut(index) {
        if let Some(finish) = &mut called.finish {
            mem::swap(&mut finish.answer, other);
        }
    }
}

/// The note of the call, where it is finished and not refused.
fn note_of(calls: &[Called], index: usize) -> Option<Note> {
    match &calls.get(index)?.finish {
        None => None,
        Some(finish) => finish.note,
    }
}

/// The note one place further on.
fn further(note: Note) -> Note {
    match note {
        Note::Wrote(place) => Note::Wrote(place.saturating_add(1)),
        Note::Lost(place) => Note::Lost(place.saturating_add(1)),
        Note::Saw(prefix) => Note::Saw(prefix.saturating_add(1)),
    }
}

/// Puts the note in place of the call's own.
fn put_note(calls: &mut [Called], index: usize, note: Note) {
    if let Some(called) = calls.get_mut(index) {
        if let Some(finish) = &mut called.finish {
            finish.note = Some(note);
        }
    }
}

/// The entry with one of its numbers turned.
fn turned_entries(entry: Applied) -> [Applied; 4] {
    let Applied {
        port,
        component,
        value,
        stamp,
    } = entry;
    [
        Applied {
            port: port ^ 1,
            ..entry
        },
        Applied {
            component: component ^ 1,
            ..entry
        },
        Applied {
            value: value ^ 1,
            ..entry
        },
        Applied {
            stamp: stamp ^ 1,
            ..entry
        },
    ]
}

/// Puts the entry at the place of another one.
fn put_entry(history: &mut [Applied], place: usize, entry: Applied) {
    if let Some(other) = history.get_mut(place) {
        *other = entry;
    }
}

/// What both answer with the answer in place of the call's own. The call's own is put back.
fn verdicts_with_answer(
    alloc: Global,
    outcome: &mut Outcome,
    index: usize,
    mut other: Answer,
) -> Result<(bool, bool), AllocError> {
    swap_answer(&mut outcome.calls, index, &mut other);
    let answers = verdicts(alloc, outcome);
    swap_answer(&mut outcome.calls, index, &mut other);
    answers
}

/// Judges the outcome with the answer in place of the call's own.
fn judge_answer(
    rt: &impl Abort,
    alloc: Global,
    name: &str,
    outcome: &mut Outcome,
    index: usize,
    other: Answer,
) -> Result<(), AllocError> {
    let answers = verdicts_with_answer(alloc, outcome, index, other)?;
    assert_eq!(rt; answers, (false, false), "{name} {index}");
    Ok(())
}

/// The call's answer with its first number turned, where there is such an answer.
fn turned_answer(
    alloc: Global,
    calls: &[Called],
    index: usize,
) -> Result<Option<Answer>, AllocError> {
    match answer_of(calls, index) {
        None => Ok(None),
        Some(answer) => turned(alloc, answer),
    }
}

/// Judges the outcome with each of its answers turned, and says how many have a number to turn.
fn judge_answers(
    rt: &impl Abort,
    alloc: Global,
    name: &str,
    outcome: &mut Outcome,
) -> Result<u32, AllocError> {
    let mut tried = 0u32;
    for index in 0..outcome.calls.len() {
        let other = turned_answer(alloc, &outcome.calls, index)?;
        if let Some(other) = other {
            judge_answer(rt, alloc, name, outcome, index, other)?;
            tried = tried.saturating_add(1);
        }
    }
    Ok(tried)
}

/// Judges what comes of the plan with each of its answers turned, and says how many have a number to turn.
fn judge_plan_answers(
    rt: &impl Abort,
    alloc: Global,
    name: &str,
    plan: &[u8],
) -> Result<u32, Fail> {
    let mut outcome = replayed(alloc, plan)?;
    Ok(judge_answers(rt, alloc, name, &mut outcome)?)
}

// An answer with its first number turned isn't right. The count is that of the answers in the rows' texts.
#[test]
fn turned_answers_pass_neither(rt: HostRuntime) -> Result<(), Fail> {
    let mut tried = 0u32;
    for (name, plan, _) in rows() {
        let turned = judge_plan_answers(&rt, rt.alloc(), name, plan)?;
        tried = tried.saturating_add(turned);
    }
    assert_eq!(rt; tried, 56);
    Ok(())
}

/// What both answer with the note one place further on. The call's own is put back.
fn verdicts_with_note(
    alloc: Global,
    outcome: &mut Outcome,
    index: usize,
    own: Note,
) -> Result<(bool, bool), AllocError> {
    put_note(&mut outcome.calls, index, further(own));
    let answers = verdicts(alloc, outcome);
    put_note(&mut outcome.calls, index, own);
    answers
}

/// Judges the outcome with the note one place further on.
fn judge_note(
    rt: &impl Abort,
    alloc: Global,
    name: &str,
    outcome: &mut Outcome,
    index: usize,
    own: Note,
) -> Result<(), AllocError> {
    let answers = verdicts_with_note(alloc, outcome, index, own)?;
    if let Note::Saw(_) = own {
        assert_eq!(rt; answers.0, answers.1, "{name} {index}");
    } else {
        assert_eq!(rt; answers, (false, false), "{name} {index}");
    }
    Ok(())
}

/// Judges the outcome with each of its notes turned, and says how many are of updates.
fn judge_notes(
    rt: &impl Abort,
    alloc: Global,
    name: &str,
    outcome: &mut Outcome,
) -> Result<u32, AllocError> {
    let mut tried = 0u32;
    for index in 0..outcome.calls.len() {
        let own = note_of(&outcome.calls, index);
        if let Some(own) = own {
            judge_note(rt, alloc, name, outcome, index, own)?;
            if !matches!(own, Note::Saw(_)) {
                tried = tried.saturating_add(1);
            }
        }
    }
    Ok(tried)
}

/// Judges what comes of the plan with each of its notes turned, and says how many are of updates.
fn judge_plan_notes(rt: &impl Abort, alloc: Global, name: &str, plan: &[u8]) -> Result<u32, Fail> {
    let mut outcome = replayed(alloc, plan)?;
    Ok(judge_notes(rt, alloc, name, &mut outcome)?)
}

// No other entry has an update's stamp, so its answer is wrong one place further on. A read or a scan may be right there.
#[test]
fn turned_notes_pass_neither_or_both(rt: HostRuntime) -> Result<(), Fail> {
    let mut tried = 0u32;
    for (name, plan, _) in rows() {
        let turned = judge_plan_notes(&rt, rt.alloc(), name, plan)?;
        tried = tried.saturating_add(turned);
    }
    assert_eq!(rt; tried, 38);
    Ok(())
}

/// Judges the outcome with the entry in place of its own.
fn judge_other_entry(
    rt: &impl Abort,
    alloc: Global,
    name: &str,
    outcome: &mut Outcome,
    place: usize,
    other: Applied,
) -> Result<(), AllocError> {
    put_entry(&mut outcome.history, place, other);
    let answers = verdicts(alloc, outcome)?;
    assert_eq!(rt; answers, (false, false), "{name} {place}");
    Ok(())
}

/// Judges the outcome with each number of the entry turned, and puts the entry back.
fn judge_entry(
    rt: &impl Abort,
    alloc: Global,
    name: &str,
    outcome: &mut Outcome,
    place: usize,
    own: Applied,
) -> Result<(), AllocError> {
    for other in turned_entries(own) {
        judge_other_entry(rt, alloc, name, outcome, place, other)?;
    }
    put_entry(&mut outcome.history, place, own);
    Ok(())
}

/// Judges the outcome with each of its entries turned, and says how many it has.
fn judge_entries(
    rt: &impl Abort,
    alloc: Global,
    name: &str,
    outcome: &mut Outcome,
) -> Result<u32, AllocError> {
    let mut tried = 0u32;
    for place in 0..outcome.history.len() {
        let own = outcome.history.get(place).copied();
        if let Some(own) = own {
            judge_entry(rt, alloc, name, outcome, place, own)?;
            tried = tried.saturating_add(1);
        }
    }
    Ok(tried)
}

/// Judges that the outcome passes neither when it was turned so.
fn judge_turned(
    rt: &impl Abort,
    alloc: Global,
    name: &str,
    outcome: &Outcome,
    told: &str,
) -> Result<(), AllocError> {
    let answers = verdicts(alloc, outcome)?;
    assert_eq!(rt; answers, (false, false), "{name} {told}");
    Ok(())
}

/// Judges the outcome without its last entry, and with that entry twice.
fn judge_last_entry(
    rt: &impl Abort,
    alloc: Global,
    name: &str,
    outcome: &mut Outcome,
) -> Result<(), AllocError> {
    if let Some(last) = outcome.history.pop() {
        judge_turned(rt, alloc, name, outcome, "without its last entry")?;
        outcome.history.push(last)?;
        outcome.history.push(last)?;
        judge_turned(rt, alloc, name, outcome, "with an entry twice")?;
    }
    Ok(())
}

/// Judges what comes of the plan with its history turned, and says how many entries it has.
fn judge_plan_entries(
    rt: &impl Abort,
    alloc: Global,
    name: &str,
    plan: &[u8],
) -> Result<u32, Fail> {
    let mut outcome = replayed(alloc, plan)?;
    let turned = judge_entries(rt, alloc, name, &mut outcome)?;
    judge_last_entry(rt, alloc, name, &mut outcome)?;
    Ok(turned)
}

// Each entry is claimed by a call as it is, so no number of it may be another, and none may be left out or doubled.
#[test]
fn turned_histories_pass_neither(rt: HostRuntime) -> Result<(), Fail> {
    let mut tried = 0u32;
    for (name, plan, _) in rows() {
        let turned = judge_plan_entries(&rt, rt.alloc(), name, plan)?;
        tried = tried.saturating_add(turned);
    }
    assert_eq!(rt; tried, 36);
    Ok(())
}
