//! The words in which the rows are written down.

use partial_model::{
    Answer, Applied, Call, Called, Checker, Finish, Note, Opening, Sequence, check_outcome,
};
use std::alloc::{AllocError, Global};
use std::test::Fail;

/// An entry of the history.
pub(super) fn applied(port: u32, component: u32, value: u64, stamp: u64) -> Applied {
    Applied {
        port,
        component,
        value,
        stamp,
    }
}

pub(super) fn update(component: u32, value: u64) -> Call {
    Call::Update { component, value }
}

pub(super) fn update_if(component: u32, expected: u64, value: u64) -> Call {
    Call::UpdateIf {
        component,
        expected,
        value,
    }
}

pub(super) fn read(component: u32) -> Call {
    Call::Read { component }
}

pub(super) fn scan(alloc: Global, components: &[u32]) -> Result<Call, AllocError> {
    Ok(Call::Scan {
        components: Sequence::from(Vec::from_slice(alloc, components)?),
    })
}

pub(super) fn scanned(
    alloc: Global,
    values: &[u64],
    collects: u32,
    borrowed: Option<u64>,
) -> Result<Answer, AllocError> {
    Ok(Answer::Scanned {
        values: Sequence::from(Vec::from_slice(alloc, values)?),
        collects,
        borrowed,
    })
}

/// The first scan of a port, which began with no entry, with the history's length at its end, its answer and the prefix
/// that it saw.
pub(super) fn first_scan(
    alloc: Global,
    port: u32,
    components: &[u32],
    ended: usize,
    seen: Answer,
    prefix: usize,
) -> Result<Called, AllocError> {
    let call = scan(alloc, components)?;
    Ok(called(port, 0, call, (0, ended), seen, Some(Note::Saw(prefix))))
}

/// A finished call of a port, with its number, the history's lengths at its begin and its end, its answer
/// and its note.
pub(super) fn called(
    port: u32,
    number: u32,
    call: Call,
    span: (usize, usize),
    answer: Answer,
    note: Option<Note>,
) -> Called {
    Called {
        port,
        number,
        call,
        began: span.0,
        steps: 0,
        finish: Some(Finish {
            ended: span.1,
            answer,
            note,
        }),
    }
}

/// Whether the history and the calls are lawful, when two components open with 10 and 20 and with the
/// stamps 18 and 21. It fails when the check without memory and the checker answer differently.
pub(super) fn verdict<const N: usize>(
    alloc: Global,
    history: &[Applied],
    calls: [Called; N],
) -> Result<bool, Fail> {
    let answer = verdict_of(alloc, history, &calls);
    drop(calls);
    answer
}

fn verdict_of(alloc: Global, history: &[Applied], calls: &[Called]) -> Result<bool, Fail> {
    let opening = Opening {
        values: Sequence::from(vec![in alloc; 10, 20]?),
        first: 18,
    };
    let answer = agreed(alloc, &opening, history, calls);
    drop(opening);
    answer
}

/// What both of them answer.
pub(super) fn both<const N: usize>(
    alloc: Global,
    opening: &Opening,
    history: &[Applied],
    calls: [Called; N],
) -> Result<bool, Fail> {
    let answer = agreed(alloc, opening, history, &calls);
    drop(calls);
    answer
}

// The same of calls that are lent.
fn agreed(
    alloc: Global,
    opening: &Opening,
    history: &[Applied],
    calls: &[Called],
) -> Result<bool, Fail> {
    let plain = check_outcome(opening, history, calls);
    let checker = Checker::new(alloc, opening, history)?;
    let checked = checker.check(calls);
    drop(checker);
    if checked == plain {
        Ok(plain)
    } else {
        Err(Fail::new("the two answer otherwise"))
    }
}
