//! The arrows of a picture: from the exchange that applied an entry to the step of a call that met it.

ghost use Rattle.std.specs.Prelude.{◌≡◌, ℕ, ◌-◌, All, IfOk, IfSome};
ghost use Rattle.std.specs.BTreeMap.{get};
ghost use Rattle.std.specs.List.{filter_map};
ghost use Rattle.std.specs.Ordering.{nat_cmp};
ghost use Rattle.partial_picture.specs.Arrows.{IsArrowWithin, arrow_of, last_load, loads_at, loads_stamp, met_at, met_of, entry_step};

use crate::picture::{Arrow, ArrowKind};
use crate::spans::Made;
use crate::window::Span;
use partial_model::{Answer, Applied, Called};
use partial_replay::{Event, Outcome};
use partial_words::Step;
use std::alloc::{AllocError, Global};
use std::collections::BTreeMap;

/// The step of each exchange that applied an entry, by the stamp of the entry.
fn steps_by_stamp(
    alloc: Global,
    history: &[Applied],
    steps: &[usize],
) -> Result<BTreeMap<u64, usize>, AllocError>
    ensures { IfOk result (λ found. (stamp : ℕ) → get nat_cmp found stamp ≡ entry_step history.now steps.now stamp) }
{
    history
        .iter()
        .zip(steps)
        .map(|(entry, step)| (entry.stamp, *step))
        .collect(alloc)
}

/// Whether the event is a load of one of m component words that returned this stamp.
fn shows(m: usize, event: &Event, stamp: u64) -> bool
    ensures { result ≡ loads_stamp m stamp event.now.step event.now.answer }
{
    match event.step {
        Step::Load(word) => (word as usize) < m && event.answer == stamp,
        _ => false,
    }
}

/// Whether the step is such a load.
fn shows_at(m: usize, trace: &[Event], step: usize, stamp: u64) -> bool
    ensures { result ≡ loads_at m stamp trace.now step }
{
    match trace.get(step) {
        Some(event) => shows(m, event, stamp),
        None => false,
    }
}

/// The last of these steps that loaded the stamp.
fn last_shown(m: usize, trace: &[Event], steps: &[usize], stamp: u64) -> Option<usize>
    ensures { result ≡ last_load m stamp trace.now steps.now }
{
    steps
        .iter()
        .rev()
        .copied()
        .find(|step| shows_at(m, trace, *step, stamp))
}

/// What the answer of a call says of an entry that it met, and the stamp of the entry.
fn met_of(called: &Called) -> Option<(ArrowKind, u64)>
    ensures { result ≡ met_of called.now.finish }
{
    let finish = called.finish.as_ref()?;
    match &finish.answer {
        Answer::Lost { by } | Answer::Changed { by } => Some((ArrowKind::Overtook, *by)),
        Answer::Scanned {
            borrowed: Some(stamp),
            ..
        } => Some((ArrowKind::Lent, *stamp)),
        _ => None,
    }
}

/// The step of a call that met an entry. An update was overtaken at its last step, which met the other stamp,
/// and a scan took the view of the stamp that it had loaded last.
fn met_at(kind: ArrowKind, m: usize, trace: &[Event], steps: &[usize], stamp: u64) -> Option<usize>
    ensures { result ≡ met_at kind m stamp trace.now steps.now }
{
    match kind {
        ArrowKind::Overtook => steps.last().copied(),
        ArrowKind::Lent => last_shown(m, trace, steps, stamp),
    }
}

/// The arrow to a call, when both its ends are in the window. An entry from before the call has overtaken nothing.
fn arrow_in<'a>(
    m: usize,
    window: Span,
    trace: &[Event],
    made: &Made<'a, '_>,
    by_stamp: &BTreeMap<u64, usize>,
) -> Option<Arrow<'a>>
    ensures value { result ≡ arrow_of m window trace.now (get nat_cmp by_stamp.now) made.now }
    ensures within { IfSome result (IsArrowWithin (window.behind - window.first)) }
{
    let (kind, stamp) = met_of(made.called)?;
    let from = *by_stamp.get(&stamp)?;
    let to = met_at(kind, m, trace, made.steps, stamp)?;
    if !made.span.contains(from) || !window.contains(from) || !window.contains(to) {
        return None;
    }
    Some(Arrow {
        kind,
        stamp,
        from: from - window.first,
        to: to - window.first,
        called: made.called,
    })
}

/// The arrows that have both ends in the window.
pub(crate) fn arrows_of<'a>(
    alloc: Global,
    m: usize,
    window: Span,
    outcome: &Outcome,
    made: &[Made<'a, '_>],
    entries: &[usize],
) -> Result<Vec<Arrow<'a>>, AllocError>
    ensures items { IfOk result (λ arrows. arrows.items ≡ filter_map (arrow_of m window outcome.now.trace.items
        (entry_step outcome.now.history.items entries.now)) made.now) }
    ensures within { IfOk result (λ arrows. All (IsArrowWithin (window.behind - window.first)) arrows.items) }
{
    let by_stamp = steps_by_stamp(alloc, &outcome.history, entries)?;
    made.iter()
        .filter_map(|call| arrow_in(m, window, &outcome.trace, call, &by_stamp))
        .collect(alloc)
}
