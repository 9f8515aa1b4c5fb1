//! Which steps of the replay each call made.

ghost use Rattle.std.specs.Prelude.{◌≡◌, ◌≤◌, ◌+◌, [], min, map, length, take, drop, IfOk};
ghost use Rattle.partial_replay.specs.Trace.{is_won};
ghost use Rattle.partial_picture.specs.Made.{between_of, call_span, end_behind, made_by_ports, made_seen, steps_by_port};
ghost use Rattle.partial_picture.specs.Pins.{won_steps};

use crate::window::Span;
use partial_model::Called;
use partial_replay::{Event, Outcome};
use partial_words::Step;
use std::alloc::{AllocError, Global};

/// Whether the event is a won exchange of one of m component words.
pub(crate) fn adds_entry(m: usize, event: &Event) -> bool
    ensures { result ≡ is_won m event.now.step event.now.answer }
{
    match event.step {
        Step::Exchange(word, old, _) => (word as usize) < m && event.answer == old,
        _ => false,
    }
}

/// The step of each entry of the history: the won exchanges of component words, in order.
pub(crate) fn entry_steps(
    alloc: Global,
    m: usize,
    trace: &[Event],
) -> Result<Vec<usize>, AllocError>
    ensures { IfOk result (λ steps. steps.items ≡ won_steps m trace.now) }
{
    trace
        .iter()
        .enumerate()
        .filter(|(_, event)| adds_entry(m, event))
        .map(|(step, _)| step)
        .collect(alloc)
}

/// Room for the steps of so many ports, and no step yet.
fn no_steps(alloc: Global, ports: usize) -> Result<Vec<Vec<usize>>, AllocError>
    ensures { IfOk result (λ steps. map (λ own. own.items) steps.items ≡ steps_by_port ports []) }
{
    let mut steps = Vec::with_capacity(alloc, ports)?;
    for _port in 0..ports {
        steps.push(Vec::new(alloc))?;
    }
    Ok(steps)
}

/// The steps of each of so many ports, in order.
pub(crate) fn port_steps(
    alloc: Global,
    ports: usize,
    trace: &[Event],
) -> Result<Vec<Vec<usize>>, AllocError>
    ensures { IfOk result (λ steps. map (λ own. own.items) steps.items ≡ steps_by_port ports trace.now) }
{
    let mut steps = no_steps(alloc, ports)?;
    for step in 0..trace.len() {
        let port = trace[step].port as usize;
        if port < ports {
            steps[port].push(step)?;
        }
    }
    Ok(steps)
}

/// The steps that a call made.
#[derive(Clone, Copy)]
pub(crate) struct Made<'o, 's> {
    pub(crate) called: &'o Called,
    /// From its first step to its last one. A call without a step comes before the step `first`.
    pub(crate) span: Span,
    /// The numbers of its steps.
    pub(crate) steps: &'s [usize],
}

/// The index after the last of these steps, or 0 when there is none.
fn end_of(steps: &[usize]) -> usize
    ensures { result ≡ end_behind steps.now }
{
    match steps.last() {
        Some(last) => last.saturating_add(1),
        None => 0,
    }
}

/// Where a call without a step is drawn: before its port's next step. When there is none, after the port's
/// last step and after the entries that the history had when the call began.
fn between(own: &[usize], left: &[usize], entries: &[usize], began: usize) -> usize
    ensures { result ≡ between_of own.now left.now entries.now began }
{
    match left {
        [next, ..] => *next,
        [] => end_of(own).max(end_of(&entries[..began.min(entries.len())])),
    }
}

/// What the next call of a port made, whose calls so far have made so many of its steps.
fn made_next<'o, 's>(
    own: &'s [usize],
    taken: usize,
    entries: &[usize],
    called: &'o Called,
) -> Made<'o, 's>
    requires { taken ≤ length own.now }
    ensures { made_seen result ≡ call_span own.now taken entries.now called.now }
{
    let rest = &own[taken..];
    let (steps, left) = rest.split_at((called.steps as usize).min(rest.len()));
    let span = match steps {
        [] => {
            let between = between(own, left, entries, called.began);
            Span {
                first: between,
                behind: between,
            }
        }
        [first, ..] => Span {
            first: *first,
            behind: end_of(steps),
        },
    };
    Made {
        called,
        span,
        steps,
    }
}

/// How many of a port's steps its calls have made with the next one.
fn taken_with(own: &[usize], taken: usize, called: &Called) -> usize
    requires { taken ≤ length own.now }
    ensures { result ≡ min (taken + called.now.steps) (length own.now) }
{
    taken.saturating_add(called.steps as usize).min(own.len())
}

/// What each call made, given the steps of each port and of each entry.
pub(crate) fn made_by_calls<'o, 's>(
    alloc: Global,
    outcome: &'o Outcome,
    ports: &'s [Vec<usize>],
    entries: &[usize],
) -> Result<Vec<Made<'o, 's>>, AllocError>
    ensures { IfOk result (λ made. map made_seen made.items
        ≡ made_by_ports (map (λ own. own.items) ports.now) entries.now outcome.now.calls.items) }
{
    let mut taken = vec![in alloc; 0usize; ports.len()]?;
    let mut made = Vec::with_capacity(alloc, outcome.calls.len())?;
    for called in &outcome.calls {
        let port = called.port as usize;
        if port < ports.len() {
            let own = ports[port].as_slice();
            let count = taken[port];
            made.push(made_next(own, count, entries, called))?;
            taken[port] = taken_with(own, count, called);
        }
    }
    Ok(made)
}
