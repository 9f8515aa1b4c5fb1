//! Whether a call's answer with its note is right.

ghost use Rattle.std.specs.Prelude.{◌≡◌, ◌==◌, ◌&&◌, ◌<◌, ◌≤◌, not, nat_le, nat_lt, length, take};
ghost use Rattle.std.specs.List.{AllByRecursion};
ghost use Rattle.partial_model.specs.History.{initial_stamp, value_of, stamp_of};
ghost use Rattle.partial_model.specs.Notes.{indices_of, place_of};
ghost use Rattle.partial_model.specs.Inner.Checks.{names_components, claims_pool, claims_slot, may_be_refused, stands_at, is_entry_for, are_collects, hold, saw_together, is_right, is_legal};

use crate::call::{Answer, Call, Finish, Note, Refused};
use crate::checker::lookups::Lookups;
use crate::history::Opening;

// Whether the component is there.
fn is_component(component: u32, opening: &Opening) -> bool
    ensures { result ≡ nat_lt component (length opening.now.values) }
{
    (component as usize) < opening.values.len()
}

// Whether each of the components is there.
fn are_components(components: &[u32], opening: &Opening) -> bool
    ensures { result ≡ names_components (length opening.now.values) components.now }
{
    components
        .iter()
        .all(|component| is_component(*component, opening))
}

// Whether each component that the call names is there.
fn names_components(call: &Call, opening: &Opening) -> bool
    ensures { result ≡ names_components (length opening.now.values) (indices_of call.now) }
{
    match call {
        Call::Scan { components } => are_components(components.as_slice(), opening),
        Call::Update { component, .. }
        | Call::Read { component }
        | Call::UpdateIf { component, .. } => is_component(*component, opening),
    }
}

// Whether the call claims words of the pool.
fn claims_pool(call: &Call) -> bool
    ensures { result ≡ claims_pool call.now }
{
    match call {
        Call::Update { .. } | Call::UpdateIf { .. } => true,
        Call::Scan { components } => !components.is_empty(),
        Call::Read { .. } => false,
    }
}

// Whether the call claims a slot.
fn claims_slot(call: &Call) -> bool
    ensures { result ≡ claims_slot call.now }
{
    match call {
        Call::Scan { components } => !components.is_empty(),
        Call::Update { .. } | Call::Read { .. } | Call::UpdateIf { .. } => false,
    }
}

// Whether the call may have been refused for this cause.
fn may_be_refused(opening: &Opening, call: &Call, cause: Refused) -> bool
    ensures { result ≡ may_be_refused (length opening.now.values) call.now cause }
{
    match cause {
        Refused::Component => !names_components(call, opening),
        Refused::SlotsSpent => names_components(call, opening) && claims_slot(call),
        Refused::PoolSpent => names_components(call, opening) && claims_pool(call),
    }
}

// Whether the entry at the place is that of the port's update.
fn wrote(history: &Lookups, place: usize, port: u32, component: u32, value: u64, stamp: u64) -> bool
    ensures { result ≡ stands_at history.now place
        (record { port = port; component = component; value = value; stamp = stamp }) }
{
    match history.entries().get(place) {
        None => false,
        Some(entry) => {
            entry.port == port
                && entry.component == component
                && entry.value == value
                && entry.stamp == stamp
        }
    }
}

// Whether the entry at the place is for the component and has the stamp.
fn is_entry_for(history: &Lookups, place: usize, component: u32, stamp: u64) -> bool
    ensures { result ≡ is_entry_for history.now place component stamp }
{
    match history.entries().get(place) {
        None => false,
        Some(entry) => entry.component == component && entry.stamp == stamp,
    }
}

// Whether the stamp is the initial one of this component.
fn is_initial_stamp_of(opening: &Opening, component: u32, stamp: u64) -> bool
    ensures { result ≡ (initial_stamp opening.now component == stamp) }
{
    let first = opening.first;
    stamp >= first && (stamp - first) % 3 == 0 && (stamp - first) / 3 == u64::from(component)
}

// Whether the component has the stamp after the first `prefix` entries.
fn has_stamp(
    opening: &Opening,
    history: &Lookups,
    prefix: usize,
    component: u32,
    stamp: u64,
) -> bool
    requires { prefix ≤ length history.now }
    ensures { result ≡ (stamp_of opening.now (take prefix history.now) component == stamp) }
{
    match history.last_entry(prefix, component) {
        Some(entry) => entry.stamp == stamp,
        None => is_initial_stamp_of(opening, component, stamp),
    }
}

// Whether the component has the value and the stamp after the first `prefix` entries.
fn has_value_and_stamp(
    opening: &Opening,
    history: &Lookups,
    prefix: usize,
    component: u32,
    value: u64,
    stamp: u64,
) -> bool
    requires component { component < length opening.now.values }
    requires prefix { prefix ≤ length history.now }
    ensures { result ≡ (value_of opening.now (take prefix history.now) component == value)
        && (stamp_of opening.now (take prefix history.now) component == stamp) }
{
    match history.last_entry(prefix, component) {
        Some(entry) => entry.value == value && entry.stamp == stamp,
        None => {
            opening.values.as_slice()[component as usize] == value
                && is_initial_stamp_of(opening, component, stamp)
        }
    }
}

// Whether a scan of so many positions makes that many collects.
fn are_collects(positions: usize, collects: u32, borrowed: Option<u64>) -> bool
    ensures { result ≡ are_collects positions collects borrowed }
{
    if positions == 0 {
        collects == 0 && borrowed.is_none()
    } else {
        collects >= 2
            && (collects - 2) as usize <= positions
            && (borrowed.is_none() || collects >= 3)
    }
}

// The value of the component after the first `prefix` entries.
fn value_at(opening: &Opening, history: &Lookups, prefix: usize, component: u32) -> u64
    requires component { component < length opening.now.values }
    requires prefix { prefix ≤ length history.now }
    ensures { result ≡ value_of opening.now (take prefix history.now) component }
{
    match history.last_entry(prefix, component) {
        Some(entry) => entry.value,
        None => opening.values.as_slice()[component as usize],
    }
}

// Whether the components hold these values after the first `prefix` entries.
fn hold(
    opening: &Opening,
    history: &Lookups,
    prefix: usize,
    components: &[u32],
    values: &[u64],
) -> bool
    requires components { AllByRecursion (λ j. j < length opening.now.values) components.now }
    requires prefix { prefix ≤ length history.now }
    ensures { result ≡ hold (value_of opening.now (take prefix history.now)) components.now values.now }
{
    if components.len() != values.len() {
        return false;
    }
    for (position, component) in components.iter().enumerate() {
        if value_at(opening, history, prefix, *component) != values[position] {
            return false;
        }
    }
    true
}

// Whether a scan of the components saw these values together, after the first `prefix` entries.
fn saw_together(
    opening: &Opening,
    history: &Lookups,
    components: &[u32],
    values: &[u64],
    collects: u32,
    borrowed: Option<u64>,
    prefix: usize,
) -> bool
    requires { AllByRecursion (λ j. j < length opening.now.values) components.now }
    ensures { result ≡ saw_together opening.now history.now components.now values.now collects borrowed prefix }
{
    prefix <= history.entries().len()
        && hold(opening, history, prefix, components, values)
        && are_collects(components.len(), collects, borrowed)
        && match borrowed {
            None => true,
            Some(stamp) => history.shows_stamp(prefix, components, stamp),
        }
}

// Whether the answer with its note fits a scan of the components, and is true of the history.
fn scan_is_right(
    opening: &Opening,
    history: &Lookups,
    components: &[u32],
    answer: &Answer,
    note: Note,
) -> bool
    ensures { result ≡ is_right opening.now history.now 0 (Call.Scan components.now) answer.now note }
{
    match (answer, note) {
        (
            Answer::Scanned {
                values,
                collects,
                borrowed,
            },
            Note::Saw(prefix),
        ) => {
            are_components(components, opening)
                && saw_together(
                    opening,
                    history,
                    components,
                    values.as_slice(),
                    *collects,
                    *borrowed,
                    prefix,
                )
        }
        _ => false,
    }
}

// Whether a read of the component saw this value and stamp after the first `prefix` entries.
fn saw(
    opening: &Opening,
    history: &Lookups,
    component: u32,
    value: u64,
    stamp: u64,
    prefix: usize,
) -> bool
    requires { component < length opening.now.values }
    ensures { result ≡ nat_le prefix (length history.now)
        && (value_of opening.now (take prefix history.now) component == value)
        && (stamp_of opening.now (take prefix history.now) component == stamp) }
{
    prefix <= history.entries().len()
        && has_value_and_stamp(opening, history, prefix, component, value, stamp)
}

// Whether the component has that stamp and not the expected one, after the first `prefix` entries.
fn saw_change(
    opening: &Opening,
    history: &Lookups,
    component: u32,
    expected: u64,
    by: u64,
    prefix: usize,
) -> bool
    ensures { result ≡ nat_le prefix (length history.now)
        && (stamp_of opening.now (take prefix history.now) component == by) && not (by == expected) }
{
    prefix <= history.entries().len()
        && has_stamp(opening, history, prefix, component, by)
        && by != expected
}

// Whether the answer with its note fits a call of the port, and is true of the history.
fn is_right(
    opening: &Opening,
    history: &Lookups,
    port: u32,
    call: &Call,
    answer: &Answer,
    note: Note,
) -> bool
    ensures { result ≡ is_right opening.now history.now port call.now answer.now note }
{
    match call {
        Call::Update { component, value } => match (answer, note) {
            (Answer::Applied { stamp }, Note::Wrote(place)) => {
                is_component(*component, opening)
                    && wrote(history, place, port, *component, *value, *stamp)
            }
            (Answer::Lost { by }, Note::Lost(place)) => {
                is_component(*component, opening) && is_entry_for(history, place, *component, *by)
            }
            _ => false,
        },
        Call::Scan { components } => {
            scan_is_right(opening, history, components.as_slice(), answer, note)
        }
        Call::Read { component } => match (answer, note) {
            (Answer::Read { value, stamp }, Note::Saw(prefix)) => {
                is_component(*component, opening)
                    && saw(opening, history, *component, *value, *stamp, prefix)
            }
            _ => false,
        },
        Call::UpdateIf {
            component,
            expected,
            value,
        } => match (answer, note) {
            (Answer::Applied { stamp }, Note::Wrote(place)) => {
                is_component(*component, opening)
                    && wrote(history, place, port, *component, *value, *stamp)
                    && has_stamp(opening, history, place, *component, *expected)
            }
            (Answer::Changed { by }, Note::Saw(prefix)) => {
                is_component(*component, opening)
                    && saw_change(opening, history, *component, *expected, *by, prefix)
            }
            _ => false,
        },
    }
}

// Before how many entries the call with this note has its place.
fn place_of(note: Note) -> usize
    ensures { result ≡ place_of note }
{
    match note {
        Note::Wrote(place) | Note::Lost(place) => place,
        Note::Saw(prefix) => prefix,
    }
}

/// Whether the finish of a call is legal, when its port had seen the first `seen` entries before.
pub fn is_legal(
    opening: &Opening,
    history: &Lookups,
    seen: usize,
    port: u32,
    call: &Call,
    finish: &Finish,
) -> bool
    ensures { result ≡ is_legal opening.now history.now port seen call.now finish.now.answer finish.now.note }
{
    match finish.note {
        Some(note) => {
            is_right(opening, history, port, call, &finish.answer, note) && seen <= place_of(note)
        }
        None => match &finish.answer {
            Answer::Refused { cause } => may_be_refused(opening, call, *cause),
            _ => false,
        },
    }
}
