//! Whether the calls claim each entry once, in the order of its port's calls.

ghost use Rattle.std.specs.Prelude.{◌≡◌, ◌+◌, ◌∷◌, ◌<◌, [], length, MatchOption};
ghost use Rattle.std.specs.Option.{option_map};
ghost use Rattle.partial_model.specs.Outcome.{places_by};
ghost use Rattle.partial_model.specs.Inner.Checks.{claim_of, places_left, places_from, none_between, none_above, may_go_on, claim_all};

use crate::call::{Called, Finish, Note};
use crate::history::Applied;

// The first place of an entry by the port, from that place on.
fn next_place(history: &[Applied], port: u32, from: usize) -> Option<usize>
    ensures { MatchOption result (places_from history.now port from ≡ [])
        (λ k. (k < length history.now) × (places_from history.now port from ≡ k ∷
        places_from history.now port (k + 1))) }
{
    for place in from..history.len() {
        if history[place].port == port {
            return Some(place);
        }
    }
    None
}

// Whether no entry is by a port between these two.
fn none_between(history: &[Applied], low: u32, high: u32) -> bool
    ensures { result ≡ none_between low high history.now }
{
    history
        .iter()
        .all(|entry| entry.port <= low || high <= entry.port)
}

// Whether no entry is by a port above that one.
fn none_above(history: &[Applied], low: u32) -> bool
    ensures { result ≡ none_above low history.now }
{
    history.iter().all(|entry| entry.port <= low)
}

// Whether the calls of `next` may begin when the entries by the port are claimed up to that place.
fn may_go_on(history: &[Applied], port: u32, from: usize, next: u32) -> bool
    ensures { result ≡ may_go_on history.now port (places_from history.now port from) next }
{
    next == port || (next_place(history, port, from).is_none() && none_between(history, port, next))
}

// From which place on the entries by the port are left once the call has claimed its own, if it may.
fn claim(history: &[Applied], port: u32, from: usize, finish: &Option<Finish>) -> Option<usize>
    ensures left { option_map (places_from history.now port) result
        ≡ places_left (places_from history.now port from) (claim_of finish.now) }
{
    match finish {
        Some(
            Finish {
                note: Some(Note::Wrote(claimed)),
                ..
            },
        ) => match next_place(history, port, from) {
            Some(place) if place == *claimed => Some(place + 1),
            _ => None,
        },
        _ => Some(from),
    }
}

/// Whether the calls claim each entry once, in the order of its port's calls, when the ports of the
/// calls rise.
pub fn claim_all(history: &[Applied], calls: &[Called]) -> bool
    ensures { result ≡ claim_all history.now 0 (places_by 0 0 history.now) calls.now }
{
    let mut port = 0;
    let mut from = 0;
    for call in calls {
        if !may_go_on(history, port, from, call.port) {
            return false;
        }
        let before = if call.port == port { from } else { 0 };
        match claim(history, call.port, before, &call.finish) {
            None => return false,
            Some(next) => from = next,
        }
        port = call.port;
    }
    next_place(history, port, from).is_none() && none_above(history, port)
}
