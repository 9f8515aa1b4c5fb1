//! Whether the notes of each port are legal.

ghost use Rattle.std.specs.Prelude.{◌≡◌, ◌≤◌, length};
ghost use Rattle.partial_model.specs.Inner.Checks.{call_is_legal, seen_behind, notes_are_legal};

use crate::call::{Called, Finish, Note};
use crate::checker::answers::is_legal;
use crate::checker::lookups::Lookups;
use crate::history::Opening;

// Whether the call is unfinished, or legal when its port had seen so many entries before.
fn call_is_legal(opening: &Opening, history: &Lookups, seen: usize, call: &Called) -> bool
    ensures { result ≡ call_is_legal opening.now history.now seen call.now }
{
    match &call.finish {
        None => true,
        Some(finish) => is_legal(opening, history, seen, call.port, &call.call, finish),
    }
}

// How many entries the port of a legal call has seen after it.
fn seen_behind(seen: usize, finish: &Option<Finish>) -> usize
    requires { seen_behind seen finish.now ≤ usize.MAX }
    ensures { result ≡ seen_behind seen finish.now }
{
    match finish {
        None => seen,
        Some(finish) => match finish.note {
            None => seen,
            Some(Note::Wrote(place) | Note::Lost(place)) => place + 1,
            Some(Note::Saw(prefix)) => prefix,
        },
    }
}

/// Whether the notes of each port are legal, when the calls of a port stand together.
pub fn notes_are_legal(opening: &Opening, history: &Lookups, calls: &[Called]) -> bool
    requires { length history.now ≤ usize.MAX }
    ensures { result ≡ notes_are_legal opening.now history.now 0 0 calls.now }
{
    let mut port = 0;
    let mut seen = 0;
    for call in calls {
        let before = if call.port == port { seen } else { 0 };
        if !call_is_legal(opening, history, before, call) {
            return false;
        }
        port = call.port;
        seen = seen_behind(before, &call.finish);
    }
    true
}
