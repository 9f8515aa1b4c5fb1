//! Whether calls stand in their order, and each has its place between its begin and its end.

ghost use Rattle.std.specs.Prelude.{◌≡◌, ◌&&◌, None, Some, nat_le, false};
ghost use Rattle.std.specs.Option.{option_map_or};
ghost use Rattle.partial_model.specs.Notes.{place_of, shown_by};
ghost use Rattle.partial_model.specs.Inner.Checks.{follows, ends_in_time, is_in_time, are_in_time};

use crate::call::{Called, Finish, Note};

// Whether a call ended before the history had more than `began` entries.
fn has_ended(finish: &Option<Finish>, began: usize) -> bool
    ensures { result ≡ option_map_or (λ f. nat_le f.ended began) finish.now false }
{
    match finish {
        None => false,
        Some(finish) => finish.ended <= began,
    }
}

// Whether the call may stand after that one: as the first of a later port, or as its port's next.
fn follows(before: &Called, call: &Called) -> bool
    ensures { result ≡ follows (Some before.now) call.now }
{
    (before.port < call.port && call.number == 0)
        || (call.port == before.port
            && u64::from(call.number) == u64::from(before.number) + 1
            && has_ended(&before.finish, call.began))
}

// Whether the note's place lies between the begin and the end.
fn lies_between(note: Note, began: usize, ended: usize) -> bool
    ensures { result ≡ nat_le began (place_of note) && nat_le (shown_by note) ended }
{
    match note {
        Note::Wrote(place) | Note::Lost(place) => began <= place && place < ended,
        Note::Saw(prefix) => began <= prefix && prefix <= ended,
    }
}

// Whether a call that began at that length of the history ends in time.
fn ends_in_time(entries: usize, began: usize, finish: &Finish) -> bool
    ensures { result ≡ ends_in_time entries began finish.now }
{
    began <= finish.ended
        && finish.ended <= entries
        && match finish.note {
            None => true,
            Some(note) => lies_between(note, began, finish.ended),
        }
}

// Whether the call begins, has its place and ends in this order, in a history of so many entries.
fn is_in_time(entries: usize, call: &Called) -> bool
    ensures { result ≡ is_in_time entries call.now }
{
    call.began <= entries
        && match &call.finish {
            None => true,
            Some(finish) => ends_in_time(entries, call.began, finish),
        }
}

/// Whether the calls stand in their order, each in time.
pub fn are_in_time(entries: usize, calls: &[Called]) -> bool
    ensures { result ≡ are_in_time entries None calls.now }
{
    let mut before: Option<&Called> = None;
    for call in calls {
        let in_order = match before {
            None => call.number == 0,
            Some(before) => follows(before, call),
        };
        if !in_order || !is_in_time(entries, call) {
            return false;
        }
        before = Some(call);
    }
    true
}
