//! The note of a finished call: its place in the history, and its answer.

ghost use Rattle.std.specs.Prelude.{◌≡◌, ◌<◌, ◌≤◌, ◌^◌, length, IfSome, Some};
ghost use Rattle.partial_replay.specs.Place.{IsPlaceFrom, IsNoteFrom, prefix_from};
ghost use Rattle.partial_replay.specs.Inner.PortState.{AreWithin, MayAnswer};

use crate::memory::Memory;
use partial_model::{Answer, Applied, Call, Note};

/// The last place, not before `began`, whose entry has that stamp.
fn place_of(history: &[Applied], began: usize, stamp: u64) -> Option<usize>
    ensures { IsPlaceFrom history.now began stamp result }
{
    for place in (began..history.len()).rev() {
        let entry = history[place];
        if entry.stamp == stamp {
            return Some(place);
        }
    }
    None
}

// The least prefix, not shorter than `began`, that shows what was found.
fn prefix_of(history: &[Applied], began: usize, found: Option<usize>) -> usize
    requires { IfSome found (λ k. k < length history.now) }
    ensures { result ≡ prefix_from began found }
{
    match found {
        Some(place) => place + 1,
        None => began,
    }
}

/// The note of a call that began when the history had `began` entries, and ended with that answer.
pub fn note_of(memory: &mut Memory, began: usize, call: &Call, answer: &Answer) -> Option<Note>
    requires ends { MayAnswer memory.old.places call.now answer.now }
    requires within { AreWithin memory.old.places memory.old.words memory.old.history.items }
    ensures note { IsNoteFrom memory.old.words memory.old.history.items began call.now answer.now result }
    ensures same { memory.new ≡ memory.old }
{
    let history = memory.history.as_slice();
    match answer {
        Answer::Applied { stamp } => place_of(history, began, *stamp).map(Note::Wrote),
        Answer::Lost { by } => place_of(history, began, *by).map(Note::Lost),
        Answer::Scanned { values, .. } => match call {
            Call::Scan { components } => Some(Note::Saw(
                memory.places.scan_place(
                    history,
                    &memory.words,
                    began,
                    components.as_slice(),
                    values.as_slice(),
                ),
            )),
            _ => None,
        },
        Answer::Read { stamp, .. } => {
            let found = place_of(history, began, *stamp);
            Some(Note::Saw(prefix_of(history, began, found)))
        }
        Answer::Changed { by } => {
            let found = place_of(history, began, *by);
            Some(Note::Saw(prefix_of(history, began, found)))
        }
        Answer::Refused { .. } => None,
    }
}
