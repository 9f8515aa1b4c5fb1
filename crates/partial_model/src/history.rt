//! The history: the updates that took effect, in order, and what a component holds after a prefix of it.

ghost use Rattle.std.specs.Prelude.{◌≡◌, ◌==◌, ◌<◌, ◌≤◌, ◌^◌, length, take};
ghost use Rattle.partial_model.specs.History.{last_entry, value_of, stamp_of};

use crate::sequence::Sequence;

/// What the components hold at opening.
#[derive(Debug, Drop)]
pub struct Opening {
    /// The value of each component, by its index.
    pub values: Sequence<u64>,
    /// The stamp of component 0. That of component j is `first + 3j`.
    pub first: u64,
}

/// An entry of the history: one update that took effect.
#[derive(Clone, Copy, Debug, PartialEq, Eq)]
pub struct Applied {
    /// The port that made it.
    pub port: u32,
    /// The index of the component that it set.
    pub component: u32,
    /// The value that the component has from then on.
    pub value: u64,
    /// The stamp that the component has from then on: the word number of the update's record.
    pub stamp: u64,
}

// The last entry for the component. The search goes backwards.
pub(crate) fn last_entry(history: &[Applied], component: u32) -> Option<Applied>
    ensures { result ≡ last_entry component history.now }
{
    for index in (0..history.len()).rev() {
        let entry = history[index];
        if entry.component == component {
            return Some(entry);
        }
    }
    None
}

/// The value of a component after the first `prefix` entries of a history.
pub fn value_at(opening: &Opening, history: &[Applied], prefix: usize, component: u32) -> u64
    requires prefix { prefix ≤ length history.now }
    requires component { component < length opening.now.values }
    ensures { result ≡ value_of opening.now (take prefix history.now) component }
{
    let before = &history[..prefix];
    match last_entry(before, component) {
        Some(entry) => entry.value,
        None => opening.values.as_slice()[component as usize],
    }
}

/// The stamp of a component after the first `prefix` entries of a history.
pub fn stamp_at(opening: &Opening, history: &[Applied], prefix: usize, component: u32) -> u64
    requires prefix { prefix ≤ length history.now }
    requires component { component < length opening.now.values }
    requires components { length opening.now.values ≤ 65536 }
    requires first { opening.now.first < 2 ^ 32 }
    ensures { result ≡ stamp_of opening.now (take prefix history.now) component }
{
    let before = &history[..prefix];
    match last_entry(before, component) {
        Some(entry) => entry.stamp,
        None => opening.first + 3 * u64::from(component),
    }
}
