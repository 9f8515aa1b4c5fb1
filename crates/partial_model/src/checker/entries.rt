//! Whether entries are a history.

ghost use Rattle.std.specs.Prelude.{◌≡◌, ◌==◌, ◌&&◌, not, nat_lt, length};
ghost use Rattle.std.specs.List.{list_all, list_any};
ghost use Rattle.partial_model.specs.Inner.Checks.{is_initial, are_distinct, is_history};

use crate::history::{Applied, Opening};

// Whether the stamp is the initial one of a component.
fn is_initial(opening: &Opening, stamp: u64) -> bool
    ensures { result ≡ is_initial opening.now (length opening.now.values) stamp }
{
    let first = opening.first;
    stamp >= first && (stamp - first) % 3 == 0 && (stamp - first) / 3 < opening.values.len() as u64
}

// Whether an entry has the stamp.
fn has_stamp(history: &[Applied], stamp: u64) -> bool
    ensures { result ≡ list_any (λ e. e.stamp == stamp) history.now }
{
    history.iter().any(|entry| entry.stamp == stamp)
}

// Whether no two entries have one stamp. A stamp above all before it is compared with none of them.
fn are_distinct(history: &[Applied]) -> bool
    ensures { result ≡ are_distinct history.now }
{
    let mut greatest = 0;
    for (place, entry) in history.iter().enumerate() {
        if entry.stamp > greatest {
            greatest = entry.stamp;
        } else if has_stamp(&history[..place], entry.stamp) {
            return false;
        }
    }
    true
}

// Whether each entry is for a component.
fn are_for_components(components: usize, history: &[Applied]) -> bool
    ensures { result ≡ list_all (λ e. nat_lt e.component components) history.now }
{
    history
        .iter()
        .all(|entry| (entry.component as usize) < components)
}

// Whether an entry has an initial stamp.
fn has_initial_stamp(opening: &Opening, history: &[Applied]) -> bool
    ensures { result ≡ list_any (λ e. is_initial opening.now (length opening.now.values) e.stamp) history.now }
{
    history.iter().any(|entry| is_initial(opening, entry.stamp))
}

/// Whether each entry is for a component, and none has an initial stamp: what a history is but for stamps that
/// may be doubled.
pub fn are_entries(opening: &Opening, history: &[Applied]) -> bool
    ensures { result ≡ list_all (λ e. nat_lt e.component (length opening.now.values)) history.now
        && not (list_any (λ e. is_initial opening.now (length opening.now.values) e.stamp) history.now) }
{
    are_for_components(opening.values.len(), history) && !has_initial_stamp(opening, history)
}

/// Whether the entries are a history: each for a component, and each with a stamp of its own.
pub fn is_history(opening: &Opening, history: &[Applied]) -> bool
    ensures { result ≡ is_history opening.now history.now }
{
    are_for_components(opening.values.len(), history)
        && are_distinct(history)
        && !has_initial_stamp(opening, history)
}
