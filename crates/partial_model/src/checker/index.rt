//! An index of a history: the places of the entries of each component, and the place of each stamp.

ghost use Rattle.std.specs.Prelude.{ℕ, ◌≡◌, ◌≤◌, ◌<◌, nat_eq, [], length, take, drop, IfOk, MatchOption, true, false};
ghost use Rattle.std.specs.HashMap as hash;
ghost use Rattle.std.specs.List.{AllByRecursion};
ghost use Rattle.partial_model.specs.History.{last_entry};
ghost use Rattle.partial_model.specs.Inner.Checks.{are_distinct, shows_stamp};
ghost use Rattle.partial_model.specs.Inner.Indexed.{AreListsOf, AreStampsOf, IsIndexOf, list_at};

use crate::history::Applied;
use std::alloc::{AllocError, Global};
use std::collections::HashMap;

/// The places of the entries of a history.
#[derive(Drop)]
pub struct Index {
    // The places of each component's entries, in order.
    places: Vec<Vec<usize>>,
    // The place of the entry with this stamp.
    stamps: HashMap<u64, usize>,
}

// So many empty lists.
fn empty_lists(alloc: Global, count: usize) -> Result<Vec<Vec<usize>>, AllocError>
    ensures len { IfOk result (λ lists. length lists.items ≡ count) }
    ensures empty { IfOk result (λ lists. (j : ℕ) → list_at lists.items j ≡ []) }
{
    let mut lists = Vec::with_capacity(alloc, count)?;
    for _ in 0..count {
        lists.push(Vec::new(alloc))?;
    }
    Ok(lists)
}

// The places of the entries of each of the components.
fn places_of(
    alloc: Global,
    components: usize,
    history: &[Applied],
) -> Result<Vec<Vec<usize>>, AllocError>
    requires { AllByRecursion (λ e. e.component < components) history.now }
    ensures { IfOk result (λ lists. AreListsOf history.now (length history.now) lists.items) }
{
    let mut lists = empty_lists(alloc, components)?;
    for (place, entry) in history.iter().enumerate() {
        lists[entry.component as usize].push(place)?;
    }
    Ok(lists)
}

// The place of each stamp. None when a stamp is doubled.
fn stamps_of(alloc: Global, history: &[Applied]) -> Result<Option<HashMap<u64, usize>>, AllocError>
    ensures { IfOk result (λ found. MatchOption found (are_distinct history.now ≡ false)
        (λ stamps. (are_distinct history.now ≡ true)
        × AreStampsOf history.now (length history.now) (hash.get nat_eq stamps))) }
{
    let mut stamps = HashMap::with_capacity(alloc, history.len())?;
    for (place, entry) in history.iter().enumerate() {
        let before = stamps.insert(entry.stamp, place)?;
        if before.is_some() {
            return Ok(None);
        }
    }
    Ok(Some(stamps))
}

impl Index {
    /// The index of the entries of so many components. None when two entries have one stamp.
    pub fn new(
        alloc: Global,
        components: usize,
        history: &[Applied],
    ) -> Result<Option<Index>, AllocError>
        requires { AllByRecursion (λ e. e.component < components) history.now }
        ensures { IfOk result (λ found. MatchOption found (are_distinct history.now ≡ false)
            (λ index. (are_distinct history.now ≡ true) × IsIndexOf history.now index)) }
    {
        match stamps_of(alloc, history)? {
            None => Ok(None),
            Some(stamps) => {
                let places = places_of(alloc, components, history)?;
                Ok(Some(Index { places, stamps }))
            }
        }
    }

    // The places of the entries for the component.
    fn places_for(&self, component: u32) -> &[usize]
        ensures { result.now ≡ list_at self.now.places.items component }
    {
        let component = component as usize;
        if component < self.places.len() {
            self.places[component].as_slice()
        } else {
            &[]
        }
    }

    /// The last entry for the component among the first `prefix` of the history.
    pub fn last_entry(&self, history: &[Applied], prefix: usize, component: u32) -> Option<Applied>
        requires index { IsIndexOf history.now self.now }
        requires prefix { prefix ≤ length history.now }
        ensures { result ≡ last_entry component (take prefix history.now) }
    {
        let places = self.places_for(component);
        let count = places.partition_point(|place| *place < prefix);
        if count == 0 {
            None
        } else {
            Some(history[places[count - 1]])
        }
    }

    /// Whether the entry with the stamp stands after the first `prefix` and is for one of the components.
    pub fn shows_stamp(
        &self,
        history: &[Applied],
        prefix: usize,
        components: &[u32],
        stamp: u64,
    ) -> bool
        requires index { IsIndexOf history.now self.now }
        ensures { result ≡ shows_stamp components.now stamp (drop prefix history.now) }
    {
        match self.stamps.get(&stamp) {
            None => false,
            Some(place) => prefix <= *place && components.contains(&history[*place].component),
        }
    }
}
