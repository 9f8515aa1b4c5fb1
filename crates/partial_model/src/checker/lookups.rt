//! The entries of a history, looked up by a walk or in an index.

ghost use Rattle.std.specs.Prelude.{◌≡◌, ◌≤◌, length, take, drop};
ghost use Rattle.partial_model.specs.History.{last_entry};
ghost use Rattle.partial_model.specs.Inner.Checks.{shows_stamp};
ghost use Rattle.partial_model.specs.Inner.Indexed.{IsIndexOf};

use crate::checker::index::Index;
use crate::history::{Applied, last_entry};
use std::marker::Model;

/// A history in which entries are looked up. Contracts see its entries alone, so that an answer doesn't
/// depend on the index.
#[derive(Drop)]
pub struct Lookups<'a> {
    entries: &'a [Applied],
    // None when each look-up walks the history.
    index: Option<&'a Index>,
}

impl<'a> Model for Lookups<'a> {
    ghost use Rattle.std.specs.Prelude.{List, IfSome};
    ghost use Rattle.partial_model.specs.declared.history.Applied.{Applied};
    ghost use Rattle.partial_model.specs.Inner.Indexed.{IsIndexOf};

    ghost Value = { List Applied };

    ghost view = { λ l. l.entries.now };

    ghost invariant = { λ l. IfSome l.index (λ i. IsIndexOf l.entries.now i.now) };
}

// Whether one of the entries is for one of the components and has the stamp.
fn shows_stamp(entries: &[Applied], components: &[u32], stamp: u64) -> bool
    ensures { result ≡ shows_stamp components.now stamp entries.now }
{
    entries.iter().any(|entry| entry.stamp == stamp && components.contains(&entry.component))
}

impl<'a> Lookups<'a> {
    /// Walks the history at each look-up, and takes no memory.
    pub fn walking(entries: &'a [Applied]) -> Lookups<'a>
        ensures { result ≡ entries.now }
    {
        Lookups {
            entries,
            index: None,
        }
    }

    /// Looks entries up in the index of the history.
    pub fn indexed(entries: &'a [Applied], index: &'a Index) -> Lookups<'a>
        requires { IsIndexOf entries.now index.now }
        ensures { result ≡ entries.now }
    {
        Lookups {
            entries,
            index: Some(index),
        }
    }

    /// The entries of the history, in order.
    pub fn entries(&self) -> &[Applied]
        ensures { result.now ≡ self.now }
    {
        self.entries
    }

    /// The last entry for the component among the first `prefix`.
    pub fn last_entry(&self, prefix: usize, component: u32) -> Option<Applied>
        requires { prefix ≤ length self.now }
        ensures { result ≡ last_entry component (take prefix self.now) }
    {
        match self.index {
            None => last_entry(&self.entries[..prefix], component),
            Some(index) => index.last_entry(self.entries, prefix, component),
        }
    }

    /// Whether an entry after the first `prefix` is for one of the components and has the stamp.
    pub fn shows_stamp(&self, prefix: usize, components: &[u32], stamp: u64) -> bool
        requires { prefix ≤ length self.now }
        ensures { result ≡ shows_stamp components.now stamp (drop prefix self.now) }
    {
        match self.index {
            None => shows_stamp(&self.entries[prefix..], components, stamp),
            Some(index) => index.shows_stamp(self.entries, prefix, components, stamp),
        }
    }
}
