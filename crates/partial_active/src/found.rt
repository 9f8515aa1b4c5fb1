//! The buffers of a getSet.

ghost use Rattle.std.specs.Prelude.{◌≡◌, ◌+◌, ◌/◌, ◌<◌, ◌≤◌, ◌↔◌, ◌++◌, ◌∷◌, [], length, IfOk, nat_lt, slice_index, slice_index_or, IsTrue};
ghost use Rattle.partial_intervals.specs.Intervals.{GoesOn, IsNormal, lowest, highest};
ghost use Rattle.partial_words.specs.VacatedList.{list_block};
ghost use Rattle.partial_active.specs.IndexSet.{with_index};
ghost use Rattle.partial_active.specs.Found.{AreFoundFor, begins_at, extended_list, LiesAfter};
ghost use Rattle.partial_active.specs.GetSetAnswers.{EndsBelow};

use crate::index_set::IndexSet;
use partial_intervals::Intervals;
use partial_words::{Sizes, list_block_word};
use std::alloc::{AllocError, Global};
use std::marker::Model;

/// What a getSet has found: the indices of the announcements, the list of vacated slots that it read, and
/// the next list, which also has the slots that it found vacated. Contracts see the three lists and their
/// room.
#[derive(Debug, Drop)]
pub struct Found {
    indices: IndexSet,
    read: Intervals,
    next: Intervals,
}

impl Model for Found {
    ghost use Rattle.std.specs.Prelude.{◌≡◌};
    ghost use Rattle.partial_active.specs.Found.{Buffers};

    ghost Value = { Buffers };

    ghost view = { λ f. record {
      limit = f.indices.limit;
      room = f.read.capacity;
      indices = f.indices.items;
      read = f.read.list;
      next = f.next.list;
    } };

    ghost invariant = { λ f. f.next.capacity ≡ f.read.capacity };
}

impl Found {
    /// Makes the buffers for a memory of these sizes, with all the room that a getSet needs.
    ///
    /// # Errors
    /// [`AllocError`] when an allocation was refused.
    pub fn new(alloc: Global, sizes: Sizes) -> Result<Found, AllocError>
        ensures sizes { IfOk result (λ found. AreFoundFor sizes found) }
        ensures indices { IfOk result (λ found. found.indices ≡ []) }
        ensures read { IfOk result (λ found. found.read ≡ []) }
        ensures next { IfOk result (λ found. found.next ≡ []) }
    {
        let room = (sizes.slots() as usize + 1) / 2 + 1;
        Ok(Found {
            indices: IndexSet::with_limit(alloc, sizes.m() as usize)?,
            read: Intervals::with_capacity(alloc, room)?,
            next: Intervals::with_capacity(alloc, room)?,
        })
    }

    /// The indices that were found, each once, in the order of the slots and then of the positions.
    #[inline(always)]
    pub fn indices(&self) -> &[u32]
        ensures { result.now ≡ self.now.indices }
    {
        self.indices.as_slice()
    }

    // Empties the buffers. The work is that of what they held.
    #[inline(always)]
    pub(crate) fn clear(&mut self)
        ensures { self.new ≡ record self.old { indices = []; read = []; next = [] } }
    {
        self.indices.clear();
        self.read.clear();
        self.next.clear();
    }

    // Appends an index if it isn't there yet.
    #[inline(always)]
    pub(crate) fn insert(&mut self, index: u32)
        requires { index < self.old.limit }
        ensures { self.new ≡ record self.old { indices = with_index self.old.indices index } }
    {
        self.indices.insert(index);
    }

    // Appends an interval to the list that is read.
    #[inline(always)]
    pub(crate) fn read_interval(&mut self, lo: u32, hi: u32)
        requires room { length self.old.read < self.old.room }
        requires last { GoesOn self.old.read lo hi }
        ensures { self.new ≡ record self.old { read = self.old.read ++ (lo, hi) ∷ [] } }
    {
        self.read.push_last(lo, hi);
    }

    // Appends the slots from lo to hi to the next list.
    #[inline(always)]
    pub(crate) fn note(&mut self, lo: u32, hi: u32)
        requires room { length self.old.next < self.old.room }
        requires last { LiesAfter self.old.next lo hi }
        ensures { self.new ≡ record self.old { next = extended_list self.old.next lo hi } }
    {
        let count = self.next.len();
        if count > 0 && self.next.get(count - 1).1 + 1 == lo {
            self.next.extend_last(hi);
        } else {
            self.next.push_last(lo, hi);
        }
    }

    // Whether interval k of the list that was read begins at the slot.
    #[inline(always)]
    pub(crate) fn begins_at(&self, k: usize, slot: u32) -> bool
        ensures { result ≡ begins_at self.now.read k slot }
    {
        k < self.read.len() && self.read.get(k).0 == slot
    }

    // Interval k of the list that was read.
    #[inline(always)]
    pub(crate) fn interval(&self, k: usize) -> (u32, u32)
        requires { k < length self.now.read }
        ensures interval { result ≡ slice_index_or self.now.read k (0, 0) }
        ensures normal { IsNormal self.now.read }
    {
        self.read.get(k)
    }

    // How many intervals the next list has.
    #[inline(always)]
    pub(crate) fn next_len(&self) -> usize
        ensures count { result ≡ length self.now.next }
        ensures normal { IsNormal self.now.next }
    {
        self.next.len()
    }

    // Word k of the block of the next list.
    #[inline(always)]
    pub(crate) fn next_word(&self, k: usize) -> u64
        requires { k < length (list_block self.now.next) }
        ensures { result ≡ slice_index (list_block self.now.next) k }
    {
        list_block_word(&self.next, k)
    }

    // Whether the list that was read ends below the number, or has no interval.
    pub(crate) fn read_ends_below(&self, n: u64) -> bool
        ensures { IsTrue result ↔ EndsBelow self.now.read n }
    {
        let count = self.read.len();
        count == 0 || u64::from(self.read.get(count - 1).1) < n
    }
}
