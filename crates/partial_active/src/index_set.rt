//! Indices without repeats, in the order in which they came.

ghost use Rattle.std.specs.Prelude.{◌≡◌, [], IfOk, ◌<◌};
ghost use Rattle.partial_active.specs.IndexSet.{with_index};

use std::alloc::{AllocError, Global};
use std::marker::Model;

/// Indices below a limit, each at most once. The set takes room for all of them when it is made.
#[derive(Debug, Drop)]
pub struct IndexSet {
    items: Vec<u32>,
    marks: Vec<bool>,
}

impl Model for IndexSet {
    ghost use Rattle.std.specs.Vec.{vec_len, vec_capacity};
    ghost use Rattle.partial_active.specs.IndexSet.{IndexList, IsMarked};

    ghost Value = { IndexList };

    ghost view = { λ s. record { limit = vec_len s.marks; items = s.items.items } };

    ghost invariant = { λ s. IsMarked s.items.items s.marks.items (vec_capacity s.items) };
}

impl IndexSet {
    /// Makes the empty set of indices below `limit`.
    ///
    /// # Errors
    /// [`AllocError`] when an allocation was refused.
    pub fn with_limit(alloc: Global, limit: usize) -> Result<IndexSet, AllocError>
        ensures limit { IfOk result (λ set. set.limit ≡ limit) }
        ensures empty { IfOk result (λ set. set.items ≡ []) }
    {
        Ok(IndexSet {
            items: Vec::with_capacity(alloc, limit)?,
            marks: vec![in alloc; false; limit]?,
        })
    }

    /// The indices in the order in which they came.
    #[inline(always)]
    pub fn as_slice(&self) -> &[u32]
        ensures { result.now ≡ self.now.items }
    {
        &self.items
    }

    /// Appends the index if it isn't there yet.
    #[inline(always)]
    pub fn insert(&mut self, index: u32)
        requires { index < self.old.limit }
        ensures { self.new ≡ record self.old { items = with_index self.old.items index } }
    {
        let at = index as usize;
        if !self.marks[at] {
            self.marks[at] = true;
            self.items.push_reserved(index);
        }
    }

    /// Removes all indices, one after another.
    #[inline(always)]
    pub fn clear(&mut self)
        ensures { self.new ≡ record self.old { items = [] } }
    {
        while let Some(index) = self.items.pop() {
            self.marks[index as usize] = false;
        }
    }
}
