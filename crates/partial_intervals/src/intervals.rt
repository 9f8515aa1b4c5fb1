//! The set of intervals. Its room is fixed when it is made. A look-up is a binary search; adding a number
//! is a binary search and one shift.

ghost use Rattle.std.specs.Prelude.{◌≡◌, ℕ, ◌+◌, ◌-◌, ◌≤◌, ◌<◌, ◌↔◌, ◌⊎◌, ◌++◌, ◌∷◌, [], length, IsTrue, IfOk, MatchOption, slice_index_or, slice_set};
ghost use Rattle.partial_intervals.specs.Intervals.{Holds, IsNormal, GoesOn, IsLeastOutside, IsCountUpTo, lowest, highest};

use std::alloc::{AllocError, Global};
use std::marker::Model;

/// A finite set of numbers below 4,294,967,295, as closed intervals. Contracts see its capacity, counted in
/// intervals, and its list of intervals, which is the one normal form of the set.
#[derive(Debug, Drop)]
pub struct Intervals {
    list: Vec<(u32, u32)>,
}

impl Model for Intervals {
    ghost use Rattle.std.specs.Vec.{vec_capacity};
    ghost use Rattle.partial_intervals.specs.Intervals.{Set, IsNormal};

    ghost Value = { Set };

    ghost view = { λ s. record { capacity = vec_capacity s.list; list = s.list.items } };

    ghost invariant = { λ s. IsNormal s.list.items };
}

impl Intervals {
    /// Makes the empty set, with room for `n` intervals.
    ///
    /// # Errors
    /// [`AllocError`] when an allocation was refused.
    pub fn with_capacity(alloc: Global, n: usize) -> Result<Intervals, AllocError>
        ensures capacity { IfOk result (λ set. set.capacity ≡ n) }
        ensures empty { IfOk result (λ set. set.list ≡ []) }
    {
        Ok(Intervals {
            list: Vec::with_capacity(alloc, n)?,
        })
    }

    /// Empties the set. Its room stays.
    pub fn clear(&mut self)
        ensures { self.new ≡ record self.old { list = [] } }
    {
        self.list.clear();
    }

    /// How many intervals the set has.
    pub fn len(&self) -> usize
        ensures count { result ≡ length self.now.list }
        ensures normal { IsNormal self.now.list }
    {
        self.list.len()
    }

    /// Whether the set is empty.
    pub fn is_empty(&self) -> bool
        ensures { IsTrue result ↔ (self.now.list ≡ []) }
    {
        self.list.is_empty()
    }

    /// How many intervals the set has room for.
    pub fn capacity(&self) -> usize
        ensures { result ≡ self.now.capacity }
    {
        self.list.capacity()
    }

    /// The lowest and the highest number of interval `k`, counted from 0 in rising order.
    pub fn get(&self, k: usize) -> (u32, u32)
        requires { k < length self.now.list }
        ensures interval { result ≡ slice_index_or self.now.list k (0, 0) }
        ensures normal { IsNormal self.now.list }
    {
        self.list[k]
    }

    /// Adds the numbers from `lo` to `hi` as a new last interval.
    pub fn push_last(&mut self, lo: u32, hi: u32)
        requires room { length self.old.list < self.old.capacity }
        requires last { GoesOn self.old.list lo hi }
        ensures { self.new ≡ record self.old { list = self.old.list ++ (lo, hi) ∷ [] } }
    {
        self.list.push_reserved((lo, hi));
    }

    /// Lengthens the last interval up to `hi`.
    pub fn extend_last(&mut self, hi: u32)
        requires some { 0 < length self.old.list }
        requires up { highest self.old.list (length self.old.list - 1) ≤ hi }
        requires small { hi < 4294967295 }
        ensures { self.new ≡ record self.old {
          list = slice_set self.old.list (length self.old.list - 1)
              (lowest self.old.list (length self.old.list - 1), hi);
        } }
    {
        let last = self.list.len() - 1;
        self.list[last].1 = hi;
    }

    /// Adds the number `l` if it isn't in the set yet.
    pub fn add(&mut self, l: u32)
        requires small { l < 4294967295 }
        requires room { length self.old.list < self.old.capacity }
        ensures set { (x : ℕ) → Holds self.new.list x ↔ (Holds self.old.list x ⊎ (x ≡ l)) }
        ensures normal { IsNormal self.new.list }
        ensures capacity { self.new.capacity ≡ self.old.capacity }
    {
        let count = self.count_up_to(l);
        if self.reaches(count, l) {
            return;
        }
        match (self.touches_before(count, l), self.touches_after(count, l)) {
            (true, true) => {
                let after = self.list.remove(count);
                self.list[count - 1].1 = after.1;
            }
            (true, false) => self.list[count - 1].1 = l,
            (false, true) => self.list[count].0 = l,
            (false, false) => {
                let _ = self.list.insert(count, (l, l));
            }
        }
    }

    /// Whether `l` is in the set.
    pub fn contains(&self, l: u32) -> bool
        ensures { IsTrue result ↔ Holds self.now.list l }
    {
        self.reaches(self.count_up_to(l), l)
    }

    /// The least number from `l` on, below `end`, that isn't in the set.
    pub fn next_outside(&self, l: u32, end: u32) -> Option<u32>
        ensures { MatchOption
            result
            ((x : ℕ) → l ≤ x → x < end → Holds self.now.list x)
            (λ n. (n < end) × IsLeastOutside self.now.list l n) }
    {
        let count = self.count_up_to(l);
        let next = if self.reaches(count, l) {
            self.list[count - 1].1 + 1
        } else {
            l
        };
        if next < end { Some(next) } else { None }
    }

    // Whether the interval before index `count` reaches up to `l`.
    fn reaches(&self, count: usize, l: u32) -> bool
        requires { count ≤ length self.now.list }
        ensures { IsTrue result ↔ ((0 < count) × (l ≤ highest self.now.list (count - 1))) }
    {
        count > 0 && l <= self.list[count - 1].1
    }

    // Whether the interval before index `count` ends just below `l`.
    fn touches_before(&self, count: usize, l: u32) -> bool
        requires { count ≤ length self.now.list }
        ensures { IsTrue result ↔ ((0 < count) × (highest self.now.list (count - 1) + 1 ≡ l)) }
    {
        count > 0 && self.list[count - 1].1 + 1 == l
    }

    // Whether the interval at index `count` begins just above `l`.
    fn touches_after(&self, count: usize, l: u32) -> bool
        requires { l < 4294967295 }
        ensures { IsTrue result ↔ ((count < length self.now.list) × (l + 1 ≡ lowest self.now.list count)) }
    {
        count < self.list.len() && l + 1 == self.list[count].0
    }

    // How many intervals begin at `l` or below, found by binary search.
    fn count_up_to(&self, l: u32) -> usize
        ensures count { IsCountUpTo self.now.list l result }
        ensures normal { IsNormal self.now.list }
    {
        let mut low = 0;
        let mut high = self.list.len();
        while low < high {
            let middle = low + (high - low) / 2;
            if self.list[middle].0 <= l {
                low = middle + 1;
            } else {
                high = middle;
            }
        }
        low
    }
}
