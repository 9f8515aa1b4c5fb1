//! The getSet of an active set. It reads the list of vacated slots, walks the other slots for
//! announcements, and publishes the list with the slots that it found vacated.

ghost use Rattle.std.specs.Prelude.{◌≡◌, ◌+◌, ◌*◌, ◌<◌, ◌≤◌, ◌↔◌, [], IsSome, IsTrue};
ghost use Rattle.partial_words.specs.Layout.{IsLayout, list_base, list_end, pool_base, pool_end};
ghost use Rattle.partial_words.specs.Record.{pairs_size};

mod loops;
mod plain;

use crate::found::Found;
use partial_words::{
    MOST_PORTS, Sizes, Step, announcement_size, indices_word, intervals_word, list_size, next_word,
};
use std::marker::Model;

/// The stage of a getSet: the step that is due, and what it needs. `at` is the number of the word.
#[derive(Clone, Copy, Debug, PartialEq, Eq)]
pub enum Stage {
    /// Load the list head.
    Head,
    /// Load the number of intervals of the list at this word.
    ListLen {
        at: u32,
    },
    /// Load the lowest slot of an interval. `left` intervals are left, this one included.
    ListLow {
        at: u32,
        left: u32,
    },
    /// Load the highest slot of the interval that begins at `lo`.
    ListHigh {
        at: u32,
        left: u32,
        lo: u32,
    },
    /// Load the slot counter.
    Counter,
    /// Load a slot.
    Slot {
        slot: u32,
    },
    /// Load the number of indices of the announcement at this word, which the slot refers to.
    Len {
        slot: u32,
        at: u32,
    },
    /// Load an index of that announcement. `left` indices are left, this one included.
    Index {
        slot: u32,
        at: u32,
        left: u32,
    },
    /// Claim so many list words.
    Claim {
        words: u32,
    },
    /// Store word `k` of the next list, which begins at word `at`.
    Write {
        at: u32,
        k: u32,
        words: u32,
        word: u64,
    },
    /// Exchange the list head to the next list.
    Publish {
        at: u32,
    },
    /// No step is due.
    Done,
}

/// A getSet under way. It finds every announcement that stands in a slot from its first step to its last,
/// and loads no slot of the list that it read.
// The wide fields come first, so that there is no padding: padding would be written with them.
#[derive(Debug, Drop)]
pub struct GetSet {
    head: u64,
    passed: usize,
    stage: Stage,
    sizes: Sizes,
    end: u32,
    lists_spent: bool,
    noted: bool,
}

impl Model for GetSet {
    ghost use Rattle.std.specs.Prelude.{IsTrue};
    ghost use Rattle.partial_words.specs.Layout.{IsLayout};
    ghost use Rattle.partial_active.specs.GetSet.{GetSetState, fits_stage};

    ghost Value = { GetSetState };

    ghost view = { λ g. record {
      sizes = g.sizes;
      lists_spent = g.lists_spent;
      head = g.head;
      end = g.end;
      passed = g.passed;
      noted = g.noted;
      stage = g.stage;
    } };

    ghost invariant = { λ g. IsLayout g.sizes × IsTrue (fits_stage g.sizes g.stage) };
}

impl GetSet {
    ghost use Rattle.partial_active.specs.Found.{Buffers, AreFoundFor};
    ghost use Rattle.partial_active.specs.GetSet.{set_step_due, advance_set, set_left, most_set_steps, fresh_set, after_walk, at_slot, come_to, after_head, after_list_len, after_interval, after_counter, after_slot, after_len, after_index, after_claim, after_write};
    ghost use Rattle.partial_active.specs.GetSetAnswers.{IsPossibleInSet, SetGoesTogether, IsWalking, IsAtSlot, IsReading, IsNextLow, IsListHead, IsListLen, IsSlotWord, IsAnnouncedLen, IsListClaim, EndsBelow, HasRead, HasNext};

    /// Makes a getSet of a port. `lists_spent` says whether the port is marked for the list words. It takes
    /// no memory: the buffers for its answers were made for the same sizes.
    #[inline(always)]
    pub fn new(sizes: Sizes, lists_spent: bool) -> GetSet
        ensures state { result ≡ fresh_set sizes lists_spent }
        ensures together { (f : Buffers) → AreFoundFor sizes f → SetGoesTogether (result, f) }
        ensures steps { set_left result ≡ most_set_steps sizes }
    {
        // The contract of the getter says that the sizes are in their ranges.
        let _slots = sizes.slots();
        GetSet {
            sizes,
            lists_spent,
            head: 0,
            end: 0,
            passed: 0,
            noted: false,
            stage: Stage::Head,
        }
    }

    /// The step that is due. `None` when the getSet is finished.
    #[inline(always)]
    pub fn step(&self) -> Option<Step>
        ensures { result ≡ set_step_due self.now }
    {
        match self.stage {
            Stage::Head => Some(Step::Load(self.sizes.list_head())),
            Stage::ListLen { at } => Some(Step::Load(at)),
            Stage::ListLow { at, .. } => Some(Step::Load(at)),
            Stage::ListHigh { at, .. } => Some(Step::Load(at)),
            Stage::Counter => Some(Step::Load(self.sizes.slot_counter())),
            Stage::Slot { slot } => Some(Step::Load(self.sizes.slot_word(slot))),
            Stage::Len { at, .. } => Some(Step::Load(at)),
            Stage::Index { at, .. } => Some(Step::Load(at)),
            Stage::Claim { words } => {
                Some(Step::Add(self.sizes.list_counter(), u64::from(words)))
            }
            Stage::Write { at, k, word, .. } => Some(Step::Store(at + k, word)),
            Stage::Publish { at } => Some(Step::Exchange(
                self.sizes.list_head(),
                self.head,
                u64::from(at),
            )),
            Stage::Done => None,
        }
    }

    /// Whether the port is marked for the list words: it was before, or the claim of this getSet went past
    /// their end.
    #[inline(always)]
    pub fn lists_spent(&self) -> bool
        ensures { result ≡ self.now.lists_spent }
    {
        let GetSet { lists_spent, .. } = self;
        *lists_spent
    }

    /// Takes over the mark of another getSet of the port.
    #[inline(always)]
    pub fn keep_mark(&mut self, other: &GetSet)
        ensures { self.new ≡ record self.old { lists_spent = other.now.lists_spent } }
    {
        self.lists_spent = other.lists_spent;
    }

    /// Takes the answer of the step that was due, with the buffers of this getSet. The first answer empties
    /// them. When the getSet is finished, they have the indices that it found.
    #[inline(always)]
    pub fn answer(&mut self, found: &mut Found, x: u64)
        requires due { IsSome (set_step_due self.old) }
        requires together { SetGoesTogether (self.old, found.old) }
        requires possible { IsPossibleInSet (self.old, found.old) x }
        ensures state { (self.new, found.new) ≡ advance_set (self.old, found.old) x }
        ensures together { SetGoesTogether (self.new, found.new) }
        ensures sizes { self.new.sizes ≡ self.old.sizes }
        ensures left { set_left self.new < set_left self.old }
    {
        match self.stage {
            Stage::Head => self.after_head(found, x),
            Stage::ListLen { at } => self.after_list_len(at, x),
            Stage::ListLow { at, left } => {
                self.stage = Stage::ListHigh {
                    at: next_word(u64::from(at)) as u32,
                    left,
                    lo: x as u32,
                };
            }
            Stage::ListHigh { at, left, lo } => self.after_interval(found, at, left, lo, x as u32),
            Stage::Counter => self.after_counter(found, x),
            Stage::Slot { slot } => self.after_slot(found, slot, x),
            Stage::Len { slot, at } => self.after_len(found, slot, at, x),
            Stage::Index { slot, at, left } => self.after_index(found, slot, at, left, x as u32),
            Stage::Claim { words } => self.after_claim(found, words, x),
            Stage::Write { at, k, words, .. } => self.after_write(found, at, k, words),
            Stage::Publish { .. } => self.stage = Stage::Done,
            Stage::Done => {}
        }
    }

    // Takes the answer of the load of the list head.
    #[inline(always)]
    fn after_head(&mut self, found: &mut Found, x: u64)
        requires layout { IsLayout self.old.sizes }
        requires head { IsListHead self.old.sizes x }
        ensures { (self.new, found.new) ≡ after_head (self.old, found.old) x }
    {
        found.clear();
        self.head = x;
        self.stage = if x == 0 {
            Stage::Counter
        } else {
            Stage::ListLen { at: x as u32 }
        };
    }

    // Takes the answer of the load of the number of intervals.
    #[inline(always)]
    fn after_list_len(&mut self, at: u32, x: u64)
        requires layout { IsLayout self.old.sizes }
        requires len { IsListLen self.old.sizes at x }
        ensures { self.new ≡ record self.old { stage = after_list_len at x } }
    {
        self.stage = if x == 0 {
            Stage::Counter
        } else {
            Stage::ListLow {
                at: intervals_word(at),
                left: x as u32,
            }
        };
    }

    // Takes the answer of the load of an interval's highest slot.
    #[inline(always)]
    fn after_interval(&mut self, found: &mut Found, at: u32, left: u32, lo: u32, x: u32)
        requires layout { IsLayout self.old.sizes }
        requires reading { IsReading (self.old, found.old) left }
        requires words { at + pairs_size left ≤ list_end self.old.sizes + 1 }
        requires low { IsNextLow self.old.sizes found.old.read lo }
        requires high { (lo ≤ x) × (x < self.old.sizes.slots) }
        requires sizes { AreFoundFor self.old.sizes found.old }
        ensures { (self.new, found.new) ≡ after_interval (self.old, found.old) at left lo x }
    {
        found.read_interval(lo, x);
        self.stage = if left == 1 {
            Stage::Counter
        } else {
            Stage::ListLow {
                at: next_word(u64::from(at)) as u32,
                left: left - 1,
            }
        };
    }

    // Takes the answer of the load of the slot counter, and begins the walk.
    #[inline(always)]
    fn after_counter(&mut self, found: &mut Found, x: u64)
        requires list { HasRead self.old.sizes found.old.read }
        requires below { EndsBelow found.old.read x }
        requires next { found.old.next ≡ [] }
        requires sizes { AreFoundFor self.old.sizes found.old }
        ensures { (self.new, found.new) ≡ after_counter (self.old, found.old) x }
    {
        self.end = x.min(u64::from(self.sizes.slots())) as u32;
        self.passed = 0;
        self.come_to(found, 0);
    }

    // Takes the answer of the load of a slot.
    #[inline(always)]
    fn after_slot(&mut self, found: &mut Found, slot: u32, x: u64)
        requires layout { IsLayout self.old.sizes }
        requires at_slot { IsAtSlot (self.old, found.old) slot }
        requires word { IsSlotWord self.old.sizes x }
        requires sizes { AreFoundFor self.old.sizes found.old }
        ensures { (self.new, found.new) ≡ after_slot (self.old, found.old) slot x }
    {
        match x {
            0 => self.come_to(found, slot + 1),
            1 => {
                self.noted = true;
                found.note(slot, slot);
                self.come_to(found, slot + 1);
            }
            _ => {
                self.stage = Stage::Len { slot, at: x as u32 };
            }
        }
    }

    // Takes the answer of the load of an announcement's number of indices.
    #[inline(always)]
    fn after_len(&mut self, found: &mut Found, slot: u32, at: u32, x: u64)
        requires layout { IsLayout self.old.sizes }
        requires at_slot { IsAtSlot (self.old, found.old) slot }
        requires len { IsAnnouncedLen self.old.sizes at x }
        requires sizes { AreFoundFor self.old.sizes found.old }
        ensures { (self.new, found.new) ≡ after_len (self.old, found.old) slot at x }
    {
        if x == 0 {
            self.come_to(found, slot + 1);
        } else {
            self.stage = Stage::Index {
                slot,
                at: indices_word(at),
                left: x as u32,
            };
        }
    }

    // Takes the answer of the load of an announcement's index.
    #[inline(always)]
    fn after_index(&mut self, found: &mut Found, slot: u32, at: u32, left: u32, x: u32)
        requires layout { IsLayout self.old.sizes }
        requires at_slot { IsAtSlot (self.old, found.old) slot }
        requires some { 0 < left }
        requires words { at + left ≤ pool_end self.old.sizes }
        requires index { x < self.old.sizes.m }
        requires sizes { AreFoundFor self.old.sizes found.old }
        ensures { (self.new, found.new) ≡ after_index (self.old, found.old) slot at left x }
    {
        found.insert(x);
        if left == 1 {
            self.come_to(found, slot + 1);
        } else {
            self.stage = Stage::Index {
                slot,
                at: next_word(u64::from(at)) as u32,
                left: left - 1,
            };
        }
    }

    // Takes the answer of the claim of list words, which may have gone past their end.
    #[inline(always)]
    fn after_claim(&mut self, found: &Found, words: u32, x: u64)
        requires layout { IsLayout self.old.sizes }
        requires next { HasNext (self.old, found.now) words }
        requires claim { IsListClaim self.old.sizes x }
        ensures { (self.new, found.now) ≡ after_claim (self.old, found.now) words x }
    {
        if x + u64::from(words) > u64::from(self.sizes.list_end()) {
            self.lists_spent = true;
            self.stage = Stage::Done;
        } else {
            self.stage = Stage::Write {
                at: x as u32,
                k: 0,
                words,
                word: found.next_len() as u64,
            };
        }
    }

    // Goes on after a word of the next list was stored.
    #[inline(always)]
    fn after_write(&mut self, found: &Found, at: u32, k: u32, words: u32)
        requires next { HasNext (self.old, found.now) words }
        requires word { k < words }
        requires within { at + words ≤ list_end self.old.sizes }
        ensures { (self.new, found.now) ≡ after_write (self.old, found.now) at k words }
    {
        self.stage = if k + 1 == words {
            Stage::Publish { at }
        } else {
            Stage::Write {
                at,
                k: k + 1,
                words,
                word: found.next_word(k as usize + 1),
            }
        };
    }

    // Ends the walk. The next list is published when a slot was noted and the port isn't marked.
    #[inline(always)]
    fn after_walk(&mut self, found: &Found)
        requires { EndsBelow found.now.next self.old.sizes.slots }
        ensures { (self.new, found.now) ≡ after_walk (self.old, found.now) }
    {
        self.stage = if self.noted && !self.lists_spent {
            Stage::Claim {
                words: list_size(found.next_len() as u64) as u32,
            }
        } else {
            Stage::Done
        };
    }

    // The walk is at a slot that is in no interval of the list that was read.
    #[inline(always)]
    fn at_slot(&mut self, found: &Found, slot: u32)
        requires { IsWalking (self.old, found.now) slot }
        ensures { (self.new, found.now) ≡ at_slot (self.old, found.now) slot }
    {
        if slot < self.end {
            self.stage = Stage::Slot { slot };
        } else {
            self.after_walk(found);
        }
    }

    // The walk reaches a slot. It skips an interval of the list that was read when one begins there.
    #[inline(always)]
    fn come_to(&mut self, found: &mut Found, slot: u32)
        requires walking { IsWalking (self.old, found.old) slot }
        requires sizes { AreFoundFor self.old.sizes found.old }
        ensures { (self.new, found.new) ≡ come_to (self.old, found.old) slot }
    {
        if found.begins_at(self.passed, slot) {
            let (lo, hi) = found.interval(self.passed);
            found.note(lo, hi);
            self.passed += 1;
            self.at_slot(found, hi + 1);
        } else {
            self.at_slot(found, slot);
        }
    }
}

impl GetSet {
    ghost use Rattle.partial_active.specs.GetSetAnswers.{SetGoesTogether, IsPossibleInSet};

    /// Whether the number is a possible answer of the step that is due, as [`GetSet::answer`] wants it: one that the
    /// words of a memory give.
    pub fn may_answer(&self, found: &Found, x: u64) -> bool
        requires { SetGoesTogether (self.now, found.now) }
        ensures { IsTrue result ↔ IsPossibleInSet (self.now, found.now) x }
    {
        match self.stage {
            Stage::Head => x == 0 || self.sizes.is_list_word(x),
            Stage::ListLen { at } => {
                x <= u64::from(self.sizes.slots())
                    && u64::from(at) + list_size(x) <= u64::from(self.sizes.list_end())
                    && 2 * x <= u64::from(self.sizes.slots()) + 1
            }
            Stage::ListLow { .. } => {
                x < u64::from(self.sizes.slots()) && found.read_ends_below(x.saturating_sub(1))
            }
            Stage::ListHigh { lo, .. } => {
                u64::from(lo) <= x && x < u64::from(self.sizes.slots())
            }
            Stage::Counter => found.read_ends_below(x),
            Stage::Slot { .. } => x <= 1 || self.sizes.is_pool_word(x),
            Stage::Len { at, .. } => {
                x <= u64::from(self.sizes.m())
                    && u64::from(at) + announcement_size(x) <= u64::from(self.sizes.pool_end())
            }
            Stage::Index { .. } => x < u64::from(self.sizes.m()),
            Stage::Claim { .. } => {
                u64::from(self.sizes.list_base()) <= x
                    && x <= u64::from(self.sizes.list_end())
                        + u64::from(MOST_PORTS) * u64::from(self.sizes.greatest_list())
            }
            Stage::Write { .. } | Stage::Publish { .. } | Stage::Done => true,
        }
    }
}
