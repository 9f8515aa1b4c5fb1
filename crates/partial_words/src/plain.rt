//! Words of one thread, of which zeros at the end aren't stored.

ghost use Rattle.std.specs.Prelude.{◌≡◌, ◌++◌, ◌-◌, ◌<◌, ◌≤◌, length, replicate, slice_index, IfOk};
ghost use Rattle.std.specs.Vec.{vec_capacity};
ghost use Rattle.partial_words.specs.Step.{answer_of, words_after, word_of};
ghost use Rattle.partial_words.specs.Record.{prev_of, record_value, value_word};

use crate::record::{PREV, VALUE};
use crate::step::Step;
use std::alloc::{AllocError, Global};
use std::marker::Model;

// How many words are stored together: as many as a page of memory holds.
const STRETCH: usize = 512;

/// Words of one thread. Those after the last one on which a step was made needn't be stored: they are 0. So words that
/// no step has reached cost room, and no time. To a contract it is the list of all words.
#[derive(Debug, Drop)]
pub struct PlainWords {
    stored: Vec<u64>,
    count: usize,
}

impl Model for PlainWords {
    ghost use Rattle.std.specs.Prelude.{ℕ, List, ◌++◌, ◌-◌, ◌≤◌, length, replicate};
    ghost use Rattle.std.specs.Vec.{vec_capacity};

    ghost Value = { List ℕ };

    ghost view = { λ w. w.stored.items ++ replicate (w.count - length w.stored.items) 0 };

    ghost invariant = { λ w. (length w.stored.items ≤ w.count) × (w.count ≤ vec_capacity w.stored) };
}

impl From<Vec<u64>> for PlainWords {
    ghost from_gives = { λ list words. words ≡ list.items };

    /// The words of a list.
    fn from(stored: Vec<u64>) -> Self {
        let count = stored.len();
        PlainWords { stored, count }
    }
}

// Stores zeros until so many words are stored.
#[inline(never)]
fn store_up_to(stored: &mut Vec<u64>, count: usize)
    requires { count ≤ vec_capacity stored.old }
    ensures items { stored.new.items ≡ stored.old.items ++ replicate (count - length stored.old.items) 0 }
    ensures capacity { vec_capacity stored.new ≡ vec_capacity stored.old }
{
    while stored.len() < count {
        stored.push_reserved(0);
    }
}

// Stores the word with that number, and some after it, unless it is stored. The `count` words stay as they are.
#[inline(always)]
#[tactic(auto, using(crate::proofs::PlainLemmas::zeros_stored))]
fn reach(stored: &mut Vec<u64>, count: usize, at: usize)
    requires within { at < count }
    requires stored { length stored.old.items ≤ count }
    requires room { count ≤ vec_capacity stored.old }
    ensures reached { at < length stored.new.items }
    ensures stored { length stored.new.items ≤ count }
    ensures capacity { vec_capacity stored.new ≡ vec_capacity stored.old }
    ensures same { stored.new.items ++ replicate (count - length stored.new.items) 0
        ≡ stored.old.items ++ replicate (count - length stored.old.items) 0 }
{
    if at >= stored.len() {
        store_up_to(stored, count.min(at + STRETCH));
    }
}

// Makes a step on a stored word.
#[inline(always)]
fn perform_stored(stored: &mut Vec<u64>, step: Step) -> u64
    requires { word_of step < length stored.old.items }
    ensures answer { result ≡ answer_of stored.old.items step }
    ensures words { stored.new.items ≡ words_after stored.old.items step }
    ensures capacity { vec_capacity stored.new ≡ vec_capacity stored.old }
{
    step.perform(stored)
}

// The word with that number: 0 where it isn't stored.
fn stored_word(stored: &[u64], at: usize) -> u64
    ensures { result ≡ slice_index stored.now at }
{
    if at < stored.len() { stored[at] } else { 0 }
}

impl PlainWords {
    /// So many words that are 0. The room for all of them is taken here.
    ///
    /// # Errors
    /// [`AllocError`] when it was refused.
    pub fn zeros(alloc: Global, count: usize) -> Result<PlainWords, AllocError>
        ensures { IfOk result (λ words. words ≡ replicate count 0) }
    {
        Ok(PlainWords {
            stored: Vec::with_capacity(alloc, count)?,
            count,
        })
    }

    /// How many words there are.
    #[tactic(auto, using(crate::proofs::PlainLemmas::all_words))]
    pub fn len(&self) -> usize
        ensures { result ≡ length self.now }
    {
        self.count
    }

    /// The word with that number.
    #[tactic(auto, using(crate::proofs::PlainLemmas::zeros_behind))]
    pub fn word(&self, at: usize) -> u64
        requires { at < length self.now }
        ensures { result ≡ slice_index self.now at }
    {
        stored_word(&self.stored, at)
    }

    /// The reference of the record before the one at word `at`, as [`prev_of`](crate::prev_of).
    #[tactic(auto, using(crate::proofs::PlainLemmas::zeros_behind))]
    pub fn prev_of(&self, at: usize) -> u64
        requires { at < length self.now }
        ensures { result ≡ prev_of self.now at }
    {
        stored_word(&self.stored, at + PREV)
    }

    /// The value of the record at word `at`, as [`value_of`](crate::value_of).
    #[tactic(auto, using(crate::proofs::PlainLemmas::zeros_behind, crate::proofs::PlainLemmas::all_words))]
    pub fn value_of(&self, at: usize) -> u64
        requires { value_word at < length self.now }
        ensures { result ≡ record_value self.now at }
    {
        stored_word(&self.stored, at + VALUE)
    }

    /// Makes the step, and returns its answer, as [`Step::perform`].
    #[tactic(auto, using(crate::proofs::PlainLemmas::step_made, crate::proofs::PlainLemmas::zeros_behind))]
    #[inline(always)]
    pub fn perform(&mut self, step: Step) -> u64
        requires { word_of step < length self.old }
        ensures answer { result ≡ answer_of self.old step }
        ensures words { self.new ≡ words_after self.old step }
    {
        reach(&mut self.stored, self.count, step.word() as usize);
        perform_stored(&mut self.stored, step)
    }

    /// All words.
    pub fn into_vec(mut self) -> Vec<u64>
        ensures { result.items ≡ self }
    {
        store_up_to(&mut self.stored, self.count);
        self.stored
    }
}
