//! The slow check, whether a history and a list of calls are a legal outcome, and a checker that takes memory and
//! answers the same.

ghost use Rattle.std.specs.Prelude.{◌≡◌, ◌&&◌, IfOk, MatchOption, true, false};
ghost use Rattle.std.specs.Bool.{Decides};
ghost use Rattle.partial_model.specs.Outcome.{LegalOutcome};
ghost use Rattle.partial_model.specs.Inner.Checks.{is_history, is_legal_outcome};
ghost use Rattle.partial_model.specs.Inner.Indexed.{IsIndexOf};

mod answers;
mod claims;
mod entries;
mod index;
mod lookups;
mod notes;
mod times;

use crate::call::Called;
use crate::checker::index::Index;
use crate::checker::lookups::Lookups;
use crate::history::{Applied, Opening};
use std::alloc::{AllocError, Global};
use std::marker::Model;

/// Whether the history and the calls are a legal outcome, for every list of entries and of calls.
///
/// It is false when an entry's component isn't one of the opening, or a stamp is doubled or an initial
/// one; when the calls aren't listed by rising port, and those of a port by number from 0 without gaps;
/// when a call that isn't its port's last is unfinished; when an answer isn't right at the place that
/// its note names, or that place lies outside the call; and when an entry isn't claimed by exactly one
/// call, in the order of its port's calls.
///
/// It takes no memory. It walks the history some times for each port that has calls, and for each value and
/// stamp that an answer names a part of it again.
pub fn check_outcome(opening: &Opening, history: &[Applied], calls: &[Called]) -> bool
    ensures { Decides result (LegalOutcome opening.now history.now calls.now) }
{
    passes(opening, history, calls)
}

/// Checks lists of calls against a history with the answer of [`check_outcome`], and takes memory for it: an
/// index of the history.
#[derive(Drop)]
pub struct Checker<'a> {
    opening: &'a Opening,
    history: &'a [Applied],
    // None when the entries aren't a history.
    index: Option<Index>,
}

impl<'a> Model for Checker<'a> {
    ghost use Rattle.std.specs.Prelude.{◌≡◌, MatchOption, true, false};
    ghost use Rattle.partial_model.specs.Checked.{CheckedHistory};
    ghost use Rattle.partial_model.specs.Inner.Checks.{is_history};
    ghost use Rattle.partial_model.specs.Inner.Indexed.{IsIndexOf};

    ghost Value = { CheckedHistory };

    ghost view = { λ c. record { opening = c.opening.now; history = c.history.now } };

    ghost invariant = { λ c. MatchOption c.index (is_history c.opening.now c.history.now ≡ false)
        (λ index. (is_history c.opening.now c.history.now ≡ true) × IsIndexOf c.history.now index) };
}

impl<'a> Checker<'a> {
    /// Makes the index of the history: the places of each component's entries, and the place of each stamp.
    ///
    /// # Errors
    ///
    /// An `AllocError` when an allocation was refused. Nothing is left of the index then.
    pub fn new(
        alloc: Global,
        opening: &'a Opening,
        history: &'a [Applied],
    ) -> Result<Checker<'a>, AllocError>
        ensures { IfOk result (λ checker. checker ≡ record { opening = opening.now; history = history.now }) }
    {
        let index = index_of(alloc, opening, history)?;
        Ok(Checker {
            opening,
            history,
            index,
        })
    }

    /// Whether the history and the calls are a legal outcome, for every list of calls: what [`check_outcome`]
    /// answers.
    ///
    /// It takes no more memory. The last entry for a component before a place is sought by halves in the list
    /// of that component's entries, and the entry with a stamp in a map. It walks the history some times for each
    /// port that has calls, to see which entries are claimed.
    pub fn check(&self, calls: &[Called]) -> bool
        ensures { Decides result (LegalOutcome self.now.opening self.now.history calls.now) }
    {
        match &self.index {
            None => false,
            Some(index) => {
                passes_behind(self.opening, &Lookups::indexed(self.history, index), calls)
            }
        }
    }
}

// The index of the history. None when the entries aren't a history.
fn index_of(
    alloc: Global,
    opening: &Opening,
    history: &[Applied],
) -> Result<Option<Index>, AllocError>
    ensures { IfOk result (λ found. MatchOption found (is_history opening.now history.now ≡ false)
        (λ index. (is_history opening.now history.now ≡ true) × IsIndexOf history.now index)) }
{
    if entries::are_entries(opening, history) {
        Index::new(alloc, opening.values.len(), history)
    } else {
        Ok(None)
    }
}

// The tests of all clauses, each of which may take for granted that those before it passed.
fn passes(opening: &Opening, history: &[Applied], calls: &[Called]) -> bool
    ensures { result ≡ is_legal_outcome opening.now history.now calls.now }
{
    entries::is_history(opening, history)
        && passes_behind(opening, &Lookups::walking(history), calls)
}

// The tests of the clauses after the first one, which says that the entries are a history.
fn passes_behind(opening: &Opening, history: &Lookups, calls: &[Called]) -> bool
    ensures { is_history opening.now history.now && result ≡ is_legal_outcome opening.now history.now calls.now }
{
    times::are_in_time(history.entries().len(), calls)
        && notes::notes_are_legal(opening, history, calls)
        && claims::claim_all(history.entries(), calls)
}
