//! What a replay has made, before it is an outcome.

ghost use Rattle.std.specs.Prelude.{◌≡◌, IfOk};
ghost use Rattle.partial_text.specs.Replayed.{calls_in_order};

use partial_model::{Applied, Called, Opening};
use partial_words::{PlainWords, Trace};
use std::alloc::{AllocError, Global};

/// What a replay has made, as it holds it: the calls of each port in a list of their own, words of which the zeros that no
/// step has reached aren't stored, and a trace in which loads take little room. An [`Outcome`](crate::Outcome) has all
/// calls in one list, all words, and each step as an [`Event`](partial_words::Event).
#[derive(Debug, Drop)]
pub struct Replayed {
    /// The initial values of the components, and the stamp of component 0 at opening.
    pub opening: Opening,
    /// The history: the updates that were applied, in the order of their exchanges.
    pub history: Vec<Applied>,
    /// The calls that were begun, by port: those of each by number.
    pub calls: Vec<Vec<Called>>,
    /// The words at the end.
    pub words: PlainWords,
    /// Each atomic step that was made, in order.
    pub trace: Trace,
    /// How many atomic steps were made.
    pub steps: u64,
}

/// Moves the calls of all ports into one list, one port's after the other's.
///
/// # Errors
///
/// An [`AllocError`] when an allocation was refused. The calls are gone then.
pub fn in_one_list(alloc: Global, ports: Vec<Vec<Called>>) -> Result<Vec<Called>, AllocError>
    ensures { IfOk result (λ calls. calls.items ≡ calls_in_order ports.items) }
{
    let mut all = Vec::new(alloc);
    for mut calls in ports {
        all.append(&mut calls)?;
    }
    Ok(all)
}
