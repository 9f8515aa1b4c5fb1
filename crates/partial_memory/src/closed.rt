//! What a memory held when it was closed.

ghost use Rattle.std.specs.Prelude.{◌≡◌, ◌<◌, ◌^◌, length, IfOk};
ghost use Rattle.std.specs.Slots.{slots_len, slots_items, IsFull};
ghost use Rattle.partial_memory.specs.Closing.{AreLinks, HaveChain, HaveRecords, HoldsClosed};

use partial_words::{Link, prev_word, value_word};
use std::alloc::{AllocError, Global};

/// What a memory held when it was closed. It takes memory for the values and the records alone.
#[derive(Debug, Drop)]
pub struct Closed {
    /// The value of each component, by its index.
    pub values: Vec<u64>,
    /// The records of each component, by its index, the newest first. The last one is the initial record.
    pub chains: Vec<Vec<Link>>,
}

/// The words of a table that threads no longer share.
pub type ClosedWords = partial_table::Closed<(), Global>;

// Collects the records of a component from the newest on. Each names the one before it.
fn chain(alloc: Global, words: &ClosedWords, newest: u64) -> Result<Vec<Link>, AllocError>
    requires full { IsFull words.now.words × (slots_len words.now.words < 2 ^ 32) }
    requires count { slots_len words.now.words ≡ length (slots_items words.now.words) }
    requires chain { HaveChain (slots_items words.now.words) newest (slots_len words.now.words) }
    ensures { IfOk result (λ v. AreLinks (slots_items words.now.words) newest v.items) }
{
    let mut links = Vec::new(alloc);
    let mut at = newest;
    while at != 0 {
        let value = words.word(value_word(at) as usize);
        links.push(Link { stamp: at, value })?;
        at = words.word(prev_word(at) as usize);
    }
    Ok(links)
}

/// Collects the values and the chains of the components.
///
/// # Errors
/// [`AllocError`] when an allocation was refused.
pub fn closed_of(alloc: Global, words: &ClosedWords, m: u32) -> Result<Closed, AllocError>
    requires full { IsFull words.now.words × (slots_len words.now.words < 2 ^ 32) }
    requires count { slots_len words.now.words ≡ length (slots_items words.now.words) }
    requires records { HaveRecords (slots_items words.now.words) m }
    ensures { IfOk result (λ c. HoldsClosed (slots_items words.now.words) m c) }
{
    let mut values = Vec::with_capacity(alloc, m as usize)?;
    let mut chains = Vec::with_capacity(alloc, m as usize)?;
    for j in 0..m {
        let links = chain(alloc, words, words.word(j as usize))?;
        values.push_reserved(links[0].value);
        chains.push_reserved(links);
    }
    Ok(Closed { values, chains })
}
