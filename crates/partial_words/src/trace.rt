//! The steps of one thread's words, in order.

ghost use Rattle.std.specs.Prelude.{◌≡◌, ◌++◌, [], ◌∷◌, length, IfOk, IfSome, OnOk, OnErr, Some};
ghost use Rattle.partial_words.specs.Kept.{event_kept};

use crate::step::{Event, Step};
use std::alloc::{AllocError, Global};
use std::marker::Model;

// A step as it is kept: a load or a store by a port below 256, or that the next of the other steps was made.
#[derive(Clone, Copy, Debug)]
enum Kept {
    Load { port: u8, word: u32, answer: u64 },
    Store { port: u8, word: u32, value: u64 },
    Other,
}

/// Steps that were made, with their answers, in order. Most steps are loads and stores, and one of these takes 16 bytes
/// here where an [`Event`] takes 40. To a contract it is the list of all events.
#[derive(Debug, Drop)]
pub struct Trace {
    kept: Vec<Kept>,
    // The steps that aren't kept as loads or stores, in order.
    others: Vec<Event>,
}

impl Model for Trace {
    ghost use Rattle.std.specs.Prelude.{List, ◌≡◌, length};
    ghost use Rattle.partial_words.specs.declared.step.Event.{Event};
    ghost use Rattle.partial_words.specs.Kept.{kept_events, others_in};

    ghost Value = { List Event };

    ghost view = { λ t. kept_events t.kept.items t.others.items };

    ghost invariant = { λ t. others_in t.kept.items ≡ length t.others.items };
}

// The step as it is kept, unless it is one of the others.
#[inline(always)]
fn kept_of(event: Event) -> Option<Kept>
    ensures { IfSome result (λ kept. event_kept kept ≡ Some event) }
{
    let Event { port, step, answer } = event;
    if port >= 256 {
        return None;
    }
    let port = port as u8;
    match step {
        Step::Load(word) => Some(Kept::Load { port, word, answer }),
        Step::Store(word, value) if answer == 0 => Some(Kept::Store { port, word, value }),
        _ => None,
    }
}

impl Trace {
    /// No step yet.
    pub fn new(alloc: Global) -> Trace
        ensures { result ≡ [] }
    {
        Trace {
            kept: Vec::new(alloc),
            others: Vec::new(alloc),
        }
    }

    /// How many steps there are.
    pub fn len(&self) -> usize
        ensures { result ≡ length self.now }
    {
        self.kept.len()
    }

    /// Adds the next step.
    ///
    /// # Errors
    /// [`AllocError`] when an allocation was refused. The steps are as they were.
    #[inline(always)]
    pub fn push(&mut self, event: Event) -> Result<(), AllocError>
        ensures pushed { OnOk result (self.new ≡ self.old ++ event ∷ []) }
        ensures unchanged { OnErr result (self.new ≡ self.old) }
    {
        match kept_of(event) {
            Some(kept) => {
                self.kept.push(kept)?;
                Ok(())
            }
            None => self.push_other(event),
        }
    }

    // Adds a step that isn't kept as a load or a store.
    #[inline(never)]
    fn push_other(&mut self, event: Event) -> Result<(), AllocError>
        ensures pushed { OnOk result (self.new ≡ self.old ++ event ∷ []) }
        ensures unchanged { OnErr result (self.new ≡ self.old) }
    {
        self.kept.reserve(1)?;
        self.others.push(event)?;
        self.kept.push_reserved(Kept::Other);
        Ok(())
    }

    /// All steps, in a list.
    ///
    /// # Errors
    /// [`AllocError`] when an allocation was refused. The steps are gone then.
    pub fn into_vec(self, alloc: Global) -> Result<Vec<Event>, AllocError>
        ensures { IfOk result (λ events. events.items ≡ self) }
    {
        let Trace { kept, others } = self;
        let mut events = Vec::with_capacity(alloc, kept.len())?;
        let mut next = 0;
        for step in &kept {
            let event = match *step {
                Kept::Load { port, word, answer } => Event {
                    port: u32::from(port),
                    step: Step::Load(word),
                    answer,
                },
                Kept::Store { port, word, value } => Event {
                    port: u32::from(port),
                    step: Step::Store(word, value),
                    answer: 0,
                },
                Kept::Other => {
                    next += 1;
                    others[next - 1]
                }
            };
            events.push(event)?;
        }
        Ok(events)
    }
}
