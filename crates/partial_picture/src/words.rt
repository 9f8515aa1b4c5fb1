//! The words of labels: those of plans and outcomes.

ghost use Rattle.std.specs.Prelude.{◌≡◌, ◌++◌, ◌∷◌, [], IfOk, OnOk, string_bytes, codes};
ghost use Rattle.std.specs.List.{flat_map};
ghost use Rattle.partial_text.specs.PlanText.{call_text, number_field};
ghost use Rattle.partial_text.specs.OutcomeText.{entry_line, finish_text, optional_field, written_place};
ghost use Rattle.partial_picture.specs.Words.{step_words, word_name};

use partial_model::{Answer, Applied, Call, Called, Note};
use partial_words::{Event, Sizes, Step};
use std::alloc::{AllocError, Global};

/// Writes each index with a space before it.
fn push_indices(words: &mut String, indices: &[u32]) -> Result<(), AllocError>
    ensures { OnOk result (string_bytes words.new ≡ string_bytes words.old ++ flat_map number_field indices.now) }
{
    for index in indices {
        write!(words, " {index}")?;
    }
    Ok(())
}

/// Writes each value with a space before it.
fn push_values(words: &mut String, values: &[u64]) -> Result<(), AllocError>
    ensures { OnOk result (string_bytes words.new ≡ string_bytes words.old ++ flat_map number_field values.now) }
{
    for value in values {
        write!(words, " {value}")?;
    }
    Ok(())
}

/// The words of a call, as in a plan.
///
/// # Errors
///
/// [`AllocError`] when an allocation was refused.
pub fn call_words(alloc: Global, call: &Call) -> Result<String, AllocError>
    ensures { IfOk result (λ words. string_bytes words ≡ call_text call.now) }
{
    match call {
        Call::Update { component, value } => format!(in alloc; "update {component} {value}"),
        Call::Read { component } => format!(in alloc; "read {component}"),
        Call::UpdateIf {
            component,
            expected,
            value,
        } => format!(in alloc; "updateif {component} {expected} {value}"),
        Call::Scan { components } => {
            let mut words = String::from_str(alloc, "scan")?;
            push_indices(&mut words, components.as_slice())?;
            Ok(words)
        }
    }
}

/// The place or the prefix of a note, and 0 when there is no note.
fn place_of(note: Option<Note>) -> usize
    ensures { result ≡ written_place note }
{
    match note {
        None => 0,
        Some(Note::Wrote(place) | Note::Lost(place) | Note::Saw(place)) => place,
    }
}

/// The words of a call's end, as in an outcome, up to its number of steps.
///
/// # Errors
///
/// [`AllocError`] when an allocation was refused.
pub fn finish_words(alloc: Global, called: &Called) -> Result<String, AllocError>
    // In the text it comes after a space.
    ensures { IfOk result (λ words. 32 ∷ string_bytes words ≡ finish_text called.now.finish) }
{
    let Some(finish) = &called.finish else {
        return String::from_str(alloc, "unfinished");
    };
    let place = place_of(finish.note);
    match &finish.answer {
        Answer::Applied { stamp } => format!(in alloc; "applied {stamp} place {place}"),
        Answer::Lost { by } => format!(in alloc; "lost {by} place {place}"),
        Answer::Changed { by } => format!(in alloc; "changed {by} prefix {place}"),
        Answer::Read { value, stamp } => {
            format!(in alloc; "read {value} {stamp} prefix {place}")
        }
        Answer::Refused { cause } => format!(in alloc; "refused {}", cause.code()),
        Answer::Scanned {
            values,
            collects,
            borrowed,
        } => {
            let mut words = String::from_str(alloc, "scanned")?;
            push_values(&mut words, values.as_slice())?;
            push_end(&mut words, place, *collects, *borrowed)?;
            Ok(words)
        }
    }
}

/// Writes what follows the values of a scan.
fn push_end(
    words: &mut String,
    prefix: usize,
    collects: u32,
    borrowed: Option<u64>,
) -> Result<(), AllocError>
    ensures { OnOk result (string_bytes words.new ≡ string_bytes words.old ++ codes " prefix" ++ number_field prefix
        ++ codes " collects" ++ number_field collects ++ codes " borrowed" ++ optional_field borrowed) }
{
    match borrowed {
        Some(stamp) => write!(
            words,
            " prefix {prefix} collects {collects} borrowed {stamp}"
        ),
        None => write!(words, " prefix {prefix} collects {collects} borrowed -"),
    }
}

/// The words of an entry of the history, as in an outcome.
///
/// # Errors
///
/// [`AllocError`] when an allocation was refused.
pub fn entry_words(alloc: Global, place: usize, entry: &Applied) -> Result<String, AllocError>
    // In the text a newline ends it.
    ensures { IfOk result (λ words. string_bytes words ++ 10 ∷ [] ≡ entry_line place entry.now) }
{
    let Applied {
        port,
        component,
        value,
        stamp,
    } = *entry;
    format!(in alloc;
        "applied {place} port {port} component {component} value {value} stamp {stamp}"
    )
}

/// The words of a step with its answer.
///
/// # Errors
///
/// [`AllocError`] when an allocation was refused.
pub fn step_words(alloc: Global, event: &Event) -> Result<String, AllocError>
    ensures { IfOk result (λ words. string_bytes words ≡ step_words event.now.step event.now.answer) }
{
    let answer = event.answer;
    match event.step {
        Step::Load(word) => format!(in alloc; "load {word}: {answer}"),
        Step::Store(word, value) => format!(in alloc; "store {word} {value}"),
        Step::Add(word, amount) => format!(in alloc; "add {word} {amount}: {answer}"),
        Step::Exchange(word, old, new) if answer == old => {
            format!(in alloc; "exchange {word} {old} {new}: won")
        }
        Step::Exchange(word, old, new) => {
            format!(in alloc; "exchange {word} {old} {new}: lost to {answer}")
        }
    }
}

/// What the word of a memory with this number is for.
///
/// # Errors
///
/// [`AllocError`] when an allocation was refused.
pub fn word_words(alloc: Global, sizes: Sizes, word: u32) -> Result<String, AllocError>
    ensures { IfOk result (λ words. string_bytes words ≡ word_name sizes word) }
{
    let m = sizes.m();
    if word < m {
        format!(in alloc; "component {word}")
    } else if word == sizes.slot_counter() {
        String::from_str(alloc, "slot counter")
    } else if word == sizes.list_head() {
        String::from_str(alloc, "list head")
    } else if word == sizes.pool_counter() {
        String::from_str(alloc, "pool counter")
    } else if word == sizes.list_counter() {
        String::from_str(alloc, "list counter")
    } else if word < sizes.list_base() {
        format!(in alloc; "slot {}", word - m - 4)
    } else if word < sizes.list_end() {
        format!(in alloc; "list word {word}")
    } else {
        format!(in alloc; "pool word {word}")
    }
}
