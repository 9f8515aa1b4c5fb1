//! The text of an outcome, given to a writer.

ghost use Rattle.std.specs.Prelude.{◌≡◌, ◌++◌, decimal, IfOk};
ghost use Rattle.std.specs.List.{flat_map};
ghost use Rattle.partial_text.specs.PlanText.{number_field};
ghost use Rattle.partial_text.specs.OutcomeText.{entry_line, entry_lines, optional_field, written_place, answer_front, place_field, answer_back, answer_text, finish_text, ended_of, call_line, values_of, values_line, total_line, outcome_text};
ghost use Rattle.partial_text.specs.Replayed.{calls_in_order};
ghost use Rattle.partial_text.specs.Inner.TextGiven.{GivesBytes, text_given};

use crate::device::Device;
use crate::gathered::Gathered;
use crate::outcome::Outcome;
use crate::replayed::Replayed;
use itoa::Buffer;
use partial_model::{Answer, Applied, Called, Finish, Note, Opening};
use std::alloc::{AllocError, Global};
use std::io::Write;

/// Writes the digits of the number.
fn tell_digits<W: Write>(text: &mut Gathered, out: &mut Device<W>, number: u64)
    ensures { GivesBytes (text_given W.contents text.old out.old) (decimal number)
        (text_given W.contents text.new out.new) }
{
    text.tell(out, Buffer::new().format(number).as_bytes());
}

/// Writes the word, which ends with a space, and the number.
#[tactic(auto, using(crate::proofs::TextGiven::tellings))]
#[inline(always)]
pub(crate) fn tell_field<W: Write>(
    text: &mut Gathered,
    out: &mut Device<W>,
    word: &[u8],
    number: u64,
)
    ensures { GivesBytes (text_given W.contents text.old out.old) (word.now ++ decimal number)
        (text_given W.contents text.new out.new) }
{
    text.tell(out, word);
    tell_digits(text, out, number);
}

/// Writes a space and the number.
pub(crate) fn tell_number<W: Write>(text: &mut Gathered, out: &mut Device<W>, number: u64)
    ensures { GivesBytes (text_given W.contents text.old out.old) (number_field number)
        (text_given W.contents text.new out.new) }
{
    tell_field(text, out, b" ", number);
}

/// Writes each number with a space before it.
fn tell_numbers<W: Write>(text: &mut Gathered, out: &mut Device<W>, numbers: &[u64])
    ensures { GivesBytes (text_given W.contents text.old out.old) (flat_map number_field numbers.now)
        (text_given W.contents text.new out.new) }
{
    for number in numbers {
        tell_number(text, out, *number);
    }
}

/// Writes a space and the number, or a dash when there is none.
fn tell_optional<W: Write>(text: &mut Gathered, out: &mut Device<W>, number: Option<u64>)
    ensures { GivesBytes (text_given W.contents text.old out.old) (optional_field number)
        (text_given W.contents text.new out.new) }
{
    match number {
        None => text.tell(out, b" -"),
        Some(number) => tell_number(text, out, number),
    }
}

fn tell_entry<W: Write>(text: &mut Gathered, out: &mut Device<W>, place: usize, entry: &Applied)
    ensures { GivesBytes (text_given W.contents text.old out.old) (entry_line place entry.now)
        (text_given W.contents text.new out.new) }
{
    tell_field(text, out, b"applied ", place as u64);
    tell_field(text, out, b" port ", u64::from(entry.port));
    tell_field(text, out, b" component ", u64::from(entry.component));
    tell_field(text, out, b" value ", entry.value);
    tell_field(text, out, b" stamp ", entry.stamp);
    text.tell(out, b"\n");
}

fn place(note: Option<Note>) -> usize
    ensures { result ≡ written_place note }
{
    match note {
        None => 0,
        Some(Note::Wrote(place)) => place,
        Some(Note::Lost(place)) => place,
        Some(Note::Saw(prefix)) => prefix,
    }
}

/// Writes an answer up to its place or prefix.
#[tactic(auto, using(crate::proofs::TextGiven::tellings))]
pub(crate) fn tell_answer_front<W: Write>(text: &mut Gathered, out: &mut Device<W>, answer: &Answer)
    ensures { GivesBytes (text_given W.contents text.old out.old) (answer_front answer.now)
        (text_given W.contents text.new out.new) }
{
    match answer {
        Answer::Applied { stamp } => tell_field(text, out, b" applied ", *stamp),
        Answer::Lost { by } => tell_field(text, out, b" lost ", *by),
        Answer::Scanned { values, .. } => {
            text.tell(out, b" scanned");
            tell_numbers(text, out, values.as_slice());
        }
        Answer::Read { value, stamp } => {
            tell_field(text, out, b" read ", *value);
            tell_number(text, out, *stamp);
        }
        Answer::Refused { cause } => tell_field(text, out, b" refused ", u64::from(cause.code())),
        Answer::Changed { by } => tell_field(text, out, b" changed ", *by),
    }
}

/// Writes the place or the prefix of an answer.
fn tell_place<W: Write>(text: &mut Gathered, out: &mut Device<W>, answer: &Answer, place: usize)
    ensures { GivesBytes (text_given W.contents text.old out.old) (place_field answer.now place)
        (text_given W.contents text.new out.new) }
{
    match answer {
        Answer::Applied { .. } | Answer::Lost { .. } => {
            tell_field(text, out, b" place ", place as u64);
        }
        Answer::Refused { .. } => {}
        _ => tell_field(text, out, b" prefix ", place as u64),
    }
}

/// Writes what follows the prefix of a scan, and nothing of other answers.
#[tactic(auto, using(crate::proofs::TextGiven::tellings))]
pub(crate) fn tell_answer_back<W: Write>(text: &mut Gathered, out: &mut Device<W>, answer: &Answer)
    ensures { GivesBytes (text_given W.contents text.old out.old) (answer_back answer.now)
        (text_given W.contents text.new out.new) }
{
    if let Answer::Scanned {
        collects,
        borrowed,
        ..
    } = answer
    {
        tell_field(text, out, b" collects ", u64::from(*collects));
        text.tell(out, b" borrowed");
        tell_optional(text, out, *borrowed);
    }
}

#[tactic(auto, using(crate::proofs::TextGiven::tellings))]
fn tell_answer<W: Write>(text: &mut Gathered, out: &mut Device<W>, answer: &Answer, place: usize)
    ensures { GivesBytes (text_given W.contents text.old out.old) (answer_text answer.now place)
        (text_given W.contents text.new out.new) }
{
    tell_answer_front(text, out, answer);
    tell_place(text, out, answer, place);
    tell_answer_back(text, out, answer);
}

fn tell_finish<W: Write>(text: &mut Gathered, out: &mut Device<W>, finish: &Option<Finish>)
    ensures { GivesBytes (text_given W.contents text.old out.old) (finish_text finish.now)
        (text_given W.contents text.new out.new) }
{
    match finish {
        None => text.tell(out, b" unfinished"),
        Some(finish) => tell_answer(text, out, &finish.answer, place(finish.note)),
    }
}

fn ended(finish: &Option<Finish>) -> Option<u64>
    ensures { result ≡ ended_of finish.now }
{
    match finish {
        None => None,
        Some(finish) => Some(finish.ended as u64),
    }
}

fn tell_call<W: Write>(text: &mut Gathered, out: &mut Device<W>, called: &Called)
    ensures { GivesBytes (text_given W.contents text.old out.old) (call_line called.now)
        (text_given W.contents text.new out.new) }
{
    tell_field(text, out, b"call ", u64::from(called.port));
    tell_number(text, out, u64::from(called.number));
    tell_finish(text, out, &called.finish);
    tell_field(text, out, b" steps ", called.steps);
    tell_field(text, out, b" span ", called.began as u64);
    tell_optional(text, out, ended(&called.finish));
    text.tell(out, b"\n");
}

fn tell_entries<W: Write>(text: &mut Gathered, out: &mut Device<W>, history: &[Applied])
    ensures { GivesBytes (text_given W.contents text.old out.old) (entry_lines 0 history.now)
        (text_given W.contents text.new out.new) }
{
    for (place, entry) in history.iter().enumerate() {
        tell_entry(text, out, place, entry);
    }
}

fn tell_calls<W: Write>(text: &mut Gathered, out: &mut Device<W>, calls: &[Called])
    ensures { GivesBytes (text_given W.contents text.old out.old) (flat_map call_line calls.now)
        (text_given W.contents text.new out.new) }
{
    for called in calls {
        tell_call(text, out, called);
    }
}

/// Writes the lines of the calls, one port's after the other's.
fn tell_calls_of_ports<W: Write>(text: &mut Gathered, out: &mut Device<W>, ports: &[Vec<Called>])
    ensures { GivesBytes (text_given W.contents text.old out.old) (flat_map call_line (calls_in_order ports.now))
        (text_given W.contents text.new out.new) }
{
    for calls in ports {
        tell_calls(text, out, calls);
    }
}

/// The values of the components after the history.
pub(crate) fn final_values(
    alloc: Global,
    opening: &Opening,
    history: &[Applied],
) -> Result<Vec<u64>, AllocError>
    ensures { IfOk result (λ v. v.items ≡ values_of opening.now history.now) }
{
    let mut values = Vec::from_slice(alloc, opening.values.as_slice())?;
    for entry in history {
        if let Some(value) = values.get_mut(entry.component as usize) {
            *value = entry.value;
        }
    }
    Ok(values)
}

/// Writes the line of the values.
#[tactic(auto, using(crate::proofs::TextGiven::tellings))]
pub(crate) fn tell_values<W: Write>(text: &mut Gathered, out: &mut Device<W>, values: &[u64])
    ensures { GivesBytes (text_given W.contents text.old out.old) (values_line values.now)
        (text_given W.contents text.new out.new) }
{
    text.tell(out, b"values");
    tell_numbers(text, out, values);
    text.tell(out, b"\n");
}

#[tactic(auto, using(crate::proofs::TextGiven::tellings))]
fn tell_total<W: Write>(text: &mut Gathered, out: &mut Device<W>, steps: u64)
    ensures { GivesBytes (text_given W.contents text.old out.old) (total_line steps)
        (text_given W.contents text.new out.new) }
{
    tell_field(text, out, b"total ", steps);
    text.tell(out, b"\n");
}

/// Writes the text of an outcome. `values` are those of the components after its history.
#[tactic(auto, using(crate::proofs::TextGiven::tellings))]
pub(crate) fn tell_outcome<W: Write>(
    text: &mut Gathered,
    out: &mut Device<W>,
    outcome: &Outcome,
    values: &[u64],
)
    requires { values.now ≡ values_of outcome.now.opening outcome.now.history.items }
    ensures { GivesBytes (text_given W.contents text.old out.old)
        (outcome_text outcome.now.opening outcome.now.history.items outcome.now.calls.items outcome.now.steps)
        (text_given W.contents text.new out.new) }
{
    tell_entries(text, out, &outcome.history);
    tell_calls(text, out, &outcome.calls);
    tell_values(text, out, values);
    tell_total(text, out, outcome.steps);
}

/// Writes the text of what a replay has made. `values` are those of the components after its history.
#[tactic(auto, using(crate::proofs::TextGiven::tellings))]
pub(crate) fn tell_replayed<W: Write>(
    text: &mut Gathered,
    out: &mut Device<W>,
    replayed: &Replayed,
    values: &[u64],
)
    requires { values.now ≡ values_of replayed.now.opening replayed.now.history.items }
    ensures { GivesBytes (text_given W.contents text.old out.old)
        (outcome_text replayed.now.opening replayed.now.history.items
        (calls_in_order replayed.now.calls.items) replayed.now.steps)
        (text_given W.contents text.new out.new) }
{
    tell_entries(text, out, &replayed.history);
    tell_calls_of_ports(text, out, &replayed.calls);
    tell_values(text, out, values);
    tell_total(text, out, replayed.steps);
}
