//! The calls of a port line.

ghost use Rattle.std.specs.Prelude.{◌≡◌, ◌≤◌, ◌∷◌, [], length};
ghost use Rattle.partial_text.specs.Fault.{Gives};
ghost use Rattle.partial_text.specs.Pieces.{pieces_behind};
ghost use Rattle.partial_text.specs.Judging.{update_from, scan_from, read_from, update_if_from, call_text_at, calls_at, is_cut, call_texts, call_texts_behind, port_line_at};

use crate::fault::{Cause, PlanError};
use crate::fields::{
    fault, field_count, index_field, index_fields, one_field, three_fields, two_fields, value_field,
};
use crate::pieces::split_before;
use memchr::memchr;
use partial_model::{Call, Sequence};
use std::alloc::Global;

#[tactic(auto, unfolding(crate::specs::Judging::update_from))]
fn update(line: u32, fields: &[u8]) -> Result<Call, PlanError>
    ensures { Gives (λ call. call) result (update_from line (pieces_behind 32 fields.now)) }
{
    let Some((component, value)) = two_fields(fields) else {
        return Err(fault(line, Cause::Count));
    };
    let component = index_field(line, component)?;
    let value = value_field(line, value)?;
    Ok(Call::Update { component, value })
}

/// Reads a scan of at most m positions. Its indices may lie beyond the components.
#[tactic(auto, unfolding(crate::specs::Judging::scan_from))]
fn scan(alloc: Global, m: u32, line: u32, fields: &[u8]) -> Result<Call, PlanError>
    ensures { Gives (λ call. call) result (scan_from m line (pieces_behind 32 fields.now)) }
{
    let positions = field_count(fields);
    if positions > m as usize {
        return Err(fault(line, Cause::Count));
    }
    let components = index_fields(alloc, line, positions, fields)?;
    Ok(Call::Scan {
        components: Sequence::from(components),
    })
}

#[tactic(auto, unfolding(crate::specs::Judging::read_from))]
fn read(line: u32, fields: &[u8]) -> Result<Call, PlanError>
    ensures { Gives (λ call. call) result (read_from line (pieces_behind 32 fields.now)) }
{
    let Some(component) = one_field(fields) else {
        return Err(fault(line, Cause::Count));
    };
    let component = index_field(line, component)?;
    Ok(Call::Read { component })
}

#[tactic(auto, unfolding(crate::specs::Judging::update_if_from))]
fn update_if(line: u32, fields: &[u8]) -> Result<Call, PlanError>
    ensures { Gives (λ call. call) result (update_if_from line (pieces_behind 32 fields.now)) }
{
    let Some((component, expected, value)) = three_fields(fields) else {
        return Err(fault(line, Cause::Count));
    };
    let component = index_field(line, component)?;
    let expected = value_field(line, expected)?;
    let value = value_field(line, value)?;
    Ok(Call::UpdateIf {
        component,
        expected,
        value,
    })
}

/// Reads one call of a plan of m components.
#[tactic(auto, unfolding(crate::specs::Judging::call_text_at))]
fn call_of(alloc: Global, m: u32, line: u32, text: &[u8]) -> Result<Call, PlanError>
    ensures { Gives (λ call. call) result (call_text_at m line text.now) }
{
    let (word, fields) = split_before(text, b' ');
    if word == b"update".as_slice() {
        update(line, fields)
    } else if word == b"scan".as_slice() {
        scan(alloc, m, line, fields)
    } else if word == b"read".as_slice() {
        read(line, fields)
    } else if word == b"updateif".as_slice() {
        update_if(line, fields)
    } else {
        Err(fault(line, Cause::Word))
    }
}

/// Whether the text begins with a semicolon and a space.
fn is_cut(text: &[u8]) -> bool
    ensures { result ≡ is_cut text.now }
{
    match text {
        [first, second, ..] => *first == b';' && *second == b' ',
        _ => false,
    }
}

/// Splits the text before the first semicolon that a space follows.
#[tactic(auto, using(crate::proofs::CallCuts::with_front_nil))]
fn split_call(text: &[u8]) -> (&[u8], &[u8])
    ensures shorter { length result.1.now ≤ length text.now }
    ensures split { call_texts text.now ≡ result.0.now ∷ call_texts_behind result.1.now }
{
    let mut from = 0;
    while let Some(ahead) = memchr(b';', &text[from..]) {
        let semicolon = from + ahead;
        if is_cut(&text[semicolon..]) {
            return text.split_at(semicolon);
        }
        from = semicolon + 1;
    }
    (text, &[])
}

/// Reads the calls of a text, which are separated by a semicolon and a space.
#[tactic(auto, unfolding(crate::specs::Judging::calls_at), using(crate::proofs::CallCuts::texts_behind))]
fn calls_of(alloc: Global, m: u32, line: u32, text: &[u8]) -> Result<Vec<Call>, PlanError>
    ensures { Gives (λ v. v.items) result (calls_at m line [] (call_texts text.now)) }
{
    let mut calls = Vec::new(alloc);
    let (mut first, mut rest) = split_call(text);
    loop {
        calls.push(call_of(alloc, m, line, first)?)?;
        let [_, _, behind @ ..] = rest else {
            return Ok(calls);
        };
        (first, rest) = split_call(behind);
    }
}

/// Reads the calls of a port line in a plan of m components. `behind` is what follows the word `port`.
#[tactic(auto, unfolding(crate::specs::Judging::port_line_at))]
pub(crate) fn port_calls(
    alloc: Global,
    m: u32,
    line: u32,
    behind: &[u8],
) -> Result<Vec<Call>, PlanError>
    ensures { Gives (λ v. v.items) result (port_line_at m line behind.now) }
{
    match behind {
        [] => Ok(Vec::new(alloc)),
        [_, text @ ..] => calls_of(alloc, m, line, text),
    }
}
