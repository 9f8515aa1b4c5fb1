//! The fields of a line or a call, which are separated by one space.

ghost use Rattle.std.specs.Prelude.{◌≡◌, ◌∷◌, [], length, MatchOption};
ghost use Rattle.std.specs.Option.{option_map};
ghost use Rattle.partial_text.specs.Pieces.{pieces_behind};
ghost use Rattle.partial_text.specs.Fault.{Gives};
ghost use Rattle.partial_text.specs.Judging.{exactly_one, exactly_two, exactly_three, exactly_four, number_at, greatest, greatest_index, numbers_at};

use crate::fault::{Cause, PlanError};
use crate::number::number;
use crate::pieces::{count, split_before};
use std::alloc::Global;

/// Makes the error of a line.
pub(crate) fn fault(line: u32, cause: Cause) -> PlanError
    ensures { result ≡ PlanError.Line line cause }
{
    PlanError::Line { line, cause }
}

/// Splits off the next field. Each field has a space before it.
pub(crate) fn next_field(fields: &[u8]) -> Option<(&[u8], &[u8])>
    ensures { MatchOption result (pieces_behind 32 fields.now ≡ [])
        (λ x. pieces_behind 32 fields.now ≡ x.0.now ∷ pieces_behind 32 x.1.now) }
{
    match fields {
        [] => None,
        [_, text @ ..] => Some(split_before(text, b' ')),
    }
}

/// The field, when there is exactly one.
pub(crate) fn one_field(fields: &[u8]) -> Option<&[u8]>
    ensures { option_map (λ x. x.now) result ≡ exactly_one (pieces_behind 32 fields.now) }
{
    let (field, rest) = next_field(fields)?;
    match next_field(rest) {
        None => Some(field),
        Some(_) => None,
    }
}

/// The fields, when there are exactly two.
pub(crate) fn two_fields(fields: &[u8]) -> Option<(&[u8], &[u8])>
    ensures { option_map (λ x. (x.0.now, x.1.now)) result
        ≡ exactly_two (pieces_behind 32 fields.now) }
{
    let (first, rest) = next_field(fields)?;
    let second = one_field(rest)?;
    Some((first, second))
}

/// The fields, when there are exactly three.
pub(crate) fn three_fields(fields: &[u8]) -> Option<(&[u8], &[u8], &[u8])>
    ensures { option_map (λ x. (x.0.now, x.1.now, x.2.now)) result
        ≡ exactly_three (pieces_behind 32 fields.now) }
{
    let (first, rest) = next_field(fields)?;
    let (second, third) = two_fields(rest)?;
    Some((first, second, third))
}

/// The fields, when there are exactly four.
pub(crate) fn four_fields(fields: &[u8]) -> Option<(&[u8], &[u8], &[u8], &[u8])>
    ensures { option_map (λ x. (x.0.now, x.1.now, x.2.now, x.3.now)) result
        ≡ exactly_four (pieces_behind 32 fields.now) }
{
    let (first, rest) = next_field(fields)?;
    let (second, third, fourth) = three_fields(rest)?;
    Some((first, second, third, fourth))
}

/// How many fields there are, each with a space before it.
pub(crate) fn field_count(fields: &[u8]) -> usize
    ensures { result ≡ length (pieces_behind 32 fields.now) }
{
    match fields {
        [] => 0,
        [_, text @ ..] => count(text, b' ') + 1,
    }
}

/// Reads the field as a number of 64 bits.
pub(crate) fn value_field(line: u32, field: &[u8]) -> Result<u64, PlanError>
    ensures { Gives (λ x. x) result (number_at line greatest field.now) }
{
    match number(field, u64::MAX) {
        Some(value) => Ok(value),
        None => Err(fault(line, Cause::Number)),
    }
}

/// Reads the field as a number of 32 bits.
pub(crate) fn index_field(line: u32, field: &[u8]) -> Result<u32, PlanError>
    ensures { Gives (λ x. x) result (number_at line greatest_index field.now) }
{
    match number(field, 4_294_967_295) {
        Some(value) => Ok(value as u32),
        None => Err(fault(line, Cause::Number)),
    }
}

/// Reads the fields as numbers of 64 bits.
#[tactic(auto, unfolding(crate::specs::Judging::numbers_at))]
pub(crate) fn value_fields(alloc: Global, line: u32, fields: &[u8]) -> Result<Vec<u64>, PlanError>
    ensures { Gives (λ v. v.items) result
        (numbers_at line greatest [] (pieces_behind 32 fields.now)) }
{
    let mut values = Vec::new(alloc);
    let mut rest = fields;
    while let [_, text @ ..] = rest {
        let (field, behind) = split_before(text, b' ');
        values.push(value_field(line, field)?)?;
        rest = behind;
    }
    Ok(values)
}

/// Reads the fields, `count` of them, as numbers of 32 bits. The room is taken for so many.
#[tactic(auto, unfolding(crate::specs::Judging::numbers_at))]
pub(crate) fn index_fields(
    alloc: Global,
    line: u32,
    count: usize,
    fields: &[u8],
) -> Result<Vec<u32>, PlanError>
    ensures { Gives (λ v. v.items) result
        (numbers_at line greatest_index [] (pieces_behind 32 fields.now)) }
{
    let mut indices = Vec::with_capacity(alloc, count)?;
    let mut rest = fields;
    while let [_, text @ ..] = rest {
        let (field, behind) = split_before(text, b' ');
        indices.push(index_field(line, field)?)?;
        rest = behind;
    }
    Ok(indices)
}
