//! The turns of the last line.

ghost use Rattle.std.specs.Prelude.{◌≡◌, []};
ghost use Rattle.partial_text.specs.Fault.{Gives};
ghost use Rattle.partial_text.specs.Pieces.{pieces_behind};
ghost use Rattle.partial_text.specs.Judging.{entry_text_at, is_rest, entries_at};

use crate::fault::{Cause, PlanError};
use crate::fields::{fault, index_field};
use crate::pieces::split_before;
use std::alloc::Global;

/// Reads the turns of one field in a plan of so many ports.
#[tactic(auto, unfolding(crate::specs::Judging::entry_text_at))]
fn entry(line: u32, ports: usize, field: &[u8]) -> Result<(u32, u32), PlanError>
    ensures { Gives (λ x. x) result (entry_text_at line ports field.now) }
{
    let (port, behind) = split_before(field, b'*');
    let count = match behind {
        [] => behind,
        [_, count @ ..] => count,
    };
    let port = index_field(line, port)?;
    let count = index_field(line, count)?;
    if (port as usize) < ports && 0 < count {
        Ok((port, count))
    } else {
        Err(fault(line, Cause::Range))
    }
}

/// Whether the field is the last one and is the word `rest`.
#[tactic(auto, using(crate::proofs::Cuts::is_nil_behind))]
fn is_rest(field: &[u8], behind: &[u8]) -> bool
    ensures { result ≡ is_rest field.now (pieces_behind 32 behind.now) }
{
    behind.is_empty() && field == b"rest".as_slice()
}

/// Reads the turns of the fields, each with a space before it, and whether the rest runs after them.
#[tactic(auto, unfolding(crate::specs::Judging::entries_at))]
pub(crate) fn entries(
    alloc: Global,
    line: u32,
    ports: usize,
    fields: &[u8],
) -> Result<(Vec<(u32, u32)>, bool), PlanError>
    ensures { Gives (λ x. (x.0.items, x.1)) result
        (entries_at line ports [] (pieces_behind 32 fields.now)) }
{
    let mut found = Vec::new(alloc);
    let mut rest = fields;
    while let [_, text @ ..] = rest {
        let (field, behind) = split_before(text, b' ');
        if is_rest(field, behind) {
            return Ok((found, true));
        }
        found.push(entry(line, ports, field)?)?;
        rest = behind;
    }
    Ok((found, false))
}
