//! The lines of a plan text.

ghost use Rattle.std.specs.Prelude.{◌≡◌, ◌≤◌, ◌<◌, ◌+◌, ◌^◌, [], length, codes, IfOk, OnOk};
ghost use Rattle.std.specs.Str.{bytes_eq};
ghost use Rattle.partial_text.specs.Fault.{Gives};
ghost use Rattle.partial_text.specs.Pieces.{pieces, pieces_behind};
ghost use Rattle.partial_text.specs.Judging.{line_at, sizes_from, sizes_at, initial_at, fields_of, more_ports, last_at, tail_at, in_range};
ghost use Rattle.partial_text.specs.Seen.{seen_tail};

use crate::calls::port_calls;
use crate::fault::{Cause, PlanError};
use crate::fields::{fault, four_fields, index_field, value_fields};
use crate::pieces::{count, split_at_first, split_before};
use crate::turns::entries;
use partial_model::{Call, Sequence};
use partial_words::Sizes;
use std::alloc::Global;

/// Splits off the first line, without its newline.
#[tactic(auto, unfolding(crate::specs::Judging::line_at))]
pub(crate) fn line_of(line: u32, text: &[u8]) -> Result<(&[u8], &[u8]), PlanError>
    ensures value { Gives (λ x. (x.0.now, pieces 10 x.1.now)) result (line_at line (pieces 10 text.now)) }
    ensures shorter { IfOk result (λ x. length x.1.now < length text.now) }
{
    let (front, newline) = split_at_first(text, b'\n');
    match newline {
        [] => Err(fault(line, Cause::End)),
        [_, behind @ ..] => Ok((front, behind)),
    }
}

/// Checks the sizes. Returns the error of the first one that is out of its range.
fn checked_sizes(m: u32, slots: u32, lists: u32, pool: u32) -> Result<Sizes, PlanError>
    ensures { Gives (λ s. s) result
        (in_range (record { m = m; slots = slots; lists = lists; pool = pool })) }
{
    match Sizes::new(m, slots, lists, pool) {
        Ok(sizes) => Ok(sizes),
        Err(error) => Err(PlanError::Size(error)),
    }
}

#[tactic(auto, unfolding(crate::specs::Judging::sizes_from))]
fn sizes_of_fields(fields: &[u8]) -> Result<Sizes, PlanError>
    ensures { Gives (λ s. s) result (sizes_from (pieces_behind 32 fields.now)) }
{
    let Some((m, slots, lists, pool)) = four_fields(fields) else {
        return Err(fault(1, Cause::Count));
    };
    let m = index_field(1, m)?;
    let slots = index_field(1, slots)?;
    let lists = index_field(1, lists)?;
    let pool = index_field(1, pool)?;
    checked_sizes(m, slots, lists, pool)
}

/// Reads the sizes from the first line.
#[tactic(auto, unfolding(crate::specs::Judging::sizes_at))]
pub(crate) fn sizes_of(line: &[u8]) -> Result<Sizes, PlanError>
    ensures { Gives (λ s. s) result (sizes_at line.now) }
{
    let (word, fields) = split_before(line, b' ');
    if word != b"sizes".as_slice() {
        return Err(fault(1, Cause::Word));
    }
    sizes_of_fields(fields)
}

/// Reads the initial values of m components from the second line.
#[tactic(auto, unfolding(crate::specs::Judging::initial_at))]
pub(crate) fn initial_of(alloc: Global, m: u32, line: &[u8]) -> Result<Vec<u64>, PlanError>
    ensures { Gives (λ v. v.items) result (initial_at m line.now) }
{
    let (word, fields) = split_before(line, b' ');
    if word != b"initial".as_slice() {
        return Err(fault(2, Cause::Word));
    }
    if count(line, b' ') != m as usize {
        return Err(fault(2, Cause::Count));
    }
    value_fields(alloc, 2, fields)
}

/// Reads the calls of one more port of a plan of m components, and appends them to those of the ports so
/// far.
#[tactic(auto, unfolding(crate::specs::Judging::more_ports))]
fn push_port(
    alloc: Global,
    m: u32,
    line: u32,
    ports: &mut Vec<Sequence<Call>>,
    calls: &[u8],
) -> Result<(), PlanError>
    ensures few { OnOk result (length ports.new.items ≤ 64) }
    ensures one { OnOk result (length ports.new.items ≡ length ports.old.items + 1) }
    ensures value { Gives (λ _. ports.new.items) result (more_ports m line ports.old.items calls.now) }
{
    if ports.len() >= 64 {
        return Err(PlanError::Ports);
    }
    let calls = port_calls(alloc, m, line, calls)?;
    ports.push(Sequence::from(calls))?;
    Ok(())
}

/// Reads the last line for a plan of so many ports: the turns, and whether the rest runs after them.
#[tactic(auto, unfolding(crate::specs::Judging::last_at), using(crate::proofs::Cuts::is_end_pieces))]
fn last_of(
    alloc: Global,
    line: u32,
    ports: usize,
    front: &[u8],
    behind: &[u8],
) -> Result<(Vec<(u32, u32)>, bool), PlanError>
    requires { line + 1 < 2 ^ 32 }
    ensures { Gives (λ x. (x.0.items, x.1)) result
        (last_at line ports front.now (pieces 10 behind.now)) }
{
    let (word, fields) = split_before(front, b' ');
    if word != b"steps".as_slice() {
        return Err(fault(line, Cause::Word));
    }
    if ports == 0 {
        return Err(PlanError::Ports);
    }
    let steps = entries(alloc, line, ports, fields)?;
    if !behind.is_empty() {
        return Err(fault(line + 1, Cause::Extra));
    }
    Ok(steps)
}

/// What follows the second line.
#[derive(Drop)]
pub(crate) struct Tail {
    pub(crate) ports: Vec<Sequence<Call>>,
    pub(crate) steps: Vec<(u32, u32)>,
    pub(crate) rest: bool,
}

/// Whether this first field begins a port line.
fn is_port(word: &[u8]) -> bool
    ensures { result ≡ bytes_eq word.now (codes "port") }
{
    word == b"port".as_slice()
}

/// Reads the port lines and the last line of a plan of m components.
#[tactic(auto, unfolding(crate::specs::Judging::tail_at))]
pub(crate) fn tail_of(alloc: Global, m: u32, text: &[u8]) -> Result<Tail, PlanError>
    ensures { Gives seen_tail result (tail_at m 3 [] (pieces 10 text.now)) }
{
    let mut ports = Vec::new(alloc);
    let mut line = 3u32;
    let mut left = text;
    loop {
        let (front, behind) = line_of(line, left)?;
        let (word, calls) = split_before(front, b' ');
        if !is_port(word) {
            let (steps, rest) = last_of(alloc, line, ports.len(), front, behind)?;
            return Ok(Tail { ports, steps, rest });
        }
        push_port(alloc, m, line, &mut ports, calls)?;
        line += 1;
        left = behind;
    }
}
