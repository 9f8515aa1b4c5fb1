//! Reading a plan.

ghost use Rattle.std.specs.Prelude.{◌≡◌, ◌+◌, ◌≤◌, ◌↔◌, ◌<◌, true, false, length, IfOk, IfSome, IfErr, IsErrOf};
ghost use Rattle.std.specs.Io.KnownBytes.{Consumes, IsAtEnd};
ghost use Rattle.partial_text.specs.Fault.{Gives, IsReaderFault};
ghost use Rattle.partial_text.specs.PlanText.{PlanView, IsPlan, plan_text};
ghost use Rattle.partial_text.specs.Judging.{judged_plan};
ghost use Rattle.partial_text.specs.SeenParts.{seen_parts};

use crate::device::Device;
use crate::fault::{Cause, PlanError};
use crate::fields::fault;
use crate::lines::{Tail, initial_of, line_of, sizes_of, tail_of};
use crate::plan::{Parts, Plan};
use std::alloc::Global;
use std::io::Read;

/// The longest plan text, in bytes.
const LONGEST: usize = 4_194_304;

/// Reads the whole text. Returns its first fault if it isn't the text of a plan.
#[tactic(auto, unfolding(crate::specs::Judging::judged_plan, crate::specs::Judging::lines_judged))]
fn parts_of(alloc: Global, text: &[u8]) -> Result<Parts, PlanError>
    ensures { Gives seen_parts result (judged_plan text.now) }
{
    if text.len() > LONGEST {
        return Err(fault(0, Cause::Size));
    }
    let (line, behind) = line_of(1, text)?;
    let sizes = sizes_of(line)?;
    let (line, behind) = line_of(2, behind)?;
    let initial = initial_of(alloc, sizes.m(), line)?;
    let Tail { ports, steps, rest } = tail_of(alloc, sizes.m(), behind)?;
    Ok(Parts {
        sizes,
        initial,
        ports,
        steps,
        rest,
    })
}

/// Reads the bytes that the reader supplies, up to its end or until there are more than a plan text has.
fn read_text<R: Read>(alloc: Global, reader: &mut Device<R>) -> Result<Vec<u8>, PlanError>
    requires { reader.old.failed ≡ false }
    ensures kind { IfErr result IsReaderFault }
    ensures fault { IsErrOf result PlanError.Read ↔ (reader.new.failed ≡ true) }
    ensures taken { IfOk result
        (λ text. Consumes (R.remaining reader.old.inner) (R.remaining reader.new.inner) text.items) }
    ensures end { IfOk result
        (λ text. length text.items ≤ 4194304 → IsAtEnd (R.remaining reader.new.inner)) }
    ensures reads { reader.new.reads ≤ reader.old.reads + 4194306 }
{
    let mut text = Vec::new(alloc);
    let mut chunk = [0u8; 8192];
    for _ in 0..=LONGEST {
        match reader.read(&mut chunk) {
            None => return Err(PlanError::Read),
            Some(0) => return Ok(text),
            Some(count) => text.extend_from_slice(&chunk[..count])?,
        }
        if text.len() > LONGEST {
            return Ok(text);
        }
    }
    Ok(text)
}

/// Reads the plan of a text. Returns its first fault if it isn't the text of a plan.
fn plan_of(alloc: Global, text: &[u8]) -> Result<Plan, PlanError>
    ensures { Gives (λ p. p) result (judged_plan text.now) }
{
    let parts = parts_of(alloc, text)?;
    Ok(Plan::from_parts(parts))
}

impl Plan {
    /// Reads a plan text to its end, and judges it line by line.
    ///
    /// # Errors
    ///
    /// The first fault of the text, when it isn't the text of a plan: a size out of its range, not 1 to 64
    /// ports, or a line with its cause. `OutOfMemory` when an allocation was refused, and `Read` when the reader
    /// failed. It stops reading when it holds more than 4,194,304 bytes, and asks the reader at most 4,194,306
    /// times.
    pub fn read<R: Read>(alloc: Global, reader: &mut Device<R>) -> Result<Plan, PlanError>
        requires { reader.old.failed ≡ false }
        ensures fault { IsErrOf result PlanError.Read ↔ (reader.new.failed ≡ true) }
        // The bytes that were read are the text of the plan, each of them.
        ensures found { IfOk result
            (λ p. IfSome (R.remaining reader.old.inner) (λ bytes. bytes ≡ plan_text p)) }
        // The text of a plan is read as that plan, unless memory runs out or the reader fails.
        ensures only { reader.new.failed ≡ false → IfSome (R.remaining reader.old.inner)
            (λ bytes. (p : PlanView) → IsPlan p → bytes ≡ plan_text p → Gives (λ q. q) result (Ok p)) }
        // The error is that of the first fault.
        ensures exact { reader.new.failed ≡ false → IfSome (R.remaining reader.old.inner)
            (λ bytes. Gives (λ q. q) result (judged_plan bytes)) }
        ensures lawful { IfOk result IsPlan }
        ensures reads { reader.new.reads ≤ reader.old.reads + 4194306 }
    {
        let text = read_text(alloc, reader)?;
        plan_of(alloc, &text)
    }
}
