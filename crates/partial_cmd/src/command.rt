//! The commands: each reads the text of a plan and writes the text of its result.

ghost use Rattle.std.specs.Prelude.{ℕ, ◌≡◌, ◌↔◌, ◌≢◌, List, true, false, take, OnOk, IfOk, IfErr, IfSome, IsErrOf};
ghost use Rattle.std.specs.Io.KnownBytes.{Appends};
ghost use Rattle.partial_text.specs.Judging.{judged_plan};
ghost use Rattle.partial_cmd.specs.Execution.{VerbWrites, IsAfterReading, IsJudged, WritesOutcome, WritesPart, reader_fault, verdict_of, writer_fault};

use crate::fault::Fault;
use crate::workers::run_workers;
use partial_model::Checker;
use partial_replay::{Device, Plan, in_one_list, replay_apart, write_replayed};
use partial_text::{write_report, write_text};
use partial_workers::NoGate;
use std::alloc::Global;
use std::io::{Read, Write};
use std::sync::Wait;
use std::thread::Threads;

/// What to do with a plan.
#[derive(Clone, Copy, Debug, PartialEq, Eq)]
pub enum Verb {
    /// Replay it, and write the outcome.
    Replay,
    /// Replay it, and write whether the outcome is legal.
    Check,
    /// Run its ports side by side, each in a thread of its own, and write the report.
    Run,
}

/// How a command ended.
#[derive(Clone, Copy, Debug, PartialEq, Eq)]
pub enum Verdict {
    /// What was asked for was done.
    Done,
    /// The outcome is legal.
    Lawful,
    /// The outcome isn't legal. By the contract of `execute`, no plan leads to this.
    Unlawful,
}

/// Reads a plan, does with it what the verb says, and writes the result: the outcome of its replay; the
/// line `lawful` or `unlawful`, by a check of that outcome with an index of its history; or the report of a
/// run, which ignores the plan's turns.
///
/// # Errors
///
/// The first fault of the text, when it isn't the text of a plan. Code 6 when an allocation was refused or
/// a worker couldn't be started; then no thread is left running. Code 11 when the reader failed, and code
/// 12 when the writer failed or took 0 bytes. After code 12 a part of the text from its front has been
/// written, after any other error nothing.
pub fn execute<H: Threads + Wait + Sync, R: Read, W: Write>(
    rt: &H,
    alloc: Global,
    verb: Verb,
    plan: &mut Device<R>,
    out: &mut Device<W>,
) -> Result<Verdict, Fault>
    requires plan { plan.old.failed ≡ false }
    requires out { out.old.failed ≡ false }
    ensures read_fault { IsErrOf result reader_fault ↔ (plan.new.failed ≡ true) }
    ensures write_fault { IsErrOf result writer_fault ↔ (out.new.failed ≡ true) }
    // The fault is that of the plan, and a plan without a fault isn't refused for one.
    ensures plan { plan.new.failed ≡ false → IfSome (R.remaining plan.old.inner)
        (λ bytes. IsJudged result (judged_plan bytes)) }
    // A replay and a run end with `Done`, and a check finds the outcome legal, whatever the plan.
    ensures verdict { IfOk result (λ verdict. verdict ≡ verdict_of verb) }
    // Exactly the text that the verb asks for is written. Of a replay it is that of a legal outcome of the
    // plan's calls in the plan's turns; by `plans_have_one_answer` there is one such text for each plan. Of
    // a run it is a report whose answers are right in one history.
    ensures written { OnOk result (WritesOutcome verb (R.remaining plan.old.inner)
        (W.contents out.old.inner) (W.contents out.new.inner)) }
    // Nothing is written, except after a fault of the writer, and then a part of such a text.
    ensures unwritten { IfErr result (λ fault. fault ≢ writer_fault → out.new ≡ out.old) }
    ensures part { IsErrOf result writer_fault
        → WritesPart verb (R.remaining plan.old.inner) (W.contents out.old.inner) (W.contents out.new.inner) }
{
    let plan = Plan::read(alloc, plan)?;
    write_answer(rt, alloc, verb, &plan, out)
}

// Writes what the verb asks for. Every outcome of a replay is legal, so the verdict is never `Unlawful`.
fn write_answer<H: Threads + Wait + Sync, W: Write>(
    rt: &H,
    alloc: Global,
    verb: Verb,
    plan: &Plan,
    out: &mut Device<W>,
) -> Result<Verdict, Fault>
    requires out { out.old.failed ≡ false }
    ensures verdict { IfOk result (λ verdict. verdict ≡ verdict_of verb) }
    ensures ok { OnOk result ((answer : List ℕ) × VerbWrites verb plan.now answer
        × Appends (W.contents out.old.inner) (W.contents out.new.inner) answer) }
    ensures part { IsErrOf result writer_fault → (answer : List ℕ) × (n : ℕ) × VerbWrites verb plan.now answer
        × Appends (W.contents out.old.inner) (W.contents out.new.inner) (take n answer) }
    ensures fault { IsErrOf result writer_fault ↔ (out.new.failed ≡ true) }
    ensures unwritten { IfErr result (λ fault. fault ≢ writer_fault → out.new ≡ out.old) }
    ensures behind { IfErr result IsAfterReading }
{
    match verb {
        Verb::Replay => {
            let replayed = replay_apart(alloc, plan)?;
            write_replayed(alloc, &replayed, out)?;
            Ok(Verdict::Done)
        }
        Verb::Check => {
            let replayed = replay_apart(alloc, plan)?;
            let calls = in_one_list(alloc, replayed.calls)?;
            let checker = Checker::new(alloc, &replayed.opening, &replayed.history)?;
            if checker.check(&calls) {
                write_text(b"lawful\n", out)?;
                Ok(Verdict::Lawful)
            } else {
                write_text(b"unlawful\n", out)?;
                Ok(Verdict::Unlawful)
            }
        }
        Verb::Run => {
            let report = run_workers(rt, alloc, plan, &NoGate)?;
            write_report(alloc, &report, out)?;
            Ok(Verdict::Done)
        }
    }
}
