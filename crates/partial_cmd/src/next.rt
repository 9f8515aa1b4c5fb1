//! Two runs: the second one goes on with the memory of the first.

ghost use Rattle.std.specs.Prelude.{◌≡◌, ◌↔◌, ◌≢◌, ◌⊎◌, true, false, IfOk, IfErr, IfSome, IsErr, IsErrOf, OnOk};
ghost use Rattle.partial_text.specs.Judging.{judged_plan};
ghost use Rattle.partial_cmd.specs.declared.command.Verdict.TheVariants.{Done};
ghost use Rattle.partial_cmd.specs.Execution.{reader_fault, writer_fault};
ghost use Rattle.partial_cmd.specs.Next.{AreJudged, AreReports, WritesReports, WritesReportsPart};

use crate::command::Verdict;
use crate::fault::Fault;
use crate::workers::{into_report, run_plan};
use partial_memory::Memory;
use partial_replay::{Device, Plan};
use partial_text::{RunReport, write_reports};
use partial_workers::{NoGate, RunError};
use std::alloc::Global;
use std::io::{Read, Write};
use std::sync::Wait;
use std::thread::Threads;

/// Reads two plans, runs the first one, reopens its closed memory with the second one's sizes and ports,
/// runs the second one there, and writes both reports, the first one first. The second plan's initial
/// values and the turns of both are ignored.
///
/// # Errors
///
/// Those of [`execute`](crate::execute), of the first plan and then of the second, which isn't read when
/// the first is refused. Code 13 when the second plan has fewer components than the first; then no worker
/// was started. After code 12 a part of the text from its front has been written, after any other error
/// nothing.
pub fn execute_next<H: Threads + Wait + Sync, R: Read, N: Read, W: Write>(
    rt: &H,
    alloc: Global,
    plan: &mut Device<R>,
    next: &mut Device<N>,
    out: &mut Device<W>,
) -> Result<Verdict, Fault>
    requires plan { plan.old.failed ≡ false }
    requires next { next.old.failed ≡ false }
    requires out { out.old.failed ≡ false }
    ensures read_fault { IsErrOf result reader_fault ↔ ((plan.new.failed ≡ true) ⊎ (next.new.failed ≡ true)) }
    ensures write_fault { IsErrOf result writer_fault ↔ (out.new.failed ≡ true) }
    // When the first plan's reader fails, or its text isn't the text of a plan, the second plan isn't read.
    ensures unread { plan.new.failed ≡ true → next.new ≡ next.old }
    ensures refused { plan.new.failed ≡ false → IfSome (R.remaining plan.old.inner)
        (λ bytes. IsErr (judged_plan bytes) → next.new ≡ next.old) }
    ensures plans { plan.new.failed ≡ false → next.new.failed ≡ false
        → IfSome (R.remaining plan.old.inner) (λ first. IfSome (N.remaining next.old.inner)
        (λ second. AreJudged result (judged_plan first) (judged_plan second))) }
    ensures verdict { IfOk result (λ verdict. verdict ≡ Done) }
    ensures written { OnOk result (WritesReports (R.remaining plan.old.inner) (N.remaining next.old.inner)
        (W.contents out.old.inner) (W.contents out.new.inner)) }
    ensures unwritten { IfErr result (λ fault. fault ≢ writer_fault → out.new ≡ out.old) }
    ensures part { IsErrOf result writer_fault → WritesReportsPart (R.remaining plan.old.inner)
        (N.remaining next.old.inner) (W.contents out.old.inner) (W.contents out.new.inner) }
{
    let plan = Plan::read(alloc, plan)?;
    let next = Plan::read(alloc, next)?;
    if next.sizes().m() < plan.sizes().m() {
        return Err(Fault::TooSmall);
    }
    let (first, second) = run_both(rt, alloc, &plan, &next)?;
    write_reports(alloc, &first, &second, out)?;
    Ok(Verdict::Done)
}

// Runs a plan, and then the next one on the memory that the first leaves.
fn run_both<H: Threads + Wait + Sync>(
    rt: &H,
    alloc: Global,
    plan: &Plan,
    next: &Plan,
) -> Result<(RunReport, RunReport), RunError>
    ensures { IfOk result (λ reports. AreReports plan.now next.now reports.0 reports.1) }
{
    let count = plan.ports().len() as u32;
    let (memory, ports) = Memory::open(alloc, plan.sizes(), plan.initial(), count)?;
    let first = run_plan(rt, alloc, memory, ports, plan, &NoGate)?;
    let count = next.ports().len() as u32;
    let (memory, ports) = Memory::reopen(alloc, &first.closed, next.sizes(), count)?;
    let second = run_plan(rt, alloc, memory, ports, next, &NoGate)?;
    Ok((into_report(first), into_report(second)))
}
