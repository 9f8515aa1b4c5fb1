//! All ports of a plan at work side by side, each in a thread of its own.

ghost use Rattle.std.specs.Prelude.{◌≡◌, IfOk};
ghost use Rattle.partial_workers.specs.Work.{IsOpenedFor};
ghost use Rattle.partial_cmd.specs.Reports.{IsReportFrom, IsReportOf, report_of};

use partial_memory::{Memory, Port};
use partial_text::{Plan, RunReport};
use partial_workers::{Gate, Ran, RunError, calls_by_port, run_on};
use std::alloc::Global;
use std::sync::Wait;
use std::thread::Threads;

/// Makes all calls of a plan by the workers of a memory, and closes it. The memory was opened for the
/// plan's sizes and number of ports.
///
/// # Errors
///
/// As [`run_workers`].
pub fn run_plan<R: Threads + Wait + Sync, G: Gate>(
    rt: &R,
    alloc: Global,
    memory: Memory,
    ports: Vec<Port>,
    plan: &Plan,
    gate: &G,
) -> Result<Ran, RunError>
    requires sizes { memory.about.sizes ≡ plan.now.sizes }
    requires opened { IsOpenedFor memory plan.now.ports ports.items }
    ensures { IfOk result (λ ran. IsReportFrom memory.about.opening plan.now (report_of ran)) }
{
    let calls = calls_by_port(alloc, plan.ports())?;
    run_on(rt, alloc, memory, ports, &calls, gate)
}

/// Turns the result of the workers into a report.
pub fn into_report(ran: Ran) -> RunReport
    ensures { result ≡ report_of ran }
{
    let Ran { answers, closed } = ran;
    RunReport {
        answers,
        values: closed.values,
    }
}

/// Runs the calls of a plan. It opens a memory with the plan's sizes and initial values, gives each port's
/// calls to a worker, joins all workers, and closes the memory. Each worker is a thread of its own, which
/// makes its calls in order and calls the gate before and after each. The plan's turns are ignored.
///
/// All memory, apart from that of closing, is taken before the first worker starts.
///
/// # Errors
///
/// [`RunError::OutOfMemory`] when an allocation was refused or a worker couldn't be started. It returns when all
/// workers that were started have ended, and nothing is left of the run.
pub fn run_workers<R: Threads + Wait + Sync, G: Gate>(
    rt: &R,
    alloc: Global,
    plan: &Plan,
    gate: &G,
) -> Result<RunReport, RunError>
    ensures { IfOk result (IsReportOf plan.now) }
{
    let count = plan.ports().len() as u32;
    let (memory, ports) = Memory::open(alloc, plan.sizes(), plan.initial(), count)?;
    Ok(into_report(run_plan(rt, alloc, memory, ports, plan, gate)?))
}
