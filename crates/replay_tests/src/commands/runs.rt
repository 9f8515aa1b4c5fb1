//! Plans that are run: ports side by side, each in a thread of its own.

use super::judge;
use super::rows::Row;
use crate::texts::{judge_text, repeated};
use partial_cmd::{
    Fault, Gate, NoGate, RunReport, Verb, Verdict, execute, execute_next, run_workers,
};
use partial_model::Answer;
use partial_replay::{Device, Plan, PlanError};
use std::alloc::Global;
use std::process::Abort;
use std::sync::Wait;
use std::sync::atomic::{AtomicU64, Ordering};
use std::test::Fail;
use std::thread::Threads;

// Plans and their reports come as results, so that no proof of a test knows their texts.

pub(super) fn slots_spent() -> Row {
    (
        "slots_spent",
        b"sizes 2 1 8 64
initial 10 20
port scan 0; scan 1; scan 1; update 1 5
steps rest
",
        b"call 0 0 scanned 10 collects 2 borrowed -
call 0 1 refused 8
call 0 2 refused 8
call 0 3 applied 25
values 10 5
",
    )
}

fn run_report() -> Row {
    (
        "run_report",
        b"sizes 2 4 8 64
initial 10 20
port update 0 7; read 0
steps rest
",
        b"call 0 0 applied 24
call 0 1 read 7 24
values 7 20
",
    )
}

fn empty_scan() -> Row {
    (
        "empty_scan",
        b"sizes 2 4 8 64
initial 10 20
port scan
steps rest
",
        b"call 0 0 scanned collects 0 borrowed -
values 10 20
",
    )
}

fn conditional() -> Row {
    (
        "conditional",
        b"sizes 2 4 8 64
initial 10 20
port updateif 0 18 7; updateif 0 18 8; updateif 0 24 9; read 2
port
steps
",
        b"call 0 0 applied 24
call 0 1 changed 24
call 0 2 applied 27
call 0 3 refused 7
values 9 20
",
    )
}

// With one port that makes calls there is one report.
#[test]
fn run_reports(rt: HostRuntime) -> Result<(), Fail> {
    for row in [run_report(), slots_spent(), empty_scan(), conditional()] {
        judge(&rt, rt.alloc(), Verb::Run, row, Verdict::Done)?;
    }
    Ok(())
}

/// The plan with this text.
fn read(alloc: Global, text: &[u8]) -> Result<Plan, PlanError> {
    Plan::read(alloc, &mut Device::new(text))
}

/// Judges that a port read once, and found what component 0 holds at first.
fn judge_reader(rt: &impl Abort, answers: &[Answer]) {
    match answers {
        [
            Answer::Read {
                value: 10,
                stamp: 18,
            },
        ] => {}
        other => assert!(rt; false, "{other:?}"),
    }
}

/// A plan of 64 ports that read once.
fn plan_of_readers(alloc: Global) -> Result<Plan, Fail> {
    let front = b"sizes 2 4 8 64\ninitial 10 20\n";
    let text = repeated(alloc, front, b"port read 0\n", 64, b"steps\n")?;
    Ok(read(alloc, &text)?)
}

/// Judges the report of that plan.
fn judge_readers(rt: &impl Abort, report: &RunReport) {
    assert_eq!(rt; report.answers.len(), 64);
    for answers in &report.answers {
        judge_reader(rt, answers);
    }
    assert_eq!(rt; report.values.as_slice(), [10, 20].as_slice());
}

#[test]
fn sixty_four_readers(rt: HostRuntime) -> Result<(), Fail> {
    let plan = plan_of_readers(rt.alloc())?;
    let report = run_workers(&rt, rt.alloc(), &plan, &NoGate)?;
    judge_readers(&rt, &report);
    Ok(())
}

/// Why the report of the plan has no room there.
fn fault_of_run<R: Threads + Wait + Sync>(
    rt: &R,
    alloc: Global,
    plan: &[u8],
    room: &mut [u8],
) -> Option<Fault> {
    let mut reader = Device::new(plan);
    let mut writer = Device::new(room);
    execute(rt, alloc, Verb::Run, &mut reader, &mut writer).err()
}

#[test]
fn a_report_to_a_failing_writer(rt: HostRuntime) -> Result<(), Fail> {
    let (_, plan, expected) = run_report();
    assert!(rt; expected.len() <= 64);
    for room in 0..expected.len() {
        let mut taken = [0u8; 64];
        let fault = fault_of_run(&rt, rt.alloc(), plan, &mut taken[..room]).ok_or("a refusal")?;
        assert_eq!(rt; fault.code(), 12, "after {room} bytes");
        assert_eq!(rt; &taken[..room], &expected[..room]);
    }
    Ok(())
}

/// How often each of two ports has reached its gates, and whether it has seen the other at its first one.
#[derive(Drop)]
struct Flags {
    before: [AtomicU64; 2],
    after: [AtomicU64; 2],
    seen: [AtomicU64; 2],
}

impl Flags {
    fn new() -> Flags {
        Flags {
            before: [AtomicU64::new(0), AtomicU64::new(0)],
            after: [AtomicU64::new(0), AtomicU64::new(0)],
            seen: [AtomicU64::new(0), AtomicU64::new(0)],
        }
    }
}

impl Gate for Flags {
    fn before(&self, port: u32, _number: u32) {
        let (own, other) = if port == 0 { (0, 1) } else { (1, 0) };
        self.before[own].fetch_add(1, Ordering::SeqCst);
        // Many seconds, where nobody comes: the other thread may have to wait for a processor.
        for _ in 0..20_000_000_000u64 {
            if self.before[other].load(Ordering::SeqCst) > 0 {
                self.seen[own].store(1, Ordering::SeqCst);
                break;
            }
        }
    }

    fn after(&self, port: u32, _number: u32) {
        let own = if port == 0 { 0 } else { 1 };
        self.after[own].fetch_add(1, Ordering::SeqCst);
    }
}

fn two_readers() -> &'static [u8] {
    b"sizes 2 4 8 64\ninitial 10 20\nport read 0\nport read 0\nsteps\n"
}

/// Runs the plan with this text, each call between its two gates.
fn run_gated<R: Threads + Wait + Sync, G: Gate>(
    rt: &R,
    alloc: Global,
    text: &[u8],
    gate: &G,
) -> Result<(), Fail> {
    let plan = read(alloc, text)?;
    run_workers(rt, alloc, &plan, gate)?;
    Ok(())
}

// A port that waits at its gate for the other is met there: the two run at the same time.
#[test]
fn side_by_side(rt: HostRuntime) -> Result<(), Fail> {
    let flags = Flags::new();
    run_gated(&rt, rt.alloc(), two_readers(), &flags)?;
    for port in 0..2 {
        assert_eq!(rt; flags.before[port].load(Ordering::SeqCst), 1, "port {port}");
        assert_eq!(rt; flags.seen[port].load(Ordering::SeqCst), 1, "port {port}");
        assert_eq!(rt; flags.after[port].load(Ordering::SeqCst), 1, "port {port}");
    }
    Ok(())
}

/// How often each of two ports has reached its gates, and whether one was passed out of turn.
#[derive(Drop)]
struct Counting {
    passed: [AtomicU64; 2],
    out_of_turn: AtomicU64,
}

impl Counting {
    fn new() -> Counting {
        Counting {
            passed: [AtomicU64::new(0), AtomicU64::new(0)],
            out_of_turn: AtomicU64::new(0),
        }
    }

    // The calls of a port pass two gates each, in order.
    fn pass(&self, port: u32, turn: u64) {
        let own = if port == 0 { 0 } else { 1 };
        let is_there = port < 2;
        if !is_there || self.passed[own].fetch_add(1, Ordering::SeqCst) != turn {
            self.out_of_turn.store(1, Ordering::SeqCst);
        }
    }
}

impl Gate for Counting {
    fn before(&self, port: u32, number: u32) {
        self.pass(port, 2 * u64::from(number));
    }

    fn after(&self, port: u32, number: u32) {
        self.pass(port, 2 * u64::from(number) + 1);
    }
}

fn two_ports() -> &'static [u8] {
    b"sizes 2 4 8 64\ninitial 10 20\nport read 0; update 0 5; scan 0\nport scan 1; read 0; update 1 7; read 1\nsteps rest\n"
}

// Each port passes the gates of its own calls, whatever the other one does.
#[test]
fn gates_in_order(rt: HostRuntime) -> Result<(), Fail> {
    let gate = Counting::new();
    run_gated(&rt, rt.alloc(), two_ports(), &gate)?;
    assert_eq!(rt; gate.passed[0].load(Ordering::SeqCst), 6);
    assert_eq!(rt; gate.passed[1].load(Ordering::SeqCst), 8);
    assert_eq!(rt; gate.out_of_turn.load(Ordering::SeqCst), 0);
    Ok(())
}

/// A first plan, a second one, and the texts of both reports.
pub(super) fn two_plans() -> (&'static [u8], &'static [u8], &'static [u8]) {
    (
        b"sizes 2 4 8 64
initial 10 20
port update 0 7; read 0
steps rest
",
        b"sizes 3 4 8 64
initial 0 0 0
port read 0; read 2
steps rest
",
        b"call 0 0 applied 24
call 0 1 read 7 24
values 7 20
call 0 0 read 7 19
call 0 1 read 0 25
values 7 20 0
",
    )
}

/// What both plans write, when they aren't refused.
fn executed_both<R: Threads + Wait + Sync>(
    rt: &R,
    alloc: Global,
    plan: &[u8],
    next: &[u8],
) -> Result<Vec<u8>, Fault> {
    let mut writer = Device::new(Vec::new(alloc));
    let mut plan = Device::new(plan);
    let mut next = Device::new(next);
    execute_next(rt, alloc, &mut plan, &mut next, &mut writer)?;
    Ok(writer.into_inner())
}

// The second run reads what the first one left, and 0 in the added component.
#[test]
fn a_run_goes_on(rt: HostRuntime) -> Result<(), Fail> {
    let (plan, next, expected) = two_plans();
    let written = executed_both(&rt, rt.alloc(), plan, next)?;
    judge_text(&rt, &written, expected);
    Ok(())
}

/// Another second plan, and the texts of both reports with it.
fn stale_stamp() -> (&'static [u8], &'static [u8]) {
    (
        b"sizes 2 4 8 64\ninitial 0 0\nport updateif 0 24 9; read 0\nport\nsteps\n",
        b"call 0 0 applied 24
call 0 1 read 7 24
values 7 20
call 0 0 changed 18
call 0 1 read 7 18
values 7 20
",
    )
}

// A stamp of the first run has no meaning in the second one.
#[test]
fn stamps_start_anew(rt: HostRuntime) -> Result<(), Fail> {
    let (plan, _, _) = two_plans();
    let (next, expected) = stale_stamp();
    let written = executed_both(&rt, rt.alloc(), plan, next)?;
    judge_text(&rt, &written, expected);
    Ok(())
}

/// Why the reports of both plans have no room there.
fn fault_of_both<R: Threads + Wait + Sync>(
    rt: &R,
    alloc: Global,
    plan: &[u8],
    next: &[u8],
    room: &mut [u8],
) -> Option<Fault> {
    let mut first = Device::new(plan);
    let mut second = Device::new(next);
    let mut writer = Device::new(room);
    execute_next(rt, alloc, &mut first, &mut second, &mut writer).err()
}

#[test]
fn two_reports_to_a_failing_writer(rt: HostRuntime) -> Result<(), Fail> {
    let (plan, next, expected) = two_plans();
    assert!(rt; expected.len() <= 128);
    for room in 0..expected.len() {
        let mut taken = [0u8; 128];
        let fault = fault_of_both(&rt, rt.alloc(), plan, next, &mut taken[..room]);
        assert_eq!(rt; fault.map(|fault| fault.code()), Some(12));
        assert_eq!(rt; &taken[..room], &expected[..room]);
    }
    Ok(())
}
