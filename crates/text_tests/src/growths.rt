//! Allocations that are refused, one after another. The script that runs these tests says which.

use crate::plans::read;
use crate::reports::each_answer;
use crate::writers::{borrowed_scan, each_answer_by_port, replay_of};
use partial_text::{
    Device, OutcomeError, PlanError, in_one_list, write_outcome, write_replayed, write_report,
    write_reports,
};
use std::alloc::AllocError;
use std::io;
use std::io::Write;
use std::process::Abort;
use std::test::Fail;

// A plan with each call, whose text no proof has to know.
fn each_call() -> &'static [u8] {
    b"sizes 6 4 8 64
initial 10 20 30 40 50 60
port scan 5 4 3 2 1 0; update 0 7; scan; scan 2 1; read 0; updateif 1 21 9
port scan 1
steps 0*9 1*4 rest
"
}

// When an allocation is refused, there is no plan, and the test ends with that refusal. When the test
// passes, no allocation was refused and the plan was read.
#[test]
fn a_refused_growth_reads_no_plan(rt: HostRuntime) -> Result<(), Fail> {
    match read(rt.alloc(), each_call()) {
        Ok(plan) => assert_eq!(rt; plan.ports().len(), 2),
        Err(error) => {
            assert_eq!(rt; error, PlanError::OutOfMemory);
            Err(AllocError)?;
        }
    }
    Ok(())
}

/// Counts what it takes and asks for no memory.
#[derive(Drop)]
struct Counter {
    taken: usize,
}

impl Write for Counter {
    fn write(&mut self, buf: &[u8]) -> io::Result<usize> {
        self.taken = self.taken.saturating_add(buf.len());
        Ok(buf.len())
    }

    fn flush(&mut self) -> io::Result<()> {
        Ok(())
    }
}

/// Judges what the writer has taken: all of a text, or nothing when an allocation was refused. Then the refusal
/// is returned.
fn judge(
    rt: &impl Abort,
    given: Result<(), OutcomeError>,
    device: Device<Counter>,
) -> Result<(), Fail> {
    assert!(rt; !device.failed());
    let taken = device.into_inner().taken;
    match given {
        Ok(()) => assert!(rt; 0 < taken),
        Err(error) => {
            assert_eq!(rt; error, OutcomeError::OutOfMemory);
            assert_eq!(rt; taken, 0);
            Err(AllocError)?;
        }
    }
    Ok(())
}

// When an allocation is refused, nothing is written, and the test ends with that refusal.
#[test]
fn a_refused_growth_writes_nothing(rt: HostRuntime) -> Result<(), Fail> {
    let outcome = borrowed_scan(rt.alloc())?;
    let mut device = Device::new(Counter { taken: 0 });
    let given = write_outcome(rt.alloc(), &outcome, &mut device);
    judge(&rt, given, device)
}

// The same with what a replay has made.
#[test]
fn a_refused_growth_writes_no_replay(rt: HostRuntime) -> Result<(), Fail> {
    let replayed = replay_of(rt.alloc(), each_answer_by_port(rt.alloc())?, 51)?;
    let mut device = Device::new(Counter { taken: 0 });
    let given = write_replayed(rt.alloc(), &replayed, &mut device);
    judge(&rt, given, device)
}

// When an allocation is refused, there is no list of all calls, and the test ends with that refusal.
#[test]
fn a_refused_growth_lists_no_calls(rt: HostRuntime) -> Result<(), Fail> {
    let ports = each_answer_by_port(rt.alloc())?;
    assert_eq!(rt; in_one_list(rt.alloc(), ports)?.len(), 9);
    Ok(())
}

// The same with a report.
#[test]
fn a_refused_growth_reports_nothing(rt: HostRuntime) -> Result<(), Fail> {
    let report = each_answer(rt.alloc())?;
    let mut device = Device::new(Counter { taken: 0 });
    let given = write_report(rt.alloc(), &report, &mut device);
    judge(&rt, given, device)
}

// The same with two reports: when the text of the second has no room, the first isn't written either.
#[test]
fn a_refused_growth_reports_neither(rt: HostRuntime) -> Result<(), Fail> {
    let report = each_answer(rt.alloc())?;
    let mut device = Device::new(Counter { taken: 0 });
    let given = write_reports(rt.alloc(), &report, &report, &mut device);
    judge(&rt, given, device)
}
