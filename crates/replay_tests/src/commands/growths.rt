//! Allocations that are refused, one after another. The script that runs these tests says which.

use super::rows::borrowed_view;
use super::runs::{slots_spent, two_plans};
use partial_cmd::{Fault, Verb, execute, execute_next};
use partial_replay::Device;
use std::alloc::Global;
use std::io;
use std::io::Write;
use std::process::Abort;
use std::sync::Wait;
use std::test::Fail;
use std::thread::Threads;

/// Takes what it expects and asks for no memory. `left` is what is still to come.
#[derive(Drop)]
struct Expecting<'a> {
    left: &'a [u8],
}

impl Write for Expecting<'_> {
    fn write(&mut self, buf: &[u8]) -> io::Result<usize> {
        match self.left.strip_prefix(buf) {
            Some(left) => {
                self.left = left;
                Ok(buf.len())
            }
            None => Err(io::Error::from(io::ErrorKind::Other)),
        }
    }

    fn flush(&mut self) -> io::Result<()> {
        Ok(())
    }
}

/// How much of the text that is expected of a command is not written, and why.
fn unwritten<R: Threads + Wait + Sync>(
    rt: &R,
    alloc: Global,
    verb: Verb,
    plan: &[u8],
    expected: &[u8],
) -> (usize, Option<Fault>) {
    let mut writer = Device::new(Expecting { left: expected });
    let given = execute(rt, alloc, verb, &mut Device::new(plan), &mut writer);
    (writer.into_inner().left.len(), given.err())
}

/// Judges what of a command's text isn't written: nothing, or all of it when an allocation was refused. Then the fault
/// is returned.
fn judge(rt: &impl Abort, left: usize, fault: Option<Fault>, expected: &[u8]) -> Result<(), Fault> {
    match fault {
        None => assert_eq!(rt; left, 0),
        Some(fault) => {
            assert_eq!(rt; fault.code(), 6);
            assert_eq!(rt; fault.at(), None);
            assert_eq!(rt; left, expected.len());
            Err(fault)?;
        }
    }
    Ok(())
}

// When an allocation is refused, in reading, replaying or writing, the fault is 6 and nothing is written.
// The test then ends with that fault. When it passes, no allocation was refused and all was written.
#[test]
fn a_refused_growth_writes_nothing(rt: HostRuntime) -> Result<(), Fail> {
    let (_, plan, expected) = borrowed_view();
    let (left, fault) = unwritten(&rt, rt.alloc(), Verb::Replay, plan, expected);
    judge(&rt, left, fault, expected)?;
    Ok(())
}

#[test]
fn a_refused_growth_gives_no_verdict(rt: HostRuntime) -> Result<(), Fail> {
    let (_, plan, _) = borrowed_view();
    let line = b"lawful\n";
    let (left, fault) = unwritten(&rt, rt.alloc(), Verb::Check, plan, line);
    judge(&rt, left, fault, line)?;
    Ok(())
}

#[test]
fn a_refused_growth_reports_no_run(rt: HostRuntime) -> Result<(), Fail> {
    let (_, plan, expected) = slots_spent();
    let (left, fault) = unwritten(&rt, rt.alloc(), Verb::Run, plan, expected);
    judge(&rt, left, fault, expected)?;
    Ok(())
}

#[test]
fn a_refused_growth_reports_no_two_runs(rt: HostRuntime) -> Result<(), Fail> {
    let (plan, next, expected) = two_plans();
    let mut writer = Device::new(Expecting { left: expected });
    let mut plan = Device::new(plan);
    let mut next = Device::new(next);
    let given = execute_next(&rt, rt.alloc(), &mut plan, &mut next, &mut writer);
    judge(&rt, writer.into_inner().left.len(), given.err(), expected)?;
    Ok(())
}
