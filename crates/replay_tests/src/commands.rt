//! Plans whose outcomes were worked out by hand, plans that are refused, and devices that fail.

mod checks;
mod devices;
mod growths;
mod outcomes;
mod rows;
mod runs;

use partial_cmd::{Fault, Verb, Verdict, execute};
use partial_replay::Device;
use rows::Row;
use std::alloc::Global;
use std::process::Abort;
use std::sync::Wait;
use std::thread::Threads;

/// How the command ends, and what it writes, when it isn't refused.
fn executed<R: Threads + Wait + Sync>(
    rt: &R,
    alloc: Global,
    verb: Verb,
    plan: &[u8],
) -> Result<(Verdict, Vec<u8>), Fault> {
    let mut writer = Device::new(Vec::new(alloc));
    let verdict = execute(rt, alloc, verb, &mut Device::new(plan), &mut writer)?;
    Ok((verdict, writer.into_inner()))
}

/// Judges how a command has ended, and what it has written.
fn judge_end(rt: &impl Abort, name: &str, given: (Verdict, &[u8]), expected: (Verdict, &[u8])) {
    assert_eq!(rt; given.0, expected.0, "{name}");
    assert_eq!(rt; given.1, expected.1, "{name}");
}

/// Judges how the command ends, and what it writes.
fn judge<R: Threads + Wait + Sync + Abort>(
    rt: &R,
    alloc: Global,
    verb: Verb,
    row: Row,
    end: Verdict,
) -> Result<(), Fault> {
    let (name, plan, expected) = row;
    let (verdict, written) = executed(rt, alloc, verb, plan)?;
    judge_end(rt, name, (verdict, &written), (end, expected));
    Ok(())
}

/// What a replay of the plan writes, when it succeeds.
fn outcome_of<R: Threads + Wait + Sync>(
    rt: &R,
    alloc: Global,
    plan: &[u8],
) -> Result<Vec<u8>, Fault> {
    let (_, written) = executed(rt, alloc, Verb::Replay, plan)?;
    Ok(written)
}
