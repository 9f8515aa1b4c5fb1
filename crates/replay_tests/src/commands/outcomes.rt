//! The texts of outcomes.

use super::rows::{Row, rows};
use super::{judge, outcome_of};
use crate::texts::{judge_text, repeated};
use partial_cmd::{Verb, Verdict};
use partial_words::Sizes;
use std::alloc::{AllocError, Global};
use std::process::Abort;
use std::sync::Wait;
use std::test::Fail;
use std::thread::Threads;

#[test]
fn worked_rows(rt: HostRuntime) -> Result<(), Fail> {
    for row in rows() {
        judge(&rt, rt.alloc(), Verb::Replay, row, Verdict::Done)?;
    }
    Ok(())
}

#[test]
fn worked_rows_are_lawful(rt: HostRuntime) -> Result<(), Fail> {
    for (name, plan, _) in rows() {
        let row: Row = (name, plan, b"lawful\n");
        judge(&rt, rt.alloc(), Verb::Check, row, Verdict::Lawful)?;
    }
    Ok(())
}

// A turn of a port with no call left costs nothing.
#[test]
fn many_turns(rt: HostRuntime) -> Result<(), Fail> {
    let front = b"sizes 2 4 8 64\ninitial 10 20\nport read 0\nsteps";
    let plan = repeated(rt.alloc(), front, b" 0*4294967295", 100, b"\n")?;
    let written = outcome_of(&rt, rt.alloc(), &plan)?;
    let expected = b"call 0 0 read 10 18 prefix 0 steps 2 span 0 0\nvalues 10 20\ntotal 2\n";
    judge_text(&rt, &written, expected);
    Ok(())
}

/// What comes of an update and an empty scan of one port that has these steps.
fn outcome_with_steps<R: Threads + Wait + Sync>(
    rt: &R,
    alloc: Global,
    steps: &[u8],
) -> Result<Vec<u8>, Fail> {
    let front = b"sizes 2 4 8 64\ninitial 10 20\nport update 0 7; scan\nsteps ";
    let plan = repeated(alloc, front, steps, 1, b"\n")?;
    Ok(outcome_of(rt, alloc, &plan)?)
}

/// The text of that outcome, with what is listed after the update.
fn text_with_listed(alloc: Global, listed: &[u8]) -> Result<Vec<u8>, AllocError> {
    let update = b"applied 0 port 0 component 0 value 7 stamp 24
call 0 0 applied 24 place 0 steps 8 span 0 1
";
    repeated(alloc, update, listed, 1, b"values 7 20\ntotal 8\n")
}

/// Judges that outcome by what is listed after the update.
fn judge_steps<R: Threads + Wait + Sync + Abort>(
    rt: &R,
    alloc: Global,
    steps: &[u8],
    listed: &[u8],
) -> Result<(), Fail> {
    let expected = text_with_listed(alloc, listed)?;
    let written = outcome_with_steps(rt, alloc, steps)?;
    assert_eq!(rt; written.as_slice(), expected.as_slice(), "{steps:?}");
    Ok(())
}

// A call that makes no step waits for a turn to begin, as any other call does.
#[test]
fn calls_without_steps(rt: HostRuntime) -> Result<(), Fail> {
    let scan = b"call 0 1 scanned prefix 1 collects 0 borrowed - steps 0 span 1 1\n";
    judge_steps(&rt, rt.alloc(), b"0*8", b"")?;
    judge_steps(&rt, rt.alloc(), b"0*9", scan)?;
    judge_steps(&rt, rt.alloc(), b"rest", scan)
}

/// What comes of a plan with the most components there may be, and a pool that has no room but for their records.
fn outcome_of_most<R: Threads + Wait + Sync>(rt: &R, alloc: Global) -> Result<Vec<u8>, Fail> {
    let front = b"sizes 65536 1 0 196608\ninitial";
    let calls = b"\nport update 65535 1; read 65535\nsteps rest\n";
    let plan = repeated(alloc, front, b" 0", 65_536, calls)?;
    Ok(outcome_of(rt, alloc, &plan)?)
}

/// The text of that outcome.
fn text_of_most(alloc: Global) -> Result<Vec<u8>, AllocError> {
    let told = b"call 0 0 refused 9 steps 4 span 0 0
call 0 1 read 0 262146 prefix 0 steps 2 span 0 0
values";
    repeated(alloc, told, b" 0", 65_536, b"\ntotal 6\n")
}

#[test]
fn most_components(rt: HostRuntime) -> Result<(), Fail> {
    assert_eq!(rt; Sizes::new(65_536, 1, 0, 196_608)?.total(), 262_149);
    let expected = text_of_most(rt.alloc())?;
    let written = outcome_of_most(&rt, rt.alloc())?;
    assert!(rt; written.as_slice() == expected.as_slice());
    Ok(())
}
