//! Allocations that are refused, one after another. The script that runs these tests says which.

use partial_replay::{Device, Plan, ReplayError, replay};
use std::alloc::{AllocError, Global};
use std::test::Fail;

// A scan that takes a view, a port that never gets a turn, and a port with each other call.
fn each_call() -> &'static [u8] {
    b"sizes 2 4 8 64
initial 10 20
port scan 0; scan 1 0; scan
port update 0 5; update 0 6; read 0; updateif 1 21 8
port scan 0
steps 0*6 1*17 0*1 1*17 0*6 1*2 1*20 0*20
"
}

/// How many calls and how many entries the outcome of the plan has.
fn counts(alloc: Global, plan: &Plan) -> Result<(usize, usize), ReplayError> {
    let outcome = replay(alloc, plan)?;
    Ok((outcome.calls.len(), outcome.history.len()))
}

// When an allocation is refused, there is no outcome, and the test ends with that refusal. When the test
// passes, no allocation was refused and each step was made.
#[test]
fn a_refused_growth_gives_no_outcome(rt: HostRuntime) -> Result<(), Fail> {
    let plan = Plan::read(rt.alloc(), &mut Device::new(each_call())).map_err(|_| AllocError)?;
    let given = counts(rt.alloc(), &plan);
    drop(plan);
    match given {
        Ok(counts) => assert_eq!(rt; counts, (7, 3)),
        Err(error) => {
            assert_eq!(rt; error, ReplayError::OutOfMemory);
            Err(AllocError)?;
        }
    }
    Ok(())
}
