//! Allocations that are refused, one after another. The script that runs these tests says which.

use super::{judge, sized};
use partial_pipeline::{NoWatch, NoWork, PipelineError, run_pipeline};
use std::alloc::AllocError;
use std::test::Fail;

// When an allocation is refused, or a thread's stack, the refusal is Memory, and the test ends with it.
#[test]
fn a_refused_growth_leaves_no_pipeline(rt: HostRuntime) -> Result<(), Fail> {
    match run_pipeline(&rt, rt.alloc(), sized(3, 20, 4), &NoWork, &mut NoWatch) {
        Ok(report) => {
            judge(&rt, &report, 3, 20);
            drop(report);
        }
        Err(error) => {
            assert_eq!(rt; error, PipelineError::OutOfMemory);
            Err(AllocError)?;
        }
    }
    Ok(())
}
