//! Allocations that are refused, one after another. The script that runs these tests says which.

ghost use Rattle.std.specs.Prelude.{IfOk};
ghost use Rattle.std.specs.List.{AllByRecursion};
ghost use Rattle.partial_long_lived.specs.Ports.{IsOf};

use crate::memories::taken;
use partial_long_lived::{LongLived, OpenError, Options, Port, Unclosed};
use std::alloc::{AllocError, Global};
use std::process::Abort;
use std::test::Fail;

const SMALL: Options = Options {
    lists: 2,
    pool: Some(8),
    announce: None,
};

// How many ports a memory has that opens with two.
fn opened_ports(alloc: Global) -> Result<usize, OpenError> {
    let opened = LongLived::open(alloc, &[10, 20], 2, SMALL)?;
    let ports = opened.1.len();
    drop(opened);
    Ok(ports)
}

// When an allocation is refused, nothing is opened, and the test ends with that refusal.
#[test]
fn a_refused_growth_opens_nothing(rt: HostRuntime) -> Result<(), Fail> {
    match opened_ports(rt.alloc()) {
        Ok(ports) => assert_eq!(rt; ports, 2),
        Err(error) => {
            assert_eq!(rt; error, OpenError::OutOfMemory);
            Err(AllocError)?;
        }
    }
    Ok(())
}

// Opens a memory with two ports, and takes the last one.
fn opened(alloc: Global) -> Result<(LongLived, Port, Vec<Port>), Fail>
    ensures { IfOk result (λ r. IsOf r.0 r.1 × AllByRecursion (IsOf r.0) r.2.items) }
{
    let Ok((memory, mut rest)) = LongLived::open(alloc, &[10, 20], 2, SMALL) else {
        return Err(Fail::from(AllocError));
    };
    let port = taken(&memory, &mut rest)?;
    Ok((memory, port, rest))
}

// The values of the closed memory are 10 and 20.
fn holds_both(rt: &impl Abort, values: Vec<u64>) {
    assert_eq!(rt; values.as_slice(), [10, 20].as_slice());
    drop(values);
}

// Closes a memory that came back with its ports.
fn closed_again(rt: &impl Abort, alloc: Global, unclosed: Unclosed) -> Result<Vec<u64>, Fail>
    requires port { IsOf unclosed.memory unclosed.port }
    requires rest { AllByRecursion (IsOf unclosed.memory) unclosed.rest.items }
{
    assert_eq!(rt; unclosed.port.number(), 1);
    assert_eq!(rt; unclosed.rest.len(), 1);
    let closed = unclosed.memory.close(alloc, unclosed.port, unclosed.rest);
    Ok(closed.ok().ok_or("the second close")?)
}

// When an allocation is refused, the memory and its ports come back, and close then. The test ends with that refusal.
#[test]
fn a_refused_growth_loses_nothing(rt: HostRuntime) -> Result<(), Fail> {
    let (memory, port, rest) = opened(rt.alloc())?;
    match memory.close(rt.alloc(), port, rest) {
        Ok(values) => {
            holds_both(&rt, values);
            Ok(())
        }
        Err(unclosed) => {
            holds_both(&rt, closed_again(&rt, rt.alloc(), unclosed)?);
            Err(Fail::from(AllocError))
        }
    }
}
