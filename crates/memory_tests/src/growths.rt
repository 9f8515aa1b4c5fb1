//! Allocations that are refused, one after another. The script that runs these tests says which.

ghost use Rattle.std.specs.Prelude.{◌≡◌, IfOk};
ghost use Rattle.partial_memory.specs.Ports.{IsOf};

use super::memories::{opened, with_last};
use partial_memory::{CloseError, Closed, Memory, OpenError, Port};
use partial_words::Sizes;
use std::alloc::{AllocError, Global};
use std::process::Abort;
use std::test::Fail;

// How many ports a memory has that opens with two.
fn opened_ports(alloc: Global, sizes: Sizes) -> Result<usize, OpenError>
    requires { sizes.m ≡ 2 }
{
    let opened = Memory::open(alloc, sizes, &[10, 20], 2)?;
    let ports = opened.1.len();
    drop(opened);
    Ok(ports)
}

// A memory opened with two ports, or was refused for want of memory. Then the refusal is returned.
fn judge(rt: &impl Abort, opened: Result<usize, OpenError>) -> Result<(), AllocError> {
    match opened {
        Ok(ports) => assert_eq!(rt; ports, 2),
        Err(error) => {
            assert_eq!(rt; error, OpenError::OutOfMemory);
            Err(AllocError)?;
        }
    }
    Ok(())
}

// When an allocation is refused, nothing is opened, and the test ends with that refusal.
#[test]
fn a_refused_growth_opens_nothing(rt: HostRuntime) -> Result<(), Fail> {
    let sizes = Sizes::new(2, 1, 1, 9)?;
    let opened = opened_ports(rt.alloc(), sizes);
    Ok(judge(&rt, opened)?)
}

// Opens a memory of two components with one port.
fn alone(alloc: Global, sizes: Sizes) -> Result<(Memory, Port), Fail>
    requires { sizes.m ≡ 2 }
    ensures { IfOk result (λ r. IsOf r.0 r.1) }
{
    let Ok((memory, ports)) = opened(alloc, sizes, &[10, 20], 1) else {
        return Err(Fail::from(AllocError));
    };
    with_last(memory, ports)
}

// When an allocation is refused, nothing is returned, and the test ends with that refusal.
#[test]
fn a_refused_growth_hands_nothing_back(rt: HostRuntime) -> Result<(), Fail> {
    let sizes = Sizes::new(2, 1, 1, 9)?;
    let (memory, port) = alone(rt.alloc(), sizes)?;
    match memory.close(rt.alloc(), port, Vec::new(rt.alloc())) {
        Ok(closed) => assert_eq!(rt; closed.values.as_slice(), [10, 20].as_slice()),
        Err(error) => {
            assert_eq!(rt; error, CloseError::OutOfMemory);
            Err(AllocError)?;
        }
    }
    Ok(())
}

// Closes such a memory.
fn closed(alloc: Global) -> Result<Closed, Fail> {
    let sizes = Sizes::new(2, 1, 1, 9)?;
    let (memory, port) = alone(alloc, sizes)?;
    let closed = memory.close(alloc, port, Vec::new(alloc));
    Ok(closed.map_err(|_| AllocError)?)
}

// How many ports a closed memory has that reopens with two.
fn reopened_ports(alloc: Global, closed: &Closed, sizes: Sizes) -> Result<usize, OpenError> {
    let reopened = Memory::reopen(alloc, closed, sizes, 2)?;
    let ports = reopened.1.len();
    drop(reopened);
    Ok(ports)
}

// When an allocation is refused, nothing is opened, the closed memory can be reopened afterwards, and the test
// ends with that refusal.
#[test]
fn a_refused_growth_reopens_nothing(rt: HostRuntime) -> Result<(), Fail> {
    let closed = closed(rt.alloc())?;
    let more = Sizes::new(3, 1, 1, 12)?;
    let reopened = reopened_ports(rt.alloc(), &closed, more);
    if reopened.is_err() {
        assert_eq!(rt; reopened_ports(rt.alloc(), &closed, more)?, 2);
    }
    Ok(judge(&rt, reopened)?)
}
