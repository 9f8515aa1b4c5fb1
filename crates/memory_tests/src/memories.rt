//! Memories that are opened for tests, with their ports.

ghost use Rattle.std.specs.Prelude.{◌≡◌, length, IfOk};
ghost use Rattle.std.specs.List.{AllByRecursion};
ghost use Rattle.partial_memory.specs.Ports.{IsOf};

use partial_memory::{Memory, OpenError, Port};
use partial_words::Sizes;
use std::alloc::{AllocError, Global};
use std::test::Fail;

/// Opens a memory with its ports.
pub(super) fn opened(
    alloc: Global,
    sizes: Sizes,
    initial: &[u64],
    ports: u32,
) -> Result<(Memory, Vec<Port>), OpenError>
    requires { length initial.now ≡ sizes.m }
    ensures { IfOk result (λ r. (r.0.about.sizes ≡ sizes) × AllByRecursion (IsOf r.0) r.1.items) }
{
    Memory::open(alloc, sizes, initial, ports)
}

/// Takes the last one of some ports of a memory.
pub(super) fn taken(memory: &Memory, ports: &mut Vec<Port>) -> Result<Port, Fail>
    requires { AllByRecursion (IsOf memory.now) ports.old.items }
    ensures port { IfOk result (IsOf memory.now) }
    ensures left { AllByRecursion (IsOf memory.now) ports.new.items }
{
    match ports.pop() {
        Some(port) => Ok(port),
        None => Err(Fail::from("a port")),
    }
}

/// Adds a port of a memory to others.
pub(super) fn add(memory: &Memory, ports: &mut Vec<Port>, port: Port) -> Result<(), AllocError>
    requires own { IsOf memory.now port }
    requires others { AllByRecursion (IsOf memory.now) ports.old.items }
    ensures { AllByRecursion (IsOf memory.now) ports.new.items }
{
    Ok(ports.push(port)?)
}

// Takes two ports from their end: the one before the last, and the last one.
fn last_two(memory: &Memory, ports: &mut Vec<Port>) -> Result<(Port, Port), Fail>
    requires { AllByRecursion (IsOf memory.now) ports.old.items }
    ensures { IfOk result (λ r. IsOf memory.now r.0 × IsOf memory.now r.1) }
{
    let second = taken(memory, ports)?;
    let first = taken(memory, ports)?;
    Ok((first, second))
}

/// Opens a memory with two ports.
pub(super) fn pair(
    alloc: Global,
    sizes: Sizes,
    initial: &[u64],
) -> Result<(Memory, Port, Port), Fail>
    requires { length initial.now ≡ sizes.m }
    ensures { IfOk result (λ r. (r.0.about.sizes ≡ sizes) × IsOf r.0 r.1 × IsOf r.0 r.2) }
{
    let (memory, mut ports) = opened(alloc, sizes, initial, 2)?;
    let two = last_two(&memory, &mut ports);
    drop(ports);
    let (first, second) = two?;
    Ok((memory, first, second))
}

/// A memory with the last one of its ports.
pub(super) fn with_last(memory: Memory, mut ports: Vec<Port>) -> Result<(Memory, Port), Fail>
    requires { AllByRecursion (IsOf memory) ports.items }
    ensures { IfOk result (λ r. (r.0 ≡ memory) × IsOf memory r.1) }
{
    let port = taken(&memory, &mut ports);
    drop(ports);
    Ok((memory, port?))
}

/// Opens a memory with one port.
pub(super) fn single(alloc: Global, sizes: Sizes, initial: &[u64]) -> Result<(Memory, Port), Fail>
    requires { length initial.now ≡ sizes.m }
    ensures { IfOk result (λ r. (r.0.about.sizes ≡ sizes) × IsOf r.0 r.1) }
{
    let (memory, ports) = opened(alloc, sizes, initial, 1)?;
    with_last(memory, ports)
}
