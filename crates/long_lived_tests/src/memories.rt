//! Memories that are opened for tests, with their ports.

ghost use Rattle.std.specs.Prelude.{◌≡◌, ◌≤◌, IfOk};
ghost use Rattle.std.specs.List.{AllByRecursion};
ghost use Rattle.partial_long_lived.specs.Ports.{IsOf};

use partial_long_lived::{LongLived, Options, Port};
use std::alloc::Global;
use std::test::Fail;

/// A pool of one word: each call that claims words makes its port spent, so that the next one changes the epoch.
pub(super) const SPENT: Options = Options {
    lists: 2,
    pool: Some(1),
    announce: None,
};

/// The same, in a memory whose scans don't announce themselves.
pub(super) const SILENT: Options = Options {
    lists: 2,
    pool: Some(1),
    announce: Some(false),
};

/// Takes the last one of some ports of a memory.
pub(super) fn taken(memory: &LongLived, ports: &mut Vec<Port>) -> Result<Port, Fail>
    requires { AllByRecursion (IsOf memory.now) ports.old.items }
    ensures port { IfOk result (IsOf memory.now) }
    ensures left { AllByRecursion (IsOf memory.now) ports.new.items }
{
    match ports.pop() {
        Some(port) => Ok(port),
        None => Err(Fail::from("a port")),
    }
}

/// A memory with the last one of its ports.
pub(super) fn with_last(memory: LongLived, mut ports: Vec<Port>) -> Result<(LongLived, Port), Fail>
    requires { AllByRecursion (IsOf memory) ports.items }
    ensures { IfOk result (λ r. (r.0 ≡ memory) × IsOf memory r.1) }
{
    let port = taken(&memory, &mut ports);
    drop(ports);
    Ok((memory, port?))
}

// Takes two ports from their end: the one before the last, and the last one.
fn last_two(memory: &LongLived, ports: &mut Vec<Port>) -> Result<(Port, Port), Fail>
    requires { AllByRecursion (IsOf memory.now) ports.old.items }
    ensures { IfOk result (λ r. IsOf memory.now r.0 × IsOf memory.now r.1) }
{
    let last = taken(memory, ports)?;
    let first = taken(memory, ports)?;
    Ok((first, last))
}

/// A memory with the last two of its ports.
pub(super) fn with_two(
    memory: LongLived,
    mut ports: Vec<Port>,
) -> Result<(LongLived, Port, Port), Fail>
    requires { AllByRecursion (IsOf memory) ports.items }
    ensures { IfOk result (λ r. (r.0 ≡ memory) × IsOf memory r.1 × IsOf memory r.2) }
{
    let two = last_two(&memory, &mut ports);
    drop(ports);
    let (first, last) = two?;
    Ok((memory, first, last))
}

/// Opens a memory whose two components are 10 and 20, with a port.
pub(super) fn one(alloc: Global, options: Options) -> Result<(LongLived, Port), Fail>
    ensures { IfOk result (λ r. (2 ≤ r.0.about.sizes.m) × IsOf r.0 r.1) }
{
    let (memory, ports) = LongLived::open(alloc, &[10, 20], 1, options)?;
    with_last(memory, ports)
}

/// Opens a memory whose two components are 10 and 20, with two ports.
pub(super) fn pair(alloc: Global, options: Options) -> Result<(LongLived, Port, Port), Fail>
    ensures { IfOk result (λ r. (2 ≤ r.0.about.sizes.m) × IsOf r.0 r.1 × IsOf r.0 r.2) }
{
    let (memory, ports) = LongLived::open(alloc, &[10, 20], 2, options)?;
    with_two(memory, ports)
}
