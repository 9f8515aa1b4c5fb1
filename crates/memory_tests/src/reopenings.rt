//! Memories that open with the values of a closed one.

ghost use Rattle.std.specs.Prelude.{◌≡◌, IfOk};
ghost use Rattle.std.specs.List.{AllByRecursion};
ghost use Rattle.partial_memory.specs.Ports.{IsOf};

use super::calls::{applies, reads, updates_if};
use super::memories::{pair, single, with_last};
use partial_memory::{Closed, Memory, OpenError, Port, UpdatedIf};
use partial_words::Sizes;
use std::alloc::Global;
use std::process::Abort;
use std::test::Fail;

// The values of a closed memory are 10 and 8.
fn holds_both(rt: &impl Abort, closed: &Closed) {
    assert_eq!(rt; closed.values.as_slice(), [10, 8].as_slice());
}

// Closes a memory of two components, 10 and 20, after an update of the second one to 8.
fn closed(rt: &impl Abort, alloc: Global) -> Result<Closed, Fail> {
    let sizes = Sizes::new(2, 4, 8, 64)?;
    let (memory, mut first, second) = pair(alloc, sizes, &[10, 20])?;
    drop(second);
    applies(rt, &memory, &mut first, 1, 8, 24);
    let closed = memory.close(alloc, first, Vec::new(alloc))?;
    holds_both(rt, &closed);
    Ok(closed)
}

// Opens a memory with the values of a closed one.
fn reopened(
    alloc: Global,
    closed: &Closed,
    sizes: Sizes,
    ports: u32,
) -> Result<(Memory, Vec<Port>), OpenError>
    ensures { IfOk result (λ r. AllByRecursion (IsOf r.0) r.1.items) }
{
    Memory::reopen(alloc, closed, sizes, ports)
}

// The same with one port.
fn alone(alloc: Global, closed: &Closed, sizes: Sizes) -> Result<(Memory, Port), Fail>
    ensures { IfOk result (λ r. IsOf r.0 r.1) }
{
    let (memory, ports) = reopened(alloc, closed, sizes, 1)?;
    with_last(memory, ports)
}

// The port of a memory with an added component reads each of them.
fn reads_three(rt: &impl Abort, memory: &Memory, me: &mut Port)
    requires { IsOf memory.now me.old }
{
    assert_eq!(rt; me.number(), 0);
    reads(rt, memory, me, 0, 10, 19);
    reads(rt, memory, me, 1, 8, 22);
    reads(rt, memory, me, 2, 0, 25);
    // The stamp that the update had in the closed memory says nothing here.
    let changed = UpdatedIf::Changed { by: 22 };
    updates_if(rt, memory, me, 1, 24, 9, changed);
}

// Reopens the memory that was closed after an update, with one port.
fn reopened_alone(rt: &impl Abort, alloc: Global, sizes: Sizes) -> Result<(Memory, Port), Fail>
    ensures { IfOk result (λ r. IsOf r.0 r.1) }
{
    let closed = closed(rt, alloc)?;
    let opened = alone(alloc, &closed, sizes);
    drop(closed);
    opened
}

#[test]
fn an_added_component_is_zero(rt: HostRuntime) -> Result<(), Fail> {
    let sizes = Sizes::new(3, 4, 8, 64)?;
    let (memory, mut port) = reopened_alone(&rt, rt.alloc(), sizes)?;
    reads_three(&rt, &memory, &mut port);
    drop((memory, port));
    Ok(())
}

// What one of two reopened memories shows of an update of the other: nothing.
fn are_apart(rt: &impl Abort, one: &Memory, of_one: &mut Port, other: &Memory, of_other: &mut Port)
    requires { IsOf one.now of_one.old × IsOf other.now of_other.old }
{
    applies(rt, one, of_one, 0, 5, 24);
    reads(rt, one, of_one, 0, 5, 24);
    reads(rt, other, of_other, 0, 10, 18);
    reads(rt, other, of_other, 1, 8, 21);
}

// Reopens a closed memory once more, beside the one that it was reopened as.
fn reopened_beside(
    rt: &impl Abort,
    alloc: Global,
    closed: &Closed,
    one: &Memory,
    of_one: &mut Port,
) -> Result<(), Fail>
    requires { IsOf one.now of_one.old }
{
    let sizes = Sizes::new(2, 4, 8, 64)?;
    let (other, mut of_other) = alone(alloc, closed, sizes)?;
    are_apart(rt, one, of_one, &other, &mut of_other);
    drop((other, of_other));
    Ok(())
}

// Reopens a closed memory twice.
fn reopened_twice(rt: &impl Abort, alloc: Global, closed: &Closed) -> Result<(), Fail> {
    let sizes = Sizes::new(2, 4, 8, 64)?;
    let (one, mut of_one) = alone(alloc, closed, sizes)?;
    let judged = reopened_beside(rt, alloc, closed, &one, &mut of_one);
    drop((one, of_one));
    judged
}

#[test]
fn two_reopenings_are_apart(rt: HostRuntime) -> Result<(), Fail> {
    let closed = closed(&rt, rt.alloc())?;
    let judged = reopened_twice(&rt, rt.alloc(), &closed);
    drop(closed);
    judged
}

// Why a closed memory isn't reopened with these sizes and so many ports.
fn refusal(alloc: Global, closed: &Closed, sizes: Sizes, ports: u32) -> Option<OpenError> {
    Memory::reopen(alloc, closed, sizes, ports).err()
}

// What is refused for its ports.
fn refuses_ports(rt: &impl Abort, alloc: Global, closed: &Closed) -> Result<(), Fail> {
    for m in [1, 2, 3] {
        let sizes = Sizes::new(m, 4, 8, 64)?;
        for ports in [0, 65] {
            let refused = refusal(alloc, closed, sizes, ports);
            assert_eq!(rt; refused, Some(OpenError::Ports), "{m} components");
        }
    }
    Ok(())
}

// What is refused for its components, and the numbers of both causes.
fn refuses_sizes(rt: &impl Abort, alloc: Global, closed: &Closed) -> Result<(), Fail> {
    let sizes = Sizes::new(1, 4, 8, 64)?;
    assert_eq!(rt; refusal(alloc, closed, sizes, 1), Some(OpenError::TooSmall));
    assert_eq!(rt; OpenError::TooSmall.code(), 13);
    assert_eq!(rt; OpenError::Ports.code(), 5);
    Ok(())
}

// The closed memory reopens with its values.
fn reopens(rt: &impl Abort, alloc: Global, closed: &Closed) -> Result<(), Fail> {
    let sizes = Sizes::new(2, 4, 8, 64)?;
    let (memory, mut port) = alone(alloc, closed, sizes)?;
    reads(rt, &memory, &mut port, 1, 8, 21);
    drop((memory, port));
    Ok(())
}

// What was refused has left the closed memory as it was.
fn refuses_and_reopens(rt: &impl Abort, alloc: Global, closed: &Closed) -> Result<(), Fail> {
    refuses_ports(rt, alloc, closed)?;
    refuses_sizes(rt, alloc, closed)?;
    reopens(rt, alloc, closed)
}

#[test]
fn reopening_refused(rt: HostRuntime) -> Result<(), Fail> {
    let closed = closed(&rt, rt.alloc())?;
    let judged = refuses_and_reopens(&rt, rt.alloc(), &closed);
    drop(closed);
    judged
}

// Opens the greatest memory, each of whose components is 7, and closes it.
fn closed_greatest(alloc: Global, sizes: Sizes) -> Result<Closed, Fail>
    requires { sizes.m ≡ 65536 }
{
    let initial = vec![in alloc; 7; 65_536]?;
    let (memory, port) = single(alloc, sizes, &initial)?;
    Ok(memory.close(alloc, port, Vec::new(alloc))?)
}

// The last component is 7.
fn reads_last(rt: &impl Abort, memory: &Memory, me: &mut Port)
    requires { IsOf memory.now me.old }
{
    let last = memory.read(me, 65_535).map(|(value, _)| value);
    assert_eq!(rt; last, Ok(7));
}

// Opens the greatest memory with the values of a closed one.
fn reopened_greatest(alloc: Global, sizes: Sizes) -> Result<(Memory, Port), Fail>
    requires { sizes.m ≡ 65536 }
    ensures { IfOk result (λ r. IsOf r.0 r.1) }
{
    let closed = closed_greatest(alloc, sizes)?;
    let opened = alone(alloc, &closed, sizes);
    drop(closed);
    opened
}

#[test]
fn the_greatest_memory_reopens(rt: HostRuntime) -> Result<(), Fail> {
    let sizes = Sizes::new(65_536, 65_536, 65_536, 4_194_304)?;
    let (memory, mut port) = reopened_greatest(rt.alloc(), sizes)?;
    reads_last(&rt, &memory, &mut port);
    drop((memory, port));
    Ok(())
}
