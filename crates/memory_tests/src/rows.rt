//! Rows in one thread, each worked out by hand.

ghost use Rattle.std.specs.Prelude.{◌≤◌, IfOk};
ghost use Rattle.std.specs.List.{AllByRecursion};
ghost use Rattle.partial_memory.specs.Ports.{IsOf};

use super::calls::{COLLECTED_TWICE, applies, reads, scans, updates_if};
use super::memories::{add, pair, single};
use partial_memory::{Closed, Memory, Port, Updated, UpdatedIf};
use partial_model::Refused;
use partial_words::{Link, Sizes};
use std::alloc::{AllocError, Global};
use std::process::Abort;
use std::test::Fail;

// Each call.
fn calls(rt: &impl Abort, memory: &Memory, first: &mut Port, second: &mut Port)
    requires { IsOf memory.now first.old × IsOf memory.now second.old × (2 ≤ memory.now.about.sizes.m) }
    ensures { IsOf memory.now first.new × IsOf memory.now second.new }
{
    assert_eq!(rt; (first.number(), second.number()), (0, 1));
    let updated = memory.update(first, 1, 8);
    assert_eq!(rt; updated, Ok(Updated::Applied { stamp: 24 }));
    let mut into = [0u64; 2];
    let scanned = memory.scan(second, &[0, 1], &mut into);
    assert_eq!(rt; scanned, Ok(COLLECTED_TWICE));
    assert_eq!(rt; into, [10, 8]);
    memory.meet(first, second);
    assert_eq!(rt; memory.read(second, 1), Ok((8, 24)));
    assert_eq!(rt; memory.read(second, 2), Err(Refused::Component));
}

// The ports with which a memory is closed beside its first one: the second one where it is handed in.
fn handed_in(
    alloc: Global,
    memory: &Memory,
    second: Port,
    both: bool,
) -> Result<Vec<Port>, AllocError>
    requires { IsOf memory.now second }
    ensures { IfOk result (λ rest. AllByRecursion (IsOf memory.now) rest.items) }
{
    let mut rest = Vec::new(alloc);
    if both {
        add(memory, &mut rest, second)?;
    }
    Ok(rest)
}

// Closes the memory with the first port, and with the second one where it is handed in.
fn closed_with(
    alloc: Global,
    memory: Memory,
    first: Port,
    second: Port,
    both: bool,
) -> Result<Closed, Fail>
    requires { IsOf memory first × IsOf memory second }
{
    let rest = handed_in(alloc, &memory, second, both)?;
    Ok(memory.close(alloc, first, rest)?)
}

// Makes them, and then the memory is closed with the first port, and with the second one where it is handed in.
fn one_thread(rt: &impl Abort, alloc: Global, both: bool) -> Result<Closed, Fail> {
    let sizes = Sizes::new(2, 4, 8, 64)?;
    let (memory, mut first, mut second) = pair(alloc, sizes, &[10, 20])?;
    calls(rt, &memory, &mut first, &mut second);
    closed_with(alloc, memory, first, second, both)
}

// A chain of the closed memory has these links.
fn has_links(rt: &impl Abort, closed: &Closed, component: usize, links: &[Link]) {
    let chain = closed.chains.get(component).map(|chain| chain.as_slice());
    assert_eq!(rt; chain, Some(links));
}

fn assert_closed(rt: &impl Abort, closed: &Closed) {
    assert_eq!(rt; closed.values.as_slice(), [10, 8].as_slice());
    let opening = Link {
        stamp: 18,
        value: 10,
    };
    let newest = Link {
        stamp: 24,
        value: 8,
    };
    let oldest = Link {
        stamp: 21,
        value: 20,
    };
    has_links(rt, closed, 0, &[opening]);
    has_links(rt, closed, 1, &[newest, oldest]);
    assert_eq!(rt; closed.chains.len(), 2);
}

#[test]
fn one_thread_with_both_ports(rt: HostRuntime) -> Result<(), Fail> {
    let closed = one_thread(&rt, rt.alloc(), true)?;
    assert_closed(&rt, &closed);
    drop(closed);
    Ok(())
}

#[test]
fn one_thread_without_the_second_port(rt: HostRuntime) -> Result<(), Fail> {
    let closed = one_thread(&rt, rt.alloc(), false)?;
    assert_closed(&rt, &closed);
    drop(closed);
    Ok(())
}

// Two updates that are refused for the pool.
fn refused_for_pool(rt: &impl Abort, memory: &Memory, me: &mut Port, component: u32)
    requires { IsOf memory.now me.old }
    ensures { IsOf memory.now me.new }
{
    assert!(rt; !me.pool_spent());
    for _ in 0..2 {
        let updated = memory.update(me, component, 8);
        assert_eq!(rt; updated, Err(Refused::PoolSpent));
        assert!(rt; me.pool_spent());
    }
}

#[test]
fn pool_spent(rt: HostRuntime) -> Result<(), Fail> {
    let sizes = Sizes::new(2, 4, 8, 9)?;
    let (memory, mut first, mut second) = pair(rt.alloc(), sizes, &[10, 20])?;
    applies(&rt, &memory, &mut first, 0, 7, 24);
    refused_for_pool(&rt, &memory, &mut first, 0);
    refused_for_pool(&rt, &memory, &mut second, 1);
    reads(&rt, &memory, &mut second, 0, 7, 24);
    drop((memory, first, second));
    Ok(())
}

// One port updates component 0, and another one, which it hasn't met, scans and reads it.
fn update_then_look(rt: &impl Abort, memory: &Memory, first: &mut Port, second: &mut Port, k: u64)
    requires { IsOf memory.now first.old × IsOf memory.now second.old × (2 ≤ memory.now.about.sizes.m) }
    ensures { IsOf memory.now first.new × IsOf memory.now second.new }
{
    let stamp = k.saturating_mul(6).saturating_add(70);
    applies(rt, memory, first, 0, k, stamp);
    scans(rt, memory, second, [0, 1], [k, 0]);
    reads(rt, memory, second, 0, k, stamp);
}

// The same with 50 values.
fn update_and_look(rt: &impl Abort, memory: &Memory, first: &mut Port, second: &mut Port)
    requires { IsOf memory.now first.old × IsOf memory.now second.old × (2 ≤ memory.now.about.sizes.m) }
{
    for value in 1..=50 {
        update_then_look(rt, memory, first, second, value);
    }
}

// Two ports that never meet: each scan and each read shows the update that ended before it began.
#[test]
fn never_met(rt: HostRuntime) -> Result<(), Fail> {
    let sizes = Sizes::new(2, 64, 0, 4096)?;
    let (memory, mut first, mut second) = pair(rt.alloc(), sizes, &[0, 0])?;
    update_and_look(&rt, &memory, &mut first, &mut second);
    drop((memory, first, second));
    Ok(())
}

// A scan of component 0 at two positions and of component 1.
fn scans_twice(rt: &impl Abort, memory: &Memory, me: &mut Port)
    requires { IsOf memory.now me.old × (3 ≤ memory.now.about.sizes.m) }
{
    let mut into = [0u64; 3];
    let scanned = memory.scan(me, &[0, 0, 1], &mut into);
    assert_eq!(rt; scanned, Ok(COLLECTED_TWICE));
    assert_eq!(rt; into, [10, 10, 20]);
}

#[test]
fn repeated_position(rt: HostRuntime) -> Result<(), Fail> {
    let sizes = Sizes::new(3, 4, 8, 64)?;
    let (memory, mut port) = single(rt.alloc(), sizes, &[10, 20, 30])?;
    scans_twice(&rt, &memory, &mut port);
    drop((memory, port));
    Ok(())
}

// Updates of a port between its own scans: each finds the slot that a scan has left, and puts it on the list.
fn between_scans(rt: &impl Abort, memory: &Memory, me: &mut Port)
    requires { IsOf memory.now me.old × (2 ≤ memory.now.about.sizes.m) }
    ensures { IsOf memory.now me.new }
{
    applies(rt, memory, me, 0, 7, 24);
    scans(rt, memory, me, [1, 0], [20, 7]);
    applies(rt, memory, me, 1, 8, 30);
    applies(rt, memory, me, 0, 9, 33);
    updates_if(rt, memory, me, 0, 33, 11, UpdatedIf::Applied { stamp: 36 });
    updates_if(rt, memory, me, 0, 33, 12, UpdatedIf::Changed { by: 36 });
    scans(rt, memory, me, [0, 1], [11, 8]);
    applies(rt, memory, me, 1, 13, 42);
}

// The links of a chain have these stamps, the newest first.
fn has_stamps(rt: &impl Abort, chain: &[Link], stamps: &[u64]) {
    assert_eq!(rt; chain.len(), stamps.len());
    for (link, stamp) in chain.iter().zip(stamps) {
        assert_eq!(rt; link.stamp, *stamp);
    }
}

// The values and the chains of the closed memory after these calls.
fn assert_chains(rt: &impl Abort, closed: &Closed) {
    assert_eq!(rt; closed.values.as_slice(), [11, 13].as_slice());
    let stamps = [[36, 33, 24, 18].as_slice(), [42, 30, 21].as_slice()];
    for (chain, expected) in closed.chains.iter().zip(stamps) {
        has_stamps(rt, chain.as_slice(), expected);
    }
}

// Closes the memory after these calls.
fn closed_behind(rt: &impl Abort, alloc: Global) -> Result<Closed, Fail> {
    let sizes = Sizes::new(2, 4, 8, 64)?;
    let (memory, mut first, second) = pair(alloc, sizes, &[10, 20])?;
    drop(second);
    between_scans(rt, &memory, &mut first);
    Ok(memory.close(alloc, first, Vec::new(alloc))?)
}

// The stamps and the chains are those of the steps by hand: a record takes 3 pool words, an announcement of two
// positions 3, and an overtaken conditional update none.
#[test]
fn updates_between_scans(rt: HostRuntime) -> Result<(), Fail> {
    let closed = closed_behind(&rt, rt.alloc())?;
    assert_chains(&rt, &closed);
    drop(closed);
    Ok(())
}
