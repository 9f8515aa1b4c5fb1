//! What a closed memory says of the runs of many threads: every applied update stands in the chain of
//! its component once, in the order of its caller.

ghost use Rattle.std.specs.Prelude.{◌≡◌, All, IfOk, IfSome, OnOk};
ghost use Rattle.std.specs.List.{AllByRecursion};
ghost use Rattle.partial_memory.specs.Ports.{IsOf};

use super::memories::{add, taken};
use super::workers::{Told, Worker};
use partial_memory::{Closed, Memory, Port};
use partial_words::Link;
use std::alloc::{AllocError, Global};
use std::process::Abort;
use std::test::Fail;

// Adds the ports of a worker to those of the others.
fn part_ports(
    memory: &Memory,
    port: Port,
    other: Option<Port>,
    ports: &mut Vec<Port>,
) -> Result<(), AllocError>
    requires own { IsOf memory.now port × IfSome other (IsOf memory.now) }
    requires ports { AllByRecursion (IsOf memory.now) ports.old.items }
    ensures { OnOk result (AllByRecursion (IsOf memory.now) ports.new.items) }
{
    let added = add(memory, ports, port);
    if let Some(other) = other {
        add(memory, ports, other)?;
    }
    added
}

// Adds the ports of a worker and what it was answered to those of the others.
fn part(
    memory: &Memory,
    worker: Worker,
    ports: &mut Vec<Port>,
    all: &mut Vec<Told>,
) -> Result<(), AllocError>
    requires own { IsOf memory.now worker.port × IfSome worker.other (IsOf memory.now) }
    requires ports { AllByRecursion (IsOf memory.now) ports.old.items }
    ensures { OnOk result (AllByRecursion (IsOf memory.now) ports.new.items) }
{
    let Worker {
        port,
        other,
        told,
        ..
    } = worker;
    let parted = part_ports(memory, port, other, ports);
    all.push(told)?;
    parted
}

// The ports of all workers and what they were answered, the last worker's first.
fn parted(
    alloc: Global,
    memory: &Memory,
    mut workers: Vec<Worker>,
) -> Result<(Vec<Port>, Vec<Told>), AllocError>
    requires { All (λ w. IsOf memory.now w.port × IfSome w.other (IsOf memory.now)) workers.items }
    ensures { IfOk result (λ r. AllByRecursion (IsOf memory.now) r.0.items) }
{
    let mut ports = Vec::new(alloc);
    let mut all = Vec::with_capacity(alloc, workers.len())?;
    while let Some(worker) = workers.pop() {
        part(memory, worker, &mut ports, &mut all)?;
    }
    Ok((ports, all))
}

// Closes the memory with these ports, of which the last one is the first to be handed in.
fn closed_with(alloc: Global, memory: Memory, mut ports: Vec<Port>) -> Result<Closed, Fail>
    requires { AllByRecursion (IsOf memory) ports.items }
{
    let first = taken(&memory, &mut ports)?;
    Ok(memory.close(alloc, first, ports)?)
}

/// Closes the memory with all its ports. What its workers were answered comes back, the last worker's first.
pub fn closed(
    alloc: Global,
    memory: Memory,
    workers: Vec<Worker>,
) -> Result<(Closed, Vec<Told>), Fail>
    requires { All (λ w. IsOf memory w.port × IfSome w.other (IsOf memory)) workers.items }
{
    let (ports, all) = parted(alloc, &memory, workers)?;
    let closed = closed_with(alloc, memory, ports)?;
    Ok((closed, all))
}

/// Whether these stamps are in the chain, in this order from the oldest on.
fn has_in_order(chain: &[Link], stamps: &[u64]) -> bool {
    let mut stamps = stamps.iter();
    let mut next = stamps.next();
    for link in chain.iter().rev() {
        if next == Some(&link.stamp) {
            next = stamps.next();
        }
    }
    next.is_none()
}

/// Each worker's updates of the component stand in its chain in their order, and each worker's port has read its first link
/// when all had ended. The number of these updates is returned.
fn judge_workers(rt: &impl Abort, component: u32, chain: &[Link], all: &[Told]) -> usize {
    let newest = chain.first().map(|link| (link.value, link.stamp));
    let mut applied = 0usize;
    for told in all {
        assert_eq!(rt; told.seen.get(component as usize), Some(&newest));
        let stamps = told.to_component(component);
        assert!(rt; has_in_order(chain, stamps), "component {component}");
        applied = applied.saturating_add(stamps.len());
    }
    applied
}

/// The chain has nothing else but the initial record, and its first link has the component's value.
fn judge_chain(rt: &impl Abort, component: u32, chain: &[Link], value: Option<&u64>, all: &[Told]) {
    let applied = judge_workers(rt, component, chain, all);
    assert_eq!(rt; chain.len(), applied.saturating_add(1));
    let newest = chain.first().map(|link| link.value);
    assert_eq!(rt; newest.as_ref(), value);
    assert_eq!(rt; chain.last().map(|link| link.value), Some(0));
}

/// The chain of a component has what the workers applied, each update once and in its caller's order,
/// after the initial record. Its first link has the component's value, which each worker's port has read
/// with its stamp when all had ended.
pub fn judge_chains(rt: &impl Abort, closed: &Closed, all: &[Told]) {
    assert_eq!(rt; (closed.values.len(), closed.chains.len()), (2, 2));
    for component in 0..2 {
        let Some(chain) = closed.chains.get(component as usize) else {
            panic!(rt; "no chain");
        };
        let value = closed.values.get(component as usize);
        judge_chain(rt, component, chain.as_slice(), value, all);
    }
}
