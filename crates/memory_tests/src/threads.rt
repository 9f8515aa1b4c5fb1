//! Runs of many threads, judged from outside.

ghost use Rattle.std.specs.Prelude.{◌≡◌, ◌<◌, ◌≤◌, length, All, IfSome};
ghost use Rattle.partial_memory.specs.Ports.{IsOf};

use super::closings::{closed, judge_chains};
use super::memories::opened;
use super::workers::{Job, Told, Worker, hire, look, run};
use partial_memory::{Closed, Memory};
use partial_model::Refused;
use partial_words::Sizes;
use std::alloc::{AllocError, Global};
use std::process::Abort;
use std::test::Fail;
use std::thread::Threads;

const FIRST: Job = Job::Update { component: 0 };

const SECOND: Job = Job::Update { component: 1 };

/// Lets the workers work, and then read both components.
fn work_and_look<R: Threads + Sync>(rt: &R, memory: &Memory, workers: &mut [Worker])
    requires all { All (λ w. IsOf memory.now w.port × IfSome w.other (IsOf memory.now)) workers.old }
    requires wide { 2 ≤ memory.now.about.sizes.m }
    ensures { All (λ w. IsOf memory.now w.port × IfSome w.other (IsOf memory.now)) workers.new }
{
    run(rt, memory, workers);
    look(rt, memory, workers);
}

/// Opens a memory of two zeros, lets its ports do these jobs in turn, each as often as that, and closes
/// it with all of them.
fn closed_behind<R: Threads + Sync + Abort>(
    rt: &R,
    alloc: Global,
    sizes: Sizes,
    ports: u32,
    jobs: &[(Job, u64)],
) -> Result<(Closed, Vec<Told>), Fail>
    requires two { sizes.m ≡ 2 }
    requires some { 0 < length jobs.now }
{
    let (memory, ports) = opened(alloc, sizes, &[0, 0], ports)?;
    let mut workers = hire(alloc, &memory, ports, jobs)?;
    work_and_look(rt, &memory, workers.as_mut_slice());
    closed(alloc, memory, workers)
}

/// The same, and what each worker was answered is judged, and so are the chains.
fn worked<R: Threads + Sync + Abort>(
    rt: &R,
    alloc: Global,
    sizes: Sizes,
    ports: u32,
    jobs: &[(Job, u64)],
) -> Result<(Closed, Vec<Told>), Fail>
    requires two { sizes.m ≡ 2 }
    requires some { 0 < length jobs.now }
{
    let (closed, all) = closed_behind(rt, alloc, sizes, ports, jobs)?;
    judge(rt, alloc, &all)?;
    judge_chains(rt, &closed, &all);
    Ok((closed, all))
}

/// The stamps of all applied updates, in their order.
fn applied_stamps(alloc: Global, all: &[Told]) -> Result<Vec<u64>, AllocError> {
    let mut stamps = Vec::new(alloc);
    for told in all {
        stamps.extend_from_slice(told.applied.as_slice())?;
        stamps.extend_from_slice(told.counted.as_slice())?;
    }
    stamps.sort()?;
    Ok(stamps)
}

/// No two updates were applied with one stamp.
fn judge_stamps(rt: &impl Abort, stamps: &[u64]) {
    let mut past = 0;
    for stamp in stamps {
        assert!(rt; past < *stamp, "{stamp} was applied twice");
        past = *stamp;
    }
}

/// Each lost or changed update of the worker names one that another worker applied.
fn judge_named(rt: &impl Abort, stamps: &[u64], told: &Told) {
    for stamp in told.named.iter() {
        assert!(rt;
            stamps.binary_search(stamp).is_ok(),
            "{stamp} wasn't applied"
        );
        let own = told.applied.contains(stamp) || told.counted.contains(stamp);
        assert!(rt; !own, "{stamp} is its own");
    }
}

/// Each scan of the worker made 2 to 4 collects.
fn judge_scans(rt: &impl Abort, told: &Told) {
    for scanned in told.scans.iter() {
        let few = 2 <= scanned.collects && scanned.collects <= 4;
        assert!(rt; few, "{} collects", scanned.collects);
    }
}

/// Both, and no value fell that only rises.
fn judge_told(rt: &impl Abort, stamps: &[u64], told: &Told) -> Result<(), AllocError> {
    told.ended?;
    assert!(rt; !told.fell, "a value fell");
    judge_named(rt, stamps, told);
    judge_scans(rt, told);
    Ok(())
}

/// No two updates of all workers were applied with one stamp, and each worker is judged.
fn judge_all(rt: &impl Abort, stamps: &[u64], all: &[Told]) -> Result<(), AllocError> {
    judge_stamps(rt, stamps);
    for told in all {
        judge_told(rt, stamps, told)?;
    }
    Ok(())
}

/// The same with the stamps of all applied updates.
fn judge(rt: &impl Abort, alloc: Global, all: &[Told]) -> Result<(), AllocError> {
    let stamps = applied_stamps(alloc, all)?;
    let judged = judge_all(rt, &stamps, all);
    drop(stamps);
    judged
}

/// Component 0 was only counted with: its value is the number of its entries.
fn judge_count(rt: &impl Abort, closed: &Closed) {
    let counted = closed.chains.first().map(|chain| chain.len() as u64);
    let value = closed.values.first().map(|value| value.saturating_add(1));
    assert_eq!(rt; value, counted);
}

fn refused_in_all(all: &[Told], cause: Refused) -> usize {
    all.iter().fold(0usize, |sum, told| sum.saturating_add(told.refusals(cause)))
}

/// Each of these updates was applied or names one that was.
fn each_ends(rt: &impl Abort, all: &[Told]) {
    for told in all {
        assert_eq!(rt; told.applied.len().saturating_add(told.named.len()), 100);
    }
}

#[test]
fn two_ports_at_one_component(rt: HostRuntime) -> Result<(), Fail> {
    let sizes = Sizes::new(2, 4, 8, 4096)?;
    let (closed, all) = worked(&rt, rt.alloc(), sizes, 2, &[(FIRST, 100)])?;
    each_ends(&rt, &all);
    drop((closed, all));
    Ok(())
}

/// Each component was set to 1, 2, 3 and so on to 100.
fn rises_to_hundred(rt: &impl Abort, closed: &Closed) {
    for chain in closed.chains.iter() {
        assert_eq!(rt; chain.len(), 101);
        let mut value = 100;
        for link in chain.iter() {
            assert_eq!(rt; link.value, value);
            value = value.saturating_sub(1);
        }
    }
}

#[test]
fn two_writers(rt: HostRuntime) -> Result<(), Fail> {
    let sizes = Sizes::new(2, 4, 8, 4096)?;
    let jobs = [(FIRST, 100), (SECOND, 100)];
    let (closed, all) = worked(&rt, rt.alloc(), sizes, 2, &jobs)?;
    rises_to_hundred(&rt, &closed);
    drop((closed, all));
    Ok(())
}

/// No call was refused, and both components are 100.
fn write_and_scan(rt: &impl Abort, closed: &Closed, all: &[Told]) {
    for told in all {
        assert!(rt; told.refused.is_empty());
        assert!(rt; told.applied.len() == 100 || told.scans.len() == 50);
    }
    assert_eq!(rt; closed.values.as_slice(), [100, 100].as_slice());
}

#[test]
fn a_scanner_beside_two_writers(rt: HostRuntime) -> Result<(), Fail> {
    let sizes = Sizes::new(2, 64, 8, 4096)?;
    let jobs = [(FIRST, 100), (SECOND, 100), (Job::ScanTwo, 50)];
    let (closed, all) = worked(&rt, rt.alloc(), sizes, 3, &jobs)?;
    write_and_scan(&rt, &closed, &all);
    drop((closed, all));
    Ok(())
}

/// Each component has the number of its own updates, and their sum is returned.
fn count_applied(rt: &impl Abort, closed: &Closed, all: &[Told]) -> u64 {
    let mut sum = 0u64;
    for (told, value) in all.iter().rev().zip(closed.values.iter()) {
        assert!(rt; told.pool_spent);
        assert_eq!(rt; told.applied.len() as u64, *value);
        sum = sum.saturating_add(*value);
    }
    sum
}

/// Ten updates were applied.
fn apply_ten(rt: &impl Abort, closed: &Closed, all: &[Told]) {
    assert_eq!(rt; refused_in_all(all, Refused::PoolSpent), 30);
    assert_eq!(rt; count_applied(rt, closed, all), 10);
}

#[test]
fn ten_applied_of_forty(rt: HostRuntime) -> Result<(), Fail> {
    let sizes = Sizes::new(2, 1, 0, 36)?;
    let jobs = [(FIRST, 20), (SECOND, 20)];
    let (closed, all) = worked(&rt, rt.alloc(), sizes, 2, &jobs)?;
    apply_ten(&rt, &closed, &all);
    drop((closed, all));
    Ok(())
}

/// Five scans were answered, and the others were refused for the slots.
fn scan_five_times(rt: &impl Abort, all: &[Told]) {
    assert_eq!(rt; refused_in_all(all, Refused::SlotsSpent), 15);
    let mut answered = 0usize;
    for told in all {
        assert!(rt; told.slots_spent);
        answered = answered.saturating_add(told.scans.len());
    }
    assert_eq!(rt; answered, 5);
}

/// Both components have their initial records. After two components, four counters and five slots these take three
/// words each.
fn has_initial_records(rt: &impl Abort, closed: &Closed) {
    assert_eq!(rt; closed.values.as_slice(), [0, 0].as_slice());
    let mut stamp = 11;
    for chain in closed.chains.iter() {
        assert_eq!(rt; chain.len(), 1);
        for link in chain.iter() {
            assert_eq!(rt; link.stamp, stamp);
        }
        stamp = 14;
    }
}

#[test]
fn five_scans_of_twenty(rt: HostRuntime) -> Result<(), Fail> {
    let sizes = Sizes::new(2, 5, 0, 256)?;
    let (closed, all) = worked(&rt, rt.alloc(), sizes, 2, &[(Job::ScanOne, 10)])?;
    scan_five_times(&rt, &all);
    has_initial_records(&rt, &closed);
    drop((closed, all));
    Ok(())
}

/// Each of these conditional updates was applied or names an update.
fn each_counts(rt: &impl Abort, all: &[Told]) {
    for told in all {
        assert_eq!(rt; told.counted.len().saturating_add(told.named.len()), 100);
    }
}

#[test]
fn conditional_updates_count(rt: HostRuntime) -> Result<(), Fail> {
    let sizes = Sizes::new(2, 4, 8, 4096)?;
    let (closed, all) = worked(&rt, rt.alloc(), sizes, 2, &[(Job::Count, 100)])?;
    each_counts(&rt, &all);
    judge_count(&rt, &closed);
    drop((closed, all));
    Ok(())
}

/// Of each turn of this worker the conditional update, the update and the scan were answered or refused, each refusal
/// was one for the pool or for the slots, and its port has the marks of the causes that came.
fn judge_refusals(rt: &impl Abort, told: &Told, turns: usize) {
    let pool = told.refusals(Refused::PoolSpent);
    let slots = told.refusals(Refused::SlotsSpent);
    assert_eq!(rt; told.refused.len(), pool.saturating_add(slots));
    assert_eq!(rt; told.pool_spent, pool > 0);
    assert_eq!(rt; told.slots_spent, slots > 0);
    assert!(rt; told.scans.len().saturating_add(slots) <= turns);
    let updates = told.applied.len().saturating_add(told.counted.len());
    let answered = updates
        .saturating_add(told.named.len())
        .saturating_add(told.scans.len());
    assert_eq!(rt;
        answered.saturating_add(told.refused.len()),
        turns.saturating_mul(3)
    );
}

/// Some calls were refused for the pool, some for the slots, and none for another cause.
fn spend_both(rt: &impl Abort, all: &[Told], turns: usize) {
    for told in all {
        judge_refusals(rt, told, turns);
    }
    assert!(rt; refused_in_all(all, Refused::PoolSpent) > 0);
    assert!(rt; refused_in_all(all, Refused::SlotsSpent) > 0);
}

// The pool and the slots are spent in the middle.
#[test]
fn eight_ports(rt: HostRuntime) -> Result<(), Fail> {
    let sizes = Sizes::new(2, 64, 64, 4096)?;
    let (closed, all) = worked(&rt, rt.alloc(), sizes, 8, &[(Job::Mix, 200)])?;
    spend_both(&rt, &all, 200);
    judge_count(&rt, &closed);
    drop((closed, all));
    Ok(())
}

/// No call was refused, and each worker made so many scans.
fn each_scans(rt: &impl Abort, all: &[Told], scans: usize) {
    for told in all {
        assert!(rt; told.refused.is_empty());
        assert_eq!(rt; told.scans.len(), scans);
    }
}

#[test]
fn sixty_four_ports(rt: HostRuntime) -> Result<(), Fail> {
    let sizes = Sizes::new(2, 2048, 1024, 1_000_000)?;
    let (closed, all) = worked(&rt, rt.alloc(), sizes, 64, &[(Job::Mix, 20)])?;
    each_scans(&rt, &all, 20);
    judge_count(&rt, &closed);
    drop((closed, all));
    Ok(())
}

/// There are four workers, which made each scan.
fn four_scan(rt: &impl Abort, all: &[Told]) {
    assert_eq!(rt; all.len(), 4);
    each_scans(rt, all, 100);
}

// All five calls: each of four workers has two ports, which meet after each turn.
#[test]
fn four_pairs_that_meet(rt: HostRuntime) -> Result<(), Fail> {
    let sizes = Sizes::new(2, 512, 512, 200_000)?;
    let (closed, all) = worked(&rt, rt.alloc(), sizes, 8, &[(Job::Meet, 50)])?;
    four_scan(&rt, &all);
    judge_count(&rt, &closed);
    drop((closed, all));
    Ok(())
}
