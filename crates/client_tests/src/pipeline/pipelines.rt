//! Pipelines of one stage up to as many as there may be.

use super::{judge, sized};
use partial_pipeline::{
    NoWatch, NoWork, Options, Pipeline, PipelineError, PipelineReport, StageEnd, Watch, Work,
    run_pipeline,
};
use std::alloc::Global;
use std::process::Abort;
use std::sync::Wait;
use std::sync::atomic::{AtomicU64, Ordering};
use std::test::Fail;
use std::thread;
use std::thread::Threads;

/// Work that counts its calls, and adds up their items.
#[derive(Drop)]
struct Counted {
    calls: AtomicU64,
    items: AtomicU64,
}

impl Work for Counted {
    fn work(&self, _stage: u32, item: u64) {
        self.calls.fetch_add(1, Ordering::SeqCst);
        self.items.fetch_add(item, Ordering::SeqCst);
    }
}

/// A watch that counts what it sees, and lets the stages run in between.
#[derive(Drop)]
struct Seen {
    scans: usize,
}

impl Watch for Seen {
    fn see(&mut self, _counts: &[u64]) {
        self.scans = self.scans.wrapping_add(1);
        thread::yield_now();
    }
}

/// Runs a pipeline without work.
fn ran<R: Threads + Wait + Sync>(
    rt: &R,
    alloc: Global,
    pipeline: Pipeline,
) -> Result<PipelineReport, PipelineError> {
    run_pipeline(rt, alloc, pipeline, &NoWork, &mut NoWatch)
}

/// Each stage has worked on all items, and the last scan was made.
fn judge_whole(rt: &impl Abort, report: &PipelineReport, stages: usize, items: u64) {
    judge(rt, report, stages, items);
    assert!(rt; report.last.is_some());
    assert!(rt; report.counts.iter().all(|count| *count == items));
    assert!(rt; report.ends.iter().all(|end| *end == StageEnd::Finished));
}

#[test]
fn stages_reach_all_items(rt: HostRuntime) -> Result<(), Fail> {
    for (stages, items) in [(1, 3_000u64), (2, 3_000), (8, 2_000), (63, 100)] {
        let report = ran(&rt, rt.alloc(), sized(stages, items, 50))?;
        judge_whole(&rt, &report, stages as usize, items);
        drop(report);
    }
    Ok(())
}

#[test]
fn no_items_are_no_work(rt: HostRuntime) -> Result<(), Fail> {
    let report = ran(&rt, rt.alloc(), sized(2, 0, 50))?;
    judge(&rt, &report, 2, 0);
    assert_eq!(rt; report.counts.as_slice(), [0, 0].as_slice());
    drop(report);
    Ok(())
}

// Each of five stages has worked on the items from 1 to 1,000.
fn has_worked(rt: &impl Abort, work: &Counted) {
    assert_eq!(rt; work.calls.load(Ordering::SeqCst), 5 * 1_000);
    assert_eq!(rt; work.items.load(Ordering::SeqCst), 5 * 500_500);
}

#[test]
fn each_stage_works_on_each_item(rt: HostRuntime) -> Result<(), Fail> {
    let work = Counted {
        calls: AtomicU64::new(0),
        items: AtomicU64::new(0),
    };
    let mut seen = Seen { scans: 0 };
    let report = run_pipeline(&rt, rt.alloc(), sized(5, 1_000, 100), &work, &mut seen)?;
    judge(&rt, &report, 5, 1_000);
    assert_eq!(rt; seen.scans, report.scans.len());
    drop(report);
    has_worked(&rt, &work);
    Ok(())
}

// Over the smallest arenas a port is spent in its epoch as soon as it has made a claim, so no port updates twice in one
// epoch.
#[test]
fn stages_reach_all_items_over_many_epochs(rt: HostRuntime) -> Result<(), Fail> {
    let work = Counted {
        calls: AtomicU64::new(0),
        items: AtomicU64::new(0),
    };
    for (stages, items) in [(1, 5_000u64), (3, 3_000), (8, 500)] {
        let smallest = Pipeline {
            stages,
            items,
            looks: 200,
            options: Options {
                lists: 0,
                pool: Some(0),
                announce: None,
            },
        };
        let report = run_pipeline(&rt, rt.alloc(), smallest, &work, &mut NoWatch)?;
        judge_whole(&rt, &report, stages as usize, items);
        drop(report);
    }
    assert_eq!(rt;
        work.calls.load(Ordering::SeqCst),
        5_000 + 3 * 3_000 + 8 * 500
    );
    Ok(())
}

#[test]
fn without_looks_the_last_scan_is_made(rt: HostRuntime) -> Result<(), Fail> {
    let report = ran(&rt, rt.alloc(), sized(3, 200, 0))?;
    judge(&rt, &report, 3, 200);
    assert!(rt; report.scans.is_empty());
    let last = report.last.as_ref().map(|last| last.as_slice());
    assert_eq!(rt; last, Some([200, 200, 200].as_slice()));
    drop(report);
    Ok(())
}

#[test]
fn stages_are_refused(rt: HostRuntime) -> Result<(), Fail> {
    for stages in [0, 64, 65, u32::MAX] {
        let refused = ran(&rt, rt.alloc(), sized(stages, 10, 50));
        assert_eq!(rt; refused.err(), Some(PipelineError::Stages));
    }
    assert_eq!(rt; PipelineError::Stages.code(), 5);
    assert_eq!(rt; PipelineError::Lists.code(), 3);
    assert_eq!(rt; PipelineError::Pool.code(), 4);
    assert_eq!(rt; PipelineError::OutOfMemory.code(), 6);
    Ok(())
}

#[test]
fn options_are_refused(rt: HostRuntime) -> Result<(), Fail> {
    let mut pipeline = sized(2, 10, 50);
    pipeline.options.lists = 65_537;
    assert_eq!(rt;
        ran(&rt, rt.alloc(), pipeline).err(),
        Some(PipelineError::Lists)
    );
    // With 2 stages and 3 ports the pool has 30 words more than the options ask for.
    pipeline.options = Options {
        lists: 0,
        pool: Some(4_194_275),
        announce: None,
    };
    assert_eq!(rt;
        ran(&rt, rt.alloc(), pipeline).err(),
        Some(PipelineError::Pool)
    );
    Ok(())
}
