//! The examples of the document on the pipeline.

use partial_pipeline::{NoWatch, NoWork, Options, Pipeline, Watch, Work, run_pipeline};
use std::sync::atomic::{AtomicU64, Ordering};
use std::test::Fail;

#[test]
fn four_stages(rt: HostRuntime) -> Result<(), Fail> {
    let pipeline = Pipeline {
        stages: 4,
        items: 5_000,
        looks: 1_000,
        options: Options::default(),
    };
    let report = run_pipeline(&rt, rt.alloc(), pipeline, &NoWork, &mut NoWatch)?;
    for scan in report.scans.iter().chain(report.last.iter()) {
        assert!(rt; scan.len() == 4);
        assert!(rt;
            scan.iter()
                .zip(scan.iter().skip(1))
                .all(|(before, own)| own <= before)
        );
    }
    assert_eq!(rt;
        report.counts.as_slice(),
        [5_000, 5_000, 5_000, 5_000].as_slice()
    );
    Ok(())
}

/// Adds up the items that the last stage works on.
#[derive(Drop)]
struct Total {
    last: u32,
    sum: AtomicU64,
}

impl Work for Total {
    fn work(&self, stage: u32, item: u64) {
        if stage == self.last {
            self.sum.fetch_add(item, Ordering::SeqCst);
        }
    }
}

/// Keeps the greatest lag of the last stage: how many items fewer than the first one it had counted.
#[derive(Drop)]
struct Lag {
    most: u64,
}

impl Watch for Lag {
    fn see(&mut self, counts: &[u64]) {
        if let (Some(first), Some(last)) = (counts.first(), counts.last()) {
            self.most = self.most.max(first.saturating_sub(*last));
        }
    }
}

#[test]
fn work_and_watch(rt: HostRuntime) -> Result<(), Fail> {
    let total = Total {
        last: 2,
        sum: AtomicU64::new(0),
    };
    let mut lag = Lag { most: 0 };
    let pipeline = Pipeline {
        stages: 3,
        items: 100,
        looks: 1_000,
        options: Options::default(),
    };
    run_pipeline(&rt, rt.alloc(), pipeline, &total, &mut lag)?;
    assert_eq!(rt; total.sum.load(Ordering::SeqCst), 5_050);
    assert!(rt; lag.most <= 100);
    Ok(())
}
