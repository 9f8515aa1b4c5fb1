//! Pipelines on threads, judged from outside.

mod examples;
mod growths;
mod pipelines;

use partial_pipeline::{Options, Pipeline, PipelineReport};
use std::process::Abort;

/// A pipeline over arenas of the default size.
fn sized(stages: u32, items: u64, looks: usize) -> Pipeline {
    Pipeline {
        stages,
        items,
        looks,
        options: Options::default(),
    }
}

/// Whether no count is greater than the one before it.
fn is_ordered(counts: &[u64]) -> bool {
    let mut most = u64::MAX;
    for count in counts {
        if *count > most {
            return false;
        }
        most = *count;
    }
    true
}

/// Whether no count is less than it was.
fn has_risen(before: &[u64], after: &[u64]) -> bool {
    before.len() == after.len() && before.iter().zip(after.iter()).all(|(b, a)| b <= a)
}

/// A scan has an ordered count for each stage, and no count has fallen since the scan before it.
fn judge_scan(rt: &impl Abort, before: &[u64], scan: &[u64], stages: usize) {
    assert!(rt;
        scan.len() == stages && is_ordered(scan),
        "a scan isn't ordered"
    );
    assert!(rt;
        before.is_empty() || has_risen(before, scan),
        "a count fell"
    );
}

/// At the end there is an ordered count for each stage, none of them is past the items, and the last scan gives these
/// counts.
fn judge_end(rt: &impl Abort, report: &PipelineReport, stages: usize, items: u64) {
    let counts = report.counts.as_slice();
    assert!(rt; counts.len() == stages && is_ordered(counts));
    assert!(rt; counts.iter().all(|count| *count <= items));
    assert!(rt; report.ends.len() == stages);
    if let Some(last) = &report.last {
        assert!(rt; last == &report.counts, "the last scan isn't the end");
    }
}

/// In each scan and at the end there is an ordered count for each stage, no count has fallen, none is past
/// the items, and the last scan gives the counts of the closed memory.
fn judge(rt: &impl Abort, report: &PipelineReport, stages: usize, items: u64) {
    let mut before: &[u64] = &[];
    for scan in report.scans.iter().chain(report.last.iter()) {
        judge_scan(rt, before, scan, stages);
        before = scan.as_slice();
    }
    assert!(rt; before.is_empty() || has_risen(before, report.counts.as_slice()));
    judge_end(rt, report, stages, items);
}
