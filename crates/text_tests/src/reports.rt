//! The text of a report or of two, and writers that stop within it.

use crate::texts::judge_text;
use crate::writers::{Sink, judge_stop};
use partial_model::{Answer, Refused, Sequence};
use partial_text::{Device, OutcomeError, RunReport, write_report, write_reports};
use std::alloc::{AllocError, Global};
use std::process::Abort;
use std::test::Fail;

// Texts are results of functions, whose contents no proof of a test has to know.
fn row() -> &'static [u8] {
    b"call 0 0 applied 24\ncall 0 1 read 7 24\nvalues 7 20\n"
}

/// The text of one report and, after it, that of another.
fn rows() -> &'static [u8] {
    b"call 0 0 applied 24\ncall 0 1 read 7 24\nvalues 7 20\ncall 0 0 changed 24\ncall 1 0 applied 27\nvalues 7 9\n"
}

fn write_then_read(alloc: Global) -> Result<RunReport, AllocError> {
    let seen = Answer::Read {
        value: 7,
        stamp: 24,
    };
    Ok(RunReport {
        answers: vec![in alloc; vec![in alloc; Answer::Applied { stamp: 24 }, seen]?]?,
        values: vec![in alloc; 7, 20]?,
    })
}

/// A report of two ports that came after the other one's.
fn changed_then_applied(alloc: Global) -> Result<RunReport, AllocError> {
    let first = vec![in alloc; Answer::Changed { by: 24 }]?;
    let last = vec![in alloc; Answer::Applied { stamp: 27 }]?;
    Ok(RunReport {
        answers: vec![in alloc; first, last]?,
        values: vec![in alloc; 7, 9]?,
    })
}

fn scanned(values: Vec<u64>, collects: u32, borrowed: Option<u64>) -> Answer {
    Answer::Scanned {
        values: Sequence::from(values),
        collects,
        borrowed,
    }
}

/// Answers of a lost update and of each form of scan.
fn first_answers(alloc: Global) -> Result<Vec<Answer>, AllocError> {
    Ok(vec![in alloc;
        Answer::Lost { by: 27 },
        scanned(vec![in alloc; 10, 10, u64::MAX]?, 2, None),
        scanned(vec![in alloc; 5]?, 3, Some(32)),
        scanned(Vec::new(alloc), 0, None),
    ]?)
}

/// Answers of the other forms.
fn last_answers(alloc: Global) -> Result<Vec<Answer>, AllocError> {
    Ok(vec![in alloc;
        Answer::Refused {
            cause: Refused::Component
        },
        Answer::Refused {
            cause: Refused::SlotsSpent
        },
        Answer::Refused {
            cause: Refused::PoolSpent
        },
        Answer::Changed { by: 24 },
        Answer::Read {
            value: 0,
            stamp: u64::MAX
        },
        Answer::Applied { stamp: 32 },
    ]?)
}

/// Calls of three ports with each form of answer, the second port with none.
pub(crate) fn each_answer(alloc: Global) -> Result<RunReport, AllocError> {
    let first = first_answers(alloc)?;
    let last = last_answers(alloc)?;
    Ok(RunReport {
        answers: vec![in alloc; first, Vec::new(alloc), last]?,
        values: vec![in alloc; 6, u64::MAX]?,
    })
}

fn full_text(alloc: Global, report: &RunReport) -> Result<Vec<u8>, Fail> {
    let mut device = Device::new(Vec::new(alloc));
    write_report(alloc, report, &mut device)?;
    Ok(device.into_inner())
}

/// Judges the text of the report.
fn judge_report(
    rt: &impl Abort,
    alloc: Global,
    report: &RunReport,
    expected: &[u8],
) -> Result<(), Fail> {
    let text = full_text(alloc, report)?;
    judge_text(rt, &text, expected);
    Ok(())
}

fn text_of_each_answer() -> &'static [u8] {
    b"call 0 0 lost 27
call 0 1 scanned 10 10 18446744073709551615 collects 2 borrowed -
call 0 2 scanned 5 collects 3 borrowed 32
call 0 3 scanned collects 0 borrowed -
call 2 0 refused 7
call 2 1 refused 8
call 2 2 refused 9
call 2 3 changed 24
call 2 4 read 0 18446744073709551615
call 2 5 applied 32
values 6 18446744073709551615
"
}

#[test]
fn each_answer_is_reported(rt: HostRuntime) -> Result<(), Fail> {
    let report = each_answer(rt.alloc())?;
    judge_report(&rt, rt.alloc(), &report, text_of_each_answer())
}

/// Judges the texts of two reports.
fn judge_reports(
    rt: &impl Abort,
    alloc: Global,
    first: &RunReport,
    second: &RunReport,
) -> Result<(), OutcomeError> {
    let mut device = Device::new(Vec::new(alloc));
    write_reports(alloc, first, second, &mut device)?;
    assert!(rt; !device.failed());
    let text = device.into_inner();
    judge_text(rt, &text, rows());
    Ok(())
}

#[test]
fn two_reports_are_written(rt: HostRuntime) -> Result<(), Fail> {
    let first = write_then_read(rt.alloc())?;
    let second = changed_then_applied(rt.alloc())?;
    judge_reports(&rt, rt.alloc(), &first, &second)?;
    Ok(())
}

/// Judges writers that stop within the texts of two reports.
fn judge_stops_of_two(rt: &impl Abort, alloc: Global, first: &RunReport, second: &RunReport) {
    let one = row().len();
    let rows = rows();
    for room in [0, 10, one, one + 10, rows.len().saturating_sub(1)] {
        for (step, takes_none) in [(1, false), (7, true), (1000, false)] {
            let mut device = Device::new(Sink::new(alloc, step, room, takes_none));
            let given = write_reports(alloc, first, second, &mut device);
            judge_stop(rt, given, device, rows, room);
        }
    }
}

#[test]
fn each_stop_of_two_reports(rt: HostRuntime) -> Result<(), Fail> {
    let first = write_then_read(rt.alloc())?;
    let second = changed_then_applied(rt.alloc())?;
    judge_stops_of_two(&rt, rt.alloc(), &first, &second);
    Ok(())
}
