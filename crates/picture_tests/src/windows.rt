//! Windows, and what is refused.

use super::examples::{borrowed_view_plan, count, drawn, lost_exchange_plan};
use partial_picture::{Fault, Form, PictureError, Window, draw};
use partial_replay::{Cause, Device, OutcomeError, PlanError, ReplayError};
use std::alloc::{AllocError, Global};
use std::io;
use std::io::Write;
use std::process::Abort;
use std::test::Fail;

const DRAWING: Form = Form::Drawing { has_words: false };

/// The first step of a window and its last one, and how many steps, calls, entries and arrows are drawn in it.
type Counted = (usize, usize, usize, usize, usize, usize);

fn windows() -> [Counted; 5] {
    [
        (0, 22, 23, 2, 1, 0),
        (23, 46, 24, 2, 1, 1),
        (0, 40, 41, 3, 2, 0),
        (40, 41, 2, 2, 1, 1),
        (46, 46, 1, 1, 0, 0),
    ]
}

/// Judges how often the part stands in the drawing of a window.
fn judge_part(rt: &impl Abort, text: &str, part: &str, expected: usize, window: (usize, usize)) {
    let (first, last) = window;
    assert_eq!(rt; count(text, part), expected, "{first} {last}");
}

/// Judges what the drawing of a window shows.
fn judge_window(rt: &impl Abort, text: &str, counted: Counted) {
    let (first, last, marks, bars, entries, arrows) = counted;
    judge_part(rt, text, "<title>step ", marks, (first, last));
    judge_part(rt, text, "<title>call ", bars, (first, last));
    judge_part(rt, text, "<title>applied ", entries, (first, last));
    judge_part(rt, text, "<title>stamp ", arrows, (first, last));
}

// Only what stands in the window is drawn, and an arrow only with both ends.
#[test]
fn a_window_has_its_steps_alone(rt: HostRuntime) -> Result<(), Fail> {
    for counted in windows() {
        let (first, last, ..) = counted;
        let window = Window::Steps { first, last };
        let text = drawn(rt.alloc(), DRAWING, window, borrowed_view_plan())?;
        judge_window(&rt, &text, counted);
    }
    Ok(())
}

/// Why a window isn't drawn, and how much is written.
fn refused(alloc: Global, window: Window) -> (Option<Fault>, usize) {
    let mut plan = Device::new(lost_exchange_plan());
    let mut out = Device::new(Vec::new(alloc));
    let given = draw(alloc, DRAWING, window, &mut plan, &mut out);
    (given.err(), out.into_inner().len())
}

#[test]
fn refused_windows(rt: HostRuntime) -> Result<(), Fail> {
    for (first, last) in [(1, 0), (16, 16), (0, 16), (0, usize::MAX)] {
        let (fault, written) = refused(rt.alloc(), Window::Steps { first, last });
        let wanted = Fault::Picture(PictureError::Window { steps: 16 });
        assert_eq!(rt; fault, Some(wanted), "{first} {last}");
        assert_eq!(rt; written, 0);
    }
    Ok(())
}

// Faults, their numbers and their words.
fn numbered() -> [(Fault, u8, &'static str); 7] {
    let line = PlanError::Line {
        line: 3,
        cause: Cause::Word,
    };
    [
        (Fault::Plan(PlanError::Ports), 5, "ports out of range"),
        (Fault::Plan(line), 10, "line 3: word"),
        (Fault::Replay(ReplayError::OutOfMemory), 6, "out of memory"),
        (
            Fault::Picture(PictureError::OutOfMemory),
            6,
            "out of memory",
        ),
        (
            Fault::Picture(PictureError::TooMany { steps: 2001 }),
            15,
            "2001 steps, of which at most 2000 are drawn: give --window A B",
        ),
        (
            Fault::Picture(PictureError::Window { steps: 16 }),
            16,
            "window out of range of 16 steps",
        ),
        (Fault::Text(OutcomeError::Write), 12, "write fault"),
    ]
}

/// Judges the number of a fault and its words.
fn judge_fault(
    rt: &impl Abort,
    alloc: Global,
    fault: Fault,
    code: u8,
    words: &str,
) -> Result<(), AllocError> {
    assert_eq!(rt; fault.code(), code);
    let text = format!(in alloc; "{fault}")?;
    assert_eq!(rt; text.as_str(), words);
    Ok(())
}

#[test]
fn numbers_of_refusals(rt: HostRuntime) -> Result<(), Fail> {
    for (fault, code, words) in numbered() {
        judge_fault(&rt, rt.alloc(), fault, code, words)?;
    }
    Ok(())
}

/// Takes so many bytes, and then fails.
#[derive(Drop)]
struct Filling {
    room: usize,
}

impl Write for Filling {
    fn write(&mut self, buf: &[u8]) -> io::Result<usize> {
        let count = buf.len().min(self.room);
        if count == 0 {
            return Err(io::Error::from(io::ErrorKind::Other));
        }
        self.room -= count;
        Ok(count)
    }

    fn flush(&mut self) -> io::Result<()> {
        Ok(())
    }
}

/// Why a drawing isn't written to a device with that room, and whether the device has failed.
fn unwritten(alloc: Global, room: usize) -> (Option<Fault>, bool) {
    let mut plan = Device::new(lost_exchange_plan());
    let mut out = Device::new(Filling { room });
    let given = draw(alloc, DRAWING, Window::Whole, &mut plan, &mut out);
    (given.err(), out.failed())
}

#[test]
fn failing_writer(rt: HostRuntime) -> Result<(), Fail> {
    for room in [0, 1, 1000] {
        let (fault, has_failed) = unwritten(rt.alloc(), room);
        assert_eq!(rt; fault, Some(Fault::Text(OutcomeError::Write)), "{room}");
        assert!(rt; has_failed);
    }
    Ok(())
}
