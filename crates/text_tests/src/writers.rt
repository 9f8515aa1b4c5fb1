//! The text of an outcome, and writers that take little, nothing or fail.

use crate::texts::judge_text;
use partial_model::{Answer, Applied, Call, Called, Finish, Note, Opening, Refused, Sequence};
use partial_text::{Device, Outcome, OutcomeError, Replayed, write_outcome, write_replayed};
use partial_words::{PlainWords, Trace};
use std::alloc::{AllocError, Global};
use std::io;
use std::io::Write;
use std::process::Abort;
use std::test::Fail;

/// Takes at most so many bytes a write, and fails or takes none when it is full.
#[derive(Drop)]
pub(crate) struct Sink {
    taken: Vec<u8>,
    step: usize,
    room: usize,
    takes_none: bool,
}

impl Sink {
    /// Has taken nothing yet.
    pub(crate) fn new(alloc: Global, step: usize, room: usize, takes_none: bool) -> Sink {
        Sink {
            taken: Vec::new(alloc),
            step,
            room,
            takes_none,
        }
    }
}

impl Write for Sink {
    fn write(&mut self, buf: &[u8]) -> io::Result<usize> {
        let count = self.step.min(buf.len()).min(self.room);
        if count == 0 && !self.takes_none {
            return Err(io::Error::from(io::ErrorKind::Other));
        }
        self.taken.extend_from_slice(&buf[..count])?;
        self.room -= count;
        Ok(count)
    }

    fn flush(&mut self) -> io::Result<()> {
        Ok(())
    }
}

/// Judges that the sink has failed when it had taken as much of the text as it has room for.
pub(crate) fn judge_stop(
    rt: &impl Abort,
    given: Result<(), OutcomeError>,
    device: Device<Sink>,
    text: &[u8],
    room: usize,
) {
    assert_eq!(rt; given, Err(OutcomeError::Write), "room {room}");
    assert!(rt; device.failed());
    let sink = device.into_inner();
    assert_eq!(rt; Some(sink.taken.as_slice()), text.get(..room));
}

// Texts are results of functions, whose contents no proof of a test has to know.
fn row() -> &'static [u8] {
    b"applied 0 port 0 component 0 value 7 stamp 24
call 0 0 applied 24 place 0 steps 8 span 0 1
call 0 1 read 7 24 prefix 1 steps 2 span 1 1
values 7 20
total 10
"
}

fn finished(ended: usize, answer: Answer, note: Option<Note>) -> Option<Finish> {
    Some(Finish {
        ended,
        answer,
        note,
    })
}

fn called(port: u32, number: u32, began: usize, steps: u64, finish: Option<Finish>) -> Called {
    Called {
        port,
        number,
        call: Call::Read { component: 0 },
        began,
        steps,
        finish,
    }
}

/// Two components that hold 10 and 20, and the first stamp.
fn opening(alloc: Global) -> Result<Opening, AllocError> {
    Ok(Opening {
        values: Sequence::from(vec![in alloc; 10, 20]?),
        first: 18,
    })
}

/// The outcome of these calls.
fn outcome_of(
    alloc: Global,
    history: Vec<Applied>,
    calls: Vec<Called>,
    steps: u64,
) -> Result<Outcome, AllocError> {
    Ok(Outcome {
        opening: opening(alloc)?,
        history,
        calls,
        words: Vec::new(alloc),
        trace: Vec::new(alloc),
        steps,
    })
}

fn calls_of_write_then_read(alloc: Global) -> Result<Vec<Called>, AllocError> {
    let applied = Answer::Applied { stamp: 24 };
    let seen = Answer::Read {
        value: 7,
        stamp: 24,
    };
    Ok(vec![in alloc;
        called(0, 0, 0, 8, finished(1, applied, Some(Note::Wrote(0)))),
        called(0, 1, 1, 2, finished(1, seen, Some(Note::Saw(1)))),
    ]?)
}

fn write_then_read(alloc: Global) -> Result<Outcome, AllocError> {
    let history = vec![in alloc;
        Applied {
            port: 0,
            component: 0,
            value: 7,
            stamp: 24,
        },
    ]?;
    let calls = calls_of_write_then_read(alloc)?;
    outcome_of(alloc, history, calls, 10)
}

fn scanned(
    alloc: Global,
    values: &[u64],
    collects: u32,
    borrowed: Option<u64>,
) -> Result<Answer, AllocError> {
    Ok(Answer::Scanned {
        values: Sequence::from(Vec::from_slice(alloc, values)?),
        collects,
        borrowed,
    })
}

/// Adds the calls of a port: a lost update and each form of scan.
fn push_scans(alloc: Global, calls: &mut Vec<Called>) -> Result<(), AllocError> {
    let lost = Answer::Lost { by: 27 };
    calls.push(called(0, 0, 0, 8, finished(1, lost, Some(Note::Lost(0)))))?;
    let whole = scanned(alloc, &[10, 10, 20], 2, None)?;
    calls.push(called(0, 1, 0, 17, finished(0, whole, Some(Note::Saw(0)))))?;
    let borrowed = scanned(alloc, &[5], 3, Some(32))?;
    calls.push(called(0, 2, 0, 13, finished(2, borrowed, Some(Note::Saw(1)))))?;
    let nothing = scanned(alloc, &[], 0, None)?;
    calls.push(called(0, 3, 0, 0, finished(0, nothing, Some(Note::Saw(0)))))?;
    Ok(())
}

/// Adds the calls of two more ports: refused ones, one that changed nothing, and one that isn't finished.
fn push_others(calls: &mut Vec<Called>) -> Result<(), AllocError> {
    let refused = |cause: Refused| finished(1, Answer::Refused { cause }, None);
    calls.push(called(1, 0, 1, 0, refused(Refused::Component)))?;
    calls.push(called(1, 1, 1, 4, refused(Refused::SlotsSpent)))?;
    calls.push(called(1, 2, 1, 4, refused(Refused::PoolSpent)))?;
    let changed = Answer::Changed { by: 24 };
    calls.push(called(1, 3, 1, 1, finished(1, changed, Some(Note::Saw(1)))))?;
    calls.push(called(2, 0, 0, 4, None))?;
    Ok(())
}

/// Calls with each form of answer.
fn each_answer(alloc: Global) -> Result<Vec<Called>, AllocError> {
    let mut calls = Vec::new(alloc);
    push_scans(alloc, &mut calls)?;
    push_others(&mut calls)?;
    Ok(calls)
}

fn full_text(alloc: Global, outcome: &Outcome) -> Result<Vec<u8>, Fail> {
    let mut device = Device::new(Vec::new(alloc));
    write_outcome(alloc, outcome, &mut device)?;
    Ok(device.into_inner())
}

/// Judges the text of the outcome.
fn judge_outcome(
    rt: &impl Abort,
    alloc: Global,
    outcome: &Outcome,
    expected: &[u8],
) -> Result<(), Fail> {
    let text = full_text(alloc, outcome)?;
    judge_text(rt, &text, expected);
    Ok(())
}

/// A replay with these calls of its ports, and nothing else.
pub(crate) fn replay_of(
    alloc: Global,
    ports: Vec<Vec<Called>>,
    steps: u64,
) -> Result<Replayed, AllocError> {
    Ok(Replayed {
        opening: opening(alloc)?,
        history: Vec::new(alloc),
        calls: ports,
        words: PlainWords::from(Vec::new(alloc)),
        trace: Trace::new(alloc),
        steps,
    })
}

/// Each form of answer, in the calls of two ports that have a port without calls between them.
pub(crate) fn each_answer_by_port(alloc: Global) -> Result<Vec<Vec<Called>>, AllocError> {
    let mut first = Vec::new(alloc);
    push_scans(alloc, &mut first)?;
    let mut others = Vec::new(alloc);
    push_others(&mut others)?;
    Ok(vec![in alloc; first, Vec::new(alloc), others]?)
}

fn text_of_each_answer() -> &'static [u8] {
    b"call 0 0 lost 27 place 0 steps 8 span 0 1
call 0 1 scanned 10 10 20 prefix 0 collects 2 borrowed - steps 17 span 0 0
call 0 2 scanned 5 prefix 1 collects 3 borrowed 32 steps 13 span 0 2
call 0 3 scanned prefix 0 collects 0 borrowed - steps 0 span 0 0
call 1 0 refused 7 steps 0 span 1 1
call 1 1 refused 8 steps 4 span 1 1
call 1 2 refused 9 steps 4 span 1 1
call 1 3 changed 24 prefix 1 steps 1 span 1 1
call 2 0 unfinished steps 4 span 0 -
values 10 20
total 51
"
}

#[test]
fn each_answer_is_written(rt: HostRuntime) -> Result<(), Fail> {
    let calls = each_answer(rt.alloc())?;
    let outcome = outcome_of(rt.alloc(), Vec::new(rt.alloc()), calls, 51)?;
    judge_outcome(&rt, rt.alloc(), &outcome, text_of_each_answer())
}

#[test]
fn each_answer_of_a_replay_is_written(rt: HostRuntime) -> Result<(), Fail> {
    let replayed = replay_of(rt.alloc(), each_answer_by_port(rt.alloc())?, 51)?;
    let mut device = Device::new(Vec::new(rt.alloc()));
    write_replayed(rt.alloc(), &replayed, &mut device)?;
    judge_text(&rt, &device.into_inner(), text_of_each_answer());
    Ok(())
}

/// Adds the calls of a scan and of the two updates that overtook it.
fn push_overtaken(alloc: Global, calls: &mut Vec<Called>) -> Result<(), AllocError> {
    let borrowed = scanned(alloc, &[5], 3, Some(32))?;
    calls.push(called(0, 0, 0, 13, finished(2, borrowed, Some(Note::Saw(1)))))?;
    let first = Answer::Applied { stamp: 26 };
    calls.push(called(1, 0, 0, 17, finished(1, first, Some(Note::Wrote(0)))))?;
    let second = Answer::Applied { stamp: 32 };
    calls.push(called(1, 1, 1, 17, finished(2, second, Some(Note::Wrote(1)))))?;
    Ok(())
}

/// A scan that two updates overtook twice, so that its value is the borrowed one.
pub(crate) fn borrowed_scan(alloc: Global) -> Result<Outcome, AllocError> {
    let applied = |value: u64, stamp: u64| Applied {
        port: 1,
        component: 0,
        value,
        stamp,
    };
    let history = vec![in alloc; applied(5, 26), applied(6, 32)]?;
    let mut calls = Vec::new(alloc);
    push_overtaken(alloc, &mut calls)?;
    outcome_of(alloc, history, calls, 47)
}

fn text_of_borrowed_scan() -> &'static [u8] {
    b"applied 0 port 1 component 0 value 5 stamp 26
applied 1 port 1 component 0 value 6 stamp 32
call 0 0 scanned 5 prefix 1 collects 3 borrowed 32 steps 13 span 0 2
call 1 0 applied 26 place 0 steps 17 span 0 1
call 1 1 applied 32 place 1 steps 17 span 1 2
values 6 20
total 47
"
}

#[test]
fn scans_are_written(rt: HostRuntime) -> Result<(), Fail> {
    let outcome = borrowed_scan(rt.alloc())?;
    judge_outcome(&rt, rt.alloc(), &outcome, text_of_borrowed_scan())
}

/// Judges writers that stop, each after another part of the outcome's text.
fn judge_stops(rt: &impl Abort, alloc: Global, outcome: &Outcome, row: &[u8]) {
    for room in 0..row.len() {
        for (step, takes_none) in [(1, false), (7, true), (1000, false)] {
            let mut device = Device::new(Sink::new(alloc, step, room, takes_none));
            let given = write_outcome(alloc, outcome, &mut device);
            judge_stop(rt, given, device, row, room);
        }
    }
}

#[test]
fn each_stop(rt: HostRuntime) -> Result<(), Fail> {
    let outcome = write_then_read(rt.alloc())?;
    judge_stops(&rt, rt.alloc(), &outcome, row());
    Ok(())
}

/// Judges writers of what a replay has made, each of which stops after another part of its text.
fn judge_replay_stops(rt: &impl Abort, alloc: Global, replayed: &Replayed, text: &[u8]) {
    for room in 0..text.len() {
        let mut device = Device::new(Sink::new(alloc, 7, room, false));
        let given = write_replayed(alloc, replayed, &mut device);
        judge_stop(rt, given, device, text, room);
    }
}

#[test]
fn each_stop_of_a_replay(rt: HostRuntime) -> Result<(), Fail> {
    let replayed = replay_of(rt.alloc(), each_answer_by_port(rt.alloc())?, 51)?;
    judge_replay_stops(&rt, rt.alloc(), &replayed, text_of_each_answer());
    Ok(())
}

/// Judges a writer that takes at most so many bytes a write.
fn judge_short(rt: &impl Abort, alloc: Global, outcome: &Outcome, step: usize) {
    let mut device = Device::new(Sink::new(alloc, step, 1000, false));
    assert_eq!(rt; write_outcome(alloc, outcome, &mut device), Ok(()));
    assert!(rt; !device.failed());
    let sink = device.into_inner();
    judge_text(rt, &sink.taken, row());
}

#[test]
fn short_writes(rt: HostRuntime) -> Result<(), Fail> {
    let outcome = write_then_read(rt.alloc())?;
    for step in 1..row().len() + 2 {
        judge_short(&rt, rt.alloc(), &outcome, step);
    }
    Ok(())
}

/// As many reads as have a text longer than the room in which it is gathered.
const MANY: usize = 2_000;

/// The outcome of many reads that are alike.
fn many_reads(alloc: Global) -> Result<Outcome, AllocError> {
    let mut calls = Vec::with_capacity(alloc, MANY)?;
    for _ in 0..MANY {
        let seen = Answer::Read {
            value: 10,
            stamp: 18,
        };
        calls.push(called(0, 0, 0, 2, finished(0, seen, Some(Note::Saw(0)))))?;
    }
    outcome_of(alloc, Vec::new(alloc), calls, 4000)
}

/// The text of that outcome.
fn text_of_many_reads(alloc: Global) -> Result<Vec<u8>, AllocError> {
    let mut text = Vec::new(alloc);
    for _ in 0..MANY {
        text.extend_from_slice(b"call 0 0 read 10 18 prefix 0 steps 2 span 0 0\n")?;
    }
    text.extend_from_slice(b"values 10 20\ntotal 4000\n")?;
    Ok(text)
}

/// Judges a writer that takes so many bytes of the text, up to 1,000 a write.
fn judge_room(rt: &impl Abort, alloc: Global, outcome: &Outcome, text: &[u8], room: usize) {
    let mut device = Device::new(Sink::new(alloc, 1000, room, false));
    let given = write_outcome(alloc, outcome, &mut device);
    judge_stop(rt, given, device, text, room);
}

#[test]
fn long_texts_stop_in_any_part(rt: HostRuntime) -> Result<(), Fail> {
    let outcome = many_reads(rt.alloc())?;
    let text = text_of_many_reads(rt.alloc())?;
    for room in [0, 1, 65_000, 65_536, 66_000, text.len().saturating_sub(1)] {
        judge_room(&rt, rt.alloc(), &outcome, &text, room);
    }
    Ok(())
}

#[test]
fn write_refusals_have_numbers(rt: HostRuntime) -> Result<(), Fail> {
    for (error, code, text) in [
        (OutcomeError::OutOfMemory, 6, "out of memory"),
        (OutcomeError::Write, 12, "write fault"),
    ] {
        assert_eq!(rt; error.code(), code);
        let printed = format!(in rt.alloc(); "{error}")?;
        assert_eq!(rt; printed.as_str(), text);
    }
    Ok(())
}
