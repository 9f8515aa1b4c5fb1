//! Which texts are plans, and the first fault of those that are not.

use crate::texts::repeated;
use partial_model::Call;
use partial_text::{Cause, Device, Plan, PlanError};
use partial_words::{SizeError, Sizes};
use std::alloc::{AllocError, Global};
use std::process::Abort;
use std::test::Fail;

// Texts and tables are results of functions, whose contents no proof of a test has to know.
fn whole() -> &'static [u8] {
    b"sizes 2 4 8 64\ninitial 10 20\nport update 0 7; read 0\nsteps rest\n"
}

pub(crate) fn read(alloc: Global, text: &[u8]) -> Result<Plan, PlanError> {
    Plan::read(alloc, &mut Device::new(text))
}

pub(crate) fn line(line: u32, cause: Cause) -> PlanError {
    PlanError::Line { line, cause }
}

/// The plan with this text, when it is one.
pub(crate) fn plan_of(alloc: Global, text: &[u8]) -> Result<Plan, &'static str> {
    read(alloc, text).ok().ok_or("the text is a plan")
}

fn push_line(text: &mut Vec<u8>, line: &[u8]) -> Result<(), AllocError> {
    text.extend_from_slice(line)?;
    text.push(b'\n')?;
    Ok(())
}

/// The four lines of the plan above with one in place of another.
fn with_line(alloc: Global, number: usize, other: &[u8]) -> Result<Vec<u8>, AllocError> {
    let mut text = Vec::new(alloc);
    for (place, line) in whole().split(|byte| *byte == b'\n').enumerate() {
        if place < 4 {
            let line = if place + 1 == number { other } else { line };
            push_line(&mut text, line)?;
        }
    }
    Ok(text)
}

/// The refusal of that plan.
pub(crate) fn refusal(
    alloc: Global,
    number: usize,
    other: &[u8],
) -> Result<Option<PlanError>, AllocError> {
    let text = with_line(alloc, number, other)?;
    Ok(read(alloc, &text).err())
}

// Whether this is the call with that number of the plan below.
fn is_call(number: usize, call: &Call) -> bool {
    match call {
        Call::Update { component, value } => {
            number == 0 && *component == u32::MAX && *value == u64::MAX
        }
        Call::Read { component } => number == 1 && *component == 0,
        Call::UpdateIf {
            component,
            expected,
            value,
        } => number == 2 && *component == 1 && *expected == 18 && *value == 9,
        Call::Scan { .. } => false,
    }
}

fn greatest() -> &'static [u8] {
    b"sizes 3 65536 0 4194304
initial 0 18446744073709551615 7
port
port update 4294967295 18446744073709551615; read 0; updateif 1 18 9
steps 1*4294967295 0*1 rest
"
}

/// Judges the sizes of that plan.
fn judge_sizes(rt: &impl Abort, sizes: Sizes) {
    assert_eq!(rt; sizes.m(), 3);
    assert_eq!(rt; sizes.slots(), 65_536);
    assert_eq!(rt; sizes.lists(), 0);
    assert_eq!(rt; sizes.pool(), 4_194_304);
}

/// Judges its initial values and its steps.
fn judge_steps(rt: &impl Abort, plan: &Plan) {
    assert_eq!(rt; plan.initial(), [0, u64::MAX, 7].as_slice());
    assert_eq!(rt; plan.steps(), [(1, u32::MAX), (0, 1)].as_slice());
    assert!(rt; plan.rest());
}

/// Judges the calls of its ports.
fn judge_calls(rt: &impl Abort, plan: &Plan) {
    assert_eq!(rt; plan.ports().len(), 2);
    for (port, calls) in plan.ports().iter().enumerate() {
        assert_eq!(rt; calls.len(), 3 * port);
        for (number, call) in calls.as_slice().iter().enumerate() {
            assert!(rt; is_call(number, call), "call {number}");
        }
    }
}

#[test]
fn a_plan_is_read(rt: HostRuntime) -> Result<(), Fail> {
    let plan = plan_of(rt.alloc(), greatest())?;
    judge_sizes(&rt, plan.sizes());
    judge_steps(&rt, &plan);
    judge_calls(&rt, &plan);
    Ok(())
}

/// Judges that the plan has no steps.
fn judge_no_steps(rt: &impl Abort, plan: &Plan) {
    assert!(rt; plan.steps().is_empty());
    assert!(rt; !plan.rest());
}

#[test]
fn steps_without_rest(rt: HostRuntime) -> Result<(), Fail> {
    let text = b"sizes 1 1 0 3\ninitial 5\nport\nsteps\n";
    let plan = plan_of(rt.alloc(), text)?;
    judge_no_steps(&rt, &plan);
    Ok(())
}

// First lines with a size out of range, and which.
fn refused_sizes() -> [(&'static [u8], SizeError); 7] {
    [
        (b"sizes 0 4 8 64", SizeError::Components),
        (b"sizes 0 0 8 64", SizeError::Components),
        (b"sizes 2 0 8 64", SizeError::Slots),
        (b"sizes 2 4 65537 64", SizeError::Lists),
        (b"sizes 2 4 8 5", SizeError::Pool),
        (b"sizes 65537 1 0 196611", SizeError::Components),
        (b"sizes 4294967295 4 8 64", SizeError::Components),
    ]
}

// Which line stands in place of another, and the cause of the refusal.
fn refused_lines() -> [(u32, &'static [u8], Cause); 36] {
    [
        (1, b"sizes 2 4 8", Cause::Count),
        (1, b"sizes 2 4 8 64 1", Cause::Count),
        (1, b"sizes", Cause::Count),
        (1, b"sizes 2 4 08 64", Cause::Number),
        (1, b"sizes 0 4 8 x", Cause::Number),
        (1, b"sizes 4294967296 4 8 64", Cause::Number),
        (1, b"sizes 2 4 8 64\r", Cause::Number),
        (1, b"\xffizes 2 4 8 64", Cause::Word),
        (1, b"", Cause::Word),
        (1, b" sizes 2 4 8 64", Cause::Word),
        (2, b"initial 10 18446744073709551616", Cause::Number),
        (2, b"initial 10  20", Cause::Count),
        (2, b"initial 10", Cause::Count),
        (2, b"initial 10 ", Cause::Number),
        (2, b"initials 10 20", Cause::Word),
        (3, b"port swap 0 1", Cause::Word),
        (3, b"port update 0", Cause::Count),
        (3, b"port update 0 7 8", Cause::Count),
        (3, b"port update 4294967296 1", Cause::Number),
        (3, b"port updateif 0 18", Cause::Count),
        (3, b"port updateif 0 x 7", Cause::Number),
        (3, b"port read", Cause::Count),
        (3, b"port update 0 7;read 0", Cause::Count),
        (3, b"port update 0 7; ", Cause::Word),
        (3, b"port update 0 7;", Cause::Number),
        (3, b"port update x; swap", Cause::Count),
        (3, b"port ", Cause::Word),
        (3, b"ports", Cause::Word),
        (4, b"steps 1*2", Cause::Range),
        (4, b"steps 1*x", Cause::Number),
        (4, b"steps 0*0", Cause::Range),
        (4, b"steps 0*4294967296", Cause::Number),
        (4, b"steps rest 0*1", Cause::Number),
        (4, b"steps ", Cause::Number),
        (4, b"steps rest ", Cause::Number),
        (4, b"steps 0*1*1", Cause::Number),
    ]
}

/// Judges the refusal of the plan with this line in place of its own.
fn judge_refusal(
    rt: &impl Abort,
    alloc: Global,
    number: u32,
    other: &[u8],
    expected: PlanError,
) -> Result<(), AllocError> {
    let given = refusal(alloc, number as usize, other)?;
    assert_eq!(rt; given, Some(expected), "line {number} {other:?}");
    Ok(())
}

#[test]
fn plan_refusals(rt: HostRuntime) -> Result<(), Fail> {
    for (other, size) in refused_sizes() {
        judge_refusal(&rt, rt.alloc(), 1, other, PlanError::Size(size))?;
    }
    for (number, other, cause) in refused_lines() {
        judge_refusal(&rt, rt.alloc(), number, other, line(number, cause))?;
    }
    judge_refusal(&rt, rt.alloc(), 3, b"steps rest", PlanError::Ports)?;
    Ok(())
}

fn is_plan(alloc: Global, text: &[u8]) -> bool {
    read(alloc, text).is_ok()
}

/// Judges that a plan ends too early, in the line with that number.
fn judge_front(rt: &impl Abort, alloc: Global, front: &[u8], number: u32) {
    let given = read(alloc, front).err();
    let length = front.len();
    assert_eq!(rt; given, Some(line(number, Cause::End)), "{length} bytes");
}

#[test]
fn plan_fronts(rt: HostRuntime) -> Result<(), Fail> {
    let plan = whole();
    for length in 0..plan.len() {
        let expected = match length {
            0..15 => 1,
            15..29 => 2,
            29..53 => 3,
            _ => 4,
        };
        judge_front(&rt, rt.alloc(), &plan[..length], expected);
    }
    assert!(rt; is_plan(rt.alloc(), plan));
    Ok(())
}

/// The refusal of the plan above with more after it.
fn refusal_of_more(alloc: Global, more: &[u8]) -> Result<Option<PlanError>, AllocError> {
    let text = repeated(alloc, whole(), more, 1, b"")?;
    Ok(read(alloc, &text).err())
}

#[test]
fn something_behind(rt: HostRuntime) -> Result<(), Fail> {
    for more in [b"port\n".as_slice(), b"port", b"\n", b" "] {
        let given = refusal_of_more(rt.alloc(), more)?;
        assert_eq!(rt; given, Some(line(5, Cause::Extra)), "{more:?}");
    }
    Ok(())
}

/// Why a text isn't a plan, when it has as many ports as there may be and this end.
fn refusal_of_most_ports(alloc: Global, end: &[u8]) -> Result<Option<PlanError>, AllocError> {
    let front = b"sizes 1 1 0 3\ninitial 0\n";
    let text = repeated(alloc, front, b"port\n", 64, end)?;
    Ok(read(alloc, &text).err())
}

#[test]
fn too_many_ports(rt: HostRuntime) -> Result<(), Fail> {
    let most = refusal_of_most_ports(rt.alloc(), b"steps\n")?;
    assert_eq!(rt; most, None);
    let more = refusal_of_most_ports(rt.alloc(), b"port swap\nsteps\n")?;
    assert_eq!(rt; more, Some(PlanError::Ports));
    let open = refusal_of_most_ports(rt.alloc(), b"port swap")?;
    assert_eq!(rt; open, Some(line(67, Cause::End)));
    Ok(())
}

/// A plan with the most components there may be.
fn plan_of_most(alloc: Global) -> Result<Plan, Fail> {
    let front = b"sizes 65536 1 0 196608\ninitial";
    let text = repeated(alloc, front, b" 0", 65_536, b"\nport\nsteps\n")?;
    Ok(plan_of(alloc, &text)?)
}

#[test]
fn many_components(rt: HostRuntime) -> Result<(), Fail> {
    let plan = plan_of_most(rt.alloc())?;
    assert_eq!(rt; plan.initial().len(), 65_536);
    Ok(())
}

// Each refusal, its number and its text.
fn numbered() -> [(PlanError, u8, &'static str); 14] {
    [
        (
            PlanError::Size(SizeError::Components),
            1,
            "components out of range",
        ),
        (PlanError::Size(SizeError::Slots), 2, "slots out of range"),
        (
            PlanError::Size(SizeError::Lists),
            3,
            "list words out of range",
        ),
        (
            PlanError::Size(SizeError::Pool),
            4,
            "pool words out of range",
        ),
        (PlanError::Ports, 5, "ports out of range"),
        (PlanError::OutOfMemory, 6, "out of memory"),
        (line(3, Cause::Size), 10, "line 3: size"),
        (line(3, Cause::End), 10, "line 3: end"),
        (line(3, Cause::Word), 10, "line 3: word"),
        (line(3, Cause::Count), 10, "line 3: count"),
        (line(3, Cause::Number), 10, "line 3: number"),
        (line(3, Cause::Range), 10, "line 3: range"),
        (line(3, Cause::Extra), 10, "line 3: extra"),
        (PlanError::Read, 11, "read fault"),
    ]
}

/// Judges the number of the refusal and its text.
fn judge_number(
    rt: &impl Abort,
    alloc: Global,
    error: PlanError,
    code: u8,
    text: &str,
) -> Result<(), AllocError> {
    assert_eq!(rt; error.code(), code);
    let printed = format!(in alloc; "{error}")?;
    assert_eq!(rt; printed.as_str(), text);
    Ok(())
}

#[test]
fn refusals_have_numbers(rt: HostRuntime) -> Result<(), Fail> {
    for (error, code, text) in numbered() {
        judge_number(&rt, rt.alloc(), error, code, text)?;
    }
    assert_eq!(rt; line(3, Cause::Word).at(), Some((3, Cause::Word)));
    assert_eq!(rt; PlanError::Ports.at(), None);
    Ok(())
}
