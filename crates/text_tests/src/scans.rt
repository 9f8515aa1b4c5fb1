//! Which texts are plans with scans, and the first fault of those that are not.

use crate::plans::{line, plan_of, read, refusal};
use crate::texts::repeated;
use itoa::Buffer;
use partial_model::Call;
use partial_text::{Cause, Plan, PlanError};
use std::alloc::{AllocError, Global};
use std::process::Abort;
use std::test::Fail;

/// The positions of a call, if it is a scan.
fn positions(plan: &Plan, port: usize, number: usize) -> Option<&[u32]> {
    match plan.ports().get(port)?.as_slice().get(number)? {
        Call::Scan { components } => Some(components.as_slice()),
        _ => None,
    }
}

// Texts and tables are results of functions, whose contents no proof of a test has to know.
fn seven_calls() -> &'static [u8] {
    b"sizes 3 4 8 64
initial 10 20 30
port scan
port scan 0 0 1
port update 0 7; scan; scan 2; read 1; scan 4294967295 3 2
steps 2*9 rest
"
}

// The port of each scan of that plan, its number and its positions.
fn its_scans() -> [(usize, usize, &'static [u32]); 5] {
    [
        (0, 0, &[]),
        (1, 0, &[0, 0, 1]),
        (2, 1, &[]),
        (2, 2, &[2]),
        (2, 4, &[u32::MAX, 3, 2]),
    ]
}

/// Judges the positions of that plan's scans, and that two of its calls are none.
fn judge_scans(rt: &impl Abort, plan: &Plan) {
    for (port, number, expected) in its_scans() {
        assert_eq!(rt;
            positions(plan, port, number),
            Some(expected),
            "port {port} call {number}"
        );
    }
    for number in [0, 3] {
        assert_eq!(rt; positions(plan, 2, number), None);
    }
}

/// Judges how many calls each port of that plan makes.
fn judge_ports(rt: &impl Abort, plan: &Plan) {
    assert_eq!(rt; plan.ports().len(), 3);
    for (port, calls) in plan.ports().iter().zip([1, 1, 5]) {
        assert_eq!(rt; port.len(), calls);
    }
}

#[test]
fn scans_are_read(rt: HostRuntime) -> Result<(), Fail> {
    let plan = plan_of(rt.alloc(), seven_calls())?;
    judge_scans(&rt, &plan);
    judge_ports(&rt, &plan);
    Ok(())
}

/// Puts a number after the text.
fn push_number(text: &mut Vec<u8>, number: u32) -> Result<(), AllocError> {
    text.extend_from_slice(Buffer::new().format(number).as_bytes())
}

/// Puts a scan of so many components after the text.
fn push_scan_of_all(text: &mut Vec<u8>, components: u32) -> Result<(), AllocError> {
    text.extend_from_slice(b"\nport scan")?;
    for component in 0..components {
        text.push(b' ')?;
        push_number(text, component)?;
    }
    Ok(())
}

/// The front of a plan of so many components, up to their values.
fn front_of_all(alloc: Global, components: u32) -> Result<Vec<u8>, AllocError> {
    let mut text = Vec::from_slice(alloc, b"sizes ")?;
    push_number(&mut text, components)?;
    text.extend_from_slice(b" 1 0 4194304\ninitial")?;
    Ok(text)
}

/// A plan of so many components, whose one port scans each of them, with `more` after the last one.
fn scan_of_all(alloc: Global, components: u32, more: &[u8]) -> Result<Vec<u8>, AllocError> {
    let front = front_of_all(alloc, components)?;
    let mut text = repeated(alloc, &front, b" 0", components, b"")?;
    push_scan_of_all(&mut text, components)?;
    text.extend_from_slice(more)?;
    text.extend_from_slice(b"\nsteps\n")?;
    Ok(text)
}

/// Judges that the positions are each of so many components, in order.
fn judge_positions(rt: &impl Abort, found: &[u32], components: u32) {
    assert_eq!(rt; found.len(), components as usize);
    for (place, component) in found.iter().enumerate() {
        assert_eq!(rt; *component as usize, place);
    }
}

/// The plan whose one port scans each of so many components.
fn plan_of_all(alloc: Global, components: u32) -> Result<Plan, Fail> {
    let text = scan_of_all(alloc, components, b"")?;
    Ok(plan_of(alloc, &text)?)
}

/// Judges that the scan of each of so many components is read.
fn judge_scan_of_all(rt: &impl Abort, alloc: Global, components: u32) -> Result<(), Fail> {
    let plan = plan_of_all(alloc, components)?;
    let found = positions(&plan, 0, 0).ok_or("the call is a scan")?;
    judge_positions(rt, found, components);
    Ok(())
}

/// Why this scan is refused with more after it.
fn refusal_of_more(
    alloc: Global,
    components: u32,
    more: &[u8],
) -> Result<Option<PlanError>, AllocError> {
    let text = scan_of_all(alloc, components, more)?;
    Ok(read(alloc, &text).err())
}

/// Judges that this scan is refused with more after it.
fn judge_more(
    rt: &impl Abort,
    alloc: Global,
    components: u32,
    more: &[u8],
) -> Result<(), AllocError> {
    let given = refusal_of_more(alloc, components, more)?;
    assert_eq!(rt; given, Some(line(3, Cause::Count)), "{more:?}");
    Ok(())
}

#[test]
fn scan_of_each_component(rt: HostRuntime) -> Result<(), Fail> {
    for components in [1, 2, 65_536] {
        judge_scan_of_all(&rt, rt.alloc(), components)?;
        for more in [b" 0".as_slice(), b" x", b" "] {
            judge_more(&rt, rt.alloc(), components, more)?;
        }
    }
    Ok(())
}

// What stands in place of a plan's third line, and the cause of the refusal.
fn refused_lines() -> [(&'static [u8], Cause); 22] {
    [
        (b"port scan 0 0 1", Cause::Count),
        (b"port scan 0 1 x", Cause::Count),
        (b"port scan x y z", Cause::Count),
        (b"port scan 0 1 ", Cause::Count),
        (b"port scan   ", Cause::Count),
        (b"port scan 0 0 0; swap", Cause::Count),
        (b"port read 0; scan 0 0 0", Cause::Count),
        (b"port scan 0 1 0; scan x", Cause::Count),
        (b"port scan ", Cause::Number),
        (b"port scan  ", Cause::Number),
        (b"port scan  0", Cause::Number),
        (b"port scan 0 ", Cause::Number),
        (b"port scan 00", Cause::Number),
        (b"port scan 0 4294967296", Cause::Number),
        (b"port scan 18446744073709551616 0", Cause::Number),
        (b"port scan 0;", Cause::Number),
        (b"port scan 0;scan 1", Cause::Number),
        (b"port scan x; scan 0 0 0", Cause::Number),
        (b"port scans 0", Cause::Word),
        (b"port Scan 0", Cause::Word),
        (b"port scan;", Cause::Word),
        (b"port swap; scan 0 0 0", Cause::Word),
    ]
}

#[test]
fn scan_refusals(rt: HostRuntime) -> Result<(), Fail> {
    for (other, cause) in refused_lines() {
        let given = refusal(rt.alloc(), 3, other)?;
        assert_eq!(rt; given, Some(line(3, cause)), "{other:?}");
    }
    Ok(())
}
