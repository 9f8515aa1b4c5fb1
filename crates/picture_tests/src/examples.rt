//! Plans whose pictures were worked out by hand, and what the tests of pictures share.

use partial_picture::{Form, Window, draw};
use partial_replay::{Device, Outcome, Plan, replay};
use std::alloc::Global;
use std::test::Fail;

// The plans come as results, so that no proof of a test knows their texts.

/// Two ports update one component, and the first one's exchange comes too late.
pub(crate) fn lost_exchange_plan() -> &'static [u8] {
    b"sizes 2 4 8 64\ninitial 10 20\nport update 0 7\nport update 0 9\nsteps 0*7 1*8 0*1\n"
}

/// A scan is overtaken twice, and borrows a view.
pub(crate) fn borrowed_view_plan() -> &'static [u8] {
    b"sizes 2 4 8 64
initial 10 20
port scan 0
port update 0 5; update 0 6
steps 0*6 1*17 0*1 1*17 0*6
"
}

/// Calls that are refused with and without a step, an empty scan, and calls that aren't finished or begun.
pub(crate) fn refused_plan() -> &'static [u8] {
    b"sizes 2 1 8 64
initial 10 20
port scan 0; scan 1; scan 1; update 1 5; scan; read 7
port updateif 1 21 8; updateif 1 21 9
port read 1; read 0
steps 0*40 1*8 1*1 2*1
"
}

/// What comes of the plan with this text.
pub(crate) fn replayed(alloc: Global, text: &[u8]) -> Result<Outcome, Fail> {
    let plan = Plan::read(alloc, &mut Device::new(text))?;
    Ok(replay(alloc, &plan)?)
}

/// The picture of the plan with this text.
pub(crate) fn drawn(
    alloc: Global,
    form: Form,
    window: Window,
    plan: &[u8],
) -> Result<String, Fail> {
    let mut out = Device::new(Vec::new(alloc));
    draw(alloc, form, window, &mut Device::new(plan), &mut out)?;
    Ok(String::from_utf8(out.into_inner()).map_err(|_| "no text")?)
}

/// How often a part stands in a text.
pub(crate) fn count(text: &str, part: &str) -> usize {
    text.as_bytes()
        .windows(part.len().max(1))
        .filter(|window| *window == part.as_bytes())
        .count()
}
