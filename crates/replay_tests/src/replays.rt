//! Replays of plans whose outcomes were worked out by hand.

mod growths;
mod stopped;
mod words;

use crate::texts::judge_text;
use partial_replay::{Device, Outcome, Plan, replay, replay_apart, write_outcome, write_replayed};
use std::alloc::Global;
use std::process::Abort;
use std::test::Fail;

/// What comes of the plan with this text.
pub(crate) fn replayed(alloc: Global, text: &[u8]) -> Result<Outcome, Fail> {
    let plan = Plan::read(alloc, &mut Device::new(text))?;
    Ok(replay(alloc, &plan)?)
}

/// Judges the text of the outcome of the plan with this text, and that of what its replay has made.
fn judge_replay(rt: &impl Abort, alloc: Global, text: &[u8], expected: &[u8]) -> Result<(), Fail> {
    let plan = Plan::read(alloc, &mut Device::new(text))?;
    let mut writer = Device::new(Vec::new(alloc));
    write_outcome(alloc, &replay(alloc, &plan)?, &mut writer)?;
    judge_text(rt, &writer.into_inner(), expected);
    let mut writer = Device::new(Vec::new(alloc));
    write_replayed(alloc, &replay_apart(alloc, &plan)?, &mut writer)?;
    judge_text(rt, &writer.into_inner(), expected);
    Ok(())
}

// Texts and tables are results of functions, whose contents no proof of a test has to know.

fn two_updates() -> &'static [u8] {
    b"sizes 2 4 8 64\ninitial 10 20\nport update 0 7\nport update 0 9\nsteps 0*7 1*8 0*1\n"
}

fn their_outcome() -> &'static [u8] {
    b"applied 0 port 1 component 0 value 9 stamp 27
call 0 0 lost 27 place 0 steps 8 span 0 1
call 1 0 applied 27 place 0 steps 8 span 0 1
values 9 20
total 16
"
}

#[test]
fn lost_exchange(rt: HostRuntime) -> Result<(), Fail> {
    judge_replay(&rt, rt.alloc(), two_updates(), their_outcome())
}
