//! A port that stops forever after any of its steps, and another one that no stop holds up.

use super::{judge_replay, replayed};
use partial_model::{Answer, Called, Finish, Note, check_outcome};
use partial_replay::Outcome;
use std::alloc::{AllocError, Global};
use std::process::Abort;
use std::test::Fail;

/// How the call of a stopped port stands.
#[derive(Clone, Copy, Debug, PartialEq, Eq)]
enum Standing {
    Unlisted,
    Unfinished,
    Finished,
}

/// How the only call of a port stands.
fn standing_of(calls: &[Called], port: u32) -> Standing {
    match calls.iter().find(|called| called.port == port) {
        None => Standing::Unlisted,
        Some(called) if called.finish.is_none() => Standing::Unfinished,
        Some(_) => Standing::Finished,
    }
}

/// The steps, the stamp and the place of the only update of a port, when it was applied.
fn applied(calls: &[Called], port: u32) -> Option<(u64, u64, usize)> {
    let called = calls.iter().find(|called| called.port == port)?;
    match &called.finish {
        Some(
            Finish {
                answer: Answer::Applied { stamp },
                note: Some(Note::Wrote(place)),
                ..
            },
        ) => Some((called.steps, *stamp, *place)),
        _ => None,
    }
}

fn is_lawful(outcome: &Outcome) -> bool {
    check_outcome(&outcome.opening, &outcome.history, &outcome.calls)
}

/// Calls of ports, and a port that has some turns between those before and those after.
#[derive(Clone, Copy)]
struct Stops<'a> {
    ports: &'a str,
    before: &'a str,
    port: u32,
    behind: &'a str,
}

/// So many turns of a port, as they stand in front of others.
fn own_turns(alloc: Global, port: u32, turns: u32) -> Result<String, AllocError> {
    if turns == 0 {
        return Ok(String::new(alloc));
    }
    format!(in alloc; "{port}*{turns} ")
}

/// The text of the plan in which the port stops after so many turns.
fn plan_of(alloc: Global, stops: &Stops<'_>, turns: u32) -> Result<String, AllocError> {
    let Stops {
        ports,
        before,
        port,
        behind,
    } = stops;
    let own = own_turns(alloc, *port, turns)?;
    format!(in alloc; "sizes 2 4 8 64\ninitial 10 20\n{ports}steps {before}{own}{behind}\n")
}

/// What comes of that plan.
fn stopped(alloc: Global, stops: &Stops<'_>, turns: u32) -> Result<Outcome, Fail> {
    let text = plan_of(alloc, stops, turns)?;
    replayed(alloc, text.as_bytes())
}

fn judge_update(
    rt: &impl Abort,
    calls: &[Called],
    port: u32,
    turns: u32,
    update: (u64, u64, usize),
) {
    assert_eq!(rt; applied(calls, port), Some(update), "{turns} turns");
}

fn judge_standing(rt: &impl Abort, calls: &[Called], port: u32, turns: u32, stands: Standing) {
    assert_eq!(rt; standing_of(calls, port), stands, "{turns} turns");
}

/// Judges whether the port stands so after as many turns, and whether the update of the port after it was applied in
/// so many steps, with that stamp and place.
fn judge_outcome(
    rt: &impl Abort,
    outcome: &Outcome,
    port: u32,
    turns: u32,
    stands: Standing,
    update: (u64, u64, usize),
) {
    judge_update(rt, &outcome.calls, port.saturating_add(1), turns, update);
    judge_standing(rt, &outcome.calls, port, turns, stands);
    assert!(rt; is_lawful(outcome), "{turns} turns");
}

/// Judges so the outcome of the plan in which the port stops after as many turns.
fn judge(
    rt: &impl Abort,
    alloc: Global,
    stops: &Stops<'_>,
    turns: u32,
    stands: Standing,
    update: (u64, u64, usize),
) -> Result<(), Fail> {
    let outcome = stopped(alloc, stops, turns)?;
    judge_outcome(rt, &outcome, stops.port, turns, stands, update);
    Ok(())
}

#[test]
fn scanner_stopped(rt: HostRuntime) -> Result<(), Fail> {
    let stops = Stops {
        ports: "port scan 0 1\nport update 0 7\n",
        before: "",
        port: 0,
        behind: "1*23",
    };
    for turns in 0..14 {
        let (stands, update) = match turns {
            0 => (Standing::Unlisted, (8, 24, 0)),
            1..=4 => (Standing::Unfinished, (8, 27, 0)),
            5 => (Standing::Unfinished, (9, 27, 0)),
            6..=12 => (Standing::Unfinished, (23, 27, 0)),
            _ => (Standing::Finished, (14, 27, 0)),
        };
        judge(&rt, rt.alloc(), &stops, turns, stands, update)?;
    }
    Ok(())
}

fn scan_then_update() -> &'static [u8] {
    b"sizes 2 4 8 64\ninitial 10 20\nport scan 0 1\nport update 0 7\nsteps 0*13 1*23\n"
}

fn their_outcome() -> &'static [u8] {
    b"applied 0 port 1 component 0 value 7 stamp 27
call 0 0 scanned 10 20 prefix 0 collects 2 borrowed - steps 13 span 0 0
call 1 0 applied 27 place 0 steps 14 span 0 1
values 7 20
total 27
"
}

// A scan that stops after its last step is as any other that no update met.
#[test]
fn scanner_stopped_behind_its_scan(rt: HostRuntime) -> Result<(), Fail> {
    judge_replay(&rt, rt.alloc(), scan_then_update(), their_outcome())
}

#[test]
fn updater_stopped(rt: HostRuntime) -> Result<(), Fail> {
    let stops = Stops {
        ports: "port update 0 7\nport update 0 9\n",
        before: "",
        port: 0,
        behind: "1*8",
    };
    for turns in 0..9 {
        let (stands, update) = match turns {
            0 => (Standing::Unlisted, (8, 24, 0)),
            1..=3 => (Standing::Unfinished, (8, 24, 0)),
            4..=7 => (Standing::Unfinished, (8, 27, 0)),
            _ => (Standing::Finished, (8, 27, 1)),
        };
        judge(&rt, rt.alloc(), &stops, turns, stands, update)?;
    }
    Ok(())
}

// The updater that stops has found a vacated slot, and publishes it in a list.
#[test]
fn publisher_stopped(rt: HostRuntime) -> Result<(), Fail> {
    let stops = Stops {
        ports: "port scan 0\nport update 0 7\nport update 1 9\n",
        before: "0*9 ",
        port: 1,
        behind: "2*14",
    };
    for turns in 0..15 {
        let (stands, update) = match turns {
            0 => (Standing::Unlisted, (14, 26, 0)),
            1..=8 => (Standing::Unfinished, (14, 26, 0)),
            9 => (Standing::Unfinished, (11, 26, 0)),
            10..=13 => (Standing::Unfinished, (11, 29, 0)),
            _ => (Standing::Finished, (11, 29, 1)),
        };
        judge(&rt, rt.alloc(), &stops, turns, stands, update)?;
    }
    Ok(())
}
