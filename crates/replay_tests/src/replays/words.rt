//! The words that replays leave, and the steps that they make.

use super::replayed;
use partial_replay::{Device, Event, Plan, replay_apart};
use partial_words::Step;
use std::process::Abort;
use std::test::Fail;

// Plans in which an update publishes a list, the head of the lists after each, and their words: the list that is
// published, the one that won when two were, and none when no words are left for it.
fn publishing() -> [(&'static [u8], u64, &'static [u64]); 3] {
    [
        (
            b"sizes 2 4 8 64
initial 10 20
port scan 0
port update 0 7; update 0 8
steps rest
",
            10,
            &[1, 0, 0, 0, 0, 0, 0, 0],
        ),
        (
            b"sizes 2 4 8 64
initial 10 20
port scan 0
port update 0 7
port update 1 9; update 1 8
steps 0*9 1*8 2*14 rest
",
            13,
            &[1, 0, 0, 1, 0, 0, 0, 0],
        ),
        (
            b"sizes 2 4 2 64
initial 10 20
port scan 0
port update 0 7; update 0 8
steps rest
",
            0,
            &[0, 0],
        ),
    ]
}

/// Judges the head of the lists, and their words.
fn judge_lists(rt: &impl Abort, words: &[u64], head: u64, lists: &[u64]) {
    assert_eq!(rt; words.get(3), Some(&head));
    let found = words.get(10..lists.len().saturating_add(10));
    assert_eq!(rt; found, Some(lists), "head {head}");
}

#[test]
fn published_lists(rt: HostRuntime) -> Result<(), Fail> {
    for (plan, head, lists) in publishing() {
        let outcome = replayed(rt.alloc(), plan)?;
        judge_lists(&rt, &outcome.words, head, lists);
    }
    Ok(())
}

fn sharing() -> &'static [u8] {
    b"sizes 2 4 8 64
initial 10 20
port scan 1
port scan 0
port update 0 7
port update 0 5; update 1 8; update 1 9
steps 0*5 1*6 3*25 1*1 2*11 0*4 3*23 2*2 3*20 2*7 1*6
"
}

/// Judges that the record at 48 shares the view that belongs to the record at 42, and takes 3 words of the pool.
fn judge_sharing(rt: &impl Abort, words: &[u64]) {
    assert_eq!(rt; words.get(44), Some(&45));
    assert_eq!(rt; words.get(48..51), Some([28, 7, 45].as_slice()));
    assert_eq!(rt; words.get(4), Some(&51));
}

#[test]
fn shared_view(rt: HostRuntime) -> Result<(), Fail> {
    let outcome = replayed(rt.alloc(), sharing())?;
    judge_sharing(&rt, &outcome.words);
    Ok(())
}

// The words that a replay has made, of which those after the last step aren't stored, are those of its outcome.
#[test]
fn words_apart(rt: HostRuntime) -> Result<(), Fail> {
    let plan = Plan::read(rt.alloc(), &mut Device::new(sharing()))?;
    let replayed = replay_apart(rt.alloc(), &plan)?;
    judge_sharing(&rt, &replayed.words.into_vec());
    Ok(())
}

fn one_scan() -> &'static [u8] {
    b"sizes 2 4 8 64\ninitial 10 20\nport scan 0 1\nsteps rest\n"
}

// Its steps with their answers: the announcement, the join, two collects, the values and the leave.
fn its_steps() -> [(Step, u64); 13] {
    [
        (Step::Add(4, 3), 24),
        (Step::Store(24, 2), 0),
        (Step::Store(25, 0), 0),
        (Step::Store(26, 1), 0),
        (Step::Add(2, 1), 0),
        (Step::Store(6, 24), 0),
        (Step::Load(0), 18),
        (Step::Load(1), 21),
        (Step::Load(0), 18),
        (Step::Load(1), 21),
        (Step::Load(19), 10),
        (Step::Load(22), 20),
        (Step::Store(6, 1), 0),
    ]
}

/// Judges the steps of that scan.
fn judge_steps(rt: &impl Abort, trace: &[Event]) {
    assert_eq!(rt; trace.len(), 13);
    for (event, (step, answer)) in trace.iter().zip(its_steps()) {
        assert_eq!(rt; event.step, step);
        assert_eq!(rt; event.answer, answer);
    }
}

// A scan that nobody overtakes.
#[test]
fn steps_of_a_scan(rt: HostRuntime) -> Result<(), Fail> {
    let outcome = replayed(rt.alloc(), one_scan())?;
    judge_steps(&rt, &outcome.trace);
    Ok(())
}
