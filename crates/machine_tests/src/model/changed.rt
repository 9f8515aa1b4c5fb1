//! Outcomes with one thing changed: none is lawful.

use super::rows::{applied, both, called, read, update, verdict};
use super::worked::{
    BORROWED, EXCHANGED, borrowed_view, changed_at_exchange, component_refused, loser, whole_scan,
    winner, write_then_read,
};
use partial_model::{Answer, Called, Note, Opening, Refused, Sequence};
use std::alloc::Global;
use std::process::Abort;
use std::test::Fail;

// The update that came too late isn't lawful with an applied update's answer, nor as lost to the initial record.
fn refuses_losers(rt: &impl Abort, alloc: Global) -> Result<(), Fail> {
    let applied_instead = [
        loser(0, Answer::Applied { stamp: 24 }, Note::Wrote(0)),
        winner(),
    ];
    assert!(rt; !verdict(alloc, &EXCHANGED, applied_instead)?);
    let lost_to_initial = [loser(0, Answer::Lost { by: 18 }, Note::Lost(0)), winner()];
    assert!(rt; !verdict(alloc, &EXCHANGED, lost_to_initial)?);
    Ok(())
}

#[test]
fn checker_verdicts(rt: HostRuntime) -> Result<(), Fail> {
    let alloc = rt.alloc();
    refuses_losers(&rt, alloc)?;
    assert!(rt; !verdict(alloc, &BORROWED, borrowed_view(alloc, 6, 1)?)?);
    let doubled = [applied(0, 0, 7, 24), applied(0, 0, 7, 24)];
    assert!(rt; !verdict(alloc, &doubled, write_then_read(24))?);
    Ok(())
}

#[test]
fn began_behind_its_place(rt: HostRuntime) -> Result<(), Fail> {
    let calls = [loser(1, Answer::Lost { by: 27 }, Note::Lost(0)), winner()];
    assert!(rt; !verdict(rt.alloc(), &EXCHANGED, calls)?);
    Ok(())
}

#[test]
fn ports_exchanged(rt: HostRuntime) -> Result<(), Fail> {
    let calls = [winner(), loser(0, Answer::Lost { by: 27 }, Note::Lost(0))];
    assert!(rt; !verdict(rt.alloc(), &EXCHANGED, calls)?);
    Ok(())
}

#[test]
fn entry_with_initial_stamp(rt: HostRuntime) -> Result<(), Fail> {
    let calls = write_then_read(18);
    assert!(rt; !verdict(rt.alloc(), &[applied(0, 0, 7, 18)], calls)?);
    Ok(())
}

#[test]
fn entry_for_absent_component(rt: HostRuntime) -> Result<(), Fail> {
    let calls = write_then_read(24);
    assert!(rt; !verdict(rt.alloc(), &[applied(0, 2, 7, 24)], calls)?);
    Ok(())
}

#[test]
fn one_collect_too_many(rt: HostRuntime) -> Result<(), Fail> {
    let alloc = rt.alloc();
    assert!(rt; !verdict(alloc, &[], whole_scan(alloc, 5)?)?);
    Ok(())
}

// Record 32 stands at place 1, before the prefix.
#[test]
fn borrowed_before_the_prefix(rt: HostRuntime) -> Result<(), Fail> {
    let alloc = rt.alloc();
    assert!(rt; !verdict(alloc, &BORROWED, borrowed_view(alloc, 6, 2)?)?);
    Ok(())
}

#[test]
fn wrong_cause(rt: HostRuntime) -> Result<(), Fail> {
    let alloc = rt.alloc();
    assert!(rt; !verdict(alloc, &[], component_refused(alloc, Refused::PoolSpent)?)?);
    Ok(())
}

#[test]
fn changed_by_the_expected_stamp(rt: HostRuntime) -> Result<(), Fail> {
    assert!(rt; !verdict(rt.alloc(), &EXCHANGED, changed_at_exchange(18))?);
    Ok(())
}

#[test]
fn entry_that_no_call_claims(rt: HostRuntime) -> Result<(), Fail> {
    let alloc = rt.alloc();
    assert!(rt; !verdict(alloc, &EXCHANGED, [])?);
    let calls = [loser(0, Answer::Lost { by: 27 }, Note::Lost(0))];
    assert!(rt; !verdict(alloc, &EXCHANGED, calls)?);
    Ok(())
}

// The update that claims the entry, with its number and the length at which it began.
fn claim(number: u32, began: usize) -> Called {
    let wrote = Answer::Applied { stamp: 24 };
    called(
        0,
        number,
        update(0, 7),
        (began, 1),
        wrote,
        Some(Note::Wrote(0)),
    )
}

// Two calls may not claim one entry, and a number may not be left out.
#[test]
fn entry_claimed_twice(rt: HostRuntime) -> Result<(), Fail> {
    let alloc = rt.alloc();
    let history = [applied(0, 0, 7, 24)];
    assert!(rt; verdict(alloc, &history, [claim(0, 0)])?);
    assert!(rt; !verdict(alloc, &history, [claim(1, 0)])?);
    assert!(rt; !verdict(alloc, &history, [claim(0, 0), claim(1, 1)])?);
    Ok(())
}

// A read, with the stamp and the prefix that it saw.
fn seen(component: u32, stamp: u64, prefix: usize) -> Called {
    let value = if component == 0 { 10 } else { 20 };
    let answer = Answer::Read { value, stamp };
    called(
        0,
        0,
        read(component),
        (0, prefix),
        answer,
        Some(Note::Saw(prefix)),
    )
}

// Reads in a memory that opens with the greatest stamp: one is lawful.
fn reads_greatest(rt: &impl Abort, alloc: Global, opening: &Opening) -> Result<(), Fail> {
    let greatest = u64::MAX;
    assert!(rt; both(alloc, opening, &[], [seen(0, greatest, 0)])?);
    assert!(rt; !both(alloc, opening, &[], [seen(1, 2, 0)])?);
    assert!(rt; !both(alloc, opening, &[], [seen(0, greatest, usize::MAX)])?);
    Ok(())
}

// The greatest numbers: nothing wraps to an initial stamp, a place or a number.
#[test]
fn greatest_numbers(rt: HostRuntime) -> Result<(), Fail> {
    let alloc = rt.alloc();
    let opening = Opening {
        values: Sequence::from(vec![in alloc; 10, 20]?),
        first: u64::MAX,
    };
    let judged = reads_greatest(&rt, alloc, &opening);
    drop(opening);
    judged?;
    let lost = loser(0, Answer::Lost { by: 27 }, Note::Lost(usize::MAX));
    assert!(rt; !verdict(alloc, &EXCHANGED, [lost, winner()])?);
    Ok(())
}
