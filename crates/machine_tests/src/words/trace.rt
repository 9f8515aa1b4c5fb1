//! Traces, which keep loads and stores apart from other steps. The script that refuses growths runs these tests too.

use partial_words::{Event, Step, Trace};
use std::process::Abort;
use std::test::Fail;

// Events of each kind, of ports at the edge of those whose loads and stores are kept shorter and past it, and a store
// with an answer that no store has.
fn events() -> [(u32, Step, u64); 12] {
    [
        (0, Step::Load(3), u64::MAX),
        (1, Step::Exchange(3, 4, 5), 4),
        (255, Step::Load(u32::MAX), 0),
        (256, Step::Load(7), 9),
        (2, Step::Store(8, u64::MAX), 0),
        (2, Step::Store(8, 6), 1),
        (u32::MAX, Step::Store(8, 6), 0),
        (3, Step::Add(2, 10), 11),
        (63, Step::Load(0), 12),
        (255, Step::Store(0, 0), 0),
        (3, Step::Exchange(2, u64::MAX, 1), 0),
        (0, Step::Add(u32::MAX, 1), u64::MAX),
    ]
}

/// Compares an event.
fn judge_event(rt: &impl Abort, event: Event, expected: (u32, Step, u64)) {
    assert_eq!(rt; (event.port, event.step, event.answer), expected);
}

#[test]
fn traces_tell_their_events(rt: HostRuntime) -> Result<(), Fail> {
    let mut trace = Trace::new(rt.alloc());
    for (port, step, answer) in events() {
        trace.push(Event { port, step, answer })?;
    }
    assert_eq!(&rt; trace.len(), 12);
    let told = trace.into_vec(rt.alloc())?;
    assert_eq!(&rt; told.len(), 12);
    for (event, expected) in told.iter().zip(events()) {
        judge_event(&rt, *event, expected);
    }
    Ok(())
}

#[test]
fn new_traces_are_empty(rt: HostRuntime) -> Result<(), Fail> {
    let trace = Trace::new(rt.alloc());
    assert_eq!(&rt; trace.len(), 0);
    assert_eq!(&rt; trace.into_vec(rt.alloc())?.len(), 0);
    Ok(())
}
