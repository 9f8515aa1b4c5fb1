//! Conditional updates, over changes of epoch.

ghost use Rattle.partial_long_lived.specs.Ports.{IsOf};

use crate::memories::{SPENT, one, pair};
use partial_long_lived::{LongLived, Options, Port, Refused, UpdatedIf};
use std::process::Abort;
use std::test::Fail;

// The stamp of a component.
fn stamp_of(rt: &impl Abort, memory: &LongLived, port: &mut Port, component: u32) -> u64
    requires { IsOf memory.now port.old }
    ensures { IsOf memory.now port.new }
{
    let Ok((_, stamp)) = memory.read(port, component) else {
        panic!(rt; "not read");
    };
    stamp
}

// Sets a component that has the expected stamp, and returns its new one.
fn sets(
    rt: &impl Abort,
    memory: &LongLived,
    port: &mut Port,
    component: u32,
    expected: u64,
    value: u64,
) -> u64
    requires { IsOf memory.now port.old }
    ensures { IsOf memory.now port.new }
{
    let Ok(UpdatedIf::Applied { stamp }) = memory.update_if(port, component, expected, value) else {
        panic!(rt; "not applied");
    };
    assert_eq!(rt; memory.read(port, component), Ok((value, stamp)));
    stamp
}

// Component 0 has another stamp than the expected one, and keeps it.
fn misses(rt: &impl Abort, memory: &LongLived, port: &mut Port, expected: u64, by: u64)
    requires { IsOf memory.now port.old }
    ensures { IsOf memory.now port.new }
{
    assert_eq!(rt;
        memory.update_if(port, 0, expected, 99),
        Ok(UpdatedIf::Changed { by })
    );
}

// Two ports set component 0 in turn, each where it has the stamp that the other one left. The first port is spent by
// each of its updates: it is answered with another stamp in its epoch, and sets in the next one. Component 1 keeps its
// initial stamp.
fn sets_in_turn(rt: &impl Abort, memory: &LongLived, first: &mut Port, last: &mut Port)
    requires first { IsOf memory.now first.old }
    requires last { IsOf memory.now last.old }
{
    let initial = stamp_of(rt, memory, first, 0);
    let carried = stamp_of(rt, memory, first, 1);
    let one = sets(rt, memory, first, 0, initial, 11);
    misses(rt, memory, last, initial, one);
    misses(rt, memory, first, initial, one);
    assert!(rt; one < 1 << 23);
    let two = sets(rt, memory, first, 0, one, 12);
    assert_eq!(rt; two >> 23, 1);
    misses(rt, memory, last, one, two);
    let three = sets(rt, memory, last, 0, two, 13);
    misses(rt, memory, first, two, three);
    sets(rt, memory, first, 1, carried, 21);
}

// The pool has one word.
#[test]
fn stamps_are_expected(rt: HostRuntime) -> Result<(), Fail> {
    let (memory, mut first, mut last) = pair(rt.alloc(), SPENT)?;
    sets_in_turn(&rt, &memory, &mut first, &mut last);
    drop((memory, first, last));
    Ok(())
}

// A component that isn't there is refused, and the port goes on.
fn refuses(rt: &impl Abort, memory: &LongLived, port: &mut Port)
    requires { IsOf memory.now port.old }
{
    assert_eq!(rt; memory.update_if(port, 2, 0, 1), Err(Refused::Component));
    let Ok((20, _)) = memory.read(port, 1) else {
        panic!(rt; "not read");
    };
}

#[test]
fn refused_components(rt: HostRuntime) -> Result<(), Fail> {
    let (memory, mut port) = one(rt.alloc(), Options::default())?;
    refuses(&rt, &memory, &mut port);
    drop((memory, port));
    Ok(())
}
