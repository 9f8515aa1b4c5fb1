//! The calls of a port in a memory that one caller uses.

ghost use Rattle.std.specs.Prelude.{◌≤◌};
ghost use Rattle.partial_long_lived.specs.Ports.{IsOf};

use crate::memories::{SILENT, SPENT, one, pair};
use partial_long_lived::{LongLived, Options, Port, Refused, Updated};
use std::process::Abort;
use std::test::Fail;

// A component is read with this value, and has the stamp that is returned.
fn reads(rt: &impl Abort, memory: &LongLived, port: &mut Port, component: u32, value: u64) -> u64
    requires { IsOf memory.now port.old }
    ensures { IsOf memory.now port.new }
{
    let Ok((found, stamp)) = memory.read(port, component) else {
        panic!(rt; "not read");
    };
    assert_eq!(rt; found, value);
    stamp
}

// The stamps of the initial values are distinct, and stay as they are.
fn reads_initial(rt: &impl Abort, memory: &LongLived, first: &mut Port, last: &mut Port)
    requires first { IsOf memory.now first.old }
    requires last { IsOf memory.now last.old }
{
    let ten = reads(rt, memory, first, 0, 10);
    let most = reads(rt, memory, first, 1, u64::MAX);
    let thirty = reads(rt, memory, first, 2, 30);
    assert!(rt; ten < most);
    assert!(rt; most < thirty);
    assert_eq!(rt; reads(rt, memory, last, 2, 30), thirty);
    assert_eq!(rt; reads(rt, memory, first, 0, 10), ten);
}

// Each port reads the initial values.
#[test]
fn initial_reads(rt: HostRuntime) -> Result<(), Fail> {
    let values = [10, u64::MAX, 30];
    let (memory, mut ports) = LongLived::open(rt.alloc(), &values, 2, Options::default())?;
    let mut last = ports.pop().ok_or("a last port")?;
    let mut first = ports.pop().ok_or("a first port")?;
    reads_initial(&rt, &memory, &mut first, &mut last);
    drop((memory, first, last));
    Ok(())
}

// A read of a component that isn't there is refused, and the port reads on.
fn refuses(rt: &impl Abort, memory: &LongLived, port: &mut Port)
    requires { IsOf memory.now port.old }
{
    assert_eq!(rt; memory.read(port, 2), Err(Refused::Component));
    assert_eq!(rt; memory.read(port, u32::MAX), Err(Refused::Component));
    reads(rt, memory, port, 1, 20);
}

#[test]
fn refused_reads(rt: HostRuntime) -> Result<(), Fail> {
    let (memory, mut port) = one(rt.alloc(), Options::default())?;
    refuses(&rt, &memory, &mut port);
    drop((memory, port));
    Ok(())
}

// Sets component 0, and reads it and component 1, which is 20.
fn sets_first(rt: &impl Abort, memory: &LongLived, port: &mut Port, value: u64)
    requires { IsOf memory.now port.old }
    ensures { IsOf memory.now port.new }
{
    let Ok(Updated::Applied { stamp }) = memory.update(port, 0, value) else {
        panic!(rt; "not applied");
    };
    assert_eq!(rt; memory.read(port, 0), Ok((value, stamp)));
    let Ok((second, _)) = memory.read(port, 1) else {
        panic!(rt; "not read");
    };
    assert_eq!(rt; second, 20);
}

// Scans both components.
fn shows(rt: &impl Abort, memory: &LongLived, port: &mut Port, values: [u64; 2])
    requires own { IsOf memory.now port.old }
    requires both { 2 ≤ memory.now.about.sizes.m }
    ensures { IsOf memory.now port.new }
{
    let mut into = [0u64; 2];
    let Ok(_) = memory.scan(port, &[0, 1], &mut into) else {
        panic!(rt; "not scanned");
    };
    assert_eq!(rt; into, values);
}

// Sets component 0 and scans, in epoch after epoch.
fn works(rt: &impl Abort, memory: &LongLived, port: &mut Port)
    requires own { IsOf memory.now port.old }
    requires both { 2 ≤ memory.now.about.sizes.m }
{
    sets_first(rt, memory, port, 11);
    sets_first(rt, memory, port, 12);
    shows(rt, memory, port, [12, 20]);
    sets_first(rt, memory, port, 13);
    shows(rt, memory, port, [13, 20]);
}

// Each call makes its port spent.
#[test]
fn updates_over_epochs(rt: HostRuntime) -> Result<(), Fail> {
    let (memory, mut port) = one(rt.alloc(), SPENT)?;
    works(&rt, &memory, &mut port);
    drop((memory, port));
    Ok(())
}

// The first port sets component 0 in some epochs; the other one, which stands in the first epoch, goes on from there.
fn takes_turns(rt: &impl Abort, memory: &LongLived, first: &mut Port, last: &mut Port)
    requires first { IsOf memory.now first.old }
    requires last { IsOf memory.now last.old }
    requires both { 2 ≤ memory.now.about.sizes.m }
{
    sets_first(rt, memory, first, 11);
    sets_first(rt, memory, first, 12);
    sets_first(rt, memory, first, 13);
    shows(rt, memory, last, [13, 20]);
    sets_first(rt, memory, last, 14);
    shows(rt, memory, first, [14, 20]);
}

// A port that stands in an old epoch scans and updates in the current one.
#[test]
fn ports_in_two_epochs(rt: HostRuntime) -> Result<(), Fail> {
    let (memory, mut first, mut last) = pair(rt.alloc(), SPENT)?;
    takes_turns(&rt, &memory, &mut first, &mut last);
    drop((memory, first, last));
    Ok(())
}

// Scans in another epoch than the port's own aren't announced.
#[test]
fn unannounced_scans(rt: HostRuntime) -> Result<(), Fail> {
    let (memory, mut first, mut last) = pair(rt.alloc(), SILENT)?;
    takes_turns(&rt, &memory, &mut first, &mut last);
    drop((memory, first, last));
    Ok(())
}

// The first port is spent in the first epoch, which the other one ends. It scans in a later one, where it isn't spent.
fn scans_spent(rt: &impl Abort, memory: &LongLived, first: &mut Port, last: &mut Port)
    requires first { IsOf memory.now first.old }
    requires last { IsOf memory.now last.old }
    requires both { 2 ≤ memory.now.about.sizes.m }
{
    sets_first(rt, memory, first, 11);
    sets_first(rt, memory, last, 12);
    sets_first(rt, memory, last, 13);
    shows(rt, memory, first, [13, 20]);
    sets_first(rt, memory, first, 14);
    shows(rt, memory, last, [14, 20]);
}

// A spent port announces its scan.
#[test]
fn announced_scans_of_spent_ports(rt: HostRuntime) -> Result<(), Fail> {
    let (memory, mut first, mut last) = pair(rt.alloc(), SPENT)?;
    scans_spent(&rt, &memory, &mut first, &mut last);
    drop((memory, first, last));
    Ok(())
}

// A spent port scans without an announcement.
#[test]
fn unannounced_scans_of_spent_ports(rt: HostRuntime) -> Result<(), Fail> {
    let (memory, mut first, mut last) = pair(rt.alloc(), SILENT)?;
    scans_spent(&rt, &memory, &mut first, &mut last);
    drop((memory, first, last));
    Ok(())
}

// Scans that no update disturbs store nothing, so that not even a spent port changes the epoch by them: the stamp of
// the next update is one of the first epoch.
fn scans_alone(rt: &impl Abort, memory: &LongLived, first: &mut Port, last: &mut Port)
    requires first { IsOf memory.now first.old }
    requires last { IsOf memory.now last.old }
    requires both { 2 ≤ memory.now.about.sizes.m }
{
    sets_first(rt, memory, first, 11);
    shows(rt, memory, first, [11, 20]);
    shows(rt, memory, first, [11, 20]);
    let Ok(Updated::Applied { stamp }) = memory.update(last, 0, 12) else {
        panic!(rt; "not applied");
    };
    assert!(rt; stamp < 1 << 23);
    shows(rt, memory, first, [12, 20]);
}

// Ports that are spent in the first epoch scan there.
#[test]
fn scans_of_spent_ports(rt: HostRuntime) -> Result<(), Fail> {
    let (memory, mut first, mut last) = pair(rt.alloc(), SPENT)?;
    scans_alone(&rt, &memory, &mut first, &mut last);
    drop((memory, first, last));
    Ok(())
}

// The same in a memory whose scans don't announce themselves.
#[test]
fn undisturbed_scans_of_spent_ports(rt: HostRuntime) -> Result<(), Fail> {
    let (memory, mut first, mut last) = pair(rt.alloc(), SILENT)?;
    scans_alone(&rt, &memory, &mut first, &mut last);
    drop((memory, first, last));
    Ok(())
}

// Two components keep their stamps, over changes of epoch too, until one of them is updated.
fn keeps_stamps(rt: &impl Abort, memory: &LongLived, first: &mut Port, last: &mut Port)
    requires first { IsOf memory.now first.old }
    requires last { IsOf memory.now last.old }
{
    let zero = reads(rt, memory, first, 0, 10);
    let one = reads(rt, memory, first, 1, 20);
    assert!(rt; memory.unchanged(first, &[0, 1], &[zero, one]));
    assert!(rt; memory.unchanged(last, &[1, 0], &[one, zero]));
    assert!(rt; !memory.unchanged(first, &[0, 1], &[one, zero]));
    assert!(rt; !memory.unchanged(first, &[1, 2], &[one, zero]));
    sets_first(rt, memory, last, 11);
    sets_first(rt, memory, last, 12);
    assert!(rt; !memory.unchanged(first, &[0, 1], &[zero, one]));
    assert!(rt; memory.unchanged(first, &[1], &[one]));
}

// The pool has one word, so that the second update changes the epoch.
#[test]
fn stamps_over_epochs(rt: HostRuntime) -> Result<(), Fail> {
    let (memory, mut first, mut last) = pair(rt.alloc(), SPENT)?;
    keeps_stamps(&rt, &memory, &mut first, &mut last);
    drop((memory, first, last));
    Ok(())
}

// Ports meet in one epoch, and then out of two.
fn meets(rt: &impl Abort, memory: &LongLived, first: &mut Port, last: &mut Port)
    requires first { IsOf memory.now first.old }
    requires last { IsOf memory.now last.old }
    requires both { 2 ≤ memory.now.about.sizes.m }
{
    sets_first(rt, memory, first, 11);
    memory.meet(first, last);
    shows(rt, memory, last, [11, 20]);
    sets_first(rt, memory, first, 12);
    sets_first(rt, memory, first, 13);
    memory.meet(last, first);
    shows(rt, memory, last, [13, 20]);
    sets_first(rt, memory, last, 14);
    memory.meet(last, first);
    shows(rt, memory, first, [14, 20]);
}

// The pool has one word, so that the first port changes the epoch twice between the meetings.
#[test]
fn meetings(rt: HostRuntime) -> Result<(), Fail> {
    let (memory, mut first, mut last) = pair(rt.alloc(), SPENT)?;
    meets(&rt, &memory, &mut first, &mut last);
    drop((memory, first, last));
    Ok(())
}

// The same ports meet where their scans aren't announced.
#[test]
fn meetings_beside_unannounced_scans(rt: HostRuntime) -> Result<(), Fail> {
    let (memory, mut first, mut last) = pair(rt.alloc(), SILENT)?;
    meets(&rt, &memory, &mut first, &mut last);
    drop((memory, first, last));
    Ok(())
}
