//! Scans that give stamps, over changes of epoch.

ghost use Rattle.std.specs.Prelude.{◌≤◌};
ghost use Rattle.partial_long_lived.specs.Ports.{IsOf};

use crate::memories::{SILENT, SPENT, one, pair};
use partial_long_lived::{LongLived, Options, Port, Refused, Scanned, Updated, UpdatedIf};
use std::process::Abort;
use std::test::Fail;

// A scan whose first two collects were equal.
const AGREED: Scanned = Scanned {
    collects: 2,
    borrowed: None,
};

// Sets component 0, and returns its stamp.
fn sets(rt: &impl Abort, memory: &LongLived, port: &mut Port, value: u64) -> u64
    requires { IsOf memory.now port.old }
    ensures { IsOf memory.now port.new }
{
    let Ok(Updated::Applied { stamp }) = memory.update(port, 0, value) else {
        panic!(rt; "not applied");
    };
    stamp
}

// A scan of both components gives these values and stamps, component 1 first, and so do reads.
fn tells(rt: &impl Abort, memory: &LongLived, port: &mut Port, values: [u64; 2], stamps: [u64; 2])
    requires own { IsOf memory.now port.old }
    requires both { 2 ≤ memory.now.about.sizes.m }
    ensures { IsOf memory.now port.new }
{
    let mut into = [0u64; 2];
    let mut told = [0u64; 2];
    let scanned = memory.scan_stamped(port, &[1, 0], &mut into, &mut told);
    assert_eq!(rt; scanned, Ok(AGREED));
    assert_eq!(rt; into, values);
    assert_eq!(rt; told, stamps);
    assert_eq!(rt; memory.read(port, 1), Ok((values[0], stamps[0])));
    assert_eq!(rt; memory.read(port, 0), Ok((values[1], stamps[1])));
}

// The stamp that component 1 begins with.
fn carried(rt: &impl Abort, memory: &LongLived, port: &mut Port) -> u64
    requires { IsOf memory.now port.old }
    ensures { IsOf memory.now port.new }
{
    let Ok((20, stamp)) = memory.read(port, 1) else {
        panic!(rt; "not read");
    };
    stamp
}

// Sets component 0, which has the expected stamp, and returns its new one.
fn sets_expected(
    rt: &impl Abort,
    memory: &LongLived,
    port: &mut Port,
    expected: u64,
    value: u64,
) -> u64
    requires { IsOf memory.now port.old }
    ensures { IsOf memory.now port.new }
{
    let Ok(UpdatedIf::Applied { stamp }) = memory.update_if(port, 0, expected, value) else {
        panic!(rt; "not applied");
    };
    stamp
}

// The first stamp is one of the first epoch, and the second one of the second epoch.
fn are_in_two_epochs(rt: &impl Abort, one: u64, two: u64) {
    assert!(rt; one < 1 << 23);
    assert_eq!(rt; two >> 23, 1);
}

// The first port sets component 0 in two epochs, and scans with stamps in both. The other one, which stands in the
// first epoch, then scans in a later one, and is given the stamps there. An update may expect a stamp that a scan has
// given.
fn tells_stamps(rt: &impl Abort, memory: &LongLived, first: &mut Port, last: &mut Port)
    requires first { IsOf memory.now first.old }
    requires last { IsOf memory.now last.old }
    requires both { 2 ≤ memory.now.about.sizes.m }
{
    let second = carried(rt, memory, first);
    let one = sets(rt, memory, first, 11);
    tells(rt, memory, first, [20, 11], [second, one]);
    tells(rt, memory, last, [20, 11], [second, one]);
    let two = sets(rt, memory, first, 12);
    are_in_two_epochs(rt, one, two);
    tells(rt, memory, first, [20, 12], [second, two]);
    tells(rt, memory, last, [20, 12], [second, two]);
    let three = sets_expected(rt, memory, last, two, 13);
    tells(rt, memory, last, [20, 13], [second, three]);
}

// The pool has one word, so that the second update changes the epoch.
#[test]
fn stamps_are_told_over_epochs(rt: HostRuntime) -> Result<(), Fail> {
    let (memory, mut first, mut last) = pair(rt.alloc(), SPENT)?;
    tells_stamps(&rt, &memory, &mut first, &mut last);
    drop((memory, first, last));
    Ok(())
}

// The scan of the other port isn't announced: it gives the stamps with which an epoch begins.
#[test]
fn stamps_are_told_without_announcements(rt: HostRuntime) -> Result<(), Fail> {
    let (memory, mut first, mut last) = pair(rt.alloc(), SILENT)?;
    tells_stamps(&rt, &memory, &mut first, &mut last);
    drop((memory, first, last));
    Ok(())
}

// A component that isn't there is refused, and the caller's values stay.
fn refuses(rt: &impl Abort, memory: &LongLived, port: &mut Port)
    requires own { IsOf memory.now port.old }
    requires both { 2 ≤ memory.now.about.sizes.m }
    ensures { IsOf memory.now port.new }
{
    let mut into = [5u64; 2];
    let mut told = [6u64; 2];
    let ended = memory.scan_stamped(port, &[1, 2], &mut into, &mut told);
    assert_eq!(rt; ended, Err(Refused::Component));
    assert_eq!(rt; (into, told), ([5, 5], [6, 6]));
}

// A scan of no position gives none.
fn tells_nothing(rt: &impl Abort, memory: &LongLived, port: &mut Port)
    requires { IsOf memory.now port.old }
{
    let ended = memory.scan_stamped(port, &[], &mut [], &mut []);
    let none = Scanned {
        collects: 0,
        borrowed: None,
    };
    assert_eq!(rt; ended, Ok(none));
}

#[test]
fn refused_scans(rt: HostRuntime) -> Result<(), Fail> {
    let (memory, mut port) = one(rt.alloc(), Options::default())?;
    refuses(&rt, &memory, &mut port);
    tells_nothing(&rt, &memory, &mut port);
    drop((memory, port));
    Ok(())
}
