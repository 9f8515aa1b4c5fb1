//! Calls whose answers were worked out by hand. A test makes them by these, so that its own proof knows no more of a
//! call than that the port stays one of the memory.

ghost use Rattle.std.specs.Prelude.{◌≤◌};
ghost use Rattle.partial_memory.specs.Ports.{IsOf};

use partial_memory::{Memory, Port, Scanned, Updated, UpdatedIf};
use std::process::Abort;

pub(super) const COLLECTED_TWICE: Scanned = Scanned {
    collects: 2,
    borrowed: None,
};

/// An update that is applied, with that stamp.
pub(super) fn applies(
    rt: &impl Abort,
    memory: &Memory,
    me: &mut Port,
    component: u32,
    value: u64,
    stamp: u64,
)
    requires { IsOf memory.now me.old }
    ensures { IsOf memory.now me.new }
{
    let updated = memory.update(me, component, value);
    assert_eq!(rt; updated, Ok(Updated::Applied { stamp }));
}

/// A conditional update with that answer.
pub(super) fn updates_if(
    rt: &impl Abort,
    memory: &Memory,
    me: &mut Port,
    component: u32,
    expected: u64,
    value: u64,
    answer: UpdatedIf,
)
    requires { IsOf memory.now me.old }
    ensures { IsOf memory.now me.new }
{
    let updated = memory.update_if(me, component, expected, value);
    assert_eq!(rt; updated, Ok(answer));
}

/// A read of that value and stamp.
pub(super) fn reads(
    rt: &impl Abort,
    memory: &Memory,
    me: &mut Port,
    component: u32,
    value: u64,
    stamp: u64,
)
    requires { IsOf memory.now me.old }
    ensures { IsOf memory.now me.new }
{
    assert_eq!(rt; memory.read(me, component), Ok((value, stamp)));
}

/// A scan of two positions in two collects, with these values.
pub(super) fn scans(
    rt: &impl Abort,
    memory: &Memory,
    me: &mut Port,
    components: [u32; 2],
    values: [u64; 2],
)
    requires { IsOf memory.now me.old × (2 ≤ memory.now.about.sizes.m) }
    ensures { IsOf memory.now me.new }
{
    let mut into = [99u64; 2];
    let scanned = memory.scan(me, &components, &mut into);
    assert_eq!(rt; scanned, Ok(COLLECTED_TWICE));
    assert_eq!(rt; into, values);
}
