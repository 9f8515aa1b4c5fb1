//! Rows with values from outside, and a refused allocation.

ghost use Rattle.std.specs.Prelude.{◌≡◌, []};

use partial_intervals::Intervals;
use std::process::Abort;
use std::test::Fail;

// Adds the numbers, one after another, while there is room.
fn add_all(rt: &impl Abort, set: &mut Intervals, numbers: &[u32]) {
    for number in numbers {
        assert!(rt; set.len() < set.capacity());
        assert!(rt; *number < u32::MAX);
        set.add(*number);
    }
}

// That the set has exactly these intervals.
fn expect_intervals(rt: &impl Abort, set: &Intervals, intervals: &[(u32, u32)]) {
    assert_eq!(rt; set.len(), intervals.len());
    for (k, interval) in intervals.iter().enumerate() {
        assert!(rt; k < set.len());
        assert_eq!(rt; set.get(k), *interval);
    }
}

// Numbers beside others join their intervals.
fn joins(rt: &impl Abort, set: &mut Intervals) {
    assert_eq!(rt; set.capacity(), 3);
    assert!(rt; set.is_empty());
    add_all(rt, set, &[4, 0, 1, 3]);
    expect_intervals(rt, set, &[(0, 1), (3, 4)]);
    add_all(rt, set, &[2]);
    expect_intervals(rt, set, &[(0, 4)]);
}

// The numbers from 0 to 4 are in the set and no others, until it is cleared.
fn holds_five(rt: &impl Abort, set: &mut Intervals) {
    let next = (set.next_outside(0, 10), set.next_outside(0, 5));
    assert_eq!(rt; next, (Some(5), None));
    assert!(rt; set.contains(4) && !set.contains(5));
    set.clear();
    expect_intervals(rt, set, &[]);
    assert_eq!(rt; set.capacity(), 3);
}

#[test]
fn interval_set(rt: HostRuntime) -> Result<(), Fail> {
    let mut set = Intervals::with_capacity(rt.alloc(), 3)?;
    joins(&rt, &mut set);
    holds_five(&rt, &mut set);
    drop(set);
    Ok(())
}

// Intervals that stand after those of an empty set.
fn pushes(rt: &impl Abort, set: &mut Intervals)
    requires empty { set.old.list ≡ [] }
    requires room { set.old.capacity ≡ 2 }
{
    set.push_last(1, 2);
    set.push_last(4, u32::MAX - 1);
    expect_intervals(rt, set, &[(1, 2), (4, u32::MAX - 1)]);
    assert_eq!(rt; set.next_outside(1, 9), Some(3));
    assert_eq!(rt; set.next_outside(4, u32::MAX), None);
}

#[test]
fn pushes_behind_the_last(rt: HostRuntime) -> Result<(), Fail> {
    let mut set = Intervals::with_capacity(rt.alloc(), 2)?;
    pushes(&rt, &mut set);
    drop(set);
    Ok(())
}

#[test]
fn refuses_room_that_no_memory_has(rt: HostRuntime) {
    assert!(rt; Intervals::with_capacity(rt.alloc(), usize::MAX).is_err());
}
