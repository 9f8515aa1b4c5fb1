//! The place of a scan in a history, and what a search leaves for the next one.

ghost use Rattle.std.specs.Prelude.{◌≡◌, ◌<◌, length};
ghost use Rattle.std.specs.List.{AllByRecursion};

use partial_model::Applied;
use partial_replay::{PlainWords, Wanted};
use std::alloc::{AllocError, Global};
use std::process::Abort;
use std::test::Fail;

// The place of a scan in a history of four entries over two components: 7 for component 0, 30 for
// component 1, and 10 and 7 for component 0. They hold 10 and 20 before it.
fn place(
    alloc: Global,
    room: &mut Wanted,
    began: usize,
    components: &[u32],
    values: &[u64],
) -> Result<usize, AllocError>
    requires room { room.old ≡ 2 }
    requires components { AllByRecursion (λ j. j < 2) components.now }
    requires values { length values.now ≡ length components.now }
    ensures { room.new ≡ 2 }
{
    let entry = |component, value, stamp| Applied {
        port: 0,
        component,
        value,
        stamp,
    };
    let history = [
        entry(0, 7, 8),
        entry(1, 30, 11),
        entry(0, 10, 14),
        entry(0, 7, 17),
    ];
    let words = [
        17, 11, 0, 10, 0, 0, 20, 0, 2, 7, 0, 5, 30, 0, 8, 10, 0, 14, 7, 0,
    ];
    let words = PlainWords::from(Vec::from_slice(alloc, &words)?);
    Ok(room.scan_place(&history, &words, began, components, values))
}

/// Judges that the scan has that place.
fn judge_place(
    rt: &impl Abort,
    alloc: Global,
    room: &mut Wanted,
    began: usize,
    components: &[u32],
    values: &[u64],
    expected: usize,
) -> Result<(), AllocError>
    requires room { room.old ≡ 2 }
    requires components { AllByRecursion (λ j. j < 2) components.now }
    requires values { length values.now ≡ length components.now }
    ensures { room.new ≡ 2 }
{
    let found = place(alloc, room, began, components, values)?;
    assert_eq!(rt; found, expected);
    Ok(())
}

#[test]
fn least_places(rt: HostRuntime) -> Result<(), Fail> {
    let mut room = Wanted::new(rt.alloc(), 2)?;
    judge_place(&rt, rt.alloc(), &mut room, 0, &[0, 1], &[7, 30], 2)?;
    judge_place(&rt, rt.alloc(), &mut room, 3, &[1, 0], &[30, 7], 4)?;
    judge_place(&rt, rt.alloc(), &mut room, 4, &[0, 1], &[7, 30], 4)?;
    judge_place(&rt, rt.alloc(), &mut room, 1, &[1], &[20], 1)?;
    Ok(())
}

#[test]
fn value_set_back(rt: HostRuntime) -> Result<(), Fail> {
    let mut room = Wanted::new(rt.alloc(), 2)?;
    judge_place(&rt, rt.alloc(), &mut room, 0, &[0], &[10], 0)?;
    judge_place(&rt, rt.alloc(), &mut room, 1, &[0], &[10], 3)?;
    judge_place(&rt, rt.alloc(), &mut room, 0, &[0, 1], &[10, 30], 3)?;
    Ok(())
}

#[test]
fn repeated_positions(rt: HostRuntime) -> Result<(), Fail> {
    let mut room = Wanted::new(rt.alloc(), 2)?;
    judge_place(&rt, rt.alloc(), &mut room, 0, &[0, 0, 1], &[7, 7, 20], 1)?;
    judge_place(&rt, rt.alloc(), &mut room, 1, &[0, 1, 0], &[10, 30, 10], 3)?;
    Ok(())
}

#[test]
fn no_positions(rt: HostRuntime) -> Result<(), Fail> {
    let mut room = Wanted::new(rt.alloc(), 2)?;
    judge_place(&rt, rt.alloc(), &mut room, 0, &[], &[], 0)?;
    judge_place(&rt, rt.alloc(), &mut room, 2, &[], &[], 2)?;
    Ok(())
}
