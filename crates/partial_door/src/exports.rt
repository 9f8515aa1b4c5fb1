//! The functions for long-lived memories that are called from C. Each returns 0 when the call was answered,
//! and otherwise the number of the first refusal that holds. When it is refused, handles, answers and values
//! stay as they were, apart from the one case named at [`partial_door_memory_close`].

ghost use Rattle.std.specs.Prelude.{◌≡◌, Some};
ghost use Rattle.partial_door.specs.declared.held.Held.{Held as HeldType};
ghost use Rattle.partial_door.specs.Calls.{NumberEnds, ReadEnds, ScanEnds, ScanStampedEnds, UnchangedEnds, UpdateEnds, UpdateIfEnds};
ghost use Rattle.partial_door.specs.Memories.{AreHeldApart, ArePortsApart, options_of};
ghost use Rattle.partial_door.specs.Exports.{AtHandle, ClosesHandle, GivesAt, MeetsHandles, OpensNewAt, TakesAt};

use crate::answers::{ArenaSizes, ReadAnswer, ScanAnswer, UpdateAnswer};
use crate::codes::{FINE, HOLDS_NONE, HOLDS_ONE, Misuse};
use crate::handle::Handle;
use crate::memories::{open, options_for};
use std::alloc::Global;

/// Sets a component.
///
/// Returns 17 when the handle holds no port of a long-lived memory, 7 when `component` isn't below the number
/// of components, 25 when the port entered a later epoch 16 times during the call, and 27 when the epoch has to
/// be changed and is the last one.
#[unsafe(no_mangle)]
pub extern "C" fn partial_door_port_update(
    port: &mut Handle,
    component: u32,
    value: u64,
    answer: &mut UpdateAnswer,
) -> u32
    ensures { AtHandle (answer.new ≡ answer.old) (UpdateEnds component value answer.old answer.new)
        port.old.held result port.new.held }
{
    let Some(held) = port.held() else {
        return Misuse::HoldsNone.code();
    };
    held.update(component, value, answer)
}

/// Sets a component that has the expected stamp. Otherwise `answer` has the stamp that it had instead.
///
/// Returns what [`partial_door_port_update`] returns.
#[unsafe(no_mangle)]
pub extern "C" fn partial_door_port_update_if(
    port: &mut Handle,
    component: u32,
    expected: u64,
    value: u64,
    answer: &mut UpdateAnswer,
) -> u32
    ensures { AtHandle (answer.new ≡ answer.old)
        (UpdateIfEnds component expected value answer.old answer.new) port.old.held result port.new.held }
{
    let Some(held) = port.held() else {
        return Misuse::HoldsNone.code();
    };
    held.update_if(component, expected, value, answer)
}

/// Reads a component: its value and its stamp.
///
/// Returns 17 when the handle holds no port of a long-lived memory, and 7 when `component` isn't below the
/// number of components.
#[unsafe(no_mangle)]
pub extern "C" fn partial_door_port_read(
    port: &mut Handle,
    component: u32,
    answer: &mut ReadAnswer,
) -> u32
    ensures { AtHandle (answer.new ≡ answer.old) (ReadEnds component answer.old answer.new)
        port.old.held result port.new.held }
{
    let Some(held) = port.held() else {
        return Misuse::HoldsNone.code();
    };
    held.read(component, answer)
}

/// Scans the components `which` into `into`.
///
/// Returns 17 when the handle holds no port of a long-lived memory, 19 when the two lengths differ or exceed
/// the number of components, 7 when an index isn't below that number, and 27 when the epoch has to be changed and
/// is the last one.
#[unsafe(no_mangle)]
pub extern "C" fn partial_door_port_scan(
    port: &mut Handle,
    which: &[u32],
    into: &mut [u64],
    answer: &mut ScanAnswer,
) -> u32
    ensures { AtHandle ((into.new ≡ into.old) × (answer.new ≡ answer.old))
        (ScanEnds which.now into.old into.new answer.old answer.new) port.old.held result port.new.held }
{
    let Some(held) = port.held() else {
        return Misuse::HoldsNone.code();
    };
    held.scan(which, into, answer)
}

/// Scans the components `which` into `into`, and their stamps into `stamps`, unless the scan took the view of an
/// update, which `answer` says: then `stamps` stays.
///
/// Returns 17 when the handle holds no port of a long-lived memory, 19 when two of the three lengths differ or
/// they exceed the number of components, 7 when an index isn't below that number, and 27 when the epoch has to be
/// changed and is the last one.
#[unsafe(no_mangle)]
pub extern "C" fn partial_door_port_scan_stamped(
    port: &mut Handle,
    which: &[u32],
    into: &mut [u64],
    stamps: &mut [u64],
    answer: &mut ScanAnswer,
) -> u32
    ensures { AtHandle ((into.new ≡ into.old) × (stamps.new ≡ stamps.old) × (answer.new ≡ answer.old))
        (ScanStampedEnds which.now into.old into.new stamps.old stamps.new answer.old answer.new)
        port.old.held result port.new.held }
{
    let Some(held) = port.held() else {
        return Misuse::HoldsNone.code();
    };
    held.scan_stamped(which, into, stamps, answer)
}

/// Says whether each of the components `which` still has the stamp beside it in `stamps`: 1 or 0.
///
/// Returns 17 when the handle holds no port of a long-lived memory, and 19 when the two lengths differ.
#[unsafe(no_mangle)]
pub extern "C" fn partial_door_port_unchanged(
    port: &mut Handle,
    which: &[u32],
    stamps: &[u64],
    answer: &mut u32,
) -> u32
    ensures { AtHandle (answer.new ≡ answer.old)
        (UnchangedEnds which.now stamps.now answer.old answer.new) port.old.held result port.new.held }
{
    let Some(held) = port.held() else {
        return Misuse::HoldsNone.code();
    };
    held.unchanged(which, stamps, answer)
}

/// Has two ports of a long-lived memory meet: each has observed afterwards all that either had observed before.
///
/// Returns 17 when a handle holds no port of a long-lived memory, and 20 when the ports are of two memories.
#[unsafe(no_mangle)]
pub extern "C" fn partial_door_port_meet(first: &mut Handle, second: &mut Handle) -> u32
    requires { (h k : HeldType) → first.old.held ≡ Some h → second.old.held ≡ Some k → ArePortsApart h k }
    ensures { MeetsHandles first.old.held second.old.held result first.new.held second.new.held }
{
    let Some(one) = first.held() else {
        return HOLDS_NONE;
    };
    let Some(other) = second.held() else {
        return HOLDS_NONE;
    };
    one.meet(other)
}

/// Reports the number of a port.
///
/// Returns 17 when the handle holds no port of a long-lived memory.
#[unsafe(no_mangle)]
pub extern "C" fn partial_door_port_number(port: &mut Handle, answer: &mut u32) -> u32
    ensures { AtHandle (answer.new ≡ answer.old) (NumberEnds answer.new)
        port.old.held result port.new.held }
{
    let Some(held) = port.held() else {
        return Misuse::HoldsNone.code();
    };
    held.number(answer)
}

/// Opens a long-lived memory into an empty handle. The memory holds all its ports.
///
/// Returns 18 when the handle holds something, 5 when there are not 1 to 255 ports, 1 when there are not 1 to
/// 65,536 values, 3 or 4 when a size of an arena is out of its range, and 6 when an allocation was refused.
#[unsafe(no_mangle)]
pub extern "C" fn partial_door_memory_new(
    alloc: Global,
    number: u64,
    initial: &[u64],
    ports: u32,
    arena: &ArenaSizes,
    memory: &mut Handle,
) -> u32
    ensures { OpensNewAt number initial.now ports (options_of arena.now)
        memory.old.held result memory.new.held }
{
    if let Some(held) = memory.take(alloc) {
        memory.put(held);
        return HOLDS_ONE;
    }
    match open(alloc, number, initial, ports, options_for(arena)) {
        Ok(held) => {
            memory.put(held);
            FINE
        }
        Err(code) => code,
    }
}

/// Takes the last port that a long-lived memory holds out of it, into an empty handle.
///
/// Returns 18 when `port` holds something, 17 when `memory` holds no open long-lived memory, 21 when that
/// memory holds no port, and 6 when an allocation was refused.
#[unsafe(no_mangle)]
pub extern "C" fn partial_door_memory_take_port(
    alloc: Global,
    memory: &mut Handle,
    port: &mut Handle,
) -> u32
    ensures { TakesAt memory.old.held port.old.held result memory.new.held port.new.held }
{
    if let Some(held) = port.take(alloc) {
        port.put(held);
        return HOLDS_ONE;
    }
    let Some(mut home) = memory.take(alloc) else {
        return HOLDS_NONE;
    };
    let taken = home.take_port(alloc);
    memory.put(home);
    match taken {
        Ok(own) => {
            port.put(own);
            FINE
        }
        Err(code) => code,
    }
}

/// Returns a port to its long-lived memory. Its handle is empty afterwards.
///
/// Returns 17 when `memory` holds no open long-lived memory or `port` no port of one, 20 when the port is of
/// another memory, and 6 when an allocation was refused.
#[unsafe(no_mangle)]
pub extern "C" fn partial_door_memory_give_port(
    alloc: Global,
    memory: &mut Handle,
    port: &mut Handle,
) -> u32
    requires { (h k : HeldType) → memory.old.held ≡ Some h → port.old.held ≡ Some k → AreHeldApart h k }
    ensures { GivesAt memory.old.held port.old.held result memory.new.held port.new.held }
{
    let Some(home) = memory.held() else {
        return HOLDS_NONE;
    };
    let Some(own) = port.take(alloc) else {
        return HOLDS_NONE;
    };
    match home.give_port(own) {
        Ok(()) => FINE,
        Err((code, own)) => {
            port.put(own);
            code
        }
    }
}

/// Closes a long-lived memory to which all ports were returned, and puts its values into `into`. Its handle is
/// empty afterwards.
///
/// Returns 17 when the handle holds no long-lived memory, 19 when `into` isn't as long as that has components,
/// 22 when not all ports were returned, and 24 when all were and another handle still references the memory. Returns 6
/// when an allocation was refused: then the handle holds the memory with all its ports. It may be closed later,
/// and its ports are not taken out again.
#[unsafe(no_mangle)]
pub extern "C" fn partial_door_memory_close(
    alloc: Global,
    memory: &mut Handle,
    into: &mut [u64],
) -> u32
    ensures { ClosesHandle memory.old.held into.old result memory.new.held into.new }
{
    let Some(held) = memory.held() else {
        return HOLDS_NONE;
    };
    match held.close(alloc, into) {
        Ok(()) => {
            drop(memory.take(alloc));
            FINE
        }
        Err(code) => code,
    }
}
