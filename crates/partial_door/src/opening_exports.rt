//! The functions for single openings that are called from C. Each returns 0 when the call was answered, and
//! otherwise the number of the first refusal that holds. When it is refused, handles and answers stay as they
//! were, apart from the one case named at [`partial_door_opening_close`].

ghost use Rattle.std.specs.Prelude.{◌≡◌, length, None, Some};
ghost use Rattle.partial_door.specs.declared.held.Held.{Held as HeldType};
ghost use Rattle.partial_door.specs.OpeningMemories.{AreOpeningsApart, layout_of};
ghost use Rattle.partial_door.specs.OpeningCalls.{OpeningReadEnds, OpeningScanEnds, OpeningStateEnds, OpeningUpdateEnds, OpeningUpdateIfEnds};
ghost use Rattle.partial_door.specs.OpeningExports.{AtOpeningHandle, ClosesOpeningHandle, CopiesAt, GivesOpeningAt, MeetsOpeningHandles, OpensAt, ReopensAt, TakesOpeningAt};

use crate::answers::{PortState, ReadAnswer, RoomSizes, ScanAnswer, UpdateAnswer};
use crate::codes::{FINE, HOLDS_NONE, HOLDS_ONE, Misuse, OUT_OF_MEMORY, VERSION};
use crate::handle::Handle;
use crate::opening_memories::{Unclosed, open_opening};
use std::alloc::Global;

/// Sets a component.
///
/// Returns 17 when the handle holds no port, 7 when `component` isn't below the number of components, and 9
/// when the port is marked for the pool or this call marks it.
#[unsafe(no_mangle)]
pub extern "C" fn partial_door_opening_update(
    port: &mut Handle,
    component: u32,
    value: u64,
    answer: &mut UpdateAnswer,
) -> u32
    ensures { AtOpeningHandle (answer.new ≡ answer.old) (OpeningUpdateEnds component value answer.old answer.new)
        port.old.held result port.new.held }
{
    let Some(held) = port.held() else {
        return Misuse::HoldsNone.code();
    };
    held.update_opening(component, value, answer)
}

/// Sets a component if it has the expected stamp.
///
/// Returns numbers as [`partial_door_opening_update`].
#[unsafe(no_mangle)]
pub extern "C" fn partial_door_opening_update_if(
    port: &mut Handle,
    component: u32,
    expected: u64,
    value: u64,
    answer: &mut UpdateAnswer,
) -> u32
    ensures { AtOpeningHandle (answer.new ≡ answer.old)
        (OpeningUpdateIfEnds component expected value answer.old answer.new) port.old.held result port.new.held }
{
    let Some(held) = port.held() else {
        return Misuse::HoldsNone.code();
    };
    held.update_if_opening(component, expected, value, answer)
}

/// Reads a component: its value and its stamp.
///
/// Returns 17 when the handle holds no port, and 7 when `component` isn't below the number of components.
#[unsafe(no_mangle)]
pub extern "C" fn partial_door_opening_read(
    port: &mut Handle,
    component: u32,
    answer: &mut ReadAnswer,
) -> u32
    ensures { AtOpeningHandle (answer.new ≡ answer.old) (OpeningReadEnds component answer.old answer.new)
        port.old.held result port.new.held }
{
    let Some(held) = port.held() else {
        return Misuse::HoldsNone.code();
    };
    held.read_opening(component, answer)
}

/// Scans the components `which` into `into`.
///
/// Returns 17 when the handle holds no port, 19 when the two lengths differ or exceed the number of
/// components, 7 when an index isn't below that number, and 9 or 8 when the port is marked for the pool or
/// the slots, or this call marks it.
#[unsafe(no_mangle)]
pub extern "C" fn partial_door_opening_scan(
    port: &mut Handle,
    which: &[u32],
    into: &mut [u64],
    answer: &mut ScanAnswer,
) -> u32
    ensures { AtOpeningHandle ((into.new ≡ into.old) × (answer.new ≡ answer.old))
        (OpeningScanEnds which.now into.old into.new answer.old answer.new) port.old.held result port.new.held }
{
    let Some(held) = port.held() else {
        return Misuse::HoldsNone.code();
    };
    held.scan_opening(which, into, answer)
}

/// Reports the number and the marks of a port.
///
/// Returns 17 when the handle holds no port.
#[unsafe(no_mangle)]
pub extern "C" fn partial_door_opening_state(port: &mut Handle, answer: &mut PortState) -> u32
    ensures { AtOpeningHandle (answer.new ≡ answer.old) (OpeningStateEnds answer.new)
        port.old.held result port.new.held }
{
    let Some(held) = port.held() else {
        return Misuse::HoldsNone.code();
    };
    held.state_opening(answer)
}

/// Opens a memory into an empty handle. The memory holds all its ports.
///
/// Returns 18 when the handle holds something, 1 to 4 for the first size out of its range, 5 when there are
/// not 1 to 64 ports, and 6 when an allocation was refused.
#[unsafe(no_mangle)]
pub extern "C" fn partial_door_opening_open(
    alloc: Global,
    opening: u64,
    initial: &[u64],
    room: &RoomSizes,
    ports: u32,
    memory: &mut Handle,
) -> u32
    ensures { OpensAt opening (layout_of (length initial.now) room.now) initial.now ports
        memory.old.held result memory.new.held }
{
    if let Some(held) = memory.take(alloc) {
        memory.put(held);
        return HOLDS_ONE;
    }
    match open_opening(alloc, opening, initial, room, ports) {
        Ok(held) => {
            memory.put(held);
            FINE
        }
        Err(code) => code,
    }
}

/// Opens a memory that goes on with the values of a closed one into an empty handle. The memory holds all
/// its ports.
///
/// Returns 18 when `memory` holds something, 17 when `closed` holds no closed memory, 1 to 4 for the first
/// size out of its range, 5 when there are not 1 to 64 ports, 13 when the closed memory has more
/// components, and 6 when an allocation was refused.
#[unsafe(no_mangle)]
pub extern "C" fn partial_door_opening_reopen(
    alloc: Global,
    opening: u64,
    closed: &mut Handle,
    components: u32,
    room: &RoomSizes,
    ports: u32,
    memory: &mut Handle,
) -> u32
    ensures same { closed.new.held ≡ closed.old.held }
    ensures opened { ReopensAt opening closed.old.held (layout_of components room.now) ports
        memory.old.held result memory.new.held }
{
    if let Some(held) = memory.take(alloc) {
        memory.put(held);
        return HOLDS_ONE;
    }
    let Some(held) = closed.take(alloc) else {
        return HOLDS_NONE;
    };
    let opened = held.reopen(alloc, opening, components, room, ports);
    closed.put(held);
    match opened {
        Ok(held) => {
            memory.put(held);
            FINE
        }
        Err(code) => code,
    }
}

/// Takes the last port that a memory holds out of it, into an empty handle.
///
/// Returns 18 when `port` holds something, 17 when `memory` holds no open memory, 21 when that memory holds
/// no port, and 6 when an allocation was refused.
#[unsafe(no_mangle)]
pub extern "C" fn partial_door_opening_take_port(
    alloc: Global,
    memory: &mut Handle,
    port: &mut Handle,
) -> u32
    ensures { TakesOpeningAt memory.old.held port.old.held result memory.new.held port.new.held }
{
    if let Some(held) = port.take(alloc) {
        port.put(held);
        return HOLDS_ONE;
    }
    let Some(mut home) = memory.take(alloc) else {
        return HOLDS_NONE;
    };
    let taken = home.take_opening_port(alloc);
    memory.put(home);
    match taken {
        Ok(own) => {
            port.put(own);
            FINE
        }
        Err(code) => code,
    }
}

/// Returns a port to its memory. Its handle is empty afterwards.
///
/// Returns 17 when `memory` holds no open memory or `port` no port, 20 when the port is of another memory,
/// and 6 when an allocation was refused.
#[unsafe(no_mangle)]
pub extern "C" fn partial_door_opening_give_port(
    alloc: Global,
    memory: &mut Handle,
    port: &mut Handle,
) -> u32
    requires { (h k : HeldType) → memory.old.held ≡ Some h → port.old.held ≡ Some k → AreOpeningsApart h k }
    ensures { GivesOpeningAt memory.old.held port.old.held result memory.new.held port.new.held }
{
    let Some(home) = memory.held() else {
        return HOLDS_NONE;
    };
    let Some(own) = port.take(alloc) else {
        return HOLDS_NONE;
    };
    match home.give_opening_port(own) {
        Ok(()) => FINE,
        Err((code, own)) => {
            port.put(own);
            code
        }
    }
}

/// Merges what two ports of a memory have observed.
///
/// Returns 17 when a handle holds no port, and 20 when the ports are of two memories.
#[unsafe(no_mangle)]
pub extern "C" fn partial_door_opening_meet(first: &mut Handle, second: &mut Handle) -> u32
    requires { (h k : HeldType) → first.old.held ≡ Some h → second.old.held ≡ Some k → AreOpeningsApart h k }
    ensures { MeetsOpeningHandles first.old.held second.old.held result first.new.held second.new.held }
{
    let Some(one) = first.held() else {
        return HOLDS_NONE;
    };
    let Some(other) = second.held() else {
        return HOLDS_NONE;
    };
    one.meet_opening(other)
}

/// Closes a memory to which all ports were returned. Its handle holds the closed memory afterwards.
///
/// Returns 17 when the handle holds no open memory, 22 when not all ports were returned, and 24 when all
/// were and another handle still references the memory. Returns 6 when an allocation was refused: then the
/// contents are lost and the handle is empty.
#[unsafe(no_mangle)]
pub extern "C" fn partial_door_opening_close(alloc: Global, memory: &mut Handle) -> u32
    ensures { ClosesOpeningHandle memory.old.held result memory.new.held }
{
    let Some(held) = memory.held() else {
        return HOLDS_NONE;
    };
    match held.close_opening(alloc) {
        Ok(()) => FINE,
        Err(Unclosed::Kept(code)) => code,
        Err(Unclosed::Lost) => {
            drop(memory.take(alloc));
            OUT_OF_MEMORY
        }
    }
}

/// Copies the values of a closed memory.
///
/// Returns 17 when the handle holds no closed memory, and 19 when `into` isn't as long as that memory has
/// components.
#[unsafe(no_mangle)]
pub extern "C" fn partial_door_opening_values(closed: &mut Handle, into: &mut [u64]) -> u32
    ensures same { closed.new.held ≡ closed.old.held }
    ensures copied { CopiesAt closed.old.held into.old result into.new }
{
    let Some(held) = closed.held() else {
        return HOLDS_NONE;
    };
    held.copy_values(into)
}

/// Empties a handle and frees what it held. Returns 0.
#[unsafe(no_mangle)]
pub extern "C" fn partial_door_free(alloc: Global, handle: &mut Handle) -> u32
    ensures code { result ≡ 0 }
    ensures empty { handle.new.held ≡ None }
{
    drop(handle.take(alloc));
    FINE
}

/// Returns the version of these functions. A header of another version may declare other ones.
#[unsafe(no_mangle)]
pub extern "C" fn partial_door_version() -> u32
    ensures { result ≡ 1000 }
{
    VERSION
}
