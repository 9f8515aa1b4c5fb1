//! The answers of the calls, laid out as in C.

ghost use Rattle.std.specs.Prelude.{◌≡◌};
ghost use Rattle.partial_door.specs.OpeningCalls.{port_state as state_of, scan_answer as answer_of};
ghost use Rattle.partial_door.specs.Calls.{update_answer as update_of, update_if_answer as update_if_of};

use partial_long_lived::{Updated, UpdatedIf};
use partial_memory::{Port, Scanned};

/// The answer of an update or a conditional update.
#[repr(C)]
#[derive(Clone, Copy)]
pub struct UpdateAnswer {
    /// The stamp of this update when it was applied. Otherwise the stamp that the component had instead:
    /// that of the update that overwrote this one, or another one than the expected.
    pub stamp: u64,
    /// 1 when the update was applied, otherwise 0.
    pub applied: u32,
}

/// The answer of a read.
#[repr(C)]
#[derive(Clone, Copy)]
pub struct ReadAnswer {
    /// The value of the component.
    pub value: u64,
    /// The stamp of the update that wrote it.
    pub stamp: u64,
}

/// The answer of a scan, beside its values.
#[repr(C)]
#[derive(Clone, Copy)]
pub struct ScanAnswer {
    /// The stamp of the update whose view the scan took, or 0 when it took none.
    pub stamp: u64,
    /// How many collects it made: 0 for a scan of no position, otherwise 2 to r + 2 for r positions.
    pub collects: u32,
    /// 1 when the scan took a view, otherwise 0.
    pub borrowed: u32,
}

/// The number and the marks of a port.
#[repr(C)]
#[derive(Clone, Copy)]
pub struct PortState {
    /// The number of the port, counted from 0.
    pub number: u32,
    /// 1 when the port is marked for the pool, otherwise 0.
    pub pool_spent: u32,
    /// 1 when the port is marked for the slots, otherwise 0.
    pub slots_spent: u32,
}

/// The sizes of a memory, apart from the number of its components.
#[repr(C)]
#[derive(Clone, Copy)]
pub struct RoomSizes {
    /// How many scans may announce themselves: 1 to 65,536.
    pub slots: u32,
    /// How many list words there are, for lists of vacated slots: at most 65,536.
    pub lists: u32,
    /// How many pool words there are, for records and announcements: 3 for each component to 4,194,304.
    pub pool: u32,
}

/// The sizes of an arena of a long-lived memory.
#[repr(C)]
#[derive(Clone, Copy)]
pub struct ArenaSizes {
    /// How many list words there are, for lists of vacated slots: at most 65,536.
    pub lists: u32,
    /// How many pool words are claimed in an epoch before the memory goes on to the next one: at most 4,194,304, less 97
    /// for each port, 2 for each port and component, and 3 for each component. 0 means as many as suit the number of
    /// ports.
    pub pool: u32,
}

/// Lays out how an update of a long-lived memory ended.
pub fn update_answer(updated: Updated) -> UpdateAnswer
    ensures { result ≡ update_of updated }
{
    match updated {
        Updated::Applied { stamp } => UpdateAnswer { stamp, applied: 1 },
        Updated::Lost { by } => UpdateAnswer {
            stamp: by,
            applied: 0,
        },
    }
}

/// Lays out how a conditional update of a long-lived memory ended.
pub fn update_if_answer(updated: UpdatedIf) -> UpdateAnswer
    ensures { result ≡ update_if_of updated }
{
    match updated {
        UpdatedIf::Applied { stamp } => UpdateAnswer { stamp, applied: 1 },
        UpdatedIf::Changed { by } => UpdateAnswer {
            stamp: by,
            applied: 0,
        },
    }
}

/// Lays out how a scan was made.
pub fn scan_answer(scanned: Scanned) -> ScanAnswer
    ensures { result ≡ answer_of scanned }
{
    let Scanned { collects, borrowed } = scanned;
    match borrowed {
        Some(stamp) => ScanAnswer {
            stamp,
            collects,
            borrowed: 1,
        },
        None => ScanAnswer {
            stamp: 0,
            collects,
            borrowed: 0,
        },
    }
}

/// Lays out the number and the marks of a port.
pub fn port_state(port: &Port) -> PortState
    ensures { result ≡ state_of port.now }
{
    PortState {
        number: port.number(),
        pool_spent: u32::from(port.pool_spent()),
        slots_spent: u32::from(port.slots_spent()),
    }
}
