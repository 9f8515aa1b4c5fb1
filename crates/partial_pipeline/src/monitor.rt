//! The monitor. It scans the counts of all stages.

ghost use Rattle.std.specs.Prelude.{◌≡◌, ◌+◌, ◌<◌, ◌≤◌, [], length, None, IfOk, IfSome};
ghost use Rattle.std.specs.Vec.{vec_capacity};
ghost use Rattle.partial_long_lived.specs.Ports.{IsOf};
ghost use Rattle.partial_pipeline.specs.Stages.{AreRooms, IsEachStage, IsNewStage, IsWatching, GoesOnNoting, Sees};

use crate::work::Watch;
use partial_long_lived::{LongLived, Port, Refused};
use std::alloc::{AllocError, Global};
use std::sync::atomic::{AtomicBool, Ordering};

/// The monitor, with room for all its scans: it takes no memory while it scans.
#[derive(Drop)]
pub struct Monitor {
    /// The monitor's port.
    pub port: Port,
    /// The components of all stages, in order.
    pub stages: Vec<u32>,
    /// Room for the scans that it will make while the stages work, one element for each.
    pub rooms: Vec<Vec<u64>>,
    /// The scans that it has made, in order: the count of each stage.
    pub scans: Vec<Vec<u64>>,
    /// Room for the last scan, which follows the end of all stages.
    pub room: Vec<u64>,
}

// All that a monitor has but its port.
#[derive(Drop)]
struct Space {
    stages: Vec<u32>,
    rooms: Vec<Vec<u64>>,
    scans: Vec<Vec<u64>>,
    room: Vec<u64>,
}

// The numbers of the stages, in order.
fn numbers(alloc: Global, stages: u32) -> Result<Vec<u32>, AllocError>
    ensures { IfOk result (λ all. IsEachStage stages all.items) }
{
    let mut all = Vec::with_capacity(alloc, stages as usize)?;
    for stage in 0..stages {
        all.push_reserved(stage);
    }
    Ok(all)
}

// Room for `scans` scans of `stages` stages.
fn rooms_for(alloc: Global, stages: u32, scans: usize) -> Result<Vec<Vec<u64>>, AllocError>
    ensures rooms { IfOk result (λ rooms. AreRooms stages rooms.items) }
    ensures count { IfOk result (λ rooms. length rooms.items ≡ scans) }
{
    let mut rooms = Vec::with_capacity(alloc, scans)?;
    for _scan in 0..scans {
        rooms.push_reserved(vec![in alloc; 0; stages as usize]?);
    }
    Ok(rooms)
}

// All that a monitor of `stages` stages has but its port, with room for `looks` scans and for the last one.
fn space_for(alloc: Global, stages: u32, looks: usize) -> Result<Space, AllocError>
    ensures each { IfOk result (λ space. IsEachStage stages space.stages.items) }
    ensures rooms { IfOk result (λ space. AreRooms stages space.rooms.items) }
    ensures last { IfOk result (λ space. length space.room.items ≡ stages) }
    ensures none { IfOk result (λ space. space.scans.items ≡ []) }
    ensures room { IfOk result (λ space. length space.rooms.items ≤ vec_capacity space.scans) }
{
    Ok(Space {
        stages: numbers(alloc, stages)?,
        rooms: rooms_for(alloc, stages, looks)?,
        scans: Vec::with_capacity(alloc, looks)?,
        room: vec![in alloc; 0; stages as usize]?,
    })
}

/// Scans the counts of these stages into `room`, and returns it. Returns `None` when the scan is refused since the
/// memory's epochs are used up.
pub fn scan_into(
    memory: &LongLived,
    port: &mut Port,
    stages: &[u32],
    mut room: Vec<u64>,
) -> Option<Vec<u64>>
    requires own { IsOf memory.now port.old }
    requires stages { IsEachStage memory.now.about.sizes.m stages.now }
    requires some { 0 < memory.now.about.sizes.m }
    requires room { length room.items ≡ memory.now.about.sizes.m }
    ensures own { IsOf memory.now port.new }
    ensures some { IfSome result (λ counts. Sees port.old stages.now counts.items port.new) }
    ensures none { result ≡ None → GoesOnNoting port.old port.new [] }
{
    match memory.scan(port, stages, room.as_mut_slice()) {
        Ok(_scanned) => Some(room),
        Err(Refused::EpochsSpent) => None,
        Err(Refused::Component) => unreachable!(),
        Err(Refused::Overtaken) => unreachable!(),
    }
}

impl Monitor {
    /// Makes a monitor of `stages` stages, with room for `looks` scans and for the last one.
    ///
    /// # Errors
    /// [`AllocError`] when an allocation was refused. The port is gone.
    pub fn new(
        alloc: Global,
        memory: &LongLived,
        port: Port,
        stages: u32,
        looks: usize,
    ) -> Result<Monitor, AllocError>
        requires new { IsNewStage memory.now stages port }
        requires stages { stages ≡ memory.now.about.sizes.m }
        ensures { IfOk result (IsWatching memory.now) }
    {
        let _of = memory;
        let Space {
            stages,
            rooms,
            scans,
            room,
        } = space_for(alloc, stages, looks)?;
        Ok(Monitor {
            port,
            stages,
            rooms,
            scans,
            room,
        })
    }

    /// Scans again and again, and passes each scan to the watch. It ends when no room is left, when a scan is refused
    /// since the memory's epochs are used up, or with a scan that began when all stages had ended.
    pub fn watch<V: Watch>(
        mut self,
        memory: &LongLived,
        ended: &[AtomicBool],
        watch: &mut V,
    ) -> Monitor
        requires watching { IsWatching memory.now self }
        requires some { 0 < memory.now.about.sizes.m }
        ensures { IsWatching memory.now result }
    {
        while let Some(room) = self.rooms.pop() {
            let are_over = ended.iter().all(|flag| flag.load(Ordering::SeqCst));
            let Some(counts) = scan_into(memory, &mut self.port, &self.stages, room) else {
                break;
            };
            watch.see(&counts);
            self.scans.push_reserved(counts);
            if are_over {
                break;
            }
        }
        self
    }
}
