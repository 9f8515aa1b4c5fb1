//! The run of a pipeline: each stage in a thread of its own, and the monitor beside them.

ghost use Rattle.std.specs.Prelude.{◌≡◌, ◌<◌, ◌≤◌, ◌+◌, [], length, IfOk, IfErr};
ghost use Rattle.std.specs.Vec.{vec_capacity};
ghost use Rattle.partial_pipeline.specs.Pipeline.{AreFrom, AreStages, HaveEnded, IsOrderly, MayNotRun};
ghost use Rattle.partial_pipeline.specs.Stages.{HaveMet, IsStageDone, IsNewStage, IsOpened, IsStageStarted, IsWatching, IsWorking, Opens};

use crate::error::PipelineError;
use crate::monitor::{Monitor, scan_into};
use crate::report::PipelineReport;
use crate::stage::{Stage, StageEnd, Worked};
use crate::work::{Watch, Work};
use partial_long_lived::{LongLived, Options, Port};
use std::alloc::{AllocError, Global};
use std::snapshot::Snapshot;
use std::sync::Wait;
use std::sync::atomic::AtomicBool;
use std::thread;
use std::thread::{Promise, PromisedHandle, Scope, Threads};

/// A pipeline that is to run.
#[derive(Clone, Copy, Debug, PartialEq, Eq)]
pub struct Pipeline {
    /// How many stages it has: 1 to 63.
    pub stages: u32,
    /// How many items there are.
    pub items: u64,
    /// How many scans the monitor makes at most while the stages work.
    pub looks: usize,
    /// How much an arena of its memory holds. A pool for more updates makes changes of epoch rarer, and takes more
    /// memory.
    pub options: Options,
}

// What a stage's thread promises about the port that it returns.
#[derive(Drop)]
struct Works {
    memory: Snapshot<LongLived>,
    items: u64,
    stage: u32,
}

impl Promise<Worked> for Works {
    ghost use Rattle.partial_pipeline.specs.Stages.{IsStageDone};

    ghost kept_by = { λ p w. IsStageDone p.memory.value p.items p.stage w };
}

// The monitor, and the ports of the stages that have ended. Each of these has met the monitor's port.
#[derive(Drop)]
struct Joined {
    monitor: Monitor,
    ports: Vec<Port>,
    ends: Vec<StageEnd>,
}

// Room for what a run has of each stage: the flag that says whether it has ended, and then its thread, its port and its
// end.
#[derive(Drop)]
struct Room {
    ended: Vec<AtomicBool>,
    started: Vec<PromisedHandle<Worked, Works>>,
    ports: Vec<Port>,
    ends: Vec<StageEnd>,
}

// A flag for each stage that says whether it has ended. No stage has.
fn flags(alloc: Global, stages: usize) -> Result<Vec<AtomicBool>, AllocError> {
    let mut ended = Vec::with_capacity(alloc, stages)?;
    for _stage in 0..stages {
        ended.push_reserved(AtomicBool::new(false));
    }
    Ok(ended)
}

// Room for what a run has of each stage.
fn room_for(alloc: Global, stages: usize) -> Result<Room, AllocError>
    ensures started { IfOk result (λ room. (room.started.items ≡ []) × (stages ≤ vec_capacity room.started)) }
    ensures ports { IfOk result (λ room. (room.ports.items ≡ []) × (stages ≤ vec_capacity room.ports)) }
    ensures ends { IfOk result (λ room. (room.ends.items ≡ []) × (stages ≤ vec_capacity room.ends)) }
{
    Ok(Room {
        ended: flags(alloc, stages)?,
        started: Vec::with_capacity(alloc, stages)?,
        ports: Vec::with_capacity(alloc, stages)?,
        ends: Vec::with_capacity(alloc, stages)?,
    })
}

// Starts the stages of these ports, each in a thread of its own.
fn start<'s, 'e, W: Work>(
    scope: &'s Scope<'s, &'e ()>,
    memory: &'s LongLived,
    items: u64,
    ended: &'s [AtomicBool],
    work: &'s W,
    ports: Vec<Port>,
    mut started: Vec<PromisedHandle<Worked, Works>>,
) -> Result<Vec<PromisedHandle<Worked, Works>>, AllocError>
    requires new { AreFrom (IsNewStage memory.now) 0 ports.items }
    requires inside { length ports.items ≤ memory.now.about.sizes.m }
    requires room { (started.items ≡ []) × (length ports.items ≤ vec_capacity started) }
    ensures started { IfOk result (λ handles. AreFrom (IsStageStarted memory.now items) 0 handles.items) }
    ensures count { IfOk result (λ handles. length handles.items ≡ length ports.items) }
{
    for port in ports {
        let promise = Works {
            memory: Snapshot::of(memory),
            items,
            stage: port.number(),
        };
        let stage = Stage::new(memory, port, items);
        let run = move || -> Worked
            requires { IsWorking memory.now stage }
            ensures { IsStageDone memory.entry.now stage.items stage.port.number result }
        { stage.run(memory, ended, work) };
        started.push_reserved(scope.spawn_with(promise, run)?);
    }
    Ok(started)
}

// Waits for the stages to end, in order. The port of each stage meets the monitor's.
fn join<R: Threads>(
    rt: &R,
    memory: &LongLived,
    items: u64,
    started: Vec<PromisedHandle<Worked, Works>>,
    mut joined: Joined,
) -> Joined
    requires started { AreFrom (IsStageStarted memory.now items) 0 started.items }
    requires watching { IsWatching memory.now joined.monitor }
    requires empty { (joined.ports.items ≡ []) × (joined.ends.items ≡ []) }
    requires room { (length started.items ≤ vec_capacity joined.ports) ×
        (length started.items ≤ vec_capacity joined.ends) }
    ensures { HaveMet memory.now items (length started.items) result }
{
    let _all = items;
    for handle in started {
        let Worked { mut port, end } = handle.join(rt);
        memory.meet(&mut joined.monitor.port, &mut port);
        joined.ports.push_reserved(port);
        joined.ends.push_reserved(end);
    }
    joined
}

// Scans once more, and closes the memory with all ports.
fn close(
    alloc: Global,
    memory: LongLived,
    items: u64,
    joined: Joined,
) -> Result<PipelineReport, AllocError>
    requires opens { Opens memory }
    requires met { HaveMet memory items memory.about.sizes.m joined }
    ensures orderly { IfOk result (IsOrderly memory.about.sizes.m) }
    ensures ended { IfOk result (HaveEnded memory.about.sizes.m items) }
{
    let _all = items;
    let Joined {
        monitor,
        ports,
        ends,
    } = joined;
    let Monitor {
        mut port,
        stages,
        rooms: _,
        scans,
        room,
    } = monitor;
    let last = scan_into(&memory, &mut port, &stages, room);
    let Ok(counts) = memory.close(alloc, port, ports) else {
        return Err(AllocError);
    };
    Ok(PipelineReport {
        scans,
        last,
        counts,
        ends,
    })
}

// Runs the stages and the monitor on a memory that was opened for them, until all stages have ended. The last port is
// the monitor's.
fn run_stages<R: Threads + Wait + Sync, W: Work, V: Watch>(
    rt: &R,
    alloc: Global,
    memory: &LongLived,
    mut ports: Vec<Port>,
    items: u64,
    looks: usize,
    work: &W,
    watch: &mut V,
) -> Result<Joined, AllocError>
    requires { IsOpened memory.now ports.items }
    ensures { IfOk result (HaveMet memory.now items memory.now.about.sizes.m) }
{
    let Some(port) = ports.pop() else {
        unreachable!();
    };
    let stages = ports.len();
    let monitor = Monitor::new(alloc, memory, port, stages as u32, looks)?;
    let Room {
        ended,
        started,
        ports: met,
        ends,
    } = room_for(alloc, stages)?;
    let over = ended.as_slice();
    thread::scope(
        thread::scope_env(),
        rt,
        |scope| -> Result<Joined, AllocError>
            requires new { AreFrom (IsNewStage memory.now) 0 ports.items }
            requires some { (0 < memory.now.about.sizes.m) × (length ports.items ≡ memory.now.about.sizes.m) }
            requires started { (started.items ≡ []) × (length ports.items ≤ vec_capacity started) }
            requires watching { IsWatching memory.now monitor }
            requires met { (met.items ≡ []) × (length ports.items ≤ vec_capacity met) }
            requires ends { (ends.items ≡ []) × (length ports.items ≤ vec_capacity ends) }
            ensures { IfOk result (HaveMet memory.entry.now items memory.entry.now.about.sizes.m) }
        {
            let started = start(scope, memory, items, over, work, ports, started)?;
            let monitor = monitor.watch(memory, over, watch);
            let joined = Joined {
                monitor,
                ports: met,
                ends,
            };
            Ok(join(rt, memory, items, started, joined))
        },
    )
}

// Runs the stages and the monitor on a memory that was opened for them, and closes it. The last port is the monitor's.
fn run_on<R: Threads + Wait + Sync, W: Work, V: Watch>(
    rt: &R,
    alloc: Global,
    memory: LongLived,
    ports: Vec<Port>,
    items: u64,
    looks: usize,
    work: &W,
    watch: &mut V,
) -> Result<PipelineReport, AllocError>
    requires { IsOpened memory ports.items }
    ensures orderly { IfOk result (IsOrderly memory.about.sizes.m) }
    ensures ended { IfOk result (HaveEnded memory.about.sizes.m items) }
{
    let joined = run_stages(rt, alloc, &memory, ports, items, looks, work, watch)?;
    close(alloc, memory, items, joined)
}

/// Runs a pipeline over a long-lived memory, with a component and a thread for each stage. Component k holds the
/// count of stage k: how many items it has worked on. The first stage works on the items 1 to `items`, and each
/// further stage on those that the stage before it has worked on. A stage publishes its count after each item.
/// Meanwhile a monitor, in the caller's thread, makes up to `looks` scans of all counts and passes each to the
/// watch. It ends early when all stages have ended.
///
/// In each scan the count of each stage is at most that of the stage before it. From one scan to the next no count
/// falls, whatever epochs lie between them. When all stages have ended, their ports meet the monitor's, which scans
/// once more, and the memory is closed with all ports. That last scan, unless it is refused, has the very counts
/// with which the memory is closed.
///
/// There is one end for each stage. No count passes `items`, and the count of a stage that has finished is `items`.
///
/// The memory never wears out. An update that is overtaken by changes of epoch is tried again. Only when the memory's
/// 2^41 epochs are used up a stage's update is refused, and the stage ends; the stages after it end when they have
/// worked on what was left. All memory, apart from that of closing, is taken before the first thread starts.
///
/// # Errors
///
/// [`PipelineError::Stages`] exactly when there are not 1 to 63 stages. Otherwise [`PipelineError::Lists`] and
/// [`PipelineError::Pool`] when the options ask for too many list words or pool words, and
/// [`PipelineError::OutOfMemory`] when an allocation was refused or a thread couldn't be started. It returns when all
/// threads that were started have ended, and nothing is left of the pipeline.
pub fn run_pipeline<R: Threads + Wait + Sync, W: Work, V: Watch>(
    rt: &R,
    alloc: Global,
    pipeline: Pipeline,
    work: &W,
    watch: &mut V,
) -> Result<PipelineReport, PipelineError>
    ensures ok { IfOk result (IsOrderly pipeline.stages) }
    ensures ended { IfOk result (HaveEnded pipeline.stages pipeline.items) }
    ensures many { IfOk result (λ _. AreStages pipeline.stages) }
    ensures err { IfErr result (MayNotRun pipeline.stages pipeline.options) }
{
    let Pipeline {
        stages,
        items,
        looks,
        options,
    } = pipeline;
    if stages < 1 || stages > 63 {
        return Err(PipelineError::Stages);
    }
    let zeros = vec![in alloc; 0; stages as usize]?;
    let (memory, ports) = LongLived::open(alloc, &zeros, stages + 1, options)?;
    Ok(run_on(rt, alloc, memory, ports, items, looks, work, watch)?)
}
