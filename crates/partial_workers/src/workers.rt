//! All ports of a memory at work, side by side, each in a thread of its own.

ghost use Rattle.std.specs.Prelude.{◌≡◌, ◌≤◌, ℕ, List, [], length, map, IfOk};
ghost use Rattle.std.specs.Vec.{vec_capacity};
ghost use Rattle.partial_model.specs.declared.call.Call.{Call as CallType};
ghost use Rattle.partial_memory.specs.Ports.{IsOf, MemoryView};
ghost use Rattle.partial_workers.specs.Answered.{AreEach, AreMakable, AreRight, IsCallWithin};
ghost use Rattle.partial_workers.specs.Work.{ScanHasRoom, HaveCome, HaveRooms, IsWorkDone, IsHired, IsNewWork, IsOpenedFor, IsWorkerReady, IsWorkStarted, WasClosedLawfully, calls_of};

use crate::error::RunError;
use crate::gate::Gate;
use crate::worker::{Job, Worked, Worker};
use partial_memory::{Closed, Memory, Port};
use partial_model::{Answer, Call, Sequence};
use std::alloc::{AllocError, Global};
use std::snapshot::Snapshot;
use std::sync::Wait;
use std::thread;
use std::thread::{Promise, PromisedHandle, Scope, Threads};

// What a worker's thread promises of its port and its answers.
#[derive(Drop)]
struct Works<'a> {
    memory: Snapshot<Memory>,
    port: u32,
    calls: Snapshot<&'a [Call]>,
}

impl Promise<Worked> for Works<'_> {
    ghost use Rattle.partial_workers.specs.Work.{IsWorkDone};

    ghost kept_by = { λ p w. IsWorkDone p.memory.value p.port p.calls.value.now w };
}

// Room for the answers of the workers, made before they start.
#[derive(Drop)]
struct Results {
    ports: Vec<Port>,
    answers: Vec<Vec<Answer>>,
}

// The room for a call's values.
fn room_for(alloc: Global, call: &Call) -> Result<Vec<u64>, AllocError>
    ensures { IfOk result (λ room. (m : ℕ) → IsCallWithin m call.now → ScanHasRoom m call.now room.items) }
{
    match call {
        Call::Scan { components } => vec![in alloc; 0; components.len()],
        _ => Ok(Vec::new(alloc)),
    }
}

// The calls of a port, each with its room.
fn jobs_of(alloc: Global, calls: &[Call]) -> Result<Vec<Job<'_>>, AllocError>
    ensures calls { IfOk result (λ jobs. calls_of jobs.items ≡ calls.now) }
    ensures rooms { IfOk result (λ jobs. HaveRooms jobs.items) }
{
    let mut jobs = Vec::with_capacity(alloc, calls.len())?;
    for call in calls {
        jobs.push_reserved(Job {
            call,
            room: room_for(alloc, call)?,
        });
    }
    Ok(jobs)
}

// A worker for each port, in order.
fn hire<'a>(
    alloc: Global,
    memory: &Memory,
    calls: &[&'a [Call]],
    ports: Vec<Port>,
) -> Result<Vec<Worker<'a>>, AllocError>
    requires { AreEach (IsNewWork memory.now) 0 (map (λ c. c.now) calls.now) ports.items }
    ensures { IfOk result (λ workers. AreEach (IsHired memory.now) 0 (map (λ c. c.now) calls.now) workers.items) }
{
    let _of = memory;
    let mut workers = Vec::with_capacity(alloc, ports.len())?;
    for port in ports {
        let own = calls[port.number() as usize];
        let jobs = jobs_of(alloc, own)?;
        let answers = Vec::with_capacity(alloc, own.len())?;
        workers.push_reserved(Worker {
            port,
            jobs,
            answers,
        });
    }
    Ok(workers)
}

// Starts the workers, each in a thread of its own.
fn start<'s, 'e, G: Gate>(
    scope: &'s Scope<'s, &'e ()>,
    alloc: Global,
    memory: &'s Memory,
    calls: &'s [&'s [Call]],
    gate: &'s G,
    workers: Vec<Worker<'s>>,
) -> Result<Vec<PromisedHandle<Worked, Works<'s>>>, AllocError>
    requires { AreEach (IsHired memory.now) 0 (map (λ c. c.now) calls.now) workers.items }
    ensures { IfOk result (λ handles. AreEach (IsWorkStarted memory.now) 0
        (map (λ c. c.now) calls.now) handles.items) }
{
    let mut started = Vec::with_capacity(alloc, calls.len())?;
    for worker in workers {
        let port = worker.port.number();
        let promise = Works {
            memory: Snapshot::of(memory),
            port,
            calls: Snapshot::of(&calls[port as usize]),
        };
        let work = move || -> Worked
            requires { IsOf memory.now worker.port × IsWorkerReady memory.now.about.sizes.m worker }
            ensures { IsWorkDone memory.entry.now worker.entry.port.number
                (calls_of worker.entry.jobs.items) result }
        { worker.work(memory, gate) };
        started.push_reserved(scope.spawn_with(promise, work)?);
    }
    Ok(started)
}

// Waits for the workers to end, in order.
fn join<R: Threads>(
    rt: &R,
    started: Vec<PromisedHandle<Worked, Works<'_>>>,
    mut results: Results,
) -> Results
    requires empty { (results.ports.items ≡ []) × (results.answers.items ≡ []) }
    requires room { (length started.items ≤ vec_capacity results.ports) ×
        (length started.items ≤ vec_capacity results.answers) }
    ensures { (m : MemoryView) (calls : List (List CallType)) →
        AreEach (IsWorkStarted m) 0 calls started.entry.items → HaveCome m calls result }
{
    for handle in started {
        let Worked { port, answers } = handle.join(rt);
        results.ports.push_reserved(port);
        results.answers.push_reserved(answers);
    }
    results
}

/// The calls of each port.
pub fn calls_by_port(alloc: Global, ports: &[Sequence<Call>]) -> Result<Vec<&[Call]>, AllocError>
    ensures { IfOk result (λ calls. map (λ c. c.now) calls.items ≡ ports.now) }
{
    let mut calls = Vec::with_capacity(alloc, ports.len())?;
    for port in ports {
        calls.push_reserved(port.as_slice());
    }
    Ok(calls)
}

/// What workers did, and the memory that they left.
#[derive(Drop)]
pub struct Ran {
    /// The answers of each port, one for each of its calls, in order.
    pub answers: Vec<Vec<Answer>>,
    pub closed: Closed,
}

/// Gives each port its calls, in threads of their own, joins them all, and closes the memory. The ports are those
/// with which the memory was opened, none of which has made a call. Each worker makes its calls in order, and
/// passes the gate before and after each.
///
/// Each port has one answer for each of its calls, whatever the answers are. There is one history over the values of
/// the opening in which all of them are right, and after which the closed memory has its values. The memory was closed
/// in a lawful state, with the ports that have these answers.
///
/// All memory but that of closing is taken before the first worker starts.
///
/// # Errors
///
/// [`RunError::OutOfMemory`] when an allocation was refused or a worker couldn't be started. It comes once all workers
/// that were started have ended. The memory with all that was applied to it is gone then.
pub fn run_on<'c, R: Threads + Wait + Sync, G: Gate>(
    rt: &R,
    alloc: Global,
    memory: Memory,
    ports: Vec<Port>,
    calls: &'c [&'c [Call]],
    gate: &G,
) -> Result<Ran, RunError>
    requires opened { IsOpenedFor memory (map (λ c. c.now) calls.now) ports.items }
    requires makable { AreMakable memory.about.sizes.m (map (λ c. c.now) calls.now) }
    ensures right { IfOk result (λ ran. AreRight memory.about.opening (map (λ c. c.now) calls.now) ran.answers.items
        ran.closed.values.items) }
    ensures lawful { IfOk result (λ ran. WasClosedLawfully memory (map (λ c. c.now) calls.now) ran.answers.items
        ran.closed) }
{
    let count = calls.len();
    let workers = hire(alloc, &memory, calls, ports)?;
    let results = Results {
        ports: Vec::with_capacity(alloc, count)?,
        answers: Vec::with_capacity(alloc, count)?,
    };
    let lent = &memory;
    let Results { mut ports, answers } = thread::scope(
        thread::scope_env(),
        rt,
        |scope| -> Result<Results, AllocError>
            requires hired { AreEach (IsHired lent.now) 0 (map (λ c. c.now) calls.now) workers.items }
            requires empty { (results.ports.items ≡ []) × (results.answers.items ≡ []) }
            requires ports { length calls.now ≤ vec_capacity results.ports }
            requires answers { length calls.now ≤ vec_capacity results.answers }
            ensures { IfOk result (HaveCome lent.entry.now (map (λ c. c.now) calls.entry.now)) }
        {
            let started = start(scope, alloc, lent, calls, gate, workers)?;
            Ok(join(rt, started, results))
        },
    )?;
    let Some(last) = ports.pop() else {
        unreachable!();
    };
    let closed = memory.close(alloc, last, ports)?;
    Ok(Ran { answers, closed })
}
