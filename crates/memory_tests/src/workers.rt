//! Workers with ports, each in a thread of its own, and how their calls ended.

ghost use Rattle.std.specs.Prelude.{◌≡◌, ◌<◌, ◌≤◌, length, All, IfOk, IfSome};
ghost use Rattle.std.specs.List.{AllByRecursion};
ghost use Rattle.partial_memory.specs.Ports.{IsOf};

use partial_memory::{Memory, Port, Scanned, Updated, UpdatedIf};
use partial_model::Refused;
use std::alloc::{AllocError, Global};
use std::test::Fail;
use std::thread;
use std::thread::Threads;

/// What a worker does.
#[derive(Clone, Copy)]
pub enum Job {
    /// Sets a component to 1, 2, 3 and so on.
    Update { component: u32 },
    /// Reads component 0, and sets it to the next value if it has the stamp that was read.
    Count,
    /// Scans component 0.
    ScanOne,
    /// Scans components 0 and 1.
    ScanTwo,
    /// Counts with component 0, sets component 1, and scans both.
    Mix,
    /// The same by two ports in turn, which meet after each turn.
    Meet,
}

/// How the calls of a worker ended.
#[derive(Drop)]
pub struct Told {
    job: Job,
    /// The stamps of its applied updates, and of its applied conditional updates.
    pub applied: Vec<u64>,
    pub counted: Vec<u64>,
    /// The stamps that its lost and changed updates named.
    pub named: Vec<u64>,
    pub refused: Vec<Refused>,
    pub scans: Vec<Scanned>,
    /// The values of components 0 and 1 that it saw last, and whether one ever fell that only rises.
    last: [u64; 2],
    pub fell: bool,
    /// Whether its port is marked for the pool and for the slots in the end.
    pub pool_spent: bool,
    pub slots_spent: bool,
    /// What its port reads of components 0 and 1 when all workers have ended: values and stamps.
    pub seen: [Option<(u64, u64)>; 2],
    /// Whether there was memory for all of this.
    pub ended: Result<(), AllocError>,
}

impl Told {
    fn new(alloc: Global, job: Job) -> Told {
        Told {
            job,
            applied: Vec::new(alloc),
            counted: Vec::new(alloc),
            named: Vec::new(alloc),
            refused: Vec::new(alloc),
            scans: Vec::new(alloc),
            last: [0; 2],
            fell: false,
            pool_spent: false,
            slots_spent: false,
            seen: [None, None],
            ended: Ok(()),
        }
    }

    /// The stamps of what it applied to a component.
    pub fn to_component(&self, component: u32) -> &[u64] {
        let own = match self.job {
            Job::Update { component } => component,
            _ => 1,
        };
        if own == component {
            self.applied.as_slice()
        } else {
            self.counted.as_slice()
        }
    }

    /// How many of its calls were refused for that cause.
    pub fn refusals(&self, cause: Refused) -> usize {
        self.refused.iter().filter(|given| **given == cause).count()
    }

    // Keeps the values that were just seen.
    fn see(&mut self, values: [u64; 2]) {
        if values[0] < self.last[0] || values[1] < self.last[1] {
            self.fell = true;
        }
        self.last = values;
    }

    fn update(
        &mut self,
        memory: &Memory,
        port: &mut Port,
        component: u32,
        value: u64,
    ) -> Result<(), AllocError>
        requires { IsOf memory.now port.old }
        ensures { IsOf memory.now port.new }
    {
        match memory.update(port, component, value) {
            Ok(Updated::Applied { stamp }) => self.applied.push(stamp)?,
            Ok(Updated::Lost { by }) => self.named.push(by)?,
            Err(cause) => self.refused.push(cause)?,
        }
        Ok(())
    }

    fn count(&mut self, memory: &Memory, port: &mut Port) -> Result<(), AllocError>
        requires { IsOf memory.now port.old }
        ensures { IsOf memory.now port.new }
    {
        match memory.read(port, 0) {
            Ok((value, stamp)) => {
                self.see([value, self.last[1]]);
                self.count_from(memory, port, stamp, value.saturating_add(1))
            }
            Err(cause) => Ok(self.refused.push(cause)?),
        }
    }

    fn count_from(
        &mut self,
        memory: &Memory,
        port: &mut Port,
        stamp: u64,
        next: u64,
    ) -> Result<(), AllocError>
        requires { IsOf memory.now port.old }
        ensures { IsOf memory.now port.new }
    {
        match memory.update_if(port, 0, stamp, next) {
            Ok(UpdatedIf::Applied { stamp }) => self.counted.push(stamp)?,
            Ok(UpdatedIf::Changed { by }) => self.named.push(by)?,
            Err(cause) => self.refused.push(cause)?,
        }
        Ok(())
    }

    fn scan_one(&mut self, memory: &Memory, port: &mut Port) -> Result<(), AllocError>
        requires { IsOf memory.now port.old × (2 ≤ memory.now.about.sizes.m) }
        ensures { IsOf memory.now port.new }
    {
        let mut into = [self.last[0]];
        match memory.scan(port, &[0], &mut into) {
            Ok(scanned) => self.scans.push(scanned)?,
            Err(cause) => self.refused.push(cause)?,
        }
        self.see([into[0], self.last[1]]);
        Ok(())
    }

    // Scans both components. Values of the second one count when it only rises.
    fn scan_two(&mut self, memory: &Memory, port: &mut Port, rises: bool) -> Result<(), AllocError>
        requires { IsOf memory.now port.old × (2 ≤ memory.now.about.sizes.m) }
        ensures { IsOf memory.now port.new }
    {
        let mut into = self.last;
        match memory.scan(port, &[0, 1], &mut into) {
            Ok(scanned) => self.scans.push(scanned)?,
            Err(cause) => self.refused.push(cause)?,
        }
        let second = if rises { into[1] } else { 0 };
        self.see([into[0], second]);
        Ok(())
    }

    fn mix(&mut self, memory: &Memory, port: &mut Port, value: u64) -> Result<(), AllocError>
        requires { IsOf memory.now port.old × (2 ≤ memory.now.about.sizes.m) }
        ensures { IsOf memory.now port.new }
    {
        self.count(memory, port)?;
        self.update(memory, port, 1, value)?;
        self.scan_two(memory, port, false)
    }

    fn once(&mut self, memory: &Memory, port: &mut Port, value: u64) -> Result<(), AllocError>
        requires { IsOf memory.now port.old × (2 ≤ memory.now.about.sizes.m) }
        ensures { IsOf memory.now port.new }
    {
        match self.job {
            Job::Update { component } => self.update(memory, port, component, value),
            Job::Count => self.count(memory, port),
            Job::ScanOne => self.scan_one(memory, port),
            Job::ScanTwo => self.scan_two(memory, port, true),
            Job::Mix | Job::Meet => self.mix(memory, port, value),
        }
    }
}

/// A port, or two of them, and a job that is done some times.
#[derive(Drop)]
pub struct Worker {
    pub port: Port,
    pub other: Option<Port>,
    times: u64,
    pub told: Told,
}

impl Worker {
    fn new(alloc: Global, port: Port, other: Option<Port>, job: Job, times: u64) -> Worker
        ensures { (result.port ≡ port) × (result.other ≡ other) }
    {
        Worker {
            port,
            other,
            times,
            told: Told::new(alloc, job),
        }
    }

    // Does the job once. With two ports they meet then, and the other one does it too: it sees no less
    // than the first one has seen.
    fn turn(&mut self, memory: &Memory, value: u64) -> Result<(), AllocError>
        requires own { IsOf memory.now self.old.port × IfSome self.old.other (IsOf memory.now) }
        requires wide { 2 ≤ memory.now.about.sizes.m }
        ensures { IsOf memory.now self.new.port × IfSome self.new.other (IsOf memory.now) }
    {
        self.told.once(memory, &mut self.port, value)?;
        if let Some(other) = &mut self.other {
            memory.meet(&mut self.port, other);
            self.told.once(memory, other, value)?;
            memory.meet(other, &mut self.port);
        }
        Ok(())
    }

    fn work(&mut self, memory: &Memory)
        requires own { IsOf memory.now self.old.port × IfSome self.old.other (IsOf memory.now) }
        requires wide { 2 ≤ memory.now.about.sizes.m }
        ensures { IsOf memory.now self.new.port × IfSome self.new.other (IsOf memory.now) }
    {
        for value in 1..=self.times {
            self.told.ended = self.turn(memory, value);
            if self.told.ended.is_err() {
                break;
            }
        }
        self.told.pool_spent = self.port.pool_spent();
        self.told.slots_spent = self.port.slots_spent();
    }

    fn look(&mut self, memory: &Memory)
        requires { IsOf memory.now self.old.port × IfSome self.old.other (IsOf memory.now) }
        ensures { IsOf memory.now self.new.port × IfSome self.new.other (IsOf memory.now) }
    {
        let first = memory.read(&mut self.port, 0).ok();
        let second = memory.read(&mut self.port, 1).ok();
        self.told.seen = [first, second];
    }
}

/// Lets the port of each worker read both components.
pub fn look<R: Threads + Sync>(rt: &R, memory: &Memory, workers: &mut [Worker])
    requires { All (λ w. IsOf memory.now w.port × IfSome w.other (IsOf memory.now)) workers.old }
    ensures { All (λ w. IsOf memory.now w.port × IfSome w.other (IsOf memory.now)) workers.new }
{
    thread::for_each_mut(rt, workers, 1, &|_, worker| worker.look(memory));
}

/// Lets the workers work, each in a thread of its own.
pub fn run<R: Threads + Sync>(rt: &R, memory: &Memory, workers: &mut [Worker])
    requires all { All (λ w. IsOf memory.now w.port × IfSome w.other (IsOf memory.now)) workers.old }
    requires wide { 2 ≤ memory.now.about.sizes.m }
    ensures { All (λ w. IsOf memory.now w.port × IfSome w.other (IsOf memory.now)) workers.new }
{
    thread::for_each_mut(rt, workers, 64, &|_, worker| worker.work(memory));
}

/// Hires the ports for these jobs in turn, the last port first, each job to be done as often as that.
pub fn hire(
    alloc: Global,
    memory: &Memory,
    mut ports: Vec<Port>,
    jobs: &[(Job, u64)],
) -> Result<Vec<Worker>, AllocError>
    requires own { AllByRecursion (IsOf memory.now) ports.items }
    requires some { 0 < length jobs.now }
    ensures { IfOk result (λ v. All (λ w. IsOf memory.now w.port × IfSome w.other (IsOf memory.now)) v.items) }
{
    let mut workers = Vec::with_capacity(alloc, ports.len())?;
    for _ in 0..ports.len() {
        let Some(port) = ports.pop() else {
            break;
        };
        let (job, times) = jobs[workers.len() % jobs.len()];
        let other = match job {
            Job::Meet => ports.pop(),
            _ => None,
        };
        workers.push(Worker::new(alloc, port, other, job, times))?;
    }
    Ok(workers)
}
