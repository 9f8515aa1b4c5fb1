//! A stage at work, in a thread of its own.

ghost use Rattle.std.specs.Prelude.{◌≡◌, ◌≢◌, ◌+◌, ◌<◌, IfSome, Some};
ghost use Rattle.partial_pipeline.specs.Stages.{IsStageDone, IsNewStage, IsWorking};
ghost use Rattle.partial_pipeline.specs.declared.stage.StageEnd.TheVariants.{EpochsSpent, Finished};

use crate::work::Work;
use partial_long_lived::{LongLived, Port, Refused, Updated};
use std::sync::atomic::{AtomicBool, Ordering};
use std::thread;

/// Why a stage ended.
#[derive(Clone, Copy, Debug, PartialEq, Eq)]
pub enum StageEnd {
    /// It has worked on all items.
    Finished,
    /// The stage before it has ended, and it has worked on all items that came from there.
    Stopped,
    /// Its update was refused, since the memory's epochs are used up: the current one is the last that a word can name.
    EpochsSpent,
}

/// A stage that has ended.
#[derive(Drop)]
pub struct Worked {
    /// Its port.
    pub port: Port,
    /// Why it ended.
    pub end: StageEnd,
}

/// A stage at work.
#[derive(Drop)]
pub struct Stage {
    /// Its port. The number of the port is that of the stage.
    pub port: Port,
    /// How many items there are.
    pub items: u64,
    /// The count of the stage before it when this stage last read it. For the first stage, the number of
    /// items.
    pub seen: u64,
    /// How many items it has worked on.
    pub count: u64,
}

impl Stage {
    /// Makes a stage that has worked on nothing. The first stage finds all items ready.
    pub fn new(memory: &LongLived, port: Port, items: u64) -> Stage
        requires new { IsNewStage memory.now port.number port }
        requires inside { port.number < memory.now.about.sizes.m }
        ensures working { IsWorking memory.now result }
        ensures number { result.port.number ≡ port.number }
        ensures items { result.items ≡ items }
    {
        let _of = memory;
        let seen = if port.number() == 0 { items } else { 0 };
        Stage {
            port,
            items,
            seen,
            count: 0,
        }
    }

    /// Works on all items that come from the stage before, and sets the flag that it has ended.
    pub fn run<W: Work>(mut self, memory: &LongLived, ended: &[AtomicBool], work: &W) -> Worked
        requires { IsWorking memory.now self }
        ensures { IsStageDone memory.now self.items self.port.number result }
    {
        let mut end = StageEnd::Stopped;
        for _turn in 0..u64::MAX {
            if let Some(reason) = self.turn(memory, ended, work) {
                end = reason;
                break;
            }
        }
        if let Some(flag) = ended.get(self.port.number() as usize) {
            flag.store(true, Ordering::SeqCst);
        }
        Worked {
            port: self.port,
            end,
        }
    }

    // Takes one turn: works on the next item or, when none is ready, reads the count of the stage before.
    // Returns why the stage ends, if it does.
    fn turn<W: Work>(
        &mut self,
        memory: &LongLived,
        ended: &[AtomicBool],
        work: &W,
    ) -> Option<StageEnd>
        requires { IsWorking memory.now self.old }
        ensures working { IsWorking memory.now self.new }
        ensures number { self.new.port.number ≡ self.old.port.number }
        ensures items { self.new.items ≡ self.old.items }
        ensures finished { result ≡ Some Finished → self.new.count ≡ self.new.items }
    {
        if self.count >= self.items {
            return Some(StageEnd::Finished);
        }
        if self.count < self.seen {
            return self.advance(memory, work);
        }
        let Some(before) = self.port.number().checked_sub(1) else {
            return Some(StageEnd::Finished);
        };
        let is_over = has_ended(ended, before);
        self.look(memory, before);
        if self.count < self.seen {
            return None;
        }
        if is_over {
            return Some(StageEnd::Stopped);
        }
        thread::yield_now();
        None
    }

    // Works on the next item, and publishes the count. Returns why the stage ends, if it does.
    fn advance<W: Work>(&mut self, memory: &LongLived, work: &W) -> Option<StageEnd>
        requires working { IsWorking memory.now self.old }
        requires next { self.old.count < self.old.seen }
        requires more { self.old.count < self.old.items }
        ensures working { IsWorking memory.now self.new }
        ensures number { self.new.port.number ≡ self.old.port.number }
        ensures items { self.new.items ≡ self.old.items }
        ensures end { IfSome result (λ end. end ≡ EpochsSpent) }
    {
        let next = self.count + 1;
        work.work(self.port.number(), next);
        self.publish(memory, next)
    }

    // Publishes the next count, in as many tries as it takes. Returns why the stage ends, if it does.
    fn publish(&mut self, memory: &LongLived, next: u64) -> Option<StageEnd>
        requires working { IsWorking memory.now self.old }
        requires next { next ≡ self.old.count + 1 }
        requires read { self.old.count < self.old.seen }
        requires more { self.old.count < self.old.items }
        ensures working { IsWorking memory.now self.new }
        ensures number { self.new.port.number ≡ self.old.port.number }
        ensures items { self.new.items ≡ self.old.items }
        ensures end { IfSome result (λ end. end ≡ EpochsSpent) }
    {
        for _turn in 0..u64::MAX {
            if self.set(memory, next) {
                return Some(StageEnd::EpochsSpent);
            }
            if self.count == next {
                return None;
            }
            thread::yield_now();
        }
        None
    }

    // Tries to publish the next count, once. An update that is lost, or overtaken by changes of epoch, leaves the count as it
    // was: so `count` is always what the component holds. Returns whether the memory's epochs are used up.
    fn set(&mut self, memory: &LongLived, next: u64) -> bool
        requires working { IsWorking memory.now self.old }
        requires next { next ≡ self.old.count + 1 }
        requires read { self.old.count < self.old.seen }
        requires more { self.old.count < self.old.items }
        ensures working { IsWorking memory.now self.new }
        ensures number { self.new.port.number ≡ self.old.port.number }
        ensures items { self.new.items ≡ self.old.items }
        ensures seen { self.new.seen ≡ self.old.seen }
        ensures count { self.new.count ≢ next → self.new.count ≡ self.old.count }
    {
        let stage = self.port.number();
        match memory.update(&mut self.port, stage, next) {
            Ok(Updated::Applied { .. }) => {
                self.count = next;
                false
            }
            Ok(Updated::Lost { .. }) => false,
            Err(Refused::Overtaken) => false,
            Err(Refused::EpochsSpent) => true,
            Err(Refused::Component) => unreachable!(),
        }
    }

    // Reads the count of the stage before.
    fn look(&mut self, memory: &LongLived, before: u32)
        requires working { IsWorking memory.now self.old }
        requires before { self.old.port.number ≡ before + 1 }
        ensures working { IsWorking memory.now self.new }
        ensures number { self.new.port.number ≡ self.old.port.number }
        ensures items { self.new.items ≡ self.old.items }
    {
        if let Ok((count, _stamp)) = memory.read(&mut self.port, before) {
            self.seen = count;
        }
    }
}

/// Whether that stage has set the flag that it has ended.
pub fn has_ended(ended: &[AtomicBool], stage: u32) -> bool {
    match ended.get(stage as usize) {
        Some(flag) => flag.load(Ordering::SeqCst),
        None => false,
    }
}
