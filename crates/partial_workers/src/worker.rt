//! One port at work: it makes its calls one after the other, in a thread of its own.

ghost use Rattle.std.specs.Prelude.{◌≡◌, ◌<◌, ◌^◌, ◌≤◌, [], map, length};
ghost use Rattle.std.specs.List.{AllByRecursion};
ghost use Rattle.std.specs.Vec.{vec_capacity};
ghost use Rattle.partial_memory.specs.Ports.{IsOf};
ghost use Rattle.partial_workers.specs.Work.{AreMade, ScanHasRoom, IsMade, IsWorkerReady, calls_of};

use crate::gate::Gate;
use partial_memory::{Memory, Port, Scanned, Updated, UpdatedIf};
use partial_model::{Answer, Call, Sequence};

/// A call that is to be made, and room for the values of its scan.
#[derive(Drop)]
pub struct Job<'a> {
    pub call: &'a Call,
    pub room: Vec<u64>,
}

/// A port with all that it needs to make its calls without taking memory.
#[derive(Drop)]
pub struct Worker<'a> {
    pub port: Port,
    pub jobs: Vec<Job<'a>>,
    pub answers: Vec<Answer>,
}

/// A port that has made its calls, and their answers, in order.
#[derive(Drop)]
pub struct Worked {
    pub port: Port,
    pub answers: Vec<Answer>,
}

impl Worker<'_> {
    /// Makes the calls in order, and passes the gate before and after each.
    pub fn work<G: Gate>(self, memory: &Memory, gate: &G) -> Worked
        requires own { IsOf memory.now self.port }
        requires ready { IsWorkerReady memory.now.about.sizes.m self }
        ensures own { IsOf memory.now result.port }
        ensures number { result.port.number ≡ self.entry.port.number }
        ensures made { AreMade memory.now.about.sizes.m
            (calls_of self.entry.jobs.items) result.answers.items result.port }
    {
        let Worker {
            mut port,
            jobs,
            mut answers,
        } = self;
        for job in jobs {
            let number = answers.len() as u32;
            gate.before(port.number(), number);
            let answer = make(memory, &mut port, job.call, job.room);
            gate.after(port.number(), number);
            answers.push_reserved(answer);
        }
        Worked { port, answers }
    }
}

// Makes a call. The room takes the values of a scan.
fn make(memory: &Memory, port: &mut Port, call: &Call, mut room: Vec<u64>) -> Answer
    requires own { IsOf memory.now port.old }
    requires room { ScanHasRoom memory.now.about.sizes.m call.now room.items }
    ensures own { IsOf memory.now port.new }
    ensures number { port.new.number ≡ port.old.number }
    ensures made { IsMade memory.now.about.sizes.m port.old call.now result port.new }
{
    match call {
        Call::Update { component, value } => match memory.update(port, *component, *value) {
            Ok(Updated::Applied { stamp }) => Answer::Applied { stamp },
            Ok(Updated::Lost { by }) => Answer::Lost { by },
            Err(cause) => Answer::Refused { cause },
        },
        Call::Scan { components } => {
            match memory.scan(port, components.as_slice(), room.as_mut_slice()) {
                Ok(Scanned { collects, borrowed }) => Answer::Scanned {
                    values: Sequence::from(room),
                    collects,
                    borrowed,
                },
                Err(cause) => Answer::Refused { cause },
            }
        }
        Call::Read { component } => match memory.read(port, *component) {
            Ok((value, stamp)) => Answer::Read { value, stamp },
            Err(cause) => Answer::Refused { cause },
        },
        Call::UpdateIf {
            component,
            expected,
            value,
        } => match memory.update_if(port, *component, *expected, *value) {
            Ok(UpdatedIf::Applied { stamp }) => Answer::Applied { stamp },
            Ok(UpdatedIf::Changed { by }) => Answer::Changed { by },
            Err(cause) => Answer::Refused { cause },
        },
    }
}
