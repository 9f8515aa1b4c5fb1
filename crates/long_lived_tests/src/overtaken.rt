//! Updates that other threads overtake. The pool of an arena has one word, so that each update ends an epoch, and
//! another one may come too late in one epoch after another.

ghost use Rattle.std.specs.Prelude.{All, IfOk};
ghost use Rattle.partial_long_lived.specs.Ports.{IsOf};

use crate::memories::SPENT;
use partial_long_lived::{LongLived, OpenError, Port, Refused, Updated};
use std::alloc::Global;
use std::process::Abort;
use std::sync::atomic::{AtomicU64, Ordering};
use std::test::Fail;
use std::thread;
use std::thread::Threads;

/// So many updates a port makes at most, until one of some port is overtaken.
const MOST: u64 = 400_000;

/// What came of the updates of all ports: how many were overtaken, and how many answers were wrong.
#[derive(Drop)]
struct Tally {
    overtaken: AtomicU64,
    wrong: AtomicU64,
}

impl Tally {
    fn is_over(&self) -> bool {
        self.overtaken.load(Ordering::SeqCst) > 0
    }

    fn hold(&self, is_right: bool) {
        if !is_right {
            self.wrong.fetch_add(1, Ordering::SeqCst);
        }
    }
}

// Reads the component that the port alone sets, which has to hold this value.
fn see(memory: &LongLived, port: &mut Port, tally: &Tally, value: u64)
    requires { IsOf memory.now port.old }
    ensures { IsOf memory.now port.new }
{
    let component = port.number();
    let found = memory.read(port, component).ok();
    tally.hold(found.is_some_and(|pair| pair.0 == value));
}

// Sets the component to this value. That is done at last, since the other ports stop.
fn set_at_last(memory: &LongLived, port: &mut Port, tally: &Tally, value: u64)
    requires { IsOf memory.now port.old }
    ensures { IsOf memory.now port.new }
{
    let component = port.number();
    let mut is_set = false;
    for _ in 0..MOST {
        is_set = matches!(
            memory.update(port, component, value),
            Ok(Updated::Applied { .. })
        );
        if is_set {
            break;
        }
    }
    tally.hold(is_set);
    see(memory, port, tally, value);
}

// Sets the component to the next value, and returns what it holds then. A refused update sets nothing, and one that was
// overtaken is made again.
fn step(memory: &LongLived, port: &mut Port, tally: &Tally, value: u64) -> u64
    requires { IsOf memory.now port.old }
    ensures { IsOf memory.now port.new }
{
    let component = port.number();
    let next = value.saturating_add(1);
    match memory.update(port, component, next) {
        Ok(updated) => {
            tally.hold(matches!(updated, Updated::Applied { .. }));
            next
        }
        Err(cause) => {
            see(memory, port, tally, value);
            if cause != Refused::Overtaken {
                return value;
            }
            tally.overtaken.fetch_add(1, Ordering::SeqCst);
            set_at_last(memory, port, tally, next);
            next
        }
    }
}

// Sets the component of the port to 1, 2, 3 and so on, until an update of some port is overtaken.
fn work(memory: &LongLived, port: &mut Port, tally: &Tally)
    requires { IsOf memory.now port.old }
    ensures { IsOf memory.now port.new }
{
    let mut value = 0;
    for _ in 0..MOST {
        if tally.is_over() {
            break;
        }
        value = step(memory, port, tally, value);
    }
    see(memory, port, tally, value);
}

// Lets each port work, in a thread of its own.
fn run<R: Threads + Sync>(rt: &R, memory: &LongLived, ports: &mut [Port], tally: &Tally)
    requires { All (IsOf memory.now) ports.old }
    ensures { All (IsOf memory.now) ports.new }
{
    thread::for_each_mut(rt, ports, 64, &|_, port| work(memory, port, tally));
}

// Some update was overtaken, and each answer was right.
fn judge(rt: &impl Abort, tally: &Tally) {
    assert!(rt;
        tally.overtaken.load(Ordering::SeqCst) > 0,
        "no update was overtaken"
    );
    assert_eq!(rt; tally.wrong.load(Ordering::SeqCst), 0);
}

// Opens a memory of eight zeros, with eight ports.
fn eight(alloc: Global) -> Result<(LongLived, Vec<Port>), OpenError>
    ensures { IfOk result (λ r. All (IsOf r.0) r.1.items) }
{
    let (memory, ports) = LongLived::open(alloc, &[0; 8], 8, SPENT)?;
    Ok((memory, ports))
}

// Lets each port of such a memory work.
fn tallied(rt: &(impl Threads + Sync), alloc: Global) -> Result<Tally, Fail> {
    let (memory, mut ports) = eight(alloc)?;
    let tally = Tally {
        overtaken: AtomicU64::new(0),
        wrong: AtomicU64::new(0),
    };
    run(rt, &memory, ports.as_mut_slice(), &tally);
    drop((memory, ports));
    Ok(tally)
}

#[test]
fn overtaken_updates(rt: HostRuntime) -> Result<(), Fail> {
    judge(&rt, &tallied(&rt, rt.alloc())?);
    Ok(())
}
