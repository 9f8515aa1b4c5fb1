//! A machine that has made no call, one that reads, and ones that claim words ahead. The replay makes all others.

ghost use Rattle.std.specs.Prelude.{◌≡◌, ◌<◌, IfOk};
ghost use Rattle.partial_machine.specs.declared.stage.Stage.TheVariants.{Idle};

mod ahead;

use partial_machine::{Core, Reply};
use partial_model::Refused;
use partial_words::{Sizes, Step};
use std::alloc::Global;
use std::process::Abort;
use std::test::Fail;

// The machine of a port that has made no call. A test lends it to a function of its own, since what lives until a
// function's end is proved to be let go on each way out of it, and drops it by one call.
fn opened(alloc: Global, port: u32) -> Result<Core, Fail>
    requires { port < 64 }
    ensures idle { IfOk result (λ core. core.stage ≡ Idle) }
    ensures sizes { IfOk result (λ core. core.sizes ≡ record { m = 2; slots = 4; lists = 8; pool = 64 }) }
{
    let sizes = Sizes::new(2, 4, 8, 64)?;
    Ok(Core::new(alloc, sizes, port)?)
}

// Whether a call was begun, or why it was refused.
fn is_begun(rt: &impl Abort, begun: Result<(), Refused>, expected: Result<(), Refused>)
    ensures { begun ≡ expected }
{
    assert_eq!(rt; begun, expected);
}

// The step that is due.
fn is_due(rt: &impl Abort, core: &Core, step: Option<Step>) {
    assert_eq!(rt; core.step(), step);
}

// Nothing is begun or spent.
fn is_unused(rt: &impl Abort, core: &mut Core) {
    assert!(rt; core.idle());
    assert!(rt; !core.pool_spent());
    assert!(rt; !core.slots_spent());
    assert!(rt; !core.lists_spent());
    is_due(rt, core, None);
    assert_eq!(rt; core.take(), None);
}

#[test]
fn no_call(rt: HostRuntime) -> Result<(), Fail> {
    let mut core = opened(rt.alloc(), 0)?;
    is_unused(&rt, &mut core);
    drop(core);
    Ok(())
}

// Component 1 has stamp 21 and value 20.
fn reads(rt: &impl Abort, core: &mut Core)
    requires idle { core.old.stage ≡ Idle }
    requires sizes { core.old.sizes ≡ record { m = 2; slots = 4; lists = 8; pool = 64 } }
{
    is_begun(rt, core.begin_read(1), Ok(()));
    core.answer(21);
    is_due(rt, core, Some(Step::Load(22)));
    core.answer(20);
    let reply = Reply::Read {
        value: 20,
        stamp: 21,
    };
    assert_eq!(rt; core.take(), Some(reply));
    assert!(rt; core.idle());
}

#[test]
fn read(rt: HostRuntime) -> Result<(), Fail> {
    let mut core = opened(rt.alloc(), 0)?;
    reads(&rt, &mut core);
    drop(core);
    Ok(())
}
