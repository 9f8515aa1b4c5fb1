//! The turns of a port on plain words. Its calls are made by its machine alone.

ghost use Rattle.std.specs.Prelude.{◌≡◌};
ghost use Rattle.partial_machine.specs.declared.stage.Stage.TheVariants.{Idle};
ghost use Rattle.lines_tests.specs.Plain.{Begun, MayTurn, Turned};

use partial_core::Core;

/// Makes the due step of a port, or takes its reply, or begins a call that `pick` chooses.
pub fn turn(core: &mut Core, words: &mut [u64], pick: u64)
    requires { MayTurn core.old words.old }
    ensures { Turned core.old words.old core.new words.new }
{
    match core.step() {
        Some(step) => {
            let answer = step.perform(words);
            core.answer(answer);
        }
        None => {
            if core.idle() {
                begin(core, pick);
            } else {
                core.take();
            }
        }
    }
}

// Begins an update or a scan. A refused call leaves the port idle.
fn begin(core: &mut Core, pick: u64)
    requires { core.old.stage ≡ Idle }
    ensures { Begun core.old core.new }
{
    let component = (pick % 3) as u32;
    if pick % 8 < 5 {
        let _begun = core.begin_update(component, pick);
        return;
    }
    if core.sizes().m() > 1 {
        let _begun = core.begin_scan(&[0, 1]);
    }
}
