//! Updates.

ghost use Rattle.std.specs.Prelude.{◌≡◌, ◌+◌, ◌*◌, ◌<◌, ◌≤◌, IfOk, IfErr, None, true, false};
ghost use Rattle.partial_long_lived.specs.Bounds.{most_of_change, round_steps};
ghost use Rattle.partial_long_lived.specs.Inner.Held.{IsHeld, epoch_at, port_at};
ghost use Rattle.partial_long_lived.specs.Inner.Calls.{IsIdle};
ghost use Rattle.partial_long_lived.specs.Inner.Changing.{IsCause};
ghost use Rattle.partial_long_lived.specs.Inner.Rests.{RestsAt};
ghost use Rattle.partial_long_lived.specs.Inner.Updates.{CameBy, IsLate, IsOwnMachine, MayCall, UpdateEnded, asked_change, ended_as};

use crate::attempt::{attempt, attempt_as};
use crate::change::change;
use crate::ended::Ended;
use crate::error::Refused;
use crate::lines::First;
use crate::plays::{AtFirst, Later, When};
use crate::rule::Words;
use crate::stand::Stand;
use partial_core::Core;
use partial_lines::Exchanged;

/// How many epochs an update may change before it is refused.
pub const MOST_CHANGES: u32 = 16;

/// Makes an update of a port, in as many epochs as it takes. `spent` says whether the port is spent in its epoch, before
/// and afterwards. Returns how the update ended, with stamps of the epoch where the port stands.
///
/// # Errors
/// [`Refused::Overtaken`] when the port has entered a later epoch 16 times; [`Refused::EpochsSpent`]
/// when the epoch has to be changed and is the last one. Nothing was applied.
#[inline(always)]
pub fn update(
    words: &Words,
    stand: &mut Stand,
    core: &mut Core,
    component: u32,
    value: u64,
    spent: &mut bool,
) -> Result<Exchanged, Refused>
    requires held { IsHeld words.now.table_id words.now.key stand.old }
    requires rests { RestsAt stand.old core.old spent.old }
    requires inside { component < words.now.key.sizes.m }
    ensures held { IsHeld words.now.table_id words.now.key stand.new }
    ensures rests { RestsAt stand.new core.new spent.new }
    ensures updated { IfOk result (λ r. UpdateEnded true (asked_change component None value) r stand.old stand.new) }
    ensures refused { IfErr result (λ cause. IsLate 16 15 stand.old cause stand.new × CameBy true stand.old stand.new) }
    ensures steps { stand.new.seat.steps ≤ stand.old.seat.steps + 16 * round_steps words.now.key }
{
    update_apart(words, stand, core, component, value, spent).result()
}

// The same. Never inlined: keeps arguments and result in registers. So an update keeps little in memory before its
// first atomic change, which waits until all that was stored has reached the cache.
#[inline(never)]
fn update_apart(
    words: &Words,
    stand: &mut Stand,
    core: &mut Core,
    component: u32,
    value: u64,
    spent: &mut bool,
) -> Ended
    requires held { IsHeld words.now.table_id words.now.key stand.old }
    requires rests { RestsAt stand.old core.old spent.old }
    requires inside { component < words.now.key.sizes.m }
    ensures held { IsHeld words.now.table_id words.now.key stand.new }
    ensures rests { RestsAt stand.new core.new spent.new }
    ensures updated { IfOk (ended_as result) (λ r.
        UpdateEnded true (asked_change component None value) r stand.old stand.new) }
    ensures refused { IfErr (ended_as result) (λ cause.
        IsLate 16 15 stand.old cause stand.new × CameBy true stand.old stand.new) }
    ensures steps { stand.new.seat.steps ≤ stand.old.seat.steps + 16 * round_steps words.now.key }
{
    if *spent {
        return update_late::<AtFirst>(words, stand, core, component, value, spent);
    }
    let attempted = attempt_as::<First, AtFirst>(words, stand, core, component, value, spent, None);
    if let Some(exchanged) = attempted.exchanged() {
        return Ended::of(Ok(exchanged));
    }
    update_late::<Later>(words, stand, core, component, value, spent)
}

// Makes an update of a port that is spent in its epoch, from a change of epoch on. `F` says whether the first step of that is
// the first one of the call.
//
// It isn't put in line, so that an update in the port's epoch pays nothing for it.
#[cold]
#[inline(never)]
fn update_late<F: When>(
    words: &Words,
    stand: &mut Stand,
    core: &mut Core,
    component: u32,
    value: u64,
    spent: &mut bool,
) -> Ended
    requires held { IsHeld words.now.table_id words.now.key stand.old }
    requires idle { IsIdle stand.old }
    requires rests { IsOwnMachine (port_at stand.old) core.old }
    requires inside { component < words.now.key.sizes.m }
    ensures held { IsHeld words.now.table_id words.now.key stand.new }
    ensures rests { RestsAt stand.new core.new spent.new }
    ensures updated { IfOk (ended_as result) (λ r.
        UpdateEnded F.first (asked_change component None value) r stand.old stand.new) }
    ensures refused { IfErr (ended_as result) (λ cause.
        IsLate 16 15 stand.old cause stand.new × CameBy F.first stand.old stand.new) }
    ensures steps { stand.new.seat.steps ≤ stand.old.seat.steps + (most_of_change words.now.key + 15 * round_steps words.now.key) }
{
    if let Err(cause) = renew::<F>(words, stand, core) {
        *spent = true;
        return Ended::of(Err(cause));
    }
    Ended::of(rounds(
        words,
        stand,
        core,
        component,
        value,
        spent,
        MOST_CHANGES - 1,
    ))
}

// Makes an update of a port that is not spent, and changes the epoch after each attempt that met a seal, so many times.
// None of its steps is the first one of the call.
#[inline(always)]
fn rounds(
    words: &Words,
    stand: &mut Stand,
    core: &mut Core,
    component: u32,
    value: u64,
    spent: &mut bool,
    times: u32,
) -> Result<Exchanged, Refused>
    requires held { IsHeld words.now.table_id words.now.key stand.old }
    requires idle { IsIdle stand.old }
    requires may { MayCall (port_at stand.old) core.old }
    requires inside { component < words.now.key.sizes.m }
    ensures held { IsHeld words.now.table_id words.now.key stand.new }
    ensures idle { IsIdle stand.new }
    ensures rests { IsOwnMachine (port_at stand.new) core.new }
    ensures spare { spent.new ≡ false → MayCall (port_at stand.new) core.new }
    ensures updated { IfOk result (λ r. UpdateEnded false (asked_change component None value) r stand.old stand.new) }
    ensures refused { IfErr result (λ cause.
        IsLate times times stand.old cause stand.new × CameBy false stand.old stand.new) }
    ensures steps { stand.new.seat.steps ≤ stand.old.seat.steps + times * round_steps words.now.key }
{
    for _ in 0..times {
        let attempted = attempt::<Later>(words, stand, core, component, value, spent, None);
        if let Some(exchanged) = attempted.exchanged() {
            return Ok(exchanged);
        }
        if let Err(cause) = renew::<Later>(words, stand, core) {
            *spent = true;
            return Err(cause);
        }
    }
    *spent = false;
    Err(Refused::Overtaken)
}

/// Changes the epoch of a port, whose machine is a new one then. `F` says whether its look is the first step of a call.
///
/// # Errors
/// As those of [`change`]: the port stands where it stood, with the machine that it had.
pub fn renew<F: When>(words: &Words, stand: &mut Stand, core: &mut Core) -> Result<(), Refused>
    requires held { IsHeld words.now.table_id words.now.key stand.old }
    requires idle { IsIdle stand.old }
    requires rests { IsOwnMachine (port_at stand.old) core.old }
    ensures held { IsHeld words.now.table_id words.now.key stand.new }
    ensures idle { IsIdle stand.new }
    ensures rests { IsOwnMachine (port_at stand.new) core.new }
    ensures spare { IfOk result (λ _. MayCall (port_at stand.new) core.new) }
    ensures came { CameBy F.first stand.old stand.new }
    ensures later { IfOk result (λ _. epoch_at stand.old < epoch_at stand.new) }
    ensures fresh { IfOk result (λ _. (port_at stand.new).began.epoch ≤ stand.new.epoch) }
    ensures cause { IfErr result (IsCause stand.new) }
    ensures steps { stand.new.seat.steps ≤ stand.old.seat.steps + most_of_change words.now.key }
{
    change::<F>(words, stand)?;
    core.clear_marks();
    Ok(())
}
