//! A change of epoch.

ghost use Rattle.std.specs.Prelude.{◌≡◌, ◌+◌, ◌*◌, ◌<◌, ◌≤◌, ◌==◌, IfErr, IfOk, true};
ghost use Rattle.partial_long_lived.specs.Bounds.{claim_steps, fill_steps, most_of_change, seal_steps};
ghost use Rattle.partial_words.specs.Layout.{first_free};
ghost use Rattle.partial_long_lived.specs.Inner.Held.{IsHeld, port_at};
ghost use Rattle.partial_long_lived.specs.Inner.Calls.{IsIdle};
ghost use Rattle.partial_long_lived.specs.Inner.Changing.{EpochChanged, IsCause, IsPast, HasSamePart, NotChanged, Owns, Stays, HasSetWords};

use crate::change_plays::Publish;
use crate::claim::{claim, give};
use crate::enter::{ARENAS, enter, look};
use crate::error::Refused;
use crate::fill::fill;
use crate::plays::When;
use crate::rule::Words;
use crate::seal::seal_unless_ended;
use crate::stand::Stand;

/// The number of each epoch is below this one.
const EPOCHS: u64 = 2_199_023_255_552;

/// Changes the epoch, or enters the one to which another port has changed it. `F` says whether the look with which it begins
/// is the first step of its call.
///
/// # Errors
/// [`Refused::EpochsSpent`] when the port's epoch is the last one. The port stands where it stood, and owns no arena.
pub fn change<F: When>(words: &Words, stand: &mut Stand) -> Result<(), Refused>
    requires held { IsHeld words.now.table_id words.now.key stand.old }
    requires may { IsIdle stand.old }
    ensures held { IsHeld words.now.table_id words.now.key stand.new }
    ensures changed { IfOk result (λ _. EpochChanged F.first stand.old stand.new) }
    ensures refused { IfErr result (λ _. NotChanged F.first stand.old stand.new) }
    ensures cause { IfErr result (IsCause stand.new) }
    ensures steps { stand.new.seat.steps ≤ stand.old.seat.steps + most_of_change words.now.key }
{
    if !look::<F>(words, stand) {
        enter(words, stand);
        return Ok(());
    }
    open_next(words, stand)?;
    enter(words, stand);
    Ok(())
}

// Seals the components of the port's epoch and opens the next one, unless another port does so first.
fn open_next(words: &Words, stand: &mut Stand) -> Result<(), Refused>
    requires held { IsHeld words.now.table_id words.now.key stand.old }
    requires may { IsIdle stand.old }
    ensures held { IsHeld words.now.table_id words.now.key stand.new }
    ensures stays { Stays stand.old stand.new }
    ensures free { IsIdle stand.new }
    ensures past { IfOk result (λ _. IsPast stand.new) }
    ensures same { IfErr result (λ _. HasSamePart stand.old stand.new) }
    ensures cause { IfErr result (IsCause stand.new) }
    ensures steps { stand.new.seat.steps ≤ stand.old.seat.steps + (seal_steps words.now.key + claim_steps words.now.key + fill_steps words.now.key + 2) }
{
    if stand.epoch + 1 == EPOCHS {
        return Err(Refused::EpochsSpent);
    }
    if seal_unless_ended(words, stand) {
        return Ok(());
    }
    match claim(words, stand) {
        Some(arena) => {
            let first = stand.shape.base(arena);
            fill(words, stand, arena, first);
            publish(words, stand, arena);
            give(words, stand, arena);
            Ok(())
        }
        None => Ok(()),
    }
}

// Makes the epoch in the arena the current one, unless the port's epoch has ended.
fn publish(words: &Words, stand: &mut Stand, arena: u32)
    requires held { IsHeld words.now.table_id words.now.key stand.old }
    requires works { HasSetWords stand.old arena words.now.key.ports
        (first_free words.now.key.sizes + words.now.key.sizes.m) }
    requires inside { arena < words.now.key.arenas }
    requires room { stand.old.epoch + 1 < 2199023255552 }
    ensures held { IsHeld words.now.table_id words.now.key stand.new }
    ensures stays { Stays stand.old stand.new }
    ensures owns { Owns stand.new arena }
    ensures past { IsPast stand.new }
    ensures steps { stand.new.seat.steps ≤ stand.old.seat.steps + 1 }
{
    let here = stand.packed();
    let next = (stand.epoch + 1) * ARENAS + u64::from(arena);
    words.compare_exchange::<Publish>(&mut stand.seat, 0, here, next);
}
