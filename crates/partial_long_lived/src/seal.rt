//! How a port seals the components of its epoch, unless another one does.

ghost use Rattle.std.specs.Prelude.{◌≡◌, ◌+◌, ◌*◌, ◌<◌, ◌≤◌, true, false};
ghost use Rattle.partial_epochs.specs.Ports.Entering.{Stands};
ghost use Rattle.partial_epochs.specs.Sealing.{passing_port};
ghost use Rattle.partial_long_lived.specs.Bounds.{patience, seal_steps};
ghost use Rattle.partial_long_lived.specs.Inner.Held.{IsHeld, port_at};
ghost use Rattle.partial_long_lived.specs.Inner.Calls.{IsIdle};
ghost use Rattle.partial_long_lived.specs.Inner.Changing.{HasSamePart, IsPast, Remains, Stays};

use crate::arena::SEAL;
use crate::change_plays::{Pass, Seal};
use crate::enter::look;
use crate::plays::Later;
use crate::rule::Words;
use crate::stand::Stand;

/// How often, for each component, a port looks whether its epoch has ended once another port seals the components. These
/// looks take longer than that port's change of epoch does if nothing stops it.
const PATIENCE: u64 = 64;

/// Seals the components of the port's epoch, or sees that it has ended, and returns whether it has. When another port has
/// sealed component 0 first, this one looks for a while and leaves the change of epoch to that port: sealing and filling
/// beside it would make both slower. Then it adds its own seals.
pub fn seal_unless_ended(words: &Words, stand: &mut Stand) -> bool
    requires held { IsHeld words.now.table_id words.now.key stand.old }
    requires may { IsIdle stand.old }
    ensures held { IsHeld words.now.table_id words.now.key stand.new }
    ensures stays { Stays stand.old stand.new }
    ensures same { HasSamePart stand.old stand.new }
    ensures free { IsIdle stand.new }
    ensures past { result ≡ true → IsPast stand.new }
    ensures sealed { result ≡ false → words.now.key.sizes.m ≤ (port_at stand.new).port.passed }
    ensures steps { stand.new.seat.steps ≤ stand.old.seat.steps + seal_steps words.now.key }
{
    if ends_meanwhile(words, stand) {
        return true;
    }
    seal(words, stand);
    false
}

// Looks for a while whether another port, which has begun to seal the components, ends the epoch. Returns whether it has
// ended.
fn ends_meanwhile(words: &Words, stand: &mut Stand) -> bool
    requires held { IsHeld words.now.table_id words.now.key stand.old }
    requires may { IsIdle stand.old }
    ensures held { IsHeld words.now.table_id words.now.key stand.new }
    ensures stays { Stays stand.old stand.new }
    ensures same { HasSamePart stand.old stand.new }
    ensures free { IsIdle stand.new }
    ensures past { result ≡ true → IsPast stand.new }
    ensures steps { stand.new.seat.steps ≤ stand.old.seat.steps + (1 + patience * words.now.key.sizes.m) }
{
    if stand.passed > 0 {
        return false;
    }
    if !finds_sealed(words, stand) {
        return false;
    }
    sees_the_end(words, stand)
}

// Loads the word of component 0, and says whether it is sealed. If it is, the port has passed it.
fn finds_sealed(words: &Words, stand: &mut Stand) -> bool
    requires held { IsHeld words.now.table_id words.now.key stand.old }
    requires may { IsIdle stand.old }
    requires first { stand.old.passed ≡ 0 }
    ensures held { IsHeld words.now.table_id words.now.key stand.new }
    ensures stays { Stays stand.old stand.new }
    ensures same { HasSamePart stand.old stand.new }
    ensures free { IsIdle stand.new }
    ensures steps { stand.new.seat.steps ≤ stand.old.seat.steps + 1 }
{
    let word = stand.base as usize;
    let found = words.load::<Pass>(&mut stand.seat, word);
    if found < SEAL {
        return false;
    }
    stand.passed = 1;
    true
}

// Looks up to so often whether the port's epoch has ended, and says whether it has.
fn sees_the_end(words: &Words, stand: &mut Stand) -> bool
    requires held { IsHeld words.now.table_id words.now.key stand.old }
    requires may { IsIdle stand.old }
    ensures held { IsHeld words.now.table_id words.now.key stand.new }
    ensures remains { Remains stand.old stand.new }
    ensures free { IsIdle stand.new }
    ensures past { result ≡ true → IsPast stand.new }
    ensures steps { stand.new.seat.steps ≤ stand.old.seat.steps + patience * words.now.key.sizes.m }
{
    for _ in 0..PATIENCE * u64::from(stand.shape.sizes.m()) {
        if !look::<Later>(words, stand) {
            return true;
        }
    }
    false
}

// Seals each component of the port's epoch that the port hasn't passed. No update takes effect in the epoch from then on.
fn seal(words: &Words, stand: &mut Stand)
    requires held { IsHeld words.now.table_id words.now.key stand.old }
    requires may { IsIdle stand.old }
    ensures held { IsHeld words.now.table_id words.now.key stand.new }
    ensures stays { Stays stand.old stand.new }
    ensures same { HasSamePart stand.old stand.new }
    ensures free { IsIdle stand.new }
    ensures sealed { words.now.key.sizes.m ≤ (port_at stand.new).port.passed }
    ensures steps { stand.new.seat.steps ≤ stand.old.seat.steps + words.now.key.sizes.m }
{
    let m = stand.shape.sizes.m();
    for _ in stand.passed..m {
        pass(words, stand);
    }
}

// Passes the next component, to which it adds its own seal. It doesn't ask for another port's seal first: a load would bring
// the word to the processor once more.
fn pass(words: &Words, stand: &mut Stand)
    requires held { IsHeld words.now.table_id words.now.key stand.old }
    requires may { IsIdle stand.old }
    requires more { stand.old.passed < words.now.key.sizes.m }
    ensures held { IsHeld words.now.table_id words.now.key stand.new }
    ensures stays { Stays stand.old stand.new }
    ensures same { HasSamePart stand.old stand.new }
    ensures free { IsIdle stand.new }
    ensures passed { stand.new.passed ≡ stand.old.passed + 1 }
    ensures steps { stand.new.seat.steps ≤ stand.old.seat.steps + 1 }
{
    let word = (stand.base + u64::from(stand.passed)) as usize;
    words.fetch_add::<Seal>(&mut stand.seat, word, SEAL);
    stand.passed += 1;
}
