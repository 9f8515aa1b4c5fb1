//! How the owner of an arena sees that no port stands there or enters it.

ghost use Rattle.std.specs.Prelude.{◌≡◌, false, ◌+◌, ◌*◌, ◌<◌, ◌≤◌};
ghost use Rattle.partial_long_lived.specs.Inner.Held.{IsHeld};
ghost use Rattle.partial_long_lived.specs.Inner.Changing.{HasCleared, HasLoadedPort, HasTaken, MayPutPort, MeetsBy, MeetsPort, Remains, HasSetWords, Searches};

use crate::change_plays::{LoadPort, Put};
use crate::claim::Claimed;
use crate::enter::{ARENAS, ENTERING_BIT, look};
use crate::plays::Later;
use crate::rule::Words;
use crate::stand::Stand;

/// Looks as the owner of an arena, and goes over all ports in the order of their numbers.
pub fn clear(words: &Words, stand: &mut Stand, arena: u32) -> Claimed
    requires held { IsHeld words.now.table_id words.now.key stand.old }
    requires taken { HasTaken stand.old arena }
    requires searches { Searches false arena stand.old }
    ensures held { IsHeld words.now.table_id words.now.key stand.new }
    ensures remains { Remains stand.old stand.new }
    ensures cleared { HasCleared arena words.now.key.ports result stand.new }
    ensures meets { MeetsBy result arena stand.old stand.new }
    ensures steps { stand.new.seat.steps ≤ stand.old.seat.steps + (1 + 3 * words.now.key.ports) }
{
    if !look::<Later>(words, stand) {
        return Claimed::Ended;
    }
    for port in 0..stand.shape.ports {
        match clear_port(words, stand, arena, port) {
            Claimed::Clean(_) => {}
            Claimed::Taken => return Claimed::Taken,
            Claimed::Ended => return Claimed::Ended,
        }
    }
    Claimed::Clean(arena)
}

// Sees that the next port is in another arena; a port that is entering is put where the owner stands.
fn clear_port(words: &Words, stand: &mut Stand, arena: u32, port: u32) -> Claimed
    requires held { IsHeld words.now.table_id words.now.key stand.old }
    requires works { HasSetWords stand.old arena port 0 }
    requires searches { Searches false arena stand.old }
    requires inside { port < words.now.key.ports }
    ensures held { IsHeld words.now.table_id words.now.key stand.new }
    ensures remains { Remains stand.old stand.new }
    ensures cleared { HasCleared arena (port + 1) result stand.new }
    ensures meets { MeetsBy result arena stand.old stand.new }
    ensures steps { stand.new.seat.steps ≤ stand.old.seat.steps + 3 }
{
    let found = load_port(words, stand, arena, port);
    if found < ENTERING_BIT {
        return if found % ARENAS == u64::from(arena) {
            Claimed::Taken
        } else {
            Claimed::Clean(arena)
        };
    }
    if look::<Later>(words, stand) {
        put_port(words, stand, arena, port, found)
    } else {
        Claimed::Ended
    }
}

// Loads the word of the next port.
fn load_port(words: &Words, stand: &mut Stand, arena: u32, port: u32) -> u64
    requires held { IsHeld words.now.table_id words.now.key stand.old }
    requires works { HasSetWords stand.old arena port 0 }
    requires searches { Searches false arena stand.old }
    requires inside { port < words.now.key.ports }
    ensures held { IsHeld words.now.table_id words.now.key stand.new }
    ensures remains { Remains stand.old stand.new }
    ensures loaded { HasLoadedPort stand.new arena port result }
    ensures meets { MeetsPort arena result stand.old stand.new }
    ensures steps { stand.new.seat.steps ≤ stand.old.seat.steps + 1 }
{
    words.load::<LoadPort>(&mut stand.seat, 1 + port as usize)
}

// Puts the next port, of which the owner has loaded the entering word, where the owner stands.
fn put_port(words: &Words, stand: &mut Stand, arena: u32, port: u32, entering_word: u64) -> Claimed
    requires held { IsHeld words.now.table_id words.now.key stand.old }
    requires may { MayPutPort stand.old arena port entering_word }
    requires searches { Searches false arena stand.old }
    requires bit { 9223372036854775808 ≤ entering_word }
    requires inside { port < words.now.key.ports }
    ensures held { IsHeld words.now.table_id words.now.key stand.new }
    ensures remains { Remains stand.old stand.new }
    ensures cleared { HasCleared arena (port + 1) result stand.new }
    ensures meets { MeetsBy result arena stand.old stand.new }
    ensures steps { stand.new.seat.steps ≤ stand.old.seat.steps + 1 }
{
    let here = stand.packed();
    let found = words.compare_exchange::<Put>(
        &mut stand.seat,
        1 + port as usize,
        entering_word,
        here,
    );
    if found == entering_word {
        return Claimed::Clean(arena);
    }
    if found < ENTERING_BIT && found % ARENAS != u64::from(arena) {
        return Claimed::Clean(arena);
    }
    Claimed::Taken
}
