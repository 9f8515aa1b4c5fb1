//! How a port gets an arena of its own for the next epoch.

ghost use Rattle.std.specs.Prelude.{◌≡◌, ◌≢◌, true, false, ◌+◌, ◌*◌, ◌<◌, ◌≤◌, ◌==◌, ◌⊎◌, if◌then◌else◌};
ghost use Rattle.partial_long_lived.specs.Bounds.{arena_steps, claim_steps};
ghost use Rattle.partial_long_lived.specs.Inner.Held.{IsHeld, port_at};
ghost use Rattle.partial_long_lived.specs.Inner.Calls.{IsIdle};
ghost use Rattle.partial_long_lived.specs.Inner.Changing.{HasClaimed, HasTried, Owns, PassBegun, PassesBy, Remains, SearchBegun, Searches, SearchesOn, Tried};

use crate::change_plays::{BeginPass, BeginSearch, Give, Take};
use crate::clear::clear;
use crate::rule::Words;
use crate::stand::Stand;

/// What a port has found of an arena, or of several.
#[derive(Clone, Copy, Debug)]
pub enum Claimed {
    /// The port owns this arena, and no port stands in it or enters it.
    Clean(u32),
    /// A port stands there or may come there, or another one owns the arena.
    Taken,
    /// The port's epoch has ended.
    Ended,
}

/// Passes over the arenas until it owns a free one, and returns that one's number, or `None` when the port's epoch has
/// ended. A pass finds none only if an arena has come free meanwhile, which happens a bounded number of times while the
/// epoch is the current one.
pub fn claim(words: &Words, stand: &mut Stand) -> Option<u32>
    requires held { IsHeld words.now.table_id words.now.key stand.old }
    requires may { IsIdle stand.old }
    ensures held { IsHeld words.now.table_id words.now.key stand.new }
    ensures remains { Remains stand.old stand.new }
    ensures claimed { HasClaimed result stand.new }
    ensures steps { stand.new.seat.steps ≤ stand.old.seat.steps + claim_steps words.now.key }
{
    let mut current = begin_search(words, stand);
    while current {
        match pass(words, stand) {
            Claimed::Clean(arena) => return Some(arena),
            Claimed::Taken => current = begin_pass(words, stand),
            Claimed::Ended => return None,
        }
    }
    None
}

// Looks, and begins a search if the port's epoch is the current one. Returns whether it is.
fn begin_search(words: &Words, stand: &mut Stand) -> bool
    requires held { IsHeld words.now.table_id words.now.key stand.old }
    requires may { IsIdle stand.old }
    ensures held { IsHeld words.now.table_id words.now.key stand.new }
    ensures remains { Remains stand.old stand.new }
    ensures idle { IsIdle stand.new }
    ensures begun { SearchBegun result stand.new }
    ensures steps { stand.new.seat.steps ≤ stand.old.seat.steps + 1 }
{
    let found = words.load::<BeginSearch>(&mut stand.seat, 0);
    found == stand.packed()
}

// Looks, and begins another pass if the port's epoch is still the current one. Returns whether it is.
fn begin_pass(words: &Words, stand: &mut Stand) -> bool
    requires held { IsHeld words.now.table_id words.now.key stand.old }
    requires may { IsIdle stand.old }
    requires passed { Searches false words.now.key.arenas stand.old }
    ensures held { IsHeld words.now.table_id words.now.key stand.new }
    ensures remains { Remains stand.old stand.new }
    ensures idle { IsIdle stand.new }
    ensures begun { PassBegun result stand.old stand.new }
    ensures steps { stand.new.seat.steps ≤ stand.old.seat.steps + 1 }
{
    let found = words.load::<BeginPass>(&mut stand.seat, 0);
    found == stand.packed()
}

// Makes one pass over the arenas: it tries each but the one where the port stands.
fn pass(words: &Words, stand: &mut Stand) -> Claimed
    requires held { IsHeld words.now.table_id words.now.key stand.old }
    requires may { IsIdle stand.old }
    requires searches { Searches false 0 stand.old }
    ensures held { IsHeld words.now.table_id words.now.key stand.new }
    ensures remains { Remains stand.old stand.new }
    ensures tried { HasTried result stand.new }
    ensures passes { PassesBy result words.now.key.arenas stand.old stand.new }
    ensures steps { stand.new.seat.steps ≤ stand.old.seat.steps + words.now.key.arenas * arena_steps words.now.key }
{
    for arena in 0..stand.shape.arenas {
        if arena != stand.arena {
            match try_arena(words, stand, arena) {
                Claimed::Clean(own) => return Claimed::Clean(own),
                Claimed::Taken => {}
                Claimed::Ended => return Claimed::Ended,
            }
        }
    }
    Claimed::Taken
}

// Takes an arena if no port owns it, and keeps it if no port stands there or enters it.
fn try_arena(words: &Words, stand: &mut Stand, arena: u32) -> Claimed
    requires held { IsHeld words.now.table_id words.now.key stand.old }
    requires may { IsIdle stand.old }
    requires inside { arena < words.now.key.arenas }
    requires apart { stand.old.arena ≢ arena }
    requires searches { Searches false arena stand.old }
    ensures held { IsHeld words.now.table_id words.now.key stand.new }
    ensures remains { Remains stand.old stand.new }
    ensures tried { HasTried result stand.new }
    ensures passes { PassesBy result (arena + 1) stand.old stand.new }
    ensures steps { stand.new.seat.steps ≤ stand.old.seat.steps + arena_steps words.now.key }
{
    if !take(words, stand, arena) {
        return Claimed::Taken;
    }
    match clear(words, stand, arena) {
        Claimed::Clean(own) => Claimed::Clean(own),
        Claimed::Taken => {
            give(words, stand, arena);
            Claimed::Taken
        }
        Claimed::Ended => {
            give(words, stand, arena);
            Claimed::Ended
        }
    }
}

// Takes the arena, if no port owns it.
fn take(words: &Words, stand: &mut Stand, arena: u32) -> bool
    requires held { IsHeld words.now.table_id words.now.key stand.old }
    requires may { IsIdle stand.old }
    requires inside { arena < words.now.key.arenas }
    requires apart { stand.old.arena ≢ arena }
    requires searches { Searches false arena stand.old }
    ensures held { IsHeld words.now.table_id words.now.key stand.new }
    ensures remains { Remains stand.old stand.new }
    ensures tried { Tried arena result stand.new }
    ensures passes { SearchesOn false (if result then arena else arena + 1) stand.old stand.new }
    ensures steps { stand.new.seat.steps ≤ stand.old.seat.steps + 1 }
{
    let word = stand.shape.own_word(arena) as usize;
    let owner = 1 + u64::from(stand.number);
    words.compare_exchange::<Take>(&mut stand.seat, word, 0, owner) == 0
}

/// Gives the arena back: the port has seen that its epoch has ended, or it has met another one there.
pub fn give(words: &Words, stand: &mut Stand, arena: u32)
    requires held { IsHeld words.now.table_id words.now.key stand.old }
    requires owns { Owns stand.old arena }
    requires inside { arena < words.now.key.arenas }
    requires cause { ((port_at stand.old).port.control.past ≡ true) ⊎ Searches true arena stand.old }
    ensures held { IsHeld words.now.table_id words.now.key stand.new }
    ensures remains { Remains stand.old stand.new }
    ensures free { IsIdle stand.new }
    ensures past { (port_at stand.new).port.control.past ≡ (port_at stand.old).port.control.past }
    ensures passes { Searches true arena stand.old → SearchesOn false (arena + 1) stand.old stand.new }
    ensures steps { stand.new.seat.steps ≤ stand.old.seat.steps + 1 }
{
    let word = stand.shape.own_word(arena) as usize;
    words.store::<Give>(&mut stand.seat, word, 0);
}
