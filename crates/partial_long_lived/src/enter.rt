//! A look at the current epoch, and how a port enters it.

ghost use Rattle.std.specs.Prelude.{◌≡◌, ◌+◌, ◌<◌, ◌≤◌};
ghost use Rattle.partial_epochs.specs.Layout.{packed};
ghost use Rattle.partial_long_lived.specs.Inner.Held.{IsHeld};
ghost use Rattle.partial_long_lived.specs.Inner.Calls.{EpochEntered, EpochSettled, IsIdle, LookFound, MayEnter, MayLook, StaysAt};

use crate::plays::{Arrive, LoadCurrent, Look, StoreEnteringWord, When};
use crate::rule::Words;
use crate::stand::Stand;

/// The highest bit of a word: the port is entering from the site that the word names.
pub const ENTERING_BIT: u64 = 1 << 63;

/// One and the greatest number of an arena.
pub const ARENAS: u64 = 1 << 16;

impl Stand {
    /// The word of the site where the port stands.
    #[inline(always)]
    pub fn packed(&self) -> u64
        requires { (self.now.epoch < 2199023255552) × (self.now.arena < 65536) }
        ensures { result ≡ packed (record { epoch = self.now.epoch; arena = self.now.arena }) }
    {
        self.epoch * ARENAS + u64::from(self.arena)
    }
}

/// Loads the current word, and says whether the port's epoch is the current one. If not, that epoch has ended.
pub fn look<F: When>(words: &Words, stand: &mut Stand) -> bool
    requires held { IsHeld words.now.table_id words.now.key stand.old }
    requires may { MayLook stand.old }
    ensures held { IsHeld words.now.table_id words.now.key stand.new }
    ensures kept { StaysAt stand.old stand.new }
    ensures looked { LookFound F.first stand.old result stand.new }
    ensures steps { stand.new.seat.steps ≤ stand.old.seat.steps + 1 }
{
    let found = words.load::<Look<F>>(&mut stand.seat, 0);
    found == stand.packed()
}

/// Enters the current epoch, or a later one than the port's where another port puts this one. The port has looked, and
/// owns no arena.
pub fn enter(words: &Words, stand: &mut Stand)
    requires held { IsHeld words.now.table_id words.now.key stand.old }
    requires may { MayEnter stand.old }
    ensures held { IsHeld words.now.table_id words.now.key stand.new }
    ensures entered { EpochEntered stand.old stand.new }
    ensures steps { stand.new.seat.steps ≤ stand.old.seat.steps + 3 }
{
    let entering_word = ENTERING_BIT + stand.packed();
    let at = 1 + stand.number as usize;
    words.store::<StoreEnteringWord>(&mut stand.seat, at, entering_word);
    let current = words.load::<LoadCurrent>(&mut stand.seat, 0);
    let found = words.compare_exchange::<Arrive>(&mut stand.seat, at, entering_word, current);
    let site = if found == entering_word {
        current
    } else {
        found
    };
    stand.epoch = site / ARENAS;
    stand.arena = (site % ARENAS) as u32;
    stand.base = stand.shape.base(stand.arena);
    stand.passed = 0;
}

/// Enters the current epoch if the port's epoch has ended. What the port loads then is no older than this. `F` says whether
/// the look with which it begins is the first step of its call.
pub fn settle<F: When>(words: &Words, stand: &mut Stand)
    requires held { IsHeld words.now.table_id words.now.key stand.old }
    requires idle { IsIdle stand.old }
    ensures held { IsHeld words.now.table_id words.now.key stand.new }
    ensures settled { EpochSettled F.first stand.old stand.new }
    ensures steps { stand.new.seat.steps ≤ stand.old.seat.steps + 4 }
{
    if !look::<F>(words, stand) {
        enter(words, stand);
    }
}
