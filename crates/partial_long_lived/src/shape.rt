//! The sizes of a long-lived memory.

ghost use Rattle.std.specs.Prelude.{◌≡◌, ◌-◌, ◌≤◌};
ghost use Rattle.partial_words.specs.Layout.{most_ahead};
ghost use Rattle.partial_long_lived.specs.Sized.{HasOffsets, IsSized, ahead_for};

use partial_words::{MOST_AHEAD, Sizes};

/// The sizes of an arena, how many ports and arenas there are, its pool limit, and how scans are made.
#[derive(Clone, Copy, Debug)]
pub struct Shape {
    /// The sizes of an arena.
    pub sizes: Sizes,
    /// How many ports there are.
    pub ports: u32,
    /// How many arenas there are.
    pub arenas: u32,
    /// Pool limit: a claim that ends past this word of the arena is the port's last in the epoch.
    pub limit: u64,
    /// Whether scans announce themselves, so that updates help them.
    pub announces: bool,
    /// The word of an arena after the initial records, where those of an epoch's own begin.
    pub own: u64,
    /// The word of an arena where the carried stamps begin.
    pub carried: u64,
    pub ghost sized: { IsSized sizes ports arenas limit announces },
    pub ghost offsets: { HasOffsets sizes own carried },
}

impl Shape {
    /// How many words more than those of its record an update claims: those of 31 records without a view, or fewer, so that
    /// the words that all ports keep are an eighth of those that an epoch has at most.
    pub fn ahead(&self) -> u32
        ensures value { result ≡ ahead_for (self.now.limit - self.now.own) self.now.ports }
        ensures few { result ≤ most_ahead }
    {
        let claimed = self.limit - self.own;
        (claimed / 8 / u64::from(self.ports)).min(MOST_AHEAD) as u32
    }
}
