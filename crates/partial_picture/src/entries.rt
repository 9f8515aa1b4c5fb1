//! The labels of the history's entries. They are in tiers above its line, so that labels of near entries
//! can be read whole.

ghost use Rattle.std.specs.Prelude.{◌≡◌, ◌≤◌, ◌<◌, All, [], length, map, IfOk};
ghost use Rattle.partial_picture.specs.Labels.{AreTiered, label_places, rooms_in, tier_for};
ghost use Rattle.partial_picture.specs.Lengths.{product_of};

use crate::pixels::Pixels;
use std::alloc::{AllocError, Global};

/// The greatest number of tiers.
pub const TIERS: usize = 3;

/// The width of most labels.
const WIDTH: u64 = 160;

/// The height of a tier: two lines of words.
const TIER: u64 = 28;

/// Where the label of an entry is.
#[derive(Clone, Copy, Debug, PartialEq, Eq)]
pub struct Label {
    /// Its tier, counted from 0 from the line of the history upwards.
    pub tier: usize,
    /// The room from its left side to the next label of its tier.
    pub room: Pixels,
}

impl Label {
    /// How far above the lowest tier the label is: 28 for each tier.
    pub fn raised(&self) -> u64
        ensures { result ≡ product_of 28 self.now.tier }
    {
        (Pixels(TIER) * self.tier).0
    }
}

/// The lowest tier whose labels have ended at a place or, when there is none, the tier whose labels end
/// first.
fn tier_at(ends: &[u64; TIERS], place: u64) -> usize
    ensures value { result ≡ tier_for ends.now place }
    ensures below { result < 3 }
{
    let [first, second, third] = *ends;
    if first <= place {
        0
    } else if second <= place {
        1
    } else if third <= place || third < first.min(second) {
        2
    } else if second < first {
        1
    } else {
        0
    }
}

/// Makes the labels of entries at rising places, in a drawing of that width: one for each place, in order.
///
/// # Errors
///
/// [`AllocError`] when an allocation was refused.
pub fn labels_of(alloc: Global, places: &[Pixels], width: Pixels) -> Result<Vec<Label>, AllocError>
    ensures many { IfOk result (λ labels. length labels.items ≡ length places.now) }
    // Each is in the tier for its place.
    ensures tiers { IfOk result (λ labels. AreTiered [] (label_places labels.items places.now)) }
    // Its room ends at the next label of its tier, or at the end of the drawing.
    ensures rooms { IfOk result (λ labels. map (λ l. l.room.0) labels.items
        ≡ rooms_in width.0 (label_places labels.items places.now)) }
{
    let mut labels = Vec::with_capacity(alloc, places.len())?;
    let mut ends = [0; TIERS];
    for place in places {
        let tier = tier_at(&ends, place.0);
        ends[tier] = (*place + WIDTH).0;
        labels.push(Label { tier, room: width })?;
    }
    make_room(&mut labels, places, width);
    Ok(labels)
}

/// Gives each label the room up to the next one of its tier.
fn make_room(labels: &mut [Label], places: &[Pixels], width: Pixels)
    requires many { length labels.old ≡ length places.now }
    requires tiers { All (λ l. l.tier < 3) labels.old }
    ensures tiers { map (λ l. l.tier) labels.new ≡ map (λ l. l.tier) labels.old }
    ensures rooms { map (λ l. l.room.0) labels.new ≡ rooms_in width.0 (label_places labels.old places.now) }
{
    let mut ends = [width.0; TIERS];
    let mut at = labels.len();
    while at > 0 {
        at -= 1;
        let tier = labels[at].tier;
        let place = places[at].0;
        let room = Pixels(ends[tier].saturating_sub(place));
        labels[at] = Label { tier, room };
        ends[tier] = place;
    }
}

/// The height of these labels' tiers, apart from the lowest one.
pub fn raised_by(labels: &[Label]) -> u64
    ensures { All (λ label. product_of 28 label.tier ≤ result) labels.now }
{
    labels.iter().map(|label| label.raised()).max().unwrap_or(0)
}
