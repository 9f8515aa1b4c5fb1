//! The layout of a drawing: steps from left to right, lanes from top to bottom.

use crate::entries::{Label, labels_of, raised_by};
use crate::picture::{Bar, Picture, Pin};
use crate::pixels::Pixels;
use std::alloc::{AllocError, Global};

/// Where the first step begins. The names of the lanes are left of it.
const LEFT: Pixels = Pixels(116);

/// The width of a call without a step.
const BETWEEN: Pixels = Pixels(80);

/// The free width right of the steps, for words that go on.
const RIGHT: u64 = 120;

/// The least width of a drawing, so that its legend has room.
const LEAST_WIDTH: Pixels = Pixels(660);

/// Where the line of the history lies: below one tier of words.
const HISTORY: Pixels = Pixels(64);

/// The distance from the line of the history to the first lane.
const LANES: u64 = 20;

/// The height of a lane: two lines of words, the bars, and the port's name.
const LANE: Pixels = Pixels(74);

/// The height of a word's row.
const ROW: Pixels = Pixels(18);

/// The height of the legend.
const LEGEND: u64 = 52;

/// The sides of a bar.
#[derive(Clone, Copy)]
pub(crate) struct Sides {
    pub(crate) left: Pixels,
    pub(crate) right: Pixels,
}

/// The places of a drawing.
#[derive(Drop)]
pub(crate) struct Layout {
    /// The width of a step.
    step: u64,
    /// Where each mark's step begins, and where the last one ends.
    edges: Vec<Pixels>,
    /// The sides of the picture's bars.
    pub(crate) bars: Vec<Sides>,
    /// Where the words of the picture's entries are.
    pub(crate) labels: Vec<Label>,
    /// The line of the history.
    pub(crate) history: Pixels,
    /// Where the steps end.
    pub(crate) right: Pixels,
    pub(crate) width: Pixels,
    pub(crate) height: Pixels,
    /// Where the rows of words begin.
    words: Pixels,
    /// Where the legend begins.
    pub(crate) legend: Pixels,
}

/// The width of a step in a picture of so many. Short replays have room for their words.
fn step_width(marks: usize) -> u64 {
    match marks {
        0..=40 => 26,
        41..=120 => 20,
        _ => 16,
    }
}

/// How many calls without a step come before each of so many marks and, last, after all of them.
fn calls_between(alloc: Global, marks: usize, bars: &[Bar<'_>]) -> Result<Vec<usize>, AllocError> {
    let mut counts = vec![in alloc; 0usize; marks]?;
    counts.push(0)?;
    for bar in bars {
        if let Some(count) = counts.get_mut(bar.marks.first) {
            if bar.marks.is_empty() {
                *count = count.saturating_add(1);
            }
        }
    }
    Ok(counts)
}

impl Layout {
    /// Lays out a picture with so many rows of words.
    pub(crate) fn of(
        alloc: Global,
        picture: &Picture<'_>,
        rows: usize,
    ) -> Result<Layout, AllocError> {
        let step = step_width(picture.marks.len());
        let mut edges = Vec::new(alloc);
        let mut rooms = Vec::new(alloc);
        let mut left = LEFT;
        for count in calls_between(alloc, picture.marks.len(), &picture.bars)? {
            rooms.push(left)?;
            left = left + (BETWEEN * count).0;
            edges.push(left)?;
            left = left + step;
        }
        let right = left - step;
        let width = LEAST_WIDTH.max(right + RIGHT);
        let labels = labels_at(alloc, &picture.pins, &edges, step, width)?;
        let history = HISTORY + raised_by(&labels);
        let words = history + LANES + (LANE * picture.ports).0;
        let legend = words + (ROW * rows).0 + 14;
        Ok(Layout {
            step,
            bars: sides_of(alloc, &picture.bars, &edges, &mut rooms, step)?,
            labels,
            history,
            right,
            width,
            height: legend + LEGEND,
            edges,
            words,
            legend,
        })
    }

    /// Where a mark's step begins.
    pub(crate) fn edge(&self, mark: usize) -> Pixels {
        self.edges.get(mark).copied().unwrap_or(LEFT)
    }

    /// The middle of a mark.
    pub(crate) fn middle(&self, mark: usize) -> Pixels {
        self.edge(mark) + self.step / 2
    }

    /// Where the steps begin.
    pub(crate) fn left(&self) -> Pixels {
        LEFT
    }

    /// Where the lane of a port begins.
    pub(crate) fn lane(&self, port: usize) -> Pixels {
        self.history + LANES + (LANE * port).0
    }

    /// The line of a port's marks.
    pub(crate) fn line(&self, port: usize) -> Pixels {
        self.lane(port) + 46
    }

    /// The line of a word's row.
    pub(crate) fn row(&self, index: usize) -> Pixels {
        self.words + (ROW * index).0 + 10
    }

    /// Where the lanes and the rows end.
    pub(crate) fn bottom(&self) -> Pixels {
        self.legend - 8
    }

    /// The room for a bar's words, from its left side to the next bar of its port.
    pub(crate) fn room(&self, bars: &[Bar<'_>], index: usize) -> Pixels {
        let Some(sides) = self.bars.get(index) else {
            return Pixels(0);
        };
        let next = index.saturating_add(1);
        let end = match (bars.get(index), bars.get(next), self.bars.get(next)) {
            (Some(bar), Some(behind), Some(sides)) if bar.called.port == behind.called.port => {
                sides.left
            }
            _ => self.width,
        };
        end - sides.left.0
    }
}

/// Where the words of these entries are: over the middles of their marks.
fn labels_at(
    alloc: Global,
    pins: &[Pin],
    edges: &[Pixels],
    step: u64,
    width: Pixels,
) -> Result<Vec<Label>, AllocError> {
    let places: Vec<Pixels> = pins
        .iter()
        .map(|pin| edges.get(pin.mark).copied().unwrap_or(LEFT) + step / 2)
        .collect(alloc)?;
    labels_of(alloc, &places, width)
}

/// The sides of each bar. Calls without a step are side by side in the room before their mark.
fn sides_of(
    alloc: Global,
    bars: &[Bar<'_>],
    edges: &[Pixels],
    rooms: &mut [Pixels],
    step: u64,
) -> Result<Vec<Sides>, AllocError> {
    let mut sides = Vec::with_capacity(alloc, bars.len())?;
    for bar in bars {
        if bar.marks.is_empty() {
            let mut left = LEFT;
            if let Some(room) = rooms.get_mut(bar.marks.first) {
                left = *room;
                *room = left + BETWEEN.0;
            }
            let right = left + 10;
            sides.push(Sides { left, right })?;
        } else {
            let last = bar.marks.behind.saturating_sub(1);
            let left = edges.get(bar.marks.first).copied().unwrap_or(LEFT) + 1;
            let right = edges.get(last).copied().unwrap_or(LEFT) + step - 1;
            sides.push(Sides { left, right })?;
        }
    }
    Ok(sides)
}
