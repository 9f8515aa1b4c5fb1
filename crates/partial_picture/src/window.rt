//! Which steps are drawn.

ghost use Rattle.std.specs.Prelude.{◌≡◌, ◌≤◌, ◌<◌, ◌-◌, ◌+◌, ◌↔◌, IsTrue, IfOk};
ghost use Rattle.partial_picture.specs.Drawn.{drawn_of, SpanHasRoom};

use crate::fault::PictureError;

/// The greatest number of steps in a picture.
pub const MOST_STEPS: usize = 2_000;

/// Which steps are asked for.
#[derive(Clone, Copy, Debug, PartialEq, Eq)]
pub enum Window {
    /// All steps.
    Whole,
    /// The steps from `first` to `last`, both included, counted from 0.
    Steps { first: usize, last: usize },
}

/// Indices in a row. A span is empty when both its ends are equal.
#[derive(Clone, Copy, Debug, PartialEq, Eq)]
pub struct Span {
    /// The first index.
    pub first: usize,
    /// The index after the last one.
    pub behind: usize,
}

impl Span {
    /// How many indices there are.
    pub fn len(self) -> usize
        ensures { result ≡ self.behind - self.first }
    {
        self.behind.saturating_sub(self.first)
    }

    /// Whether there is no index.
    pub fn is_empty(self) -> bool
        ensures { IsTrue result ↔ (self.behind ≤ self.first) }
    {
        self.behind <= self.first
    }

    /// Whether the index is in the span.
    pub fn contains(self, place: usize) -> bool
        ensures { IsTrue result ↔ ((self.first ≤ place) × (place < self.behind)) }
    {
        self.first <= place && place < self.behind
    }
}

impl Window {
    /// The steps that are drawn of a replay of so many steps.
    ///
    /// # Errors
    ///
    /// `Window` when it doesn't go from a step of the replay to the same or a later one, and otherwise
    /// `TooMany` when it has more than 2,000 steps.
    pub fn drawn(self, steps: usize) -> Result<Span, PictureError>
        ensures value { result ≡ drawn_of self steps }
        ensures room { IfOk result (SpanHasRoom steps) }
    {
        let (first, behind) = match self {
            Window::Whole => (0, steps),
            Window::Steps { first, last } if first <= last && last < steps => (first, last + 1),
            Window::Steps { .. } => return Err(PictureError::Window { steps }),
        };
        let count = behind - first;
        if count > MOST_STEPS {
            return Err(PictureError::TooMany { steps: count });
        }
        Ok(Span { first, behind })
    }
}
