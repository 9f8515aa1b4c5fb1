//! The machine of an embedded scan.

ghost use Rattle.std.specs.Prelude.{◌≡◌, ◌+◌, ◌*◌, ◌^◌, ◌<◌, ℕ, List, Bool, length, slice_index};
ghost use Rattle.partial_embedded.specs.Embedded.{RowsState, ViewGoesTogether, AreRowsFor, IsPossibleInView, buffers, pairs_from};
ghost use Rattle.partial_embedded.specs.declared.embedded.Stage.TheVariants.{Value, Done};

mod collects;
mod loops;

use crate::rows::Rows;
use partial_words::{
    Sizes, Step, next_word, pairs_word, plain_record_size, value_word, view_size, view_word,
};
use std::marker::Model;

/// The stage of an embedded scan: the load that is due, and what it needs. `at` is the number of the word.
#[derive(Clone, Copy, Debug, PartialEq, Eq)]
pub enum Stage {
    /// Load the component word of a position.
    Collect { position: usize },
    /// Load the reference of the view of the record with this stamp.
    View { stamp: u64 },
    /// Load the number of pairs of the view at this word.
    Len { at: u64 },
    /// Load the index of a pair at this word. `left` pairs are left, this one included.
    Index { at: u64, left: u64 },
    /// Load the value of the pair with this index, at this word.
    PairValue { at: u64, left: u64, index: u32 },
    /// Load the value of a position's record.
    Value { position: usize },
    /// No step is due.
    Done,
}

/// An embedded scan under way. It collects the component words of its positions until two collects are
/// equal (a double collect) or one position shows its third record. In the first case it loads the values
/// of the records. In the second it is helped: it takes the view of that record.
// The wide fields come first, so that there is no padding: padding would be copied with them.
#[derive(Debug, Drop)]
pub struct Embedded {
    stage: Stage,
    borrowed: Option<u64>,
    view: u64,
    sizes: Sizes,
    collects: u32,
    shares: bool,
    moved: bool,
}

impl Model for Embedded {
    ghost use Rattle.partial_words.specs.Layout.{IsLayout};
    ghost use Rattle.partial_embedded.specs.Embedded.{EmbeddedState};

    ghost Value = { EmbeddedState };

    ghost view = { λ e. record {
      sizes = e.sizes;
      shares = e.shares;
      collects = e.collects;
      moved = e.moved;
      borrowed = e.borrowed;
      view = e.view;
      stage = e.stage;
    } };

    ghost invariant = { λ e. IsLayout e.sizes };
}

impl Embedded {
    ghost use Rattle.std.specs.Prelude.{IfSome, IfNone, Some, ◌≤◌};
    ghost use Rattle.partial_words.specs.Layout.{pool_end};
    ghost use Rattle.partial_words.specs.declared.step.Step.TheVariants.{Load};
    ghost use Rattle.partial_embedded.specs.Embedded.{ArePositions, fresh_view, view_step_due, view_step_at, advance_view, view_left, most_view_steps, after_view, advance_view_at};

    /// Makes an embedded scan before its first step. When `shares` is true it takes the reference of
    /// another record's view and stops there; otherwise it loads the view's pairs.
    #[inline(always)]
    pub fn new(sizes: Sizes, shares: bool) -> Embedded
        ensures state { result ≡ fresh_view sizes shares }
        ensures together { (indices : List ℕ) (rows : RowsState) → ArePositions sizes indices → AreRowsFor sizes rows →
            ViewGoesTogether indices (result, rows) }
        ensures steps { (indices : List ℕ) (rows : RowsState) →
            view_left indices (result, rows) ≡ most_view_steps sizes (length indices) }
    {
        // The contract of the getter says that the sizes are in their ranges.
        let _components = sizes.m();
        Embedded {
            sizes,
            shares,
            collects: 1,
            moved: false,
            borrowed: None,
            view: 0,
            stage: Stage::Collect { position: 0 },
        }
    }

    /// The step that is due. `None` when the scan is finished.
    #[inline(always)]
    pub fn step(&self, rows: &Rows, indices: &[u32]) -> Option<Step>
        requires { ViewGoesTogether indices.now (self.now, rows.now) }
        ensures { result ≡ view_step_due indices.now (self.now, rows.now) }
    {
        let Rows { last, .. } = rows;
        match self.due_word(last, indices) {
            Some(word) => Some(Step::Load(word as u32)),
            None => None,
        }
    }

    /// How many collects were begun, the one under way included.
    #[inline(always)]
    pub fn collects(&self) -> u32
        ensures { result ≡ self.now.collects }
    {
        let Embedded { collects, .. } = self;
        *collects
    }

    /// The stamp of the record whose view the scan took, if it took one.
    #[inline(always)]
    pub fn borrowed(&self) -> Option<u64>
        ensures { result ≡ self.now.borrowed }
    {
        let Embedded { borrowed, .. } = self;
        *borrowed
    }

    /// The reference of the view that the scan took. It is 0 for the empty view, and when it took none.
    #[inline(always)]
    pub fn view(&self) -> u64
        ensures { result ≡ self.now.view }
    {
        let Embedded { view, .. } = self;
        *view
    }

    /// Takes the answer of the step that was due, with the buffers and the positions of this scan. When the
    /// scan is finished, the buffers have the values.
    #[inline(always)]
    pub fn answer(&mut self, rows: &mut Rows, indices: &[u32], x: u64)
        requires together { ViewGoesTogether indices.now (self.old, rows.old) }
        requires possible { IsPossibleInView (self.old, rows.old) x }
        ensures state { (self.new, rows.new) ≡ advance_view indices.now (self.old, rows.old) x }
        ensures together { ViewGoesTogether indices.now (self.new, rows.new) }
        ensures left { view_left indices.now (self.new, rows.new) < view_left indices.now (self.old, rows.old) }
    {
        self.take_in(rows, indices, x);
    }

    // Changes the machine and its buffers by the answer.
    #[inline(always)]
    fn take_in(&mut self, rows: &mut Rows, indices: &[u32], x: u64)
        requires together { ViewGoesTogether indices.now (self.old, rows.old) }
        requires possible { IsPossibleInView (self.old, rows.old) x }
        ensures { (self.new, rows.new) ≡ advance_view indices.now (self.old, rows.old) x }
    {
        let Rows {
            last,
            changed,
            values,
        } = rows;
        self.after_answer(last, changed, values, indices, x);
    }

    // The number of the word whose load is due.
    #[inline(always)]
    fn due_word(&self, last: &[u64], indices: &[u32]) -> Option<u64>
        requires { ((changed : List Bool) × (values : List ℕ) ×
            ViewGoesTogether indices.now (self.now, buffers last.now changed values)) }
        ensures due { IfSome result (λ word.
            view_step_at self.now.sizes indices.now last.now self.now.stage ≡ Some (Load word)) }
        ensures fits { IfSome result (λ word. word < 2 ^ 32) }
        ensures done { IfNone result (self.now.stage ≡ Done) }
    {
        Some(match self.stage {
            Stage::Collect { position } => {
                u64::from(self.sizes.component_word(indices[position]))
            }
            Stage::View { stamp } => view_word(stamp),
            Stage::Len { at } => at,
            Stage::Index { at, .. } => at,
            Stage::PairValue { at, .. } => at,
            Stage::Value { position } => value_word(last[position]),
            Stage::Done => return None,
        })
    }

    // Takes the answer, with the buffers apart.
    #[inline(always)]
    fn after_answer(
        &mut self,
        last: &mut [u64],
        changed: &mut [bool],
        values: &mut [u64],
        indices: &[u32],
        x: u64,
    )
        requires together { ViewGoesTogether indices.now (self.old, buffers last.old changed.old values.old) }
        requires possible { IsPossibleInView (self.old, buffers last.old changed.old values.old) x }
        ensures { (self.new, buffers last.new changed.new values.new) ≡
            advance_view indices.now (self.old, buffers last.old changed.old values.old) x }
    {
        match self.stage {
            Stage::Collect { position } => self.after_load(
                last,
                changed,
                indices.len(),
                position,
                x,
            ),
            Stage::View { .. } => self.after_view(x),
            Stage::Len { at } => self.stage = pairs_from(pairs_word(at), x),
            Stage::Index { at, left } => {
                self.stage = Stage::PairValue {
                    at: next_word(at),
                    left,
                    index: x as u32,
                };
            }
            Stage::PairValue { at, left, index } => {
                values[index as usize] = x;
                self.stage = pairs_from(next_word(at), left - 1);
            }
            Stage::Value { position } => self.after_value(values, indices, position, x),
            Stage::Done => {}
        }
    }

    // Takes the answer of the load of a record's value.
    #[inline(always)]
    fn after_value(&mut self, values: &mut [u64], indices: &[u32], position: usize, x: u64)
        requires position { position < length indices.now }
        requires component { slice_index indices.now position < length values.old }
        ensures { (last : List ℕ) (changed : List Bool) → (self.new, buffers last changed values.new) ≡
            advance_view_at indices.now (self.old, buffers last changed values.old) (Value position) x }
    {
        values[indices[position] as usize] = x;
        self.stage = if position + 1 < indices.len() {
            Stage::Value {
                position: position + 1,
            }
        } else {
            Stage::Done
        };
    }

    // Takes the answer of the load of the view's reference.
    #[inline(always)]
    fn after_view(&mut self, x: u64)
        ensures { self.new ≡ after_view self.old x }
    {
        self.view = x;
        self.stage = if x == 0 || self.shares {
            Stage::Done
        } else {
            Stage::Len { at: x }
        };
    }
}

impl Embedded {
    ghost use Rattle.std.specs.Prelude.{IsTrue, ◌↔◌, ◌≤◌};
    ghost use Rattle.partial_words.specs.Layout.{pool_base, pool_end};
    ghost use Rattle.partial_embedded.specs.Embedded.{IsPossibleInViewAt};

    /// Whether the number is a possible answer of the step that is due, as [`Embedded::answer`] wants it: one that the
    /// words of a memory give.
    pub fn may_answer(&self, x: u64) -> bool
        ensures { IsTrue result ↔ IsPossibleInViewAt self.now.sizes self.now.stage x }
    {
        let end = u64::from(self.sizes.pool_end());
        match self.stage {
            Stage::Collect { .. } => self.sizes.is_pool_word(x) && plain_record_size() <= end - x,
            Stage::View { .. } => x == 0 || self.sizes.is_pool_word(x),
            Stage::Len { at } => {
                x <= u64::from(self.sizes.m()) && at <= end && view_size(x) <= end - at
            }
            Stage::Index { .. } => x < u64::from(self.sizes.m()),
            Stage::PairValue { .. } | Stage::Value { .. } => true,
            Stage::Done => false,
        }
    }
}

// The stage with `left` pairs left, from word `at` on.
#[inline(always)]
fn pairs_from(at: u64, left: u64) -> Stage
    ensures { result ≡ pairs_from at left }
{
    if left == 0 {
        Stage::Done
    } else {
        Stage::Index { at, left }
    }
}
