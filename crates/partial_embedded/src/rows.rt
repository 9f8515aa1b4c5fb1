//! The buffers of an embedded scan.

ghost use Rattle.std.specs.Prelude.{◌≡◌, ◌<◌, ℕ, length, map, IfOk, slice_index, false, replicate};
ghost use Rattle.std.specs.Vec.{vec_len};

use partial_words::Sizes;
use std::alloc::{AllocError, Global};
use std::marker::Model;

/// What an embedded scan has loaded: of each position the latest reference and whether it has changed, and
/// of each component its value. All room is taken when they are made.
#[derive(Debug, Drop)]
pub struct Rows {
    pub(crate) last: Vec<u64>,
    pub(crate) changed: Vec<bool>,
    pub(crate) values: Vec<u64>,
}

impl Model for Rows {
    ghost use Rattle.partial_embedded.specs.Embedded.{RowsState};

    ghost Value = { RowsState };

    ghost view = { λ r. record { last = r.last.items; changed = r.changed.items; values = r.values.items } };
}

impl Rows {
    ghost use Rattle.partial_embedded.specs.Embedded.{AreRowsFor};

    /// Makes empty buffers for a memory of these sizes.
    ///
    /// # Errors
    /// [`AllocError`] when an allocation was refused.
    pub fn new(alloc: Global, sizes: Sizes) -> Result<Rows, AllocError>
        ensures sizes { IfOk result (AreRowsFor sizes) }
        ensures empty { IfOk result (λ rows.
            rows ≡ record {
              last = replicate sizes.m 0;
              changed = replicate sizes.m false;
              values = replicate sizes.m 0;
            }) }
    {
        let room = sizes.m() as usize;
        Ok(Rows {
            last: vec![in alloc; 0u64; room]?,
            changed: vec![in alloc; false; room]?,
            values: vec![in alloc; 0u64; room]?,
        })
    }

    /// The value of a component after a finished scan, for a component of its positions or of the view that
    /// it took.
    #[inline(always)]
    pub fn value(&self, component: u32) -> u64
        requires { component < length self.now.values }
        ensures { result ≡ slice_index self.now.values component }
    {
        let Rows { values, .. } = self;
        values[component as usize]
    }

    /// The references that were loaded last, of each position. After a finished scan that took no view they are those
    /// of its last two collects, at as many places as it has positions; what stands after them says nothing.
    #[inline(always)]
    pub fn last(&self) -> &[u64]
        ensures { result.now ≡ self.now.last }
    {
        self.last.as_slice()
    }

    /// Copies the values of these components, as [`Rows::value`] returns them.
    pub fn copy_values(&self, components: &[u32], into: &mut [u64])
        requires lengths { length into.old ≡ length components.now }
        requires components { (k : ℕ) → k < length components.now →
            slice_index components.now k < length self.now.values }
        ensures { into.new ≡ map (slice_index self.now.values) components.now }
    {
        let Rows { values, .. } = self;
        let values = values.as_slice();
        for k in 0..into.len() {
            into[k] = values[components[k] as usize];
        }
    }
}
