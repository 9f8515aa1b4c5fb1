//! A whole embedded scan, made in loops over its buffers. The caller supplies the loads.

ghost use Rattle.std.specs.Prelude.{◌≡◌, ◌≢◌, ℕ, IfOk, IfSome, IfNone, OnOk};
ghost use Rattle.partial_words.specs.Layout.{IsLayout};
ghost use Rattle.partial_embedded.specs.Embedded.{ViewGoesTogether, AreRowsFor, IsPastCollects, buffers};
ghost use Rattle.partial_embedded.specs.declared.embedded.Stage.TheVariants.{Collect, Value, Done};

use super::{Embedded, Stage};
use crate::loads::Loads;
use crate::rows::Rows;
use partial_words::value_word;

impl Embedded {
    /// Makes the scan of these positions to its end, with its buffers, and returns it. It makes each load
    /// through `loads`, which are at this scan.
    ///
    /// # Errors
    /// [`Loads::Break`] when `loads` break it off: they are at the scan after the last load that was made.
    #[inline(always)]
    pub fn make<L: Loads>(
        mut self,
        rows: &mut Rows,
        indices: &[u32],
        loads: &mut L,
    ) -> Result<Embedded, L::Break>
        requires goes { L.goes loads.old }
        requires together { ViewGoesTogether indices.now (self, rows.old) }
        requires scan { L.scan loads.old ≡ (self, rows.old) }
        requires positions { L.positions loads.old ≡ indices.now }
        ensures goes { L.goes loads.new }
        ensures scan { IfOk result (λ made. L.scan loads.new ≡ (made, rows.new)) }
        ensures follows { L.follows loads.old loads.new }
        ensures done { IfOk result (λ made. made.stage ≡ Done) }
        ensures rows { AreRowsFor self.sizes rows.new }
    {
        let Rows {
            last,
            changed,
            values,
        } = rows;
        self.make_loads(last, changed, values, indices, loads)?;
        Ok(self)
    }

    // Makes the loads, with the buffers in their place: the collects, the values, and another record's view.
    #[inline(always)]
    fn make_loads<L: Loads>(
        &mut self,
        last: &mut [u64],
        changed: &mut [bool],
        values: &mut [u64],
        indices: &[u32],
        loads: &mut L,
    ) -> Result<(), L::Break>
        requires goes { L.goes loads.old }
        requires together { ViewGoesTogether indices.now (self.old, buffers last.old changed.old values.old) }
        requires scan { L.scan loads.old ≡ (self.old, buffers last.old changed.old values.old) }
        requires positions { L.positions loads.old ≡ indices.now }
        ensures goes { L.goes loads.new }
        ensures scan { L.scan loads.new ≡ (self.new, buffers last.new changed.new values.new) }
        ensures follows { L.follows loads.old loads.new }
        ensures done { OnOk result (self.new.stage ≡ Done) }
        ensures rows { AreRowsFor self.old.sizes (buffers last.new changed.new values.new) }
    {
        self.make_first_collect(last, changed, values, indices, loads)?;
        self.make_later_collects(last, changed, values, indices, loads)?;
        self.load_values(last, changed, values, indices, loads)?;
        self.load_view(last, changed, values, indices, loads)
    }

    // Makes the loads of the first collect, if these are due. The values stand in its contract alone.
    #[inline(always)]
    fn make_first_collect<L: Loads>(
        &mut self,
        last: &mut [u64],
        changed: &mut [bool],
        values: &[u64],
        indices: &[u32],
        loads: &mut L,
    ) -> Result<(), L::Break>
        requires goes { L.goes loads.old }
        requires together { ViewGoesTogether indices.now (self.old, buffers last.old changed.old values.now) }
        requires scan { L.scan loads.old ≡ (self.old, buffers last.old changed.old values.now) }
        requires positions { L.positions loads.old ≡ indices.now }
        ensures goes { L.goes loads.new }
        ensures together { ViewGoesTogether indices.now (self.new, buffers last.new changed.new values.now) }
        ensures scan { L.scan loads.new ≡ (self.new, buffers last.new changed.new values.now) }
        ensures positions { L.positions loads.new ≡ indices.now }
        ensures follows { L.follows loads.old loads.new }
        ensures sizes { self.new.sizes ≡ self.old.sizes }
        ensures over { OnOk result ((k : ℕ) → self.new.stage ≡ Collect k → self.new.collects ≢ 1) }
    {
        while let Some(position) = self.collecting_first() {
            let word = self.sizes.component_word(indices[position]);
            let stamp = loads.load_component(u64::from(word))?;
            self.after_first_load(last, changed, indices.len(), position, stamp);
        }
        Ok(())
    }

    // Makes the loads of the later collects, if these are due. The values stand in its contract alone.
    #[inline(always)]
    fn make_later_collects<L: Loads>(
        &mut self,
        last: &mut [u64],
        changed: &mut [bool],
        values: &[u64],
        indices: &[u32],
        loads: &mut L,
    ) -> Result<(), L::Break>
        requires goes { L.goes loads.old }
        requires together { ViewGoesTogether indices.now (self.old, buffers last.old changed.old values.now) }
        requires scan { L.scan loads.old ≡ (self.old, buffers last.old changed.old values.now) }
        requires positions { L.positions loads.old ≡ indices.now }
        requires later { (k : ℕ) → self.old.stage ≡ Collect k → self.old.collects ≢ 1 }
        ensures goes { L.goes loads.new }
        ensures together { ViewGoesTogether indices.now (self.new, buffers last.new changed.new values.now) }
        ensures scan { L.scan loads.new ≡ (self.new, buffers last.new changed.new values.now) }
        ensures positions { L.positions loads.new ≡ indices.now }
        ensures follows { L.follows loads.old loads.new }
        ensures sizes { self.new.sizes ≡ self.old.sizes }
        ensures over { OnOk result (IsPastCollects self.new.stage) }
    {
        while let Some(position) = self.collecting() {
            let word = self.sizes.component_word(indices[position]);
            let found = loads.load_component(u64::from(word))?;
            self.after_later_load(last, changed, indices.len(), position, found);
        }
        Ok(())
    }

    // Makes the loads of the records' values, if these are due. The marks of changes stand in its contract
    // alone.
    #[inline(always)]
    fn load_values<L: Loads>(
        &mut self,
        last: &[u64],
        changed: &[bool],
        values: &mut [u64],
        indices: &[u32],
        loads: &mut L,
    ) -> Result<(), L::Break>
        requires goes { L.goes loads.old }
        requires together { ViewGoesTogether indices.now (self.old, buffers last.now changed.now values.old) }
        requires scan { L.scan loads.old ≡ (self.old, buffers last.now changed.now values.old) }
        requires positions { L.positions loads.old ≡ indices.now }
        requires over { IsPastCollects self.old.stage }
        ensures goes { L.goes loads.new }
        ensures together { ViewGoesTogether indices.now (self.new, buffers last.now changed.now values.new) }
        ensures scan { L.scan loads.new ≡ (self.new, buffers last.now changed.now values.new) }
        ensures positions { L.positions loads.new ≡ indices.now }
        ensures follows { L.follows loads.old loads.new }
        ensures sizes { self.new.sizes ≡ self.old.sizes }
        ensures over { IsPastCollects self.new.stage }
    {
        while let Some(position) = self.valuing() {
            let word = value_word(last[position]);
            let value = loads.load(word)?;
            self.after_value(values, indices, position, value);
        }
        Ok(())
    }

    // Makes the loads that are left, to the end: those of another record's view, if these are due.
    #[inline(always)]
    fn load_view<L: Loads>(
        &mut self,
        last: &mut [u64],
        changed: &mut [bool],
        values: &mut [u64],
        indices: &[u32],
        loads: &mut L,
    ) -> Result<(), L::Break>
        requires goes { L.goes loads.old }
        requires together { ViewGoesTogether indices.now (self.old, buffers last.old changed.old values.old) }
        requires scan { L.scan loads.old ≡ (self.old, buffers last.old changed.old values.old) }
        requires positions { L.positions loads.old ≡ indices.now }
        requires over { IsPastCollects self.old.stage }
        ensures goes { L.goes loads.new }
        ensures scan { L.scan loads.new ≡ (self.new, buffers last.new changed.new values.new) }
        ensures follows { L.follows loads.old loads.new }
        ensures done { OnOk result (self.new.stage ≡ Done) }
        ensures rows { AreRowsFor self.old.sizes (buffers last.new changed.new values.new) }
    {
        while let Some(word) = self.due_word(last, indices) {
            let answer = loads.load(word)?;
            self.after_answer(last, changed, values, indices, answer);
        }
        Ok(())
    }

    // The position whose component word is due in the first collect. `None` when that collect is over.
    #[inline(always)]
    fn collecting_first(&self) -> Option<usize>
        ensures due { IfSome result (λ k. self.now.stage ≡ Collect k) }
        ensures first { IfSome result (λ _. self.now.collects ≡ 1) }
        ensures over { IfNone result ((k : ℕ) → self.now.stage ≡ Collect k → self.now.collects ≢ 1) }
    {
        if self.collects != 1 {
            return None;
        }
        self.collecting()
    }

    // The position whose component word is due. `None` when the collects are over.
    #[inline(always)]
    fn collecting(&self) -> Option<usize>
        ensures due { IfSome result (λ k. self.now.stage ≡ Collect k) }
        ensures over { IfNone result (IsPastCollects self.now.stage) }
    {
        match self.stage {
            Stage::Collect { position } => Some(position),
            _ => None,
        }
    }

    // The position whose record's value is due. `None` when no value is.
    #[inline(always)]
    fn valuing(&self) -> Option<usize>
        ensures due { IfSome result (λ k. self.now.stage ≡ Value k) }
        ensures sizes { IsLayout self.now.sizes }
    {
        match self.stage {
            Stage::Value { position } => Some(position),
            _ => None,
        }
    }
}
