//! The parts of a port's machine, one by one. A caller that makes the steps of a call in straight
//! lines holds some of the state itself while they are made: the stage, the positions of a scan
//! with its slot, and the machines of a getSet and of an embedded scan. The port's machine stays
//! idle. It keeps the marks, what was found and the rows.

ghost use Rattle.std.specs.Prelude.{◌≡◌, ◌≤◌, ◌==◌, length, map, slice_index, Some, None, true, false, IfOk, OnOk, IfErr};
ghost use Rattle.partial_words.specs.Layout.{most_ahead, no_spare};
ghost use Rattle.partial_active.specs.GetSet.{fresh_set as unmarked, set_step_due};
ghost use Rattle.partial_embedded.specs.Embedded.{ViewGoesTogether, fresh_view};
ghost use Rattle.partial_embedded.specs.declared.embedded.Stage.TheVariants.{Done};
ghost use Rattle.partial_machine.specs.declared.stage.Stage.TheVariants.{Idle};
ghost use Rattle.partial_machine.specs.Calls.{core_scan_refusal, core_update_refusal};
ghost use Rattle.partial_machine.specs.Lines.{set_begun, with_embedded, with_set};
ghost use Rattle.partial_machine.specs.Machine.{getting};
ghost use Rattle.partial_machine.specs.Sound.{AreComponentIndices, IsInPool};

use super::{Core, all_below, no_spare};
use partial_active::{GetSet, Steps};
use partial_embedded::{Embedded, Loads};
use partial_model::Refused;
use partial_words::{Block, Sizes};

impl Core {
    /// Returns the sizes of the memory.
    #[inline(always)]
    pub fn sizes(&self) -> Sizes
        ensures { result ≡ self.now.sizes }
    {
        self.sizes
    }

    /// Checks whether an update of component `index` may be made. It is refused for the same causes
    /// as [`Core::begin_update`].
    #[inline(always)]
    pub fn may_update(&self, index: u32) -> Result<(), Refused>
        ensures ok { OnOk result (core_update_refusal self.now index ≡ None) }
        ensures err { IfErr result (λ cause. core_update_refusal self.now index ≡ Some cause) }
    {
        if index >= self.sizes.m() {
            return Err(Refused::Component);
        }
        if self.pool_spent {
            return Err(Refused::PoolSpent);
        }
        Ok(())
    }

    /// Checks whether a scan of these components may be made. It is refused for the same causes as
    /// [`Core::begin_scan`].
    pub fn may_scan(&self, components: &[u32]) -> Result<(), Refused>
        ensures ok { OnOk result (core_scan_refusal self.now components.now ≡ None) }
        ensures err { IfErr result (λ cause. core_scan_refusal self.now components.now ≡ Some cause) }
    {
        if !all_below(components, self.sizes.m()) {
            return Err(Refused::Component);
        }
        if components.is_empty() {
            return Ok(());
        }
        if self.pool_spent {
            return Err(Refused::PoolSpent);
        }
        if self.slots_spent {
            return Err(Refused::SlotsSpent);
        }
        Ok(())
    }

    /// Makes a getSet to its end and returns it. The machine keeps what the getSet found. Each step
    /// is made through `steps`, which are at this getSet.
    ///
    /// # Errors
    /// [`Steps::Break`] when `steps` break it off: they are at the getSet after the last step that was made.
    #[inline(always)]
    pub fn make_set<S: Steps>(&mut self, steps: &mut S) -> Result<GetSet, S::Break>
        requires idle { self.old.stage ≡ Idle }
        requires goes { S.goes steps.old }
        requires set { S.set steps.old ≡ getting (set_begun self.old) }
        ensures goes { S.goes steps.new }
        ensures set { IfOk result (λ made. S.set steps.new ≡ (made, self.new.found)) }
        ensures follows { S.follows steps.old steps.new }
        ensures done { IfOk result (λ made. set_step_due made ≡ None) }
        ensures core { self.new ≡ record self.old { found = self.new.found } }
    {
        let begun = GetSet::new(self.sizes, self.get_set.lists_spent());
        begun.make(&mut self.found, steps)
    }

    /// Stores a getSet that [`Core::make_set`] returned.
    #[inline(always)]
    pub fn keep_set(&mut self, set: GetSet)
        requires { self.old.stage ≡ Idle }
        ensures { self.new ≡ with_set self.old set }
    {
        self.get_set = set;
    }

    /// Stores only the mark for the list words from such a getSet.
    #[inline(always)]
    pub fn keep_list_mark(&mut self, set: &GetSet)
        requires { self.old.stage ≡ Idle }
        ensures { self.new ≡ with_set self.old (record self.old.get_set { lists_spent = set.now.lists_spent }) }
    {
        self.get_set.keep_mark(set);
    }

    /// Returns whether the getSet has found no index.
    #[inline(always)]
    pub fn found_none(&self) -> bool
        ensures { result ≡ (length self.now.found.indices == 0) }
    {
        self.found.indices().is_empty()
    }

    /// Returns an embedded scan that has made no step. If it shares, it stops at the reference of a
    /// view that it borrows. The caller holds it while its steps are made, and returns it with
    /// [`Core::keep_scan`].
    #[inline(always)]
    pub fn begin_scanning(&self, shares: bool) -> Embedded
        ensures { result ≡ fresh_view self.now.sizes shares }
    {
        Embedded::new(self.sizes, shares)
    }

    /// Stores an embedded scan that the caller made, for the record of an update.
    #[inline(always)]
    pub fn keep_scan(&mut self, embedded: Embedded)
        requires { self.old.stage ≡ Idle }
        ensures { self.new ≡ with_embedded self.old embedded }
    {
        self.embedded = embedded;
    }

    /// Makes this embedded scan of these positions to its end, over the machine's rows, and returns
    /// it. Each load is made through `loads`, which are at this scan.
    ///
    /// # Errors
    /// [`Loads::Break`] when `loads` break it off: they are at the scan after the last load that was made.
    #[inline(always)]
    pub fn scan_positions<L: Loads>(
        &mut self,
        embedded: Embedded,
        positions: &[u32],
        loads: &mut L,
    ) -> Result<Embedded, L::Break>
        requires idle { self.old.stage ≡ Idle }
        requires sizes { embedded.sizes ≡ self.old.sizes }
        requires together { ViewGoesTogether positions.now (embedded, self.old.rows) }
        requires goes { L.goes loads.old }
        requires scan { L.scan loads.old ≡ (embedded, self.old.rows) }
        requires positions { L.positions loads.old ≡ positions.now }
        ensures goes { L.goes loads.new }
        ensures scan { IfOk result (λ made. L.scan loads.new ≡ (made, self.new.rows)) }
        ensures follows { L.follows loads.old loads.new }
        ensures done { IfOk result (λ made. made.stage ≡ Done) }
        ensures core { self.new ≡ record self.old { rows = self.new.rows } }
    {
        embedded.make(&mut self.rows, positions, loads)
    }

    /// Makes this embedded scan of the indices that the getSet found, in the same way as
    /// [`Core::scan_positions`].
    ///
    /// # Errors
    /// As those of [`Core::scan_positions`].
    #[inline(always)]
    pub fn scan_found<L: Loads>(
        &mut self,
        embedded: Embedded,
        loads: &mut L,
    ) -> Result<Embedded, L::Break>
        requires idle { self.old.stage ≡ Idle }
        requires sizes { embedded.sizes ≡ self.old.sizes }
        requires together { ViewGoesTogether self.old.found.indices (embedded, self.old.rows) }
        requires goes { L.goes loads.old }
        requires scan { L.scan loads.old ≡ (embedded, self.old.rows) }
        requires positions { L.positions loads.old ≡ self.old.found.indices }
        ensures goes { L.goes loads.new }
        ensures scan { IfOk result (λ made. L.scan loads.new ≡ (made, self.new.rows)) }
        ensures follows { L.follows loads.old loads.new }
        ensures done { IfOk result (λ made. made.stage ≡ Done) }
        ensures core { self.new ≡ record self.old { rows = self.new.rows } }
    {
        embedded.make(&mut self.rows, self.found.indices(), loads)
    }

    /// Copies the values of these components that the last embedded scan gave.
    #[inline(always)]
    pub fn copy_values(&self, components: &[u32], into: &mut [u64])
        requires lengths { length into.old ≡ length components.now }
        requires components { AreComponentIndices self.now.sizes components.now }
        ensures { into.new ≡ map (slice_index self.now.rows.values) components.now }
    {
        self.rows.copy_values(components, into);
    }

    /// The references that the last embedded scan loaded last, of each of its positions.
    #[inline(always)]
    pub fn last_loaded(&self) -> &[u64]
        ensures { result.now ≡ self.now.rows.last }
    {
        self.rows.last()
    }

    /// From now on an update claims this many words more than those of its record, and the port keeps them for later
    /// records.
    #[inline(always)]
    pub fn claim_ahead(&mut self, words: u32)
        requires idle { self.old.stage ≡ Idle }
        requires few { words ≤ most_ahead }
        ensures { self.new ≡ record self.old { ahead = words } }
    {
        self.ahead = words;
    }

    /// Returns how many words more than those of its record an update claims.
    #[inline(always)]
    pub fn ahead(&self) -> u32
        ensures value { result ≡ self.now.ahead }
        ensures few { result ≤ most_ahead }
    {
        let Core { ahead, .. } = self;
        *ahead
    }

    /// Returns the spare words of the port: those that it has claimed and keeps for later records.
    #[inline(always)]
    pub fn spare(&self) -> Block
        ensures value { result ≡ self.now.spare }
        ensures within { IsInPool self.now.sizes result.at result.size }
    {
        let Core { spare, .. } = self;
        *spare
    }

    /// Stores these words as the port's spare words, in place of those that it had.
    #[inline(always)]
    pub fn keep_spare(&mut self, spare: Block)
        requires idle { self.old.stage ≡ Idle }
        requires within { IsInPool self.old.sizes spare.at spare.size }
        ensures { self.new ≡ record self.old { spare = spare } }
    {
        self.spare = spare;
    }

    /// Marks the port for the slots.
    #[inline(always)]
    pub fn mark_slots(&mut self)
        requires { self.old.stage ≡ Idle }
        ensures { self.new ≡ record self.old { slots_spent = true } }
    {
        self.slots_spent = true;
    }

    /// Marks the port for the pool.
    #[inline(always)]
    pub fn mark_pool(&mut self)
        requires { self.old.stage ≡ Idle }
        ensures { self.new ≡ record self.old { pool_spent = true } }
    {
        self.pool_spent = true;
    }

    /// Takes all marks and spare words off the port. It has entered words where it has made no claim.
    pub fn clear_marks(&mut self)
        requires { self.old.stage ≡ Idle }
        ensures { self.new ≡ record self.old {
          pool_spent = false;
          slots_spent = false;
          spare = no_spare self.old.sizes;
          get_set = unmarked self.old.sizes false;
        } }
    {
        self.pool_spent = false;
        self.slots_spent = false;
        self.spare = no_spare(self.sizes);
        self.get_set = GetSet::new(self.sizes, false);
    }
}
