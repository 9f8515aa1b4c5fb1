//! The state machine of one port.

ghost use Rattle.std.specs.Prelude.{◌≡◌, ◌≢◌, ◌<◌, ◌≤◌, ◌+◌, ◌-◌, ◌==◌, ◌↔◌, ◌∷◌, map, length, slice_index, nat_lt, if◌then◌else◌, IsTrue, IfOk, OnOk, IfErr, MatchOption, None, true};
ghost use Rattle.std.specs.List.{flat_map, list_all};
ghost use Rattle.std.specs.Vec.{vec_capacity};
ghost use Rattle.partial_words.specs.Layout.{most_ports, no_spare};
ghost use Rattle.partial_words.specs.Record.{pair_words, pairs_size, plain_record_size};
ghost use Rattle.partial_machine.specs.declared.stage.Stage.TheVariants.{Idle, ReadBegun, UpdateBegun, GettingSet, Viewing, ClaimingRecord, StoringRecord, Exchanging, ScanBegun, StoringAnnouncement, Joining, Scanning, Leaving, Finished};
ghost use Rattle.partial_machine.specs.declared.stage.Reply.TheVariants as reply;
ghost use Rattle.partial_machine.specs.Machine.{overtaken_reply, CoreState};
ghost use Rattle.partial_machine.specs.Possible.{IsPossibleAt};

mod lines;
mod plain;

use crate::stage::{Change, Reply, Stage};
use partial_active::{Found, GetSet, Join, Leave};
use partial_embedded::{Embedded, Rows};
use partial_model::{Answer, Call, Refused, Sequence};
use partial_words::{
    Block, Sizes, Step, announcement_block_word, announcement_size, full_record_size, own_view,
    pairs_word, plain_record_size, prev_word, value_word, view_word,
};
use std::alloc::{AllocError, Global};
use std::marker::Model;

/// The state machine of one port. A call is begun, its steps are made and answered one by one, and
/// its reply is taken. The marks of spent regions stay. All memory is allocated when the machine is
/// made.
#[derive(Debug, Drop)]
pub struct Core {
    sizes: Sizes,
    port: u32,
    pool_spent: bool,
    slots_spent: bool,
    ahead: u32,
    spare: Block,
    asked: Vec<u32>,
    join: Join,
    leave: Leave,
    get_set: GetSet,
    found: Found,
    embedded: Embedded,
    rows: Rows,
    stage: Stage,
}

impl Model for Core {
    ghost use Rattle.std.specs.Vec.{vec_capacity};
    ghost use Rattle.partial_machine.specs.Machine.{CoreState};
    ghost use Rattle.partial_machine.specs.Sound.{IsMachine};

    ghost Value = { CoreState };

    ghost view = { λ c. record {
      sizes = c.sizes;
      port = c.port;
      pool_spent = c.pool_spent;
      slots_spent = c.slots_spent;
      ahead = c.ahead;
      spare = c.spare;
      asked = c.asked.items;
      join = c.join;
      leave = c.leave;
      get_set = c.get_set;
      found = c.found;
      embedded = c.embedded;
      rows = c.rows;
      stage = c.stage;
    } };

    ghost invariant = { λ c. IsMachine (record {
      sizes = c.sizes;
      port = c.port;
      pool_spent = c.pool_spent;
      slots_spent = c.slots_spent;
      ahead = c.ahead;
      spare = c.spare;
      asked = c.asked.items;
      join = c.join;
      leave = c.leave;
      get_set = c.get_set;
      found = c.found;
      embedded = c.embedded;
      rows = c.rows;
      stage = c.stage;
    }) (vec_capacity c.asked) };
}

impl Core {
    ghost use Rattle.partial_machine.specs.Machine.{fresh, lists_spent, at_stage, step_of, advance, advance_at, reply_of, scanned_values, record_size, has_spare, claim_size, record_step, with_spare, record_words, view_at, pool_refused};
    ghost use Rattle.partial_machine.specs.Calls.{begin_scan, core_read_refusal, core_update_refusal, core_scan_refusal, refusal_of, begun_of, answer_for, IsServed};
    ghost use Rattle.partial_machine.specs.Possible.{IsPossible, IsPossibleAt};
    ghost use Rattle.partial_machine.specs.Sound.{IsInPool};
    ghost use Rattle.partial_machine.specs.Bounds.{steps_left};

    /// Makes the machine of a port that has made no call. Fails only when memory is refused.
    pub fn new(alloc: Global, sizes: Sizes, port: u32) -> Result<Core, AllocError>
        requires { port < most_ports }
        ensures { IfOk result (λ core. core ≡ fresh sizes port) }
    {
        let room = sizes.m() as usize;
        Ok(Core {
            sizes,
            port,
            pool_spent: false,
            slots_spent: false,
            ahead: 0,
            spare: no_spare(sizes),
            asked: Vec::with_capacity(alloc, room)?,
            join: Join::new(sizes, 0),
            leave: Leave::new(sizes, 0),
            get_set: GetSet::new(sizes, false),
            found: Found::new(alloc, sizes)?,
            embedded: Embedded::new(sizes, false),
            rows: Rows::new(alloc, sizes)?,
            stage: Stage::Idle,
        })
    }

    /// Returns whether no call is begun.
    pub fn idle(&self) -> bool
        ensures { IsTrue result ↔ (self.now.stage ≡ Idle) }
    {
        matches!(self.stage, Stage::Idle)
    }

    /// Returns whether a pool claim of this port went past the end of the pool.
    pub fn pool_spent(&self) -> bool
        ensures { result ≡ self.now.pool_spent }
    {
        self.pool_spent
    }

    /// Returns whether a slot claim of this port went past the last slot.
    pub fn slots_spent(&self) -> bool
        ensures { result ≡ self.now.slots_spent }
    {
        self.slots_spent
    }

    /// Returns whether a claim of list words by this port went past their end. No call is refused
    /// for that.
    pub fn lists_spent(&self) -> bool
        ensures { result ≡ lists_spent self.now }
    {
        self.get_set.lists_spent()
    }

    /// Begins an update of component `component` to `value`. It is refused if the index is not
    /// below the number of components, then if the port is marked for the pool. A refusal leaves
    /// the machine unchanged.
    pub fn begin_update(&mut self, component: u32, value: u64) -> Result<(), Refused>
        requires { self.old.stage ≡ Idle }
        ensures ok { OnOk result ((core_update_refusal self.old component ≡ None) ×
            (self.new ≡ at_stage self.old (UpdateBegun
            (record { component = component; expected = None; value = value })))) }
        ensures err { IfErr result (λ cause. (core_update_refusal self.old component ≡ Some cause) ×
            (self.new ≡ self.old)) }
    {
        self.begin_change(Change {
            component,
            expected: None,
            value,
        })
    }

    /// Begins an update of component `component` to `value` that is applied only if the component
    /// has the stamp `expected`. It is refused for the same causes as [`Core::begin_update`].
    pub fn begin_update_if(
        &mut self,
        component: u32,
        expected: u64,
        value: u64,
    ) -> Result<(), Refused>
        requires { self.old.stage ≡ Idle }
        ensures ok { OnOk result ((core_update_refusal self.old component ≡ None) ×
            (self.new ≡ at_stage self.old (UpdateBegun
            (record { component = component; expected = Some expected; value = value })))) }
        ensures err { IfErr result (λ cause. (core_update_refusal self.old component ≡ Some cause) ×
            (self.new ≡ self.old)) }
    {
        self.begin_change(Change {
            component,
            expected: Some(expected),
            value,
        })
    }

    fn begin_change(&mut self, change: Change) -> Result<(), Refused>
        requires { self.old.stage ≡ Idle }
        ensures ok { OnOk result ((core_update_refusal self.old change.component ≡ None) ×
            (self.new ≡ at_stage self.old (UpdateBegun change))) }
        ensures err { IfErr result (λ cause. (core_update_refusal self.old change.component ≡ Some cause) ×
            (self.new ≡ self.old)) }
    {
        self.may_update(change.component)?;
        self.stage = Stage::UpdateBegun { change };
        Ok(())
    }

    /// Begins a read of component `component`. It is refused only if the index is not below the
    /// number of components. A refusal leaves the machine unchanged.
    pub fn begin_read(&mut self, component: u32) -> Result<(), Refused>
        requires { self.old.stage ≡ Idle }
        ensures ok { OnOk result ((core_read_refusal self.old component ≡ None) ×
            (self.new ≡ at_stage self.old (ReadBegun component))) }
        ensures err { IfErr result (λ cause. (core_read_refusal self.old component ≡ Some cause) ×
            (self.new ≡ self.old)) }
    {
        if component >= self.sizes.m() {
            return Err(Refused::Component);
        }
        self.stage = Stage::ReadBegun { component };
        Ok(())
    }

    /// Begins a scan of these components, in this order and with repeats. It is refused if an index
    /// is not below the number of components. If there are any components, it is then refused if
    /// the port is marked for the pool, then if it is marked for the slots. A refusal leaves the
    /// machine unchanged. A scan of no component is finished at once.
    pub fn begin_scan(&mut self, components: &[u32]) -> Result<(), Refused>
        requires idle { self.old.stage ≡ Idle }
        requires few { length components.now ≤ self.old.sizes.m }
        ensures ok { OnOk result ((core_scan_refusal self.old components.now ≡ None) ×
            (self.new ≡ begin_scan self.old components.now)) }
        ensures err { IfErr result (λ cause. (core_scan_refusal self.old components.now ≡ Some cause) ×
            (self.new ≡ self.old)) }
    {
        self.may_scan(components)?;
        set_asked(&mut self.asked, components);
        self.stage = if components.is_empty() {
            Stage::Finished {
                reply: Reply::Scanned {
                    collects: 0,
                    borrowed: None,
                },
            }
        } else {
            Stage::ScanBegun
        };
        Ok(())
    }

    /// Begins a call with the method of its kind.
    pub fn begin(&mut self, call: &Call) -> Result<(), Refused>
        requires idle { self.old.stage ≡ Idle }
        requires served { IsServed self.old.sizes.m call.now }
        ensures ok { OnOk result ((refusal_of self.old call.now ≡ None) × (self.new ≡ begun_of self.old call.now)) }
        ensures err { IfErr result (λ cause. (refusal_of self.old call.now ≡ Some cause) × (self.new ≡ self.old)) }
    {
        match call {
            Call::Update { component, value } => self.begin_update(*component, *value),
            Call::Scan { components } => self.begin_scan(components.as_slice()),
            Call::Read { component } => self.begin_read(*component),
            Call::UpdateIf {
                component,
                expected,
                value,
            } => self.begin_update_if(*component, *expected, *value),
        }
    }

    /// Returns the step that is due, or None if no call is begun or the call is finished.
    #[inline(always)]
    pub fn step(&self) -> Option<Step>
        ensures { result ≡ step_of self.now }
    {
        let sizes = &self.sizes;
        match self.stage {
            Stage::Idle => None,
            Stage::ReadBegun { component } => Some(Step::Load(sizes.component_word(component))),
            Stage::LoadingValue { stamp } => Some(Step::Load(value_word(stamp) as u32)),
            Stage::UpdateBegun { change } => {
                Some(Step::Load(sizes.component_word(change.component)))
            }
            Stage::GettingSet { .. } => self.get_set.step(),
            Stage::Viewing { .. } => self.embedded.step(&self.rows, self.found.indices()),
            Stage::ClaimingRecord { old, .. } => Some(self.record_step(old)),
            Stage::StoringRecord { change, old, at, k } => Some(Step::Store(
                (at + k) as u32,
                self.record_word(change, old, at, k),
            )),
            Stage::Exchanging { change, old, at } => {
                Some(Step::Exchange(sizes.component_word(change.component), old, at))
            }
            Stage::ScanBegun => Some(Step::Add(
                sizes.pool_counter(),
                announcement_size(self.asked.len() as u64),
            )),
            Stage::StoringAnnouncement { at, k } => Some(Step::Store(
                (at + k) as u32,
                announcement_block_word(&self.asked, k as usize),
            )),
            Stage::Joining => self.join.step(),
            Stage::Scanning => self.embedded.step(&self.rows, &self.asked),
            Stage::Leaving => self.leave.step(),
            Stage::Finished { .. } => None,
        }
    }

    /// Returns the number of words in the record of an update.
    #[inline(always)]
    pub fn record_size(&self) -> u64
        ensures value { result ≡ record_size self.now }
        ensures least { plain_record_size ≤ result }
    {
        let pairs = self.found.indices().len() as u64;
        match self.embedded.borrowed() {
            Some(_) => plain_record_size(),
            None if pairs == 0 => plain_record_size(),
            None => full_record_size(pairs),
        }
    }

    // Returns whether the spare words have room for the record of an update.
    #[inline(always)]
    fn has_spare(&self) -> bool
        ensures { result ≡ has_spare self.now }
    {
        self.record_size() <= self.spare.size
    }

    // Returns the number of words that an update claims for its record: its own, and those ahead.
    #[inline(always)]
    fn claim_size(&self) -> u64
        ensures { result ≡ claim_size self.now }
    {
        self.record_size() + u64::from(self.ahead)
    }

    // The step by which an update begins its record: the first store in its spare words, or a claim.
    #[inline(always)]
    fn record_step(&self, old: u64) -> Step
        ensures { result ≡ record_step self.now old }
    {
        if self.has_spare() {
            Step::Store(self.spare.at as u32, old)
        } else {
            Step::Add(self.sizes.pool_counter(), self.claim_size())
        }
    }

    /// Returns word `k` of the record that an update writes at `at`. `old` is the record that it
    /// replaces.
    #[inline(always)]
    pub fn record_word(&self, change: Change, old: u64, at: u64, k: u64) -> u64
        requires place { IsInPool self.now.sizes at (record_size self.now) }
        requires within { k < record_size self.now }
        ensures { result ≡ slice_index (record_words self.now change old at) k }
    {
        if k == prev_word(0) {
            old
        } else if k == value_word(0) {
            change.value
        } else if k == view_word(0) {
            self.view_at(at)
        } else if k == own_view(0) {
            self.found.indices().len() as u64
        } else {
            self.pair_word(k - pairs_word(own_view(0)))
        }
    }

    // The reference of the view of a record at `at`. A borrowed view is shared and not copied.
    #[inline(always)]
    fn view_at(&self, at: u64) -> u64
        requires { IsInPool self.now.sizes at (record_size self.now) }
        ensures { result ≡ view_at self.now at }
    {
        match self.embedded.borrowed() {
            Some(_) => self.embedded.view(),
            None if self.found.indices().is_empty() => 0,
            None => own_view(at),
        }
    }

    // Word k of the pairs of an update that borrows no view, in their order.
    #[inline(always)]
    fn pair_word(&self, k: u64) -> u64
        requires { k < pairs_size (length self.now.found.indices) }
        ensures { result ≡ slice_index (flat_map pair_words
            (map (λ j. (j, slice_index self.now.rows.values j)) self.now.found.indices)) k }
    {
        let index = self.found.indices()[(k / 2) as usize];
        if k % 2 == 0 {
            u64::from(index)
        } else {
            self.rows.value(index)
        }
    }

    /// Takes the answer to the step that is due.
    #[inline(always)]
    pub fn answer(&mut self, answer: u64)
        requires { IsPossible self.old answer }
        ensures state { self.new ≡ advance self.old answer }
        ensures falls { steps_left self.new < steps_left self.old }
    {
        match self.stage {
            Stage::ReadBegun { .. } => self.stage = Stage::LoadingValue { stamp: answer },
            Stage::LoadingValue { stamp } => {
                self.stage = Stage::Finished {
                    reply: Reply::Read {
                        value: answer,
                        stamp,
                    },
                };
            }
            Stage::UpdateBegun { change } => self.after_component(change, answer),
            Stage::GettingSet { change, old } => self.after_set(change, old, answer),
            Stage::Viewing { change, old } => self.after_view(change, old, answer),
            Stage::ClaimingRecord { change, old } => self.after_record_begin(change, old, answer),
            Stage::StoringRecord { change, old, at, k } => self.after_record_store(
                change, old, at, k,
            ),
            Stage::Exchanging { change, old, at } => {
                self.stage = Stage::Finished {
                    reply: exchanged(change, old, at, answer),
                };
            }
            Stage::ScanBegun => self.after_announcement_claim(answer),
            Stage::StoringAnnouncement { at, k } => self.after_announcement_store(at, k),
            Stage::Joining => self.after_join(answer),
            Stage::Scanning => self.after_collect(answer),
            Stage::Leaving => self.after_leave(answer),
            Stage::Idle | Stage::Finished { .. } => unreachable!(),
        }
    }

    // An update has loaded its component word. It goes on if the word is the stamp that it expects.
    #[inline(always)]
    fn after_component(&mut self, change: Change, x: u64)
        requires stage { self.old.stage ≡ UpdateBegun change }
        requires possible { IsPossibleAt self.old (UpdateBegun change) x }
        ensures { self.new ≡ advance_at self.old (UpdateBegun change) x }
    {
        if change.expected.is_some_and(|expected| expected != x) {
            self.stage = Stage::Finished {
                reply: Reply::Changed { by: x },
            };
        } else {
            self.get_set = GetSet::new(self.sizes, self.get_set.lists_spent());
            self.stage = Stage::GettingSet { change, old: x };
        }
    }

    // The getSet of an update takes its answer. When it is finished, an embedded scan of what it
    // found begins, if it found anything.
    #[inline(always)]
    fn after_set(&mut self, change: Change, old: u64, x: u64)
        requires stage { self.old.stage ≡ GettingSet change old }
        requires possible { IsPossibleAt self.old (GettingSet change old) x }
        ensures { self.new ≡ advance_at self.old (GettingSet change old) x }
    {
        self.get_set.answer(&mut self.found, x);
        if self.get_set.step().is_none() {
            self.embedded = Embedded::new(self.sizes, true);
            self.stage = behind_set(&self.found, change, old);
        }
    }

    // The embedded scan of an update takes its answer.
    #[inline(always)]
    fn after_view(&mut self, change: Change, old: u64, x: u64)
        requires stage { self.old.stage ≡ Viewing change old }
        requires possible { IsPossibleAt self.old (Viewing change old) x }
        ensures { self.new ≡ advance_at self.old (Viewing change old) x }
    {
        self.embedded
            .answer(&mut self.rows, self.found.indices(), x);
        if self
            .embedded
            .step(&self.rows, self.found.indices())
            .is_none()
        {
            self.stage = Stage::ClaimingRecord { change, old };
        }
    }

    // An update has stored the first word of its record in its spare words, or has claimed words for it.
    #[inline(always)]
    fn after_record_begin(&mut self, change: Change, old: u64, x: u64)
        requires stage { self.old.stage ≡ ClaimingRecord change old }
        requires possible { IsPossibleAt self.old (ClaimingRecord change old) x }
        ensures { self.new ≡ advance_at self.old (ClaimingRecord change old) x }
    {
        if self.has_spare() {
            let at = self.take_spare();
            self.stage = Stage::StoringRecord {
                change,
                old,
                at,
                k: 1,
            };
        } else if x + self.claim_size() <= u64::from(self.sizes.pool_end()) {
            self.keep_claim(x);
            self.stage = Stage::StoringRecord {
                change,
                old,
                at: x,
                k: 0,
            };
        } else {
            self.refuse_for_pool();
        }
    }

    // Takes the words of the record from the spare words, and returns the first of them.
    #[inline(always)]
    fn take_spare(&mut self) -> u64
        requires { has_spare self.old ≡ true }
        ensures at { result ≡ self.old.spare.at }
        ensures machine { self.new ≡ with_spare self.old (self.old.spare.at + record_size self.old)
            (self.old.spare.size - record_size self.old) }
    {
        let Block { at, size } = self.spare;
        let record = self.record_size();
        self.spare = Block {
            at: at + record,
            size: size - record,
        };
        at
    }

    // Keeps the words after the record of those that were claimed at `at`, in place of the spare words.
    #[inline(always)]
    fn keep_claim(&mut self, at: u64)
        requires { IsInPool self.old.sizes at (claim_size self.old) }
        ensures { self.new ≡ with_spare self.old (at + record_size self.old) self.old.ahead }
    {
        self.spare = Block {
            at: at + self.record_size(),
            size: u64::from(self.ahead),
        };
    }

    // An update has stored word k of its record.
    #[inline(always)]
    fn after_record_store(&mut self, change: Change, old: u64, at: u64, k: u64)
        requires stage { self.old.stage ≡ StoringRecord change old at k }
        ensures { self.new ≡ advance_at self.old (StoringRecord change old at k) 0 }
    {
        let size = self.record_size();
        self.stage = if k + 1 == size {
            Stage::Exchanging { change, old, at }
        } else {
            Stage::StoringRecord {
                change,
                old,
                at,
                k: k + 1,
            }
        };
    }

    // A scan has claimed the words of its announcement.
    #[inline(always)]
    fn after_announcement_claim(&mut self, at: u64)
        requires stage { self.old.stage ≡ ScanBegun }
        requires possible { IsPossibleAt self.old ScanBegun at }
        ensures { self.new ≡ advance_at self.old ScanBegun at }
    {
        let size = announcement_size(self.asked.len() as u64);
        if at + size <= u64::from(self.sizes.pool_end()) {
            self.stage = Stage::StoringAnnouncement { at, k: 0 };
        } else {
            self.refuse_for_pool();
        }
    }

    // A claim went past the end of the pool.
    fn refuse_for_pool(&mut self)
        ensures { self.new ≡ pool_refused self.old }
    {
        self.pool_spent = true;
        self.stage = Stage::Finished {
            reply: Reply::Refused(Refused::PoolSpent),
        };
    }

    // A scan has stored word k of its announcement. When all are stored, the join begins.
    #[inline(always)]
    fn after_announcement_store(&mut self, at: u64, k: u64)
        requires stage { self.old.stage ≡ StoringAnnouncement at k }
        ensures { self.new ≡ advance_at self.old (StoringAnnouncement at k) 0 }
    {
        if k == self.asked.len() as u64 {
            self.join = Join::new(self.sizes, at);
            self.stage = Stage::Joining;
        } else {
            self.stage = Stage::StoringAnnouncement { at, k: k + 1 };
        }
    }

    // The join of a scan takes its answer. When the announcement is in a slot, the embedded scan
    // begins.
    #[inline(always)]
    fn after_join(&mut self, x: u64)
        requires stage { self.old.stage ≡ Joining }
        ensures { self.new ≡ advance_at self.old Joining x }
    {
        self.join.answer(x);
        if let Some(slot) = self.join.joined() {
            self.embedded = Embedded::new(self.sizes, false);
            self.leave = Leave::new(self.sizes, slot);
            self.stage = Stage::Scanning;
        } else if self.join.spent() {
            self.slots_spent = true;
            self.stage = Stage::Finished {
                reply: Reply::Refused(Refused::SlotsSpent),
            };
        }
    }

    // The embedded scan of a scan takes its answer. When it is finished, the scan leaves.
    #[inline(always)]
    fn after_collect(&mut self, x: u64)
        requires stage { self.old.stage ≡ Scanning }
        requires possible { IsPossibleAt self.old Scanning x }
        ensures { self.new ≡ advance_at self.old Scanning x }
    {
        self.embedded.answer(&mut self.rows, &self.asked, x);
        if self.embedded.step(&self.rows, &self.asked).is_none() {
            self.stage = Stage::Leaving;
        }
    }

    // The scan has left.
    #[inline(always)]
    fn after_leave(&mut self, x: u64)
        requires stage { self.old.stage ≡ Leaving }
        ensures { self.new ≡ advance_at self.old Leaving x }
    {
        self.leave.answer(x);
        self.stage = Stage::Finished {
            reply: Reply::Scanned {
                collects: self.embedded.collects(),
                borrowed: self.embedded.borrowed(),
            },
        };
    }

    /// Takes the reply of a finished call, and makes the machine idle again. Returns None, and
    /// changes nothing, if no call is begun or a step is due.
    #[inline(always)]
    pub fn take(&mut self) -> Option<Reply>
        ensures reply { result ≡ reply_of self.old }
        ensures state { MatchOption result (self.new ≡ self.old) (λ _. self.new ≡ at_stage self.old Idle) }
    {
        match self.stage {
            Stage::Finished { reply } => {
                self.stage = Stage::Idle;
                Some(reply)
            }
            _ => None,
        }
    }

    /// Returns value `k`, counted from 0, of the last scan that was answered, in the order of its
    /// positions. The value stays until the next call is begun.
    #[inline(always)]
    pub fn scanned(&self, k: usize) -> u64
        requires { k < length self.now.asked }
        ensures { result ≡ slice_index (scanned_values self.now) k }
    {
        self.rows.value(self.asked[k])
    }

    // The values of the last scan that was answered.
    fn scanned_values(&self, alloc: Global) -> Result<Sequence<u64>, AllocError>
        ensures { IfOk result (λ values. values ≡ scanned_values self.now) }
    {
        let positions = self.asked.len();
        let mut values = Vec::with_capacity(alloc, positions)?;
        for k in 0..positions {
            values.push(self.scanned(k))?;
        }
        Ok(Sequence::from(values))
    }

    /// Returns the answer that a reply of this machine means. The machine holds the values of
    /// a scan until the next call is begun. Fails only when memory is refused.
    pub fn answer_for(&self, alloc: Global, reply: Reply) -> Result<Answer, AllocError>
        ensures { IfOk result (λ answer. answer ≡ answer_for self.now reply) }
    {
        Ok(match reply {
            Reply::Applied { stamp } => Answer::Applied { stamp },
            Reply::Lost { by } => Answer::Lost { by },
            Reply::Scanned { collects, borrowed } => Answer::Scanned {
                values: self.scanned_values(alloc)?,
                collects,
                borrowed,
            },
            Reply::Read { value, stamp } => Answer::Read { value, stamp },
            Reply::Refused(cause) => Answer::Refused { cause },
            Reply::Changed { by } => Answer::Changed { by },
        })
    }
}

// No words that a port has claimed and keeps.
fn no_spare(sizes: Sizes) -> Block
    ensures { result ≡ no_spare sizes }
{
    Block {
        at: u64::from(sizes.first_free()),
        size: 0,
    }
}

// Whether each index is below the number. It compares all of them, so that several may be compared
// at once.
fn all_below(indices: &[u32], m: u32) -> bool
    ensures { result ≡ list_all (λ i. nat_lt i m) indices.now }
{
    let mut all = true;
    for index in indices {
        all = all & (*index < m);
    }
    all
}

// Sets the positions of a scan. There is room for them.
fn set_asked(asked: &mut Vec<u32>, components: &[u32])
    requires { length components.now ≤ vec_capacity asked.old }
    ensures items { asked.new.items ≡ components.now }
    ensures room { vec_capacity asked.old ≤ vec_capacity asked.new }
{
    asked.clear();
    let Ok(()) = asked.extend_from_slice(components) else {
        unreachable!()
    };
}

// The stage after the getSet of an update: the embedded scan of what it found, if it found
// anything.
#[inline(always)]
fn behind_set(found: &Found, change: Change, old: u64) -> Stage
    ensures { result ≡ (if length found.now.indices == 0 then ClaimingRecord change old else Viewing change old) }
{
    if found.indices().is_empty() {
        Stage::ClaimingRecord { change, old }
    } else {
        Stage::Viewing { change, old }
    }
}

/// Returns the reply to an update whose exchange found the record `found`.
#[inline(always)]
pub fn exchanged(change: Change, old: u64, at: u64, found: u64) -> Reply
    ensures { result ≡ (if found == old then reply.Applied at else overtaken_reply change found) }
{
    if found == old {
        return Reply::Applied { stamp: at };
    }
    match change.expected {
        Some(_) => Reply::Changed { by: found },
        None => Reply::Lost { by: found },
    }
}
