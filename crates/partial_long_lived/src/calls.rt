//! The calls of a port.

ghost use Rattle.std.specs.Prelude.{◌≡◌, ◌+◌, ◌*◌, ◌≤◌, true, false, length, nat_lt, is_some, IfOk, IfErr};
ghost use Rattle.std.specs.List.{list_all};
ghost use Rattle.partial_model.specs.declared.call.Call.TheVariants as call;
ghost use Rattle.partial_long_lived.specs.Bounds.{most_of_scans, round_if_steps, round_steps};
ghost use Rattle.partial_long_lived.specs.Calls.{Differ, IsRefused, Meets, MeetByTheRule, Reads, Scans, ScansStamped, StillStand, Updates, UpdatesIf};
ghost use Rattle.partial_long_lived.specs.Ports.{IsOf};

use crate::answers::{Updated, UpdatedIf};
use crate::double_collect::scan_at_once;
use crate::error::Refused;
use crate::long_lived::LongLived;
use crate::meet::{meet, take_out};
use crate::port::Port;
use crate::read::{read_here, read_late};
use crate::scan::{public_borrowed, scan_further};
use crate::stamped::scan_stamped;
use crate::unchanged::unchanged;
use crate::update::update;
use crate::update_if::{Asked, update_if};
use partial_lines::Scanned;

impl LongLived {
    /// Sets component `component` to `value`.
    ///
    /// An applied update is the last entry of the history that the port has observed afterwards. A lost one was
    /// overwritten during the call, by an entry that the port had not observed before. A port that is spent in its epoch
    /// changes the epoch first, and one whose component is sealed changes the epoch and tries again.
    ///
    /// # Errors
    /// [`Refused::Component`] exactly when the index isn't below the number of components: no step was made.
    /// [`Refused::Overtaken`] when the port has entered a later epoch 16 times during the call;
    /// [`Refused::EpochsSpent`] when the epoch has to be changed and is the last one. Nothing was applied or noted.
    pub fn update(&self, me: &mut Port, component: u32, value: u64) -> Result<Updated, Refused>
        requires { IsOf self.now me.old }
        ensures same { IsOf self.now me.new }
        ensures answered { IfOk result (λ r. Updates me.old component value r me.new) }
        ensures refused { IfErr result (λ cause. IsRefused me.old (call.Update component value) cause me.new) }
        ensures steps { me.new.steps ≤ me.old.steps + 16 * round_steps self.now.about }
    {
        if component >= self.shape.sizes.m() {
            return Err(Refused::Component);
        }
        let words = &self.table;
        let stand = &mut me.stand;
        let ended = update(words, stand, &mut me.core, component, value, &mut me.spent);
        match ended {
            Ok(exchanged) => Ok(Updated::of(me.stand.epoch, exchanged)),
            Err(cause) => Err(cause),
        }
    }

    /// Sets component `component` to `value` if it has the stamp `expected`, which a read or an update has returned. No
    /// stamp ever comes back, so a component that has its stamp again has had it ever since.
    ///
    /// An applied update is the last entry of the history that the port has observed afterwards. One that finds another
    /// stamp says it, as it stood at a moment of the call. A port that is spent in its epoch changes the epoch when it
    /// finds the expected stamp, and one whose component is sealed changes the epoch and tries again.
    ///
    /// # Errors
    /// [`Refused::Component`] exactly when the index isn't below the number of components: no step was made.
    /// [`Refused::Overtaken`] when the port has entered a later epoch 16 times during the call;
    /// [`Refused::EpochsSpent`] when the epoch has to be changed and is the last one. Nothing was applied or noted.
    pub fn update_if(
        &self,
        me: &mut Port,
        component: u32,
        expected: u64,
        value: u64,
    ) -> Result<UpdatedIf, Refused>
        requires { IsOf self.now me.old }
        ensures same { IsOf self.now me.new }
        ensures answered { IfOk result (λ r. UpdatesIf me.old component expected value r me.new) }
        ensures refused { IfErr result (λ cause.
            IsRefused me.old (call.UpdateIf component expected value) cause me.new) }
        ensures steps { me.new.steps ≤ me.old.steps + 16 * round_if_steps self.now.about }
    {
        if component >= self.shape.sizes.m() {
            return Err(Refused::Component);
        }
        let asked = Asked {
            component,
            expected,
            value,
        };
        let words = &self.table;
        update_if(words, &mut me.stand, &mut me.core, asked, &mut me.spent)
    }

    /// Reads component `component`: its value and its stamp, as they stood at one moment of the call. No two updates
    /// have the same stamp, whatever their epochs.
    ///
    /// # Errors
    /// [`Refused::Component`] exactly when the index isn't below the number of components: no step was made.
    pub fn read(&self, me: &mut Port, component: u32) -> Result<(u64, u64), Refused>
        requires { IsOf self.now me.old }
        ensures same { IsOf self.now me.new }
        ensures answered { IfOk result (λ r. Reads me.old component r.0 r.1 me.new) }
        ensures refused { IfErr result (λ cause. IsRefused me.old (call.Read component) cause me.new) }
        ensures steps { me.new.steps ≤ me.old.steps + 8 }
    {
        if component >= self.shape.sizes.m() {
            return Err(Refused::Component);
        }
        let words = &self.table;
        if let Some((value, stamp)) = read_here(words, &mut me.stand, component) {
            return Ok((value, stamp));
        }
        let late = read_late(words, component, &mut me.stand, &mut me.core, &mut me.spent);
        Ok(late)
    }

    /// Scans these components, in this order and with repeats: `into` has their values as they stood together at one
    /// moment of the call. A scan of no position makes no step.
    ///
    /// It first tries a double collect, which stores nothing: two collects at most. When they differ, or the port stands
    /// in an epoch that has ended, the scan goes on. In a memory whose scans announce themselves (`announce` of its
    /// options) it is announced; a port that is spent in its epoch changes the epoch before. An announced scan makes at
    /// most as many collects as there are positions, and two more. In any other memory it enters the current epoch, makes
    /// double collects again, at most 64, and then changes the epoch: the values are those with which the next epoch
    /// begins, and count as two collects. `collects` counts those of the way that gave the values.
    ///
    /// # Errors
    /// [`Refused::Component`] exactly when an index isn't below the number of components: no step was made.
    /// [`Refused::EpochsSpent`] when the epoch has to be changed and is the last one: nothing is noted. `into` is
    /// unchanged.
    pub fn scan(&self, me: &mut Port, which: &[u32], into: &mut [u64]) -> Result<Scanned, Refused>
        requires own { IsOf self.now me.old }
        requires lengths { (length into.old ≡ length which.now) × (length which.now ≤ self.now.about.sizes.m) }
        ensures same { IsOf self.now me.new }
        ensures answered { IfOk result (λ s. Scans me.old which.now into.new s me.new) }
        ensures refused { IfErr result (λ cause. IsRefused me.old (call.Scan which.now) cause me.new) }
        ensures unchanged { IfErr result (λ _. into.new ≡ into.old) }
        ensures steps { me.new.steps ≤ me.old.steps + most_of_scans self.now.about (length which.now) }
    {
        if which.is_empty() {
            return Ok(Scanned {
                collects: 0,
                borrowed: None,
            });
        }
        if !all_below(which, self.shape.sizes.m()) {
            return Err(Refused::Component);
        }
        let words = &self.table;
        let stand = &mut me.stand;
        let kept = me.collected.as_mut_slice();
        let core = &mut me.core;
        let spent = &mut me.spent;
        if scan_at_once(words, stand, which, kept, into) {
            return Ok(Scanned {
                collects: 2,
                borrowed: None,
            });
        }
        let further = scan_further(words, stand, core, spent, which, kept, into);
        match further {
            Ok(Scanned { collects, borrowed }) => Ok(Scanned {
                collects,
                borrowed: public_borrowed(me.stand.epoch, borrowed),
            }),
            Err(cause) => Err(cause),
        }
    }

    /// Scans these components as [`scan`](LongLived::scan) does, and returns their stamps too, unless the scan took the
    /// view of an update, which has none. `into` has the values and `stamps` the stamps as they stood together at one
    /// moment of the call. Where `borrowed` names an update, `stamps` is unchanged.
    ///
    /// It makes the steps of `scan`, and after them one load for each component that no update of its epoch has set.
    ///
    /// # Errors
    /// As those of [`scan`](LongLived::scan). `into` and `stamps` are unchanged.
    pub fn scan_stamped(
        &self,
        me: &mut Port,
        which: &[u32],
        into: &mut [u64],
        stamps: &mut [u64],
    ) -> Result<Scanned, Refused>
        requires own { IsOf self.now me.old }
        requires few { length which.now ≤ self.now.about.sizes.m }
        requires lengths { (length into.old ≡ length which.now) × (length stamps.old ≡ length which.now) }
        ensures same { IsOf self.now me.new }
        ensures scanned { IfOk result (λ s. ScansStamped me.old which.now into.new stamps.new s me.new) }
        ensures helped { IfOk result (λ s. is_some s.borrowed ≡ true → stamps.new ≡ stamps.old) }
        ensures refused { IfErr result (λ cause. IsRefused me.old (call.Scan which.now) cause me.new) }
        ensures unchanged { IfErr result (λ _. (into.new ≡ into.old) × (stamps.new ≡ stamps.old)) }
        ensures steps { me.new.steps ≤ me.old.steps + (length which.now + most_of_scans self.now.about (length which.now)) }
    {
        if which.is_empty() {
            return Ok(Scanned {
                collects: 0,
                borrowed: None,
            });
        }
        if !all_below(which, self.shape.sizes.m()) {
            return Err(Refused::Component);
        }
        let words = &self.table;
        let stand = &mut me.stand;
        let kept = me.collected.as_mut_slice();
        let core = &mut me.core;
        let spent = &mut me.spent;
        let scanned = scan_stamped(words, stand, core, spent, which, kept, into, stamps);
        match scanned {
            Ok(Scanned { collects, borrowed }) => Ok(Scanned {
                collects,
                borrowed: public_borrowed(me.stand.epoch, borrowed),
            }),
            Err(cause) => Err(cause),
        }
    }

    /// Says whether each of these components still has this stamp, as [`read`](LongLived::read) gives it. With `true`
    /// those whose stamps the port has observed stood together at one moment of the call, and so did the values that it
    /// read with them. `false` says that a component isn't there, or had another stamp at a moment of the call. The call
    /// notes nothing. It looks, perhaps enters the current epoch, and makes one or two loads for each component.
    pub fn unchanged(&self, me: &mut Port, which: &[u32], stamps: &[u64]) -> bool
        requires own { IsOf self.now me.old }
        requires lengths { length stamps.now ≡ length which.now }
        ensures same { IsOf self.now me.new }
        ensures still { result ≡ true → StillStand me.old me.new which.now stamps.now }
        ensures differ { result ≡ false → Differ me.old me.new which.now stamps.now }
        ensures steps { me.new.steps ≤ me.old.steps + (4 + 2 * length which.now) }
    {
        let epoch = me.stand.epoch;
        let answer = unchanged(&self.table, &mut me.stand, which, stamps);
        if me.stand.epoch != epoch {
            me.core.clear_marks();
            me.spent = false;
        }
        answer
    }

    /// Has two ports meet: afterwards each has observed all that either had observed before, so their later calls take
    /// effect after that. It makes at most 12 atomic steps, those that split and join seats among them, and notes
    /// nothing.
    pub fn meet(&self, first: &mut Port, second: &mut Port)
        requires { IsOf self.now first.old × IsOf self.now second.old }
        ensures same { IsOf self.now first.new × IsOf self.now second.new }
        ensures met { Meets first.old second.old first.new second.new }
        ensures lawful { MeetByTheRule first.new second.new }
        ensures steps { first.new.steps + second.new.steps ≤ first.old.steps + second.old.steps + 12 }
    {
        let words = &self.table;
        let one = take_out(words, &mut first.stand);
        let other = take_out(words, &mut second.stand);
        let first_epoch = one.epoch;
        let second_epoch = other.epoch;
        let (one, other) = meet(words, one, other);
        if one.epoch != first_epoch {
            first.core.clear_marks();
            first.spent = false;
        }
        if other.epoch != second_epoch {
            second.core.clear_marks();
            second.spent = false;
        }
        first.stand = one;
        second.stand = other;
    }
}

// Checks whether each index is below the number of components. It takes four at once, and just four with no loop around: a
// compiler unrolls the loop over them.
fn all_below(indices: &[u32], components: u32) -> bool
    ensures { result ≡ list_all (λ i. nat_lt i components) indices.now }
{
    if let Ok(four) = <[u32; 4]>::try_from(indices) {
        return are_below(&four, components);
    }
    let mut rest = indices;
    while let Some((four, others)) = rest.split_first_chunk::<4>() {
        if !are_below(four, components) {
            return false;
        }
        rest = others;
    }
    are_below(rest, components)
}

// Checks whether each of these indices is below that number.
#[inline(always)]
fn are_below(indices: &[u32], components: u32) -> bool
    ensures { result ≡ list_all (λ i. nat_lt i components) indices.now }
{
    for index in indices {
        if *index >= components {
            return false;
        }
    }
    true
}
