//! The memory, and the calls of its ports.

ghost use Rattle.std.specs.Prelude.{◌≡◌, ◌<◌, ◌≤◌, ◌⊎◌, [], ◌∷◌, length, Some, IfOk, IfErr};
ghost use Rattle.partial_model.specs.declared.call.Call.TheVariants as call;
ghost use Rattle.partial_words.specs.Layout.{pool_base};
ghost use Rattle.partial_words.specs.Chain.{AreOpeningWords};
ghost use Rattle.partial_memory.specs.declared.error.OpenError.TheVariants.{Ports};
ghost use Rattle.partial_memory.specs.Rule.{newcomers};
ghost use Rattle.partial_memory.specs.Ports.{IsOf, IsRefused, MayNotOpen, new_ports, refusal};
ghost use Rattle.partial_model.specs.declared.call.Answer.TheVariants as answer;
ghost use Rattle.partial_memory.specs.Calls.{Updates, UpdatesIf, Reads, Scans, Meets};
ghost use Rattle.partial_memory.specs.Lawfulness.{ClosesLawfully, MeetsLawfully};
ghost use Rattle.partial_memory.specs.Led.{IsLedToAnswer, IsLedWhereLate, ScansLed};
ghost use Rattle.partial_memory.specs.Noting.{noted_update, noted_update_if};
ghost use Rattle.partial_memory.specs.Closing.{Closes};
ghost use Rattle.partial_memory.specs.Reopening.{ContinuesAll, MayNotReopen, extended_values};
ghost use Rattle.std.specs.List.{AllByRecursion};

use crate::answers::{Updated, UpdatedIf};
use crate::closed::{Closed, closed_of};
use crate::error::{CloseError, OpenError};
use crate::port::{Port, take_seat};
use crate::read::read;
use crate::rule::{About, Deals, Gathers, Looks, PortSeat, Words};
use crate::scan::scan;
use crate::update::{Ending, update};
use partial_core::Core;
use partial_lines::Scanned;
use partial_model::{Opening, Refused, Sequence};
use partial_table::Table;
use partial_words::Sizes;
use std::alloc::{AllocError, Global};
use std::marker::Model;

/// A memory of components that many threads share. Its ports update, read and scan them. Every call is
/// wait-free, and none but `open`, `reopen` and `close` takes memory.
#[derive(Drop)]
pub struct Memory {
    sizes: Sizes,
    table: Words,
}

impl Model for Memory {
    ghost use Rattle.std.specs.Prelude.{◌≡◌};
    ghost use Rattle.partial_words.specs.Layout.{total};
    ghost use Rattle.partial_memory.specs.Ports.{MemoryView};

    ghost Value = { MemoryView };

    ghost view = { λ m. record { table = m.table.table_id; about = m.table.key } };

    ghost invariant = { λ m. (m.sizes ≡ m.table.key.sizes) ×
        (m.table.table_id.words ≡ total m.table.key.sizes) × (m.table.table_id.slots ≡ 0) };
}

// The words at opening: after the initial records all of them are 0.
fn opening_words(alloc: Global, sizes: Sizes, initial: &[u64]) -> Result<Vec<u64>, AllocError>
    requires { length initial.now ≡ sizes.m }
    ensures { IfOk result (λ words. AreOpeningWords sizes initial.now words.items) }
{
    let mut words = vec![in alloc; 0; sizes.total() as usize]?;
    for w in 0..sizes.first_free() {
        words[w as usize] = sizes.opening_word(initial, w);
    }
    Ok(words)
}

// A memory has 1 to 64 ports.
fn count_ports(ports: u32) -> Result<(), OpenError>
    ensures ok { IfOk result (λ _. (1 ≤ ports) × (ports ≤ 64)) }
    ensures err { IfErr result (λ e. (e ≡ Ports) × ((ports ≡ 0) ⊎ (64 < ports))) }
{
    if ports == 0 || ports > 64 {
        return Err(OpenError::Ports);
    }
    Ok(())
}

// Makes the ports of a new memory in their order, each with a seat of its own.
fn deal(
    alloc: Global,
    sizes: Sizes,
    words: &Words,
    mut seat: PortSeat,
    ports: u32,
) -> Result<Vec<Port>, AllocError>
    requires sizes { words.now.key.sizes ≡ sizes }
    requires few { ports ≤ 64 }
    requires table { (seat.table_id ≡ words.now.table_id) × (0 < words.now.table_id.words) }
    requires all { (seat.me ≡ (newcomers words.now.key 0 ports, [])) × (seat.steps ≡ 0) }
    ensures { IfOk result (λ a. a.items ≡ new_ports words.now.table_id (newcomers words.now.key 0 ports)) }
{
    let mut all = Vec::with_capacity(alloc, ports as usize)?;
    for number in 0..ports {
        let core = Core::new(alloc, sizes, number)?;
        let place = words.split_seat::<Deals>(&mut seat);
        all.push_reserved(Port {
            badge: place.into_badge(),
            core,
            number,
            apart: [0; 16],
        });
    }
    Ok(all)
}

impl Memory {
    /// Opens a memory whose components hold these values, and its ports, numbered from 0 in their order.
    ///
    /// # Errors
    /// [`OpenError::Ports`] exactly when there are not 1 to 64 ports, and otherwise
    /// [`OpenError::OutOfMemory`] when an allocation was refused. Nothing was made then.
    pub fn open(
        alloc: Global,
        sizes: Sizes,
        initial: &[u64],
        ports: u32,
    ) -> Result<(Memory, Vec<Port>), OpenError>
        requires { length initial.now ≡ sizes.m }
        ensures about { IfOk result (λ r. (r.0.about.sizes ≡ sizes) × (r.0.about.ports ≡ ports)) }
        ensures values { IfOk result (λ r. r.0.about.opening.values ≡ initial.now) }
        ensures first { IfOk result (λ r. r.0.about.opening.first ≡ pool_base sizes) }
        ensures ports { IfOk result (λ r. r.1.items ≡ new_ports r.0.table (newcomers r.0.about 0 ports)) }
        ensures many { IfOk result (λ r. (1 ≤ ports) × (ports ≤ 64)) }
        ensures refused { IfErr result (λ e. MayNotOpen ports e) }
    {
        count_ports(ports)?;
        let about = About {
            sizes,
            opening: Opening {
                values: Sequence::from(Vec::from_slice(alloc, initial)?),
                first: u64::from(sizes.pool_base()),
            },
            ports,
        };
        let words = opening_words(alloc, sizes, initial)?;
        let (table, seat) = Table::of_words(alloc, &words, &about)?;
        let all = deal(alloc, sizes, &table, seat, ports)?;
        Ok((Memory { sizes, table }, all))
    }

    /// Opens a memory that goes on with the values of a closed one. Components that it has more begin at 0,
    /// and its ports are numbered from 0 in their order. Stamps start anew: one of the closed memory has no
    /// meaning in this one.
    ///
    /// The closed memory stays as it is, and can be opened so again.
    ///
    /// # Errors
    /// [`OpenError::Ports`] exactly when there are not 1 to 64 ports; otherwise [`OpenError::TooSmall`]
    /// exactly when the closed memory has more components than `sizes`; otherwise
    /// [`OpenError::OutOfMemory`] when an allocation was refused. Nothing was made then.
    pub fn reopen(
        alloc: Global,
        closed: &Closed,
        sizes: Sizes,
        ports: u32,
    ) -> Result<(Memory, Vec<Port>), OpenError>
        ensures about { IfOk result (λ r. (r.0.about.sizes ≡ sizes) × (r.0.about.ports ≡ ports)) }
        ensures values { IfOk result (λ r. r.0.about.opening.values ≡ extended_values sizes.m closed.now.values.items) }
        ensures first { IfOk result (λ r. r.0.about.opening.first ≡ pool_base sizes) }
        ensures ports { IfOk result (λ r. r.1.items ≡ new_ports r.0.table (newcomers r.0.about 0 ports)) }
        ensures many { IfOk result (λ r. (1 ≤ ports) × (ports ≤ 64)) }
        ensures fits { IfOk result (λ r. length closed.now.values.items ≤ sizes.m) }
        ensures continues { IfOk result (λ r. ContinuesAll closed.now.values.items r.0.about.opening) }
        ensures refused { IfErr result (λ e. MayNotReopen ports (length closed.now.values.items) sizes.m e) }
    {
        count_ports(ports)?;
        if closed.values.len() > sizes.m() as usize {
            return Err(OpenError::TooSmall);
        }
        let mut initial = Vec::with_capacity(alloc, sizes.m() as usize)?;
        initial.extend_from_slice(&closed.values)?;
        initial.resize(sizes.m() as usize, 0)?;
        Memory::open(alloc, sizes, &initial, ports)
    }

    /// Sets component `component` to `value`, in no more atomic steps than an update may make.
    ///
    /// An applied update is the last entry of the history that the port has observed afterwards. A lost one
    /// was overwritten, during the call, by the update that it names.
    ///
    /// # Errors
    /// [`Refused::Component`] for an index that isn't below the number of components, and
    /// [`Refused::PoolSpent`] when the port is marked for the pool: no step was made. PoolSpent too
    /// when the call's claim went past the end of the pool, and the port is marked from then on.
    pub fn update(&self, me: &mut Port, component: u32, value: u64) -> Result<Updated, Refused>
        requires { IsOf self.now me.old }
        ensures same { IsOf self.now me.new }
        ensures answered { IfOk result (λ r. Updates me.old component value r me.new) }
        ensures refused { IfErr result (λ cause. IsRefused me.old (call.Update component value) cause me.new) }
        ensures led { IfOk result (λ r. IsLedToAnswer me.old me.new (call.Update component value) (noted_update r)) }
        ensures led_to_refusal { IfErr result (λ cause. IsLedWhereLate me.old me.new (call.Update component value) cause) }
    {
        me.core.may_update(component)?;
        let words = &self.table;
        match update(&mut me.core, component, value, &mut me.badge, words, None) {
            Ending::Applied { stamp } => Ok(Updated::Applied { stamp }),
            Ending::Overtaken { by } => Ok(Updated::Lost { by }),
            Ending::PoolSpent => Err(Refused::PoolSpent),
        }
    }

    /// Sets component `component` to `value` if it has the stamp `expected`, in no more atomic steps
    /// than an update may make.
    ///
    /// An applied update found that stamp, and is the last entry of the history that the port has observed
    /// afterwards. Otherwise the component had another stamp at a moment of the call.
    ///
    /// # Errors
    /// As those of [`Memory::update`].
    pub fn update_if(
        &self,
        me: &mut Port,
        component: u32,
        expected: u64,
        value: u64,
    ) -> Result<UpdatedIf, Refused>
        requires { IsOf self.now me.old }
        ensures same { IsOf self.now me.new }
        ensures answered { IfOk result (λ r. UpdatesIf me.old component expected value r me.new) }
        ensures refused { IfErr result (λ cause. IsRefused me.old (call.UpdateIf component expected value) cause me.new) }
        ensures led { IfOk result (λ r. IsLedToAnswer me.old me.new (call.UpdateIf component expected value) (noted_update_if r)) }
        ensures led_to_refusal { IfErr result (λ cause. IsLedWhereLate me.old me.new (call.UpdateIf component expected value) cause) }
    {
        me.core.may_update(component)?;
        let words = &self.table;
        match update(
            &mut me.core,
            component,
            value,
            &mut me.badge,
            words,
            Some(expected),
        ) {
            Ending::Applied { stamp } => Ok(UpdatedIf::Applied { stamp }),
            Ending::Overtaken { by } => Ok(UpdatedIf::Changed { by }),
            Ending::PoolSpent => Err(Refused::PoolSpent),
        }
    }

    /// Reads component `component`: its value and its stamp at a moment of the call, in two atomic steps.
    ///
    /// # Errors
    /// [`Refused::Component`] for an index that isn't below the number of components: no step was made.
    pub fn read(&self, me: &mut Port, component: u32) -> Result<(u64, u64), Refused>
        requires { IsOf self.now me.old }
        ensures same { IsOf self.now me.new }
        ensures answered { IfOk result (λ r. Reads me.old component r.0 r.1 me.new) }
        ensures refused { IfErr result (λ cause. (refusal me.old (call.Read component) ≡ Some cause) × (me.new ≡ me.old)) }
        ensures led { IfOk result (λ r. IsLedToAnswer me.old me.new (call.Read component) (answer.Read r.0 r.1)) }
    {
        if component >= self.sizes.m() {
            return Err(Refused::Component);
        }
        Ok(read(&self.table, &mut me.badge, &me.core, component))
    }

    /// Scans these components, in this order and with repeats: `into` has their values as they stood
    /// together at one moment of the call. It makes at most as many collects as there are positions, and
    /// two more; a scan of no position makes no step.
    ///
    /// # Errors
    /// [`Refused::Component`] for an index that isn't below the number of components, then
    /// [`Refused::PoolSpent`] and [`Refused::SlotsSpent`] when the port is marked for the pool or the
    /// slots: no step was made. PoolSpent or SlotsSpent too when a claim of the call went past the end
    /// of the pool or the slots, and the port is marked from then on. `into` is unchanged.
    pub fn scan(&self, me: &mut Port, which: &[u32], into: &mut [u64]) -> Result<Scanned, Refused>
        requires own { IsOf self.now me.old }
        requires lengths { (length into.old ≡ length which.now) × (length which.now ≤ self.now.about.sizes.m) }
        ensures same { IsOf self.now me.new }
        ensures answered { IfOk result (λ s. Scans me.old which.now into.new s me.new) }
        ensures refused { IfErr result (λ cause. IsRefused me.old (call.Scan which.now) cause me.new) }
        ensures unchanged { IfErr result (λ cause. into.new ≡ into.old) }
        ensures led { IfOk result (λ s. ScansLed me.old which.now into.new s me.new) }
        ensures led_to_refusal { IfErr result (λ cause. IsLedWhereLate me.old me.new (call.Scan which.now) cause) }
    {
        if which.is_empty() {
            return Ok(Scanned {
                collects: 0,
                borrowed: None,
            });
        }
        me.core.may_scan(which)?;
        scan(&self.table, &mut me.badge, &mut me.core, which, into)
    }

    /// Merges what two ports have observed. Takes three atomic steps. From then on the steps of both ports count for the
    /// first one.
    pub fn meet(&self, first: &mut Port, second: &mut Port)
        requires { IsOf self.now first.old × IsOf self.now second.old }
        ensures same { IsOf self.now first.new × IsOf self.now second.new }
        ensures met { Meets first.old second.old first.new second.new }
        ensures lawful { MeetsLawfully self.now first.new second.new }
    {
        let words = &self.table;
        let mut seat = take_seat(&mut first.badge);
        words.join_seat::<Gathers>(&mut seat, take_seat(&mut second.badge));
        words.load::<Looks>(&mut seat, 0);
        first.badge = words.split_seat::<Deals>(&mut seat).into_badge();
        second.badge = seat.into_badge();
    }

    /// Closes the memory with this port and these others: the values and the chains of its components
    /// after one history, which begins with all that each of these ports had observed.
    ///
    /// # Errors
    /// [`CloseError::OutOfMemory`] when an allocation was refused: the contents are lost, and nothing is
    /// returned.
    pub fn close(self, alloc: Global, port: Port, mut rest: Vec<Port>) -> Result<Closed, CloseError>
        requires port { IsOf self port }
        requires rest { AllByRecursion (IsOf self) rest.items }
        ensures closed { IfOk result (λ closed. Closes self (port ∷ rest.items) closed) }
        ensures lawful { IfOk result (λ closed. ClosesLawfully self (port ∷ rest.items) closed) }
    {
        let Memory { sizes, table } = self;
        let mut seat: PortSeat = port.into_seat();
        while let Some(port) = rest.pop() {
            table.join_seat::<Gathers>(&mut seat, port.into_seat());
        }
        let words = table.close_with(seat);
        let closed = closed_of(alloc, &words, sizes.m());
        words.free();
        Ok(closed?)
    }
}
