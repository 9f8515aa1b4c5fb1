//! A replay under way: the words, the ports that work on them, and what has happened so far.

ghost use Rattle.std.specs.Prelude.{◌≡◌, ◌<◌, ◌≤◌, ◌^◌, ◌++◌, length, slice_get, slice_index, IfOk, OnOk, MatchBool, IsSome, Some, None, []};
ghost use Rattle.std.specs.Bool.{OnTrue};
ghost use Rattle.partial_words.specs.Layout.{IsLayout};
ghost use Rattle.partial_words.specs.Chain.{AreOpeningWords};
ghost use Rattle.partial_text.specs.Replayed.{calls_in_order};
ghost use Rattle.partial_replay.specs.Replayed.{replayed_view};
ghost use Rattle.partial_replay.specs.Inner.RunState.{AreFreshPorts, AreListed, calls_in, left_over};

use crate::memory::Memory;
use crate::port::{Port, unfinished};
use crate::wanted::Wanted;
use partial_core::Core;
use partial_model::{Call, Called, Opening, Sequence};
use partial_text::Replayed;
use partial_words::{PlainWords, Sizes, Step, Trace};
use std::alloc::{AllocError, Global};

/// The state of a replay.
#[derive(Debug, Drop)]
pub struct Run {
    /// The initial values, and the stamp of component 0 at opening.
    pub opening: Opening,
    /// The words, and what has happened to them.
    pub memory: Memory,
    /// The ports, by their number.
    pub ports: Vec<Port>,
}

// The words at opening. After the initial records all of them are 0.
fn opening_words(alloc: Global, sizes: Sizes, initial: &[u64]) -> Result<PlainWords, AllocError>
    requires { length initial.now ≡ sizes.m }
    ensures { IfOk result (AreOpeningWords sizes initial.now) }
{
    let mut words = PlainWords::zeros(alloc, sizes.total() as usize)?;
    for w in 0..sizes.first_free() {
        words.perform(Step::Store(w, sizes.opening_word(initial, w)));
    }
    Ok(words)
}

impl Run {
    ghost use Rattle.partial_replay.specs.Inner.RunState.{ArePlans, AreStarted, IsBetweenTurns, IsTurnReady, IsReplay, ChangesPortsOnly, IsSameOpening, GivesOutcome, port_left_at};
    ghost use Rattle.partial_replay.specs.Inner.TurnState.{BeginsIn, GoesOnBy, HaveBegun, IsPortDone, StayDone, StayStoppedBut, StayStoppedWith, StepsIn, StopAtSteps, TurnMade, TurnsMade};

    /// Opens the replay of a plan with these ports.
    ///
    /// # Errors
    /// [`AllocError`] when an allocation was refused.
    pub fn open(
        alloc: Global,
        sizes: Sizes,
        initial: &[u64],
        plans: &[Sequence<Call>],
    ) -> Result<Run, AllocError>
        requires sizes { IsLayout sizes }
        requires values { length initial.now ≡ sizes.m }
        requires ports { length plans.now ≤ 64 }
        requires plans { ArePlans sizes.m plans.now }
        ensures between { IfOk result (IsBetweenTurns plans.now) }
        ensures opening { IfOk result (λ run. (run.memory.sizes ≡ sizes) × (run.opening.values ≡ initial.now)) }
        ensures trace { IfOk result (λ run. run.memory.trace ≡ []) }
        ensures begun { IfOk result (HaveBegun plans.now []) }
        ensures ending { IfOk result (StopAtSteps []) }
    {
        let first = u64::from(sizes.pool_base());
        Ok(Run {
            opening: Opening {
                values: Sequence::from(Vec::from_slice(alloc, initial)?),
                first,
            },
            memory: Memory {
                sizes,
                words: opening_words(alloc, sizes, initial)?,
                history: Vec::new(alloc),
                trace: Trace::new(alloc),
                places: Wanted::new(alloc, sizes.m() as usize)?,
            },
            ports: fresh_ports(alloc, sizes, plans)?,
        })
    }

    /// Takes one turn of a port: it makes one step. Returns whether it had a call left.
    ///
    /// # Errors
    /// [`AllocError`] when an allocation was refused. Nothing is known of the replay then.
    #[inline(always)]
    pub fn turn(
        &mut self,
        alloc: Global,
        p: usize,
        plans: &[Sequence<Call>],
    ) -> Result<bool, AllocError>
        requires between { IsBetweenTurns plans.now self.old }
        requires port { p < length plans.now }
        ensures between { OnOk result (IsBetweenTurns plans.now self.new) }
        ensures same { OnOk result (IsSameOpening self.old self.new) }
        ensures turn { IfOk result (λ stepped. TurnMade plans.now p self.old stepped self.new) }
        ensures progress { IfOk result (λ stepped. OnTrue stepped
            (port_left_at p plans.now self.new.ports.items < port_left_at p plans.now self.old.ports.items)) }
    {
        if !self.get_ready(alloc, p, plans)? {
            return Ok(false);
        }
        self.make_step(alloc, p, plans)?;
        Ok(true)
    }

    // Begins the port's next call when none is under way. Returns whether one is under way then.
    #[inline(always)]
    fn get_ready(
        &mut self,
        alloc: Global,
        p: usize,
        plans: &[Sequence<Call>],
    ) -> Result<bool, AllocError>
        requires between { IsBetweenTurns plans.now self.old }
        requires port { p < length plans.now }
        ensures replay { OnOk result (IsReplay plans.now self.new) }
        ensures same { OnOk result (ChangesPortsOnly self.old self.new) }
        ensures ready { IfOk result (λ ready. MatchBool ready (IsTurnReady p self.new)
            (IsPortDone plans.now self.new.ports.items p × AreStarted self.new.ports.items)) }
        ensures begun { OnOk result (BeginsIn plans.now p (length self.old.memory.history.items) self.old.ports.items
            self.new.ports.items) }
        ensures done { OnOk result (StayDone plans.now self.old self.new) }
        ensures ending { OnOk result (StayStoppedBut p self.old self.new) }
        ensures left { OnOk result (port_left_at p plans.now self.new.ports.items ≤ port_left_at p plans.now
            self.old.ports.items) }
    {
        let calls = plans[p].as_slice();
        let seen = self.memory.history.len();
        let port = &mut self.ports[p];
        if port.under_way.is_some() {
            return Ok(true);
        }
        let begun = port.begin_next(alloc, calls, seen)?;
        Ok(begun)
    }

    // Makes the due step of a port whose call is under way.
    #[inline(always)]
    fn make_step(
        &mut self,
        alloc: Global,
        p: usize,
        plans: &[Sequence<Call>],
    ) -> Result<(), AllocError>
        requires replay { IsReplay plans.now self.old }
        requires port { p < length plans.now }
        requires ready { IsTurnReady p self.old }
        ensures between { OnOk result (IsBetweenTurns plans.now self.new) }
        ensures same { OnOk result (IsSameOpening self.old self.new) }
        ensures trace { OnOk result (GoesOnBy 1 p self.old self.new) }
        ensures begun { OnOk result (StepsIn plans.now p self.old.ports.items self.new.ports.items) }
        ensures ending { OnOk result (StayStoppedWith p self.old self.new) }
        ensures done { OnOk result (StayDone plans.now self.old self.new) }
        ensures progress { OnOk result (port_left_at p plans.now self.new.ports.items < port_left_at p plans.now
            self.old.ports.items) }
    {
        let calls = plans[p].as_slice();
        let port = &mut self.ports[p];
        port.make_step(alloc, calls, &mut self.memory)
    }

    /// Takes so many turns of a port, or fewer when it has no call left.
    ///
    /// # Errors
    /// [`AllocError`] when an allocation was refused. Nothing is known of the replay then.
    pub fn turns(
        &mut self,
        alloc: Global,
        p: usize,
        plans: &[Sequence<Call>],
        count: u32,
    ) -> Result<(), AllocError>
        requires between { IsBetweenTurns plans.now self.old }
        requires port { p < length plans.now }
        ensures between { OnOk result (IsBetweenTurns plans.now self.new) }
        ensures same { OnOk result (IsSameOpening self.old self.new) }
        ensures turns { OnOk result (TurnsMade plans.now p (Some count) self.old self.new) }
    {
        for _ in 0..count {
            if !self.turn(alloc, p, plans)? {
                break;
            }
        }
        Ok(())
    }

    /// Takes turns of a port until it has no call left, however many.
    ///
    /// # Errors
    /// [`AllocError`] when an allocation was refused. Nothing is known of the replay then.
    pub fn to_the_end(
        &mut self,
        alloc: Global,
        p: usize,
        plans: &[Sequence<Call>],
    ) -> Result<(), AllocError>
        requires between { IsBetweenTurns plans.now self.old }
        requires port { p < length plans.now }
        ensures between { OnOk result (IsBetweenTurns plans.now self.new) }
        ensures same { OnOk result (IsSameOpening self.old self.new) }
        ensures turns { OnOk result (TurnsMade plans.now p None self.old self.new) }
    {
        while self.turn(alloc, p, plans)? {}
        Ok(())
    }

    /// Returns what the replay has made.
    ///
    /// # Errors
    /// [`AllocError`] when an allocation was refused.
    pub fn into_replayed(
        self,
        alloc: Global,
        plans: &[Sequence<Call>],
    ) -> Result<Replayed, AllocError>
        requires { IsReplay plans.now self }
        ensures { IfOk result (λ replayed. GivesOutcome plans.now self (replayed_view replayed)) }
    {
        let Run {
            opening,
            memory,
            ports,
        } = self;
        let Memory {
            words,
            history,
            trace,
            ..
        } = memory;
        let steps = trace.len() as u64;
        Ok(Replayed {
            opening,
            history,
            calls: calls_of(alloc, ports, plans)?,
            words,
            trace,
            steps,
        })
    }
}

// The ports of a plan before their first call. Each has room for all of its plan's calls.
fn fresh_ports(
    alloc: Global,
    sizes: Sizes,
    plans: &[Sequence<Call>],
) -> Result<Vec<Port>, AllocError>
    requires { length plans.now ≤ 64 }
    ensures { IfOk result (λ ports. AreFreshPorts sizes (length plans.now) ports.items) }
{
    let mut ports = Vec::with_capacity(alloc, plans.len())?;
    for number in 0..plans.len() {
        let room = plans[number].len();
        let number = number as u32;
        ports.push(Port {
            number,
            core: Core::new(alloc, sizes, number)?,
            finished: Vec::with_capacity(alloc, room)?,
            under_way: None,
        })?;
    }
    Ok(ports)
}

// The calls that a port has begun: the finished ones, and then the one that is left unfinished.
fn calls_of_port(alloc: Global, port: Port, plan: &[Call]) -> Result<Vec<Called>, AllocError>
    requires short { length plan.now < 2 ^ 32 }
    requires within { IsSome port.under_way → length port.finished.items < length plan.now }
    ensures { IfOk result (λ calls. calls.items ≡ port.finished.items ++
        left_over port (slice_get plan.now (length port.finished.items)) port.under_way) }
{
    let Port {
        number,
        mut finished,
        under_way,
        ..
    } = port;
    if let Some(way) = under_way {
        let done = finished.len();
        let call = unfinished(alloc, number, done as u32, &plan[done], way)?;
        finished.push(call)?;
    }
    Ok(finished)
}

// The calls that each port has begun, by port.
fn calls_of(
    alloc: Global,
    ports: Vec<Port>,
    plans: &[Sequence<Call>],
) -> Result<Vec<Vec<Called>>, AllocError>
    requires { AreListed plans.now ports.items }
    ensures { IfOk result (λ calls. calls_in_order calls.items ≡ calls_in plans.now ports.items) }
{
    let mut calls = Vec::with_capacity(alloc, ports.len())?;
    for (port, plan) in ports.into_iter().zip(plans) {
        calls.push(calls_of_port(alloc, port, plan.as_slice())?)?;
    }
    Ok(calls)
}
