//! A port of a replay: its machine, and the calls that it has made.

ghost use Rattle.std.specs.Prelude.{◌≡◌, ◌<◌, ◌≤◌, ◌^◌, length, IsSome, OnOk, IfOk, IfErr, MatchBool, MatchOption, Some, None};
ghost use Rattle.std.specs.Option.{option_to_list};
ghost use Rattle.std.specs.List.{AllByRecursion};
ghost use Rattle.partial_machine.specs.declared.stage.Stage.TheVariants.{Idle};
ghost use Rattle.partial_machine.specs.Machine.{reply_of};
ghost use Rattle.partial_machine.specs.Calls.{answer_for, begun_of, refusal_of, IsServed};
ghost use Rattle.partial_replay.specs.Inner.PortState.{IsExchangeWithin, AreWithin, IsDoneAtOnce, MayAnswer, call_at_once, entry_at, unfinished_call, IsEndedCall, KeepsFit, KeepsMade, MayStep, StepMade, BeginsInTurn};

use crate::memory::Memory;
use crate::note::note_of;
use partial_core::{Core, Reply};
use partial_model::{Answer, Applied, Call, Called, Finish, Note};
use partial_words::{Event, PlainWords, Sizes, Step};
use std::alloc::{AllocError, Global};

/// A call that has begun and isn't finished. It follows the finished calls of its port.
#[derive(Clone, Copy, Debug)]
pub struct UnderWay {
    /// The length of the history when the call began.
    pub began: usize,
    /// How many atomic steps the call has made.
    pub steps: u64,
}

/// A port of a replay. Its calls are numbered as in the plan, so the number of the next call, or of the one
/// under way, is how many are finished.
#[derive(Debug, Drop)]
pub struct Port {
    /// The number of the port, counted from 0.
    pub number: u32,
    /// The machine of the port, which holds the state of the call under way.
    pub core: Core,
    /// The finished calls, in order.
    pub finished: Vec<Called>,
    /// The call under way, if there is one.
    pub under_way: Option<UnderWay>,
}

// A call that is finished as soon as it begins, without a step.
fn at_once(
    alloc: Global,
    port: u32,
    number: u32,
    call: &Call,
    seen: usize,
    answer: Answer,
    note: Option<Note>,
) -> Result<Called, AllocError>
    ensures { IfOk result (λ called. called ≡ call_at_once port number call.now seen answer note) }
{
    Ok(Called {
        port,
        number,
        call: call.copy(alloc)?,
        began: seen,
        steps: 0,
        finish: Some(Finish {
            ended: seen,
            answer,
            note,
        }),
    })
}

// Begins the call on the port's machine. Returns the finished call when it makes no step: when it is
// refused at once, or is a scan of no position.
fn begin_call(
    alloc: Global,
    core: &mut Core,
    port: u32,
    number: u32,
    call: &Call,
    seen: usize,
) -> Result<Option<Called>, AllocError>
    requires idle { core.old.stage ≡ Idle }
    requires served { IsServed core.old.sizes.m call.now }
    ensures { IfOk result (λ found. MatchOption found
        ((refusal_of core.old call.now ≡ None) × (reply_of (begun_of core.old call.now) ≡ None) ×
        (core.new ≡ begun_of core.old call.now))
        (IsDoneAtOnce port number call.now seen core.old core.new)) }
{
    if let Err(cause) = core.begin(call) {
        let answer = Answer::Refused { cause };
        let called = at_once(alloc, port, number, call, seen, answer, None)?;
        return Ok(Some(called));
    }
    let Some(reply) = core.take() else {
        return Ok(None);
    };
    let answer = core.answer_for(alloc, reply)?;
    let note = Some(Note::Saw(seen));
    let called = at_once(alloc, port, number, call, seen, answer, note)?;
    Ok(Some(called))
}

// The entry that a step adds to the history. Only a won exchange of a component word adds one.
fn entry_of(sizes: Sizes, words: &PlainWords, port: u32, step: Step, answer: u64) -> Option<Applied>
    requires { IsExchangeWithin sizes.m words.now step }
    ensures { option_to_list result ≡ entry_at sizes.m words.now port step answer }
{
    match step {
        Step::Exchange(component, old, at) => {
            if component >= sizes.m() || answer != old {
                return None;
            }
            Some(Applied {
                port,
                component,
                value: words.value_of(at as usize),
                stamp: at,
            })
        }
        _ => None,
    }
}

impl Port {
    /// Begins the next of the plan's calls that makes a step, and finishes those before it that make none.
    /// Returns whether a call is under way: if not, no call is left.
    ///
    /// # Errors
    /// [`AllocError`] when an allocation was refused. Nothing is known of the replay then.
    pub fn begin_next(
        &mut self,
        alloc: Global,
        calls: &[Call],
        seen: usize,
    ) -> Result<bool, AllocError>
        requires idle { self.old.core.stage ≡ Idle }
        requires none { self.old.under_way ≡ None }
        requires few { length self.old.finished.items ≤ length calls.now }
        requires numbers { length calls.now < 2 ^ 32 }
        requires served { AllByRecursion (IsServed self.old.core.sizes.m) calls.now }
        ensures fits { OnOk result (KeepsFit calls.now seen self.old self.new) }
        ensures made { OnOk result (KeepsMade calls.now seen self.old self.new) }
        ensures turn { OnOk result (BeginsInTurn calls.now seen self.old self.new) }
        ensures sizes { OnOk result (self.new.core.sizes ≡ self.old.core.sizes) }
        ensures more { OnOk result (length self.old.finished.items ≤ length self.new.finished.items) }
        ensures begun { IfOk result (λ begun. MatchBool begun
            (IsSome self.new.under_way × (length self.new.finished.items < length calls.now))
            ((self.new.under_way ≡ None) × (length self.new.finished.items ≡ length calls.now))) }
    {
        while self.finished.len() < calls.len() {
            let number = self.finished.len();
            let call = &calls[number];
            match begin_call(
                alloc,
                &mut self.core,
                self.number,
                number as u32,
                call,
                seen,
            )? {
                Some(called) => self.finished.push(called)?,
                None => {
                    self.under_way = Some(UnderWay {
                        began: seen,
                        steps: 0,
                    });
                    return Ok(true);
                }
            }
        }
        Ok(false)
    }

    /// Makes the due step of the call under way on the words, and finishes the call when it was the last
    /// one.
    ///
    /// # Errors
    /// [`AllocError`] when an allocation was refused. Nothing is known of the replay then.
    #[inline(always)]
    pub fn make_step(
        &mut self,
        alloc: Global,
        calls: &[Call],
        memory: &mut Memory,
    ) -> Result<(), AllocError>
        requires may { MayStep calls.now memory.old self.old }
        requires sizes { memory.old.sizes.m ≡ self.old.core.sizes.m }
        requires room { memory.old.places ≡ self.old.core.sizes.m }
        requires numbers { length calls.now < 2 ^ 32 }
        ensures made { OnOk result (StepMade calls.now memory.old memory.new self.old self.new) }
        ensures same { OnOk result ((memory.new.sizes ≡ memory.old.sizes) × (memory.new.places ≡ memory.old.places)) }
    {
        let Some((word, answer)) = self.core.load_slot(&memory.words) else {
            return self.make_other_step(alloc, calls, memory);
        };
        memory.trace.push(Event {
            port: self.number,
            step: Step::Load(word),
            answer,
        })?;
        let way = self.under_way.unwrap();
        self.under_way = Some(UnderWay {
            began: way.began,
            steps: way.steps + 1,
        });
        Ok(())
    }

    // Makes the due step, whatever it is.
    #[inline(never)]
    fn make_other_step(
        &mut self,
        alloc: Global,
        calls: &[Call],
        memory: &mut Memory,
    ) -> Result<(), AllocError>
        requires may { MayStep calls.now memory.old self.old }
        requires sizes { memory.old.sizes.m ≡ self.old.core.sizes.m }
        requires room { memory.old.places ≡ self.old.core.sizes.m }
        requires numbers { length calls.now < 2 ^ 32 }
        ensures made { OnOk result (StepMade calls.now memory.old memory.new self.old self.new) }
        ensures same { OnOk result ((memory.new.sizes ≡ memory.old.sizes) × (memory.new.places ≡ memory.old.places)) }
    {
        let way = self.under_way.unwrap();
        let (step, answer) = self.core.perform(&mut memory.words);
        memory.trace.push(Event {
            port: self.number,
            step,
            answer,
        })?;
        if let Some(entry) = entry_of(memory.sizes, &memory.words, self.number, step, answer) {
            memory.history.push(entry)?;
        }
        let way = UnderWay {
            began: way.began,
            steps: way.steps + 1,
        };
        match self.core.take() {
            Some(reply) => {
                let call = &calls[self.finished.len()];
                let called = self.ended(alloc, call, way, memory, reply)?;
                self.finished.push(called)?;
                self.under_way = None;
            }
            None => self.under_way = Some(way),
        }
        Ok(())
    }

    // The call under way, which ended with that reply.
    #[inline(never)]
    fn ended(
        &self,
        alloc: Global,
        call: &Call,
        way: UnderWay,
        memory: &mut Memory,
        reply: Reply,
    ) -> Result<Called, AllocError>
        requires ends { MayAnswer memory.old.places call.now (answer_for self.now.core reply) }
        requires within { AreWithin memory.old.places memory.old.words memory.old.history.items }
        requires numbers { length self.now.finished.items < 2 ^ 32 }
        ensures called { IfOk result (IsEndedCall self.now.number (length self.now.finished.items) call.now way
            memory.old.words memory.old.history.items (answer_for self.now.core reply)) }
        ensures same { OnOk result (memory.new ≡ memory.old) }
    {
        let port = self.number;
        let answer = self.core.answer_for(alloc, reply)?;
        let note = note_of(memory, way.began, call, &answer);
        Ok(Called {
            port,
            number: self.finished.len() as u32,
            call: call.copy(alloc)?,
            began: way.began,
            steps: way.steps,
            finish: Some(Finish {
                ended: memory.history.len(),
                answer,
                note,
            }),
        })
    }
}

/// The call under way of a port at the end of a replay, as an unfinished one.
///
/// # Errors
/// [`AllocError`] when an allocation was refused.
pub fn unfinished(
    alloc: Global,
    port: u32,
    number: u32,
    call: &Call,
    way: UnderWay,
) -> Result<Called, AllocError>
    ensures { IfOk result (λ called. called ≡ unfinished_call port number call.now way) }
{
    Ok(Called {
        port,
        number,
        call: call.copy(alloc)?,
        began: way.began,
        steps: way.steps,
        finish: None,
    })
}
