//! The replay of a whole plan.

ghost use Rattle.std.specs.Prelude.{IfOk};
ghost use Rattle.partial_replay.specs.Replayed.{IsReplayOf, outcome_view, replayed_view};

use crate::run::Run;
use partial_text::{Outcome, Plan, Replayed, in_one_list};
use std::alloc::{AllocError, Global};
use thiserror::Error;

/// Why a plan wasn't replayed. Nothing is left of the replay.
#[derive(Clone, Copy, Debug, PartialEq, Eq, Error)]
pub enum ReplayError {
    /// An allocation was refused.
    #[error("out of memory")]
    OutOfMemory,
}

impl ReplayError {
    ghost use Rattle.std.specs.Prelude.{◌≡◌};

    /// The number of the refusal: 6.
    pub fn code(&self) -> u8
        ensures { result ≡ 6 }
    {
        match self {
            ReplayError::OutOfMemory => 6,
        }
    }
}

impl From<AllocError> for ReplayError {
    fn from(_error: AllocError) -> ReplayError {
        ReplayError::OutOfMemory
    }
}

/// Replays a plan: it takes the plan's turns one after the other on a memory of its own, and returns the
/// outcome.
///
/// In a turn a port makes one atomic step. When no call is under way, its next call begins. A call that
/// makes no step is finished at once, and the next one begins. A port without a call left makes no step.
///
/// # Errors
///
/// `OutOfMemory` when an allocation was refused: there was no room for the words, the trace or the calls. A plan
/// may ask for more steps than any machine has room to trace. Nothing is left of the replay.
pub fn replay(alloc: Global, plan: &Plan) -> Result<Outcome, ReplayError>
    ensures { IfOk result (λ outcome. IsReplayOf plan.now (outcome_view outcome)) }
{
    let replayed = replay_apart(alloc, plan)?;
    Ok(Outcome {
        opening: replayed.opening,
        history: replayed.history,
        calls: in_one_list(alloc, replayed.calls)?,
        words: replayed.words.into_vec(),
        trace: replayed.trace.into_vec(alloc)?,
        steps: replayed.steps,
    })
}

/// Replays a plan as [`replay`] does, and returns what it has made as it was held: each port's calls in a list of their
/// own, and no word stored that no step has reached. For who needs neither all calls in one list nor all words.
///
/// # Errors
///
/// As those of [`replay`].
pub fn replay_apart(alloc: Global, plan: &Plan) -> Result<Replayed, ReplayError>
    ensures { IfOk result (λ replayed. IsReplayOf plan.now (replayed_view replayed)) }
{
    let plans = plan.ports();
    let mut run = Run::open(alloc, plan.sizes(), plan.initial(), plans)?;
    for (p, count) in plan.steps() {
        run.turns(alloc, *p as usize, plans, *count)?;
    }
    if plan.rest() {
        for p in 0..plans.len() {
            run.to_the_end(alloc, p, plans)?;
        }
    }
    Ok(run.into_replayed(alloc, plans)?)
}
