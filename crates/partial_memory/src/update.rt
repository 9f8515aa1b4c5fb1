//! An update, whose steps are made on the shared words.

ghost use Rattle.std.specs.Prelude.{◌≡◌};
ghost use Rattle.partial_machine.specs.declared.stage.Stage.TheVariants.{Idle, UpdateBegun};
ghost use Rattle.partial_machine.specs.Lines.{set_begun};
ghost use Rattle.partial_machine.specs.Machine.{CoreState, at_stage};
ghost use Rattle.partial_machine.specs.Sound.{IsSound};
ghost use Rattle.partial_lines.specs.Lines.{set_made};
ghost use Rattle.partial_memory.specs.Rule.{IsBadgeOfOne, IsOne, SeatedPort, one_in, one_of};
ghost use Rattle.partial_memory.specs.Inner.Endings.{asked_change, ending_reply};
ghost use Rattle.partial_memory.specs.Inner.Lines.{CountsOn, IsGoing, machine_of};
ghost use Rattle.partial_memory.specs.Inner.Steps.{Begins, CallMade, CallEnded, HasCounted, IsAtRest};

use crate::lines::{SeatLines, begin_update, make};
use crate::port::take_seat;
use crate::rule::{PortSeat, View, Words};
use partial_core::{Change, Core};
use partial_lines::{Exchanged, put};
use partial_table::Badge;
use partial_words::Step;
use std::marker::Brand;

/// How an update ended. It is a tag and one word, so a function returns it in registers.
#[derive(Clone, Copy)]
pub enum Ending {
    /// It took effect, and its record has this stamp.
    Applied { stamp: u64 },
    /// It had no effect: the component had this stamp in place of the one that the update wanted to replace.
    Overtaken { by: u64 },
    /// It was refused: the claim of its record went past the end of the pool, and the port is marked.
    PoolSpent,
}

impl Ending {
    ghost use Rattle.std.specs.Prelude.{◌≡◌, Ok};
    ghost use Rattle.partial_machine.specs.declared.stage.Change.{Change};
    ghost use Rattle.partial_lines.specs.Replies.{update_reply};
    ghost use Rattle.partial_memory.specs.Inner.Endings.{ending_reply};

    // The ending of an update whose exchange was made.
    #[inline(always)]
    fn of(exchanged: Exchanged) -> Ending
        ensures { (c : Change) → ending_reply c result ≡ update_reply c (Ok exchanged) }
    {
        match exchanged {
            Exchanged::Applied { stamp } => Ending::Applied { stamp },
            Exchanged::Overtaken { by } => Ending::Overtaken { by },
        }
    }
}

/// Makes the steps of an update that isn't refused at once. Never inlined: keeps arguments and result in registers.
#[inline(never)]
pub fn update(
    core: &mut Core,
    component: u32,
    value: u64,
    badge: &mut Badge<View>,
    words: &Words,
    expected: Option<u64>,
) -> Ending
    requires one { IsBadgeOfOne badge.old.views }
    requires rest { IsAtRest words.now.table_id words.now.key badge.old.table_id (one_in badge.old.views) core.old }
    requires begins { Begins (at_stage core.old (UpdateBegun (asked_change component expected value))) (one_in badge.old.views) }
    ensures table { badge.new.table_id ≡ badge.old.table_id }
    ensures one { IsBadgeOfOne badge.new.views }
    ensures ended { CallEnded (at_stage core.old (UpdateBegun (asked_change component expected value))) (one_in badge.old.views)
        (ending_reply (asked_change component expected value) result) core.new (one_in badge.new.views) }
    ensures counted { HasCounted badge.old.steps (one_in badge.new.views) badge.new.steps }
{
    let change = Change {
        component,
        expected,
        value,
    };
    let (seat, ending) = make_update(words, take_seat(badge), core, change);
    *badge = seat.into_badge();
    ending
}

// Makes the update at a seat, and returns the seat with the answer.
#[inline(always)]
fn make_update(
    words: &Words,
    mut seat: PortSeat,
    core: &mut Core,
    change: Change,
) -> (PortSeat, Ending)
    requires one { IsOne seat.me }
    requires rest { IsAtRest words.now.table_id words.now.key seat.table_id (one_of seat.me.0) core.old }
    requires begins { Begins (at_stage core.old (UpdateBegun change)) (one_of seat.me.0) }
    ensures table { result.0.table_id ≡ seat.table_id }
    ensures one { IsOne result.0.me }
    ensures ended { CallEnded (at_stage core.old (UpdateBegun change)) (one_of seat.me.0)
        (ending_reply change result.1) core.new (one_of result.0.me.0) }
    ensures counted { HasCounted seat.steps (one_of result.0.me.0) result.0.steps }
{
    let old = begin_update::<Brand>(words, &mut seat, core, change);
    if change.expected.is_some_and(|expected| expected != old) {
        return (seat, Ending::Overtaken { by: old });
    }
    replace(words, seat, core, change, old)
}

// Makes the steps of an update after its first one, which has loaded `old`.
#[inline(always)]
fn replace(
    words: &Words,
    seat: PortSeat,
    core: &mut Core,
    change: Change,
    old: u64,
) -> (PortSeat, Ending)
    requires going { IsGoing words.now.table_id words.now.key seat.table_id seat.me }
    requires idle { core.old.stage ≡ Idle }
    requires sound { IsSound core.old }
    requires machine { machine_of seat.me ≡ set_made (set_begun core.old) change old }
    ensures table { result.0.table_id ≡ seat.table_id }
    ensures one { IsOne result.0.me }
    ensures ended { (b : CoreState) (x : SeatedPort) → Begins b x → CallMade b x (machine_of seat.me) (one_of seat.me.0) →
        CallEnded b x (ending_reply change result.1) core.new (one_of result.0.me.0) }
    ensures counted { CountsOn seat.steps (one_of seat.me.0) result.0.steps (one_of result.0.me.0) }
{
    let mut lines = SeatLines { words, seat };
    let Ok(written) = put(&mut lines, core, change, old);
    let SeatLines {
        words: _,
        seat: mut behind,
    } = lines;
    let Some(at) = written else {
        return (behind, Ending::PoolSpent);
    };
    let component = core.sizes().component_word(change.component);
    let found = make(words, &mut behind, Step::Exchange(component, old, at));
    (behind, Ending::of(Exchanged::of(old, at, found)))
}
