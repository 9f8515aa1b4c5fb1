//! A read, whose steps are made on the shared words.

ghost use Rattle.std.specs.Prelude.{◌≡◌};
ghost use Rattle.partial_machine.specs.declared.stage.Reply.TheVariants as reply;
ghost use Rattle.partial_machine.specs.declared.stage.Stage.TheVariants.{ReadBegun};
ghost use Rattle.partial_machine.specs.Machine.{at_stage};
ghost use Rattle.partial_memory.specs.Rule.{IsBadgeOfOne, one_in};
ghost use Rattle.partial_memory.specs.Inner.Steps.{Begins, CallEnded, HasCounted, IsAtRest};

use crate::lines::{SeatLines, begin_read};
use crate::port::take_seat;
use crate::rule::{View, Words};
use partial_core::Core;
use partial_table::Badge;
use std::marker::Brand;

/// Makes the steps of a read that isn't refused at once, and returns the value and the stamp of the component.
#[inline(always)]
pub fn read(words: &Words, badge: &mut Badge<View>, core: &Core, component: u32) -> (u64, u64)
    requires one { IsBadgeOfOne badge.old.views }
    requires rest { IsAtRest words.now.table_id words.now.key badge.old.table_id (one_in badge.old.views) core.now }
    requires begins { Begins (at_stage core.now (ReadBegun component)) (one_in badge.old.views) }
    ensures table { badge.new.table_id ≡ badge.old.table_id }
    ensures one { IsBadgeOfOne badge.new.views }
    ensures ended { CallEnded (at_stage core.now (ReadBegun component)) (one_in badge.old.views)
        (reply.Read result.0 result.1) core.now (one_in badge.new.views) }
    ensures counted { HasCounted badge.old.steps (one_in badge.new.views) badge.new.steps }
{
    let mut seat = take_seat(badge);
    let stamp = begin_read::<Brand>(words, &mut seat, core, component);
    let mut lines = SeatLines { words, seat };
    let Ok(value) = partial_lines::read(&mut lines, stamp);
    let SeatLines { words: _, seat } = lines;
    *badge = seat.into_badge();
    (value, stamp)
}
