//! A scan, whose steps are made on the shared words.

ghost use Rattle.std.specs.Prelude.{◌≡◌, length, map, slice_index, IfOk, IfErr};
ghost use Rattle.partial_machine.specs.Lines.{scan_asked};
ghost use Rattle.partial_lines.specs.Replies.{scan_reply};
ghost use Rattle.partial_memory.specs.Rule.{IsBadgeOfOne, IsOne, one_in, one_of};
ghost use Rattle.partial_memory.specs.Inner.Steps.{Begins, HasCounted, IsAtRest, ScanEnded};

use crate::lines::{SeatLines, begin_scan};
use crate::port::take_seat;
use crate::rule::{PortSeat, View, Words};
use partial_core::Core;
use partial_lines::Scanned;
use partial_model::Refused;
use partial_table::Badge;
use std::marker::Brand;

/// Makes the steps of a scan that isn't refused at once. `into` has the values of the positions then, as the
/// machine's rows have them.
///
/// # Errors
/// As those of [`partial_lines::scan`]: `into` is unchanged.
pub fn scan(
    words: &Words,
    badge: &mut Badge<View>,
    core: &mut Core,
    which: &[u32],
    into: &mut [u64],
) -> Result<Scanned, Refused>
    requires one { IsBadgeOfOne badge.old.views }
    requires rest { IsAtRest words.now.table_id words.now.key badge.old.table_id (one_in badge.old.views) core.old }
    requires begins { Begins (scan_asked core.old which.now) (one_in badge.old.views) }
    requires lengths { length into.old ≡ length which.now }
    ensures table { badge.new.table_id ≡ badge.old.table_id }
    ensures one { IsBadgeOfOne badge.new.views }
    ensures ended { ScanEnded core.old which.now (one_in badge.old.views) (scan_reply result) core.new
        (one_in badge.new.views) }
    ensures counted { HasCounted badge.old.steps (one_in badge.new.views) badge.new.steps }
    ensures copied { IfOk result (λ _. into.new ≡ map (slice_index core.new.rows.values) which.now) }
    ensures unchanged { IfErr result (λ _. into.new ≡ into.old) }
{
    let (seat, scanned) = make_scan(words, take_seat(badge), core, which, into);
    *badge = seat.into_badge();
    scanned
}

// Makes the scan at a seat, and returns the seat with the answer.
fn make_scan(
    words: &Words,
    mut seat: PortSeat,
    core: &mut Core,
    which: &[u32],
    into: &mut [u64],
) -> (PortSeat, Result<Scanned, Refused>)
    requires one { IsOne seat.me }
    requires rest { IsAtRest words.now.table_id words.now.key seat.table_id (one_of seat.me.0) core.old }
    requires begins { Begins (scan_asked core.old which.now) (one_of seat.me.0) }
    requires lengths { length into.old ≡ length which.now }
    ensures table { result.0.table_id ≡ seat.table_id }
    ensures one { IsOne result.0.me }
    ensures ended { ScanEnded core.old which.now (one_of seat.me.0) (scan_reply result.1) core.new
        (one_of result.0.me.0) }
    ensures counted { HasCounted seat.steps (one_of result.0.me.0) result.0.steps }
    ensures copied { IfOk result.1 (λ _. into.new ≡ map (slice_index core.new.rows.values) which.now) }
    ensures unchanged { IfErr result.1 (λ _. into.new ≡ into.old) }
{
    let at = begin_scan::<Brand>(words, &mut seat, core, which);
    let mut lines = SeatLines { words, seat };
    let Ok(scanned) = partial_lines::scan(&mut lines, core, which, at, into);
    let SeatLines { words: _, seat } = lines;
    (seat, scanned)
}
