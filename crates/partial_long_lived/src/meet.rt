//! Meetings of two ports.

ghost use Rattle.std.specs.Prelude.{◌≡◌, ◌+◌, ◌<◌, ◌≤◌};
ghost use Rattle.partial_epochs.specs.Ports.Entering.{Stands};
ghost use Rattle.partial_long_lived.specs.Rule.{one_of};
ghost use Rattle.partial_long_lived.specs.Inner.Held.{IsHeld, port_at};
ghost use Rattle.partial_long_lived.specs.Inner.Calls.{IsIdle, StaysAt};
ghost use Rattle.partial_long_lived.specs.Inner.Meeting.{AreComparable, HasMet, Observes, WereLawful};
ghost use Rattle.partial_long_lived.specs.Inner.Steps.{SeatGoes, IsSeatKnown, IsOne};

use crate::enter::settle;
use crate::plays::{Later, Observe};
use crate::rule::{Deals, Gathers, PortSeat, Words};
use crate::stand::Stand;

/// Has two ports meet. Each has seen all that the other had seen before, and has noted nothing. The one that stands in the
/// earlier epoch enters the current one.
pub fn meet(words: &Words, first: Stand, second: Stand) -> (Stand, Stand)
    requires first { IsHeld words.now.table_id words.now.key first }
    requires second { IsHeld words.now.table_id words.now.key second }
    requires idle { IsIdle first × IsIdle second }
    ensures first { IsHeld words.now.table_id words.now.key result.0 }
    ensures second { IsHeld words.now.table_id words.now.key result.1 }
    ensures met { HasMet first second result.0 × HasMet second first result.1 }
    ensures order { AreComparable result.0 result.1 }
    ensures lawful { WereLawful words.now.key (port_at result.0) (port_at result.1) }
    ensures steps { result.0.seat.steps + result.1.seat.steps ≤ first.seat.steps + second.seat.steps + 10 }
{
    if first.epoch <= second.epoch {
        return meet_later(words, first, second);
    }
    let (second, first) = meet_later(words, second, first);
    (first, second)
}

/// Takes the port of a seat out for a meeting, which needs the seat by value. The seat that is left is of no port.
pub fn take_out(words: &Words, stand: &mut Stand) -> Stand
    requires held { IsHeld words.now.table_id words.now.key stand.old }
    ensures held { IsHeld words.now.table_id words.now.key result }
    ensures kept { StaysAt stand.old result }
    ensures same { port_at result ≡ port_at stand.old }
    ensures steps { result.seat.steps ≤ stand.old.seat.steps + 1 }
{
    Stand {
        seat: words.split_seat::<Deals>(&mut stand.seat),
        shape: stand.shape,
        epoch: stand.epoch,
        base: stand.base,
        number: stand.number,
        arena: stand.arena,
        passed: stand.passed,
    }
}

// The same where the first port stands in no later epoch than the second one.
fn meet_later(words: &Words, earlier: Stand, later: Stand) -> (Stand, Stand)
    requires earlier { IsHeld words.now.table_id words.now.key earlier }
    requires later { IsHeld words.now.table_id words.now.key later }
    requires idle { IsIdle earlier × IsIdle later }
    requires order { earlier.epoch ≤ later.epoch }
    ensures earlier { IsHeld words.now.table_id words.now.key result.0 }
    ensures later { IsHeld words.now.table_id words.now.key result.1 }
    ensures met { HasMet earlier later result.0 × HasMet later earlier result.1 }
    ensures order { AreComparable result.0 result.1 }
    ensures lawful { WereLawful words.now.key (port_at result.0) (port_at result.1) }
    ensures steps { result.0.seat.steps + result.1.seat.steps ≤ earlier.seat.steps + later.seat.steps + 10 }
{
    let is_one = earlier.epoch == later.epoch;
    let (mut first, second) = observe(words, earlier, later);
    if is_one {
        let (second, first) = observe(words, second, first);
        return (first, second);
    }
    settle::<Later>(words, &mut first);
    observe(words, first, second)
}

// Has the first port see all of its epoch, beside the other one, by the first step of a call.
fn observe(words: &Words, first: Stand, other: Stand) -> (Stand, Stand)
    requires first { IsHeld words.now.table_id words.now.key first }
    requires other { IsHeld words.now.table_id words.now.key other }
    requires idle { IsIdle first }
    ensures first { IsHeld words.now.table_id words.now.key result.0 }
    ensures other { IsHeld words.now.table_id words.now.key result.1 }
    ensures kept { StaysAt first result.0 × StaysAt other result.1 }
    ensures same { port_at result.1 ≡ port_at other }
    ensures observed { Observes (port_at first) (port_at other) (port_at result.0) }
    ensures steps { result.0.seat.steps + result.1.seat.steps ≤ first.seat.steps + other.seat.steps + 3 }
{
    let mut one = first;
    let mut two = other;
    let (seat, others) = look_together(words, one.seat, two.seat);
    one.seat = seat;
    two.seat = others;
    (one, two)
}

// The same by the seats of the two ports.
fn look_together(words: &Words, first: PortSeat, other: PortSeat) -> (PortSeat, PortSeat)
    requires tables { (first.table_id ≡ words.now.table_id) × (other.table_id ≡ words.now.table_id) }
    requires some { 0 < words.now.table_id.words }
    requires one { IsOne first.me × IsOne other.me }
    requires own { (one_of first.me.0).about ≡ words.now.key }
    requires known { IsSeatKnown (one_of first.me.0) × IsSeatKnown (one_of other.me.0) }
    requires stands { (one_of first.me.0).port.control.entering ≡ Stands }
    ensures tables { (result.0.table_id ≡ words.now.table_id) × (result.1.table_id ≡ words.now.table_id) }
    ensures one { IsOne result.0.me × IsOne result.1.me }
    ensures same { one_of result.1.me.0 ≡ one_of other.me.0 }
    ensures goes { SeatGoes (one_of first.me.0) (one_of result.0.me.0) }
    ensures observed { Observes (one_of first.me.0) (one_of other.me.0) (one_of result.0.me.0) }
    ensures steps { result.0.steps + result.1.steps ≤ first.steps + other.steps + 3 }
{
    let mut both = first;
    words.join_seat::<Gathers>(&mut both, other);
    words.load::<Observe>(&mut both, 0);
    let seat = words.split_seat::<Deals>(&mut both);
    (seat, both)
}
