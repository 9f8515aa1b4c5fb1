//! Laws about the ports of a memory and its words. The functions have no code: their contracts hold of the definitions by which those
//! of the calls are stated.

ghost use Rattle.partial_long_lived.specs.AllPorts.{ClosedWithAllPorts, OpenedPortsAreAll};
ghost use Rattle.partial_long_lived.specs.ArenaLines.{ArenasBeginLines};
ghost use Rattle.partial_long_lived.specs.StepNumbers.{MostStepsInNumbers};

/// The ports with which a memory opens are all of its ports: one for each number.
pub fn opened_ports_are_all()
    ensures { OpenedPortsAreAll }
{}

/// When a memory is closed with all its ports, in any order, there is one history of distinct stamps over all epochs. In
/// it each port's notes are legal and its entries are the updates that its notes say were applied; each entry is in the
/// notes of exactly one port; and the values are those after it.
pub fn closed_with_all_ports()
    ensures { ClosedWithAllPorts }
{}

/// Each arena begins two words before a multiple of 16, counted from the first word of the table, unless an arena has 65,536
/// slots.
pub fn arenas_begin_lines()
    ensures { ArenasBeginLines }
{}

/// With the usual options a memory of 3 components and 2 ports makes at most 4,901 steps in a change of epoch, 490,128 in
/// an update, 490,176 in a conditional one, and 4,942 in a scan of all components. With 64 components and 4 ports these are
/// 14,298, 4,716,560, 4,716,608 and 18,914.
pub fn most_steps_in_numbers()
    ensures { MostStepsInNumbers }
{}
