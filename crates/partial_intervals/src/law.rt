//! A law about sets of numbers. The function has no code: its contract holds of the definitions by which
//! the contracts of `Intervals` are stated.

ghost use Rattle.partial_intervals.specs.Intervals.{NormalFormsAreUnique};

/// Two lists of intervals in normal form that hold the same numbers are equal.
pub fn normal_forms_are_unique()
    ensures { NormalFormsAreUnique }
{}
