//! A law about what a command writes. The function has no code: its contract holds of the definitions by
//! which the contract of `execute` is stated.

ghost use Rattle.partial_cmd.specs.Execution.{PlansHaveOneAnswer};

/// The bytes of a plan's text determine what a verb asks to be written, so two commands that succeed with
/// one plan write the same.
pub fn plans_have_one_answer()
    ensures { PlansHaveOneAnswer }
{}
