//! The laws of plan texts.

ghost use Rattle.std.specs.Prelude.{◌≡◌, List, ℕ, Ok};
ghost use Rattle.partial_text.specs.PlanText.{PlanView, IsPlan, PlansHaveFewCalls, plan_text};
ghost use Rattle.partial_text.specs.Judging.{judged_plan};

/// The text of a plan is judged to be that plan, and a text that is judged to be a plan is the text of it.
/// So no two texts are judged to be one plan.
pub fn texts_determine_plans()
    ensures read { (p : PlanView) → IsPlan p → judged_plan (plan_text p) ≡ Ok p }
    ensures text { (text : List ℕ) → (p : PlanView) → judged_plan text ≡ Ok p
        → IsPlan p × (text ≡ plan_text p) }
    ensures one { (a b : List ℕ) → (p : PlanView) → judged_plan a ≡ Ok p → judged_plan b ≡ Ok p → a ≡ b }
{}

/// The calls of each port of a plan can be numbered in 32 bits, since the plan's text is short.
pub fn plans_have_few_calls()
    ensures { PlansHaveFewCalls }
{}
