//! A law of plans: it does nothing, and whoever calls it learns what it ensures.

ghost use Rattle.layout_plan.specs.Planning.{PlansAreOne};

/// A program has at most one plan by a profile, and one without: records have one first violation, and fields one weight.
pub fn plans_are_one()
    ensures { PlansAreOne }
{}
