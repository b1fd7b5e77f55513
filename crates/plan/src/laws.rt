//! States what is promised of plans, by functions that do nothing. Each has one law.
ghost use Rattle.plan.specs.Laws.{PlansAreRight};

/// States that the plan of a query's text has the value that the text means, on any bags of its
/// windows.
pub fn plans_are_right()
    ensures { PlansAreRight }
{}
