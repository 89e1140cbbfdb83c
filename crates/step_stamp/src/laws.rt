//! What the rule on the word comes to, as the contract of a function that does nothing.
ghost use Rattle.step_stamp.specs.Laws.{EachStandsOnce};

/// Between any two steps, each stamp from 1 to the word stands in the drawn list of exactly one view, and once there; each
/// link's list stands in exactly one view; and each actor is in exactly one.
pub fn each_stands_once()
    ensures { EachStandsOnce }
{}
