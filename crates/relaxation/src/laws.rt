//! A law of the allotment, as the contract of a function that does nothing.
ghost use Rattle.relaxation.specs.Laws.{AllottedLevelsFit};

/// Where the destination denies nothing, each hop is allotted one of its levels, from the offered one to its reach, the
/// delay over the route is at most the request's bound, and under delay-jitter control the last hop's bound is at most
/// the jitter bound.
pub fn allotted_levels_fit()
    ensures { AllottedLevelsFit }
{}
