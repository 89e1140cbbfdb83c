//! Laws of plans, each as the contract of a function that does nothing.
ghost use Rattle.call_script.specs.Plans.{EveryPlanFits, EveryChannelHasOneOwner};

/// The network of every plan fits: it has 1 to 32 links; each request has a contract and goes over the plan's links, each hop
/// with the bounds and the propagation of its link; the numbers of what is sent are within the limits of an ask; and
/// best-effort packets are sent at links that take them.
pub fn every_plan_fits()
    ensures { EveryPlanFits }
{}

/// Each channel of a plan has one owner. One caller opens its request, then sends on it and then may close it, and after that
/// names it no more; no other caller names it. A channel without a request is named by no caller.
pub fn every_channel_has_one_owner()
    ensures { EveryChannelHasOneOwner }
{}
