//! The law on where asks go.
ghost use Rattle.run_engine.specs.runs.Linked.{EveryAskGoesToALink};

/// What an actor asks next, in any run of a network whose parts fit, is asked of a link of the network.
pub fn every_ask_goes_to_a_link()
    ensures { EveryAskGoesToALink }
{}
