//! Laws of a link, each as the contract of a function that does nothing.
ghost use Rattle.link_server.specs.HoldsAgree.{HoldsAgree};

/// The rule by which a row expires agrees with the rule of holds, which goes by all the eligible ticks of the row's channel.
pub fn a_row_expires_when_its_hold_is_over()
    ensures { HoldsAgree }
{}
