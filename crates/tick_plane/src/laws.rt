//! Laws of the plane, each as the contract of a function that does nothing.
ghost use Rattle.tick_plane.specs.QuietRounds.{QuietRoundsAreTicksAlone};
ghost use Rattle.tick_plane.specs.Rounds.{RoundsAreAskedInTurn};

/// What is left of a round is what the plane asks in it, one ask after the other, whatever it is replied, as long as no packet
/// that leaves in the round reaches a link in it. Then the next round begins.
pub fn rounds_are_asked_in_turn()
    ensures { RoundsAreAskedInTurn }
{}

/// In rounds in which no flight is due the plane asks for the ticks of its links alone, in their order; and where no packet leaves
/// for another link in them, it then stands that many rounds later with the flights that it had.
pub fn quiet_rounds_are_ticks_alone()
    ensures { QuietRoundsAreTicksAlone }
{}
