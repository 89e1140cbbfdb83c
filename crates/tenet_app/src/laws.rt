//! Laws of the words `play`, `race`, `make` and `audit`, each as the contract of a function that does nothing.
ghost use Rattle.tenet_app.specs.Again.{EveryRaceIsPlayedAgain, RacesArePlayedAgain};
ghost use Rattle.tenet_app.specs.Auditing.{AuditsDetermine};
ghost use Rattle.tenet_app.specs.Making.{LoadsDetermine};
ghost use Rattle.tenet_app.specs.Playing.{BytesDetermine};
ghost use Rattle.tenet_app.specs.Racing.{RacesAreDue};

/// Where nothing fails, the bytes determine the answer: a status that `play` may give is due for what the bytes come to, or memory
/// ran out; and only one status and one text are due for them. The same holds for `audit`; for `make`, where the number and the size
/// determine the answer; and for the status of `race`, whose text is that of some race.
pub fn without_a_fault_the_bytes_determine_the_answer()
    ensures plays { BytesDetermine }
    ensures races { RacesAreDue }
    ensures makes { LoadsDetermine }
    ensures audits { AuditsDetermine }
{}

/// A race is played again, exactly. Its schedule, written under its scenario where that makes at most 4,194,304 bytes, is read as one
/// by which the plan is played to the race's run. So the race's report is due for that text.
pub fn a_race_is_played_again()
    ensures { RacesArePlayedAgain }
{}

/// So is every race that `race` or `top` has made and ends as done, where the source tells its bytes. What the law above asks of a plan,
/// the plan that was read has.
pub fn every_race_is_played_again()
    ensures { EveryRaceIsPlayedAgain }
{}
