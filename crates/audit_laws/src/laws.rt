//! The laws.
ghost use Rattle.audit_laws.specs.RunLevels.{AuditsOfRunsFindNothing, EveryTickIsEarly, LevelsOfRunsAreAccepted, RowsOfRunsAreSmall, TablesOfRunsAreSound};

/// The table of a run of a plan is sound, audited with the levels with which the plan's requests were accepted in the run.
pub fn tables_of_runs_are_sound()
    ensures { TablesOfRunsAreSound }
{}

/// So an audit of the table of a run finds nothing.
pub fn audits_of_runs_find_nothing()
    ensures { AuditsOfRunsFindNothing }
{}

/// The rows of a run are small enough to be audited.
pub fn rows_of_runs_are_small()
    ensures { RowsOfRunsAreSmall }
{}

/// Each tick of a run of a plan is told early enough that the rows of the run can be made of its entries.
pub fn every_tick_is_early()
    ensures { EveryTickIsEarly }
{}

/// The levels with which a plan's requests were accepted in a run keep what the requests ask for.
pub fn levels_of_runs_are_accepted()
    ensures { LevelsOfRunsAreAccepted }
{}
